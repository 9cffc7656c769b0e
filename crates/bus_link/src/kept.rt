ghost use Rattle.std.specs.Prelude.{◌≡◌, [], ◌∷◌, ◌++◌, take, IfOk};

use crate::returned::Returned;
use bus_types::NoMemory;
use std::alloc::Global;
use std::marker::Model;

/// What was handed back, in order. Contracts see it whole; the first ones are kept, for which room was taken.
#[derive(Drop)]
pub(crate) struct Kept<X> {
    kept: Vec<X>,
    room: usize,
    all: Returned<X>,
}

impl<X> Model for Kept<X> {
    ghost use Rattle.std.specs.Prelude.{◌≡◌, ◌≤◌, take, vec_capacity};
    ghost use Rattle.bus_link.specs.Handed.{Shelf};

    ghost Value = { Shelf X };

    ghost view = { λ k. record { all = k.all; room = k.room } };

    ghost invariant = { λ k. (k.kept.items ≡ take k.room k.all) × (k.room ≤ vec_capacity k.kept) };
}

impl<X: Drop> Kept<X> {
    /// Nothing was handed back, and so many are to be kept. The memory for them is taken here, and no other call takes any.
    pub fn new(alloc: Global, room: usize) -> Result<Kept<X>, NoMemory>
        ensures { IfOk result (λ kept. kept ≡ record { all = []; room = room }) }
    {
        Ok(Kept {
            kept: Vec::with_capacity(alloc, room)?,
            room,
            all: Returned::new(),
        })
    }

    /// One more was handed back.
    #[tactic(auto, using(crate::proofs::Fronts::fronts))]
    pub fn push(&mut self, one: X)
        ensures { self.new ≡ record self.old { all = self.old.all ++ one ∷ [] } }
    {
        self.all.push(&one);
        if self.kept.len() < self.room {
            self.kept.push(one).unwrap();
        }
    }

    /// Those that are kept.
    pub fn kept(&self) -> &[X]
        ensures { result.now ≡ take self.now.room self.now.all }
    {
        &self.kept
    }
}
