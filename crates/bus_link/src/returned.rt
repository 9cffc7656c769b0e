ghost use Rattle.std.specs.Prelude.{◌≡◌, [], ◌∷◌, ◌++◌};

use std::marker::Model;
use std::snapshot::Snapshot;

/// What was handed back, in order, which contracts alone see. It takes no memory, and no program can read it.
#[derive(Drop)]
pub(crate) struct Returned<X> {
    last: Option<Snapshot<X>>,
    before: Option<Snapshot<Returned<X>>>,
}

impl<X> Model for Returned<X> {
    ghost use Rattle.std.specs.Prelude.{◌≡◌, ℕ, List, length, option_map, is_some};
    ghost use Rattle.std.proofs.Common.{arith, length-append};
    ghost use Rattle.bus_link.specs.Handed.{list_after};

    ghost Value = { List X };

    ghost view = { λ r. list_after (option_map (λ s. s.value) r.before) (option_map (λ s. s.value) r.last) };

    ghost invariant = { λ r. is_some r.before ≡ is_some r.last };

    ghost size = { λ xs. length xs };

    ghost size_decreases = { λ a h. Prim.grind (arith, length-append) };
}

impl<X> Returned<X> {
    /// Nothing was handed back.
    pub fn new() -> Returned<X>
        ensures { result ≡ [] }
    {
        Returned {
            last: None,
            before: None,
        }
    }

    /// One more was handed back.
    pub fn push(&mut self, one: &X)
        ensures { self.new ≡ self.old ++ one.now ∷ [] }
    {
        let before = Snapshot::of(self);
        *self = Returned {
            last: Some(Snapshot::of(one)),
            before: Some(before),
        };
    }
}
