ghost use Rattle.std.specs.Prelude.{◌≡◌, ◌+◌, ◌≤◌, ◌<◌, ◌++◌, ◌∷◌, ◌^◌, [], ◌&&◌, nat_le, length, drop, IfOk};
ghost use Rattle.bus_types.specs.Relay.{IsRoom, sum_of};
ghost use Rattle.range_ring.specs.Words.{room_of};
ghost use Rattle.range_ring.specs.Stocked.{surplus_for};

use crate::words::Limits;
use bus_types::NoMemory;
use std::alloc::Global;
use std::collections::VecDeque;
use std::marker::Model;

/// The sizes of windows, the oldest first. Room for the most that there can be was taken when it was made.
#[derive(Drop)]
pub(crate) struct Sizes {
    sizes: VecDeque<u64>,
    total: u64,
    most: u32,
}

impl Model for Sizes {
    ghost use Rattle.std.specs.Prelude.{◌≡◌, ◌≤◌};
    ghost use Rattle.std.specs.VecDeque.{deque_capacity};
    ghost use Rattle.bus_types.specs.Relay.{sum_of};
    ghost use Rattle.range_ring.specs.Stocked.{SizesAre};

    ghost Value = { SizesAre };

    ghost view = { λ s. record { most = s.most; sizes = s.sizes.items } };

    ghost invariant = { λ s. (s.total ≡ sum_of s.sizes.items) × (s.most ≤ deque_capacity s.sizes) };
}

impl Sizes {
    /// No size, and room for so many.
    pub fn new(alloc: Global, most: u32) -> Result<Sizes, NoMemory>
        ensures { IfOk result (λ s. s ≡ record { most = most; sizes = [] }) }
    {
        let sizes = VecDeque::with_capacity(alloc, most as usize)?;
        Ok(Sizes {
            sizes,
            total: 0,
            most,
        })
    }

    // Lets the oldest one go.
    fn drop_oldest(&mut self)
        ensures { self.new ≡ record self.old { sizes = drop 1 self.old.sizes } }
    {
        if let Some(oldest) = self.sizes.pop_front() {
            self.total -= oldest;
        }
    }

    /// Lets the so many oldest ones go.
    #[tactic(auto, using(crate::proofs::Feeding::drop_next))]
    pub fn drop_front(&mut self, count: u64)
        ensures { self.new ≡ record self.old { sizes = drop count self.old.sizes } }
    {
        for _ in 0..count {
            self.drop_oldest();
        }
    }

    /// Appends one.
    #[tactic(auto, using(crate::proofs::Feeding::sum_snoc))]
    pub fn push(&mut self, size: u64)
        requires room { length self.old.sizes < self.old.most }
        requires total { sum_of self.old.sizes + size < 2 ^ 64 }
        ensures { self.new ≡ record self.old { sizes = self.old.sizes ++ size ∷ [] } }
    {
        let Ok(()) = self.sizes.push_back(size) else {
            unreachable!();
        };
        self.total += size;
    }

    /// How many of the oldest have to go, so that there is room for the rest and for one more.
    pub fn surplus(&self, limits: &Limits, size: u64) -> u64
        requires room { IsRoom (room_of limits.now) }
        requires small { size ≤ 1048576 }
        requires total { sum_of self.now.sizes < 2 ^ 63 }
        ensures value { result ≡ surplus_for limits.now self.now.sizes size }
        ensures few { result ≤ length self.now.sizes }
    {
        let count = self.sizes.len();
        let mut total = self.total + size;
        for gone in 0..count {
            if limits.have_room((count - gone) as u64 + 1, total) {
                return gone as u64;
            }
            total -= self.sizes[gone];
        }
        count as u64
    }
}
