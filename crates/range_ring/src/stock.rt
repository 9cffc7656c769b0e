ghost use Rattle.std.specs.Prelude.{◌≡◌, ◌+◌, ◌≤◌, ◌<◌, ◌^◌, IfOk};
ghost use Rattle.bus_types.specs.Relay.{IsRoom};
ghost use Rattle.range_ring.specs.Words.{room_of};
ghost use Rattle.range_ring.specs.Stocked.{new_stock, surplus_for, grown};

use crate::sizes::Sizes;
use crate::words::Limits;
use bus_types::NoMemory;
use std::alloc::Global;
use std::marker::Model;

/// How many windows a feeder evicted and published, and the sizes of those between.
#[derive(Drop)]
pub(crate) struct Stock {
    limits: Limits,
    evicted: u64,
    published: u64,
    sizes: Sizes,
}

impl Model for Stock {
    ghost use Rattle.range_ring.specs.Stocked.{StockIs, IsStock};

    ghost Value = { StockIs };

    ghost view = { λ s. record { limits = s.limits; evicted = s.evicted; published = s.published; sizes = s.sizes.sizes } };

    ghost invariant = { λ s. IsStock (record { limits = s.limits; evicted = s.evicted; published = s.published; sizes = s.sizes.sizes }) s.sizes.most };
}

impl Stock {
    /// Nothing was published.
    pub fn new(alloc: Global, limits: Limits) -> Result<Stock, NoMemory>
        requires { IsRoom (room_of limits) }
        ensures { IfOk result (λ s. s ≡ new_stock limits) }
    {
        let sizes = Sizes::new(alloc, limits.windows)?;
        Ok(Stock {
            limits,
            evicted: 0,
            published: 0,
            sizes,
        })
    }

    /// How many windows were evicted.
    pub fn evicted(&self) -> u64
        ensures value { result ≡ self.now.evicted }
        ensures order { result ≤ self.now.published }
    {
        self.evicted
    }

    /// How many windows were published.
    pub fn published(&self) -> u64
        ensures value { result ≡ self.now.published }
        ensures bound { result ≤ 2 ^ 63 }
    {
        self.published
    }

    /// How many windows are evicted once one of this size is published.
    pub fn evicted_after(&self, size: u64) -> u64
        requires { size ≤ 1048576 }
        ensures value { result ≡ self.now.evicted + surplus_for self.now.limits self.now.sizes size }
        ensures few { result ≤ self.now.published }
        ensures room { IsRoom (room_of self.now.limits) }
    {
        self.evicted + self.sizes.surplus(&self.limits, size)
    }

    /// A window of this size is published.
    pub fn add(&mut self, size: u64)
        requires small { size ≤ 1048576 }
        requires bound { self.old.published < 2 ^ 63 }
        ensures { self.new ≡ grown self.old size }
    {
        let gone = self.sizes.surplus(&self.limits, size);
        self.sizes.drop_front(gone);
        self.sizes.push(size);
        self.evicted += gone;
        self.published += 1;
    }
}
