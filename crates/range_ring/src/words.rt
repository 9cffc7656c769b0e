ghost use Rattle.std.specs.Prelude.{◌≡◌, ◌&&◌, nat_le};

use atomic_table::{Seat, Shared, Table, TableRule};
use bus_types::Timeline;
use std::alloc::Global;
use std::marker::PhantomData;

/// What a ring serves at most: bytes of windows in full, and windows.
#[derive(Clone, Copy, Debug, PartialEq, Eq)]
pub struct Limits {
    /// From 1,048,576 to 268,435,456.
    pub bytes: u64,
    /// From 1 to 65,536.
    pub windows: u32,
}

impl Limits {
    /// Whether there is room for so many windows and bytes.
    pub(crate) fn have_room(&self, windows: u64, bytes: u64) -> bool
        ensures { result ≡ (nat_le windows self.now.windows && nat_le bytes self.now.bytes) }
    {
        windows <= self.windows as u64 && bytes <= self.bytes
    }
}

/// What a seat at the words knows: the greatest numbers that it has seen, how often it loaded each word, whether it is the
/// feeder's, and the ring's limits. No value of it is made.
pub struct View {
    pub evicted: u64,
    pub published: u64,
    pub floor_loads: u64,
    pub tail_loads: u64,
    pub feeds: bool,
    pub limits: Limits,
}

/// The rule that the words and all views keep to.
pub struct WordsRule<T> {
    timeline: PhantomData<T>,
}

impl<T: Timeline> TableRule<u8, View, Limits> for WordsRule<T> {
    ghost use Rattle.range_ring.specs.Words.{Kept, feeding};

    ghost holds = { λ limits s. Kept limits T.told s.words s.views };

    ghost first = { feeding };
}

/// How many windows were evicted.
pub(crate) const FLOOR: usize = 0;

/// How many windows were published.
pub(crate) const TAIL: usize = 1;

/// The words as the threads share them.
pub(crate) type Words<T> = Shared<u8, View, Limits, WordsRule<T>>;

/// The words with their memory.
pub(crate) type Board<T> = Table<u8, View, Limits, WordsRule<T>, Global>;

/// A seat at the words. It has no bytes.
pub(crate) type Place = Seat<u8, View>;
