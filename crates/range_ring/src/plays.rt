use crate::words::View;
use atomic_table::{Join, Play, Split};
use bus_types::Timeline;
use std::marker::PhantomData;

/// A load of FLOOR.
pub(crate) struct LoadFloor;

impl Play<u8, View> for LoadFloor {
    ghost use Rattle.range_ring.specs.Words.{floor_seen};

    ghost then = { floor_seen };
}

/// A load of TAIL.
pub(crate) struct LoadTail<T> {
    timeline: PhantomData<T>,
}

impl<T: Timeline> Play<u8, View> for LoadTail<T> {
    ghost use Rattle.range_ring.specs.Words.{tail_seen};

    ghost then = { tail_seen T.told };
}

/// A raise of FLOOR.
pub(crate) struct RaiseFloor;

impl Play<u8, View> for RaiseFloor {
    ghost use Rattle.range_ring.specs.Words.{floor_raised};

    ghost then = { floor_raised };
}

/// A raise of TAIL.
pub(crate) struct RaiseTail;

impl Play<u8, View> for RaiseTail {
    ghost use Rattle.range_ring.specs.Words.{tail_raised};

    ghost then = { tail_raised };
}

/// A new seat copies the numbers of another.
pub(crate) struct Copied;

impl Split<View> for Copied {
    ghost use Rattle.range_ring.specs.Words.{copied};

    ghost left = { λ v. v };

    ghost right = { copied };
}

/// A seat takes the greater numbers of its own and of another's.
pub(crate) struct Met;

impl Join<View> for Met {
    ghost use Rattle.range_ring.specs.Words.{met, spent};

    ghost both = { met };

    ghost spent = { spent };
}
