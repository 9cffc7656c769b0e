//! The six kinds of step at the words. What stands above them makes no other.
ghost use Rattle.std.specs.Prelude.{◌≡◌, ◌≤◌, ◌+◌, ◌<◌, ◌^◌, max, true, []};
ghost use Rattle.bus_types.specs.Relay.{IsRoom};
ghost use Rattle.range_ring.specs.Words.{room_of, IsSeen, copied, met, MayEvict, MayPublish};
ghost use Rattle.range_ring.specs.Belonging.{Sits};

use crate::placed::Placed;
use crate::plays::{Copied, LoadFloor, LoadTail, Met, RaiseFloor, RaiseTail};
use crate::words::{FLOOR, Place, TAIL, Words};
use bus_types::Timeline;

/// Loads FLOOR.
pub(crate) fn load_floor<T: Timeline>(words: &Words<T>, place: &mut Place) -> u64
    requires { Sits (record { table = words.now.table_id; limits = words.now.key }) place.old.table_id place.old.me }
    ensures sits { Sits (record { table = words.now.table_id; limits = words.now.key }) place.new.table_id place.new.me }
    ensures seen { place.new.me ≡ (record place.old.me.0 { evicted = result; floor_loads = place.old.me.0.floor_loads + 1 }, []) }
    ensures later { place.old.me.0.evicted ≤ result }
{
    words.load::<LoadFloor>(place, FLOOR)
}

/// Loads TAIL.
pub(crate) fn load_tail<T: Timeline>(words: &Words<T>, place: &mut Place) -> u64
    requires { Sits (record { table = words.now.table_id; limits = words.now.key }) place.old.table_id place.old.me }
    ensures sits { Sits (record { table = words.now.table_id; limits = words.now.key }) place.new.table_id place.new.me }
    ensures seen { place.new.me ≡ (record place.old.me.0 { published = result; tail_loads = place.old.me.0.tail_loads + 1 }, []) }
    ensures later { place.old.me.0.published ≤ result }
    ensures order { place.old.me.0.evicted ≤ result }
    ensures lawful { IsSeen words.now.key T.told place.old.me.0.evicted result }
{
    words.load::<LoadTail<T>>(place, TAIL)
}

/// A new seat, which has seen what another has.
pub(crate) fn split<T: Timeline>(words: &Words<T>, place: &mut Place) -> Place
    requires { Sits (record { table = words.now.table_id; limits = words.now.key }) place.old.table_id place.old.me }
    ensures sits { Sits (record { table = words.now.table_id; limits = words.now.key }) place.new.table_id place.new.me }
    ensures same { place.new.me ≡ place.old.me }
    ensures new_sits { Sits (record { table = words.now.table_id; limits = words.now.key }) result.table_id result.me }
    ensures copied { result.me ≡ (copied place.old.me.0, []) }
{
    words.split_seat::<Copied>(place)
}

/// A seat has then seen what another has too, which is let go.
pub(crate) fn join<T: Timeline>(words: &Words<T>, place: &mut Place, other: Place)
    requires place_sits { Sits (record { table = words.now.table_id; limits = words.now.key }) place.old.table_id place.old.me }
    requires other_sits { Sits (record { table = words.now.table_id; limits = words.now.key }) other.table_id other.me }
    ensures sits { Sits (record { table = words.now.table_id; limits = words.now.key }) place.new.table_id place.new.me }
    ensures met { place.new.me ≡ (met place.old.me.0 other.me.0, []) }
{
    words.join_seat::<Met>(place, other);
}

/// The feeder raises FLOOR to so many.
pub(crate) fn raise_floor<T: Timeline>(words: &Words<T>, place: &mut Place, evicted: u64)
    requires place_sits { Sits (record { table = words.now.table_id; limits = words.now.key }) place.old.table_id place.old.me }
    requires room { IsRoom (room_of words.now.key) }
    requires feeds { place.old.me.0.feeds ≡ true }
    requires may { MayEvict words.now.key T.told place.old.me.0 evicted }
    ensures sits { Sits (record { table = words.now.table_id; limits = words.now.key }) place.new.table_id place.new.me }
    ensures raised { place.new.me ≡ (record place.old.me.0 { evicted = max place.old.me.0.evicted evicted }, []) }
{
    words.fetch_max::<RaiseFloor>(place, FLOOR, evicted);
}

/// The feeder raises TAIL by one, over the window whose entry was put.
pub(crate) fn raise_tail<T: Timeline>(words: &Words<T>, place: &mut Place, placed: Placed)
    requires place_sits { Sits (record { table = words.now.table_id; limits = words.now.key }) place.old.table_id place.old.me }
    requires room { IsRoom (room_of words.now.key) }
    requires feeds { place.old.me.0.feeds ≡ true }
    requires next { placed.position ≡ place.old.me.0.published }
    requires bound { placed.position < 2 ^ 63 }
    requires may { MayPublish words.now.key T.told place.old.me.0 }
    ensures sits { Sits (record { table = words.now.table_id; limits = words.now.key }) place.new.table_id place.new.me }
    ensures raised { place.new.me ≡ (record place.old.me.0 { published = place.old.me.0.published + 1 }, []) }
{
    words.fetch_max::<RaiseTail>(place, TAIL, placed.published());
}
