ghost use Rattle.std.specs.Prelude.{◌≡◌, ◌≤◌, ◌<◌, ◌+◌, ◌^◌, ℕ, [], length};
ghost use Rattle.bus_types.specs.Window.{Span, span_size};
ghost use Rattle.ring_cells.specs.Entries.{IsAt};
ghost use Rattle.range_ring.specs.Words.{IsEvicted, MayPublish};
ghost use Rattle.range_ring.specs.Stocked.{surplus_for};
ghost use Rattle.range_ring.specs.Belonging.{Sits, Feeds, feeder_of, published_by};

use crate::numbers::Numbers;
use crate::pass::Note;
use crate::placed::put;
use crate::ring::Ring;
use crate::steps::{raise_floor, raise_tail, split};
use crate::stock::Stock;
use crate::words::Place;
use bus_types::Timeline;
use ring_cells::Entry;
use std::marker::{Model, PhantomData};
use std::sync::Wait;

/// The right to publish on a ring, of which there is one. It belongs to the ring that was made with it. Contracts see its
/// numbers, and the sizes of the windows that it has not evicted.
#[derive(Drop)]
pub struct Feeder<T: Timeline> {
    place: Place,
    stock: Stock,
    timeline: PhantomData<T>,
}

impl<T: Timeline> Model for Feeder<T> {
    ghost use Rattle.range_ring.specs.Belonging.{FeederIs, feeder_of, Feeds};

    ghost Value = { FeederIs };

    ghost view = { λ f. feeder_of f.place.table_id f.place.me.0 f.stock };

    ghost invariant = { λ f. Feeds T.told f.place.me f.stock };
}

// Raises FLOOR for the window of an entry, which is published next.
fn evict<T: Timeline>(ring: &Ring<T>, place: &mut Place, stock: &Stock, entry: &Entry<T>)
    requires table { place.old.table_id ≡ ring.now.table }
    requires limits { stock.now.limits ≡ ring.now.limits }
    requires place_feeds { Feeds T.told place.old.me stock.now }
    requires next { entry.now.position ≡ stock.now.published }
    ensures sits { Sits ring.now place.new.table_id place.new.me }
    ensures raised { place.new.me ≡ (record place.old.me.0 { evicted = stock.now.evicted + surplus_for stock.now.limits stock.now.sizes (length entry.now.bytes) }, []) }
    ensures may { MayPublish ring.now.limits T.told place.new.me.0 }
{
    let evicted = stock.evicted_after(entry.bytes().len() as u64);
    raise_floor(&ring.board.shared, place, evicted);
}

impl<T: Timeline> Feeder<T> {
    // A feeder by a seat that feeds.
    pub(crate) fn new(place: Place, stock: Stock) -> Feeder<T>
        requires { Feeds T.told place.me stock }
        ensures { result ≡ feeder_of place.table_id place.me.0 stock }
    {
        Feeder {
            place,
            stock,
            timeline: PhantomData,
        }
    }

    /// How many windows were evicted and published. It makes no step.
    pub fn numbers(&self) -> Numbers
        ensures value { result ≡ record { evicted = self.now.evicted; published = self.now.published } }
        ensures told { IsEvicted self.now.home.limits T.told self.now.published self.now.evicted }
        ensures order { result.evicted ≤ result.published }
        ensures bound { result.published ≤ 2 ^ 63 }
    {
        Numbers {
            evicted: self.stock.evicted(),
            published: self.stock.published(),
        }
    }

    /// How many windows are evicted once an entry of this many bytes is published. It makes no step.
    pub fn evicted_after(&self, size: u64) -> u64
        requires { size ≤ 1048576 }
        ensures value { result ≡ self.now.evicted + surplus_for self.now.home.limits self.now.sizes size }
        ensures told { (window : Span) → IsAt T.told self.now.published window → size ≡ span_size window → IsEvicted self.now.home.limits T.told (self.now.published + 1) result }
    {
        self.stock.evicted_after(size)
    }

    /// Publishes the next window: evicts the fewest oldest ones that make it fit, puts its entry into the cell that is
    /// due, once the readers of the entry that stands there have left it, and then tells it as published. The entry that
    /// it replaces is dropped. It may wait.
    pub fn publish<R: Wait>(&mut self, rt: &R, ring: &Ring<T>, entry: Entry<T>)
        requires home { self.old.home ≡ ring.now }
        requires next { entry.position ≡ self.old.published }
        ensures feeder { self.new ≡ published_by self.old (length entry.bytes) }
        ensures told { IsEvicted self.new.home.limits T.told self.new.published self.new.evicted }
    {
        let size = entry.bytes().len() as u64;
        evict(ring, &mut self.place, &self.stock, &entry);
        let placed = put(rt, ring, entry);
        raise_tail(&ring.board.shared, &mut self.place, placed);
        self.stock.add(size);
    }

    /// A note of its numbers, which a pass can meet.
    pub fn note(&mut self, ring: &Ring<T>) -> Note<T>
        requires { self.old.home ≡ ring.now }
        ensures note { result ≡ record { home = ring.now; evicted = self.old.evicted; published = self.old.published } }
        ensures feeder { self.new ≡ self.old }
    {
        let place = split(&ring.board.shared, &mut self.place);
        Note::new(place, self.stock.evicted(), self.stock.published())
    }
}
