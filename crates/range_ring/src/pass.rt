ghost use Rattle.std.specs.Prelude.{◌≡◌, ◌+◌, ◌≤◌, ◌≢◌, max, [], MatchOption, IfOk, IfErr};
ghost use Rattle.range_ring.specs.Words.{IsSeen};
ghost use Rattle.range_ring.specs.declared.first.Miss.TheVariants.{Again};
ghost use Rattle.range_ring.specs.Answering.{IsFirst, IsMissed, HasScn, IsLawful, HasLooked};
ghost use Rattle.range_ring.specs.Belonging.{RingIs, Sits, fresh_pass};

use crate::first::{Miss, first_after};
use crate::numbers::Numbers;
use crate::ring::Ring;
use crate::steps::{join, load_floor, load_tail, split};
use crate::words::Place;
use bus_types::{NoMemory, Timeline};
use ring_cells::Shown;
use std::alloc::Global;
use std::marker::{Model, PhantomData};
use std::sync::Wait;
use std::thread;

/// The right of one reader to look at a ring's numbers. It never sees lower ones than it has seen. It belongs to the ring
/// that was made with it.
#[derive(Drop)]
pub struct Pass<T: Timeline> {
    place: Place,
    evicted: u64,
    published: u64,
    // The position behind the windows that it opened last, at which the next ones that it opens likely begin.
    likely: u64,
    timeline: PhantomData<T>,
}

impl<T: Timeline> Model for Pass<T> {
    ghost use Rattle.range_ring.specs.Belonging.{PassIs, pass_of, Knows};

    ghost Value = { PassIs };

    ghost view = { λ p. pass_of p.place.table_id p.place.me.0 };

    ghost invariant = { λ p. Knows p.place.me p.evicted p.published };
}

/// What a pass or the feeder had seen, which another pass can meet. It belongs to the same ring.
#[derive(Drop)]
pub struct Note<T: Timeline> {
    place: Place,
    evicted: u64,
    published: u64,
    timeline: PhantomData<T>,
}

impl<T: Timeline> Model for Note<T> {
    ghost use Rattle.range_ring.specs.Belonging.{NoteIs, note_of, Knows};

    ghost Value = { NoteIs };

    ghost view = { λ n. note_of n.place.table_id n.place.me.0 };

    ghost invariant = { λ n. Knows n.place.me n.evicted n.published };
}

impl<T: Timeline> Note<T> {
    // A note by a new seat, which knows these numbers.
    pub(crate) fn new(place: Place, evicted: u64, published: u64) -> Note<T>
        requires empty { place.me.1 ≡ [] }
        requires evicted { place.me.0.evicted ≡ evicted }
        requires published { place.me.0.published ≡ published }
        ensures { result ≡ record { home = record { table = place.table_id; limits = place.me.0.limits }; evicted = evicted; published = published } }
    {
        Note {
            place,
            evicted,
            published,
            timeline: PhantomData,
        }
    }
}

impl<T: Timeline> Pass<T> {
    // A pass that has seen nothing.
    pub(crate) fn new(place: Place) -> Pass<T>
        requires empty { place.me.1 ≡ [] }
        requires evicted { place.me.0.evicted ≡ 0 }
        requires published { place.me.0.published ≡ 0 }
        requires floor_loads { place.me.0.floor_loads ≡ 0 }
        requires tail_loads { place.me.0.tail_loads ≡ 0 }
        ensures { result ≡ fresh_pass (record { table = place.table_id; limits = place.me.0.limits }) }
    {
        Pass {
            place,
            evicted: 0,
            published: 0,
            likely: 0,
            timeline: PhantomData,
        }
    }

    /// The greatest numbers that it has seen. It makes no step.
    pub fn seen(&self) -> Numbers
        ensures { result ≡ record { evicted = self.now.evicted; published = self.now.published } }
    {
        Numbers {
            evicted: self.evicted,
            published: self.published,
        }
    }

    /// Loads how many windows were evicted, and has seen it then.
    pub fn oldest(&mut self, ring: &Ring<T>) -> u64
        requires { self.old.home ≡ ring.now }
        ensures pass { self.new ≡ record self.old { evicted = result; floor_loads = self.old.floor_loads + 1 } }
        ensures later { self.old.evicted ≤ result }
    {
        self.evicted = load_floor(&ring.board.shared, &mut self.place);
        self.evicted
    }

    /// Loads how many windows were published, and has seen it then.
    pub fn newest(&mut self, ring: &Ring<T>) -> u64
        requires { self.old.home ≡ ring.now }
        ensures pass { self.new ≡ record self.old { published = result; tail_loads = self.old.tail_loads + 1 } }
        ensures later { self.old.published ≤ result }
        ensures order { self.old.evicted ≤ result }
        ensures lawful { IsSeen ring.now.limits T.told self.old.evicted result }
    {
        self.published = load_tail(&ring.board.shared, &mut self.place);
        self.published
    }

    // Loads how many windows were evicted, and then how many were published.
    fn look(&mut self, ring: &Ring<T>) -> Numbers
        requires { self.old.home ≡ ring.now }
        ensures pass { self.new ≡ record self.old { evicted = result.evicted; published = result.published; floor_loads = self.old.floor_loads + 1; tail_loads = self.old.tail_loads + 1 } }
        ensures later { (self.old.evicted ≤ result.evicted) × (self.old.published ≤ result.published) }
        ensures order { result.evicted ≤ result.published }
        ensures seen { IsSeen ring.now.limits T.told result.evicted result.published }
    {
        let evicted = self.oldest(ring);
        let published = self.newest(ring);
        Numbers { evicted, published }
    }

    /// Keeps the position behind the windows that it opens, of which contracts see nothing.
    pub(crate) fn went_on(&mut self, position: u64)
        ensures { self.new ≡ self.old }
    {
        self.likely = position;
    }

    /// Claims the first window after an SCN, or tells why there is none, at numbers that it loads. It looks again, and so
    /// may wait, where the ring went on meanwhile.
    pub(crate) fn first_after<'r, R: Wait>(
        &mut self,
        rt: &R,
        ring: &'r Ring<T>,
        scn: u64,
    ) -> Result<Shown<'r, T>, Miss>
        requires { self.old.home ≡ ring.now }
        ensures looked { HasLooked self.old self.new }
        ensures lawful { IsLawful T.told self.new }
        ensures found { IfOk result (λ shown. IsFirst T.told self.new.evicted self.new.published scn shown) }
        ensures missed { IfErr result (λ miss. (miss ≢ Again) × IsMissed T.told self.new.evicted self.new.published scn miss) }
        ensures within { IfErr result HasScn }
    {
        for _ in rt.forever() {
            let numbers = self.look(ring);
            match first_after(ring, &numbers, scn, self.likely) {
                Ok(shown) => return Ok(shown),
                Err(Miss::NotFound(floor)) => return Err(Miss::NotFound(floor)),
                Err(Miss::Empty(tail)) => return Err(Miss::Empty(tail)),
                Err(Miss::Again) => thread::yield_now(),
            }
        }
        unreachable!()
    }

    /// A copy of what it has seen.
    pub fn note(&mut self, ring: &Ring<T>) -> Note<T>
        requires { self.old.home ≡ ring.now }
        ensures note { result ≡ record { home = ring.now; evicted = self.old.evicted; published = self.old.published } }
        ensures pass { self.new ≡ self.old }
    {
        let place = split(&ring.board.shared, &mut self.place);
        Note::new(place, self.evicted, self.published)
    }

    /// Joins a note. The pass has then seen what the note had, too.
    pub fn meet(&mut self, ring: &Ring<T>, note: Note<T>)
        requires pass { self.old.home ≡ ring.now }
        requires note { note.home ≡ ring.now }
        ensures { self.new ≡ record self.old { evicted = max self.old.evicted note.evicted; published = max self.old.published note.published } }
    {
        let Note {
            place,
            evicted,
            published,
            timeline: _,
        } = note;
        join(&ring.board.shared, &mut self.place, place);
        self.evicted = self.evicted.max(evicted);
        self.published = self.published.max(published);
    }
}

/// The passes of a ring that were not taken yet. Each has seen nothing.
#[derive(Drop)]
pub struct Passes<T: Timeline> {
    place: Place,
    passes: Vec<Pass<T>>,
}

impl<T: Timeline> Model for Passes<T> {
    ghost use Rattle.std.specs.Prelude.{length};
    ghost use Rattle.range_ring.specs.Belonging.{PassesAre, ArePasses};

    ghost Value = { PassesAre };

    ghost view = { λ p. record { home = record { table = p.place.table_id; limits = p.place.me.0.limits }; count = length p.passes.items } };

    ghost invariant = { λ p. ArePasses p.place.table_id p.place.me p.passes.items };
}

impl<T: Timeline> Passes<T> {
    // So many fresh passes, by seats that are split from one that has seen nothing.
    #[tactic(auto, using(crate::proofs::Fresh::all_same))]
    pub(crate) fn new(
        alloc: Global,
        ring: &Ring<T>,
        place: &mut Place,
        count: u32,
    ) -> Result<Passes<T>, NoMemory>
        requires place_sits { Sits ring.now place.old.table_id place.old.me }
        requires evicted { place.old.me.0.evicted ≡ 0 }
        requires published { place.old.me.0.published ≡ 0 }
        requires floor_loads { place.old.me.0.floor_loads ≡ 0 }
        requires tail_loads { place.old.me.0.tail_loads ≡ 0 }
        ensures passes { IfOk result (λ p. p ≡ record { home = ring.now; count = count }) }
        ensures sits { Sits ring.now place.new.table_id place.new.me }
        ensures same { place.new.me ≡ place.old.me }
    {
        let root = split(&ring.board.shared, place);
        let mut passes = Vec::with_capacity(alloc, count as usize)?;
        for _ in 0..count {
            passes.push(Pass::new(split(&ring.board.shared, place)))?;
        }
        Ok(Passes {
            place: root,
            passes,
        })
    }

    /// Takes one. `None` comes exactly where none is left.
    pub fn pop(&mut self) -> Option<Pass<T>>
        ensures pass { MatchOption result (self.old.count ≡ 0) (λ pass. (pass ≡ fresh_pass self.old.home) × (self.new.count + 1 ≡ self.old.count)) }
        ensures home { self.new.home ≡ self.old.home }
    {
        self.passes.pop()
    }
}
