ghost use Rattle.std.specs.Prelude.{◌≡◌};
ghost use Rattle.range_ring.specs.Answering.{IsLawful, HasLooked};
ghost use Rattle.range_ring.specs.Opening.{Opens, IsWithin};

use crate::first::Miss;
use crate::pass::Pass;
use crate::range::{Range, gather};
use crate::ring::Ring;
use bus_types::{Accepts, Timeline};
use std::sync::Wait;
use std::thread;

/// What a pass finds after an SCN.
#[derive(Drop)]
pub enum Opened<'r, T: Timeline, F: Accepts> {
    /// The windows right after it.
    Range(Range<'r, T, F>),
    /// A window after it was evicted. The floor is the SCN of the newest one that was.
    NotFound { floor: u64 },
    /// No window after it is published. The tail is the SCN of the newest one that is, or 0.
    Empty { tail: u64 },
    /// The first window after it needs so many bytes, which are more than may come.
    TooSmall { need: u64 },
}

impl<T: Timeline> Pass<T> {
    /// Opens the windows right after an SCN for reading, at numbers that it loads: the longest run of at most 32 windows of
    /// which a filter leaves at most `max` bytes. It holds no claim but those of the range that it gives. It looks again,
    /// and so may wait, where the ring went on meanwhile.
    #[tactic(auto, using(crate::proofs::Gathering::opens_range, crate::proofs::Gathering::opens_small, crate::proofs::Gathering::opens_not_found, crate::proofs::Gathering::opens_empty))]
    pub fn open<'r, R: Wait, F: Accepts>(
        &mut self,
        rt: &R,
        ring: &'r Ring<T>,
        scn: u64,
        filter: &'r F,
        max: u32,
    ) -> Opened<'r, T, F>
        requires { self.old.home ≡ ring.now }
        ensures looked { HasLooked self.old self.new }
        ensures lawful { IsLawful T.told self.new }
        ensures opened { Opens T.told self.new scn (F.test filter.now) max filter.now result }
        ensures within { IsWithin result }
    {
        for _ in rt.forever() {
            match self.first_after(rt, ring, scn) {
                Ok(first) => match gather(ring, first, filter, self.seen().published, max as u64) {
                    Some(Ok(range)) => {
                        self.went_on(range.past());
                        return Opened::Range(range);
                    }
                    Some(Err(need)) => return Opened::TooSmall { need },
                    None => thread::yield_now(),
                },
                Err(Miss::NotFound(floor)) => return Opened::NotFound { floor },
                Err(Miss::Empty(tail)) => return Opened::Empty { tail },
                Err(Miss::Again) => unreachable!(),
            }
        }
        unreachable!()
    }
}
