ghost use Rattle.std.specs.Prelude.{◌≡◌, ◌<◌, ◌&&◌, IsTrue, IsFalse, nat_le, false, None, MatchOption, MatchResult};
ghost use Rattle.bus_types.specs.Relay.{most_windows};
ghost use Rattle.partition_filter.specs.Selection.{test_of};
ghost use Rattle.event_codec.specs.Items.{Shows};
ghost use Rattle.bus_wire.specs.Lawful.{has_enough, HoldsRun, StopsAt};
ghost use Rattle.bus_wire.specs.Run.{IsReached, front_at, Halts, Goes, Stays, is_whole};

use crate::fault::BadReply;
use bus_types::{Accepts, Key};
use event_codec::{Events, Follows, Item, MARK_SIZE, item_front};
use partition_filter::Filter;

// The most windows that a reply has.
const MAX_WINDOWS: u32 = 32;

// The bytes of a reply that may be windows above a floor and up to a top, of which a filter accepts the changes.
#[derive(Clone, Copy)]
struct Windows<'a> {
    floor: u64,
    top: u64,
    filter: &'a Filter,
    bytes: &'a [u8],
}

// How far windows are read: what the next one follows, what of it has come, the whole windows, and the place behind all.
#[derive(Clone, Copy)]
struct Run {
    follows: Follows,
    events: Events,
    count: u32,
    place: usize,
}

impl Run {
    // Nothing is read.
    fn new(floor: u64) -> Run
        ensures { result ≡ record { follows = record { floor = floor; started = false }; events = record { scn = None; count = 0; size = 0 }; count = 0; place = 0 } }
    {
        Run {
            follows: Follows {
                floor,
                started: false,
            },
            events: Events::NONE,
            count: 0,
            place: 0,
        }
    }
}

// Whether a window may have so many changes.
fn has_enough(filter: &Filter, count: usize) -> bool
    ensures { result ≡ has_enough filter.now count }
{
    !filter.is_all() || count > 0
}

impl<'a> Windows<'a> {
    // Whether an event of a window of this SCN may stand.
    fn takes_event(&self, scn: u64, source: u16, key: u64) -> bool
        ensures { result ≡ (nat_le scn self.now.top && test_of self.now.filter.now source (Key.Long key)) }
    {
        scn <= self.top && self.filter.accepts(source, &Key::Long(key))
    }

    // Whether the mark of a window of this SCN may stand behind so many events.
    fn takes_mark(&self, scn: u64, count: usize) -> bool
        ensures { result ≡ (nat_le scn self.now.top && has_enough self.now.filter.now count) }
    {
        scn <= self.top && has_enough(self.filter, count)
    }

    // Moves behind an event, and answers whether it may stand.
    fn with_event(&self, run: &mut Run, scn: u64, source: u16, key: u64, size: usize) -> bool
        requires reached { IsReached self.now run.old }
        requires room { run.old.count < most_windows }
        requires found { Shows (Item.Event scn source key size) (front_at self.now run.old) }
        ensures goes { IsTrue result → Goes self.now run.old run.new }
        ensures stays { IsFalse result → Stays self.now run.old run.new }
    {
        if !self.takes_event(scn, source, key) {
            return false;
        }
        run.events.scn = Some(scn);
        run.events.count += 1;
        run.events.size += size;
        run.place += size;
        true
    }

    // Moves behind a mark, and answers whether it may stand.
    fn with_mark(&self, run: &mut Run, scn: u64, prev: u64) -> bool
        requires reached { IsReached self.now run.old }
        requires room { run.old.count < most_windows }
        requires found { Shows (Item.Mark scn prev) (front_at self.now run.old) }
        ensures goes { IsTrue result → Goes self.now run.old run.new }
        ensures stays { IsFalse result → Stays self.now run.old run.new }
    {
        if !self.takes_mark(scn, run.events.count) {
            return false;
        }
        run.follows.floor = scn;
        run.follows.started = true;
        run.events.scn = None;
        run.events.count = 0;
        run.events.size = 0;
        run.count += 1;
        run.place += MARK_SIZE;
        true
    }

    // Moves behind one more item, and answers whether one can stand. It changes the numbers where they are: to copy them
    // costs more than to read an item.
    fn advance(&self, run: &mut Run) -> bool
        requires { IsReached self.now run.old }
        ensures goes { IsTrue result → Goes self.now run.old run.new }
        ensures stays { IsFalse result → Stays self.now run.old run.new }
    {
        if run.count == MAX_WINDOWS {
            return false;
        }
        match item_front(run.follows, run.events, &self.bytes[run.place..]) {
            Item::Unfinished => false,
            Item::Refused => false,
            Item::Event {
                scn,
                source,
                key,
                size,
            } => self.with_event(run, scn, source, key, size),
            Item::Mark { scn, prev } => self.with_mark(run, scn, prev),
        }
    }

    // Whether the reply is whole here: behind a window, and nothing is left.
    fn is_whole(&self, run: Run) -> bool
        ensures { result ≡ is_whole self.now run }
    {
        run.count > 0 && run.events.count == 0 && run.place == self.bytes.len()
    }

    // What was read where no more can be: the number of windows and the SCN of the last one.
    fn end(&self, run: Run) -> Result<(u32, u64), BadReply>
        requires reached { IsReached self.now run }
        requires halts { Halts self.now run }
        ensures { MatchResult result (λ found. HoldsRun self.now.floor self.now.top self.now.filter.now self.now.bytes.now found.0 found.1)
            (λ fault. StopsAt self.now.floor self.now.top self.now.filter.now self.now.bytes.now fault.place) }
    {
        if self.is_whole(run) {
            return Ok((run.count, run.follows.floor));
        }
        Err(BadReply {
            place: run.place as u64,
        })
    }
}

// The number of windows and the SCN of the last one, where the bytes are windows above a floor and up to a top, of which
// a filter accepts the changes.
pub(crate) fn check_windows(
    floor: u64,
    top: u64,
    filter: &Filter,
    bytes: &[u8],
) -> Result<(u32, u64), BadReply>
    ensures { MatchResult result (λ found. HoldsRun floor top filter.now bytes.now found.0 found.1)
        (λ fault. StopsAt floor top filter.now bytes.now fault.place) }
{
    let windows = Windows {
        floor,
        top,
        filter,
        bytes,
    };
    let mut run = Run::new(floor);
    while windows.advance(&mut run) {}
    windows.end(run)
}
