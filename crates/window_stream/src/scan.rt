ghost use Rattle.std.specs.Prelude.{◌≡◌, ◌<◌, List, IfOk, OnErr};
ghost use Rattle.bus_types.specs.Window.{Span};
ghost use Rattle.event_codec.specs.Items.{since_of, open_in, Shows};
ghost use Rattle.event_codec.specs.Streams.{Begun};
ghost use Rattle.window_stream.specs.Scan.{IsScan, front_at, ShowsEvent, unscanned, MovesOn, Advances, Reaches, AppendsSome};

use crate::decode::changes_of;
use bus_types::{NoMemory, Window};
use event_codec::{Events, Follows, Item, MARK_SIZE, item_front};
use std::alloc::Global;

// How far a stream is scanned.
#[derive(Clone, Copy, Debug)]
pub(crate) struct Scan<'a> {
    pub follows: Follows,
    pub events: Events,
    // The bytes behind the whole windows. They begin with those events.
    pub rest: &'a [u8],
}

// Where a scan stops.
#[derive(Clone, Copy, Debug)]
pub(crate) enum Stop {
    // At an item that isn't whole yet.
    Unfinished,
    // At a head that can't stand.
    Refused,
}

// A step of a scan.
enum Step<'a> {
    On(Scan<'a>),
    At(Stop),
}

// Behind one more event.
fn with_event<'a>(scan: Scan<'a>, scn: u64, size: usize) -> Scan<'a>
    requires begun { IsScan scan }
    requires found { ShowsEvent scan scn size }
    ensures moves { (windows : List Span) → MovesOn scan.entry result windows windows }
    ensures less { unscanned result < unscanned scan.entry }
{
    let events = Events {
        scn: Some(scn),
        count: scan.events.count + 1,
        size: scan.events.size + size,
    };
    Scan {
        follows: scan.follows,
        events,
        rest: scan.rest,
    }
}

// Behind the mark that stands behind the events. The window is appended to `whole`.
fn with_mark<'a>(
    alloc: Global,
    scan: Scan<'a>,
    scn: u64,
    prev: u64,
    whole: &mut Vec<Window>,
) -> Result<Scan<'a>, NoMemory>
    requires begun { IsScan scan }
    requires found { Shows (Item.Mark scn prev) (front_at scan) }
    ensures moves { IfOk result (λ next. MovesOn scan.entry next whole.old.items whole.new.items) }
    ensures less { IfOk result (λ next. unscanned next < unscanned scan.entry) }
    ensures err { OnErr result (whole.new.items ≡ whole.old.items) }
{
    let (events, behind) = scan.rest.split_at(scan.events.size);
    let (_mark, rest) = behind.split_at(MARK_SIZE);
    let changes = changes_of(alloc, scan.events.count, events)?;
    whole.push(Window::cut(scn, prev, changes).unwrap())?;
    let follows = Follows {
        floor: scn,
        started: true,
    };
    Ok(Scan {
        follows,
        events: Events::NONE,
        rest,
    })
}

// Scans one item.
fn advance<'a>(alloc: Global, scan: Scan<'a>, whole: &mut Vec<Window>) -> Result<Step<'a>, NoMemory>
    requires { IsScan scan }
    ensures { Advances result scan.entry whole.old.items whole.new.items }
{
    let (_events, behind) = scan.rest.split_at(scan.events.size);
    match item_front(scan.follows, scan.events, behind) {
        Item::Unfinished => Ok(Step::At(Stop::Unfinished)),
        Item::Refused => Ok(Step::At(Stop::Refused)),
        Item::Event { scn, size, .. } => Ok(Step::On(with_event(scan, scn, size))),
        Item::Mark { scn, prev } => Ok(Step::On(with_mark(alloc, scan, scn, prev, whole)?)),
    }
}

// Scans to the end or to a head that can't stand. The windows on the way are appended to `whole`, also before want of
// memory.
fn scan_items<'a>(
    alloc: Global,
    from: Scan<'a>,
    whole: &mut Vec<Window>,
) -> Result<(Scan<'a>, Stop), NoMemory>
    requires { IsScan from }
    ensures ok { IfOk result (λ end. Reaches (since_of from.entry.follows) from.entry.rest.now end whole.old.items whole.new.items) }
    ensures err { OnErr result (AppendsSome whole.old.items whole.new.items) }
{
    let mut scan = from;
    loop {
        match advance(alloc, scan, whole)? {
            Step::On(next) => scan = next,
            Step::At(stop) => return Ok((scan, stop)),
        }
    }
}

// Scans bytes of which these events are scanned already, to their end or to a head that can't stand. The windows on the
// way are appended to `whole`. After want of memory it is as before.
pub(crate) fn scan_all<'a>(
    alloc: Global,
    follows: Follows,
    events: Events,
    bytes: &'a [u8],
    whole: &mut Vec<Window>,
) -> Result<(Scan<'a>, Stop), NoMemory>
    requires { Begun (since_of follows) (open_in events) bytes.now }
    ensures ok { IfOk result (λ end. Reaches (since_of follows) bytes.now end whole.old.items whole.new.items) }
    ensures err { OnErr result (whole.new.items ≡ whole.old.items) }
{
    let before = whole.len();
    let from = Scan {
        follows,
        events,
        rest: bytes,
    };
    match scan_items(alloc, from, whole) {
        Ok(done) => Ok(done),
        Err(NoMemory) => {
            whole.truncate(before);
            Err(NoMemory)
        }
    }
}
