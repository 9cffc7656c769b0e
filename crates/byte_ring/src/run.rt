ghost use Rattle.std.specs.Prelude.{◌≡◌, ◌+◌, ◌≤◌, ◌<◌, length, take, IfSome, if◌then◌else◌};
ghost use Rattle.bus_types.specs.Change.{Test};
ghost use Rattle.bus_types.specs.Cut.{cut_size};
ghost use Rattle.bus_types.specs.Relay.{most_windows};
ghost use Rattle.bus_types.specs.Timeline.{end_from};
ghost use Rattle.byte_ring.specs.Parts.{WindowAt};
ghost use Rattle.byte_ring.specs.Runs.{IsRun};

use crate::event::{accepts_event, event_size, scn_at};
use crate::halves::Halves;
use crate::kept::{Kept, Slot};
use bus_types::{Accepts, MAX_SCN, MAX_WINDOW};
use event_codec::MARK_SIZE;

/// The most windows that a reply has.
const MOST_WINDOWS: u32 = 32;

/// A run of windows: how many, and the SCN of the last one, or 0.
#[derive(Clone, Copy, Debug)]
pub(crate) struct Run {
    pub count: u32,
    pub last: u64,
}

// The bytes of an event where it is accepted, and else 0.
fn accepted_size(size: usize, accepted: bool) -> u64
    ensures { result ≡ (if accepted then size else 0) }
{
    if accepted { size as u64 } else { 0 }
}

/// The bytes of what a filter leaves of a slot's window, which stands at a place.
pub(crate) fn cut_size<F: Accepts>(bytes: &Halves<'_>, at: usize, slot: &Slot, filter: &F) -> u64
    requires { WindowAt bytes.now at slot.now }
    ensures value { result ≡ cut_size (F.test filter.now) slot.now.window.value }
    ensures small { result ≤ MAX_WINDOW }
{
    let _within = bytes.len();
    let mut size = MARK_SIZE as u64;
    let mut place = at;
    for _i in 0..slot.count {
        let event = event_size(bytes, place);
        let accepted = accepts_event(bytes, place, filter);
        size += accepted_size(event, accepted);
        place += event;
    }
    size
}

// So many windows from a place in their order on.
fn run_up_to(kept: &Kept, from: usize, count: u32) -> Run
    requires some { 0 < count }
    requires within { from + count ≤ length kept.now.windows }
    ensures count { result.count ≡ count }
    ensures last { end_from kept.now.floor (take (from + count) kept.now.windows) ≡ result.last }
    ensures range { result.last ≤ MAX_SCN }
{
    let _within = kept.len();
    let last = kept.scn(from + count as usize - 1);
    Run { count, last }
}

// The run of the windows from a place in their order on, at most 32, where they fit in `max` bytes even in full. No event is
// looked at.
fn run_in_full(kept: &Kept, from: usize, max: u64) -> Option<Run>
    requires { from < length kept.now.windows }
    ensures run { IfSome result (λ run. (test : Test) → IsRun test kept.now.windows from max run.count run.last) }
    ensures few { IfSome result (λ run. run.count ≤ most_windows) }
    ensures range { IfSome result (λ run. run.last ≤ MAX_SCN) }
{
    let end = kept.len();
    let mut bytes = 0;
    for count in 0..MOST_WINDOWS {
        let place = from + count as usize;
        if place >= end {
            return Some(run_up_to(kept, from, count));
        }
        let (_at, slot) = kept.window(place);
        bytes += slot.size as u64;
        if bytes > max {
            return None;
        }
    }
    Some(run_up_to(kept, from, MOST_WINDOWS))
}

// The longest run of windows from a place in their order on that a filter leaves at most `max` bytes of, by a look at each
// event.
fn run_of_cuts<F: Accepts>(kept: &Kept, from: usize, filter: &F, max: u64) -> Run
    requires { from ≤ length kept.now.windows }
    ensures run { IsRun (F.test filter.now) kept.now.windows from max result.count result.last }
    ensures few { result.count ≤ most_windows }
    ensures range { result.last ≤ MAX_SCN }
{
    let end = kept.len();
    let mut last = 0;
    let mut bytes = 0;
    for count in 0..MOST_WINDOWS {
        let place = from + count as usize;
        if place >= end {
            return Run { count, last };
        }
        let (at, slot) = kept.window(place);
        let size = cut_size(&kept.bytes(), at, slot, filter);
        if size > max - bytes {
            return Run { count, last };
        }
        bytes += size;
        last = scn_at(&kept.bytes(), at, slot);
    }
    Run {
        count: MOST_WINDOWS,
        last,
    }
}

/// The longest run of windows from a place in their order on, where one stands, that a filter leaves at most `max` bytes of.
pub(crate) fn longest_run<F: Accepts>(kept: &Kept, from: usize, filter: &F, max: u64) -> Run
    requires { from < length kept.now.windows }
    ensures run { IsRun (F.test filter.now) kept.now.windows from max result.count result.last }
    ensures few { result.count ≤ most_windows }
    ensures range { result.last ≤ MAX_SCN }
{
    match run_in_full(kept, from, max) {
        Some(run) => run,
        None => run_of_cuts(kept, from, filter, max),
    }
}
