ghost use Rattle.std.specs.Prelude.{◌≡◌, ◌+◌, ◌≤◌, length, drop, []};
ghost use Rattle.bus_types.specs.Change.{accepted, changes_size, change_size};
ghost use Rattle.bus_types.specs.Window.{IsSpan};
ghost use Rattle.bus_types.specs.Cut.{cut_size, cuts};
ghost use Rattle.bus_types.specs.Relay.{longest_run, most_windows};
ghost use Rattle.plain_buffer.specs.Run.{accepted_size, Tells};

use bus_types::{Accepts, Change, MAX_SCN, MAX_WINDOW, Window};
use event_codec::MARK_SIZE;
use std::collections::VecDeque;

/// The most windows that a reply has.
const MOST_WINDOWS: u32 = 32;

/// A run of windows as a filter left them: how many, the SCN of the last one, or 0, and the bytes that they take.
#[derive(Clone, Copy, Debug)]
pub(crate) struct Run {
    pub count: u32,
    pub last: u64,
    pub bytes: u64,
}

// The bytes of a change where a filter accepts it, and else 0.
fn accepted_size<F: Accepts>(change: &Change, filter: &F) -> u64
    ensures value { result ≡ accepted_size (F.test filter.now) change.now }
    ensures small { result ≤ change_size change.now }
{
    if filter.accepts(change.source, &change.key) {
        change.size()
    } else {
        0
    }
}

// The bytes of the changes that a filter accepts.
fn accepted_sizes<F: Accepts>(changes: &[Change], filter: &F) -> u64
    requires { changes_size changes.now ≤ MAX_WINDOW }
    ensures { result ≡ changes_size (accepted (F.test filter.now) changes.now) }
{
    let mut size = 0;
    for change in changes {
        size += accepted_size(change, filter);
    }
    size
}

/// The bytes of what a filter leaves of a window.
pub(crate) fn cut_size<F: Accepts>(window: &Window, filter: &F) -> u64
    ensures value { result ≡ cut_size (F.test filter.now) window.now }
    ensures small { result ≤ MAX_WINDOW }
    ensures fits { IsSpan window.now }
{
    let _whole = window.size();
    accepted_sizes(window.changes(), filter) + MARK_SIZE as u64
}

/// The longest run of windows from a place on that a filter leaves at most `max` bytes of.
pub(crate) fn longest_run<F: Accepts>(
    windows: &VecDeque<Window>,
    from: usize,
    filter: &F,
    max: u64,
) -> Run
    requires { from ≤ length windows.now.items }
    ensures tells { Tells result.count result.last result.bytes []
        (longest_run most_windows max (cuts (F.test filter.now) (drop from windows.now.items))) }
    ensures range { result.last ≤ MAX_SCN }
{
    let mut last = 0;
    let mut bytes = 0;
    for count in 0..MOST_WINDOWS {
        let Some(window) = windows.get(from + count as usize) else {
            return Run { count, last, bytes };
        };
        let size = cut_size(window, filter);
        if size > max - bytes {
            return Run { count, last, bytes };
        }
        bytes += size;
        last = window.scn();
    }
    Run {
        count: MOST_WINDOWS,
        last,
        bytes,
    }
}
