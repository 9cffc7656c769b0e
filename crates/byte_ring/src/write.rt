ghost use Rattle.std.specs.Prelude.{◌≡◌, ◌+◌, ◌≤◌, ◌++◌, length};
ghost use Rattle.bus_types.specs.Change.{change_size, changes_size};
ghost use Rattle.bus_types.specs.Window.{span_size};
ghost use Rattle.event_codec.specs.Bytes.{event_bytes, changes_bytes, window_bytes};

use crate::circle::Circle;
use bus_types::{Change, Window};
use event_codec::{event_head, mark_bytes};

// Each of these appends bytes for which there is room.

// A change as an event.
fn push_event(circle: &mut Circle, scn: u64, change: &Change)
    requires { length circle.old.bytes + change_size change.now ≤ circle.old.room }
    ensures { circle.new ≡ record { bytes = circle.old.bytes ++ event_bytes (record { scn = scn; change = change.now }); room = circle.old.room } }
{
    circle.push(&event_head(scn, change));
    if let Some(payload) = &change.put {
        circle.push(payload.bytes());
    }
}

// Changes as events.
fn push_events(circle: &mut Circle, scn: u64, changes: &[Change])
    requires { length circle.old.bytes + changes_size changes.now ≤ circle.old.room }
    ensures { circle.new ≡ record { bytes = circle.old.bytes ++ changes_bytes scn changes.now; room = circle.old.room } }
{
    for change in changes {
        push_event(circle, scn, change);
    }
}

/// A window: its events and its mark.
pub(crate) fn push_window(circle: &mut Circle, window: &Window)
    requires { length circle.old.bytes + span_size window.now ≤ circle.old.room }
    ensures { circle.new ≡ record { bytes = circle.old.bytes ++ window_bytes window.now; room = circle.old.room } }
{
    push_events(circle, window.scn(), window.changes());
    circle.push(&mark_bytes(window.scn(), window.prev()));
}
