ghost use Rattle.std.specs.Prelude.{◌≡◌, ◌≤◌, ◌+◌, ◌∷◌, []};
ghost use Rattle.bus_types.specs.declared.limits.TheConstants.{MAX_WINDOW};
ghost use Rattle.bus_types.specs.Change.{accepted, changes_size};
ghost use Rattle.bus_types.specs.Cut.{cut};
ghost use Rattle.bus_types.specs.Window.{span_size};
ghost use Rattle.event_codec.specs.View.{event_of};
ghost use Rattle.event_codec.specs.Bytes.{event_bytes};
ghost use Rattle.event_codec.specs.Parsing.{window_events};
ghost use Rattle.ring_cells.specs.Entries.{IsEntry};
ghost use Rattle.range_ring.specs.Ranges.{changes_of};

use bus_types::{Accepts, Key, Timeline};
use event_codec::{EventView, MARK_SIZE, Run};
use ring_cells::Shown;

// The bytes of an event where a filter accepts it, or 0.
fn size_of<F: Accepts>(event: &EventView<'_>, own: &[u8], filter: &F) -> u64
    requires { own.now ≡ event_bytes (event_of event.now) }
    ensures { result ≡ changes_size (accepted (F.test filter.now) ((event_of event.now).change ∷ [])) }
{
    if filter.accepts(event.source, &Key::Long(event.key)) {
        own.len() as u64
    } else {
        0
    }
}

// The bytes of those of a window's events that a filter accepts.
fn accepted_size<F: Accepts>(events: &Run<'_>, filter: &F) -> u64
    requires { changes_size (changes_of events.now) + 17 ≤ MAX_WINDOW }
    ensures value { result ≡ changes_size (accepted (F.test filter.now) (changes_of events.now)) }
    ensures few { result ≤ changes_size (changes_of events.now) }
{
    let mut left = events.again();
    let mut size = 0;
    while let Some((event, own)) = left.next() {
        size += size_of(&event, own, filter);
    }
    size
}

// The events of a shown window. They are its bytes without those of the mark.
fn events_of<'a, T: Timeline>(shown: &'a Shown<'_, T>) -> Run<'a>
    ensures events { (entry : IsEntry T.told shown.now) → result ≡ window_events entry.window }
    ensures small { changes_size (changes_of result) + 17 ≤ MAX_WINDOW }
{
    let bytes = shown.bytes();
    Run::of(&bytes[..bytes.len() - MARK_SIZE])
}

/// The bytes of what a filter leaves of a shown window.
pub(crate) fn cut_size<T: Timeline, F: Accepts>(shown: &Shown<'_, T>, filter: &F) -> u64
    ensures value { (entry : IsEntry T.told shown.now) → result ≡ span_size (cut (F.test filter.now) entry.window) }
    ensures within { result ≤ MAX_WINDOW }
{
    let events = events_of(shown);
    accepted_size(&events, filter) + MARK_SIZE as u64
}
