ghost use Rattle.std.specs.Prelude.{◌≡◌, ◌≤◌, ◌-◌, List, [], take, drop, length, option_map, MatchOption};
ghost use Rattle.bus_types.specs.Window.{Span};
ghost use Rattle.event_codec.specs.Parsing.{AreWindows, first_event};
ghost use Rattle.range_ring.specs.Parts.{IsPart, IsPlace, from_kept, past_events};

use bus_types::{Accepts, Key};
use event_codec::Windows;

/// A part of a window of a range, where it stands.
#[derive(Clone, Copy, Debug)]
pub struct Part<'a> {
    /// The bytes of its items, one or more.
    pub bytes: &'a [u8],
    /// The place in the window after them.
    pub next: usize,
}

// Whether a filter accepts the event in front. `None` comes exactly where none stands there.
fn front<F: Accepts>(left: &Windows<'_>, filter: &F) -> Option<bool>
    ensures { result ≡ option_map (λ e. F.test filter.now e.change.source e.change.key) (first_event left.now) }
{
    let mut ahead = left.again();
    let (event, _own) = ahead.event()?;
    Some(filter.accepts(event.source, &Key::Long(event.key)))
}

// The items from the first one on that a filter keeps.
#[tactic(auto, using(crate::proofs::Lending::kept_stops, crate::proofs::Lending::kept_goes_on, crate::proofs::Lending::kept_ends, crate::proofs::Lending::event_less))]
fn from_kept<'a, F: Accepts>(windows: Windows<'a>, filter: &F) -> Windows<'a>
    ensures { result ≡ from_kept (F.test filter.now) windows.entry }
{
    let mut left = windows;
    while let Some(accepted) = front(&left, filter) {
        if accepted {
            return left;
        }
        left.event();
    }
    left
}

// The items behind the events in front that a filter accepts.
#[tactic(auto, using(crate::proofs::Lending::past_stops, crate::proofs::Lending::past_goes_on, crate::proofs::Lending::past_ends, crate::proofs::Lending::event_less))]
fn past_events<'a, F: Accepts>(windows: Windows<'a>, filter: &F) -> Windows<'a>
    ensures { result ≡ past_events (F.test filter.now) windows.entry }
{
    let mut left = windows;
    while let Some(accepted) = front(&left, filter) {
        if !accepted {
            return left;
        }
        left.event();
    }
    left
}

// The bytes before their last so many ones.
fn before(bytes: &[u8], end: usize) -> &[u8]
    requires { end ≤ length bytes.now }
    ensures { result.now ≡ take (length bytes.now - end) bytes.now }
{
    &bytes[..bytes.len() - end]
}

/// The next items of a window from a place on that a filter keeps, as long as they stand one after the other. `None` comes
/// exactly where none is left.
pub(crate) fn part_of<'a, F: Accepts>(bytes: &'a [u8], filter: &F, place: usize) -> Option<Part<'a>>
    requires { IsPlace bytes.now place }
    ensures { (items : List Span) → AreWindows items (drop place bytes.now) → MatchOption result (items ≡ []) (λ part. IsPart (F.test filter.now) bytes.now items part.bytes.now part.next) }
{
    let all = Windows::of(&bytes[place..]);
    let kept = from_kept(all, filter);
    kept.scn()?;
    let mut left = past_events(kept.again(), filter);
    left.mark();
    let end = left.bytes().len();
    let part = before(kept.bytes(), end);
    let gone = before(bytes, end);
    Some(Part {
        bytes: part,
        next: gone.len(),
    })
}
