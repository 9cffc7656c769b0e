ghost use Rattle.std.specs.Prelude.{ℕ, List, length, Some, ◌≡◌, ◌≤◌, ◌+◌, ◌^◌, ◌<◌, IfSome, IfOk, IfErr};
ghost use Rattle.bus_types.specs.declared.limits.TheConstants.{MAX_SCN};
ghost use Rattle.bus_types.specs.Change.{Test};
ghost use Rattle.bus_types.specs.Window.{Span};
ghost use Rattle.bus_types.specs.Timeline.{IsTimeline};
ghost use Rattle.bus_types.specs.Cut.{cuts};
ghost use Rattle.bus_types.specs.Relay.{fitting};
ghost use Rattle.ring_cells.specs.Entries.{Held};
ghost use Rattle.range_ring.specs.declared.first.Miss.{Miss};
ghost use Rattle.range_ring.specs.Answering.{IsBefore, IsFirst, IsMissed, HasScn, Misses, answer_at, windows_from};

use crate::claim::{claim, scns};
use crate::numbers::Numbers;
use crate::ring::Ring;
use bus_types::Timeline;
use ring_cells::Shown;

/// Why no window of a ring is the next one after an SCN.
#[derive(Clone, Copy, Debug, PartialEq, Eq)]
pub(crate) enum Miss {
    /// A window after it was evicted. This is the SCN of the newest one that was.
    NotFound(u64),
    /// None after it is published. This is the SCN of the newest one that is.
    Empty(u64),
    /// The ring went on while it was read, or all that was published is evicted: one has to look again.
    Again,
}

// The SCN before a position at which a window stands.
fn scn_before<T: Timeline>(ring: &Ring<T>, position: u64) -> Option<u64>
    ensures before { IfSome result (λ scn. IsBefore T.told position scn) }
    ensures within { IfSome result (λ scn. scn ≤ MAX_SCN) }
{
    let shown = claim(ring, position)?;
    Some(scns(&shown).1)
}

// The SCN before the position behind one at which a window stands.
fn scn_past<T: Timeline>(ring: &Ring<T>, position: u64) -> Option<u64>
    ensures before { IfSome result (λ scn. IsBefore T.told (position + 1) scn) }
    ensures within { IfSome result (λ scn. scn ≤ MAX_SCN) }
{
    let shown = claim(ring, position)?;
    Some(scns(&shown).0)
}

// Claims the first window after an SCN among those between two positions, by halves.
fn narrow<'r, T: Timeline>(ring: &'r Ring<T>, numbers: &Numbers, scn: u64) -> Option<Shown<'r, T>>
    ensures { IfSome result (λ shown. IsFirst T.told numbers.now.evicted numbers.now.published scn shown) }
{
    let mut low = numbers.evicted;
    let mut high = numbers.published;
    while low < high {
        let middle = low + (high - low) / 2;
        let shown = claim(ring, middle)?;
        let (own, prev) = scns(&shown);
        if prev <= scn && scn < own {
            return Some(shown);
        }
        if scn < prev {
            high = middle;
        } else {
            low = middle + 1;
        }
    }
    None
}

// Claims the window at a position where it is the first one after an SCN among those between two positions.
fn first_at<'r, T: Timeline>(
    ring: &'r Ring<T>,
    numbers: &Numbers,
    scn: u64,
    position: u64,
) -> Option<Shown<'r, T>>
    ensures { IfSome result (λ shown. IsFirst T.told numbers.now.evicted numbers.now.published scn shown) }
{
    let Numbers { evicted, published } = *numbers;
    if position < evicted {
        return None;
    }
    if published <= position {
        return None;
    }
    let shown = claim(ring, position)?;
    let (own, prev) = scns(&shown);
    if prev <= scn && scn < own {
        return Some(shown);
    }
    None
}

/// Claims the first window after an SCN among those that were published and not evicted. It looks at a position first at which
/// that window likely stands, and then for it among all.
pub(crate) fn first_after<'r, T: Timeline>(
    ring: &'r Ring<T>,
    numbers: &Numbers,
    scn: u64,
    likely: u64,
) -> Result<Shown<'r, T>, Miss>
    ensures found { IfOk result (λ shown. IsFirst T.told numbers.now.evicted numbers.now.published scn shown) }
    ensures missed { IfErr result (λ miss. IsMissed T.told numbers.now.evicted numbers.now.published scn miss) }
    ensures within { IfErr result HasScn }
{
    if let Some(shown) = first_at(ring, numbers, scn, likely) {
        return Ok(shown);
    }
    search(ring, numbers, scn)
}

// Claims the first window after an SCN among those that were published and not evicted.
fn search<'r, T: Timeline>(
    ring: &'r Ring<T>,
    numbers: &Numbers,
    scn: u64,
) -> Result<Shown<'r, T>, Miss>
    ensures found { IfOk result (λ shown. IsFirst T.told numbers.now.evicted numbers.now.published scn shown) }
    ensures missed { IfErr result (λ miss. IsMissed T.told numbers.now.evicted numbers.now.published scn miss) }
    ensures within { IfErr result HasScn }
{
    if numbers.published == 0 {
        return Err(Miss::Empty(0));
    }
    if numbers.evicted >= numbers.published {
        return Err(Miss::Again);
    }
    let Some(floor) = scn_before(ring, numbers.evicted) else {
        return Err(Miss::Again);
    };
    if scn < floor {
        return Err(Miss::NotFound(floor));
    }
    let Some(tail) = scn_past(ring, numbers.published - 1) else {
        return Err(Miss::Again);
    };
    if tail <= scn {
        return Err(Miss::Empty(tail));
    }
    match narrow(ring, numbers, scn) {
        Some(shown) => Ok(shown),
        None => Err(Miss::Again),
    }
}

// A law of the entry that was found, or of why none was: the relay's rule at these numbers gives the answer that follows
// from it, which is of the windows from that entry on, or the same miss.
fn a_found_window_is_answered()
    ensures found { (ws : List Span) (evicted published scn : ℕ) (e : Held) (test : Test) (max : ℕ) → IsTimeline ws → published ≤ length ws → IsFirst (Some ws) evicted published scn e →
        answer_at ws evicted published scn test max ≡ fitting max (cuts test (windows_from ws e.position published)) }
    ensures missed { (ws : List Span) (evicted published scn : ℕ) (miss : Miss) (test : Test) (max : ℕ) → IsTimeline ws → evicted ≤ published → IsMissed (Some ws) evicted published scn miss →
        Misses miss (answer_at ws evicted published scn test max) }
{}
