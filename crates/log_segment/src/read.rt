ghost use Rattle.std.specs.Prelude.{◌<◌, length, IfOk, MatchOption};
ghost use Rattle.log_segment.specs.Reading.{FindsWindow, Splits, FindsOnly, IsLength, ShowsRecord, Shows};

use crate::gate::OPEN;
use bus_types::{MAX_WINDOW, NoMemory, Window};
use std::alloc::Global;
use window_stream::{SplitFault, Splitter};

// The windows that stand whole in a stream above an SCN, or none where it is bad.
fn split_all(alloc: Global, prev: u64, bytes: &[u8]) -> Result<Vec<Window>, NoMemory>
    ensures { IfOk result (λ windows. Splits prev bytes.now windows.items) }
{
    let mut splitter = Splitter::new(alloc, prev);
    let mut windows = Vec::new(alloc);
    match splitter.feed(alloc, bytes, &mut windows) {
        Ok(()) => Ok(windows),
        Err(SplitFault::Bad { .. }) => Ok(Vec::new(alloc)),
        Err(SplitFault::NoMemory) => Err(NoMemory),
    }
}

// The one window of a list, where it has this SCN before it, changes, and so many bytes.
fn only(prev: u64, size: usize, windows: Vec<Window>) -> Option<Window>
    ensures { FindsOnly prev size windows.items result }
{
    let mut windows = windows;
    let window = windows.pop()?;
    if windows.is_empty()
        && window.prev() == prev
        && window.size() == size as u64
        && !window.changes().is_empty()
    {
        Some(window)
    } else {
        None
    }
}

/// The window in full that bytes are. `None` comes exactly where they are no such window that follows the SCN.
pub(crate) fn read_window(
    alloc: Global,
    prev: u64,
    bytes: &[u8],
) -> Result<Option<Window>, NoMemory>
    ensures { IfOk result (λ found. FindsWindow prev bytes.now found) }
{
    let windows = split_all(alloc, prev, bytes)?;
    Ok(only(prev, bytes.len(), windows))
}

/// What stands at a gate.
#[derive(Debug, Drop)]
pub(crate) enum Front {
    /// The gate isn't open.
    Closed,
    /// There is no gate, or it is open and no whole record stands behind it yet.
    Short,
    /// The gate is open and no record follows, whatever comes.
    Refused,
    /// The gate is open and the record of this window follows.
    Record(Window),
}

// The length in front of a record, and what stands behind it.
fn record_length(bytes: &[u8]) -> Option<(u32, &[u8])>
    ensures { MatchOption result (length bytes.now < 4) (λ x. IsLength bytes.now x.0 x.1.now) }
{
    let (size, rest) = bytes.split_first_chunk::<4>()?;
    Some((u32::from_be_bytes(*size), rest))
}

/// What stands behind an open gate.
pub(crate) fn behind_gate(alloc: Global, prev: u64, bytes: &[u8]) -> Result<Front, NoMemory>
    ensures { IfOk result (λ front. ShowsRecord front prev bytes.now) }
{
    let Some((size, rest)) = record_length(bytes) else {
        return Ok(Front::Short);
    };
    if size as u64 > MAX_WINDOW {
        return Ok(Front::Refused);
    }
    let Some((text, _)) = rest.split_at_checked(size as usize) else {
        return Ok(Front::Short);
    };
    match read_window(alloc, prev, text)? {
        Some(window) => Ok(Front::Record(window)),
        None => Ok(Front::Refused),
    }
}

/// What stands at a gate behind the window of an SCN.
#[tactic(auto, using(crate::proofs::Records::shows))]
pub(crate) fn record_front(alloc: Global, prev: u64, bytes: &[u8]) -> Result<Front, NoMemory>
    ensures { IfOk result (λ front. Shows front prev bytes.now) }
{
    let Some((gate, rest)) = bytes.split_first() else {
        return Ok(Front::Short);
    };
    if *gate == OPEN {
        behind_gate(alloc, prev, rest)
    } else {
        Ok(Front::Closed)
    }
}
