ghost use Rattle.std.specs.Prelude.{◌<◌};

use bus_types::{Change, Key, NoMemory, Payload, Window};
use event_codec::write_window;
use std::alloc::{AllocFailed, Global};
use std::io;
use window_stream::{SplitFault, Splitter};

// What each change puts.
const PAYLOAD: [u8; 7] = *b"payload";

/// Why a stream was not written or split.
#[derive(Clone, Copy, Debug, PartialEq, Eq)]
pub(crate) enum Fault {
    /// Memory ran out.
    NoMemory,
    /// A window is out of its limits, or what was written is no stream of windows.
    Stream,
}

impl From<NoMemory> for Fault {
    fn from(_: NoMemory) -> Fault {
        Fault::NoMemory
    }
}

impl<T: Drop> From<AllocFailed<T>> for Fault {
    fn from(_: AllocFailed<T>) -> Fault {
        Fault::NoMemory
    }
}

impl From<SplitFault> for Fault {
    fn from(fault: SplitFault) -> Fault {
        match fault {
            SplitFault::NoMemory => Fault::NoMemory,
            SplitFault::Bad { .. } => Fault::Stream,
        }
    }
}

impl From<Fault> for io::Error {
    fn from(fault: Fault) -> io::Error {
        match fault {
            Fault::NoMemory => io::ErrorKind::OutOfMemory.into(),
            Fault::Stream => io::ErrorKind::InvalidData.into(),
        }
    }
}

// The window of an SCN above 0, behind the SCN before: one small put.
fn window_of(alloc: Global, scn: u64) -> Result<Window, Fault>
    requires { 0 < scn }
{
    let Ok(payload) = Payload::new(alloc, &PAYLOAD) else {
        return Err(Fault::NoMemory);
    };
    let mut changes = Vec::new(alloc);
    changes.push(Change {
        source: 1,
        key: Key::Long(scn),
        put: Some(payload),
    })?;
    match Window::new(scn, scn - 1, changes) {
        Ok(window) => Ok(window),
        Err(_) => Err(Fault::Stream),
    }
}

/// So many windows, from SCN 1 on.
pub(crate) fn windows_of(alloc: Global, count: u64) -> Result<Vec<Window>, Fault> {
    let mut windows = Vec::new(alloc);
    for before in 0..count {
        windows.push(window_of(alloc, before + 1)?)?;
    }
    Ok(windows)
}

/// The bytes of windows, one after the other.
pub(crate) fn write(alloc: Global, windows: &[Window]) -> Result<Vec<u8>, Fault> {
    let mut bytes = Vec::new(alloc);
    for window in windows {
        write_window(alloc, window, &mut bytes)?;
    }
    Ok(bytes)
}

/// The windows of a stream that comes in pieces of so many bytes.
pub(crate) fn split(alloc: Global, bytes: &[u8], size: usize) -> Result<Vec<Window>, Fault>
    requires { 0 < size }
{
    let mut splitter = Splitter::new(alloc, 0);
    let mut whole = Vec::new(alloc);
    let mut rest = bytes;
    while !rest.is_empty() {
        let (piece, behind) = rest.split_at(size.min(rest.len()));
        splitter.feed(alloc, piece, &mut whole)?;
        rest = behind;
    }
    Ok(whole)
}
