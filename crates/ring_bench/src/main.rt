//! The program `ring_bench`: readers read every byte of the windows that one feeder publishes, in threads of their own, from a
//! shared ring or from a buffer behind a lock. It prints how many windows the readers read, and how long the slowest reader
//! took. Its words are `ring` or `lock`, the number of readers (1, 2 or 4), the bytes of a window, how many windows are
//! published, and how often each reader asks. The ring or buffer is filled before the readers start, which begin a quarter of it
//! apart. It stands on `range_ring` and `plain_buffer`; nothing stands on it.
#![tactic(auto)]

mod locked;
mod reading;
mod shared;
mod windows;

use bus_types::read_number;
use locked::race_locked;
use reading::Reading;
use shared::{MOST_RING_BYTES, MOST_RING_WINDOWS, race_shared};
use std::alloc::Global;
use std::sync::Wait;
use std::thread::Threads;
use std::time::Clock;
use std::{env, io};

/// What readers ask for, and of what.
#[derive(Clone, Copy, Debug)]
pub(crate) struct Load {
    /// The bytes of a payload.
    pub payload: u64,
    /// How many windows are published.
    pub windows: u64,
    /// How many of them are published before the readers start.
    pub first: u64,
    /// How often each reader asks.
    pub asks: u64,
    /// The SCN behind which a reader begins.
    pub from: u64,
}

impl Load {
    /// The load of the reader that begins so many readers later: a quarter of the ring for each.
    pub fn later(&self, readers: u64) -> Load {
        Load {
            payload: self.payload,
            windows: self.windows,
            first: self.first,
            asks: self.asks,
            from: self
                .from
                .saturating_add(readers.saturating_mul(self.first / 4)),
        }
    }

    /// Where a reader goes on that asked for windows up to this floor: an eighth of the ring above it, so that the feeder
    /// doesn't overtake it at once, and as far apart from the other readers as at the beginning.
    pub fn above(&self, floor: u64) -> u64 {
        floor
            .saturating_add(self.first / 8)
            .saturating_add(self.from)
    }
}

fn main(rt: HostRuntime) -> io::Result<()> {
    let words: Vec<String> = env::args(&rt)?.skip(1).collect(rt.alloc())?;
    let read = race_of(&rt, rt.alloc(), &words)?;
    if words.is_empty() {
        return println!(rt; "asked {}", read.asks);
    }
    println!(rt;
        "asks {} windows {} nanoseconds {} sum {}",
        read.asks, read.windows, read.nanoseconds, read.sum
    )
}

// What readers read by the words of the command line. Without a word one reader of each form reads few windows.
fn race_of<R: Threads + Wait + Clock + Sync>(
    rt: &R,
    alloc: Global,
    words: &[String],
) -> io::Result<Reading> {
    match words {
        [] => tiny(rt, alloc),
        [form, readers, bytes, windows, asks] => {
            let bytes = number(bytes)?;
            let windows = number(windows)?;
            let load = Load {
                payload: bytes.saturating_sub(40),
                windows,
                first: windows.min(room(bytes)),
                asks: number(asks)?,
                from: 0,
            };
            race(rt, alloc, form, number(readers)?, load)
        }
        _ => Err(io::ErrorKind::InvalidInput.into()),
    }
}

// The number of a word, up to 2^30.
fn number(word: &str) -> io::Result<u64> {
    match read_number(word.as_bytes(), 1 << 30) {
        Some(number) => Ok(number),
        None => Err(io::ErrorKind::InvalidInput.into()),
    }
}

// How many windows of so many bytes a ring has room for.
fn room(bytes: u64) -> u64 {
    (MOST_RING_BYTES / bytes.max(40)).min(u64::from(MOST_RING_WINDOWS))
}

// What one reader of each form reads of few windows.
fn tiny<R: Threads + Wait + Clock + Sync>(rt: &R, alloc: Global) -> io::Result<Reading> {
    let load = Load {
        payload: 60,
        windows: 2000,
        first: 1024,
        asks: 100,
        from: 0,
    };
    let shared = race_shared(rt, alloc, 1, load)?;
    let locked = race_locked(rt, alloc, 1, load)?;
    Ok(shared.with(locked))
}

// What so many readers of a form read.
fn race<R: Threads + Wait + Clock + Sync>(
    rt: &R,
    alloc: Global,
    form: &str,
    readers: u64,
    load: Load,
) -> io::Result<Reading> {
    match form {
        "ring" => race_shared(rt, alloc, readers, load),
        "lock" => race_locked(rt, alloc, readers, load),
        _ => Err(io::ErrorKind::InvalidInput.into()),
    }
}
