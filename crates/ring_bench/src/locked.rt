use crate::Load;
use crate::reading::{Reading, both, nanoseconds, sum_of};
use crate::shared::{MOST_RING_BYTES, MOST_RING_WINDOWS};
use crate::windows::window_of;
use bus_io::GrowingSink;
use bus_types::{Everything, Window};
use plain_buffer::{PlainBuffer, Served};
use std::alloc::Global;
use std::sync::{Mutex, Wait};
use std::thread::Threads;
use std::time::{Clock, Instant};
use std::{io, mem, thread};

// The most bytes of what a reader is served at once.
const MOST_BYTES: u32 = 4_194_304;

// Publishes as many windows as the buffer has room for, so that the readers have what to read from the start.
fn fill(alloc: Global, buffer: &mut PlainBuffer, load: Load) -> io::Result<()> {
    for prev in 0..load.first {
        let Some(window) = window_of(alloc, prev + 1, load.payload) else {
            return Err(io::ErrorKind::OutOfMemory.into());
        };
        let Some(()) = publish(alloc, buffer, &window) else {
            return Err(io::ErrorKind::OutOfMemory.into());
        };
    }
    Ok(())
}

// Publishes the windows behind the first ones, up to so many.
fn feed<R: Wait>(rt: &R, alloc: Global, shared: &Mutex<PlainBuffer>, load: Load) -> Option<()> {
    for prev in load.first..load.windows {
        let window = window_of(alloc, prev.checked_add(1)?, load.payload)?;
        publish(alloc, &mut shared.lock(rt), &window)?;
    }
    Some(())
}

// Publishes a window where it is the next one.
fn publish(alloc: Global, buffer: &mut PlainBuffer, window: &Window) -> Option<()> {
    if window.prev() != buffer.tail() || window.changes().is_empty() {
        return None;
    }
    buffer.publish(alloc, window).ok()
}

// Asks so often for what stands behind an SCN, reads every byte of it, and goes on behind it. Where that isn't kept
// any more, it goes on above the floor.
fn read<R: Wait + Clock>(
    rt: &R,
    alloc: Global,
    shared: &Mutex<PlainBuffer>,
    load: Load,
) -> io::Result<Reading> {
    let start = Instant::now(rt)?;
    let mut read = Reading::new();
    let mut reply = Vec::new(alloc);
    let mut scn = load.from;
    for _ in 0..load.asks {
        read.asks = read.asks.wrapping_add(1);
        let served = serve(alloc, &shared.lock(rt), scn, &mut reply)?;
        scn = match served {
            Served::Windows { count, .. } => {
                read.add(count as u64, sum_of(&reply));
                scn.saturating_add(count as u64)
            }
            Served::NotFound(floor) => load.above(floor),
            Served::Empty(_) | Served::TooSmall(_) => load.from,
        };
    }
    read.nanoseconds = nanoseconds(start.elapsed(rt)?);
    Ok(read)
}

// What a buffer serves, whose bytes take the place of the last reply's.
fn serve(alloc: Global, buffer: &PlainBuffer, scn: u64, reply: &mut Vec<u8>) -> io::Result<Served> {
    reply.clear();
    let mut sink = GrowingSink::new(mem::replace(reply, Vec::new(alloc)));
    let served = buffer.serve(scn, &Everything, MOST_BYTES, &mut sink);
    *reply = sink.into_bytes();
    match served {
        Ok(served) => Ok(served),
        Err(_) => Err(io::ErrorKind::OutOfMemory.into()),
    }
}

// Two readers at once.
fn read_two<R: Threads + Wait + Clock + Sync>(
    rt: &R,
    alloc: Global,
    shared: &Mutex<PlainBuffer>,
    load: Load,
) -> io::Result<Reading> {
    let later = load.later(1);
    let (left, right) = thread::join(
        rt,
        || read(rt, alloc, shared, load),
        || read(rt, alloc, shared, later),
    );
    both(left, right)
}

// So many readers at once, 1, 2 or 4.
fn read_all<R: Threads + Wait + Clock + Sync>(
    rt: &R,
    alloc: Global,
    shared: &Mutex<PlainBuffer>,
    readers: u64,
    load: Load,
) -> io::Result<Reading> {
    match readers {
        1 => read(rt, alloc, shared, load),
        2 => read_two(rt, alloc, shared, load),
        4 => {
            let later = load.later(2);
            let (left, right) = thread::join(
                rt,
                || read_two(rt, alloc, shared, load),
                || read_two(rt, alloc, shared, later),
            );
            both(left, right)
        }
        _ => Err(io::ErrorKind::InvalidInput.into()),
    }
}

/// So many readers, 1, 2 or 4, of a buffer behind a lock.
pub(crate) fn race_locked<R: Threads + Wait + Clock + Sync>(
    rt: &R,
    alloc: Global,
    readers: u64,
    load: Load,
) -> io::Result<Reading> {
    let Ok(mut buffer) = PlainBuffer::new(alloc, MOST_RING_BYTES, MOST_RING_WINDOWS) else {
        return Err(io::ErrorKind::OutOfMemory.into());
    };
    fill(alloc, &mut buffer, load)?;
    let lock = Mutex::new(buffer);
    let shared = &lock;
    let (fed, read) = thread::join(
        rt,
        || feed(rt, alloc, shared, load),
        || read_all(rt, alloc, shared, readers, load),
    );
    match fed {
        Some(()) => read,
        None => Err(io::ErrorKind::OutOfMemory.into()),
    }
}
