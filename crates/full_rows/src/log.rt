use crate::windows::large_window;
use bus_stores::{LogFault, WindowLog};
use log_disk::MemoryDisk;
use log_store::LogStore;
use std::alloc::Global;

/// A log over disks in memory.
pub(crate) type Log = LogStore<MemoryDisk>;

// The bytes and calls that a disk has room for.
const ROOM: u64 = 67_200_000;

const CALLS: u32 = 4096;

/// A log over disks.
pub(crate) fn open(alloc: Global, disks: Vec<MemoryDisk>) -> Option<Log> {
    if disks.is_empty() || disks.len() > 16 {
        return None;
    }
    LogStore::open(alloc, disks).ok()
}

/// A log over so many formatted disks, the first of which fails at these calls.
pub(crate) fn formatted(alloc: Global, count: u32, fails: &[u64]) -> Option<Log> {
    let mut disks = Vec::new(alloc);
    disks
        .push(MemoryDisk::new(alloc, &[0], ROOM, CALLS, fails).ok()?)
        .ok()?;
    for _ in 1..count {
        disks
            .push(MemoryDisk::new(alloc, &[0], ROOM, CALLS, &[]).ok()?)
            .ok()?;
    }
    open(alloc, disks)
}

/// Appends a window of the greatest size behind the newest one.
pub(crate) fn append_next(alloc: Global, log: &mut Log) -> Option<Result<(), LogFault>> {
    let window = large_window(alloc, log.high()).ok()?;
    if window.prev() != log.high() || window.changes().is_empty() {
        return None;
    }
    Some(log.append(alloc, &window))
}

/// Appends windows until one is refused, at most so many, and answers how many were taken.
pub(crate) fn fill(alloc: Global, log: &mut Log, most: u32) -> u32 {
    for count in 0..most {
        if append_next(alloc, log) != Some(Ok(())) {
            return count;
        }
    }
    most
}
