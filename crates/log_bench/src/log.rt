use crate::windows::window_behind;
use bus_stores::WindowLog;
use log_disk::Disk;
use log_store::LogStore;
use std::alloc::Global;
use std::time::Instant;

/// A log over one disk.
pub(crate) fn open<D: Disk + Drop>(alloc: Global, disk: D) -> Option<LogStore<D>> {
    let mut disks = Vec::new(alloc);
    disks.push(disk).ok()?;
    open_all(alloc, disks)
}

/// A log over several disks.
pub(crate) fn open_all<D: Disk + Drop>(alloc: Global, disks: Vec<D>) -> Option<LogStore<D>> {
    if disks.is_empty() || disks.len() > 16 {
        return None;
    }
    LogStore::open(alloc, disks).ok()
}

// Appends a window of so many bytes behind the newest one, and answers the nanoseconds that the log took.
fn append_next<L: WindowLog>(rt: &HostRuntime, log: &mut L, size: usize) -> Option<u128> {
    let window = window_behind(rt.alloc(), log.high(), size).ok()?;
    if window.prev() != log.high() || window.changes().is_empty() {
        return None;
    }
    let start = Instant::now(rt).ok()?;
    log.append(rt.alloc(), &window).ok()?;
    Some(start.elapsed(rt).ok()?.as_nanos())
}

/// Appends windows of so many bytes until the log took so many nanoseconds or is full, at most so many windows. It answers the
/// nanoseconds that each took, and `None` where an append failed.
pub(crate) fn append_for<L: WindowLog>(
    rt: &HostRuntime,
    log: &mut L,
    size: usize,
    limit: u128,
    most: u64,
) -> Option<Vec<u128>> {
    let mut times = Vec::new(rt.alloc());
    let mut whole: u128 = 0;
    for _ in 0..most {
        if whole >= limit || log.is_full(size as u64) {
            return Some(times);
        }
        let time = append_next(rt, log, size)?;
        whole = whole.saturating_add(time);
        times.push(time).ok()?;
    }
    Some(times)
}

// The bytes of the oldest window behind an SCN.
fn read_behind<L: WindowLog>(alloc: Global, log: &mut L, scn: u64) -> Option<u64> {
    let scn = scn.max(log.floor());
    let window = log.next(alloc, scn).ok()??;
    Some(window.size())
}

/// Reads the windows behind so many SCNs that a linear congruence picks, and answers the bytes that they have together.
pub(crate) fn read_many<L: WindowLog>(alloc: Global, log: &mut L, count: u64) -> Option<u64> {
    let high = log.high().max(1);
    let mut picked: u64 = 1;
    let mut bytes: u64 = 0;
    for _ in 0..count {
        picked = picked
            .wrapping_mul(6_364_136_223_846_793_005)
            .wrapping_add(1_442_695_040_888_963_407);
        let read = read_behind(alloc, log, (picked >> 33) % high)?;
        bytes = bytes.saturating_add(read);
    }
    Some(bytes)
}
