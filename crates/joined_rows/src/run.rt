use bus_stores::WindowLog;
use bus_types::{Change, Key, NoMemory, Payload, Window};
use log_disk::MemoryDisk;
use log_store::LogStore;
use std::alloc::Global;

// How many bytes and calls a disk has room for beside what it holds.
const ROOM: u64 = 256;

const CALLS: u32 = 64;

// A segment in use behind SCN 10, with the window 20.
const LATER: &str =
    "a5444255534c4f4731000000000000000aa5000000290100000000000000000014000000000000000100000001aa030000000000000014000000000000000a00";

// A segment in use behind SCN 0, with the window 10.
const EARLIER: &str =
    "a5444255534c4f47310000000000000000a500000029010000000000000000000a000000000000000100000001aa03000000000000000a000000000000000000";

// The window with SCN 10 after 0 that puts aa at source 0, key 1.
fn window_10(alloc: Global) -> Result<Window, NoMemory> {
    let mut changes = Vec::new(alloc);
    let Ok(payload) = Payload::new(alloc, &[0xaa]) else {
        return Err(NoMemory);
    };
    changes.push(Change {
        source: 0,
        key: Key::Long(1),
        put: Some(payload),
    })?;
    Window::new(10, 0, changes).or(Err(NoMemory))
}

// A disk with these bytes, on which these calls fail.
fn disk_with(alloc: Global, bytes: &[u8], fails: &[u64]) -> Option<MemoryDisk> {
    let room = (bytes.len() as u64).checked_add(ROOM)?;
    MemoryDisk::new(alloc, bytes, room, CALLS, fails).ok()
}

// A disk with the bytes of a text in hex.
fn disk_of(alloc: Global, text: &str, fails: &[u64]) -> Option<MemoryDisk> {
    let bytes = hex::decode(alloc, text).ok()?;
    disk_with(alloc, &bytes, fails)
}

/// Disks with the bytes of texts in hex, with a space between two.
pub(crate) fn disks_of(alloc: Global, line: &str) -> Option<Vec<MemoryDisk>> {
    let mut disks = Vec::new(alloc);
    for word in line.split(' ') {
        disks.push(disk_of(alloc, word, &[])?).ok()?;
    }
    Some(disks)
}

// Appends the window to a log, up to a call that fails.
fn append(alloc: Global, log: &mut LogStore<MemoryDisk>) -> Option<()> {
    let window = window_10(alloc).ok()?;
    if window.prev() != log.high() || window.changes().is_empty() {
        return None;
    }
    log.append(alloc, &window).ok()
}

/// Sixteen formatted disks that are opened as a log and given the window, up to the call of the first one of this number, which
/// fails.
pub(crate) fn appended(alloc: Global, stop: u64) -> Result<Vec<MemoryDisk>, NoMemory> {
    let mut disks = Vec::new(alloc);
    disks.push(disk_with(alloc, &[0], &[stop]).ok_or(NoMemory)?)?;
    for _ in 1..16 {
        disks.push(disk_with(alloc, &[0], &[]).ok_or(NoMemory)?)?;
    }
    if disks.is_empty() || disks.len() > 16 {
        return Err(NoMemory);
    }
    match LogStore::open(alloc, disks) {
        Ok(mut log) => {
            append(alloc, &mut log);
            Ok(log.into_disks())
        }
        Err((_, disks)) => Ok(disks),
    }
}

/// Three disks, of which the second holds the earlier windows and the first the later ones, that are opened as a log whose windows
/// through 10 are dropped, up to the call of the second one of this number, which fails.
pub(crate) fn dropped(alloc: Global, stop: u64) -> Result<Vec<MemoryDisk>, NoMemory> {
    let mut disks = Vec::new(alloc);
    disks.push(disk_of(alloc, LATER, &[]).ok_or(NoMemory)?)?;
    disks.push(disk_of(alloc, EARLIER, &[stop]).ok_or(NoMemory)?)?;
    disks.push(disk_with(alloc, &[0], &[]).ok_or(NoMemory)?)?;
    if disks.is_empty() || disks.len() > 16 {
        return Err(NoMemory);
    }
    match LogStore::open(alloc, disks) {
        Ok(mut log) => {
            log.drop_through(alloc, 10).ok();
            Ok(log.into_disks())
        }
        Err((_, disks)) => Ok(disks),
    }
}
