use bootstrap_core::Boot;
use bus_stores::MemoryKeeper;
use log_disk::MemoryDisk;
use log_store::LogStore;
use std::alloc::Global;

// How many bytes and calls a disk has room for beside what it holds.
const ROOM: u64 = 512;

const CALLS: u32 = 64;

// A relay's reply with the windows 10 and 20, each with one put.
const REPLY: &str =
    "010000000000000000000a000000000000000100000001aa03000000000000000a00000000000000000100000000000000000014000000000000000100000001aa030000000000000014000000000000000a";

// A segment in use behind SCN 10, with the window 20.
const LATER: &str =
    "a5444255534c4f4731000000000000000aa5000000290100000000000000000014000000000000000100000001aa030000000000000014000000000000000a00";

// A segment in use behind SCN 0, with the window 10.
const EARLIER: &str =
    "a5444255534c4f47310000000000000000a500000029010000000000000000000a000000000000000100000001aa03000000000000000a000000000000000000";

/// Disks and a keeper as a bootstrap left them.
#[derive(Drop)]
pub(crate) struct Stopped {
    /// The disks of its log.
    pub disks: Vec<MemoryDisk>,
    /// Its rows and its boot mark.
    pub keeper: MemoryKeeper,
}

// A disk with these bytes, on which these calls fail.
fn disk_with(alloc: Global, bytes: &[u8], fails: &[u64]) -> Option<MemoryDisk> {
    let room = (bytes.len() as u64).checked_add(ROOM)?;
    MemoryDisk::new(alloc, bytes, room, CALLS, fails).ok()
}

// A disk with the bytes of a text in hex.
fn disk_of(alloc: Global, text: &str, fails: &[u64]) -> Option<MemoryDisk> {
    let bytes = hex::decode(alloc, text).ok()?;
    disk_with(alloc, &bytes, fails)
}

// A bootstrap over a log on disks.
type DiskBoot = Boot<LogStore<MemoryDisk>, MemoryKeeper>;

// What a bootstrap leaves.
fn parts_of(boot: DiskBoot) -> Stopped {
    let (log, keeper) = boot.parts();
    Stopped {
        disks: log.into_disks(),
        keeper,
    }
}

// A bootstrap over a log of these disks and an empty keeper, or what is left where it isn't opened.
fn opened(alloc: Global, disks: Vec<MemoryDisk>) -> Option<Result<DiskBoot, Stopped>> {
    let keeper = MemoryKeeper::new(alloc, &[]).ok()?;
    if disks.is_empty() || disks.len() > 16 {
        return None;
    }
    let log = match LogStore::open(alloc, disks) {
        Ok(log) => log,
        Err((_, disks)) => return Some(Err(Stopped { disks, keeper })),
    };
    match Boot::open(alloc, log, keeper) {
        Ok(boot) => Some(Ok(boot)),
        Err((_, log, keeper)) => Some(Err(Stopped {
            disks: log.into_disks(),
            keeper,
        })),
    }
}

/// Two formatted disks whose log takes two windows that are then applied one by one, up to the call of the first disk of this
/// number, which fails.
pub(crate) fn taken(alloc: Global, stop: u64) -> Option<Stopped> {
    let reply = hex::decode(alloc, REPLY).ok()?;
    let mut disks = Vec::new(alloc);
    disks.push(disk_with(alloc, &[0], &[stop])?).ok()?;
    disks.push(disk_with(alloc, &[0], &[])?).ok()?;
    match opened(alloc, disks)? {
        Ok(mut boot) => {
            boot.take_log(alloc, &reply, 32).ok();
            boot.apply(alloc, 1).ok();
            boot.apply(alloc, 1).ok();
            Some(parts_of(boot))
        }
        Err(stopped) => Some(stopped),
    }
}

/// Three disks, of which the second holds the earlier windows and the first the later ones, whose windows are applied, and those
/// through 10 then trimmed, up to the call of the second disk of this number, which fails.
pub(crate) fn trimmed(alloc: Global, stop: u64) -> Option<Stopped> {
    let mut disks = Vec::new(alloc);
    disks.push(disk_of(alloc, LATER, &[])?).ok()?;
    disks.push(disk_of(alloc, EARLIER, &[stop])?).ok()?;
    disks.push(disk_with(alloc, &[0], &[])?).ok()?;
    match opened(alloc, disks)? {
        Ok(mut boot) => {
            boot.apply(alloc, 2).ok();
            boot.trim(alloc, 10).ok();
            Some(parts_of(boot))
        }
        Err(stopped) => Some(stopped),
    }
}
