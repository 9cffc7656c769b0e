use crate::log::{append_for, open_all, read_many};
use bus_stores::WindowLog;
use log_disk::FileDisk;
use log_segment::Segment;
use log_store::LogStore;
use std::fs::File;
use std::io;
use std::time::Instant;

// The most windows that are appended.
const MOST: u64 = 10_000_000;

// The disk over the file of this number in a folder, which is made anew or opened.
fn disk_at(rt: &HostRuntime, folder: &str, number: u64, new: bool) -> io::Result<FileDisk> {
    let path = format!(in rt.alloc(); "{folder}/{number}")?;
    let file = File::options()
        .read(true)
        .write(true)
        .create(new)
        .truncate(new)
        .open(rt, &path)?;
    Ok(FileDisk::new(file))
}

// The same, of a segment that isn't in use.
fn new_disk(rt: &HostRuntime, folder: &str, number: u64) -> io::Result<FileDisk> {
    let mut disk = disk_at(rt, folder, number, true)?;
    match Segment::format(&mut disk) {
        Ok(()) => Ok(disk),
        Err(_) => Err(io::ErrorKind::Other.into()),
    }
}

// A log over new files of a folder, so many.
fn new_log(rt: &HostRuntime, folder: &str, count: u64) -> io::Result<Option<LogStore<FileDisk>>> {
    let mut disks = Vec::new(rt.alloc());
    for number in 0..count {
        disks.push(new_disk(rt, folder, number)?)?;
    }
    Ok(open_all(rt.alloc(), disks))
}

// A log over the files of a folder, so many.
fn old_log(rt: &HostRuntime, folder: &str, count: u64) -> io::Result<Option<LogStore<FileDisk>>> {
    let mut disks = Vec::new(rt.alloc());
    for number in 0..count {
        disks.push(disk_at(rt, folder, number, false)?)?;
    }
    Ok(open_all(rt.alloc(), disks))
}

// Appends windows of so many bytes to a log until it is full, and prints how many it took.
fn fill(rt: &HostRuntime, log: &mut LogStore<FileDisk>, size: usize) -> io::Result<Option<()>> {
    let start = Instant::now(rt)?;
    let Some(times) = append_for(rt, log, size, u128::MAX, MOST) else {
        return Ok(None);
    };
    let taken = start.elapsed(rt)?.as_millis();
    println!(rt;
        "windows {} floor {} high {} full {} milliseconds {taken}",
        times.len(),
        log.floor(),
        log.high(),
        log.is_full(size as u64)
    )?;
    Ok(Some(()))
}

// Opens the log again, and prints its ends and how many bytes 1,000 reads of it give.
fn reopen(rt: &HostRuntime, folder: &str, count: u64) -> io::Result<Option<LogStore<FileDisk>>> {
    let start = Instant::now(rt)?;
    let Some(mut log) = old_log(rt, folder, count)? else {
        return Ok(None);
    };
    let taken = start.elapsed(rt)?.as_millis();
    let Some(bytes) = read_many(rt.alloc(), &mut log, 1000) else {
        return Ok(None);
    };
    println!(rt;
        "floor {} high {} read-bytes {bytes} milliseconds {taken}",
        log.floor(),
        log.high()
    )?;
    Ok(Some(log))
}

// Drops the older half of a log's windows, and prints its ends.
fn halve(rt: &HostRuntime, log: &mut LogStore<FileDisk>, size: usize) -> io::Result<Option<()>> {
    let half = log.high() / 2;
    let Ok(()) = log.drop_through(rt.alloc(), half) else {
        return Ok(None);
    };
    println!(rt;
        "dropped through {half} floor {} high {} full {}",
        log.floor(),
        log.high(),
        log.is_full(size as u64)
    )?;
    Ok(Some(()))
}

/// Fills a log over new files of a folder, so many, with windows of so many bytes, opens it again, drops its older half, fills it
/// again and opens it once more. It prints each.
pub(crate) fn full(
    rt: &HostRuntime,
    folder: &str,
    size: usize,
    count: u64,
) -> io::Result<Option<()>> {
    let Some(mut log) = new_log(rt, folder, count)? else {
        return Ok(None);
    };
    if fill(rt, &mut log, size)?.is_none() {
        return Ok(None);
    }
    let Some(mut log) = reopen(rt, folder, count)? else {
        return Ok(None);
    };
    if halve(rt, &mut log, size)?.is_none() || fill(rt, &mut log, size)?.is_none() {
        return Ok(None);
    }
    match reopen(rt, folder, count)? {
        Some(_) => Ok(Some(())),
        None => Ok(None),
    }
}
