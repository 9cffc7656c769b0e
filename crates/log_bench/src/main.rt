//! The program `log_bench`: appends windows to a log on a file for a time, writes a file that is a segment with many windows, and
//! opens such a file and reads windows of it. It prints the nanoseconds that the log took, those of each append on a line of its own.
//! Its words are `append`, a path, the bytes of a window and a time in milliseconds; or `fill`, a path, the bytes of a window and how
//! many windows; or a path. The file of the first two is made anew. With `full`, a folder, the bytes of a window and how many disks it
//! fills a log over so many new files, opens it again, drops its older half and fills it again. It stands on `log_store`; nothing
//! stands on it.
#![tactic(auto)]

mod full;
mod image;
mod log;
mod windows;

use bus_stores::WindowLog;
use bus_types::read_number;
use full::full;
use image::image;
use log::{append_for, open, read_many};
use log_disk::{FileDisk, MemoryDisk};
use log_segment::Segment;
use log_store::LogStore;
use std::fs::File;
use std::time::Instant;
use std::{env, fs, io};

// How many windows are read.
const READS: u64 = 1000;

// The most windows that are appended.
const MOST: u64 = 1_000_000;

fn main(rt: HostRuntime) -> io::Result<()> {
    let words: Vec<String> = env::args(&rt)?.skip(1).collect(rt.alloc())?;
    let done = match words.as_slice() {
        [] => tiny(&rt)?,
        [path] => read(&rt, path)?,
        [form, path, size, count] => {
            let (size, count) = (number(size)?, number(count)?);
            change(&rt, form, path, size, count)?
        }
        _ => None,
    };
    if done.is_none() {
        return Err(io::ErrorKind::Other.into());
    }
    Ok(())
}

// The number of a word, up to 2^30.
fn number(word: &str) -> io::Result<u64> {
    match read_number(word.as_bytes(), 1 << 30) {
        Some(number) => Ok(number),
        None => Err(io::ErrorKind::InvalidInput.into()),
    }
}

// Makes a file by the first of four words.
fn change(
    rt: &HostRuntime,
    form: &str,
    path: &str,
    size: u64,
    count: u64,
) -> io::Result<Option<()>> {
    match form {
        "append" => append(rt, path, size as usize, count),
        "fill" => fill(rt, path, size as usize, count),
        "full" => full(rt, path, size as usize, count),
        _ => Ok(None),
    }
}

// Whether a log that took ten windows has the bytes of a segment with these, and how many bytes two reads of that give.
fn tiny(rt: &HostRuntime) -> io::Result<Option<()>> {
    let Some((same, bytes)) = compared(rt) else {
        return Ok(None);
    };
    println!(rt; "same {same} read {bytes}")?;
    Ok(Some(()))
}

// As `tiny` prints it.
fn compared(rt: &HostRuntime) -> Option<(bool, u64)> {
    let disk = MemoryDisk::new(rt.alloc(), &[0], 4096, 256, &[]).ok()?;
    let mut log = open(rt.alloc(), disk)?;
    append_for(rt, &mut log, 100, 1 << 60, 10)?;
    let bytes = read_many(rt.alloc(), &mut log, 2)?;
    let expected = image(rt.alloc(), 10, 100).ok()?;
    let disks = log.into_disks();
    let disk = disks.first()?;
    Some((disk.bytes() == expected.as_slice(), bytes))
}

// A disk over a file that is made anew, of a segment that isn't in use.
fn new_disk(rt: &HostRuntime, path: &str) -> io::Result<Option<FileDisk>> {
    let file = File::options()
        .read(true)
        .write(true)
        .create(true)
        .truncate(true)
        .open(rt, path)?;
    let mut disk = FileDisk::new(file);
    let Ok(()) = Segment::format(&mut disk) else {
        return Ok(None);
    };
    Ok(Some(disk))
}

// Appends windows for so many nanoseconds, behind one that takes the segment into use and is not counted.
fn append_timed(
    rt: &HostRuntime,
    log: &mut LogStore<FileDisk>,
    size: usize,
    limit: u128,
) -> Option<Vec<u128>> {
    append_for(rt, log, size, 1, 1)?;
    append_for(rt, log, size, limit, MOST)
}

// Appends windows to a new file for so many milliseconds, and prints how long each took.
fn append(rt: &HostRuntime, path: &str, size: usize, time: u64) -> io::Result<Option<()>> {
    let Some(disk) = new_disk(rt, path)? else {
        return Ok(None);
    };
    let Some(mut log) = open(rt.alloc(), disk) else {
        return Ok(None);
    };
    let limit = (time as u128).saturating_mul(1_000_000);
    let Some(times) = append_timed(rt, &mut log, size, limit) else {
        return Ok(None);
    };
    for time in &times {
        println!(rt; "{time}")?;
    }
    Ok(Some(()))
}

// Writes a file of a segment with so many windows.
fn fill(rt: &HostRuntime, path: &str, size: usize, windows: u64) -> io::Result<Option<()>> {
    let Ok(bytes) = image(rt.alloc(), windows, size) else {
        return Ok(None);
    };
    fs::write(rt, path, &bytes)?;
    println!(rt; "windows {windows} bytes {}", bytes.len())?;
    Ok(Some(()))
}

// Opens a log on a file and reads windows of it.
fn read(rt: &HostRuntime, path: &str) -> io::Result<Option<()>> {
    let file = File::options().read(true).write(true).open(rt, path)?;
    let length = file.metadata()?.len();
    let start = Instant::now(rt)?;
    let Some(mut log) = open(rt.alloc(), FileDisk::new(file)) else {
        return Ok(None);
    };
    let opened = start.elapsed(rt)?.as_nanos();
    let start = Instant::now(rt)?;
    let Some(bytes) = read_many(rt.alloc(), &mut log, READS) else {
        return Ok(None);
    };
    let taken = start.elapsed(rt)?.as_nanos();
    println!(rt;
        "bytes {length} windows {} open-nanoseconds {opened} reads {READS} read-bytes {bytes} read-nanoseconds {taken}",
        log.high()
    )?;
    Ok(Some(()))
}
