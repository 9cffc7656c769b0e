//! The program `log_tests`: shows what is opened of one segment after a stop at each call of its disk, and of the bytes that the
//! lines of its input are, in hex. What has to be printed stands in `stdout`, from outside the program. It stands on `log_disk`
//! and `log_segment`; nothing stands on it.
#![tactic(auto)]

mod found;
mod run;

use found::open;
use log_disk::{MemoryDisk, Pick};
use run::stopped;
use std::alloc::Global;
use std::io;

// The calls of a disk at which it stops, and one that comes to none.
const STOPS: u64 = 15;

// The call at which the window stands and isn't freed yet.
const FREES: u64 = 12;

// What a crash leaves.
const PICKS: [Pick; 4] = [Pick::Synced, Pick::Read, Pick::Fill(0xa5), Pick::Fill(0)];

fn main(rt: HostRuntime) -> io::Result<()> {
    show_stops(&rt)?;
    show_disk(&rt)?;
    show_lines(&rt)
}

fn show_stops(rt: &HostRuntime) -> io::Result<()> {
    for stop in 0..STOPS {
        show_stop(rt, stop)?;
    }
    Ok(())
}

// Prints what is opened after a stop at a call.
fn show_stop(rt: &HostRuntime, stop: u64) -> io::Result<()> {
    print!(rt; "stop {stop}:")?;
    show_picks(rt, stop)?;
    println!(rt; "")
}

fn show_picks(rt: &HostRuntime, stop: u64) -> io::Result<()> {
    for pick in PICKS {
        show_pick(rt, stop, pick)?;
    }
    Ok(())
}

fn show_pick(rt: &HostRuntime, stop: u64, pick: Pick) -> io::Result<()> {
    let disk = at_stop(rt, stop)?;
    show_found(rt, " ", disk.crash(pick))
}

// Prints what is opened of a disk.
fn show_found(rt: &HostRuntime, before: &str, disk: MemoryDisk) -> io::Result<()> {
    let found = open(rt.alloc(), disk);
    print!(rt; "{before}{found}")
}

// Prints the bytes of the disk whose window stands and isn't freed yet.
fn show_disk(rt: &HostRuntime) -> io::Result<()> {
    let disk = at_stop(rt, FREES)?;
    show_bytes(rt, &disk.crash(Pick::Synced))
}

fn show_bytes(rt: &HostRuntime, disk: &MemoryDisk) -> io::Result<()> {
    let text = hex::encode(rt.alloc(), disk.bytes())?;
    println!(rt; "{text}")
}

// Prints what is opened of the bytes of each line.
fn show_lines(rt: &HostRuntime) -> io::Result<()> {
    for line in rt.lines(rt.alloc()) {
        show_line(rt, line?)?;
    }
    Ok(())
}

fn show_line(rt: &HostRuntime, line: String) -> io::Result<()> {
    let disk = disk_of(rt.alloc(), &line)?;
    show_found(rt, "", disk)?;
    println!(rt; "")
}

// A disk with the bytes of a line, in hex.
fn disk_of(alloc: Global, line: &str) -> io::Result<MemoryDisk> {
    let Ok(bytes) = hex::decode(alloc, line) else {
        return Err(io::ErrorKind::InvalidInput.into());
    };
    disk_with(alloc, &bytes)
}

fn disk_with(alloc: Global, bytes: &[u8]) -> io::Result<MemoryDisk> {
    let Ok(disk) = MemoryDisk::new(alloc, bytes, bytes.len() as u64, 16, &[]) else {
        return Err(io::ErrorKind::OutOfMemory.into());
    };
    Ok(disk)
}

// The disk that stopped at this call.
fn at_stop(rt: &HostRuntime, stop: u64) -> io::Result<MemoryDisk> {
    let Ok(disk) = stopped(rt.alloc(), stop) else {
        return Err(io::ErrorKind::OutOfMemory.into());
    };
    Ok(disk)
}
