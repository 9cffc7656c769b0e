//! The program `full_rows`: shows how many windows of the greatest size a log over one disk and over two takes, what it drops, and
//! what is opened after a stop at a call of the drop. What has to be printed stands in `stdout`, from outside the program. It
//! stands on `log_store`; nothing stands on it.
#![tactic(auto)]

mod log;
mod windows;

use bus_stores::{LogFault, WindowLog};
use log::{append_next, fill, formatted, open};
use log_disk::Pick;
use std::io;

// The call of the first disk at which a drop writes, behind 4 that open it, 4 that begin it and 4 for each of 63 windows.
const WRITES: u64 = 260;

// The call at which it makes that lasting.
const SYNCS: u64 = 261;

fn main(rt: HostRuntime) -> io::Result<()> {
    if one_disk(&rt)?.is_none() || two_disks(&rt)?.is_none() {
        println!(rt; "nothing")?;
    }
    for (stop, pick) in [(WRITES, Pick::Read), (SYNCS, Pick::Synced)] {
        match stopped(&rt, stop, pick) {
            Some((floor, high)) => println!(rt; "{floor} {high}")?,
            None => println!(rt; "nothing")?,
        }
    }
    Ok(())
}

// Fills a log over one disk.
fn one_disk(rt: &HostRuntime) -> io::Result<Option<()>> {
    let Some(mut log) = formatted(rt.alloc(), 1, &[]) else {
        return Ok(None);
    };
    let count = fill(rt.alloc(), &mut log, 100);
    println!(rt;
        "{count} {} {} {}",
        log.floor(),
        log.high(),
        log.is_full(1_048_576)
    )?;
    let full = append_next(rt.alloc(), &mut log) == Some(Err(LogFault::Full));
    println!(rt; "{full} {} {}", log.floor(), log.high())?;
    for disk in log.into_disks() {
        println!(rt; "{}", disk.bytes().len())?;
    }
    Ok(Some(()))
}

// Drops windows of a log over two disks.
fn two_disks(rt: &HostRuntime) -> io::Result<Option<()>> {
    let Some(mut log) = formatted(rt.alloc(), 2, &[]) else {
        return Ok(None);
    };
    let count = fill(rt.alloc(), &mut log, 64);
    println!(rt;
        "{count} {} {} {}",
        log.floor(),
        log.high(),
        log.is_full(1_048_576)
    )?;
    for scn in [62, 64] {
        let dropped = log.drop_through(rt.alloc(), scn).is_ok();
        println!(rt; "{dropped} {} {}", log.floor(), log.high())?;
    }
    for disk in log.into_disks() {
        println!(rt; "{}", disk.bytes().len())?;
    }
    Ok(Some(()))
}

// The ends of a log over two disks that is opened again after a stop while it drops.
fn stopped(rt: &HostRuntime, stop: u64, pick: Pick) -> Option<(u64, u64)> {
    let mut log = formatted(rt.alloc(), 2, &[stop])?;
    fill(rt.alloc(), &mut log, 64);
    log.drop_through(rt.alloc(), 64).ok();
    let mut left = Vec::new(rt.alloc());
    for disk in log.into_disks() {
        left.push(disk.crash(pick)).ok()?;
    }
    let log = open(rt.alloc(), left)?;
    Some((log.floor(), log.high()))
}
