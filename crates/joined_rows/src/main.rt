//! The program `joined_rows`: shows what is opened of a log over several disks after a stop at each call of one of them, while a
//! window is appended and while a segment is dropped, and of the disks whose bytes stand in the lines of its input, in hex. What
//! has to be printed stands in `stdout`, from outside the program. It stands on `log_store`; nothing stands on it.
#![tactic(auto)]

mod found;
mod run;

use bus_types::NoMemory;
use found::{Found, open};
use log_disk::{MemoryDisk, Pick};
use run::{appended, disks_of, dropped};
use std::alloc::Global;
use std::io;

// The calls of the first disk at which an append stops, and one that comes to none.
const APPEND_STOPS: u64 = 13;

// The calls of the second disk at which a drop stops, and one that comes to none.
const DROP_STOPS: u64 = 6;

// What a crash leaves.
const PICKS: [Pick; 4] = [Pick::Synced, Pick::Read, Pick::Fill(0xa5), Pick::Fill(0)];

fn main(rt: HostRuntime) -> io::Result<()> {
    for stop in 0..APPEND_STOPS {
        print!(rt; "append {stop}:")?;
        for pick in PICKS {
            print!(rt;
                " {}",
                crashed(rt.alloc(), appended(rt.alloc(), stop), pick)
            )?;
        }
        println!(rt; "")?;
    }
    for stop in 0..DROP_STOPS {
        print!(rt; "drop {stop}:")?;
        for pick in PICKS {
            print!(rt; " {}", crashed(rt.alloc(), dropped(rt.alloc(), stop), pick))?;
        }
        println!(rt; "")?;
    }
    show_disks(&rt)?;
    for line in rt.lines(rt.alloc()) {
        println!(rt; "{}", read_line(rt.alloc(), line?.as_str()))?;
    }
    Ok(())
}

// Prints the bytes of each disk behind an append of which no call fails.
fn show_disks(rt: &HostRuntime) -> io::Result<()> {
    let Ok(disks) = appended(rt.alloc(), APPEND_STOPS) else {
        return Err(io::ErrorKind::OutOfMemory.into());
    };
    for disk in disks {
        println!(rt; "{}", hex::encode(rt.alloc(), disk.bytes())?)?;
    }
    Ok(())
}

// What is opened of disks behind a crash.
fn crashed(alloc: Global, disks: Result<Vec<MemoryDisk>, NoMemory>, pick: Pick) -> Found {
    let Ok(disks) = disks else {
        return Found::Nothing;
    };
    match left_of(alloc, disks, pick) {
        Ok(disks) => open(alloc, disks),
        Err(NoMemory) => Found::Nothing,
    }
}

// What a crash leaves of each disk.
fn left_of(alloc: Global, disks: Vec<MemoryDisk>, pick: Pick) -> Result<Vec<MemoryDisk>, NoMemory> {
    let mut left = Vec::new(alloc);
    for disk in disks {
        left.push(disk.crash(pick))?;
    }
    Ok(left)
}

// What is opened of the disks of a line: the bytes of each, in hex, with a space between two.
fn read_line(alloc: Global, line: &str) -> Found {
    match disks_of(alloc, line) {
        Some(disks) => open(alloc, disks),
        None => Found::Nothing,
    }
}
