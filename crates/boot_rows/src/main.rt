//! The program `boot_rows`: shows at which numbers a bootstrap over a log on disks is opened again after a stop at each call of a
//! disk, while it takes windows and applies them, and while it is trimmed. Each line has the log's floor, and the bootstrap's
//! base, applied and high, for each of four crashes. What has to be printed stands in `stdout`, from outside the program. It
//! stands on `bootstrap_core` and `log_store`; nothing stands on it.
#![tactic(auto)]

mod opened;
mod run;

use log_disk::Pick;
use opened::{Opened, reopened};
use run::{Stopped, taken, trimmed};
use std::alloc::Global;
use std::io;

// The calls of the disk at which it stops while windows are taken and applied, and one that comes to none.
const TAKE_STOPS: u64 = 19;

// The calls of the disk of the oldest segment at which it stops while it is trimmed, and one that comes to none.
const TRIM_STOPS: u64 = 8;

// What a crash leaves.
const PICKS: [Pick; 4] = [Pick::Synced, Pick::Read, Pick::Fill(0xa5), Pick::Fill(0)];

fn main(rt: HostRuntime) -> io::Result<()> {
    for stop in 0..TAKE_STOPS {
        print!(rt; "take {stop}:")?;
        for pick in PICKS {
            print!(rt; " {}", after(rt.alloc(), taken(rt.alloc(), stop), pick))?;
        }
        println!(rt; "")?;
    }
    for stop in 0..TRIM_STOPS {
        print!(rt; "trim {stop}:")?;
        for pick in PICKS {
            print!(rt; " {}", after(rt.alloc(), trimmed(rt.alloc(), stop), pick))?;
        }
        println!(rt; "")?;
    }
    Ok(())
}

// What is opened behind a crash.
fn after(alloc: Global, stopped: Option<Stopped>, pick: Pick) -> Opened {
    match stopped {
        Some(stopped) => reopened(alloc, stopped, pick),
        None => Opened::Nothing,
    }
}
