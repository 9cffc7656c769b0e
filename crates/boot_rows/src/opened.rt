use crate::run::Stopped;
use bootstrap_core::Boot;
use bus_stores::{MemoryKeeper, WindowLog};
use bus_types::NoMemory;
use log_disk::{MemoryDisk, Pick};
use log_store::LogStore;
use std::alloc::Global;
use std::fmt::{Display, Error, Formatter, Write};

/// What was opened.
#[derive(Drop)]
pub(crate) enum Opened {
    /// A bootstrap, and where its log begins.
    Boot {
        floor: u64,
        base: u64,
        applied: u64,
        high: u64,
    },
    /// None.
    Nothing,
}

impl Display for Opened {
    fn fmt<W: Write>(&self, f: &mut Formatter<W>) -> Result<(), Error> {
        match self {
            Opened::Boot {
                floor,
                base,
                applied,
                high,
            } => write!(f, "{floor}/{base}/{applied}/{high}"),
            Opened::Nothing => f.write_str("nothing"),
        }
    }
}

/// Opens log and bootstrap again behind a crash.
pub(crate) fn reopened(alloc: Global, stopped: Stopped, pick: Pick) -> Opened {
    match left_of(alloc, stopped.disks, pick) {
        Ok(disks) => open(alloc, disks, stopped.keeper),
        Err(NoMemory) => Opened::Nothing,
    }
}

// What a crash leaves of each disk.
fn left_of(alloc: Global, disks: Vec<MemoryDisk>, pick: Pick) -> Result<Vec<MemoryDisk>, NoMemory> {
    let mut left = Vec::new(alloc);
    for disk in disks {
        left.push(disk.crash(pick))?;
    }
    Ok(left)
}

// Opens a log over disks, and a bootstrap over it.
fn open(alloc: Global, disks: Vec<MemoryDisk>, keeper: MemoryKeeper) -> Opened {
    if disks.is_empty() || disks.len() > 16 {
        return Opened::Nothing;
    }
    let Ok(log) = LogStore::open(alloc, disks) else {
        return Opened::Nothing;
    };
    let floor = log.floor();
    match Boot::open(alloc, log, keeper) {
        Ok(boot) => Opened::Boot {
            floor,
            base: boot.base(),
            applied: boot.applied(),
            high: boot.high(),
        },
        Err(_) => Opened::Nothing,
    }
}
