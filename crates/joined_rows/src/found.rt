use bus_stores::WindowLog;
use log_disk::MemoryDisk;
use log_store::{LogStore, OpenLog};
use std::alloc::Global;
use std::fmt::{Display, Error, Formatter, Write};

/// What was opened.
#[derive(Drop)]
pub(crate) enum Found {
    /// A log: its floor and its high, and the SCN of the window behind the floor, if there is one.
    Log {
        floor: u64,
        high: u64,
        next: Option<u64>,
    },
    /// A segment that is at fault at this place.
    Bad {
        segment: u32,
        place: u64,
    },
    /// Nothing, since a disk failed or memory ran out, or there are no disks or too many.
    Nothing,
}

impl Display for Found {
    fn fmt<W: Write>(&self, f: &mut Formatter<W>) -> Result<(), Error> {
        match self {
            Found::Log { floor, high, next } => match next {
                Some(scn) => write!(f, "{floor}-{high}({scn})"),
                None => write!(f, "{floor}-{high}"),
            },
            Found::Bad { segment, place } => write!(f, "bad {segment} {place}"),
            Found::Nothing => f.write_str("nothing"),
        }
    }
}

/// Opens disks, and reads the window behind the floor.
pub(crate) fn open(alloc: Global, disks: Vec<MemoryDisk>) -> Found {
    if disks.is_empty() || disks.len() > 16 {
        return Found::Nothing;
    }
    match LogStore::open(alloc, disks) {
        Ok(log) => read(alloc, log),
        Err((OpenLog::BadSegment { segment, place }, _)) => Found::Bad { segment, place },
        Err(_) => Found::Nothing,
    }
}

// What an opened log tells.
fn read(alloc: Global, log: LogStore<MemoryDisk>) -> Found {
    let mut log = log;
    let (floor, high) = (log.floor(), log.high());
    match log.next(alloc, floor) {
        Ok(Some(window)) => Found::Log {
            floor,
            high,
            next: Some(window.scn()),
        },
        Ok(None) => Found::Log {
            floor,
            high,
            next: None,
        },
        Err(_) => Found::Nothing,
    }
}
