use log_disk::MemoryDisk;
use log_segment::{Segment, SegmentFault};
use std::alloc::Global;
use std::fmt::{Display, Error, Formatter, Write};

/// What was opened.
#[derive(Drop)]
pub(crate) enum Found {
    /// A segment that isn't in use.
    Free,
    /// One in use: its floor, its high, and the SCN of the window behind the floor, if there is one.
    InUse {
        floor: u64,
        high: u64,
        next: Option<u64>,
    },
    /// Bytes that are at fault at this place.
    Bad {
        place: u64,
    },
    /// Nothing, since the disk failed or memory ran out.
    Nothing,
}

impl Display for Found {
    fn fmt<W: Write>(&self, f: &mut Formatter<W>) -> Result<(), Error> {
        match self {
            Found::Free => f.write_str("free"),
            Found::InUse { floor, high, next } => match next {
                Some(scn) => write!(f, "{floor}-{high}({scn})"),
                None => write!(f, "{floor}-{high}"),
            },
            Found::Bad { place } => write!(f, "bad {place}"),
            Found::Nothing => f.write_str("nothing"),
        }
    }
}

/// Opens a disk, and reads the window behind the floor.
pub(crate) fn open(alloc: Global, disk: MemoryDisk) -> Found {
    let mut segment = match Segment::open(alloc, disk) {
        Ok(segment) => segment,
        Err((SegmentFault::Bad { place }, _)) => return Found::Bad { place },
        Err(_) => return Found::Nothing,
    };
    if !segment.in_use() {
        return Found::Free;
    }
    let (floor, high) = (segment.floor(), segment.high());
    match segment.next(alloc, floor) {
        Ok(Some(window)) => Found::InUse {
            floor,
            high,
            next: Some(window.scn()),
        },
        Ok(None) => Found::InUse {
            floor,
            high,
            next: None,
        },
        Err(_) => Found::Nothing,
    }
}
