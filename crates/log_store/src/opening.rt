ghost use Rattle.std.specs.Prelude.{◌≡◌, ◌+◌, ◌<◌, ◌≤◌, ◌++◌, ◌∷◌, [], length, map, vec_len, vec_capacity};
ghost use Rattle.log_store.specs.Joining.{fault_at, OpensNext, OpensAll, OrdersAll, OpensOrdered};
ghost use Rattle.log_store.specs.Opening.{disks_of};

use crate::order::{first_apart, put_in_order};
use log_disk::Disk;
use log_segment::{Segment, SegmentFault};
use std::alloc::Global;

/// Why a log was not opened.
#[derive(Clone, Copy, Debug, PartialEq, Eq)]
pub enum OpenLog {
    /// The disk of this number holds no segment, or its windows don't follow those of the segment before it. Of several disks
    /// that hold none it is the first one.
    BadSegment {
        /// The number of the disk, from 0.
        segment: u32,
        /// The place of the first byte that is missing or wrong; that of the segment's SCN, 9, where its windows don't follow.
        place: u64,
    },
    /// A disk failed. It comes only where its count of faults rose.
    Failed,
    /// Memory ran out.
    NoMemory,
}

// What a fault of a disk's segment is to the log.
fn fault_at(segment: u32, fault: SegmentFault) -> OpenLog
    ensures { result ≡ fault_at segment fault }
{
    match fault {
        SegmentFault::Bad { place } => OpenLog::BadSegment { segment, place },
        SegmentFault::Failed => OpenLog::Failed,
        SegmentFault::NoMemory => OpenLog::NoMemory,
    }
}

// Takes the first disk.
fn take_first<D>(disks: &mut Vec<D>) -> D
    requires { 0 < length disks.old.items }
    ensures items { disks.old.items ≡ result ∷ disks.new.items }
    ensures capacity { vec_capacity disks.new ≡ vec_capacity disks.old }
{
    disks.remove(0)
}

// Puts a disk before the others. There is room for it.
fn put_first<D: Drop>(disks: &mut Vec<D>, disk: D)
    requires { vec_len disks.old < vec_capacity disks.old }
    ensures items { disks.new.items ≡ disk ∷ disks.old.items }
    ensures capacity { vec_capacity disks.new ≡ vec_capacity disks.old }
{
    disks.insert(0, disk).unwrap();
}

// Puts a segment behind the others. There is room for it.
fn push<D: Disk + Drop>(segments: &mut Vec<Segment<D>>, segment: Segment<D>)
    requires { vec_len segments.old < vec_capacity segments.old }
    ensures items { segments.new.items ≡ segments.old.items ++ segment ∷ [] }
    ensures capacity { vec_capacity segments.old ≤ vec_capacity segments.new }
{
    segments.push(segment).unwrap();
}

// Moves the first disk to the segments, once it is opened. It stays where that fails.
fn open_next<D: Disk + Drop>(
    alloc: Global,
    disks: &mut Vec<D>,
    segments: &mut Vec<Segment<D>>,
) -> Result<(), OpenLog>
    requires some { 0 < length disks.old.items }
    requires room { length segments.old.items < vec_capacity segments.old }
    requires few { length segments.old.items < 16 }
    ensures opens { OpensNext D.state disks.old.items segments.old.items disks.new.items segments.new.items result }
    ensures disks { vec_capacity disks.new ≡ vec_capacity disks.old }
    ensures segments { vec_capacity segments.old ≤ vec_capacity segments.new }
{
    let number = segments.len() as u32;
    match Segment::open(alloc, take_first(disks)) {
        Ok(segment) => {
            push(segments, segment);
            Ok(())
        }
        Err((fault, disk)) => {
            put_first(disks, disk);
            Err(fault_at(number, fault))
        }
    }
}

// Moves all disks to the segments, until one isn't opened.
fn open_all<D: Disk + Drop>(
    alloc: Global,
    disks: &mut Vec<D>,
    segments: &mut Vec<Segment<D>>,
) -> Result<(), OpenLog>
    requires none { segments.old.items ≡ [] }
    requires room { length disks.old.items ≤ vec_capacity segments.old }
    requires few { length disks.old.items ≤ 16 }
    ensures opens { OpensAll D.state disks.old.items segments.new.items disks.new.items result }
    ensures capacity { vec_capacity disks.new ≡ vec_capacity disks.old }
    ensures many { length segments.new.items + length disks.new.items ≡ length disks.old.items }
{
    while !disks.is_empty() {
        open_next(alloc, disks, segments)?;
    }
    Ok(())
}

// The order of the segments in use, where their windows follow each other.
fn ordered<D: Disk + Drop>(segments: &[Segment<D>], order: &mut Vec<usize>) -> Result<(), OpenLog>
    requires none { order.old.items ≡ [] }
    requires room { length segments.now ≤ vec_capacity order.old }
    requires few { length segments.now ≤ 16 }
    ensures { OrdersAll segments.now order.new.items result }
{
    put_in_order(segments, order);
    match first_apart(segments, order) {
        None => Ok(()),
        Some(segment) => Err(OpenLog::BadSegment {
            segment: segment as u32,
            place: 9,
        }),
    }
}

/// Moves all disks to the segments and finds their order, until one isn't opened or doesn't follow the one before.
pub(crate) fn open_in_order<D: Disk + Drop>(
    alloc: Global,
    disks: &mut Vec<D>,
    segments: &mut Vec<Segment<D>>,
    order: &mut Vec<usize>,
) -> Result<(), OpenLog>
    requires none { segments.old.items ≡ [] }
    requires no_order { order.old.items ≡ [] }
    requires room { length disks.old.items ≤ vec_capacity segments.old }
    requires order_room { length disks.old.items ≤ vec_capacity order.old }
    requires few { length disks.old.items ≤ 16 }
    ensures opens { OpensOrdered D.state disks.old.items segments.new.items order.new.items disks.new.items result }
    ensures capacity { vec_capacity disks.new ≡ vec_capacity disks.old }
    ensures many { length segments.new.items + length disks.new.items ≡ length disks.old.items }
{
    match open_all(alloc, disks, segments) {
        Ok(()) => ordered(segments, order),
        Err(fault) => Err(fault),
    }
}

/// Moves the segments' disks back in front of those that are left. There is room for them.
pub(crate) fn give_back<D: Disk + Drop>(segments: Vec<Segment<D>>, disks: &mut Vec<D>)
    requires { length segments.items + length disks.old.items ≤ vec_capacity disks.old }
    ensures { disks.new.items ≡ disks_of segments.items ++ disks.old.items }
{
    let mut segments = segments;
    while let Some(segment) = segments.pop() {
        put_first(disks, segment.into_disk());
    }
}
