ghost use Rattle.std.specs.Prelude.{◌≡◌, ◌+◌, ◌≤◌, [], length, IfOk, IfSome};
ghost use Rattle.bus_types.specs.Causes.{Rose};
ghost use Rattle.bus_types.specs.declared.limits.TheConstants.{MAX_SCN};
ghost use Rattle.log_segment.specs.Looking.{Looks};
ghost use Rattle.log_segment.specs.Heading.{BeginsInUse, Fills};
ghost use Rattle.log_segment.specs.Scanning.{OnScanFailed};
ghost use Rattle.log_segment.specs.Opening.{IsRead, OpensAs, LastsAs};

use crate::ahead::{Ahead, ReadFault};
use crate::head::{FRONT, Head, read_front, read_head, settle};
use crate::scan::{Scan, scan_all};
use crate::segment::SegmentFault;
use log_disk::Disk;
use std::alloc::Global;

// Nothing was read behind the front of a segment in use.
fn begun(alloc: Global, floor: u64) -> Scan
    ensures floor { result.floor ≡ floor }
    ensures high { result.high ≡ floor }
    ensures gate { result.gate ≡ 17 }
    ensures index { result.index.items ≡ [] }
{
    Scan {
        floor,
        high: floor,
        gate: FRONT as u64,
        index: Vec::new(alloc),
    }
}

// Reads the windows of a segment in use behind its front.
fn read_windows<D: Disk>(
    alloc: Global,
    disk: &mut D,
    end: u64,
    floor: u64,
    ahead: &mut Ahead,
) -> Result<Option<Scan>, SegmentFault>
    requires begins { BeginsInUse floor ahead.old }
    requires within { length ahead.old ≤ end }
    ensures looks { Looks (D.state disk.old) (D.state disk.new) }
    ensures failed { OnScanFailed result (Rose (D.state disk.old).faults (D.state disk.new).faults) }
    ensures read { IfOk result (λ found. IfSome found (λ scan. IsRead scan)) }
    ensures told { IfSome (D.state disk.old).seen (λ bytes. end ≡ length bytes → Fills bytes ahead.old → OpensAs result bytes) }
{
    ahead.skip(FRONT);
    match scan_all(alloc, disk, end, begun(alloc, floor), ahead) {
        Ok(scan) => Ok(Some(scan)),
        Err(fault) => Err(fault),
    }
}

// Reads a segment of whose disk the first bytes were read.
fn read_from<D: Disk>(
    alloc: Global,
    disk: &mut D,
    end: u64,
    ahead: &mut Ahead,
) -> Result<Option<Scan>, SegmentFault>
    requires { length ahead.old ≤ end }
    ensures looks { Looks (D.state disk.old) (D.state disk.new) }
    ensures failed { OnScanFailed result (Rose (D.state disk.old).faults (D.state disk.new).faults) }
    ensures read { IfOk result (λ found. IfSome found (λ scan. IsRead scan)) }
    ensures told { IfSome (D.state disk.old).seen (λ bytes. end ≡ length bytes → Fills bytes ahead.old → OpensAs result bytes) }
{
    match read_head(ahead.bytes()) {
        Head::Free => Ok(None),
        Head::Bad { place } => Err(SegmentFault::Bad { place }),
        Head::InUse { floor } => read_windows(alloc, disk, end, floor, ahead),
    }
}

// Reads a segment of a disk that is so long.
fn read_all<D: Disk>(alloc: Global, disk: &mut D, end: u64) -> Result<Option<Scan>, SegmentFault>
    ensures looks { Looks (D.state disk.old) (D.state disk.new) }
    ensures failed { OnScanFailed result (Rose (D.state disk.old).faults (D.state disk.new).faults) }
    ensures read { IfOk result (λ found. IfSome found (λ scan. IsRead scan)) }
    ensures told { IfSome (D.state disk.old).seen (λ bytes. end ≡ length bytes → OpensAs result bytes) }
{
    match read_front(alloc, disk, end) {
        Ok(mut ahead) => read_from(alloc, disk, end, &mut ahead),
        Err(ReadFault::Failed) => Err(SegmentFault::Failed),
        Err(ReadFault::NoMemory) => Err(SegmentFault::NoMemory),
    }
}

/// Makes a disk lasting and reads its segment: none where it isn't in use.
pub(crate) fn read_segment<D: Disk>(
    alloc: Global,
    disk: &mut D,
) -> Result<Option<Scan>, SegmentFault>
    ensures looks { Looks (D.state disk.old) (D.state disk.new) }
    ensures failed { OnScanFailed result (Rose (D.state disk.old).faults (D.state disk.new).faults) }
    ensures read { IfOk result (λ found. IfSome found (λ scan. IsRead scan)) }
    ensures told { IfSome (D.state disk.old).seen (λ bytes. OpensAs result bytes) }
    ensures lasting { IfSome (D.state disk.old).seen (λ bytes. LastsAs result bytes (D.state disk.new).clock) }
{
    match settle(disk) {
        Ok(end) => read_all(alloc, disk, end),
        Err(ReadFault::Failed) => Err(SegmentFault::Failed),
        Err(ReadFault::NoMemory) => Err(SegmentFault::NoMemory),
    }
}
