ghost use Rattle.std.specs.Prelude.{◌≡◌, ◌<◌, ◌≤◌, length, IfOk, OnOk, IfSome, MatchOption};
ghost use Rattle.bus_types.specs.Causes.{Rose};
ghost use Rattle.log_disk.specs.Disk.{Only, may_leave};
ghost use Rattle.log_segment.specs.Looking.{Looks, OnReadFailed};
ghost use Rattle.log_segment.specs.Heading.{IsNumber, ShowsFloor, ShowsHead, Fills};

use crate::ahead::{Ahead, PIECE, ReadFault, read_on};
use crate::gate::OPEN;
use bus_types::MAX_SCN;
use log_disk::Disk;
use std::alloc::Global;

// The tag of a segment, the letters `DBUSLOG1`, as a number.
const TAG: u64 = 0x4442_5553_4c4f_4731;

/// The bytes of a segment in use up to its first gate of a record.
pub(crate) const FRONT: usize = 17;

// The number that bytes begin with, and what stands behind it.
fn number_front(bytes: &[u8]) -> Option<(u64, &[u8])>
    ensures { MatchOption result (length bytes.now < 8) (λ x. IsNumber bytes.now x.0 x.1.now) }
{
    let (number, rest) = bytes.split_first_chunk::<8>()?;
    Some((u64::from_be_bytes(*number), rest))
}

// The SCN behind which the windows of a segment in use begin, from what stands behind its gate; or the place that is at fault.
fn read_floor(bytes: &[u8]) -> Result<u64, u64>
    ensures { ShowsFloor result bytes.now }
{
    let Some((tag, rest)) = number_front(bytes) else {
        return Err(1);
    };
    if tag != TAG {
        return Err(1);
    }
    let Some((floor, _)) = number_front(rest) else {
        return Err(9);
    };
    if floor > MAX_SCN {
        return Err(9);
    }
    Ok(floor)
}

/// What stands at the front of a segment.
pub(crate) enum Head {
    /// The segment isn't in use.
    Free,
    /// It is in use behind this SCN.
    InUse { floor: u64 },
    /// It is at fault at this place.
    Bad { place: u64 },
}

/// What stands at the front of a segment.
pub(crate) fn read_head(bytes: &[u8]) -> Head
    ensures { ShowsHead result bytes.now }
{
    let Some((gate, rest)) = bytes.split_first() else {
        return Head::Bad { place: 0 };
    };
    if *gate != OPEN {
        return Head::Free;
    }
    match read_floor(rest) {
        Ok(floor) => Head::InUse { floor },
        Err(place) => Head::Bad { place },
    }
}

/// Makes what was written to a disk lasting, and answers its length.
pub(crate) fn settle<D: Disk>(disk: &mut D) -> Result<u64, ReadFault>
    ensures looks { Looks (D.state disk.old) (D.state disk.new) }
    ensures failed { OnReadFailed result (Rose (D.state disk.old).faults (D.state disk.new).faults) }
    ensures lasting { OnOk result (IfSome (D.state disk.old).seen (λ bytes. Only bytes (may_leave (D.state disk.new).clock))) }
    ensures length { IfOk result (λ end. IfSome (D.state disk.old).seen (λ bytes. end ≡ length bytes)) }
{
    let Ok(()) = disk.sync() else {
        return Err(ReadFault::Failed);
    };
    match disk.len() {
        Ok(end) => Ok(end),
        Err(_) => Err(ReadFault::Failed),
    }
}

/// The first bytes of a disk, as many as the front of a segment has, or all there are.
pub(crate) fn read_front<D: Disk>(alloc: Global, disk: &mut D, end: u64) -> Result<Ahead, ReadFault>
    ensures looks { Looks (D.state disk.old) (D.state disk.new) }
    ensures failed { OnReadFailed result (Rose (D.state disk.old).faults (D.state disk.new).faults) }
    ensures within { IfOk result (λ ahead. length ahead ≤ end) }
    ensures told { IfOk result (λ ahead. IfSome (D.state disk.old).seen (λ bytes. end ≡ length bytes → Fills bytes ahead)) }
{
    let mut ahead = Ahead::new(alloc);
    while ahead.bytes().len() < FRONT {
        match read_on(alloc, disk, end, 0, PIECE, &mut ahead) {
            Ok(0) => return Ok(ahead),
            Ok(_) => {}
            Err(fault) => return Err(fault),
        }
    }
    Ok(ahead)
}
