ghost use Rattle.std.specs.Prelude.{◌≡◌, ◌<◌, false, length};
ghost use Rattle.log_segment.specs.Segment.{told};
ghost use Rattle.log_store.specs.First.{IsRefused, PutsFirst};

use bus_stores::LogFault;
use bus_types::{Failed, Window};
use log_disk::Disk;
use log_segment::Segment;
use std::alloc::Global;

// Why a window was not appended whose segment was to be given up again.
fn refused(freed: Result<(), Failed>) -> LogFault
    ensures { IsRefused freed result }
{
    match freed {
        Ok(()) => LogFault::NoMemory,
        Err(Failed) => LogFault::Failed,
    }
}

/// Takes a segment into use with its first window. Where memory runs out the segment is given up again.
pub(crate) fn append_first<D: Disk>(
    alloc: Global,
    segment: &mut Segment<D>,
    window: &Window,
) -> Result<(), LogFault>
    requires free { segment.old.numbers.in_use ≡ false }
    requires full { 0 < length window.now.changes }
    ensures { PutsFirst window.now (told D.state segment.old) (told D.state segment.new) result }
{
    let _size = window.size();
    let Ok(()) = segment.begin(window.prev()) else {
        return Err(LogFault::Failed);
    };
    match segment.append(alloc, window) {
        Ok(()) => Ok(()),
        Err(LogFault::Failed) => Err(LogFault::Failed),
        Err(LogFault::Full) => Err(refused(segment.free())),
        Err(LogFault::NoMemory) => Err(refused(segment.free())),
    }
}
