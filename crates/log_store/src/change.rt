ghost use Rattle.std.specs.Prelude.{◌≡◌, ◌<◌, true, false, length};
ghost use Rattle.log_segment.specs.Lookup.{ReadsNext};
ghost use Rattle.log_segment.specs.Segment.{told, Appends, Frees, OnRefused};
ghost use Rattle.log_store.specs.Change.{Changes};
ghost use Rattle.log_store.specs.First.{PutsFirst};
ghost use Rattle.log_store.specs.Order.{numbers_at};

use crate::first::append_first;
use bus_stores::LogFault;
use bus_types::{Failed, Window};
use log_disk::Disk;
use log_segment::Segment;
use std::alloc::Global;

/// Appends a window to the segment at a place.
pub(crate) fn append_at<D: Disk>(
    alloc: Global,
    segments: &mut Vec<Segment<D>>,
    place: usize,
    window: &Window,
) -> Result<(), LogFault>
    requires place { place < length segments.old.items }
    requires in_use { (numbers_at segments.old.items place).in_use ≡ true }
    requires chained { window.now.prev ≡ (numbers_at segments.old.items place).high }
    requires full { 0 < length window.now.changes }
    ensures { Changes (λ a b. Appends window.now (told D.state a) (told D.state b) result × OnRefused result (b ≡ a)) place
        segments.old.items segments.new.items }
{
    segments[place].append(alloc, window)
}

/// Takes the segment at a place into use with a window.
pub(crate) fn begin_at<D: Disk>(
    alloc: Global,
    segments: &mut Vec<Segment<D>>,
    place: usize,
    window: &Window,
) -> Result<(), LogFault>
    requires place { place < length segments.old.items }
    requires free { (numbers_at segments.old.items place).in_use ≡ false }
    requires full { 0 < length window.now.changes }
    ensures { Changes (λ a b. PutsFirst window.now (told D.state a) (told D.state b) result) place segments.old.items segments.new.items }
{
    append_first(alloc, &mut segments[place], window)
}

/// Reads the oldest window behind an SCN of the segment at a place.
pub(crate) fn next_at<D: Disk>(
    alloc: Global,
    segments: &mut Vec<Segment<D>>,
    place: usize,
    scn: u64,
) -> Result<Option<Window>, LogFault>
    requires { place < length segments.old.items }
    ensures { Changes (λ a b. ReadsNext scn (told D.state a) (told D.state b) result) place segments.old.items segments.new.items }
{
    segments[place].next(alloc, scn)
}

/// Gives the segment at a place up.
pub(crate) fn free_at<D: Disk>(segments: &mut Vec<Segment<D>>, place: usize) -> Result<(), Failed>
    requires place { place < length segments.old.items }
    requires in_use { (numbers_at segments.old.items place).in_use ≡ true }
    ensures { Changes (λ a b. Frees (told D.state a) (told D.state b) result) place segments.old.items segments.new.items }
{
    segments[place].free()
}
