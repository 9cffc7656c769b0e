use bus_types::{Change, Key, NoMemory, Payload, Window};
use log_disk::MemoryDisk;
use log_segment::Segment;
use std::alloc::Global;

// The window with SCN 10 after 0 that puts aa at source 0, key 1.
fn window_10(alloc: Global) -> Result<Window, NoMemory> {
    let mut changes = Vec::new(alloc);
    let Ok(payload) = Payload::new(alloc, &[0xaa]) else {
        return Err(NoMemory);
    };
    changes.push(Change {
        source: 0,
        key: Key::Long(1),
        put: Some(payload),
    })?;
    Window::new(10, 0, changes).or(Err(NoMemory))
}

// Takes a segment into use, appends the window and frees it, up to a call that fails.
fn change(alloc: Global, segment: &mut Segment<MemoryDisk>) -> Option<()> {
    if segment.in_use() {
        return None;
    }
    segment.begin(0).ok()?;
    let window = window_10(alloc).ok()?;
    let may_append = segment.in_use() && window.prev() == segment.high();
    if !may_append || window.changes().is_empty() {
        return None;
    }
    segment.append(alloc, &window).ok()?;
    if !segment.in_use() {
        return None;
    }
    segment.free().ok()
}

/// A formatted disk that is opened, taken into use, given the window and freed, up to the call of this number, which fails.
pub(crate) fn stopped(alloc: Global, stop: u64) -> Result<MemoryDisk, NoMemory> {
    let disk = MemoryDisk::new(alloc, &[0], 256, 64, &[stop])?;
    match Segment::open(alloc, disk) {
        Ok(mut segment) => {
            change(alloc, &mut segment);
            Ok(segment.into_disk())
        }
        Err((_, disk)) => Ok(disk),
    }
}
