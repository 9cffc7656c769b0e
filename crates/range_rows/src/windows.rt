ghost use Rattle.std.specs.Prelude.{◌≡◌, IfOk};

use bus_types::{Change, Key, Payload, Untold, Window};
use range_ring::{Feeder, Ring};
use ring_cells::Entry;
use std::alloc::Global;
use std::io;
use std::ops::RangeInclusive;
use std::sync::Wait;

// Puts of the byte 0xaa to rows of the source 0.
fn puts(alloc: Global, keys: RangeInclusive<u64>) -> io::Result<Vec<Change>> {
    let mut changes = Vec::new(alloc);
    for key in keys {
        let Ok(payload) = Payload::new(alloc, &[0xaa]) else {
            return Err(io::ErrorKind::OutOfMemory.into());
        };
        changes.push(Change {
            source: 0,
            key: Key::Long(key),
            put: Some(payload),
        })?;
    }
    Ok(changes)
}

// The entry of a window at a position.
fn entry(
    alloc: Global,
    position: u64,
    scn: u64,
    prev: u64,
    changes: Vec<Change>,
) -> io::Result<Entry<Untold>>
    ensures { IfOk result (λ entry. entry.position ≡ position) }
{
    let Ok(window) = Window::new(scn, prev, changes) else {
        return Err(io::ErrorKind::InvalidInput.into());
    };
    if position >= scn {
        return Err(io::ErrorKind::InvalidInput.into());
    }
    match Entry::new(alloc, &window, position) {
        Ok(entry) => Ok(entry),
        Err(_) => Err(io::ErrorKind::OutOfMemory.into()),
    }
}

/// Publishes the windows of the SCNs 10, 20 and 30, with the rows 1, 2, and 1 to 3.
pub(crate) fn publish<R: Wait>(
    rt: &R,
    alloc: Global,
    ring: &Ring<Untold>,
    feeder: &mut Feeder<Untold>,
) -> io::Result<()>
    requires { feeder.old.home ≡ ring.now }
    ensures { feeder.new.home ≡ ring.now }
{
    publish_one(rt, alloc, ring, feeder, 10, 0, 1..=1)?;
    publish_one(rt, alloc, ring, feeder, 20, 10, 2..=2)?;
    publish_one(rt, alloc, ring, feeder, 30, 20, 1..=3)
}

// Publishes the window that puts these rows.
fn publish_one<R: Wait>(
    rt: &R,
    alloc: Global,
    ring: &Ring<Untold>,
    feeder: &mut Feeder<Untold>,
    scn: u64,
    prev: u64,
    keys: RangeInclusive<u64>,
) -> io::Result<()>
    requires { feeder.old.home ≡ ring.now }
    ensures { feeder.new.home ≡ ring.now }
{
    let position = feeder.numbers().published;
    let entry = entry(alloc, position, scn, prev, puts(alloc, keys)?)?;
    feeder.publish(rt, ring, entry);
    Ok(())
}
