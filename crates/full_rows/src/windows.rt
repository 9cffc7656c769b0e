use bus_types::{Change, Key, NoMemory, Payload, Window};
use std::alloc::Global;

// The bytes of the puts of a window of the greatest size: 15 of these and one of those.
const PUT: usize = 65_536;

const LAST: usize = 65_151;

// A put of so many zeros.
fn put(alloc: Global, key: u64, size: usize) -> Result<Change, NoMemory> {
    let zeros = vec![in alloc; 0; size]?;
    let Ok(payload) = Payload::new(alloc, &zeros) else {
        return Err(NoMemory);
    };
    Ok(Change {
        source: 0,
        key: Key::Long(key),
        put: Some(payload),
    })
}

/// A window of 1,048,576 bytes behind another one.
pub(crate) fn large_window(alloc: Global, prev: u64) -> Result<Window, NoMemory> {
    let mut changes = Vec::new(alloc);
    for key in 0..15 {
        changes.push(put(alloc, key, PUT)?)?;
    }
    changes.push(put(alloc, 15, LAST)?)?;
    Window::new(prev.saturating_add(1), prev, changes).or(Err(NoMemory))
}
