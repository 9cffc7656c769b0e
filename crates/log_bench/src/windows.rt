use bus_types::{Change, Key, NoMemory, Payload, Window};
use std::alloc::Global;

// The bytes that a window of one put has beside its payload.
const BESIDE: usize = 40;

/// A window of so many bytes behind another one: one put. It has at least 40 bytes.
pub(crate) fn window_behind(alloc: Global, prev: u64, size: usize) -> Result<Window, NoMemory> {
    let zeros = vec![in alloc; 0; size.saturating_sub(BESIDE)]?;
    let Ok(payload) = Payload::new(alloc, &zeros) else {
        return Err(NoMemory);
    };
    let mut changes = Vec::new(alloc);
    changes.push(Change {
        source: 0,
        key: Key::Long(prev),
        put: Some(payload),
    })?;
    Window::new(prev.saturating_add(1), prev, changes).or(Err(NoMemory))
}
