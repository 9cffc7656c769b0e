use crate::windows::window_behind;
use bus_types::NoMemory;
use event_codec::write_window;
use std::alloc::Global;

// An open gate, and the tag of a segment behind it.
const FRONT: [u8; 9] = *b"\xa5DBUSLOG1";

// Puts the record of the window behind an SCN, with its open gate, behind the bytes.
fn put_record(alloc: Global, prev: u64, size: usize, bytes: &mut Vec<u8>) -> Result<(), NoMemory> {
    let window = window_behind(alloc, prev, size)?;
    bytes.push(FRONT[0])?;
    bytes.extend_from_slice(&(window.size() as u32).to_be_bytes())?;
    write_window(alloc, &window, bytes)
}

/// The bytes of a segment with so many windows of so many bytes, from SCN 1 on.
pub(crate) fn image(alloc: Global, windows: u64, size: usize) -> Result<Vec<u8>, NoMemory> {
    let mut bytes = Vec::new(alloc);
    bytes.extend_from_slice(&FRONT)?;
    bytes.extend_from_slice(&0_u64.to_be_bytes())?;
    for prev in 0..windows {
        put_record(alloc, prev, size, &mut bytes)?;
    }
    bytes.push(0)?;
    Ok(bytes)
}
