ghost use Rattle.std.specs.Prelude.{◌≡◌, ◌<◌, length, IfSome};

use bus_types::{Change, Key, Payload, Window};
use relay_core::Buffer;
use std::alloc::Global;
use std::test::Fail;
use trace_script::gen_window;

/// Publishes the window of an SCN that puts so many rows of source 0, from key 1 on, each with so many times its key's last
/// byte. It answers a fault where that is no window behind the newest one, and where memory runs out.
pub fn publish<B: Buffer>(
    alloc: Global,
    buffer: &mut B,
    scn: u64,
    puts: u64,
    size: usize,
) -> Result<(), Fail> {
    let changes = puts_of(alloc, puts, size)?;
    let window = window(scn, buffer.tail(), changes).ok_or("a window")?;
    buffer.publish(alloc, &window)?;
    Ok(())
}

/// Publishes so many windows that are made from a number. It answers a fault where memory runs out.
pub fn publish_generated<B: Buffer>(
    alloc: Global,
    buffer: &mut B,
    seed: u32,
    count: u32,
) -> Result<(), Fail> {
    let mut state = seed;
    for _i in 0..count {
        publish_next(alloc, buffer, &mut state)?;
    }
    Ok(())
}

// Publishes the next window that is made from a number, where the newest one is no later than 1,000,000.
fn publish_next<B: Buffer>(alloc: Global, buffer: &mut B, state: &mut u32) -> Result<(), Fail> {
    let last = buffer.tail();
    if last > 1_000_000 {
        return Ok(());
    }
    let window = gen_window(alloc, state, last)?;
    buffer.publish(alloc, &window)?;
    Ok(())
}

// A window of these changes behind an SCN.
fn window(scn: u64, prev: u64, changes: Vec<Change>) -> Option<Window>
    ensures prev { IfSome result (λ w. w.prev ≡ prev) }
    ensures full { IfSome result (λ w. 0 < length w.changes) }
{
    Window::new(scn, prev, changes).ok()
}

fn puts_of(alloc: Global, puts: u64, size: usize) -> Result<Vec<Change>, Fail> {
    let mut changes = Vec::new(alloc);
    for key in 1..=puts {
        add_put(alloc, &mut changes, key, size)?;
    }
    Ok(changes)
}

fn add_put(alloc: Global, changes: &mut Vec<Change>, key: u64, size: usize) -> Result<(), Fail> {
    let payload = payload(alloc, key, size)?;
    changes.push(Change {
        source: 0,
        key: Key::Long(key),
        put: Some(payload),
    })?;
    Ok(())
}

fn payload(alloc: Global, key: u64, size: usize) -> Result<Payload, Fail> {
    let bytes = vec![in alloc; (key % 256) as u8; size]?;
    Ok(Payload::new(alloc, &bytes)?)
}
