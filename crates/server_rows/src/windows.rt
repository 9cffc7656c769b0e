ghost use Rattle.std.specs.Prelude.{◌≡◌, ◌<◌, length, IfSome};

use bus_types::{Change, Key, Payload, Window};
use std::alloc::Global;

/// The window at a position, from 0 on: 10 behind 0, 20 behind 10, and so on. Each puts the row whose key is a tenth of its SCN.
pub fn window_at(alloc: Global, position: u64) -> Option<Window>
    ensures later { IfSome result (λ w. position < w.scn) }
    ensures full { IfSome result (λ w. 0 < length w.changes) }
{
    let key = position.checked_add(1)?;
    let scn = key.checked_mul(10)?;
    put_window(alloc, scn, scn - 10, key)
}

/// The window behind `prev` that puts one row of source 0, whose payload is the window's SCN in decimal.
pub fn put_window(alloc: Global, scn: u64, prev: u64, key: u64) -> Option<Window>
    ensures scn { IfSome result (λ w. w.scn ≡ scn) }
    ensures prev { IfSome result (λ w. w.prev ≡ prev) }
    ensures full { IfSome result (λ w. 0 < length w.changes) }
{
    let changes = puts(alloc, key, scn)?;
    Window::new(scn, prev, changes).ok()
}

// The put of one row, in a list.
fn puts(alloc: Global, key: u64, scn: u64) -> Option<Vec<Change>> {
    let change = put(alloc, key, scn)?;
    let mut changes = Vec::new(alloc);
    changes.push(change).ok()?;
    Some(changes)
}

fn put(alloc: Global, key: u64, scn: u64) -> Option<Change> {
    Some(Change {
        source: 0,
        key: Key::Long(key),
        put: Some(payload(alloc, scn)?),
    })
}

// A number in decimal.
fn payload(alloc: Global, number: u64) -> Option<Payload> {
    let text = format!(in alloc; "{number}").ok()?;
    Payload::new(alloc, text.as_bytes()).ok()
}
