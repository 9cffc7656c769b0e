ghost use Rattle.std.specs.Prelude.{◌≡◌, ◌+◌, IfSome, OnOk};

use crate::conns::{ROOM, new_conn, show_end};
use crate::windows::window_at;
use bus_io::MemoryConn;
use bus_types::Untold;
use range_ring::{Feeder, Pass, Ring, make_ring};
use relay_server::{ServeEnd, serve_relay};
use ring_cells::Entry;
use std::alloc::Global;
use std::sync::Wait;
use std::test::Fail;

/// The most bytes that a ring keeps.
const MOST_BYTES: u64 = 1_048_576;

/// The most windows that a ring keeps.
const MOST_WINDOWS: u32 = 2;

/// Prints what a connection that gives a text is answered by a pass of a shared ring to which the windows 10, 20, .. were
/// published, so many, and how its serving ended.
pub fn show_shared(
    rt: &HostRuntime,
    lock: &impl Wait,
    windows: u64,
    text: &str,
) -> Result<(), Fail> {
    let mut conn = new_conn(rt.alloc(), text, ROOM, &[], &[])?;
    let end = serve_shared(lock, rt.alloc(), windows, &mut conn)?;
    show_end(rt, &conn, end)
}

// Serves a connection by a pass of a new ring.
fn serve_shared<R: Wait>(
    rt: &R,
    alloc: Global,
    windows: u64,
    conn: &mut MemoryConn,
) -> Result<ServeEnd, Fail> {
    let Ok((ring, mut feeder, mut passes)) = make_ring::<Untold>(alloc, MOST_BYTES, MOST_WINDOWS, 1)
    else {
        return Err(Fail::new("a ring that can't be made"));
    };
    publish_all(rt, alloc, &ring, &mut feeder, windows)?;
    let Some(mut pass) = passes.pop() else {
        return Err(Fail::new("a ring without a pass"));
    };
    Ok(serve_relay(rt, alloc, &ring, &mut pass, conn))
}

// Publishes the first so many windows.
fn publish_all<R: Wait>(
    rt: &R,
    alloc: Global,
    ring: &Ring<Untold>,
    feeder: &mut Feeder<Untold>,
    windows: u64,
) -> Result<(), Fail>
    requires home { feeder.old.home ≡ ring.now }
    requires first { feeder.old.published ≡ 0 }
{
    for position in 0..windows {
        publish(rt, alloc, ring, feeder, position)?;
    }
    Ok(())
}

// Publishes the window at a position, which is the next one.
fn publish<R: Wait>(
    rt: &R,
    alloc: Global,
    ring: &Ring<Untold>,
    feeder: &mut Feeder<Untold>,
    position: u64,
) -> Result<(), Fail>
    requires home { feeder.old.home ≡ ring.now }
    requires place { feeder.old.published ≡ position }
    ensures home { OnOk result (feeder.new.home ≡ ring.now) }
    ensures published { OnOk result (feeder.new.published ≡ position + 1) }
{
    let Some(entry) = entry_at(alloc, position) else {
        return Err(Fail::new("an entry that can't be made"));
    };
    feeder.publish(rt, ring, entry);
    Ok(())
}

// The entry of the window at a position.
fn entry_at(alloc: Global, position: u64) -> Option<Entry<Untold>>
    ensures { IfSome result (λ entry. entry.position ≡ position) }
{
    let window = window_at(alloc, position)?;
    Entry::new(alloc, &window, position).ok()
}
