ghost use Rattle.std.specs.Prelude.{◌≡◌, ◌<◌, ◌+◌, ◌^◌};

use crate::ring::Ring;
use bus_types::Timeline;
use ring_cells::{Cells, Entry, Taken};
use std::sync::Wait;
use std::thread;

/// Shows that the entry of this position was put into its cell. It is made by [`put`] alone, and a raise of TAIL takes it:
/// no window is told as published before its entry stands.
#[derive(Drop)]
pub(crate) struct Placed {
    position: u64,
}

impl Placed {
    /// How many windows are published with this one.
    pub fn published(self) -> u64
        requires { self.position < 2 ^ 63 }
        ensures { result ≡ self.position + 1 }
    {
        self.position + 1
    }
}

// Claims a cell for writing, once its readers have left it.
fn take<'a, R: Wait, T: Timeline>(rt: &R, cells: &'a Cells<T>, i: u32) -> Taken<'a, T>
    requires { i < cells.now }
{
    for _ in rt.forever() {
        if let Some(taken) = cells.take_cell(i) {
            return taken;
        }
        thread::yield_now();
    }
    unreachable!()
}

/// Puts an entry into its cell, once the readers of the entry that stands there have left, and drops that one.
pub(crate) fn put<R: Wait, T: Timeline>(rt: &R, ring: &Ring<T>, entry: Entry<T>) -> Placed
    ensures { result.position ≡ entry.position }
{
    let position = entry.position();
    let cell = (position % ring.windows as u64) as u32;
    ring.cells.put_cell(take(rt, &ring.cells, cell), entry);
    Placed { position }
}
