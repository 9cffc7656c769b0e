ghost use Rattle.std.specs.Prelude.{◌≡◌, ◌≤◌, ◌<◌, IfOk};
ghost use Rattle.range_ring.specs.Belonging.{new_feeder};

use crate::words::{Board, Limits, Place};
use bus_types::{NoMemory, Timeline};
use ring_cells::Cells;
use std::alloc::Global;
use std::marker::Model;

/// A ring of windows that one feeder publishes and many passes read, in any threads. Contracts see which ring it is, and
/// its limits; what it keeps changes under every thread.
#[derive(Drop)]
pub struct Ring<T: Timeline> {
    pub(crate) board: Board<T>,
    pub(crate) cells: Cells<T>,
    pub(crate) windows: u32,
}

impl<T: Timeline> Model for Ring<T> {
    ghost use Rattle.range_ring.specs.Belonging.{RingIs, IsRing};

    ghost Value = { RingIs };

    ghost view = { λ r. record { table = r.board.shared.table_id; limits = r.board.shared.key } };

    ghost invariant = { λ r. IsRing (record { table = r.board.shared.table_id; limits = r.board.shared.key }) r.cells r.windows };
}
