ghost use Rattle.std.specs.Prelude.{◌≡◌, ◌≤◌, ◌<◌, IfOk};
ghost use Rattle.range_ring.specs.Belonging.{IsNewRing};

use crate::feeder::Feeder;
use crate::pass::Passes;
use crate::ring::Ring;
use crate::stock::Stock;
use crate::words::{Board, Limits, Place};
use atomic_table::Table;
use bus_types::{NoMemory, Timeline};
use ring_cells::Cells;
use std::alloc::Global;

/// A ring that has published nothing, with its feeder and so many passes, from 1 to 64. It serves at most so many bytes of
/// windows in full, from 1,048,576 to 268,435,456, and at most so many windows, from 1 to 65,536. It holds as many
/// entries at most: an evicted one stays in its cell until the cell is due again.
pub fn make_ring<T: Timeline>(
    alloc: Global,
    bytes: u64,
    windows: u32,
    passes: u32,
) -> Result<(Ring<T>, Feeder<T>, Passes<T>), NoMemory>
    requires some_bytes { 1048576 ≤ bytes }
    requires few_bytes { bytes ≤ 268435456 }
    requires some_windows { 1 ≤ windows }
    requires few_windows { windows ≤ 65536 }
    requires some_passes { 1 ≤ passes }
    requires few_passes { passes ≤ 64 }
    ensures { IfOk result (λ made. IsNewRing (record { bytes = bytes; windows = windows }) passes made.0 made.1 made.2) }
{
    let limits = Limits { bytes, windows };
    let cells = Cells::new(alloc, windows)?;
    let stock = Stock::new(alloc, limits)?;
    let (board, mut place): (Board<T>, Place) = Table::of_words(alloc, &[0, 0], &limits)?;
    let ring = Ring {
        board,
        cells,
        windows,
    };
    let passes = Passes::new(alloc, &ring, &mut place, passes)?;
    let feeder = Feeder::new(place, stock);
    Ok((ring, feeder, passes))
}
