ghost use Rattle.std.specs.Prelude.{◌≡◌, ◌<◌, ◌≤◌, IfSome};
ghost use Rattle.bus_types.specs.declared.limits.TheConstants.{MAX_SCN};
ghost use Rattle.ring_cells.specs.Entries.{IsEntry};

use crate::ring::Ring;
use bus_types::Timeline;
use event_codec::{MARK_SIZE, mark_at};
use ring_cells::Shown;

// How often a claim is tried, since a step is lost to each step of another reader.
const TRIES: u32 = 8;

// An entry where it is that of a position, which is given back else.
fn of_position<'a, T: Timeline>(shown: Shown<'a, T>, position: u64) -> Option<Shown<'a, T>>
    ensures entry { IfSome result (λ shown. IsEntry T.told shown) }
    ensures position { IfSome result (λ shown. shown.position ≡ position) }
{
    if shown.position() != position {
        return None;
    }
    Some(shown)
}

/// The cell of a position.
pub(crate) fn cell_of<T: Timeline>(ring: &Ring<T>, position: u64) -> u32
    ensures { result < ring.now.limits.windows }
{
    (position % ring.windows as u64) as u32
}

/// The cell of the position behind that of a cell.
pub(crate) fn next_cell<T: Timeline>(ring: &Ring<T>, cell: u32) -> u32
    requires { cell < ring.now.limits.windows }
    ensures { result < ring.now.limits.windows }
{
    let next = cell.saturating_add(1);
    if next < ring.windows { next } else { 0 }
}

/// Claims the entry of a position for reading, in the cell where it is due. `None` comes where that shows another entry, and
/// where `read_cell` answers so each time.
pub(crate) fn claim_in<'r, T: Timeline>(
    ring: &'r Ring<T>,
    cell: u32,
    position: u64,
) -> Option<Shown<'r, T>>
    requires { cell < ring.now.limits.windows }
    ensures entry { IfSome result (λ shown. IsEntry T.told shown) }
    ensures position { IfSome result (λ shown. shown.position ≡ position) }
{
    for _ in 0..TRIES {
        if let Some(shown) = ring.cells.read_cell(cell) {
            return of_position(shown, position);
        }
    }
    None
}

/// Claims the entry of a position for reading. `None` comes where its cell shows another entry, and where `read_cell` answers
/// so each time.
pub(crate) fn claim<'r, T: Timeline>(ring: &'r Ring<T>, position: u64) -> Option<Shown<'r, T>>
    ensures entry { IfSome result (λ shown. IsEntry T.told shown) }
    ensures position { IfSome result (λ shown. shown.position ≡ position) }
{
    claim_in(ring, cell_of(ring, position), position)
}

/// The SCN of a shown window, and the SCN of the window before it. They stand in its mark, which is read in place.
pub(crate) fn scns<T: Timeline>(shown: &Shown<'_, T>) -> (u64, u64)
    ensures value { (entry : IsEntry T.told shown.now) → result ≡ (entry.window.scn, entry.window.prev) }
    ensures within { (result.0 ≤ MAX_SCN) × (result.1 ≤ MAX_SCN) }
{
    let bytes = shown.bytes();
    let Some(mark) = mark_at(bytes, bytes.len() - MARK_SIZE) else {
        unreachable!();
    };
    mark
}
