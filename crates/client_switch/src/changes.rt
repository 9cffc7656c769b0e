ghost use Rattle.std.specs.Prelude.{◌≡◌, ◌<◌, ◌++◌, [], true, false, map, IfOk};
ghost use Rattle.event_codec.specs.Questions.{Reply};
ghost use Rattle.event_codec.specs.ReplyViews.{Spells};
ghost use Rattle.client_switch.specs.Moves.{changes_of};
ghost use Rattle.client_switch.specs.Batch.{items_left};
ghost use Rattle.client_switch.specs.Turning.{items_of};

use bus_types::{Change, NoMemory};
use event_codec::{MARK_SIZE, ReplyView, Run, Shape, Windows};
use std::alloc::Global;

// Takes the next item of windows: an event, whose change is appended, or a mark. `false` comes only where none is left.
#[inline(always)]
fn take_item(
    alloc: Global,
    left: &mut Windows<'_>,
    changes: &mut Vec<Change>,
) -> Result<bool, NoMemory>
    ensures taken { IfOk result (λ _. changes.new.items ++ changes_of left.new ≡ changes.old.items ++ changes_of left.old) }
    ensures more { IfOk result (λ more. more ≡ true → items_left left.new < items_left left.old) }
    ensures end { IfOk result (λ more. more ≡ false → changes_of left.new ≡ []) }
{
    if let Some((event, _own)) = left.event() {
        changes.push(event.change(alloc)?)?;
        return Ok(true);
    }
    Ok(left.mark().is_some())
}

// The changes of windows, in order, in this room.
fn windows_changes(
    alloc: Global,
    windows: &Windows<'_>,
    room: Vec<Change>,
) -> Result<Vec<Change>, NoMemory>
    requires { room.items ≡ [] }
    ensures { IfOk result (λ changes. changes.items ≡ changes_of windows.now) }
{
    let mut changes = room;
    let mut left = windows.again();
    'items: while take_item(alloc, &mut left, &mut changes)? {}
    Ok(changes)
}

// The changes of rows or of changes, in order, in this room.
fn run_changes(alloc: Global, run: &Run<'_>, room: Vec<Change>) -> Result<Vec<Change>, NoMemory>
    requires { room.items ≡ [] }
    ensures { IfOk result (λ changes. changes.items ≡ map (λ e. e.change) run.now) }
{
    let mut changes = room;
    let mut left = run.again();
    while let Some((event, _own)) = left.next() {
        changes.push(event.change(alloc)?)?;
    }
    Ok(changes)
}

// The bytes of a change, as many as one takes that puts a payload of middling length.
const USUAL_CHANGE: usize = 50;

// About as many changes as windows of so many bytes have.
fn likely_changes(windows: u32, bytes: usize) -> usize {
    bytes.saturating_sub((windows as usize).saturating_mul(MARK_SIZE)) / USUAL_CHANGE
}

// About as many changes as a reply of that shape and of so many bytes has.
fn likely_count(shape: &Shape, bytes: usize) -> usize {
    match *shape {
        Shape::Windows { count, .. } => likely_changes(count, bytes),
        Shape::Rows { count, .. } => count as usize,
        Shape::Changes { count, .. } => count as usize,
        Shape::Only(_) => 0,
    }
}

// This vector, emptied, with room for the changes of a reply of that shape and of so many bytes: no more than a reply of
// few changes needs, or than there was.
fn room_for(shape: &Shape, bytes: usize, room: Vec<Change>) -> Result<Vec<Change>, NoMemory>
    ensures { IfOk result (λ room. room.items ≡ []) }
{
    let mut room = room;
    room.clear();
    room.reserve(likely_count(shape, bytes))?;
    Ok(room)
}

/// The changes of a reply of that shape, in order, in a vector with the room of the one given, whose changes are of no
/// matter. Each payload is copied once.
pub(crate) fn reply_changes(
    alloc: Global,
    shape: &Shape,
    bytes: &[u8],
    room: Vec<Change>,
) -> Result<Vec<Change>, NoMemory>
    requires { (r : Reply) × Spells shape.now bytes.now r }
    ensures { IfOk result (λ changes. (r : Reply) → Spells shape.now bytes.now r → changes.items ≡ items_of r) }
{
    let room = room_for(shape, bytes.len(), room)?;
    match ReplyView::of(shape, bytes) {
        ReplyView::Windows(windows) => windows_changes(alloc, &windows, room),
        ReplyView::Rows { run, .. } => run_changes(alloc, &run, room),
        ReplyView::Changes { run, .. } => run_changes(alloc, &run, room),
        ReplyView::Only(_) => Ok(room),
    }
}
