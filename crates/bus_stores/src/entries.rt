ghost use Rattle.std.specs.Prelude.{◌≡◌, ◌≤◌, ◌++◌, length, map, take, option_and_then, IfOk, OnOk, OnErr};
ghost use Rattle.bus_types.specs.declared.change.RowName.{RowName};
ghost use Rattle.bus_types.specs.Change.{name_of};
ghost use Rattle.bus_types.specs.Rows.{pair_of, page_of};
ghost use Rattle.bus_types.specs.Table.{row_after, rows_after, payload_at};
ghost use Rattle.bus_stores.specs.Keeper.{IsTable};
ghost use Rattle.bus_stores.specs.Entries.{row_in, rows_in, entry_of, undone, HasRoom, HaveRoom, bound_of};

use bus_types::{Change, Cursor, NoMemory, Payload, Row, RowName};
use std::alloc::Global;
use std::collections::BTreeMap;
use std::ops::Bound;

/// Names in order, each with its row's payload, or with room for one.
pub(crate) type Entries = BTreeMap<RowName, Option<Payload>>;

/// Makes the changes, in order, or none of them. It takes time in proportion to the changes, and a factor that is the
/// logarithm of the number of entries: each change looks its name up once, and one that deletes twice. No payload is copied:
/// each change that was made has what its row had before in place of its own.
pub(crate) fn change(
    alloc: Global,
    entries: &mut Entries,
    changes: &mut [Change],
) -> Result<(), NoMemory>
    ensures ok { OnOk result (rows_in entries.new.entries ≡ rows_after (rows_in entries.old.entries) changes.old) }
    ensures err { OnErr result (rows_in entries.new.entries ≡ rows_in entries.old.entries) }
{
    let mut deleted = Vec::new(alloc);
    let made = write(entries, changes, &mut deleted);
    if made < changes.len() {
        undo(entries, changes, made);
        drop_room_of(entries, changes);
        return Err(NoMemory);
    }
    drop_room(entries, &deleted);
    Ok(())
}

// Makes the changes, in order, and notes the names that were deleted, and answers how many were made, which are fewer only
// after want of memory.
fn write(entries: &mut Entries, changes: &mut [Change], deleted: &mut Vec<RowName>) -> usize
    ensures made { result ≤ length changes.old }
    ensures as_many { length changes.new ≡ length changes.old }
    ensures all { result ≡ length changes.old → rows_in entries.new.entries ≡ rows_after (rows_in entries.old.entries) changes.old }
    ensures undone { undone (rows_in entries.new.entries) (map entry_of (take result changes.new)) ≡ rows_in entries.old.entries }
    ensures room { HaveRoom entries.new.entries (map entry_of (take result changes.new)) }
{
    for at in 0..changes.len() {
        let Ok(()) = write_one(entries, &mut changes[at], deleted) else {
            return at;
        };
    }
    changes.len()
}

// Makes a change, which then has what its row had before, and notes its name where it deletes. After want of memory the entries
// are as before.
fn write_one(
    entries: &mut Entries,
    change: &mut Change,
    deleted: &mut Vec<RowName>,
) -> Result<(), NoMemory>
    ensures name { OnOk result (name_of change.new ≡ name_of change.old) }
    ensures rows { OnOk result (rows_in entries.new.entries ≡ row_after (rows_in entries.old.entries) (name_of change.old) change.old.put) }
    ensures had { OnOk result (change.new.put ≡ payload_at (rows_in entries.old.entries) (name_of change.old)) }
    ensures err { OnErr result (entries.new.entries ≡ entries.old.entries) }
    ensures room { OnOk result (HasRoom entries.new.entries (name_of change.old)) }
    ensures kept { OnOk result ((q : RowName) → HasRoom entries.old.entries q → HasRoom entries.new.entries q) }
    ensures ordered { OnOk result (IsTable (rows_in entries.old.entries)) }
{
    if change.put.is_none() {
        deleted.push(change.name())?;
    }
    exchange(entries, change)
}

// Gives a change's row what the change puts, and the change what its row had before. After want of memory the entries are as
// before.
fn exchange(entries: &mut Entries, change: &mut Change) -> Result<(), NoMemory>
    ensures name { OnOk result (name_of change.new ≡ name_of change.old) }
    ensures rows { OnOk result (rows_in entries.new.entries ≡ row_after (rows_in entries.old.entries) (name_of change.old) change.old.put) }
    ensures had { OnOk result (change.new.put ≡ payload_at (rows_in entries.old.entries) (name_of change.old)) }
    ensures err { OnErr result (entries.new.entries ≡ entries.old.entries) }
    ensures room { OnOk result (HasRoom entries.new.entries (name_of change.old)) }
    ensures kept { OnOk result ((q : RowName) → HasRoom entries.old.entries q → HasRoom entries.new.entries q) }
    ensures ordered { OnOk result (IsTable (rows_in entries.old.entries)) }
{
    let _rising = entries.len();
    let had = entries.insert(change.name(), change.put.take())?;
    change.put = flat(had);
    Ok(())
}

// The payload of an entry, where there is one with a payload.
fn flat(entry: Option<Option<Payload>>) -> Option<Payload>
    ensures { result ≡ option_and_then (λ put. put) entry }
{
    match entry {
        None => None,
        Some(put) => put,
    }
}

// Gives the rows of the first so many changes back what they had, the last one first. It takes no memory.
fn undo(entries: &mut Entries, changes: &mut [Change], made: usize)
    requires within { made ≤ length changes.old }
    requires room { HaveRoom entries.old.entries (map entry_of (take made changes.old)) }
    ensures { rows_in entries.new.entries ≡ undone (rows_in entries.old.entries) (map entry_of (take made changes.old)) }
{
    let mut left = made;
    'back: while left > 0 {
        left -= 1;
        let change = &mut changes[left];
        let name = change.name();
        let put = change.put.take();
        restore(entries, name, put);
    }
}

// Gives a row, for which there is room, a payload or none.
fn restore(entries: &mut Entries, name: RowName, put: Option<Payload>)
    requires { HasRoom entries.old.entries name }
    ensures rows { rows_in entries.new.entries ≡ row_after (rows_in entries.old.entries) name put }
    ensures kept { (q : RowName) → HasRoom entries.old.entries q → HasRoom entries.new.entries q }
{
    let replaced: Result<_, _> = entries.insert(name, put);
    let _ = replaced.unwrap();
}

// Drops the room of those of these names that have no row.
fn drop_room(entries: &mut Entries, names: &[RowName])
    ensures { rows_in entries.new.entries ≡ rows_in entries.old.entries }
{
    for name in names {
        drop_room_for(entries, name);
    }
}

// Drops the room of those of these changes' names that have no row.
fn drop_room_of(entries: &mut Entries, changes: &[Change])
    ensures { rows_in entries.new.entries ≡ rows_in entries.old.entries }
{
    for change in changes {
        drop_room_for(entries, &change.name());
    }
}

fn drop_room_for(entries: &mut Entries, name: &RowName)
    ensures { rows_in entries.new.entries ≡ rows_in entries.old.entries }
{
    if let Some(None) = entries.get(name) {
        entries.remove(name);
    }
}

/// The first `max` rows after the cursor, or those there are. It takes time in proportion to these rows, and the
/// logarithm of the number of entries.
#[tactic(auto, using(crate::proofs::Rooms::map_table))]
pub(crate) fn page(
    alloc: Global,
    entries: &Entries,
    cursor: &Cursor,
    max: usize,
) -> Result<Vec<Row>, NoMemory>
    ensures rows { IfOk result (λ page. map pair_of page.items ≡ page_of cursor.now max (rows_in entries.now.entries)) }
    ensures ordered { IsTable (rows_in entries.now.entries) }
{
    let mut page = Vec::new(alloc);
    for (name, put) in entries.range((start_of(cursor), Bound::Unbounded)) {
        if page.len() >= max {
            return Ok(page);
        }
        push_row(alloc, &mut page, name, put)?;
    }
    Ok(page)
}

// Where the entries after a cursor begin.
fn start_of(cursor: &Cursor) -> Bound<RowName>
    ensures { result ≡ bound_of cursor.now }
{
    match *cursor {
        Cursor::Start => Bound::Unbounded,
        Cursor::After { source, key } => Bound::Excluded(RowName { source, key }),
    }
}

// Appends an entry's row, where it has one.
fn push_row(
    alloc: Global,
    page: &mut Vec<Row>,
    name: &RowName,
    put: &Option<Payload>,
) -> Result<(), NoMemory>
    ensures { OnOk result (map pair_of page.new.items ≡ map pair_of page.old.items ++ row_in name.now put.now) }
{
    let Some(payload) = put else {
        return Ok(());
    };
    page.push(Row {
        source: name.source,
        key: name.key,
        payload: payload.copy(alloc)?,
    })?;
    Ok(())
}

/// The payload of a row, where there is one.
pub(crate) fn payload(
    alloc: Global,
    entries: &Entries,
    name: &RowName,
) -> Result<Option<Payload>, NoMemory>
    ensures { IfOk result (λ payload. payload ≡ payload_at (rows_in entries.now.entries) name.now) }
{
    let _rising = entries.len();
    let Some(put) = entries.get(name) else {
        return Ok(None);
    };
    copy_put(alloc, put)
}

fn copy_put(alloc: Global, put: &Option<Payload>) -> Result<Option<Payload>, NoMemory>
    ensures { IfOk result (λ copy. copy ≡ put.now) }
{
    match put {
        None => Ok(None),
        Some(payload) => Ok(Some(payload.copy(alloc)?)),
    }
}
