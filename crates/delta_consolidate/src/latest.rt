ghost use Rattle.std.specs.Prelude.{◌≡◌, ◌≤◌, ℕ, true, List, Option, length, OnOk};
ghost use Rattle.std.specs.Ordering.{is_lt};
ghost use Rattle.bus_types.specs.Change.{name_cmp};
ghost use Rattle.bus_types.specs.Rows.{is_after};
ghost use Rattle.partition_filter.specs.Selection.{test_of};
ghost use Rattle.delta_consolidate.specs.Latest.{kept, kept_with, kept_after};

use bus_types::{Accepts, Change, Cursor, NoMemory, Payload, RowName};
use partition_filter::Filter;
use std::collections::BTreeMap;

/// Of each row that changed, in order of name, what its last change puts, or that it deletes the row.
pub(crate) type Latest = BTreeMap<RowName, Option<Payload>>;

/// Takes changes into the last changes so far, in order: those that the filter accepts, of rows behind the cursor. It
/// keeps the first `most` rows and drops those behind them. No payload is copied.
pub(crate) fn take_changes(
    changes: Vec<Change>,
    filter: &Filter,
    cursor: &Cursor,
    most: usize,
    latest: &mut Latest,
) -> Result<(), NoMemory>
    requires { length latest.old.entries ≤ most }
    ensures ok { OnOk result (latest.new.entries ≡ kept_after (test_of filter.now) cursor.now most latest.old.entries changes.items) }
    ensures few { length latest.new.entries ≤ most }
{
    for change in changes {
        take_change(change, filter, cursor, most, latest)?;
    }
    Ok(())
}

// Takes a change where the filter accepts it and its row stands behind the cursor.
fn take_change(
    change: Change,
    filter: &Filter,
    cursor: &Cursor,
    most: usize,
    latest: &mut Latest,
) -> Result<(), NoMemory>
    requires { length latest.old.entries ≤ most }
    ensures ok { OnOk result (latest.new.entries ≡ kept_with (test_of filter.now) cursor.now most latest.old.entries change) }
    ensures few { length latest.new.entries ≤ most }
{
    if !filter.accepts(change.source, &change.key) {
        return Ok(());
    }
    let name = change.name();
    if !is_after(cursor, &name) {
        return Ok(());
    }
    keep(name, change.put, most, latest)
}

// Whether a row stands behind a cursor.
fn is_after(cursor: &Cursor, name: &RowName) -> bool
    ensures { result ≡ is_after cursor.now name.now }
{
    match *cursor {
        Cursor::Start => true,
        Cursor::After { source, key } => is_before(&RowName { source, key }, name),
    }
}

// Whether a name stands before another.
fn is_before(name: &RowName, other: &RowName) -> bool
    ensures { result ≡ is_lt (name_cmp name.now other.now) }
{
    *name < *other
}

// Keeps what a row's change puts, unless so many rows stand before it.
fn keep(
    name: RowName,
    put: Option<Payload>,
    most: usize,
    latest: &mut Latest,
) -> Result<(), NoMemory>
    requires { length latest.old.entries ≤ most }
    ensures ok { OnOk result (latest.new.entries ≡ kept most latest.old.entries name put) }
    ensures few { length latest.new.entries ≤ most }
{
    if is_beyond(latest, &name, most) {
        return Ok(());
    }
    insert(name, put, most, latest)
}

// Puts an entry in its place, and drops the last one where there are too many.
fn insert(
    name: RowName,
    put: Option<Payload>,
    most: usize,
    latest: &mut Latest,
) -> Result<(), NoMemory>
    requires { length latest.old.entries ≤ most }
    ensures ok { OnOk result (latest.new.entries ≡ kept most latest.old.entries name put) }
    ensures few { length latest.new.entries ≤ most }
{
    latest.insert(name, put)?;
    if latest.len() > most {
        latest.pop_last();
    }
    Ok(())
}

// Whether so many rows stand before this one: nothing that is put at it would be kept.
fn is_beyond(latest: &Latest, name: &RowName, most: usize) -> bool
    requires { length latest.now.entries ≤ most }
    ensures { result ≡ true → (put : Option (List ℕ)) → kept most latest.now.entries name.now put ≡ latest.now.entries }
{
    if latest.len() < most {
        return false;
    }
    match latest.last_key_value() {
        None => false,
        Some((last, _)) => is_before(last, name),
    }
}
