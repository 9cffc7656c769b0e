use crate::quiet::Quiet;
use crate::words::{add_put, changes, cursor, cut, listed, mark_text, number, said, shown, text};
use bus_stores::{Commit, Keeper, MemoryKeeper, all_rows, take};
use bus_types::{Change, Count, Key, MarkText, Rows};
use std::alloc::Global;
use std::fmt::Write;
use std::test::Fail;

/// The keeper of the rows.
pub type Store = Quiet<MemoryKeeper>;

/// A new keeper, which fails at the calls that are listed.
pub fn new_keeper(alloc: Global, fails: &str) -> Result<Store, Fail> {
    let fails = listed(alloc, fails)?;
    Ok(Quiet {
        inner: MemoryKeeper::new(alloc, &fails)?,
        faults: Count::zero(),
    })
}

/// What a call answers.
pub fn keeper_answer(alloc: Global, keeper: &mut Store, row: &str) -> Result<String, Fail> {
    let (word, rest) = cut(row);
    match word {
        "arm" => arm(alloc, keeper, rest == "after"),
        "commit" => commit(alloc, keeper, rest),
        "take" => take_commit(alloc, keeper, rest),
        "take_nothing" => take_nothing(alloc, keeper),
        "fill" => fill(alloc, keeper, number(rest)),
        "mark" => mark(alloc, keeper),
        "row" => row_of(alloc, keeper, number(rest)),
        "rows" => rows(alloc, keeper, rest),
        "all" => all(alloc, keeper),
        "calls" => calls(alloc, keeper),
        _ => text(alloc, "no call"),
    }
}

fn arm(alloc: Global, keeper: &mut Store, after: bool) -> Result<String, Fail> {
    keeper.inner.arm(after);
    said(alloc, &keeper.inner.armed())
}

fn calls(alloc: Global, keeper: &Store) -> Result<String, Fail> {
    said(alloc, &keeper.inner.calls())
}

// A mark and changes.
fn batch_of(alloc: Global, row: &str) -> Result<(MarkText, Vec<Change>), Fail> {
    let (mark, rest) = cut(row);
    let batch = changes(alloc, rest)?;
    let mark = mark_text(alloc, mark)?;
    Ok((mark, batch))
}

fn commit(alloc: Global, keeper: &mut Store, row: &str) -> Result<String, Fail> {
    let (kind, rest) = cut(row);
    let (mark, batch) = batch_of(alloc, rest)?;
    said(alloc, &keeper.commit(alloc, kind == "clear", &batch, &mark))
}

fn take_commit(alloc: Global, keeper: &mut Store, row: &str) -> Result<String, Fail> {
    let (mark, batch) = batch_of(alloc, row)?;
    let commit = Commit {
        clear: false,
        batch,
        mark: &mark,
    };
    said(
        alloc,
        &take(alloc, keeper, Some(commit)).map(|batch| batch.is_some()),
    )
}

fn take_nothing(alloc: Global, keeper: &mut Store) -> Result<String, Fail> {
    said(
        alloc,
        &take(alloc, keeper, None).map(|batch| batch.is_some()),
    )
}

// Commits puts of the keys 0, 1, ..
fn fill(alloc: Global, keeper: &mut Store, count: u64) -> Result<String, Fail> {
    let batch = puts(alloc, count)?;
    let mark = mark_text(alloc, "full")?;
    said(alloc, &keeper.commit(alloc, true, &batch, &mark))
}

fn puts(alloc: Global, count: u64) -> Result<Vec<Change>, Fail> {
    let mut batch = Vec::new(alloc);
    for key in 0..count {
        add_put(alloc, &mut batch, key, "x")?;
    }
    Ok(batch)
}

fn mark(alloc: Global, keeper: &mut Store) -> Result<String, Fail> {
    match keeper.mark(alloc) {
        Err(fault) => said(alloc, &fault),
        Ok(None) => text(alloc, "none"),
        Ok(Some(mark)) => text(alloc, shown(mark.bytes())),
    }
}

fn row_of(alloc: Global, keeper: &mut Store, key: u64) -> Result<String, Fail> {
    match keeper.row(alloc, 0, &Key::Long(key)) {
        Err(fault) => said(alloc, &fault),
        Ok(None) => text(alloc, "none"),
        Ok(Some(payload)) => text(alloc, shown(payload.bytes())),
    }
}

fn rows(alloc: Global, keeper: &mut Store, row: &str) -> Result<String, Fail> {
    let (place, most) = cut(row);
    let Ok(most) = usize::try_from(number(most)) else {
        return text(alloc, "too many");
    };
    if most == 0 {
        return text(alloc, "at least one");
    }
    match keeper.rows_after(alloc, &cursor(place), most) {
        Err(fault) => said(alloc, &fault),
        Ok(rows) => rows_text(alloc, &rows),
    }
}

fn all(alloc: Global, keeper: &mut Store) -> Result<String, Fail> {
    match all_rows(alloc, keeper) {
        Err(fault) => said(alloc, &fault),
        Ok(rows) => last_text(alloc, &rows),
    }
}

// The rows, each as SOURCE/KEY=BYTES.
fn rows_text(alloc: Global, rows: &Rows) -> Result<String, Fail> {
    let mut text = text(alloc, "rows")?;
    for row in rows.items() {
        let Key::Long(key) = row.key;
        write!(text, " {}/{key}={}", row.source, shown(row.payload.bytes()))?;
    }
    Ok(text)
}

// How many rows there are, and the key of the last one.
fn last_text(alloc: Global, rows: &Rows) -> Result<String, Fail> {
    let count = rows.items().len();
    let Some(row) = rows.items().last() else {
        return text(alloc, "no row");
    };
    let Key::Long(key) = row.key;
    Ok(format!(in alloc; "{count} rows up to {key}")?)
}
