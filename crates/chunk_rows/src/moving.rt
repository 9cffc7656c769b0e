ghost use Rattle.std.specs.Prelude.{◌≡◌, ◌<◌, length, IfSome};

use bus_stores::{Fail as Listed, Keeper, MemoryKeeper, MemoryLog, WindowLog};
use bus_types::{Change, Key, MarkText, Payload, Window};
use std::alloc::Global;
use std::test::Fail;

/// A log of the windows 10, 20, 30 and 40, which fails at the calls that are listed. Its first four calls append them.
pub fn new_log(alloc: Global, fails: &[Listed]) -> Result<MemoryLog, Fail> {
    let mut log = MemoryLog::new(alloc, 1_048_576, fails)?;
    append_all(alloc, &mut log)?;
    Ok(log)
}

fn append_all(alloc: Global, log: &mut MemoryLog) -> Result<(), Fail> {
    for scn in [10, 20, 30, 40] {
        append(alloc, log, scn)?;
    }
    Ok(())
}

fn append(alloc: Global, log: &mut MemoryLog, scn: u64) -> Result<(), Fail> {
    let changes = changes_at(alloc, scn)?;
    if let Some(window) = window(scn, log.high(), changes) {
        log.append(alloc, &window)?;
    }
    Ok(())
}

/// Commits the changes of a window to the keeper, with the window's SCN as its mark.
pub fn commit(alloc: Global, keeper: &mut MemoryKeeper, scn: u64) -> Result<(), Fail> {
    let batch = changes_at(alloc, scn)?;
    commit_batch(alloc, keeper, &batch, scn)
}

fn commit_batch(
    alloc: Global,
    keeper: &mut MemoryKeeper,
    batch: &[Change],
    scn: u64,
) -> Result<(), Fail> {
    let mark = mark_of(alloc, scn)?;
    keeper.commit(alloc, false, batch, &mark)?;
    Ok(())
}

fn mark_of(alloc: Global, scn: u64) -> Result<MarkText, Fail> {
    let text = format!(in alloc; "{scn}")?;
    Ok(MarkText::new(alloc, text.as_bytes())?)
}

// A window of these changes behind an SCN.
fn window(scn: u64, prev: u64, changes: Vec<Change>) -> Option<Window>
    ensures prev { IfSome result (λ w. w.prev ≡ prev) }
    ensures full { IfSome result (λ w. 0 < length w.changes) }
{
    Window::new(scn, prev, changes).ok()
}

// What changes at an SCN.
fn changes_at(alloc: Global, scn: u64) -> Result<Vec<Change>, Fail> {
    let mut changes = Vec::new(alloc);
    add_at(alloc, &mut changes, scn)?;
    Ok(changes)
}

fn add_at(alloc: Global, changes: &mut Vec<Change>, scn: u64) -> Result<(), Fail> {
    match scn {
        10 => add_first(alloc, changes),
        20 => add_put(alloc, changes, 1, "d"),
        30 => add(changes, 2, None),
        _ => add_put(alloc, changes, 4, "e"),
    }
}

fn add_first(alloc: Global, changes: &mut Vec<Change>) -> Result<(), Fail> {
    for (key, text) in [(1, "a"), (2, "b"), (3, "c")] {
        add_put(alloc, changes, key, text)?;
    }
    Ok(())
}

fn add_put(alloc: Global, changes: &mut Vec<Change>, key: u64, text: &str) -> Result<(), Fail> {
    let payload = Payload::new(alloc, text.as_bytes())?;
    add(changes, key, Some(payload))
}

fn add(changes: &mut Vec<Change>, key: u64, put: Option<Payload>) -> Result<(), Fail> {
    changes.push(Change {
        source: 0,
        key: Key::Long(key),
        put,
    })?;
    Ok(())
}
