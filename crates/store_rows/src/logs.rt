ghost use Rattle.std.specs.Prelude.{◌≡◌, ◌<◌, length, IfSome};

use crate::keepers::Store;
use crate::quiet_log::QuietLog;
use crate::words::{changes, cut, listed, number, said, small, text};
use bus_stores::{MemoryLog, WindowLog, next_windows};
use bus_types::{Change, Count, Window};
use snapshot_applier::{BootMark, apply};
use std::alloc::Global;
use std::fmt::Write;
use std::test::Fail;

/// The log of the rows.
pub type Log = QuietLog<MemoryLog>;

/// A new log of at most so many bytes, which fails at the calls that are listed.
pub fn new_log(alloc: Global, row: &str) -> Result<Log, Fail> {
    let (limit, fails) = cut(row);
    let fails = listed(alloc, fails)?;
    Ok(QuietLog {
        inner: MemoryLog::new(alloc, number(limit), &fails)?,
        faults: Count::zero(),
    })
}

/// What a call answers.
pub fn log_answer(alloc: Global, log: &mut Log, row: &str) -> Result<String, Fail> {
    let (word, rest) = cut(row);
    match word {
        "append" => append(alloc, log, rest),
        "next" => next(alloc, log, number(rest)),
        "windows" => windows(alloc, log, rest),
        "drop" => drop_through(alloc, log, number(rest)),
        "ends" => ends(alloc, log),
        "full" => full(alloc, log, number(rest)),
        "calls" => calls(alloc, log),
        _ => text(alloc, "no call"),
    }
}

// A window of these changes behind an SCN.
fn window(scn: u64, prev: u64, changes: Vec<Change>) -> Option<Window>
    ensures prev { IfSome result (λ w. w.prev ≡ prev) }
    ensures full { IfSome result (λ w. 0 < length w.changes) }
{
    Window::new(scn, prev, changes).ok()
}

// Appends a window behind the newest one.
fn append(alloc: Global, log: &mut Log, row: &str) -> Result<String, Fail> {
    let (scn, changed) = cut(row);
    let changes = changes(alloc, changed)?;
    let Some(window) = window(number(scn), log.high(), changes) else {
        return text(alloc, "no window");
    };
    said(alloc, &log.append(alloc, &window))
}

fn next(alloc: Global, log: &mut Log, scn: u64) -> Result<String, Fail> {
    if scn < log.floor() {
        return text(alloc, "below the floor");
    }
    match log.next(alloc, scn) {
        Err(fault) => said(alloc, &fault),
        Ok(None) => text(alloc, "none"),
        Ok(Some(window)) => window_text(alloc, &window),
    }
}

fn window_text(alloc: Global, window: &Window) -> Result<String, Fail> {
    Ok(format!(in alloc; "window {} behind {}", window.scn(), window.prev())?)
}

fn windows(alloc: Global, log: &mut Log, row: &str) -> Result<String, Fail> {
    let (scn, most) = cut(row);
    let scn = number(scn);
    if scn < log.floor() {
        return text(alloc, "below the floor");
    }
    match next_windows(alloc, log, scn, small(most).min(64) as usize) {
        Err(fault) => said(alloc, &fault),
        Ok(windows) => windows_text(alloc, &windows),
    }
}

fn windows_text(alloc: Global, windows: &[Window]) -> Result<String, Fail> {
    let mut text = text(alloc, "windows")?;
    for window in windows {
        write!(text, " {}", window.scn())?;
    }
    Ok(text)
}

fn drop_through(alloc: Global, log: &mut Log, scn: u64) -> Result<String, Fail> {
    said(alloc, &log.drop_through(alloc, scn))
}

fn ends(alloc: Global, log: &Log) -> Result<String, Fail> {
    Ok(format!(in alloc; "floor {} high {}", log.floor(), log.high())?)
}

fn full(alloc: Global, log: &Log, size: u64) -> Result<String, Fail> {
    said(alloc, &log.is_full(size))
}

fn calls(alloc: Global, log: &Log) -> Result<String, Fail> {
    said(alloc, &log.inner.calls())
}

/// Applies at most so many windows of the log behind a boot mark that it reaches: BASE, APPLIED and how many.
pub fn apply_windows(
    alloc: Global,
    log: &mut Log,
    keeper: &mut Store,
    row: &str,
) -> Result<String, Fail> {
    let (base, rest) = cut(row);
    let (applied, most) = cut(rest);
    let mark = BootMark {
        base: number(base),
        applied: number(applied),
    };
    let most = small(most);
    if most == 0 || most > 32 {
        return text(alloc, "1 to 32");
    }
    if mark.base > mark.applied || mark.applied < log.floor() || mark.applied > log.high() {
        return text(alloc, "out of reach");
    }
    said(alloc, &apply(alloc, log, keeper, &mark, most))
}
