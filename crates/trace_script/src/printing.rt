ghost use Rattle.std.specs.Prelude.{◌≡◌, ◌==◌, if◌then◌else◌, codes, decimal, IfOk, ◌++◌, string_bytes};
ghost use Rattle.trace_script.specs.Printed.{line_with, relay_line, gap_line, boot_line, served_line, replay_line, replayed_line, windows_line, left_line, scanned_line, rows_line, delta_line, changes_line, delta_from_line, delta_start_line, target_line, answer_line, reply_line};

use bus_types::NoMemory;
use event_codec::{Answer, Shape};
use std::alloc::Global;
use std::fmt::Write;

/// Room for the bytes of a line that is printed often, so that it grows but once.
const LINE_ROOM: usize = 64;

/// The stage that a consumer was at when it asked, as far as the line of the reply tells it.
#[derive(Clone, Copy, Debug, PartialEq, Eq)]
pub enum Stage {
    /// It follows the relay.
    Online {
        /// The SCN of the last window that it followed, or 0.
        scn: u64,
    },
    /// It reads the last changes of the rows that changed.
    Delta {
        /// The SCN up to which they changed.
        target: u64,
    },
    /// It reads the rows of a scan.
    Snapshot,
    /// It has read them all.
    Scanned {
        /// The SCN where the scan began.
        start: u64,
    },
    /// It replays the windows since a scan began.
    Catchup {
        /// The SCN of the last one.
        target: u64,
    },
}

/// The line of a relay: the SCN of the newest window that it has evicted, or 0, and that of the newest one that it has
/// published, or 0.
pub fn relay_line(alloc: Global, floor: u64, end: u64) -> Result<String, NoMemory>
    ensures { IfOk result (λ text. string_bytes text ≡ relay_line floor end) }
{
    let mut text = String::with_capacity(alloc, LINE_ROOM)?;
    write!(text, "relay {floor} {end}\n").or(Err(NoMemory))?;
    Ok(text)
}

/// The line of a relay that has evicted windows, up to this SCN, that weren't logged.
pub fn gap_line(alloc: Global, floor: u64) -> Result<String, NoMemory>
    ensures { IfOk result (λ text. string_bytes text ≡ gap_line floor) }
{
    line_with(alloc, "gap", floor)
}

/// The line of a bootstrap: the SCN behind which its log begins, that of its table, and that of the newest window that it has
/// logged.
pub fn boot_line(alloc: Global, base: u64, applied: u64, high: u64) -> Result<String, NoMemory>
    ensures { IfOk result (λ text. string_bytes text ≡ boot_line base applied high) }
{
    let text = format!(in alloc; "boot {base} {applied} {high}\n")?;
    Ok(text)
}

/// The line of a reply of this shape, with so many bytes, that a consumer took which was at this stage. The text is empty where
/// no such reply is lawful at that stage.
pub fn reply_line(
    alloc: Global,
    stage: &Stage,
    shape: &Shape,
    bytes: u64,
) -> Result<String, NoMemory>
    ensures { IfOk result (λ text. string_bytes text ≡ reply_line stage.now shape.now bytes) }
{
    match shape {
        Shape::Windows { count, last } => windows_line(alloc, stage, *count, bytes, *last),
        Shape::Rows { count, scn, more } => rows_line(alloc, *count, bytes, *scn, *more),
        Shape::Changes { count, more } => changes_line(alloc, stage, *count, bytes, *more),
        Shape::Only(answer) => answer_line(alloc, stage, answer),
    }
}

// A word and a number.
fn line_with(alloc: Global, word: &str, number: u64) -> Result<String, NoMemory>
    ensures { IfOk result (λ text. string_bytes text ≡ line_with word.now number) }
{
    let text = format!(in alloc; "{word} {number}\n")?;
    Ok(text)
}

fn windows_line(
    alloc: Global,
    stage: &Stage,
    count: u32,
    bytes: u64,
    last: u64,
) -> Result<String, NoMemory>
    ensures { IfOk result (λ text. string_bytes text ≡ windows_line stage.now count bytes last) }
{
    match *stage {
        Stage::Online { .. } => served_line(alloc, count, bytes, last),
        Stage::Catchup { target } => replayed_to(alloc, count, bytes, last, target),
        Stage::Delta { .. } | Stage::Snapshot | Stage::Scanned { .. } => Ok(String::new(alloc)),
    }
}

// Windows that were followed online.
fn served_line(alloc: Global, count: u32, bytes: u64, last: u64) -> Result<String, NoMemory>
    ensures { IfOk result (λ text. string_bytes text ≡ served_line count bytes last) }
{
    let mut text = String::with_capacity(alloc, LINE_ROOM)?;
    write!(text, "served {count} {bytes} online {last}\n").or(Err(NoMemory))?;
    Ok(text)
}

// Windows that were replayed, all up to the target or not.
fn replayed_to(
    alloc: Global,
    count: u32,
    bytes: u64,
    last: u64,
    target: u64,
) -> Result<String, NoMemory>
    ensures { IfOk result (λ text. string_bytes text ≡ (if last == target then replayed_line count bytes target else replay_line count bytes last)) }
{
    if last == target {
        let text = format!(in alloc; "replay {count} {bytes} online {target}\n")?;
        Ok(text)
    } else {
        let text = format!(in alloc; "replay {count} {bytes} at {last}\n")?;
        Ok(text)
    }
}

// Rows of a scan.
fn rows_line(
    alloc: Global,
    count: u32,
    bytes: u64,
    scn: u64,
    more: bool,
) -> Result<String, NoMemory>
    ensures { IfOk result (λ text. string_bytes text ≡ rows_line count bytes scn more) }
{
    if more {
        left_line(alloc, count, bytes, scn)
    } else {
        scanned_line(alloc, count, bytes, scn)
    }
}

fn left_line(alloc: Global, count: u32, bytes: u64, scn: u64) -> Result<String, NoMemory>
    ensures { IfOk result (λ text. string_bytes text ≡ left_line count bytes scn) }
{
    let text = format!(in alloc; "rows {count} {bytes} at {scn} more\n")?;
    Ok(text)
}

fn scanned_line(alloc: Global, count: u32, bytes: u64, scn: u64) -> Result<String, NoMemory>
    ensures { IfOk result (λ text. string_bytes text ≡ scanned_line count bytes scn) }
{
    let text = format!(in alloc; "rows {count} {bytes} at {scn} scanned\n")?;
    Ok(text)
}

fn changes_line(
    alloc: Global,
    stage: &Stage,
    count: u32,
    bytes: u64,
    more: bool,
) -> Result<String, NoMemory>
    ensures { IfOk result (λ text. string_bytes text ≡ changes_line stage.now count bytes more) }
{
    match *stage {
        Stage::Delta { target } => delta_line(alloc, count, bytes, target, more),
        Stage::Online { .. } | Stage::Snapshot | Stage::Scanned { .. } | Stage::Catchup { .. } => {
            Ok(String::new(alloc))
        }
    }
}

// Changes of a delta.
fn delta_line(
    alloc: Global,
    count: u32,
    bytes: u64,
    target: u64,
    more: bool,
) -> Result<String, NoMemory>
    ensures { IfOk result (λ text. string_bytes text ≡ delta_line count bytes target more) }
{
    if more {
        let text = format!(in alloc; "changes {count} {bytes} more\n")?;
        Ok(text)
    } else {
        let text = format!(in alloc; "changes {count} {bytes} online {target}\n")?;
        Ok(text)
    }
}

fn answer_line(alloc: Global, stage: &Stage, answer: &Answer) -> Result<String, NoMemory>
    ensures { IfOk result (λ text. string_bytes text ≡ answer_line stage.now answer.now) }
{
    match *answer {
        Answer::NotFound(floor) => line_with(alloc, "notfound", floor),
        Answer::Empty(end) => line_with(alloc, "empty", end),
        Answer::TooSmall(need) => line_with(alloc, "small", need),
        Answer::Behind(high) => line_with(alloc, "behind", high),
        Answer::LogGone(base) => line_with(alloc, "gone", base),
        Answer::StartDelta(target) => delta_start_line(alloc, stage, target),
        Answer::StartSnapshot(applied) => snapshot_line(alloc, applied),
        Answer::Target(target) => target_line(alloc, stage, target),
    }
}

fn snapshot_line(alloc: Global, applied: u64) -> Result<String, NoMemory>
    ensures { IfOk result (λ text. string_bytes text ≡ codes "start snapshot " ++ decimal applied ++ codes "\n") }
{
    let text = format!(in alloc; "start snapshot {applied}\n")?;
    Ok(text)
}

// A delta begins where a consumer is online.
fn delta_start_line(alloc: Global, stage: &Stage, target: u64) -> Result<String, NoMemory>
    ensures { IfOk result (λ text. string_bytes text ≡ delta_start_line stage.now target) }
{
    match *stage {
        Stage::Online { scn } => delta_from(alloc, scn, target),
        Stage::Delta { .. } | Stage::Snapshot | Stage::Scanned { .. } | Stage::Catchup { .. } => {
            Ok(String::new(alloc))
        }
    }
}

fn delta_from(alloc: Global, scn: u64, target: u64) -> Result<String, NoMemory>
    ensures { IfOk result (λ text. string_bytes text ≡ delta_from_line scn target) }
{
    let text = format!(in alloc; "start delta {scn} {target}\n")?;
    Ok(text)
}

// A scan is replayed up to a target, if that is later than its start.
fn target_line(alloc: Global, stage: &Stage, target: u64) -> Result<String, NoMemory>
    ensures { IfOk result (λ text. string_bytes text ≡ target_line stage.now target) }
{
    match *stage {
        Stage::Scanned { start } => target_from(alloc, start, target),
        Stage::Online { .. } | Stage::Delta { .. } | Stage::Snapshot | Stage::Catchup { .. } => {
            Ok(String::new(alloc))
        }
    }
}

fn target_from(alloc: Global, start: u64, target: u64) -> Result<String, NoMemory>
    ensures { IfOk result (λ text. string_bytes text ≡ (if target == start then codes "target " ++ decimal target ++ codes " online\n" else codes "target " ++ decimal target ++ codes " catchup\n")) }
{
    if target == start {
        let text = format!(in alloc; "target {target} online\n")?;
        Ok(text)
    } else {
        let text = format!(in alloc; "target {target} catchup\n")?;
        Ok(text)
    }
}
