ghost use Rattle.std.specs.Prelude.{◌≡◌, IfOk, string_bytes};
ghost use Rattle.serde_json.specs.View.{view};
ghost use Rattle.checkpoint.specs.Mark.{IsMark, mark_text};
ghost use Rattle.checkpoint.specs.Members.{data_of};

use crate::mark::Mark;
use bus_types::{Cursor, cursor_text};
use serde_json::{Value, json};
use std::alloc::{AllocError, Global};
use std::fmt::Write;

/// Room for the text of a mark of a consumer that is online.
const ONLINE_ROOM: usize = 48;

/// The text of a mark. That of a consumer that is online is written as it is, since each reply of windows sets one.
pub(crate) fn text_of(alloc: Global, mark: Mark) -> Result<String, AllocError>
    requires { IsMark mark }
    ensures { IfOk result (λ text. string_bytes text ≡ mark_text mark) }
{
    match mark {
        Mark::Online { scn } => online_text(alloc, scn),
        _ => object_text(alloc, mark),
    }
}

fn online_text(alloc: Global, scn: u64) -> Result<String, AllocError>
    ensures { IfOk result (λ text. string_bytes text ≡ mark_text (Mark.Online scn)) }
{
    let mut text = String::with_capacity(alloc, ONLINE_ROOM)?;
    write!(text, "{{\"mode\":\"online\",\"scn\":{scn}}}").or(Err(AllocError))?;
    Ok(text)
}

/// The text of a mark as that of a JSON object.
fn object_text(alloc: Global, mark: Mark) -> Result<String, AllocError>
    requires { IsMark mark }
    ensures { IfOk result (λ text. string_bytes text ≡ mark_text mark) }
{
    let value = value_of(alloc, mark)?;
    value.to_string(alloc)
}

/// The mark as a JSON object.
fn value_of(alloc: Global, mark: Mark) -> Result<Value, AllocError>
    ensures { IfOk result (λ value. view value ≡ data_of mark) }
{
    match mark {
        Mark::Online { scn } => online(alloc, scn),
        Mark::Delta {
            since,
            target,
            cursor,
        } => delta(alloc, since, target, cursor),
        Mark::Snapshot {
            since,
            start,
            top,
            cursor,
        } => snapshot(alloc, since, start, top, cursor),
        Mark::Scanned { since, start, top } => scanned(alloc, since, start, top),
        Mark::Catchup {
            since,
            start,
            target,
            at,
        } => catchup(alloc, since, start, target, at),
    }
}

fn online(alloc: Global, scn: u64) -> Result<Value, AllocError>
    ensures { IfOk result (λ value. view value ≡ data_of (Mark.Online scn)) }
{
    json!(in alloc; {"mode": "online", "scn": scn})
}

fn delta(alloc: Global, since: u64, target: u64, cursor: Cursor) -> Result<Value, AllocError>
    ensures { IfOk result (λ value. view value ≡ data_of (Mark.Delta since target cursor)) }
{
    let place = cursor_text(alloc, cursor)?;
    json!(in alloc; {"cursor": place, "mode": "delta", "since": since, "target": target})
}

fn snapshot(
    alloc: Global,
    since: u64,
    start: u64,
    top: u64,
    cursor: Cursor,
) -> Result<Value, AllocError>
    ensures { IfOk result (λ value. view value ≡ data_of (Mark.Snapshot since start top cursor)) }
{
    let place = cursor_text(alloc, cursor)?;
    json!(in alloc; {"cursor": place, "mode": "snapshot", "since": since, "start": start, "top": top})
}

fn scanned(alloc: Global, since: u64, start: u64, top: u64) -> Result<Value, AllocError>
    ensures { IfOk result (λ value. view value ≡ data_of (Mark.Scanned since start top)) }
{
    json!(in alloc; {"mode": "scanned", "since": since, "start": start, "top": top})
}

fn catchup(alloc: Global, since: u64, start: u64, target: u64, at: u64) -> Result<Value, AllocError>
    ensures { IfOk result (λ value. view value ≡ data_of (Mark.Catchup since start target at)) }
{
    json!(in alloc; {"at": at, "mode": "catchup", "since": since, "start": start, "target": target})
}
