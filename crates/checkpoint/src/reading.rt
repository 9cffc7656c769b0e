ghost use Rattle.std.specs.Prelude.{◌≡◌, ◌↔◌, Some, None, IfOk, IsErrOf, IsTrue, IsUtf8, option_map};
ghost use Rattle.serde_json.specs.Read.{read};
ghost use Rattle.serde_json.specs.View.{view};
ghost use Rattle.checkpoint.specs.declared.mark.Mark.{Mark};
ghost use Rattle.checkpoint.specs.Mark.{IsMark, MayBeMark, mark_text};
ghost use Rattle.json_forms.specs.Objects.{text_at, number_at};
ghost use Rattle.checkpoint.specs.Members.{cursor_at, online_in, delta_in, snapshot_in, scanned_in, catchup_in, mode_in, mark_in};

use crate::mark::{Mark, MarkFault};
use bus_types::{Cursor, MAX_SCN, read_cursor};
use serde_json::Value;
use std::alloc::Global;

/// Whether bytes can be the text of a mark, by their number and the first of them.
pub(crate) fn may_be_mark(bytes: &[u8]) -> bool
    ensures { IsTrue result ↔ MayBeMark bytes.now }
{
    bytes.len() >= 25 && bytes.len() <= 139 && bytes[0] == b'{'
}

/// The only mark whose text the bytes can be.
pub(crate) fn candidate(alloc: Global, bytes: &[u8]) -> Result<Mark, MarkFault>
    ensures lawful { IfOk result IsMark }
    ensures only { IfOk result (λ found. (mark : Mark) → IsMark mark → bytes.now ≡ mark_text mark → found ≡ mark) }
    ensures bad { IsErrOf result MarkFault.BadMark → (mark : Mark) → IsMark mark → bytes.now ≡ mark_text mark → ⊥ }
{
    let value = json_of(alloc, bytes)?;
    let Some(mark) = mark_in(&value) else {
        return Err(MarkFault::BadMark);
    };
    if !is_mark(mark) {
        return Err(MarkFault::BadMark);
    }
    Ok(mark)
}

/// The JSON of a text. `BadMark` comes only where the bytes are no UTF-8 or no JSON.
fn json_of(alloc: Global, bytes: &[u8]) -> Result<Value, MarkFault>
    ensures value { IfOk result (λ value. read bytes.now ≡ Some (view value)) }
    ensures bad { IsErrOf result MarkFault.BadMark → IsUtf8 bytes.now → read bytes.now ≡ None }
{
    match Value::from_slice(alloc, bytes) {
        Ok(value) => Ok(value),
        Err(fault) if fault.is_memory() => Err(MarkFault::NoMemory),
        Err(_) => Err(MarkFault::BadMark),
    }
}

/// Whether the mark keeps its rule, and its SCNs are at most [`MAX_SCN`].
fn is_mark(mark: Mark) -> bool
    ensures { IsTrue result ↔ IsMark mark }
{
    match mark {
        Mark::Online { scn } => scn <= MAX_SCN,
        Mark::Delta { since, target, .. } => since < target && target <= MAX_SCN,
        Mark::Snapshot {
            since,
            start,
            top,
            ..
        }
        | Mark::Scanned { since, start, top } => start <= top && since <= MAX_SCN && top <= MAX_SCN,
        Mark::Catchup {
            since,
            start,
            target,
            at,
        } => start <= at && at < target && since <= target && target <= MAX_SCN,
    }
}

/// The mark that the members of an object make, whatever else it has.
fn mark_in(value: &Value) -> Option<Mark>
    ensures { result ≡ mark_in (view value.now) }
{
    let mode = text_at(value, "mode")?;
    mode_in(mode, value)
}

#[tactic(auto, unfolding(crate::specs::Members::mode_in))]
fn mode_in(mode: &str, value: &Value) -> Option<Mark>
    ensures { result ≡ mode_in mode.now (view value.now) }
{
    if mode == "online" {
        return online_in(value);
    }
    if mode == "delta" {
        return delta_in(value);
    }
    if mode == "snapshot" {
        return snapshot_in(value);
    }
    if mode == "scanned" {
        return scanned_in(value);
    }
    if mode == "catchup" {
        return catchup_in(value);
    }
    None
}

#[tactic(auto, unfolding(crate::specs::Members::online_in))]
fn online_in(value: &Value) -> Option<Mark>
    ensures { result ≡ online_in (view value.now) }
{
    let scn = number_at(value, "scn")?;
    Some(Mark::Online { scn })
}

#[tactic(auto, unfolding(crate::specs::Members::delta_in))]
fn delta_in(value: &Value) -> Option<Mark>
    ensures { result ≡ delta_in (view value.now) }
{
    let since = number_at(value, "since")?;
    let target = number_at(value, "target")?;
    let cursor = cursor_at(value)?;
    Some(Mark::Delta {
        since,
        target,
        cursor,
    })
}

#[tactic(auto, unfolding(crate::specs::Members::snapshot_in))]
fn snapshot_in(value: &Value) -> Option<Mark>
    ensures { result ≡ snapshot_in (view value.now) }
{
    let since = number_at(value, "since")?;
    let start = number_at(value, "start")?;
    let top = number_at(value, "top")?;
    let cursor = cursor_at(value)?;
    Some(Mark::Snapshot {
        since,
        start,
        top,
        cursor,
    })
}

#[tactic(auto, unfolding(crate::specs::Members::scanned_in))]
fn scanned_in(value: &Value) -> Option<Mark>
    ensures { result ≡ scanned_in (view value.now) }
{
    let since = number_at(value, "since")?;
    let start = number_at(value, "start")?;
    let top = number_at(value, "top")?;
    Some(Mark::Scanned { since, start, top })
}

#[tactic(auto, unfolding(crate::specs::Members::catchup_in))]
fn catchup_in(value: &Value) -> Option<Mark>
    ensures { result ≡ catchup_in (view value.now) }
{
    let since = number_at(value, "since")?;
    let start = number_at(value, "start")?;
    let target = number_at(value, "target")?;
    let at = number_at(value, "at")?;
    Some(Mark::Catchup {
        since,
        start,
        target,
        at,
    })
}

fn cursor_at(value: &Value) -> Option<Cursor>
    ensures { result ≡ cursor_at (view value.now) }
{
    read_cursor(text_at(value, "cursor")?.as_bytes())
}

fn text_at<'v>(value: &'v Value, name: &str) -> Option<&'v str>
    ensures { option_map (λ text. text.now) result ≡ text_at name.now (view value.now) }
{
    value.get(name)?.as_str()
}

fn number_at(value: &Value, name: &str) -> Option<u64>
    ensures { result ≡ number_at name.now (view value.now) }
{
    value.get(name)?.as_u64()
}
