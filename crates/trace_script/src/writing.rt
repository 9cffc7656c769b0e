ghost use Rattle.std.specs.Prelude.{◌≡◌, ◌<◌, ◌≤◌, ◌∷◌, ◌++◌, true, length, codes, decimal, flat_map, Some, IfOk, OnOk, OnErr, string_bytes};
ghost use Rattle.std.specs.List.{AllByRecursion};
ghost use Rattle.hex.specs.Hex.{encode_lower};
ghost use Rattle.bus_types.specs.Change.{IsChange, AreChanges, key_text};
ghost use Rattle.bus_types.specs.declared.limits.TheConstants.{MAX_PAYLOAD};
ghost use Rattle.trace_script.specs.Lines.{line_of};
ghost use Rattle.trace_script.specs.Spelling.{AreBytesOf, change_text, when_text, filter_part, line_text, IsFiltered, IsLine, IsInRange, Spells, is_in_range};
ghost use Rattle.bus_types.specs.Text.{Appends};
ghost use Rattle.partition_filter.specs.Spelling.{IsFilter, filter_text};

use crate::line::Line;
use crate::name::Name;
use bus_types::{Change, Key, NoMemory};
use itoa::Buffer;
use partition_filter::Filter;
use std::alloc::Global;

/// Appends the text of a line, without a LF; a blank line is the empty text. What is written is read back as the
/// same line. It asks of the line what [`Line::is_in_range`] tests. After want of memory the output is as before.
#[tactic(auto, using(crate::proofs::WrittenTexts::read_back, crate::proofs::WrittenTexts::range_tested))]
pub fn write_line(alloc: Global, line: &Line, out: &mut Vec<u8>) -> Result<(), NoMemory>
    requires { is_in_range line.now ≡ true }
    ensures ok { OnOk result (out.new.items ≡ out.old.items ++ line_text line.now) }
    ensures spelled { OnOk result (Spells (line_text line.now) line.now) }
    ensures read_back { line_of (line_text line.now) ≡ Some line.now }
    ensures err { OnErr result (out.new.items ≡ out.old.items) }
{
    let filter = write_filter(line, alloc);
    // What it counts is read back, also where there was no memory for the filter's text.
    let room = room_for(line);
    let filter = filter?;
    out.reserve(room.saturating_add(filter.len()))?;
    let before = out.len();
    let Ok(()) = append_line(line, filter.as_bytes(), out) else {
        out.truncate(before);
        return Err(NoMemory);
    };
    Ok(())
}

/// The text of the line's filter, or no text where it has none.
fn write_filter(line: &Line, alloc: Global) -> Result<String, NoMemory>
    ensures within { IsFiltered line.now }
    ensures text { IfOk result (λ text. string_bytes text ≡ filter_part line.now) }
{
    match line {
        Line::Consumer { filter, .. } => filter_text(filter, alloc),
        Line::Stream { filter, .. } => filter_text(filter, alloc),
        _ => Ok(String::new(alloc)),
    }
}

/// The text of a filter, which shows that the filter is in its ranges.
fn filter_text(filter: &Filter, alloc: Global) -> Result<String, NoMemory>
    ensures within { IsFilter filter.now }
    ensures text { IfOk result (λ text. string_bytes text ≡ filter_text filter.now) }
{
    filter.write(alloc)
}

/// At least as many bytes as the text of the line takes without its filter. It reads the whole line but its filter, and
/// so shows that the line's numbers, names and payloads are in their ranges.
fn room_for(line: &Line) -> usize
    requires range { IsInRange line.now }
    requires filter { IsFiltered line.now }
    ensures { IsLine line.now }
{
    match line {
        Line::Blank => 0,
        Line::Relay { .. } => 21,
        Line::Consumer { name, .. } => 10 + name.bytes().len(),
        Line::Commit { scn, changes } => {
            let _scn = *scn;
            room_for_changes(changes.items()).saturating_add(27)
        }
        Line::Gen { .. } => 21,
        Line::Feed(_) => 12,
        Line::Poll { name, .. } => 14 + name.bytes().len(),
        Line::Show(name) => 5 + name.bytes().len(),
        Line::Sum(name) => 4 + name.bytes().len(),
        Line::Crash(name) => 6 + name.bytes().len(),
        Line::Stop { name, .. } => 12 + name.bytes().len(),
        Line::Stream { .. } => 36,
        Line::Log(_) => 11,
        Line::Apply(_) => 13,
        Line::Trim(_) => 24,
        Line::RestartBoot => 12,
    }
}

fn room_for_changes(changes: &[Change]) -> usize
    ensures within { AreChanges changes.now }
    ensures bytes { AllByRecursion (λ c. AreBytesOf c.put) changes.now }
{
    let mut room: usize = 0;
    for change in changes {
        room = room.saturating_add(room_for_change(change));
    }
    room
}

/// A change takes 23 bytes and its payload as an event, and at most 28 and two digits for each byte of the payload as
/// a text behind a space.
fn room_for_change(change: &Change) -> usize
    ensures within { IsChange change.now }
    ensures bytes { AreBytesOf change.now.put }
{
    let room = change.size() as usize + 5;
    match &change.put {
        None => room,
        Some(payload) => room + count(payload.bytes()),
    }
}

fn count(bytes: &[u8]) -> usize
    ensures count { result ≡ length bytes.now }
    ensures bytes { AllByRecursion (λ b. b < 256) bytes.now }
{
    bytes.len()
}

fn append_line(line: &Line, filter: &[u8], out: &mut Vec<u8>) -> Result<(), NoMemory>
    requires { filter.now ≡ filter_part line.now }
    ensures { Appends result (line_text line.now) out.old.items out.new.items }
{
    match line {
        Line::Blank => Ok(()),
        Line::Relay { bytes, windows } => append_relay(*bytes, *windows, out),
        Line::Consumer { name, .. } => append_consumer(name, filter, out),
        Line::Commit { scn, changes } => append_commit(*scn, changes.items(), out),
        Line::Gen { seed, count } => append_gen(*seed, *count, out),
        Line::Feed(count) => append_feed(*count, out),
        Line::Poll { name, max } => append_poll(name, *max, out),
        Line::Show(name) => append_show(name, out),
        Line::Sum(name) => append_sum(name, out),
        Line::Crash(name) => append_crash(name, out),
        Line::Stop { name, after } => append_stop(name, *after, out),
        Line::Stream { scn, max, .. } => append_stream(*scn, filter, *max, out),
        Line::Log(count) => append_log(*count, out),
        Line::Apply(count) => append_apply(*count, out),
        Line::Trim(scn) => append_trim(*scn, out),
        Line::RestartBoot => append_restart(out),
    }
}

/// `relay BYTES COUNT`
fn append_relay(bytes: u64, windows: u32, out: &mut Vec<u8>) -> Result<(), NoMemory>
    ensures { Appends result (codes "relay " ++ decimal bytes ++ codes " " ++ decimal windows) out.old.items out.new.items }
{
    out.extend_from_slice(b"relay ")?;
    append_number(bytes, out)?;
    out.extend_from_slice(b" ")?;
    append_number(u64::from(windows), out)
}

/// `consumer NAME FILTER`
fn append_consumer(name: &Name, filter: &[u8], out: &mut Vec<u8>) -> Result<(), NoMemory>
    ensures { Appends result (codes "consumer " ++ name.now ++ codes " " ++ filter.now) out.old.items out.new.items }
{
    out.extend_from_slice(b"consumer ")?;
    out.extend_from_slice(name.bytes())?;
    out.extend_from_slice(b" ")?;
    out.extend_from_slice(filter)?;
    Ok(())
}

/// `gen SEED COUNT`
fn append_gen(seed: u32, count: u32, out: &mut Vec<u8>) -> Result<(), NoMemory>
    ensures { Appends result (codes "gen " ++ decimal seed ++ codes " " ++ decimal count) out.old.items out.new.items }
{
    out.extend_from_slice(b"gen ")?;
    append_numbers(seed, count, out)
}

/// Two numbers, a space between them.
fn append_numbers(first: u32, second: u32, out: &mut Vec<u8>) -> Result<(), NoMemory>
    ensures { Appends result (decimal first ++ codes " " ++ decimal second) out.old.items out.new.items }
{
    append_number(u64::from(first), out)?;
    out.extend_from_slice(b" ")?;
    append_number(u64::from(second), out)
}

/// `feed N`
fn append_feed(count: u64, out: &mut Vec<u8>) -> Result<(), NoMemory>
    ensures { Appends result (codes "feed " ++ decimal count) out.old.items out.new.items }
{
    out.extend_from_slice(b"feed ")?;
    append_number(count, out)
}

/// `poll NAME MAX`
fn append_poll(name: &Name, max: u32, out: &mut Vec<u8>) -> Result<(), NoMemory>
    ensures { Appends result (codes "poll " ++ name.now ++ codes " " ++ decimal max) out.old.items out.new.items }
{
    out.extend_from_slice(b"poll ")?;
    out.extend_from_slice(name.bytes())?;
    out.extend_from_slice(b" ")?;
    append_number(u64::from(max), out)
}

/// `show NAME`
fn append_show(name: &Name, out: &mut Vec<u8>) -> Result<(), NoMemory>
    ensures { Appends result (codes "show " ++ name.now) out.old.items out.new.items }
{
    out.extend_from_slice(b"show ")?;
    out.extend_from_slice(name.bytes())?;
    Ok(())
}

/// `sum NAME`
fn append_sum(name: &Name, out: &mut Vec<u8>) -> Result<(), NoMemory>
    ensures { Appends result (codes "sum " ++ name.now) out.old.items out.new.items }
{
    out.extend_from_slice(b"sum ")?;
    out.extend_from_slice(name.bytes())?;
    Ok(())
}

/// `crash NAME`
fn append_crash(name: &Name, out: &mut Vec<u8>) -> Result<(), NoMemory>
    ensures { Appends result (codes "crash " ++ name.now) out.old.items out.new.items }
{
    out.extend_from_slice(b"crash ")?;
    out.extend_from_slice(name.bytes())?;
    Ok(())
}

/// `stop NAME before` or `stop NAME after`
fn append_stop(name: &Name, after: bool, out: &mut Vec<u8>) -> Result<(), NoMemory>
    ensures { Appends result (codes "stop " ++ name.now ++ codes " " ++ when_text after) out.old.items out.new.items }
{
    out.extend_from_slice(b"stop ")?;
    out.extend_from_slice(name.bytes())?;
    out.extend_from_slice(b" ")?;
    append_when(after, out)
}

/// `before` or `after`
fn append_when(after: bool, out: &mut Vec<u8>) -> Result<(), NoMemory>
    ensures { Appends result (when_text after) out.old.items out.new.items }
{
    if after {
        out.extend_from_slice(b"after")?;
        return Ok(());
    }
    out.extend_from_slice(b"before")?;
    Ok(())
}

/// `stream SCN FILTER MAX`
fn append_stream(scn: u64, filter: &[u8], max: u32, out: &mut Vec<u8>) -> Result<(), NoMemory>
    ensures { Appends result (codes "stream " ++ decimal scn ++ codes " " ++ filter.now ++ codes " " ++ decimal max) out.old.items out.new.items }
{
    out.extend_from_slice(b"stream ")?;
    append_number(scn, out)?;
    out.extend_from_slice(b" ")?;
    out.extend_from_slice(filter)?;
    out.extend_from_slice(b" ")?;
    append_number(u64::from(max), out)
}

/// `log N`
fn append_log(count: u64, out: &mut Vec<u8>) -> Result<(), NoMemory>
    ensures { Appends result (codes "log " ++ decimal count) out.old.items out.new.items }
{
    out.extend_from_slice(b"log ")?;
    append_number(count, out)
}

/// `apply N`
fn append_apply(count: u64, out: &mut Vec<u8>) -> Result<(), NoMemory>
    ensures { Appends result (codes "apply " ++ decimal count) out.old.items out.new.items }
{
    out.extend_from_slice(b"apply ")?;
    append_number(count, out)
}

/// `trim SCN`
fn append_trim(scn: u64, out: &mut Vec<u8>) -> Result<(), NoMemory>
    ensures { Appends result (codes "trim " ++ decimal scn) out.old.items out.new.items }
{
    out.extend_from_slice(b"trim ")?;
    append_number(scn, out)
}

/// `restart boot`
fn append_restart(out: &mut Vec<u8>) -> Result<(), NoMemory>
    ensures { Appends result (codes "restart boot") out.old.items out.new.items }
{
    out.extend_from_slice(b"restart boot")?;
    Ok(())
}

/// `commit SCN CHANGE ..`
#[tactic(auto, using(crate::proofs::WrittenTexts::appending))]
fn append_commit(scn: u64, changes: &[Change], out: &mut Vec<u8>) -> Result<(), NoMemory>
    ensures { Appends result (codes "commit " ++ decimal scn ++ flat_map (λ c. 32 ∷ change_text c) changes.now) out.old.items out.new.items }
{
    append_commit_scn(scn, out)?;
    append_changes(changes, out)
}

/// `commit SCN`
fn append_commit_scn(scn: u64, out: &mut Vec<u8>) -> Result<(), NoMemory>
    ensures { Appends result (codes "commit " ++ decimal scn) out.old.items out.new.items }
{
    out.extend_from_slice(b"commit ")?;
    append_number(scn, out)
}

/// Each change, a space before it.
fn append_changes(changes: &[Change], out: &mut Vec<u8>) -> Result<(), NoMemory>
    ensures { Appends result (flat_map (λ c. 32 ∷ change_text c) changes.now) out.old.items out.new.items }
{
    for change in changes {
        append_change(change, out)?;
    }
    Ok(())
}

/// A space, and `S/K=HEX` or `S/K-`.
fn append_change(change: &Change, out: &mut Vec<u8>) -> Result<(), NoMemory>
    ensures { Appends result (32 ∷ change_text change.now) out.old.items out.new.items }
{
    append_row(change.source, &change.key, out)?;
    match &change.put {
        None => append_delete(out),
        Some(payload) => append_payload(payload.bytes(), out),
    }
}

/// A space, and `S/K`.
fn append_row(source: u16, key: &Key, out: &mut Vec<u8>) -> Result<(), NoMemory>
    ensures { Appends result (32 ∷ decimal source ++ codes "/" ++ key_text key.now) out.old.items out.new.items }
{
    out.extend_from_slice(b" ")?;
    append_number(u64::from(source), out)?;
    out.extend_from_slice(b"/")?;
    append_key(key, out)
}

fn append_key(key: &Key, out: &mut Vec<u8>) -> Result<(), NoMemory>
    ensures { Appends result (key_text key.now) out.old.items out.new.items }
{
    match *key {
        Key::Long(number) => append_number(number, out),
    }
}

/// `-`
fn append_delete(out: &mut Vec<u8>) -> Result<(), NoMemory>
    ensures { Appends result (codes "-") out.old.items out.new.items }
{
    out.extend_from_slice(b"-")?;
    Ok(())
}

/// `=HEX`
fn append_payload(bytes: &[u8], out: &mut Vec<u8>) -> Result<(), NoMemory>
    requires { length bytes.now ≤ MAX_PAYLOAD }
    ensures { Appends result (codes "=" ++ encode_lower bytes.now) out.old.items out.new.items }
{
    out.extend_from_slice(b"=")?;
    append_hex(bytes, out)
}

/// The number in decimal.
fn append_number(number: u64, out: &mut Vec<u8>) -> Result<(), NoMemory>
    ensures { Appends result (decimal number) out.old.items out.new.items }
{
    let mut digits = Buffer::new();
    out.extend_from_slice(digits.format(number).as_bytes())?;
    Ok(())
}

/// Two lower-case digits for each byte.
fn append_hex(bytes: &[u8], out: &mut Vec<u8>) -> Result<(), NoMemory>
    requires { length bytes.now ≤ MAX_PAYLOAD }
    ensures { Appends result (encode_lower bytes.now) out.old.items out.new.items }
{
    let start = out.len();
    out.resize(start + 2 * bytes.len(), 0)?;
    hex::encode_to_slice(bytes, &mut out[start..]).unwrap();
    Ok(())
}
