ghost use Rattle.std.specs.Prelude.{◌≡◌, ◌+◌, ◌≤◌, ◌<◌, ◌++◌, length, OnOk, OnErr, vec_len, vec_capacity};
ghost use Rattle.bus_types.specs.Change.{accepted, change_size, changes_size};
ghost use Rattle.bus_types.specs.Cut.{cut};
ghost use Rattle.bus_types.specs.Window.{span_size};
ghost use Rattle.event_codec.specs.Bytes.{event_bytes, payload_bytes, changes_bytes, mark_bytes, window_bytes};
ghost use Rattle.event_codec.specs.Writing.{accepted_bytes};

use crate::head::{DELETE, Head, PUT};
use crate::mark::mark_bytes;
use bus_types::{Accepts, Change, Everything, Key, NoMemory, Window};
use std::alloc::Global;

// Appends bytes for which there is room.
fn append(bytes: &[u8], out: &mut Vec<u8>)
    requires { vec_len out.old + length bytes.now ≤ vec_capacity out.old }
    ensures items { out.new.items ≡ out.old.items ++ bytes.now }
    ensures len { vec_len out.new ≡ vec_len out.old + length bytes.now }
    ensures capacity { vec_capacity out.old ≤ vec_capacity out.new }
{
    out.extend_from_slice(bytes).unwrap();
}

/// The bytes of a change as an event of a window, before its payload.
pub fn event_head(scn: u64, change: &Change) -> [u8; 23]
    ensures { event_bytes (record { scn = scn; change = change.now }) ≡ result ++ payload_bytes change.now.put }
{
    let source = change.source;
    let Key::Long(key) = change.key;
    match &change.put {
        None => Head::new(DELETE, source, scn, key, 0).bytes(),
        Some(payload) => {
            let len = payload.bytes().len() as u32;
            Head::new(PUT, source, scn, key, len).bytes()
        }
    }
}

// Appends a change as an event. There is room for it.
fn append_event(scn: u64, change: &Change, out: &mut Vec<u8>)
    requires { vec_len out.old + change_size change.now ≤ vec_capacity out.old }
    ensures items { out.new.items ≡ out.old.items ++ event_bytes (record { scn = scn; change = change.now }) }
    ensures len { vec_len out.new ≡ vec_len out.old + change_size change.now }
    ensures capacity { vec_capacity out.old ≤ vec_capacity out.new }
{
    append(&event_head(scn, change), out);
    if let Some(payload) = &change.put {
        append(payload.bytes(), out);
    }
}

// Appends a change as an event where a filter accepts it. There is room for it.
fn append_accepted<F: Accepts>(scn: u64, change: &Change, filter: &F, out: &mut Vec<u8>)
    requires { vec_len out.old + change_size change.now ≤ vec_capacity out.old }
    ensures items { out.new.items ≡ out.old.items ++ accepted_bytes (F.test filter.now) scn change.now }
    ensures len { vec_len out.new ≤ vec_len out.old + change_size change.now }
    ensures capacity { vec_capacity out.old ≤ vec_capacity out.new }
{
    if filter.accepts(change.source, &change.key) {
        append_event(scn, change, out);
    }
}

// Appends the accepted changes as events. There is room for all changes.
fn append_changes<F: Accepts>(scn: u64, changes: &[Change], filter: &F, out: &mut Vec<u8>)
    requires { vec_len out.old + changes_size changes.now ≤ vec_capacity out.old }
    ensures items { out.new.items ≡ out.old.items ++ changes_bytes scn (accepted (F.test filter.now) changes.now) }
    ensures len { vec_len out.new ≤ vec_len out.old + changes_size changes.now }
    ensures capacity { vec_capacity out.old ≤ vec_capacity out.new }
{
    for change in changes {
        append_accepted(scn, change, filter, out);
    }
}

// Appends the mark of a window. There is room for it.
fn append_mark(window: &Window, out: &mut Vec<u8>)
    requires { vec_len out.old + 17 ≤ vec_capacity out.old }
    ensures { out.new.items ≡ out.old.items ++ mark_bytes window.now.scn window.now.prev }
{
    append(&mark_bytes(window.scn(), window.prev()), out);
}

/// Appends the bytes of a window: its events in order and then its mark. After want of memory the output is as before.
/// The output grows in its own allocator.
#[tactic(auto, using(bus_types::proofs::TableLaws::cut_everything))]
pub fn write_window(alloc: Global, window: &Window, out: &mut Vec<u8>) -> Result<(), NoMemory>
    ensures ok { OnOk result (out.new.items ≡ out.old.items ++ window_bytes window.now) }
    ensures err { OnErr result (out.new.items ≡ out.old.items) }
    ensures full { OnErr result (vec_capacity out.old < vec_len out.old + span_size window.now) }
{
    write_filtered(alloc, window, &Everything, out)
}

/// Appends the bytes of what a filter leaves of a window: the accepted events in order, and always the mark. After want
/// of memory the output is as before. The output grows in its own allocator.
pub fn write_filtered<F: Accepts>(
    _alloc: Global,
    window: &Window,
    filter: &F,
    out: &mut Vec<u8>,
) -> Result<(), NoMemory>
    ensures ok { OnOk result (out.new.items ≡ out.old.items ++ window_bytes (cut (F.test filter.now) window.now)) }
    ensures err { OnErr result (out.new.items ≡ out.old.items) }
    ensures full { OnErr result (vec_capacity out.old < vec_len out.old + span_size window.now) }
{
    out.reserve(window.size() as usize)?;
    let scn = window.scn();
    append_changes(scn, window.changes(), filter, out);
    append_mark(window, out);
    Ok(())
}
