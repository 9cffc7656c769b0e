ghost use Rattle.std.specs.Prelude.{◌≡◌, ◌+◌, ◌*◌, ◌≤◌, ◌<◌, ◌^◌, length, take, drop, OnErr};
ghost use Rattle.bus_types.specs.Change.{accepted, change_size, changes_size};
ghost use Rattle.bus_types.specs.Causes.{HasCause};
ghost use Rattle.bus_types.specs.Cut.{cut, cuts};
ghost use Rattle.event_codec.specs.Bytes.{event_bytes, changes_bytes, window_bytes};
ghost use Rattle.event_codec.specs.Streams.{windows_bytes};
ghost use Rattle.event_codec.specs.Writing.{accepted_bytes};
ghost use Rattle.plain_buffer.specs.Send.{told, Sends};

use bus_io::{Sink, WriteFault, write_all};
use bus_types::{Accepts, Change, MAX_WINDOW, Window};
use event_codec::{event_head, mark_bytes};
use std::collections::VecDeque;

// Each of these sends a part of a reply behind `done` bytes of it, and answers how many bytes went out by then. A fault
// tells the same.

fn send_bytes<W: Sink>(bytes: &[u8], done: u64, out: &mut W) -> Result<u64, WriteFault>
    requires { done + length bytes.now < 2 ^ 64 }
    ensures sends { Sends (told (W.written out.old) (W.room out.old)) (told (W.written out.new) (W.room out.new)) done result bytes.now }
    ensures risen { OnErr result (W.faults out.old < W.faults out.new) }
    ensures beside { W.beside out.new ≡ W.beside out.old }
    ensures cause { HasCause (W.faults out.old) (W.faults out.new) result }
{
    match write_all(out, bytes) {
        Ok(()) => Ok(done + bytes.len() as u64),
        Err(fault) => Err(WriteFault {
            written: done + fault.written,
        }),
    }
}

// The event of a change.
fn send_event<W: Sink>(scn: u64, change: &Change, done: u64, out: &mut W) -> Result<u64, WriteFault>
    requires { done + change_size change.now < 2 ^ 64 }
    ensures sends { Sends (told (W.written out.old) (W.room out.old)) (told (W.written out.new) (W.room out.new)) done result
        (event_bytes (record { scn = scn; change = change.now })) }
    ensures risen { OnErr result (W.faults out.old < W.faults out.new) }
    ensures beside { W.beside out.new ≡ W.beside out.old }
    ensures cause { HasCause (W.faults out.old) (W.faults out.new) result }
{
    let done = send_bytes(&event_head(scn, change), done, out)?;
    match &change.put {
        None => Ok(done),
        Some(payload) => send_bytes(payload.bytes(), done, out),
    }
}

// The event of a change that a filter accepts.
fn send_accepted<F: Accepts, W: Sink>(
    scn: u64,
    change: &Change,
    filter: &F,
    done: u64,
    out: &mut W,
) -> Result<u64, WriteFault>
    requires { done + change_size change.now < 2 ^ 64 }
    ensures sends { Sends (told (W.written out.old) (W.room out.old)) (told (W.written out.new) (W.room out.new)) done result
        (accepted_bytes (F.test filter.now) scn change.now) }
    ensures risen { OnErr result (W.faults out.old < W.faults out.new) }
    ensures beside { W.beside out.new ≡ W.beside out.old }
    ensures cause { HasCause (W.faults out.old) (W.faults out.new) result }
{
    if filter.accepts(change.source, &change.key) {
        send_event(scn, change, done, out)
    } else {
        Ok(done)
    }
}

// The events of the changes that a filter accepts.
fn send_changes<F: Accepts, W: Sink>(
    scn: u64,
    changes: &[Change],
    filter: &F,
    done: u64,
    out: &mut W,
) -> Result<u64, WriteFault>
    requires { done + changes_size changes.now < 2 ^ 64 }
    ensures sends { Sends (told (W.written out.old) (W.room out.old)) (told (W.written out.new) (W.room out.new)) done result
        (changes_bytes scn (accepted (F.test filter.now) changes.now)) }
    ensures risen { OnErr result (W.faults out.old < W.faults out.new) }
    ensures beside { W.beside out.new ≡ W.beside out.old }
    ensures cause { HasCause (W.faults out.old) (W.faults out.new) result }
{
    let mut done = done;
    for change in changes {
        done = send_accepted(scn, change, filter, done, out)?;
    }
    Ok(done)
}

// What a filter leaves of a window.
fn send_window<F: Accepts, W: Sink>(
    window: &Window,
    filter: &F,
    done: u64,
    out: &mut W,
) -> Result<u64, WriteFault>
    requires { done + MAX_WINDOW < 2 ^ 64 }
    ensures sends { Sends (told (W.written out.old) (W.room out.old)) (told (W.written out.new) (W.room out.new)) done result
        (window_bytes (cut (F.test filter.now) window.now)) }
    ensures small { length (window_bytes (cut (F.test filter.now) window.now)) ≤ MAX_WINDOW }
    ensures risen { OnErr result (W.faults out.old < W.faults out.new) }
    ensures beside { W.beside out.new ≡ W.beside out.old }
    ensures cause { HasCause (W.faults out.old) (W.faults out.new) result }
{
    let scn = window.scn();
    let done = send_changes(scn, window.changes(), filter, done, out)?;
    send_bytes(&mark_bytes(scn, window.prev()), done, out)
}

/// Sends what a filter leaves of so many windows from a place on. A fault tells how many bytes went out.
pub(crate) fn send_windows<F: Accepts, W: Sink>(
    windows: &VecDeque<Window>,
    from: usize,
    count: u32,
    filter: &F,
    out: &mut W,
) -> Result<u64, WriteFault>
    requires { from + count ≤ length windows.now.items }
    ensures sends { Sends (told (W.written out.old) (W.room out.old)) (told (W.written out.new) (W.room out.new)) 0 result
        (windows_bytes (cuts (F.test filter.now) (take count (drop from windows.now.items)))) }
    ensures risen { OnErr result (W.faults out.old < W.faults out.new) }
    ensures beside { W.beside out.new ≡ W.beside out.old }
    ensures cause { HasCause (W.faults out.old) (W.faults out.new) result }
{
    let mut done = 0;
    for i in 0..count {
        done = send_window(&windows[from + i as usize], filter, done, out)?;
    }
    Ok(done)
}
