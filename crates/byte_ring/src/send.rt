ghost use Rattle.std.specs.Prelude.{◌≡◌, ◌+◌, ◌*◌, ◌≤◌, ◌<◌, ◌^◌, [], length, take, drop, if◌then◌else◌, OnErr};
ghost use Rattle.bus_types.specs.Causes.{HasCause};
ghost use Rattle.bus_types.specs.Change.{accepted};
ghost use Rattle.bus_types.specs.Cut.{cut, cuts};
ghost use Rattle.bus_types.specs.Relay.{most_windows};
ghost use Rattle.bus_types.specs.Window.{span_size};
ghost use Rattle.event_codec.specs.Bytes.{changes_bytes, mark_bytes, window_bytes};
ghost use Rattle.event_codec.specs.Streams.{windows_bytes};
ghost use Rattle.plain_buffer.specs.Send.{told, Sends};
ghost use Rattle.byte_ring.specs.Parts.{between, passed, Awaiting, WindowAt, Moves};

use crate::event::{accepts_event, size_left};
use crate::halves::Halves;
use crate::kept::{Kept, Slot};
use bus_io::{Sink, WriteFault, write_all};
use bus_types::Accepts;
use event_codec::MARK_SIZE;

/// How many bytes of a reply were sent, and those from one place of a circle to another, which await sending.
#[derive(Clone, Copy, Debug)]
pub(crate) struct Pending {
    pub done: u64,
    pub from: usize,
    pub to: usize,
}

// Sends bytes behind `done` bytes of a reply, and answers how many bytes of it went out by then. A fault tells the same.
fn send_bytes<W: Sink>(part: &[u8], done: u64, out: &mut W) -> Result<u64, WriteFault>
    requires { done + length part.now < 2 ^ 64 }
    ensures sends { Sends (told (W.written out.old) (W.room out.old)) (told (W.written out.new) (W.room out.new)) done result part.now }
    ensures risen { OnErr result (W.faults out.old < W.faults out.new) }
    ensures beside { W.beside out.new ≡ W.beside out.old }
    ensures cause { HasCause (W.faults out.old) (W.faults out.new) result }
{
    match write_all(out, part) {
        Ok(()) => Ok(done + part.len() as u64),
        Err(fault) => Err(WriteFault {
            written: done + fault.written,
        }),
    }
}

// Sends what awaits sending, in at most two parts.
fn send_pending<W: Sink>(
    bytes: &Halves<'_>,
    pending: Pending,
    out: &mut W,
) -> Result<u64, WriteFault>
    requires awaiting { Awaiting bytes.now pending }
    requires few { passed pending < 2 ^ 64 }
    ensures sends { Sends (told (W.written out.old) (W.room out.old)) (told (W.written out.new) (W.room out.new)) pending.done result
        (between bytes.now pending.from pending.to) }
    ensures risen { OnErr result (W.faults out.old < W.faults out.new) }
    ensures beside { W.beside out.new ≡ W.beside out.old }
    ensures cause { HasCause (W.faults out.old) (W.faults out.new) result }
{
    let (front, back) = bytes.part(pending.from, pending.to - pending.from);
    let done = send_bytes(front, pending.done, out)?;
    if back.is_empty() {
        return Ok(done);
    }
    send_bytes(back, done, out)
}

// Adds bytes to those that await sending. Where they don't stand behind those, those are sent first.
fn pass<W: Sink>(
    bytes: &Halves<'_>,
    pending: Pending,
    at: usize,
    size: usize,
    out: &mut W,
) -> Result<Pending, WriteFault>
    requires awaiting { Awaiting bytes.now pending }
    requires few { passed pending < 2 ^ 64 }
    requires within { at + size ≤ length bytes.now }
    ensures moves { Moves bytes.now (told (W.written out.old) (W.room out.old)) (told (W.written out.new) (W.room out.new))
        pending result (between bytes.now at (at + size)) }
    ensures risen { OnErr result (W.faults out.old < W.faults out.new) }
    ensures beside { W.beside out.new ≡ W.beside out.old }
    ensures cause { HasCause (W.faults out.old) (W.faults out.new) result }
{
    let _within = bytes.len();
    let to = at + size;
    if pending.to == at {
        return Ok(Pending {
            done: pending.done,
            from: pending.from,
            to,
        });
    }
    let done = send_pending(bytes, pending, out)?;
    Ok(Pending { done, from: at, to })
}

// Adds the bytes of an event, where it is accepted.
fn pass_event<W: Sink>(
    bytes: &Halves<'_>,
    pending: Pending,
    at: usize,
    size: usize,
    accepted: bool,
    out: &mut W,
) -> Result<Pending, WriteFault>
    requires awaiting { Awaiting bytes.now pending }
    requires few { passed pending < 2 ^ 64 }
    requires within { at + size ≤ length bytes.now }
    ensures moves { Moves bytes.now (told (W.written out.old) (W.room out.old)) (told (W.written out.new) (W.room out.new))
        pending result (if accepted then between bytes.now at (at + size) else []) }
    ensures risen { OnErr result (W.faults out.old < W.faults out.new) }
    ensures beside { W.beside out.new ≡ W.beside out.old }
    ensures cause { HasCause (W.faults out.old) (W.faults out.new) result }
{
    if accepted {
        pass(bytes, pending, at, size, out)
    } else {
        Ok(pending)
    }
}

// Adds the events that a filter accepts of a slot's window, which stands at a place.
fn pass_events<F: Accepts, W: Sink>(
    bytes: &Halves<'_>,
    pending: Pending,
    at: usize,
    slot: &Slot,
    filter: &F,
    out: &mut W,
) -> Result<Pending, WriteFault>
    requires awaiting { Awaiting bytes.now pending }
    requires few { passed pending + span_size slot.now.window.value < 2 ^ 64 }
    requires there { WindowAt bytes.now at slot.now }
    ensures moves { Moves bytes.now (told (W.written out.old) (W.room out.old)) (told (W.written out.new) (W.room out.new))
        pending result (changes_bytes slot.now.window.value.scn (accepted (F.test filter.now) slot.now.window.value.changes)) }
    ensures risen { OnErr result (W.faults out.old < W.faults out.new) }
    ensures beside { W.beside out.new ≡ W.beside out.old }
    ensures cause { HasCause (W.faults out.old) (W.faults out.new) result }
{
    let _within = bytes.len();
    let mut pending = pending;
    let mut place = at;
    let mut size = size_left(bytes, at, 0 < slot.count);
    for i in 0..slot.count {
        // The next event's size is read before the filter is asked, so that no wait for its bytes stands behind that answer.
        let next = place + size;
        let next_size = size_left(bytes, next, i + 1 < slot.count);
        let accepted = accepts_event(bytes, place, filter);
        pending = pass_event(bytes, pending, place, size, accepted, out)?;
        place = next;
        size = next_size;
    }
    Ok(pending)
}

// Adds the mark of a slot's window, which stands at a place.
fn pass_mark<W: Sink>(
    bytes: &Halves<'_>,
    pending: Pending,
    at: usize,
    slot: &Slot,
    out: &mut W,
) -> Result<Pending, WriteFault>
    requires awaiting { Awaiting bytes.now pending }
    requires few { passed pending < 2 ^ 64 }
    requires there { WindowAt bytes.now at slot.now }
    ensures moves { Moves bytes.now (told (W.written out.old) (W.room out.old)) (told (W.written out.new) (W.room out.new))
        pending result (mark_bytes slot.now.window.value.scn slot.now.window.value.prev) }
    ensures risen { OnErr result (W.faults out.old < W.faults out.new) }
    ensures beside { W.beside out.new ≡ W.beside out.old }
    ensures cause { HasCause (W.faults out.old) (W.faults out.new) result }
{
    let _within = bytes.len();
    let mark = at + slot.size as usize - MARK_SIZE;
    pass(bytes, pending, mark, MARK_SIZE, out)
}

// Adds the events that a filter accepts of a slot's window, which stands at a place, and the mark.
fn pass_items<F: Accepts, W: Sink>(
    bytes: &Halves<'_>,
    pending: Pending,
    at: usize,
    slot: &Slot,
    filter: &F,
    out: &mut W,
) -> Result<Pending, WriteFault>
    requires awaiting { Awaiting bytes.now pending }
    requires few { passed pending + span_size slot.now.window.value < 2 ^ 64 }
    requires there { WindowAt bytes.now at slot.now }
    ensures moves { Moves bytes.now (told (W.written out.old) (W.room out.old)) (told (W.written out.new) (W.room out.new))
        pending result (window_bytes (cut (F.test filter.now) slot.now.window.value)) }
    ensures risen { OnErr result (W.faults out.old < W.faults out.new) }
    ensures beside { W.beside out.new ≡ W.beside out.old }
    ensures cause { HasCause (W.faults out.old) (W.faults out.new) result }
{
    let pending = pass_events(bytes, pending, at, slot, filter, out)?;
    pass_mark(bytes, pending, at, slot, out)
}

/// Sends what a filter leaves of so many windows from a place in their order on, at most 32, in parts that are as long as
/// it leaves them, and answers how many bytes that were. A fault tells how many bytes went out.
pub(crate) fn send_windows<F: Accepts, W: Sink>(
    kept: &Kept,
    from: usize,
    count: u32,
    filter: &F,
    out: &mut W,
) -> Result<u64, WriteFault>
    requires within { from + count ≤ length kept.now.windows }
    requires few { count ≤ most_windows }
    ensures sends { Sends (told (W.written out.old) (W.room out.old)) (told (W.written out.new) (W.room out.new)) 0 result
        (windows_bytes (cuts (F.test filter.now) (take count (drop from kept.now.windows)))) }
    ensures risen { OnErr result (W.faults out.old < W.faults out.new) }
    ensures beside { W.beside out.new ≡ W.beside out.old }
    ensures cause { HasCause (W.faults out.old) (W.faults out.new) result }
{
    let _within = kept.len();
    let bytes = kept.bytes();
    let mut pending = Pending {
        done: 0,
        from: 0,
        to: 0,
    };
    for i in 0..count {
        let (at, slot) = kept.window(from + i as usize);
        pending = pass_items(&bytes, pending, at, slot, filter, out)?;
    }
    send_pending(&bytes, pending, out)
}
