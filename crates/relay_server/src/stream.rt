ghost use Rattle.std.specs.Prelude.{◌≡◌, ◌≤◌, ◌<◌, List, ℕ, length, OnOk, OnErr};
ghost use Rattle.std.specs.Io.KnownBytes.{Appends};
ghost use Rattle.bus_types.specs.Causes.{HasCause};
ghost use Rattle.bus_types.specs.Window.{Span};
ghost use Rattle.bus_types.specs.Cut.{cuts};
ghost use Rattle.bus_types.specs.declared.limits.TheConstants.{MAX_SCN};
ghost use Rattle.event_codec.specs.Frames.{answer_number, answer_bytes};
ghost use Rattle.event_codec.specs.Parsing.{AreWindows};
ghost use Rattle.event_codec.specs.Streams.{windows_bytes};
ghost use Rattle.partition_filter.specs.Selection.{test_of};
ghost use Rattle.bus_http.specs.Sent.{WroteFront};
ghost use Rattle.bus_http.specs.Talks.{reply_text};
ghost use Rattle.range_ring.specs.Parts.{bytes_at};
ghost use Rattle.range_ring.specs.Ranges.{HoldAll, IsRange};
ghost use Rattle.relay_server.specs.Shared.{SendsReply};

use bus_http::{send, send_head, send_reply};
use bus_io::Sink;
use bus_types::{Failed, Timeline};
use event_codec::{Answer, answer_bytes};
use partition_filter::Filter;
use range_ring::{Opened, Pass, Range, Ring};
use std::sync::Wait;

// Writes what the filter leaves of the window at a place of a range, part by part, from where it stands.
fn send_window<T: Timeline, W: Sink>(
    range: &Range<'_, T, Filter>,
    i: u32,
    out: &mut W,
) -> Result<(), Failed>
    requires { i < length range.now.entries }
    ensures ok { OnOk result ((items : List Span) → AreWindows items (bytes_at range.now.entries i) → Appends (W.written out.old) (W.written out.new)
        (windows_bytes (cuts (test_of range.now.filter) items))) }
    ensures part { OnErr result ((items : List Span) → AreWindows items (bytes_at range.now.entries i) → WroteFront (W.written out.old) (W.written out.new)
        (windows_bytes (cuts (test_of range.now.filter) items))) }
    ensures beside { W.beside out.new ≡ W.beside out.old }
    ensures cause { HasCause (W.faults out.old) (W.faults out.new) result }
{
    let _begins = range.window(i);
    let mut place = 0;
    while let Some(part) = range.part(i, place) {
        let Ok(()) = send(out, part.bytes) else {
            return Err(Failed);
        };
        place = part.next;
    }
    Ok(())
}

// Writes what the filter leaves of the windows of a range.
fn send_windows<T: Timeline, W: Sink>(
    range: &Range<'_, T, Filter>,
    out: &mut W,
) -> Result<(), Failed>
    ensures ok { OnOk result ((position : ℕ) (windows : List Span) → HoldAll T.told position range.now.entries windows → Appends (W.written out.old) (W.written out.new)
        (windows_bytes (cuts (test_of range.now.filter) windows))) }
    ensures part { OnErr result ((position : ℕ) (windows : List Span) → HoldAll T.told position range.now.entries windows → WroteFront (W.written out.old) (W.written out.new)
        (windows_bytes (cuts (test_of range.now.filter) windows))) }
    ensures beside { W.beside out.new ≡ W.beside out.old }
    ensures cause { HasCause (W.faults out.old) (W.faults out.new) result }
{
    for i in 0..range.count() {
        let Ok(()) = send_window(range, i, out) else {
            return Err(Failed);
        };
    }
    Ok(())
}

// Writes a reply of windows: its head, and what the filter leaves of them. The range ends behind that.
fn send_range<T: Timeline, W: Sink>(range: Range<'_, T, Filter>, out: &mut W) -> Result<(), Failed>
    ensures ok { OnOk result ((position max : ℕ) (windows : List Span) → IsRange T.told position (test_of range.entry.filter) max range.entry.entries range.entry.size windows
        → Appends (W.written out.old) (W.written out.new) (reply_text (windows_bytes (cuts (test_of range.entry.filter) windows)))) }
    ensures part { OnErr result ((position max : ℕ) (windows : List Span) → IsRange T.told position (test_of range.entry.filter) max range.entry.entries range.entry.size windows
        → WroteFront (W.written out.old) (W.written out.new) (reply_text (windows_bytes (cuts (test_of range.entry.filter) windows)))) }
    ensures beside { W.beside out.new ≡ W.beside out.old }
    ensures cause { HasCause (W.faults out.old) (W.faults out.new) result }
{
    let Ok(()) = send_head(out, range.size()) else {
        return Err(Failed);
    };
    let Ok(()) = send_windows(&range, out) else {
        return Err(Failed);
    };
    range.end();
    Ok(())
}

// Writes a reply of no windows.
fn send_answer<W: Sink>(answer: &Answer, out: &mut W) -> Result<(), Failed>
    requires { answer_number answer.now ≤ MAX_SCN }
    ensures ok { OnOk result (Appends (W.written out.old) (W.written out.new) (reply_text (answer_bytes answer.now))) }
    ensures part { OnErr result (WroteFront (W.written out.old) (W.written out.new) (reply_text (answer_bytes answer.now))) }
    ensures beside { W.beside out.new ≡ W.beside out.old }
    ensures cause { HasCause (W.faults out.old) (W.faults out.new) result }
{
    match send_reply(out, &answer_bytes(answer)) {
        Ok(()) => Ok(()),
        Err(Failed) => Err(Failed),
    }
}

/// Writes the answer to an ask for the windows after `scn` that a filter leaves, in at most `max` bytes: the bytes of windows are
/// written from the ring's own cells, and copied nowhere. `Failed` comes only where the sink's count rose.
pub(crate) fn send_stream<T: Timeline, R: Wait, W: Sink>(
    rt: &R,
    ring: &Ring<T>,
    pass: &mut Pass<T>,
    scn: u64,
    filter: &Filter,
    max: u32,
    out: &mut W,
) -> Result<(), Failed>
    requires { pass.old.home ≡ ring.now }
    ensures sends { SendsReply T.told pass.old pass.new scn (test_of filter.now) max result (W.written out.old) (W.written out.new) }
    ensures beside { W.beside out.new ≡ W.beside out.old }
    ensures cause { HasCause (W.faults out.old) (W.faults out.new) result }
{
    match pass.open(rt, ring, scn, filter, max) {
        Opened::Range(range) => send_range(range, out),
        Opened::NotFound { floor } => send_answer(&Answer::NotFound(floor), out),
        Opened::Empty { tail } => send_answer(&Answer::Empty(tail), out),
        Opened::TooSmall { need } => send_answer(&Answer::TooSmall(need), out),
    }
}
