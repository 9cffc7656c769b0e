ghost use Rattle.std.specs.Prelude.{◌≡◌, ℕ, ◌+◌, ◌≤◌, ◌<◌, ◌↔◌, List, [], length, Option, None, IsTrue, IfNone, codes, string_bytes};
ghost use Rattle.std.specs.Io.KnownBytes.{IsAtEnd};
ghost use Rattle.bus_types.specs.Causes.{Rose};
ghost use Rattle.history_core.specs.Run.Ending.{Finished, BadAt, TooLongAt};
ghost use Rattle.bus_top.specs.Session.{IsSession, Reached};
ghost use Rattle.bus_top.specs.Headline.{Headline};
ghost use Rattle.bus_top.specs.Trace.{EndsAt, StopsReading, StopsWriting, StopsShort, HandsBack, IsTrace};
ghost use Rattle.bus_top.specs.Turns.{Ended, Ends, Turned, kept_by, stop_status};

use crate::Bus;
use crate::session::{Session, Stop};
use crate::status::Status;
use bus_io::{Sink, Source, write_all};
use std::alloc::Global;

/// How many bytes of the input are asked for at a time.
const PIECE: usize = 65_536;

/// Runs the script that the input holds, and writes what its lines print, under the one word `trace`.
///
/// `kept` is `None` before, and gets the bus of the script: after `Done` as its lines left it, after `BadLine` and
/// `TooLong` as the lines before the one at fault did, and after `ReadFault` as the whole lines that were read did. After
/// `Usage`, `WriteFault` and `NoMemory` it is `None` still.
pub fn trace<S: Source, W: Sink>(
    alloc: Global,
    words: &[String],
    input: &mut S,
    out: &mut W,
    kept: &mut Option<Bus>,
) -> Status
    requires { kept.old ≡ None }

    // The words are another command's exactly where it says so.
    ensures usage { (result ≡ Status.Usage) ↔ (IsTrace words.now → ⊥) }
    ensures untouched { result ≡ Status.Usage → (input.new ≡ input.old) × (out.new ≡ out.old) }

    // The input was read to its end, and what was written is what its lines print.
    ensures done { result ≡ Status.Done → EndsAt Finished (S.left input.old) (W.written out.old) (W.written out.new) }
    ensures end { result ≡ Status.Done → IsAtEnd (S.left input.new) }

    // The first line at fault, and what the lines before it print.
    ensures bad_line { (line : ℕ) → result ≡ Status.BadLine line → EndsAt (BadAt line) (S.left input.old) (W.written out.old) (W.written out.new) }
    ensures too_long { (line : ℕ) → result ≡ Status.TooLong line
        → EndsAt (TooLongAt line) (S.left input.old) (W.written out.old) (W.written out.new) }

    // A fault of the input or the output comes only where its count rose.
    ensures read_fault { result ≡ Status.ReadFault → Rose (S.faults input.old) (S.faults input.new) }
    ensures write_fault { result ≡ Status.WriteFault → Rose (W.faults out.old) (W.faults out.new) }

    // What stands written after a fault or want of memory.
    ensures read_so_far { result ≡ Status.ReadFault → StopsReading (S.left input.old) (S.left input.new) (W.written out.old) (W.written out.new) }
    ensures written_so_far { result ≡ Status.WriteFault → StopsWriting (S.left input.old) (W.written out.old) (W.written out.new) }
    ensures no_memory { result ≡ Status.NoMemory → StopsShort (S.left input.old) (W.written out.old) (W.written out.new) }

    // Who is online holds exactly the filtered table; no stored SCN falls; and the relay answers not found exactly where a
    // window after the SCN asked was evicted, else the next whole windows that fit, or why none do.
    ensures headline { Headline (S.left input.old) kept.new }

    // The bus as the lines that were taken left it, or none.
    ensures kept { HandsBack result (S.left input.old) (S.left input.new) kept.new }
{
    if !is_trace(words) {
        return Status::Usage;
    }
    run(alloc, input, out, kept)
}

// Whether the words are the one word `trace`.
fn is_trace(words: &[String]) -> bool
    ensures { IsTrue result ↔ IsTrace words.now }
{
    match words {
        [word] => is_word(word),
        _ => false,
    }
}

fn is_word(word: &String) -> bool
    ensures { IsTrue result ↔ (string_bytes word.now ≡ codes "trace") }
{
    word.as_str() == "trace"
}

// Runs the script that the input holds.
fn run<S: Source, W: Sink>(
    alloc: Global,
    input: &mut S,
    out: &mut W,
    kept: &mut Option<Bus>,
) -> Status
    requires { kept.old ≡ None }
    ensures ended { Ended result (S.left input.old) (S.left input.new) (W.written out.old) (W.written out.new) }
    ensures kept { HandsBack result (S.left input.old) (S.left input.new) kept.new }
    ensures read_fault { result ≡ Status.ReadFault → Rose (S.faults input.old) (S.faults input.new) }
    ensures write_fault { result ≡ Status.WriteFault → Rose (W.faults out.old) (W.faults out.new) }
{
    let Ok(mut session) = Session::new(alloc) else {
        return Status::NoMemory;
    };
    let mut text = Vec::new(alloc);
    let mut piece = piece_room();
    loop {
        if let Some(status) = turn(alloc, &mut session, &mut text, &mut piece, input, out) {
            *kept = left_bus(status, session.bus);
            return status;
        }
    }
}

// The bus that a run with this end hands back.
fn left_bus(status: Status, bus: Bus) -> Option<Bus>
    ensures { result ≡ kept_by status bus }
{
    match status {
        Status::Done | Status::BadLine { .. } | Status::TooLong { .. } | Status::ReadFault => {
            Some(bus)
        }
        Status::Usage | Status::WriteFault | Status::NoMemory => None,
    }
}

// Room for a piece of the input.
fn piece_room() -> [u8; PIECE]
    ensures { length result ≡ PIECE }
{
    [0; PIECE]
}

// Reads a piece, takes its lines and writes what they print. `None`: the run goes on.
fn turn<S: Source, W: Sink>(
    alloc: Global,
    session: &mut Session,
    text: &mut Vec<u8>,
    piece: &mut [u8],
    input: &mut S,
    out: &mut W,
) -> Option<Status>
    requires session { IsSession session.old }
    requires room { 0 < length piece.old }
    ensures turned { (first start : Option (List ℕ)) → Reached first (S.left input.old) start (W.written out.old) session.old
        → Turned result first (S.left input.new) start (W.written out.new) session.new }
    ensures grows { IfNone result (IsSession session.new
        × (session.old.lines.used + length session.old.lines.come < session.new.lines.used + length session.new.lines.come)) }
    ensures later_input { S.faults input.old ≤ S.faults input.new }
    ensures later_output { W.faults out.old ≤ W.faults out.new }
    ensures read_fault { result ≡ Some Status.ReadFault → Rose (S.faults input.old) (S.faults input.new) }
    ensures write_fault { result ≡ Some Status.WriteFault → Rose (W.faults out.old) (W.faults out.new) }
{
    text.clear();
    let Ok(count) = input.read(piece) else {
        return Some(Status::ReadFault);
    };
    if count == 0 {
        return Some(end(alloc, session, text, out));
    }
    let fed = session.feed(alloc, &piece[..count], text, out);
    let Ok(()) = write_all(out, text) else {
        return Some(Status::WriteFault);
    };
    match fed {
        Ok(()) => None,
        Err(stop) => Some(status_of(stop)),
    }
}

// Takes the last line and writes what it prints.
fn end<W: Sink>(alloc: Global, session: &mut Session, text: &mut Vec<u8>, out: &mut W) -> Status
    requires session { IsSession session.old }
    requires empty { text.old.items ≡ [] }
    ensures ends { Ends result (W.written out.old) (W.written out.new) session.old session.new.bus }
    ensures later { W.faults out.old ≤ W.faults out.new }
    ensures write_fault { result ≡ Status.WriteFault → Rose (W.faults out.old) (W.faults out.new) }
{
    let finished = session.finish(alloc, text);
    let Ok(()) = write_all(out, text) else {
        return Status::WriteFault;
    };
    match finished {
        Ok(()) => Status::Done,
        Err(stop) => status_of(stop),
    }
}

fn status_of(stop: Stop) -> Status
    ensures { result ≡ stop_status stop }
{
    match stop {
        Stop::BadLine(line) => Status::BadLine { line },
        Stop::TooLong(line) => Status::TooLong { line },
        Stop::WriteFault => Status::WriteFault,
        Stop::NoMemory => Status::NoMemory,
    }
}
