ghost use Rattle.std.specs.Prelude.{◌≡◌, ℕ, ◌≤◌, OnOk, OnErr, IsErrOf};
ghost use Rattle.std.specs.Io.KnownBytes.{Appends};
ghost use Rattle.bus_types.specs.Causes.{Rose};
ghost use Rattle.trace_script.specs.Printed.{relay_line};
ghost use Rattle.relay_node.specs.Feeding.{windows_of};
ghost use Rattle.relay_node.specs.Feeding.Ending.{BadAt, TooLongAt, WrongAt};
ghost use Rattle.relay_node.specs.Serving.{ServesAll, ServesSome};
ghost use Rattle.relay_node.specs.Node.{EndsAt, Relayed, RelayedSome, WritesFront, IsUnserved, IsCutShort, IsRelayStatus};

use crate::feed::Stop;
use crate::naming::{Named, Naming};
use crate::reading::publish_input;
use crate::relaying::Relaying;
use crate::serving::{ServeFault, serve_at};
use bus_io::{Sink, Source, write_all};
use bus_link::Link;
use bus_node::{NodeStatus, RelayWords};
use bus_types::Timeline;
use range_ring::make_ring;
use std::alloc::Global;
use std::marker::Brand;
use std::sync::Wait;
use trace_script::relay_line;

/// Runs a relay: publishes the windows of its whole input on a new ring, of at most `words.bytes` bytes of windows and
/// `words.windows` windows; listens at `words.port` with one door, and serves the ring over `words.connections` connections,
/// one after another; shuts the door, and writes the line `relay FLOOR END`, by the SCNs of the newest windows that it evicted
/// and published.
///
/// The lines of the input are blank ones, `commit SCN CHANGE ..` and `gen SEED COUNT`, at most 1,000,000 windows in all. The
/// whole input is read before a line at fault is told, but no further than 16,777,216 bytes.
///
/// Where the input tells its bytes, each body that is served is the reply of the relay that published their windows. Where it
/// tells none, a body is a reply of which contracts don't say which windows it has.
///
/// `BadLine`, `TooLong` and `WrongWord` tell the first line at fault, and `ReadFault` a fault of the input, whichever line is at
/// fault; then nothing was served or written. `LinkFault` comes where the link did not listen or an accept failed, and
/// `NoMemory` also where a connection ended by want of memory; then nothing was written. A fault of a served connection ends
/// that connection alone. `WriteFault` comes where the line was not written whole. No other status comes.
pub fn run_relay<R: Wait, S: Source, W: Sink, L: Link>(
    rt: &R,
    alloc: Global,
    words: &RelayWords,
    input: &mut S,
    out: &mut W,
    link: &mut L,
) -> NodeStatus
    requires least_bytes { 1048576 ≤ words.now.bytes }
    requires most_bytes { words.now.bytes ≤ 268435456 }
    requires least_windows { 1 ≤ words.now.windows }
    requires most_windows { words.now.windows ≤ 65536 }

    // The whole input was published, the relay of its windows served over all connections, and its line written.
    ensures done { result ≡ NodeStatus.Done → Relayed L.Peer.given L.Peer.left L.Peer.written
        (record { bytes = words.now.bytes; windows = words.now.windows }) words.now.port words.now.connections (S.left input.old) (S.left input.new)
        (L.told link.old) (L.told link.new) (Appends (W.written out.old) (W.written out.new)) }

    // The first line at fault, behind which the input was read on.
    ensures bad_line { (line : ℕ) → result ≡ NodeStatus.BadLine line → EndsAt (BadAt line) (S.left input.old) (S.left input.new) }
    ensures too_long { (line : ℕ) → result ≡ NodeStatus.TooLong line → EndsAt (TooLongAt line) (S.left input.old) (S.left input.new) }
    ensures wrong_word { (line : ℕ) → result ≡ NodeStatus.WrongWord line → EndsAt (WrongAt line) (S.left input.old) (S.left input.new) }

    // Where the input is at fault, nothing was served or written.
    ensures unserved { IsUnserved result → (out.new ≡ out.old) × (link.new ≡ link.old) }

    // A fault of the input, the output or the link comes only where its count rose.
    ensures read_fault { result ≡ NodeStatus.ReadFault → Rose (S.faults input.old) (S.faults input.new) }
    ensures write_fault { result ≡ NodeStatus.WriteFault → Rose (W.faults out.old) (W.faults out.new) }
    ensures link_fault { result ≡ NodeStatus.LinkFault → Rose (L.faults link.old) (L.faults link.new) }

    // What was served and written where the output or the link failed, or memory ran out.
    ensures written_front { result ≡ NodeStatus.WriteFault → Relayed L.Peer.given L.Peer.left L.Peer.written
        (record { bytes = words.now.bytes; windows = words.now.windows }) words.now.port words.now.connections (S.left input.old) (S.left input.new)
        (L.told link.old) (L.told link.new) (WritesFront (W.written out.old) (W.written out.new)) }
    ensures unwritten { IsCutShort result → out.new ≡ out.old }
    ensures served_some { IsCutShort result → RelayedSome L.Peer.given L.Peer.left L.Peer.written
        (record { bytes = words.now.bytes; windows = words.now.windows }) words.now.port words.now.connections (S.left input.old) (S.left input.new)
        (L.told link.old) (L.told link.new) }
    ensures statuses { IsRelayStatus result }
{
    relay_over::<Brand, R, S, W, L>(rt, alloc, words, input, out, link)
}

// Runs a relay over a ring of the windows that N names, which are those of the input where it tells its bytes.
fn relay_over<N: Naming, R: Wait, S: Source, W: Sink, L: Link>(
    rt: &R,
    alloc: Global,
    words: &RelayWords,
    input: &mut S,
    out: &mut W,
    link: &mut L,
) -> NodeStatus
    requires named { N.windows ≡ windows_of (S.left input.old) }
    requires least_bytes { 1048576 ≤ words.now.bytes }
    requires most_bytes { words.now.bytes ≤ 268435456 }
    requires least_windows { 1 ≤ words.now.windows }
    requires most_windows { words.now.windows ≤ 65536 }
    ensures done { result ≡ NodeStatus.Done → Relayed L.Peer.given L.Peer.left L.Peer.written
        (record { bytes = words.now.bytes; windows = words.now.windows }) words.now.port words.now.connections (S.left input.old) (S.left input.new)
        (L.told link.old) (L.told link.new) (Appends (W.written out.old) (W.written out.new)) }
    ensures bad_line { (line : ℕ) → result ≡ NodeStatus.BadLine line → EndsAt (BadAt line) (S.left input.old) (S.left input.new) }
    ensures too_long { (line : ℕ) → result ≡ NodeStatus.TooLong line → EndsAt (TooLongAt line) (S.left input.old) (S.left input.new) }
    ensures wrong_word { (line : ℕ) → result ≡ NodeStatus.WrongWord line → EndsAt (WrongAt line) (S.left input.old) (S.left input.new) }
    ensures unserved { IsUnserved result → (out.new ≡ out.old) × (link.new ≡ link.old) }
    ensures read_fault { result ≡ NodeStatus.ReadFault → Rose (S.faults input.old) (S.faults input.new) }
    ensures write_fault { result ≡ NodeStatus.WriteFault → Rose (W.faults out.old) (W.faults out.new) }
    ensures link_fault { result ≡ NodeStatus.LinkFault → Rose (L.faults link.old) (L.faults link.new) }
    ensures written_front { result ≡ NodeStatus.WriteFault → Relayed L.Peer.given L.Peer.left L.Peer.written
        (record { bytes = words.now.bytes; windows = words.now.windows }) words.now.port words.now.connections (S.left input.old) (S.left input.new)
        (L.told link.old) (L.told link.new) (WritesFront (W.written out.old) (W.written out.new)) }
    ensures unwritten { IsCutShort result → out.new ≡ out.old }
    ensures served_some { IsCutShort result → RelayedSome L.Peer.given L.Peer.left L.Peer.written
        (record { bytes = words.now.bytes; windows = words.now.windows }) words.now.port words.now.connections (S.left input.old) (S.left input.new)
        (L.told link.old) (L.told link.new) }
    ensures statuses { IsRelayStatus result }
{
    let Ok((ring, feeder, mut passes)) = make_ring::<Named<N>>(alloc, words.bytes, words.windows, 1)
    else {
        return NodeStatus::NoMemory;
    };
    let Some(pass) = passes.pop() else {
        unreachable!();
    };
    match publish_input(rt, alloc, &ring, feeder, pass, input) {
        Ok(relaying) => relay_at(alloc, words.port, words.connections, relaying, out, link),
        Err(Stop::BadLine(line)) => NodeStatus::BadLine { line },
        Err(Stop::TooLong(line)) => NodeStatus::TooLong { line },
        Err(Stop::WrongWord(line)) => NodeStatus::WrongWord { line },
        Err(Stop::ReadFault) => NodeStatus::ReadFault,
        Err(Stop::NoMemory) => NodeStatus::NoMemory,
    }
}

// Serves a relay, and writes its line.
fn relay_at<R: Wait, T: Timeline, W: Sink, L: Link>(
    alloc: Global,
    port: u16,
    connections: u32,
    relaying: Relaying<'_, R, T>,
    out: &mut W,
    link: &mut L,
) -> NodeStatus
    ensures done { result ≡ NodeStatus.Done → ServesAll L.Peer.given L.Peer.left L.Peer.written T.told port connections relaying.entry
        (L.told link.old) (L.told link.new) }
    ensures written { result ≡ NodeStatus.Done → Appends (W.written out.old) (W.written out.new)
        (relay_line relaying.entry.floor relaying.entry.tail) }
    ensures write_fault { result ≡ NodeStatus.WriteFault → Rose (W.faults out.old) (W.faults out.new) }
    ensures served { result ≡ NodeStatus.WriteFault → ServesAll L.Peer.given L.Peer.left L.Peer.written T.told port connections relaying.entry
        (L.told link.old) (L.told link.new) }
    ensures written_front { result ≡ NodeStatus.WriteFault → WritesFront (W.written out.old) (W.written out.new)
        (relay_line relaying.entry.floor relaying.entry.tail) }
    ensures link_fault { result ≡ NodeStatus.LinkFault → Rose (L.faults link.old) (L.faults link.new) }
    ensures unwritten { IsCutShort result → out.new ≡ out.old }
    ensures served_some { IsCutShort result → ServesSome L.Peer.given L.Peer.left L.Peer.written T.told port connections relaying.entry
        (L.told link.old) (L.told link.new) }
    ensures tried { IsUnserved result → ⊥ }
    ensures statuses { IsRelayStatus result }
{
    let mut relaying = relaying;
    let (floor, tail) = (relaying.floor(), relaying.tail());
    match serve_at(alloc, port, connections, &mut relaying, link) {
        Ok(()) => {}
        Err(ServeFault::LinkFault) => return NodeStatus::LinkFault,
        Err(ServeFault::NoMemory) => return NodeStatus::NoMemory,
    }
    match print(alloc, floor, tail, out) {
        Ok(()) => NodeStatus::Done,
        Err(PrintFault::WriteFault) => NodeStatus::WriteFault,
        Err(PrintFault::NoMemory) => NodeStatus::NoMemory,
    }
}

/// Why a line was not written whole.
#[derive(Clone, Copy, Debug, PartialEq, Eq)]
enum PrintFault {
    /// The output failed: its count rose.
    WriteFault,
    /// Memory ran out.
    NoMemory,
}

// Writes the line of a relay.
fn print<W: Sink>(alloc: Global, floor: u64, tail: u64, out: &mut W) -> Result<(), PrintFault>
    ensures written { OnOk result (Appends (W.written out.old) (W.written out.new) (relay_line floor tail)) }
    ensures front { IsErrOf result PrintFault.WriteFault → WritesFront (W.written out.old) (W.written out.new)
        (relay_line floor tail) }
    ensures cause { IsErrOf result PrintFault.WriteFault → Rose (W.faults out.old) (W.faults out.new) }
    ensures none { IsErrOf result PrintFault.NoMemory → out.new ≡ out.old }
{
    let Ok(text) = relay_line(alloc, floor, tail) else {
        return Err(PrintFault::NoMemory);
    };
    match write_all(out, text.as_bytes()) {
        Ok(()) => Ok(()),
        Err(_) => Err(PrintFault::WriteFault),
    }
}
