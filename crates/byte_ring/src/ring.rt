ghost use Rattle.std.specs.Prelude.{◌≡◌, ◌≤◌, ◌<◌, ◌∷◌, [], List, length, take, drop, IfOk, IfErr, IfSome, OnOk, OnErr, Ok};
ghost use Rattle.std.specs.Io.KnownBytes.{Appends};
ghost use Rattle.bus_io.specs.Bytes.{RoomLeft};
ghost use Rattle.bus_types.specs.Causes.{HasCause};
ghost use Rattle.bus_types.specs.Cut.{cuts};
ghost use Rattle.bus_types.specs.Window.{Span};
ghost use Rattle.bus_types.specs.Timeline.{windows_between};
ghost use Rattle.bus_types.specs.Relay.{fitting, new_relay, published, answer_of, stream, StandsFor};
ghost use Rattle.event_codec.specs.Reply.{IsServed, IsInRange, windows_sent};

use crate::kept::Kept;
use crate::run::{cut_size, longest_run};
use crate::send::send_windows;
use bus_io::{Sink, WriteFault};
use bus_types::{Accepts, MAX_SCN, NoMemory, Window};
use event_codec::Served;
use std::alloc::Global;
use std::fmt;
use std::marker::Model;

/// A relay that keeps its windows in full in one circle of bytes: it evicts the oldest ones where a new one would not fit.
/// It takes all its memory when it is made. Contracts see its room, its floor, its tail and the windows.
#[derive(Drop)]
pub struct ByteRing {
    kept: Kept,
    tail: u64,
}

impl Model for ByteRing {
    ghost use Rattle.std.specs.Prelude.{◌≡◌, ◌≤◌};
    ghost use Rattle.bus_types.specs.declared.limits.TheConstants.{MAX_SCN};
    ghost use Rattle.bus_types.specs.Timeline.{end_from};
    ghost use Rattle.bus_types.specs.Relay.{Relay};

    ghost Value = { Relay };

    ghost view = { λ b. record { room = b.kept.room; floor = b.kept.floor; tail = b.tail; kept = b.kept.windows } };

    ghost invariant = { λ b. (b.tail ≡ end_from b.kept.floor b.kept.windows) × (b.tail ≤ MAX_SCN) };
}

impl ByteRing {
    /// A relay that published no window yet. It keeps at most so many bytes of windows in full, from 1,048,576 to
    /// 268,435,456, and at most so many windows, from 1 to 65,536. It takes all its memory here.
    pub fn new(alloc: Global, bytes: u64, windows: u32) -> Result<ByteRing, NoMemory>
        requires some_bytes { 1048576 ≤ bytes }
        requires few_bytes { bytes ≤ 268435456 }
        requires some_windows { 1 ≤ windows }
        requires few_windows { windows ≤ 65536 }
        ensures { IfOk result (λ b. b ≡ new_relay (record { bytes = bytes; windows = windows })) }
    {
        Ok(ByteRing {
            kept: Kept::new(alloc, bytes, windows)?,
            tail: 0,
        })
    }

    /// Publishes a window, which is chained to the newest one, and evicts the fewest oldest windows that make it fit. It
    /// takes no memory, and always answers Ok.
    pub fn publish(&mut self, _alloc: Global, window: &Window) -> Result<(), NoMemory>
        requires chained { window.now.prev ≡ self.old.tail }
        requires full { 0 < length window.now.changes }
        ensures ok { result ≡ Ok tt }
        ensures published { self.new ≡ published self.old window.now }

        // One that stands for a timeline still does, where the window is the next of it.
        ensures stands { (ws : List Span) → StandsFor ws self.old
            → windows_between self.old.tail window.now.scn ws ≡ window.now ∷ [] → StandsFor ws self.new }
    {
        self.kept.make_room(window);
        self.kept.push(window);
        self.tail = window.scn();
        Ok(())
    }

    /// The SCN of the newest window that it evicted, or 0.
    pub fn floor(&self) -> u64
        ensures value { result ≡ self.now.floor }
        ensures range { result ≤ MAX_SCN }
    {
        self.kept.floor()
    }

    /// The SCN of the newest window that it published, or 0.
    pub fn tail(&self) -> u64
        ensures value { result ≡ self.now.tail }
        ensures range { result ≤ MAX_SCN }
    {
        self.tail
    }

    /// Answers a consumer that asks for what a filter leaves of the windows after `scn`, in at most `max` bytes, and
    /// sends the windows of the answer, if it has any: their accepted events, each window with its end-of-period mark. They
    /// are sent from the ring's own bytes: in one part where the filter leaves all between them, and in two where these go
    /// on at the start of the block. It takes no memory. After a fault the sink has so many bytes of the windows as the
    /// fault tells, which are not all of them; none comes where the sink has room for the windows.
    pub fn serve<F: Accepts, W: Sink>(
        &self,
        scn: u64,
        filter: &F,
        max: u32,
        out: &mut W,
    ) -> Result<Served, WriteFault>
        ensures answer { IfOk result (λ s. IsServed s (answer_of self.now scn (F.test filter.now) max)) }
        ensures range { IfOk result IsInRange }

        // Over each timeline that it stands for, the answer is the one by the rule of a relay.
        ensures rule { IfOk result (λ s. (ws : List Span) → StandsFor ws self.now
            → IsServed s (stream ws self.now.floor self.now.tail scn (F.test filter.now) max)) }
        ensures written { OnOk result (Appends (W.written out.old) (W.written out.new)
            (windows_sent (answer_of self.now scn (F.test filter.now) max))) }
        ensures part { IfErr result (λ fault. Appends (W.written out.old) (W.written out.new)
            (take fault.written (windows_sent (answer_of self.now scn (F.test filter.now) max)))) }
        ensures short { IfErr result (λ fault. fault.written < length (windows_sent (answer_of self.now scn (F.test filter.now) max))) }
        ensures full { OnErr result (IfSome (W.room out.old)
            (λ room. room < length (windows_sent (answer_of self.now scn (F.test filter.now) max)))) }
        ensures room { OnOk result (RoomLeft (W.room out.old) (W.room out.new)
            (length (windows_sent (answer_of self.now scn (F.test filter.now) max)))) }
        ensures risen { OnErr result (W.faults out.old < W.faults out.new) }
        ensures beside { W.beside out.new ≡ W.beside out.old }
        ensures cause { HasCause (W.faults out.old) (W.faults out.new) result }
    {
        if scn < self.kept.floor() {
            return Ok(Served::NotFound(self.kept.floor()));
        }
        if scn >= self.tail {
            return Ok(Served::Empty(self.tail));
        }
        let from = self.kept.place_after(scn);
        serve_from(&self.kept, from, filter, u64::from(max), out)
    }
}

impl fmt::Debug for ByteRing {
    fn fmt<W: fmt::Write>(&self, f: &mut fmt::Formatter<W>) -> fmt::Result {
        f.debug_struct("ByteRing")
            .field("floor", &self.floor())
            .field("tail", &self.tail())
            .finish_non_exhaustive()
    }
}

// Serves what fits of the windows from a place on, where one stands.
fn serve_from<F: Accepts, W: Sink>(
    kept: &Kept,
    from: usize,
    filter: &F,
    max: u64,
    out: &mut W,
) -> Result<Served, WriteFault>
    requires { from < length kept.now.windows }
    ensures range { IfOk result IsInRange }
    ensures answer { IfOk result (λ s. IsServed s (fitting max (cuts (F.test filter.now) (drop from kept.now.windows)))) }
    ensures written { OnOk result (Appends (W.written out.old) (W.written out.new)
        (windows_sent (fitting max (cuts (F.test filter.now) (drop from kept.now.windows))))) }
    ensures part { IfErr result (λ fault. Appends (W.written out.old) (W.written out.new)
        (take fault.written (windows_sent (fitting max (cuts (F.test filter.now) (drop from kept.now.windows)))))) }
    ensures short { IfErr result (λ fault. fault.written < length
        (windows_sent (fitting max (cuts (F.test filter.now) (drop from kept.now.windows))))) }
    ensures full { OnErr result (IfSome (W.room out.old) (λ room. room < length
        (windows_sent (fitting max (cuts (F.test filter.now) (drop from kept.now.windows)))))) }
    ensures room { OnOk result (RoomLeft (W.room out.old) (W.room out.new)
        (length (windows_sent (fitting max (cuts (F.test filter.now) (drop from kept.now.windows)))))) }
    ensures risen { OnErr result (W.faults out.old < W.faults out.new) }
    ensures beside { W.beside out.new ≡ W.beside out.old }
    ensures cause { HasCause (W.faults out.old) (W.faults out.new) result }
{
    let (at, slot) = kept.window(from);
    let run = longest_run(kept, from, filter, max);
    if run.count == 0 {
        return Ok(Served::TooSmall(cut_size(&kept.bytes(), at, slot, filter)));
    }
    let bytes = send_windows(kept, from, run.count, filter, out)?;
    Ok(Served::Windows {
        count: run.count,
        last: run.last,
        bytes,
    })
}
