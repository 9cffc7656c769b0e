ghost use Rattle.std.specs.Prelude.{◌≡◌, ◌<◌, ◌≤◌, List, length, take, IfOk, IfErr, IfSome, OnOk, OnErr};
ghost use Rattle.std.specs.Io.KnownBytes.{Appends};
ghost use Rattle.bus_io.specs.Bytes.{RoomLeft};
ghost use Rattle.bus_types.specs.Causes.{HasCause};
ghost use Rattle.bus_types.specs.Relay.{Relay, new_relay, published, answer_of, stream, StandsFor};
ghost use Rattle.bus_types.specs.Window.{Span};
ghost use Rattle.bus_types.specs.declared.limits.TheConstants.{MAX_SCN};
ghost use Rattle.event_codec.specs.Reply.{IsServed, IsInRange, windows_sent};
ghost use Rattle.partition_filter.specs.Selection.{test_of};

use bus_io::{Sink, WriteFault};
use bus_types::{NoMemory, Window};
use event_codec::Served;
use partition_filter::Filter;
use plain_buffer::PlainBuffer;
use std::alloc::Global;

/// A bounded buffer of the newest windows, which evicts the fewest oldest ones that make a new one fit.
pub trait Buffer: Sized {
    /// What it is as a relay.
    ghost relay: { Self → Relay };

    /// A buffer that holds at most so many bytes of windows and so many windows, and has none.
    fn new(alloc: Global, bytes: u64, windows: u32) -> Result<Self, NoMemory>
        requires least_bytes { 1048576 ≤ bytes }
        requires most_bytes { bytes ≤ 268435456 }
        requires least_windows { 1 ≤ windows }
        requires most_windows { windows ≤ 65536 }
        ensures { IfOk result (λ buffer. relay buffer ≡ new_relay (record { bytes = bytes; windows = windows })) };

    /// Publishes the window that follows the newest one. After want of memory the buffer is as before.
    fn publish(&mut self, alloc: Global, window: &Window) -> Result<(), NoMemory>
        requires chained { window.now.prev ≡ (relay self.old).tail }
        requires full { 0 < length window.now.changes }
        ensures ok { OnOk result (relay self.new ≡ published (relay self.old) window.now) }
        ensures err { OnErr result (relay self.new ≡ relay self.old) };

    /// The SCN of the newest window that it has evicted, or 0.
    fn floor(&self) -> u64
        ensures value { result ≡ (relay self.now).floor }
        ensures range { result ≤ MAX_SCN };

    /// The SCN of the newest window that was published, or 0.
    fn tail(&self) -> u64
        ensures value { result ≡ (relay self.now).tail }
        ensures range { result ≤ MAX_SCN };

    /// Writes the windows after an SCN that a filter leaves, as many as fit in `max` bytes and at most 32, or nothing, and
    /// says which answer of the relay it is. It takes no memory. After a fault a front of the bytes was written that is not
    /// all of them, so there is no fault where nothing was to be written, nor where the sink has room for the windows.
    fn serve<W: Sink>(
        &self,
        scn: u64,
        filter: &Filter,
        max: u32,
        out: &mut W,
    ) -> Result<Served, WriteFault>
        ensures answer { IfOk result (λ served. IsServed served (answer_of (relay self.now) scn (test_of filter.now) max)) }
        ensures small { IfOk result IsInRange }

        // Over each timeline that it stands for, the answer is the one by the rule of a relay.
        ensures rule { IfOk result (λ served. (ws : List Span) → StandsFor ws (relay self.now)
            → IsServed served (stream ws (relay self.now).floor (relay self.now).tail scn (test_of filter.now) max)) }
        ensures written { OnOk result (Appends (W.written out.old) (W.written out.new)
            (windows_sent (answer_of (relay self.now) scn (test_of filter.now) max))) }
        ensures part { IfErr result (λ fault. Appends (W.written out.old) (W.written out.new)
            (take fault.written (windows_sent (answer_of (relay self.now) scn (test_of filter.now) max)))) }
        ensures short { IfErr result (λ fault. fault.written < length (windows_sent (answer_of (relay self.now) scn (test_of filter.now) max))) }
        ensures full { OnErr result (IfSome (W.room out.old)
            (λ room. room < length (windows_sent (answer_of (relay self.now) scn (test_of filter.now) max)))) }
        ensures room { OnOk result (RoomLeft (W.room out.old) (W.room out.new)
            (length (windows_sent (answer_of (relay self.now) scn (test_of filter.now) max)))) }
        ensures risen { OnErr result (W.faults out.old < W.faults out.new) }
        ensures beside { W.beside out.new ≡ W.beside out.old }
        ensures cause { HasCause (W.faults out.old) (W.faults out.new) result };
}

impl Buffer for PlainBuffer {
    ghost relay = { λ b. b };

    fn new(alloc: Global, bytes: u64, windows: u32) -> Result<PlainBuffer, NoMemory> {
        PlainBuffer::new(alloc, bytes, windows)
    }

    fn publish(&mut self, alloc: Global, window: &Window) -> Result<(), NoMemory> {
        PlainBuffer::publish(self, alloc, window)
    }

    fn floor(&self) -> u64 {
        PlainBuffer::floor(self)
    }

    fn tail(&self) -> u64 {
        PlainBuffer::tail(self)
    }

    fn serve<W: Sink>(
        &self,
        scn: u64,
        filter: &Filter,
        max: u32,
        out: &mut W,
    ) -> Result<Served, WriteFault> {
        PlainBuffer::serve(self, scn, filter, max, out)
    }
}
