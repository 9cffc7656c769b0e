ghost use Rattle.std.specs.Prelude.{◌≡◌, ◌<◌, ◌↔◌, Some, length, IsErr, IsTrue, IfOk, IfSome, OnErr};
ghost use Rattle.std.specs.Io.{ReadsAtMost, WritesAtMost};
ghost use Rattle.std.specs.Io.KnownBytes.{ReadConsumes, WriteAppends};
ghost use Rattle.std.proofs.Common.{ap};
ghost use Rattle.bus_types.specs.Causes.{HasCause};
ghost use Rattle.bus_io.specs.Bytes.{TakesSome, ReadGives, RoomLeft};
ghost use Rattle.bus_io.specs.Memory.{is_listed, is_refused, sure_room, after_read, after_write};

use crate::conn::Conn;
use crate::memory::{MemorySink, MemorySource};
use crate::sink::Sink;
use crate::source::Source;
use bus_types::Failed;
use std::marker::Model;

/// A connection in memory: it is read from a source and written to a sink in memory, and fails where they do.
#[derive(Debug, Drop)]
pub struct MemoryConn {
    from: MemorySource,
    to: MemorySink,
}

impl Model for MemoryConn {
    ghost use Rattle.bus_io.specs.Memory.{Wire};

    ghost Value = { Wire };

    ghost view = { λ c. record { from = c.from; to = c.to } };
}

impl MemoryConn {
    /// A connection whose peer sends what `from` gives and takes what `to` takes.
    pub fn new(from: MemorySource, to: MemorySink) -> MemoryConn
        ensures { result ≡ record { from = from; to = to } }
    {
        MemoryConn { from, to }
    }

    /// The bytes that were written to it.
    pub fn written(&self) -> &[u8]
        ensures { result.now ≡ self.now.to.bytes }
    {
        self.to.bytes()
    }
}

impl Source for MemoryConn {
    ghost use Rattle.bus_io.specs.Memory.{Writer};

    ghost left = { λ c. Some c.from.left };

    ghost given = { λ c. Some c.from.given };

    ghost faults = { λ c. c.from.faults };

    ghost Beside = { Writer };

    ghost beside = { λ c. c.to };

    /// Reads what `from` gives. `Failed` comes exactly where `from` fails.
    fn read(&mut self, buf: &mut [u8]) -> Result<usize, Failed>
        ensures bound { ReadsAtMost result buf.new }
        ensures bytes { ReadConsumes (Some self.old.from.left) (Some self.new.from.left) result buf.new }
        ensures given { ReadGives (Some self.old.from.given) (Some self.new.from.given) result buf.new }
        ensures cause { HasCause self.old.from.faults self.new.from.faults result }
        ensures beside { self.new.to ≡ self.old.to }
        ensures exact { IsErr result ↔ IsTrue (is_listed self.old.from.fails self.old.from.calls) }
        ensures counted { self.new.from ≡ after_read self.old.from (length buf.old) }
    {
        self.from.read(buf)
    }
}

impl Sink for MemoryConn {
    ghost use Rattle.bus_io.specs.Memory.{Reader};

    ghost written = { λ c. Some c.to.bytes };

    ghost room = { λ c. sure_room c.to };

    ghost faults = { λ c. c.to.faults };

    ghost Beside = { Reader };

    ghost beside = { λ c. c.from };

    /// Writes to `to`. `Failed` comes exactly where `to` fails.
    fn write(&mut self, bytes: &[u8]) -> Result<usize, Failed>
        ensures bound { WritesAtMost result bytes.now }
        ensures some { TakesSome result bytes.now }
        ensures bytes { WriteAppends (Some self.old.to.bytes) (Some self.new.to.bytes) result bytes.now }
        ensures full { OnErr result (IfSome (sure_room self.old.to) (λ n. n < length bytes.now)) }
        ensures room { IfOk result (λ count. RoomLeft (sure_room self.old.to) (sure_room self.new.to) count) }
        ensures cause { HasCause self.old.to.faults self.new.to.faults result }
        ensures beside { self.new.from ≡ self.old.from }
        ensures exact { IsErr result ↔ IsTrue (is_refused self.old.to bytes.now) }
        ensures counted { self.new.to ≡ after_write self.old.to bytes.now }
    {
        self.to.write(bytes)
    }
}

impl Conn for MemoryConn {
    ghost read_leaves = { λ x y same. (ap (λ s. Some s.bytes) same, ap sure_room same, ap (λ s. s.faults) same) };

    ghost write_leaves = { λ x y same. (ap (λ s. Some s.given) same, ap (λ s. Some s.left) same, ap (λ s. s.faults) same) };
}
