ghost use Rattle.std.specs.Prelude.{◌≡◌, ◌+◌, ◌-◌, ◌<◌, ◌≤◌, ◌++◌, length, OnOk, OnErr, IfOk, vec_capacity};
ghost use Rattle.std.specs.Io.{WritesAtMost};
ghost use Rattle.std.specs.Io.KnownBytes.{WriteAppends};
ghost use Rattle.std.specs.Prelude.{Some};
ghost use Rattle.bus_types.specs.Causes.{HasCause};
ghost use Rattle.bus_io.specs.Bytes.{TakesSome};

use crate::memory::append;
use crate::sink::Sink;
use bus_types::{Count, Failed};
use std::marker::Model;

/// A sink in memory that grows as long as there is memory, and fails where its room could not grow. Contracts see the
/// bytes, for how many it has room in all without growing, and the count of faults.
#[derive(Debug, Drop)]
pub struct GrowingSink {
    bytes: Vec<u8>,
    faults: Count,
}

impl Model for GrowingSink {
    ghost use Rattle.std.specs.Prelude.{vec_capacity};
    ghost use Rattle.bus_io.specs.Memory.{Grown};

    ghost Value = { Grown };

    ghost view = { λ s. record { bytes = s.bytes.items; capacity = vec_capacity s.bytes; faults = s.faults } };
}

impl GrowingSink {
    /// A sink to which these bytes were written already, and that has not failed. It takes no memory.
    pub fn new(bytes: Vec<u8>) -> GrowingSink
        ensures { result ≡ record { bytes = bytes.items; capacity = vec_capacity bytes; faults = 0 } }
    {
        GrowingSink {
            bytes,
            faults: Count::zero(),
        }
    }

    /// The bytes that were written to it, with their memory.
    pub fn into_bytes(self) -> Vec<u8>
        ensures bytes { result.items ≡ self.bytes }
        ensures capacity { vec_capacity result ≡ self.capacity }
    {
        let GrowingSink { bytes, faults: _ } = self;
        bytes
    }
}

impl Sink for GrowingSink {
    ghost written = { λ s. Some s.bytes };

    ghost room = { λ s. Some (s.capacity - length s.bytes) };

    ghost faults = { λ s. s.faults };

    ghost Beside = { Unit {0} };

    ghost beside = { λ _. tt };

    /// Takes all of the bytes, or none and `Failed`, which comes only where there was no room for them and it could not
    /// grow.
    fn write(&mut self, bytes: &[u8]) -> Result<usize, Failed>
        ensures bound { WritesAtMost result bytes.now }
        ensures some { TakesSome result bytes.now }
        ensures bytes { WriteAppends (Some self.old.bytes) (Some self.new.bytes) result bytes.now }
        ensures full { OnErr result (self.old.capacity - length self.old.bytes < length bytes.now) }
        ensures room { IfOk result (λ count. self.old.capacity - length self.old.bytes ≤ self.new.capacity - length self.new.bytes + count) }
        ensures cause { HasCause self.old.faults self.new.faults result }
        ensures all { IfOk result (λ count. count ≡ length bytes.now) }
        ensures taken { OnOk result (self.new.bytes ≡ self.old.bytes ++ bytes.now) }
        ensures grown { OnOk result (self.old.capacity ≤ self.new.capacity) }
        ensures faultless { OnOk result (self.new.faults ≡ self.old.faults) }
        ensures failed { OnErr result (self.new ≡ record self.old { faults = self.old.faults + 1 }) }
        ensures lacking { OnErr result (self.old.capacity < length self.old.bytes + length bytes.now) }
    {
        match self.bytes.reserve(bytes.len()) {
            Ok(()) => {
                append(&mut self.bytes, bytes);
                Ok(bytes.len())
            }
            Err(_) => {
                self.faults.raise();
                Err(Failed)
            }
        }
    }
}
