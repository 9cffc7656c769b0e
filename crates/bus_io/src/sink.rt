ghost use Rattle.std.specs.Prelude.{List, ℕ, Option, ◌≡◌, ◌<◌, length, IfOk, IfSome, OnErr};
ghost use Rattle.std.specs.Io.{WritesAtMost};
ghost use Rattle.std.specs.Io.KnownBytes.{WriteAppends};
ghost use Rattle.bus_types.specs.Causes.{HasCause};
ghost use Rattle.bus_io.specs.Bytes.{TakesSome, RoomLeft};

use bus_types::Failed;

/// A sink of bytes.
pub trait Sink {
    /// The bytes that were written to it, where it tells them.
    ghost written: { Self → Option (List ℕ) };

    /// For how many bytes more it has room for certain, where it tells that.
    ghost room: { Self → Option ℕ };

    /// How often it has failed. It has no greatest value.
    ghost faults: { Self → ℕ };

    /// The type of what stands beside.
    ghost Beside: { Type 0 };

    /// What stands beside what is written, and is as it was after a write: of a connection, what it says of its reads.
    ghost beside: { Self → Beside };

    /// Takes a front of `bytes` and answers how many: at least one where there is one. After `Failed`, which comes
    /// only where the count of faults rose, and not where there is room for the bytes, nothing was taken.
    fn write(&mut self, bytes: &[u8]) -> Result<usize, Failed>
        ensures bound { WritesAtMost result bytes.now }
        ensures some { TakesSome result bytes.now }
        ensures bytes { WriteAppends (written self.old) (written self.new) result bytes.now }
        ensures full { OnErr result (IfSome (room self.old) (λ n. n < length bytes.now)) }
        ensures room { IfOk result (λ count. RoomLeft (room self.old) (room self.new) count) }
        ensures cause { HasCause (faults self.old) (faults self.new) result }
        ensures beside { beside self.new ≡ beside self.old };
}
