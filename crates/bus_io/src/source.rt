ghost use Rattle.std.specs.Prelude.{List, ℕ, Option, ◌≡◌};
ghost use Rattle.std.specs.Io.{ReadsAtMost};
ghost use Rattle.std.specs.Io.KnownBytes.{ReadConsumes};
ghost use Rattle.bus_types.specs.Causes.{HasCause};
ghost use Rattle.bus_io.specs.Bytes.{ReadGives};

use bus_types::Failed;

/// A source of bytes.
pub trait Source {
    /// The bytes that it has left, where it tells them.
    ghost left: { Self → Option (List ℕ) };

    /// The bytes that it gave, in order since it was made, where it tells them.
    ghost given: { Self → Option (List ℕ) };

    /// How often it has failed. It has no greatest value.
    ghost faults: { Self → ℕ };

    /// The type of what stands beside.
    ghost Beside: { Type 0 };

    /// What stands beside what is read, and is as it was after a read: of a connection, what it says of its writes.
    ghost beside: { Self → Beside };

    /// Places bytes at the front of `buf` and answers how many. None, for a buffer that isn't empty, is the end of
    /// the input. After `Failed`, which comes only where the count of faults rose, nothing was taken.
    fn read(&mut self, buf: &mut [u8]) -> Result<usize, Failed>
        ensures bound { ReadsAtMost result buf.new }
        ensures bytes { ReadConsumes (left self.old) (left self.new) result buf.new }
        ensures given { ReadGives (given self.old) (given self.new) result buf.new }
        ensures cause { HasCause (faults self.old) (faults self.new) result }
        ensures beside { beside self.new ≡ beside self.old };
}
