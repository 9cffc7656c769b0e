ghost use Rattle.std.specs.Prelude.{◌≡◌, ℕ, refl, None};
ghost use Rattle.std.specs.Io.{ReadsAtMost, WritesAtMost};
ghost use Rattle.std.specs.Io.KnownBytes.{ReadConsumes, WriteAppends};
ghost use Rattle.bus_types.specs.Causes.{HasCause};
ghost use Rattle.bus_io.specs.Bytes.{TakesSome};

use crate::conn::Conn;
use crate::sink::Sink;
use crate::source::Source;
use bus_types::{Count, Failed};
use std::io::{Read, Write};
use std::marker::Model;

/// A stream that is read and written, as a connection that counts how often its reads and its writes failed. What the
/// stream tells of its bytes, the clauses of `read` and `write` here tell; as a connection it tells nothing, since no
/// stream need say that a read leaves what was written. The stream holds nothing back, as a TCP stream: it is not flushed.
#[derive(Drop)]
pub struct Streaming<T> {
    stream: T,
    read_faults: Count,
    write_faults: Count,
}

impl<T> Model for Streaming<T> {
    ghost use Rattle.bus_io.specs.Counted.{Streamed};

    ghost Value = { Streamed T };

    ghost view = { λ s. record { inner = s.stream; read_faults = s.read_faults; write_faults = s.write_faults } };
}

impl<T: Read + Write> Streaming<T> {
    /// A connection over this stream, which has not failed yet.
    pub fn new(stream: T) -> Streaming<T>
        ensures { result ≡ record { inner = stream; read_faults = 0; write_faults = 0 } }
    {
        Streaming {
            stream,
            read_faults: Count::zero(),
            write_faults: Count::zero(),
        }
    }
}

impl<T: Read + Write> Source for Streaming<T> {
    ghost left = { λ _. None };

    ghost given = { λ _. None };

    ghost faults = { λ s. s.read_faults };

    ghost Beside = { ℕ };

    ghost beside = { λ s. s.write_faults };

    /// Consumes what the stream has left, where it tells that.
    fn read(&mut self, buf: &mut [u8]) -> Result<usize, Failed>
        ensures bound { ReadsAtMost result buf.new }
        ensures cause { HasCause self.old.read_faults self.new.read_faults result }
        ensures beside { self.new.write_faults ≡ self.old.write_faults }
        ensures stream { ReadConsumes (T.remaining self.old.inner) (T.remaining self.new.inner) result buf.new }
    {
        let Ok(count) = self.stream.read(buf) else {
            self.read_faults.raise();
            return Err(Failed);
        };
        Ok(count)
    }
}

impl<T: Read + Write> Sink for Streaming<T> {
    ghost written = { λ _. None };

    ghost room = { λ _. None };

    ghost faults = { λ s. s.write_faults };

    ghost Beside = { ℕ };

    ghost beside = { λ s. s.read_faults };

    /// Appends to what the stream contains, where it tells that. A stream that takes none of some bytes has failed.
    fn write(&mut self, bytes: &[u8]) -> Result<usize, Failed>
        ensures bound { WritesAtMost result bytes.now }
        ensures some { TakesSome result bytes.now }
        ensures cause { HasCause self.old.write_faults self.new.write_faults result }
        ensures beside { self.new.read_faults ≡ self.old.read_faults }
        ensures stream { WriteAppends (T.contents self.old.inner) (T.contents self.new.inner) result bytes.now }
    {
        match self.stream.write(bytes) {
            Ok(count) if count > 0 || bytes.is_empty() => Ok(count),
            _ => {
                self.write_faults.raise();
                Err(Failed)
            }
        }
    }
}

impl<T: Read + Write> Conn for Streaming<T> {
    ghost read_leaves = { λ x y same. (refl, refl, same) };

    ghost write_leaves = { λ x y same. (refl, refl, same) };
}
