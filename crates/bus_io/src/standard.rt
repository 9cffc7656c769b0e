ghost use Rattle.std.specs.Prelude.{◌≡◌, None};

use crate::sink::Sink;
use crate::source::Source;
use bus_types::{Count, Failed};
use std::io::{Read, Write};
use std::marker::Model;

/// A reader, as a source that counts how often it failed. It tells of its bytes what the reader tells: of a file or
/// of the standard input, nothing.
#[derive(Drop)]
pub struct Reading<R> {
    reader: R,
    faults: Count,
}

impl<R> Model for Reading<R> {
    ghost use Rattle.bus_io.specs.Counted.{Counted};

    ghost Value = { Counted R };

    ghost view = { λ r. record { inner = r.reader; faults = r.faults } };
}

impl<R: Read> Reading<R> {
    /// A source over this reader, which has not failed yet.
    pub fn new(reader: R) -> Reading<R>
        ensures { result ≡ record { inner = reader; faults = 0 } }
    {
        Reading {
            reader,
            faults: Count::zero(),
        }
    }
}

impl<R: Read> Source for Reading<R> {
    ghost left = { λ r. R.remaining r.inner };

    ghost given = { λ _. None };

    ghost faults = { λ r. r.faults };

    ghost Beside = { Unit {0} };

    ghost beside = { λ _. tt };

    fn read(&mut self, buf: &mut [u8]) -> Result<usize, Failed> {
        let Ok(count) = self.reader.read(buf) else {
            self.faults.raise();
            return Err(Failed);
        };
        Ok(count)
    }
}

/// A writer, as a sink that counts how often it failed. It tells of its bytes what the writer tells: of a file or of
/// the standard output, nothing. The writer is one that holds nothing back, as the standard output: it is not flushed.
#[derive(Drop)]
pub struct Writing<W> {
    writer: W,
    faults: Count,
}

impl<W> Model for Writing<W> {
    ghost use Rattle.bus_io.specs.Counted.{Counted};

    ghost Value = { Counted W };

    ghost view = { λ w. record { inner = w.writer; faults = w.faults } };
}

impl<W: Write> Writing<W> {
    /// A sink over this writer, which has not failed yet.
    pub fn new(writer: W) -> Writing<W>
        ensures { result ≡ record { inner = writer; faults = 0 } }
    {
        Writing {
            writer,
            faults: Count::zero(),
        }
    }
}

impl<W: Write> Sink for Writing<W> {
    ghost written = { λ w. W.contents w.inner };

    ghost room = { λ _. None };

    ghost faults = { λ w. w.faults };

    ghost Beside = { Unit {0} };

    ghost beside = { λ _. tt };

    /// A writer that takes none of some bytes has failed.
    fn write(&mut self, bytes: &[u8]) -> Result<usize, Failed> {
        match self.writer.write(bytes) {
            Ok(count) if count > 0 || bytes.is_empty() => Ok(count),
            _ => {
                self.faults.raise();
                Err(Failed)
            }
        }
    }
}
