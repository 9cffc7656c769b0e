ghost use Rattle.std.specs.Prelude.{◌≡◌, [], IsOk, IfOk};
ghost use Rattle.std.specs.Io.Buffered.{writer_inner, writer_buffer, writer_capacity};

use std::alloc::Global;
use std::io;
use std::io::{BufWriter, Read, Write};

/// How many bytes are gathered at most before they are sent.
const ROOM: usize = 16_384;

/// A stream that gathers what is written, up to 16,384 bytes, so that many small writes are sent at once. What is gathered is
/// sent where a write doesn't fit behind it, before the stream is read from, and when the stream is closed. A write of as many
/// bytes as it may gather, or more, is sent from where it stands.
#[derive(Drop)]
pub struct Gathering<S: Read + Write + Drop> {
    stream: BufWriter<S>,
}

impl<S: Read + Write + Drop> Gathering<S> {
    // Gathers what is written to this stream. Where there is no memory for that the stream is closed.
    pub(crate) fn new(alloc: Global, stream: S) -> io::Result<Gathering<S>>
        ensures over { IfOk result (λ g. writer_inner g.stream ≡ stream) }
        ensures empty { IfOk result (λ g. writer_buffer g.stream ≡ []) }
        ensures room { IfOk result (λ g. writer_capacity g.stream ≡ 16384) }
    {
        let stream = BufWriter::with_capacity(alloc, ROOM, stream)?;
        Ok(Gathering { stream })
    }

    // Sends what is written to this stream at once.
    pub(crate) fn nothing(alloc: Global, stream: S) -> io::Result<Gathering<S>>
        ensures over { IfOk result (λ g. writer_inner g.stream ≡ stream) }
        ensures empty { IfOk result (λ g. writer_buffer g.stream ≡ []) }
        ensures room { IfOk result (λ g. writer_capacity g.stream ≡ 0) }
        ensures made { IsOk result }
    {
        let stream = BufWriter::with_capacity(alloc, 0, stream)?;
        Ok(Gathering { stream })
    }
}

impl<S: Read + Write + Drop> Read for Gathering<S> {
    /// Sends what is gathered, and reads then. After a failure to send nothing was read.
    fn read(&mut self, buf: &mut [u8]) -> io::Result<usize> {
        self.stream.flush()?;
        self.stream.get_mut().read(buf)
    }
}

impl<S: Read + Write + Drop> Write for Gathering<S> {
    ghost use Rattle.std.specs.Io.Buffered.{writer_contents};

    // What the stream has, and then what is gathered.
    ghost contents = { λ g. writer_contents S.contents g.stream };

    fn write(&mut self, bytes: &[u8]) -> io::Result<usize> {
        self.stream.write(bytes)
    }

    fn flush(&mut self) -> io::Result<()> {
        self.stream.flush()
    }
}
