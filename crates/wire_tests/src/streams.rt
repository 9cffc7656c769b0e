ghost use Rattle.std.specs.Prelude.{List, ℕ, OnOk};
ghost use Rattle.std.specs.Io.KnownBytes.{Appends};

use bus_io::{
    Conn, GrowingSink, MemoryConn, MemorySink, MemorySource, Reading, Sink, Source, Writing,
    write_all,
};
use bus_types::Failed;
use std::test::Fail;

// Writes back what one read gives, at most four bytes: a connection has then given and taken the same.
fn echo<C: Conn>(conn: &mut C) -> Result<(), Failed>
    ensures { OnOk result ((bytes : List ℕ) × Appends (C.given conn.old) (C.given conn.new) bytes
        × Appends (C.written conn.old) (C.written conn.new) bytes) }
{
    let mut piece = [0; 4];
    let Ok(count) = conn.read(&mut piece) else {
        return Err(Failed);
    };
    match write_all(conn, &piece[..count]) {
        Ok(()) => Ok(()),
        Err(_) => Err(Failed),
    }
}

#[test]
fn a_connection_in_memory_is_read_and_written(rt: HostRuntime) -> Result<(), Fail> {
    let from = MemorySource::new(rt.alloc(), b"abcdef", &[1])?;
    let to = MemorySink::new(rt.alloc(), 5, &[])?;
    let mut conn = MemoryConn::new(from, to);
    assert_eq!(rt;
        (echo(&mut conn), echo(&mut conn), echo(&mut conn)),
        (Ok(()), Err(Failed), Err(Failed))
    );
    assert_eq!(rt; conn.written(), b"abcde".as_slice());
    Ok(())
}

#[test]
fn adapters_pass_bytes_on(rt: HostRuntime) -> Result<(), Fail> {
    let mut input = Reading::new(b"abc".as_slice());
    let mut piece = [0; 4];
    assert_eq!(rt;
        (input.read(&mut piece), input.read(&mut piece)),
        (Ok(3), Ok(0))
    );
    let mut room = [0; 2];
    let mut out = Writing::new(room.as_mut_slice());
    assert!(rt; write_all(&mut out, &piece).is_err());
    drop(out);
    assert_eq!(rt; room, *b"ab");
    Ok(())
}

#[test]
fn a_growing_sink_takes_all_behind_what_it_has(rt: HostRuntime) -> Result<(), Fail> {
    let mut sink = GrowingSink::new(Vec::from_slice(rt.alloc(), b"ab")?);
    assert_eq!(rt; sink.write(b"cd"), Ok(2));
    assert_eq!(rt; sink.into_bytes().as_slice(), b"abcd".as_slice());
    Ok(())
}
