use crate::words::{bytes_of, shown};
use bus_io::{MemoryConn, MemorySink, MemorySource};
use bus_types::NoMemory;
use relay_server::ServeEnd;
use std::alloc::Global;
use std::test::Fail;

/// The most bytes that a connection takes.
pub const ROOM: u64 = 65_536;

/// A connection that gives a text and takes so many bytes, whose reads and writes fail at these calls.
pub fn new_conn(
    alloc: Global,
    text: &str,
    room: u64,
    reads: &[u64],
    writes: &[u64],
) -> Result<MemoryConn, NoMemory> {
    let source = source_of(alloc, text, reads)?;
    let sink = MemorySink::new(alloc, room.min(ROOM), writes)?;
    Ok(MemoryConn::new(source, sink))
}

fn source_of(alloc: Global, text: &str, reads: &[u64]) -> Result<MemorySource, NoMemory> {
    let bytes = bytes_of(alloc, text)?;
    MemorySource::new(alloc, &bytes, reads)
}

/// Prints what was written to a connection, and how its serving ended.
pub fn show_end(rt: &HostRuntime, conn: &MemoryConn, end: ServeEnd) -> Result<(), Fail> {
    show_written(rt, conn)?;
    println!(rt; "    {end:?}")?;
    Ok(())
}

fn show_written(rt: &HostRuntime, conn: &MemoryConn) -> Result<(), Fail> {
    let text = shown(rt.alloc(), conn.written())?;
    println!(rt; "    {text}")?;
    Ok(())
}
