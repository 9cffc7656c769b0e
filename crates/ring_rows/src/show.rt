use bus_io::{MemorySink, WriteFault};
use bus_types::fnv1a;
use partition_filter::Filter;
use relay_core::{Buffer, Served};
use std::io;
use std::test::Fail;

/// The most parts that a reply of the program goes out in.
const MOST_PARTS: u64 = 8;

/// The most replies that are asked for in turn.
const MOST_REPLIES: u32 = 1_000;

/// Room for the bytes of a reply of 32 generated windows, each of at most 365 bytes.
const REPLY_ROOM: u64 = 16_384;

/// Prints the buffer's floor and tail.
pub fn show_numbers<B: Buffer>(rt: &HostRuntime, buffer: &B) -> Result<(), Fail> {
    println!(rt; "  numbers {} {}", buffer.floor(), buffer.tail())?;
    Ok(())
}

/// Prints what is served, with the number and the hash of its bytes.
pub fn show_answer<B: Buffer>(
    rt: &HostRuntime,
    buffer: &B,
    scn: u64,
    filter: &str,
    max: u32,
) -> Result<(), Fail> {
    print!(rt; "  at {scn}, {filter} in {max}: ")?;
    let filter = Filter::read(rt.alloc(), filter)?;
    show_reply(rt, buffer, scn, &filter, max)
}

fn show_reply<B: Buffer>(
    rt: &HostRuntime,
    buffer: &B,
    scn: u64,
    filter: &Filter,
    max: u32,
) -> Result<(), Fail> {
    let mut sink = MemorySink::new(rt.alloc(), u64::from(max), &[])?;
    let served = buffer.serve(scn, filter, max, &mut sink);
    show_bytes(rt, &served, sink.bytes())
}

fn show_bytes(
    rt: &HostRuntime,
    served: &Result<Served, WriteFault>,
    bytes: &[u8],
) -> Result<(), Fail> {
    println!(rt; "{served:?}, {} bytes, hash {}", bytes.len(), fnv1a(bytes))?;
    Ok(())
}

/// Prints the bytes that went out before the sink's first call, its second and so on, where this one failed, up to that
/// which a reply needs no more.
pub fn show_faults<B: Buffer>(
    rt: &HostRuntime,
    buffer: &B,
    scn: u64,
    filter: &str,
    max: u32,
) -> Result<(), Fail> {
    let filter = Filter::read(rt.alloc(), filter)?;
    for call in 0..MOST_PARTS {
        if show_part(rt, buffer, scn, &filter, max, call)? {
            return Ok(());
        }
    }
    show_more(rt, "parts", MOST_PARTS)
}

// Prints how far a reply gets whose sink fails at a call, and answers whether it needs that call no more.
fn show_part<B: Buffer>(
    rt: &HostRuntime,
    buffer: &B,
    scn: u64,
    filter: &Filter,
    max: u32,
    call: u64,
) -> Result<bool, Fail> {
    let mut sink = MemorySink::new(rt.alloc(), u64::from(max), &[call])?;
    let served = buffer.serve(scn, filter, max, &mut sink);
    show_stop(rt, call, &served)?;
    Ok(served.is_ok())
}

fn show_stop(rt: &HostRuntime, call: u64, served: &Result<Served, WriteFault>) -> io::Result<()> {
    match served {
        Err(WriteFault { written }) => println!(rt; "  part {call} begins at {written}"),
        Ok(served) => println!(rt; "  {call} parts: {served:?}"),
    }
}

fn show_more(rt: &HostRuntime, what: &str, most: u64) -> Result<(), Fail> {
    println!(rt; "  more {what} than {most}")?;
    Ok(())
}

/// Prints how many replies of as many windows as there may be it takes from before the first window on, the last of them, and
/// the number and the hash of their bytes.
pub fn show_all<B: Buffer>(rt: &HostRuntime, buffer: &B, filter: &str) -> Result<(), Fail> {
    let filter = Filter::read(rt.alloc(), filter)?;
    let mut bytes = Vec::new(rt.alloc());
    show_replies(rt, buffer, &filter, &mut bytes)
}

fn show_replies<B: Buffer>(
    rt: &HostRuntime,
    buffer: &B,
    filter: &Filter,
    bytes: &mut Vec<u8>,
) -> Result<(), Fail> {
    let mut scn = 0;
    for replies in 0..MOST_REPLIES {
        let served = next_reply(rt, buffer, scn, filter, bytes)?;
        let Ok(Served::Windows { last, .. }) = served else {
            return show_end(rt, replies, scn, bytes, &served);
        };
        scn = last;
    }
    show_more(rt, "replies", u64::from(MOST_REPLIES))
}

// Adds the bytes of a reply.
fn next_reply<B: Buffer>(
    rt: &HostRuntime,
    buffer: &B,
    scn: u64,
    filter: &Filter,
    bytes: &mut Vec<u8>,
) -> Result<Result<Served, WriteFault>, Fail> {
    let mut sink = MemorySink::new(rt.alloc(), REPLY_ROOM, &[])?;
    let served = buffer.serve(scn, filter, 16_777_216, &mut sink);
    bytes.extend_from_slice(sink.bytes())?;
    Ok(served)
}

fn show_end(
    rt: &HostRuntime,
    replies: u32,
    scn: u64,
    bytes: &[u8],
    served: &Result<Served, WriteFault>,
) -> Result<(), Fail> {
    println!(rt;
        "  {replies} replies up to {scn}, {} bytes, hash {}, then {served:?}",
        bytes.len(),
        fnv1a(bytes)
    )?;
    Ok(())
}
