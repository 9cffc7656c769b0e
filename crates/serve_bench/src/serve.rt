use crate::fault::Fault;
use bus_types::NoMemory;
use byte_ring::ByteRing;
use generated_windows::gen_window;
use partition_filter::Filter;
use relay_core::{Served, relay_answer};
use std::alloc::Global;

/// The SCN behind which no window is made.
const LAST: u64 = 1 << 62;

/// The most bytes of a reply.
pub(crate) const MOST: u32 = 16_777_216;

/// The seed of the windows.
const SEED: u32 = 7;

/// Publishes so many generated windows.
pub(crate) fn publish(
    alloc: Global,
    ring: &mut ByteRing,
    state: &mut u32,
    count: u64,
) -> Result<(), NoMemory> {
    for _i in 0..count {
        let last = ring.tail();
        if last > LAST {
            return Ok(());
        }
        let window = gen_window(alloc, state, last)?;
        ring.publish(alloc, &window)?;
    }
    Ok(())
}

/// A ring with room for 65,536 windows, and none in it.
pub(crate) fn empty(alloc: Global) -> Result<ByteRing, NoMemory> {
    ByteRing::new(alloc, 16_777_216, 65_536)
}

/// A ring with so many generated windows.
pub(crate) fn filled(alloc: Global, count: u64) -> Result<ByteRing, Fault> {
    let mut ring = empty(alloc)?;
    let mut state = SEED;
    publish(alloc, &mut ring, &mut state, count)?;
    Ok(ring)
}

/// Serves all windows that a ring keeps, so many times over: how many windows and bytes were served.
pub(crate) fn serve(
    alloc: Global,
    ring: &ByteRing,
    filter: &Filter,
    rounds: u64,
) -> Result<(u64, u64), Fault> {
    let mut reply = Vec::with_capacity(alloc, 1 << 20)?;
    let mut served: u64 = 0;
    let mut sent: u64 = 0;
    for _i in 0..rounds {
        let mut scn = ring.floor();
        let tail = ring.tail();
        for _j in 0..tail {
            reply.clear();
            let Served::Windows { count, last, bytes } = relay_answer(
                alloc, ring, scn, filter, MOST, &mut reply,
            )?
            else {
                break;
            };
            served = served.wrapping_add(u64::from(count));
            sent = sent.wrapping_add(bytes);
            scn = last;
        }
    }
    Ok((served, sent))
}

/// The replies in which a ring serves all windows that it keeps.
pub(crate) fn replies(
    alloc: Global,
    ring: &ByteRing,
    filter: &Filter,
) -> Result<Vec<Vec<u8>>, Fault> {
    let mut replies = Vec::new(alloc);
    let mut scn = ring.floor();
    for _i in 0..ring.tail() {
        let mut reply = Vec::new(alloc);
        let Served::Windows { last, .. } = relay_answer(alloc, ring, scn, filter, MOST, &mut reply)?
        else {
            break;
        };
        replies.push(reply)?;
        scn = last;
    }
    Ok(replies)
}

/// Copies the same bytes, so many times over: how many they are.
pub(crate) fn copy(alloc: Global, replies: &[Vec<u8>], rounds: u64) -> Result<u64, Fault> {
    let mut reply = Vec::with_capacity(alloc, 1 << 20)?;
    let mut copied: u64 = 0;
    for _i in 0..rounds {
        for bytes in replies {
            reply.clear();
            reply.extend_from_slice(bytes)?;
            copied = copied.wrapping_add(reply.len() as u64);
        }
    }
    Ok(copied)
}
