use crate::fault::Fault;
use crate::serve::{MOST, empty, publish};
use bus_stores::MemoryKeeper;
use bus_wire::Ask;
use byte_ring::ByteRing;
use client_switch::Client;
use dispatcher::NoCallbacks;
use partition_filter::Filter;
use relay_core::relay_answer;
use std::alloc::Global;

/// The most windows of a reply.
const RUN: u64 = 32;

// One poll of a client that follows a ring.
fn poll_once(
    alloc: Global,
    ring: &ByteRing,
    client: &mut Client,
    keeper: &mut MemoryKeeper,
) -> Result<(), Fault> {
    let ask = client.ask(alloc, MOST)?;
    let mut reply = Vec::with_capacity(alloc, 1_024)?;
    if let Ask::Stream { scn, filter, max } = &ask {
        relay_answer(alloc, ring, *scn, filter, *max, &mut reply)?;
    }
    client.take(alloc, &ask, &reply, keeper, &mut NoCallbacks)?;
    Ok(())
}

/// Publishes so many windows, 32 at a time, each followed by a poll of a consumer: how many windows.
pub(crate) fn poll(alloc: Global, count: u64, filter: Filter) -> Result<u64, Fault> {
    let mut ring = empty(alloc)?;
    let mut keeper = MemoryKeeper::new(alloc, &[])?;
    let mut client = Client::open(alloc, &mut keeper, filter)?;
    let mut state = 7;
    let polls = count / RUN;
    for _i in 0..polls {
        publish(alloc, &mut ring, &mut state, RUN)?;
        poll_once(alloc, &ring, &mut client, &mut keeper)?;
    }
    Ok(polls.wrapping_mul(RUN))
}
