use crate::ring::ByteRing;
use bus_io::{Sink, WriteFault};
use bus_types::{NoMemory, Window};
use event_codec::Served;
use partition_filter::Filter;
use relay_core::Buffer;
use std::alloc::Global;

impl Buffer for ByteRing {
    ghost relay = { λ b. b };

    fn new(alloc: Global, bytes: u64, windows: u32) -> Result<ByteRing, NoMemory> {
        ByteRing::new(alloc, bytes, windows)
    }

    fn publish(&mut self, alloc: Global, window: &Window) -> Result<(), NoMemory> {
        ByteRing::publish(self, alloc, window)
    }

    fn floor(&self) -> u64 {
        ByteRing::floor(self)
    }

    fn tail(&self) -> u64 {
        ByteRing::tail(self)
    }

    fn serve<W: Sink>(
        &self,
        scn: u64,
        filter: &Filter,
        max: u32,
        out: &mut W,
    ) -> Result<Served, WriteFault> {
        ByteRing::serve(self, scn, filter, max, out)
    }
}
