ghost use Rattle.std.specs.Prelude.{◌≡◌, ◌+◌, ◌≤◌, ◌++◌, [], length, drop, IfOk};

use crate::halves::Halves;
use bus_types::NoMemory;
use circular_buffer::HeapCircularBuffer;
use std::alloc::Global;
use std::marker::Model;

/// Bytes in one block, which begin anywhere in it and go on at its start. Contracts see the bytes, and how many there may
/// be.
#[derive(Drop)]
pub(crate) struct Circle {
    bytes: HeapCircularBuffer<u8>,
}

impl Model for Circle {
    ghost use Rattle.byte_ring.specs.Kept.{Bytes};

    ghost Value = { Bytes };

    ghost view = { λ c. record { bytes = c.bytes.items; room = c.bytes.capacity } };
}

impl Circle {
    /// A circle for so many bytes, which has none.
    pub fn new(alloc: Global, room: u64) -> Result<Circle, NoMemory>
        ensures { IfOk result (λ c. c ≡ record { bytes = []; room = room }) }
    {
        Ok(Circle {
            bytes: HeapCircularBuffer::with_capacity(alloc, room as usize)?,
        })
    }

    /// How many bytes it may have.
    pub fn room(&self) -> usize
        ensures { result ≡ self.now.room }
    {
        self.bytes.capacity()
    }

    /// How many bytes it has.
    pub fn len(&self) -> usize
        ensures { result ≡ length self.now.bytes }
    {
        self.bytes.len()
    }

    /// Appends bytes, for which there is room.
    pub fn push(&mut self, part: &[u8])
        requires { length self.old.bytes + length part.now ≤ self.old.room }
        ensures { self.new ≡ record { bytes = self.old.bytes ++ part.now; room = self.old.room } }
    {
        let _count = self.bytes.fill_from_slice(part);
    }

    /// Drops so many bytes at the front.
    pub fn drop_front(&mut self, count: usize)
        requires { count ≤ length self.old.bytes }
        ensures { self.new ≡ record { bytes = drop count self.old.bytes; room = self.old.room } }
    {
        self.bytes.truncate_front(self.bytes.len() - count);
    }

    /// All of them, where they stand.
    #[inline(always)]
    pub fn halves(&self) -> Halves<'_>
        ensures { result ≡ self.now.bytes }
    {
        let (front, back) = self.bytes.as_slices();
        Halves::new(front, back)
    }
}
