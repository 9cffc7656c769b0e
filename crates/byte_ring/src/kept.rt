ghost use Rattle.std.specs.Prelude.{◌≡◌, ℕ, ◌+◌, ◌%◌, ◌^◌, ◌≤◌, ◌<◌, ◌++◌, [], ◌∷◌, length, take, drop, slice_get, Some, true, false, IfOk};
ghost use Rattle.bus_types.specs.Window.{IsSpan};
ghost use Rattle.bus_types.specs.Relay.{sizes, has_room};
ghost use Rattle.bus_types.specs.Timeline.{Follows, end_from, windows_between};
ghost use Rattle.event_codec.specs.Streams.{windows_bytes};
ghost use Rattle.byte_ring.specs.Kept.{MakesRoom};
ghost use Rattle.byte_ring.specs.Parts.{WindowAt};

use crate::circle::Circle;
use crate::event::scn_at;
use crate::halves::Halves;
use crate::index::{STRIDE, find, forget, note};
use crate::write::push_window;
use bus_types::{MAX_SCN, NoMemory, Window};
use circular_buffer::HeapCircularBuffer;
use scn_index::ScnIndex;
use std::alloc::Global;
use std::marker::Model;
use std::snapshot::Snapshot;

/// What is kept of a window beside its bytes: where they begin, counted on as `Kept::end` is, how many they are, and how
/// many events they have. Contracts see the window too.
#[derive(Drop)]
pub(crate) struct Slot {
    begin: u32,
    pub size: u32,
    pub count: u32,
    pub window: Snapshot<Window>,
}

/// Windows that follow each other in a circle of bytes, with the index of every sixteenth, and the SCN of the window before
/// them, or 0. Contracts see the room, that SCN and the windows.
#[derive(Drop)]
pub(crate) struct Kept {
    circle: Circle,
    slots: HeapCircularBuffer<Slot>,
    floor: u64,
    // where the bytes end, counted on from the first window ever, in 32 bits
    end: u32,
    // how many windows were evicted
    first: u64,
    index: ScnIndex,
}

impl Model for Kept {
    ghost use Rattle.byte_ring.specs.Kept.{Holds};
    ghost use Rattle.byte_ring.specs.Slots.{windows_of, IsKept};

    ghost Value = { Holds };

    ghost view = { λ k. record {
      room = record { bytes = k.circle.room; windows = k.slots.capacity };
      floor = k.floor;
      windows = windows_of k.slots.items;
    } };

    ghost invariant = { λ k. IsKept k.circle k.slots k.floor k.end k.first k.index };
}

// How many bytes there are from a place to another, both counted on in 32 bits.
fn counted(from: u32, to: u32) -> u32
    ensures { (n : ℕ) → n < 2 ^ 32 → (from + n) % 2 ^ 32 ≡ to → result ≡ n }
{
    to.wrapping_sub(from)
}

impl Kept {
    /// Nothing is kept, behind the floor 0.
    pub fn new(alloc: Global, bytes: u64, windows: u32) -> Result<Kept, NoMemory>
        requires some_bytes { 1048576 ≤ bytes }
        requires few_bytes { bytes ≤ 268435456 }
        requires some_windows { 1 ≤ windows }
        requires few_windows { windows ≤ 65536 }
        ensures { IfOk result (λ k. k ≡ record { room = record { bytes = bytes; windows = windows }; floor = 0; windows = [] }) }
    {
        Ok(Kept {
            circle: Circle::new(alloc, bytes)?,
            slots: HeapCircularBuffer::with_capacity(alloc, windows as usize)?,
            floor: 0,
            end: 0,
            first: 0,
            index: ScnIndex::new(alloc, windows / 16 + 2)?,
        })
    }

    /// The SCN of the window before those that are kept, or 0.
    pub fn floor(&self) -> u64
        ensures value { result ≡ self.now.floor }
        ensures range { result ≤ MAX_SCN }
    {
        self.floor
    }

    // Whether there is room for one more window.
    fn has_room_for(&self, window: &Window) -> bool
        ensures room { result ≡ has_room self.now.room (sizes (self.now.windows ++ window.now ∷ [])) }
        ensures some { result ≡ false → 0 < length self.now.windows }
        ensures fits { IsSpan window.now }
    {
        let size = window.size() as usize;
        self.slots.len() + 1 <= self.slots.capacity()
            && self.circle.len() + size <= self.circle.room()
    }

    // Evicts the oldest window.
    fn evict_oldest(&mut self)
        requires { 0 < length self.old.windows }
        ensures { self.new ≡ record {
          room = self.old.room;
          floor = end_from self.old.floor (take 1 self.old.windows);
          windows = drop 1 self.old.windows;
        } }
    {
        let Some(oldest) = self.slots.pop_front() else {
            unreachable!();
        };
        let size = oldest.size as usize;
        self.floor = self.circle.halves().long(size - 16);
        self.circle.drop_front(size);
        forget(&mut self.index, self.first);
        self.first += 1;
    }

    /// Evicts the fewest oldest windows that leave room for one more.
    pub fn make_room(&mut self, window: &Window)
        ensures room { MakesRoom self.old self.new window.now }
        ensures fits { IsSpan window.now }
    {
        while !self.has_room_for(window) {
            self.evict_oldest();
        }
    }

    /// Appends a window, for which there is room.
    pub fn push(&mut self, window: &Window)
        requires room { has_room self.old.room (sizes (self.old.windows ++ window.now ∷ [])) ≡ true }
        requires follows { Follows (end_from self.old.floor self.old.windows) window.now }
        ensures { self.new ≡ record { room = self.old.room; floor = self.old.floor; windows = self.old.windows ++ window.now ∷ [] } }
    {
        let number = self.first + self.slots.len() as u64;
        note(&mut self.index, window.prev(), number);
        push_window(&mut self.circle, window);
        let (begin, size) = (self.end, window.size() as u32);
        self.end = begin.wrapping_add(size);
        let _none = self.slots.push_back(Slot {
            begin,
            size,
            count: window.changes().len() as u32,
            window: Snapshot::of(window),
        });
    }

    /// How many windows are kept.
    pub fn len(&self) -> usize
        ensures { result ≡ length self.now.windows }
    {
        self.slots.len()
    }

    /// The bytes of the windows, one after the other.
    #[inline(always)]
    pub fn bytes(&self) -> Halves<'_>
        ensures { result ≡ windows_bytes self.now.windows }
    {
        self.circle.halves()
    }

    /// The window at a place in their order: where it begins in the bytes, and its slot.
    pub fn window(&self, i: usize) -> (usize, &Slot)
        requires { i < length self.now.windows }
        ensures window { slice_get self.now.windows i ≡ Some result.1.now.window.value }
        ensures there { WindowAt (windows_bytes self.now.windows) result.0 result.1.now }
    {
        let Some(slot) = self.slots.get(i) else {
            unreachable!();
        };
        let behind = counted(slot.begin, self.end);
        (self.circle.len() - behind as usize, slot)
    }

    /// The SCN of the window at a place in their order.
    pub fn scn(&self, i: usize) -> u64
        requires { i < length self.now.windows }
        ensures end { end_from self.now.floor (take (i + 1) self.now.windows) ≡ result }
        ensures range { result ≤ MAX_SCN }
    {
        let (at, slot) = self.window(i);
        scn_at(&self.circle.halves(), at, slot)
    }

    // Where the newest window stands that the index has and that follows an SCN at or below one, or else 0. The first window
    // after the SCN is one of the sixteen from there on.
    fn noted(&self, scn: u64) -> usize
        requires low { self.now.floor ≤ scn }
        requires high { scn < end_from self.now.floor self.now.windows }
        ensures within { result < length self.now.windows }
        ensures low { end_from self.now.floor (take result self.now.windows) ≤ scn }
        ensures near { result + 16 ≤ length self.now.windows → scn < end_from self.now.floor (take (result + 16) self.now.windows) }
    {
        match find(&self.index, scn) {
            Some((_, number)) => (number - self.first) as usize,
            None => 0,
        }
    }

    /// Where the windows after an SCN begin, of which there is one. It is found by the index and then, among
    /// sixteen windows, by at most four marks.
    pub fn place_after(&self, scn: u64) -> usize
        requires low { self.now.floor ≤ scn }
        requires high { scn < end_from self.now.floor self.now.windows }
        ensures after { drop result self.now.windows
            ≡ windows_between scn (end_from self.now.floor self.now.windows) self.now.windows }
        ensures within { result < length self.now.windows }
    {
        let _within = self.slots.len();
        let mut low = self.noted(scn);
        let mut high = self.len().min(low + STRIDE as usize);
        'halves: while low + 1 < high {
            let middle = low + (high - low) / 2;
            if self.scn(middle - 1) <= scn {
                low = middle;
            } else {
                high = middle;
            }
        }
        low
    }
}
