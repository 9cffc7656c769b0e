ghost use Rattle.std.specs.Prelude.{◌≡◌, ◌+◌, ◌≤◌, ◌<◌, ◌^◌, ◌++◌, [], ◌∷◌, length, take, drop, OnOk, OnErr};
ghost use Rattle.bus_types.specs.Window.{span_size, IsSpan};
ghost use Rattle.bus_types.specs.Relay.{sizes, has_room};
ghost use Rattle.bus_types.specs.Timeline.{IsTimelineFrom, end_from, total_size, windows_between};
ghost use Rattle.plain_buffer.specs.Buffer.{Evicts};

use bus_types::{NoMemory, Window};
use std::alloc::Global;
use std::collections::VecDeque;

/// Windows that follow each other, the bytes that they take, and the SCN of the window before them, or 0.
#[derive(Debug, Drop)]
pub(crate) struct Kept {
    pub windows: VecDeque<Window>,
    pub size: u64,
    pub floor: u64,
}

impl Kept {
    /// Nothing is kept, behind the floor 0.
    pub fn new(alloc: Global) -> Kept
        ensures windows { result.windows.items ≡ [] }
        ensures size { result.size ≡ 0 }
        ensures floor { result.floor ≡ 0 }
    {
        Kept {
            windows: VecDeque::new(alloc),
            size: 0,
            floor: 0,
        }
    }

    /// Appends an equal window. After want of memory all is as before.
    pub fn push(&mut self, alloc: Global, window: &Window) -> Result<(), NoMemory>
        requires { self.old.size < 2 ^ 32 }
        ensures ok { OnOk result (self.new.windows.items ≡ self.old.windows.items ++ window.now ∷ []) }
        ensures size { OnOk result (self.new.size ≡ self.old.size + span_size window.now) }
        ensures err { OnErr result (self.new.windows.items ≡ self.old.windows.items) }
        ensures same { OnErr result (self.new.size ≡ self.old.size) }
        ensures floor { self.new.floor ≡ self.old.floor }
        ensures fits { IsSpan window.now }
    {
        let size = window.size();
        self.windows.push_back(window.copy(alloc)?)?;
        self.size += size;
        Ok(())
    }

    /// Evicts the fewest oldest windows that leave room for the rest.
    pub fn evict(&mut self, bytes: u64, windows: u32)
        requires { self.old.size ≡ total_size self.old.windows.items }
        ensures { Evicts (record { bytes = bytes; windows = windows }) self.old.floor self.old.windows.items self.new.windows.items self.new.size self.new.floor }
    {
        while !self.has_room(bytes, windows) {
            self.evict_oldest();
        }
    }

    // Whether there is room for the windows.
    fn has_room(&self, bytes: u64, windows: u32) -> bool
        requires { self.now.size ≡ total_size self.now.windows.items }
        ensures { result ≡ has_room (record { bytes = bytes; windows = windows }) (sizes self.now.windows.items) }
    {
        self.windows.len() <= windows as usize && self.size <= bytes
    }

    // Evicts the oldest window.
    fn evict_oldest(&mut self)
        requires some { 0 < length self.old.windows.items }
        requires size { self.old.size ≡ total_size self.old.windows.items }
        ensures windows { self.new.windows.items ≡ drop 1 self.old.windows.items }
        ensures floor { self.new.floor ≡ end_from self.old.floor (take 1 self.old.windows.items) }
        ensures size { self.new.size ≡ total_size self.new.windows.items }
    {
        if let Some(oldest) = self.windows.pop_front() {
            self.size -= oldest.size();
            self.floor = oldest.scn();
        }
    }

    /// Where the windows after an SCN begin.
    pub fn place_after(&self, scn: u64) -> usize
        requires { IsTimelineFrom self.now.floor self.now.windows.items }
        ensures after { drop result self.now.windows.items
            ≡ windows_between scn (end_from self.now.floor self.now.windows.items) self.now.windows.items }
        ensures within { self.now.floor ≤ scn → scn < end_from self.now.floor self.now.windows.items → result < length self.now.windows.items }
    {
        self.windows.partition_point(|window| window.scn() <= scn)
    }
}
