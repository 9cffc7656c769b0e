ghost use Rattle.std.specs.Prelude.{◌≡◌, ◌+◌, ◌-◌, ◌*◌, ◌/◌, ◌^◌, ◌<◌, ◌≤◌, ◌++◌, ◌∷◌, [], Bool, true, false, List, length, drop, nat_lt, slice_get, Some, IfOk, MatchOption};
ghost use Rattle.scn_index.specs.Index.{AreBelow, AreAbove, IsGreatest, IsQuick};

use crate::steps::Steps;
use bus_types::NoMemory;
use circular_buffer::HeapCircularBuffer;
use std::alloc::Global;
use std::marker::Model;
use std::sync::ledger::Ledger;

/// Pairs of an SCN and a place, with rising SCNs: the newest are pushed at the back, the oldest dropped at the front.
/// Contracts see how many it holds at most, and those that it holds.
#[derive(Drop)]
pub struct ScnIndex {
    entries: HeapCircularBuffer<(u64, u64)>,
}

impl Model for ScnIndex {
    ghost use Rattle.scn_index.specs.Index.{Index, AreRising};

    ghost Value = { Index };

    ghost view = { λ x. record { slots = x.entries.capacity; entries = x.entries.items } };

    ghost invariant = { λ x. AreRising x.entries.items };
}

// Where a search stands: it looks between two places, and `found` is the entry before the first of them.
#[derive(Clone, Copy, Debug)]
struct Search {
    low: usize,
    high: usize,
    found: Option<(u64, u64)>,
}

impl Search {
    // The place in its middle.
    fn middle(self) -> usize
        requires { self.low < self.high }
        ensures { result ≡ self.low + (self.high - self.low) / 2 }
    {
        let half = (self.high - self.low) / 2;
        self.low + half
    }

    // What is left of it once the entry in its middle was read.
    fn narrowed(self, middle: usize, entry: (u64, u64), scn: u64) -> Search
        requires { middle < self.high }
        ensures low { entry.0 ≤ scn → result ≡ record { low = middle + 1; high = self.high; found = Some entry } }
        ensures high { scn < entry.0 → result ≡ record { low = self.low; high = middle; found = self.found } }
    {
        if entry.0 <= scn {
            Search {
                low: middle + 1,
                high: self.high,
                found: Some(entry),
            }
        } else {
            Search {
                low: self.low,
                high: middle,
                found: self.found,
            }
        }
    }
}

impl ScnIndex {
    /// An index without entries, of at most so many. It takes all its memory here.
    pub fn new(alloc: Global, slots: u32) -> Result<ScnIndex, NoMemory>
        ensures { IfOk result (λ x. x ≡ record { slots = slots; entries = [] }) }
    {
        Ok(ScnIndex {
            entries: HeapCircularBuffer::with_capacity(alloc, slots as usize)?,
        })
    }

    /// Appends an entry, whose SCN is above all others. `false` comes exactly where all slots are taken, and nothing is
    /// changed then. It takes no memory.
    pub fn push(&mut self, scn: u64, place: u64) -> bool
        requires above { AreBelow scn self.old.entries }
        ensures room { result ≡ nat_lt (length self.old.entries) self.old.slots }
        ensures pushed { result ≡ true → self.new ≡ record { slots = self.old.slots; entries = self.old.entries ++ (scn, place) ∷ [] } }
        ensures same { result ≡ false → self.new ≡ self.old }
    {
        if self.entries.len() == self.entries.capacity() {
            return false;
        }
        let _none = self.entries.push_back((scn, place));
        true
    }

    /// Drops the oldest entry, if there is one. It takes no memory.
    pub fn drop_front(&mut self)
        ensures { self.new ≡ record { slots = self.old.slots; entries = drop 1 self.old.entries } }
    {
        let _oldest = self.entries.pop_front();
    }

    // The entry at a place. No other function reads one.
    fn entry<L: Ledger>(&self, at: usize, steps: &mut Steps<L>) -> (u64, u64)
        requires { at < length self.now.entries }
        ensures entry { slice_get self.now.entries at ≡ Some result }
        ensures counted { steps.new ≡ steps.old + 1 }
    {
        steps.add_one();
        let Some(entry) = self.entries.get(at) else {
            unreachable!();
        };
        *entry
    }

    /// The entry with the greatest SCN at or below one. `None` comes exactly where there is no such entry. It reads less
    /// than two entries for each halving of their number, and counts each that it reads.
    pub fn find<L: Ledger>(&self, scn: u64, steps: &mut Steps<L>) -> Option<(u64, u64)>
        ensures found { MatchOption result (AreAbove scn self.now.entries) (IsGreatest scn self.now.entries) }
        ensures probes { IsQuick steps.old steps.new (length self.now.entries) }
    {
        let mut search = Search {
            low: 0,
            high: self.entries.len(),
            found: None,
        };
        while search.low < search.high {
            let middle = search.middle();
            search = search.narrowed(middle, self.entry(middle, steps), scn);
        }
        search.found
    }
}
