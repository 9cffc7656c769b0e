ghost use Rattle.std.specs.Prelude.{◌≡◌, ◌<◌, ◌+◌, ◌^◌, ℕ, true, IfOk, IfSome};
ghost use Rattle.counted_slot.specs.Counting.{IsTurn, Gains};
ghost use Rattle.ring_cells.specs.Entries.{IsEntry, HasEntry};

use crate::entry::Entry;
use bus_types::{NoMemory, Timeline};
use counted_slot::{Claim, Counted, FREE, MOST_READERS, ONE_READER, PRESENT, TAKEN};
use std::alloc::Global;
use std::marker::Model;

/// Cells, each empty or with one entry. Contracts see how many there are, and nothing of what is in them, since that
/// changes under every thread. Which entry a cell shows is told by the entry's own position.
#[derive(Drop)]
pub struct Cells<T: Timeline> {
    cells: Vec<Counted<Option<Entry<T>>>>,
}

impl<T: Timeline> Model for Cells<T> {
    ghost use Rattle.std.specs.Prelude.{ℕ, length};

    ghost Value = { ℕ };

    ghost view = { λ c. length c.cells.items };
}

/// The right to read one cell's entry in place. No thread replaces it while this lives. Contracts see the entry.
pub struct Shown<'a, T: Timeline> {
    claim: Claim<'a, Option<Entry<T>>>,
}

impl<'a, T: Timeline> Model for Shown<'a, T> {
    ghost use Rattle.std.specs.Prelude.{◌≡◌};
    ghost use Rattle.ring_cells.specs.Entries.{Held, HasEntry, held_of};

    ghost Value = { Held };

    ghost view = { λ s. held_of s.claim.value };

    ghost invariant = { λ s. (s.claim.right ≡ 1) × HasEntry T.told s.claim.value };
}

/// The right to write one cell, which no thread reads or writes while this lives. It must be spent by
/// [`Cells::put_cell`].
pub struct Taken<'a, T: Timeline> {
    claim: Claim<'a, Option<Entry<T>>>,
    ghost writes: { claim.right ≡ 2 },
}

// Whether a cell with this word has an entry and one more reader may come.
fn may_read(word: u64) -> bool
    ensures turn { result ≡ true → IsTurn word (word + 4) }
    ensures gains { result ≡ true → (right : ℕ) → Gains word (word + 4) right → right ≡ 1 }
    ensures small { result ≡ true → word + 4 < 2 ^ 64 }
{
    word % 4 == PRESENT && word % 4_294_967_296 / 4 < MOST_READERS
}

// Whether a claim to read shows an entry.
fn is_full<T: Timeline>(claim: &Claim<'_, Option<Entry<T>>>) -> bool
    requires { claim.now.right ≡ 1 }
    ensures { result ≡ true → HasEntry T.told claim.now.value }
{
    match claim.get() {
        Some(entry) => {
            let _position = entry.position;
            true
        }
        None => false,
    }
}

impl<T: Timeline> Cells<T> {
    /// So many empty cells.
    pub fn new(alloc: Global, count: u32) -> Result<Cells<T>, NoMemory>
        ensures { IfOk result (λ cells. cells ≡ count) }
    {
        let mut cells = Vec::with_capacity(alloc, count as usize)?;
        for _ in 0..count {
            cells.push(Counted::new(None, &()))?;
        }
        Ok(Cells { cells })
    }

    /// Claims a cell's entry for reading, by one step. `None` comes where that step found the cell empty or claimed for
    /// writing, found as many readers as can be counted (2^30 - 1), or lost its exchange to another thread's step.
    pub fn read_cell(&self, i: u32) -> Option<Shown<'_, T>>
        requires { i < self.now }
        ensures { IfSome result (λ shown. IsEntry T.told shown) }
    {
        let cell = &self.cells[i as usize];
        let word = cell.load();
        if !may_read(word) {
            return None;
        }
        let (found, claim) = cell.turn(word, word + ONE_READER);
        if found != word {
            claim.done();
            return None;
        }
        if is_full(&claim) {
            return Some(Shown { claim });
        }
        claim.leave();
        None
    }

    /// Claims a cell for writing, by one step. `None` comes where that step found a reader or a writer, or lost its
    /// exchange to another thread's step.
    pub fn take_cell(&self, i: u32) -> Option<Taken<'_, T>>
        requires { i < self.now }
    {
        let cell = &self.cells[i as usize];
        let word = cell.load();
        if word != FREE && word != PRESENT {
            return None;
        }
        let (found, claim) = cell.turn(word, TAKEN);
        if found != word {
            claim.done();
            return None;
        }
        Some(Taken { claim })
    }

    /// Puts an entry into the cell that was taken, and drops the one that it replaces. A `Taken` holds the place of its
    /// own cell, so there is nothing that these cells would have to be asked for.
    pub fn put_cell(&self, taken: Taken<'_, T>, entry: Entry<T>) {
        let Taken { claim } = taken;
        let replaced = claim.put(Some(entry), PRESENT);
        drop(replaced);
    }
}

impl<'a, T: Timeline> Shown<'a, T> {
    /// The position of the entry's window.
    pub fn position(&self) -> u64
        ensures value { result ≡ self.now.position }
        ensures fits { IsEntry T.told self.now }
    {
        match self.claim.get() {
            Some(entry) => entry.position(),
            None => unreachable!(),
        }
    }

    /// The window's bytes, in place.
    pub fn bytes(&self) -> &[u8]
        ensures value { result.now ≡ self.now.bytes }
        ensures fits { IsEntry T.told self.now }
    {
        match self.claim.get() {
            Some(entry) => entry.bytes(),
            None => unreachable!(),
        }
    }

    /// Gives the right back, as dropping it does.
    pub fn leave(self) {
        drop(self);
    }
}

impl<'a, T: Timeline> Drop for Shown<'a, T> {
    fn drop(self) {
        let Self { claim } = self;
        claim.leave();
    }
}
