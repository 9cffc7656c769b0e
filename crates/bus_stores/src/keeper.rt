ghost use Rattle.std.specs.Prelude.{◌<◌, IfOk, OnOk, IfSome};
ghost use Rattle.bus_types.specs.Causes.{WasCounted};
ghost use Rattle.bus_types.specs.Rows.{page_of, IsPage};
ghost use Rattle.bus_stores.specs.Keeper.{KeeperState, Reads, Commits, BothTold, IsTable, move_of, payload_of};

use bus_types::{Change, Cursor, Key, MarkText, NoMemory as OutOfMemory, Payload, Rows};
use std::alloc::Global;

/// Why a keeper did not do what it was asked.
#[derive(Clone, Copy, Debug, PartialEq, Eq)]
pub enum StoreFault {
    /// The store failed. It comes only where the keeper's count of faults rose. After a commit the rows and the mark
    /// are those before it or those after it, and the mark tells which.
    Failed,
    /// Memory ran out. The rows and the mark are as before.
    NoMemory,
}

impl From<OutOfMemory> for StoreFault {
    ghost use Rattle.std.specs.Prelude.{◌≡◌};
    ghost use Rattle.bus_stores.specs.declared.keeper.StoreFault.TheVariants as faults;

    ghost from_gives = { λ _ e. e ≡ faults.NoMemory };

    fn from(_: OutOfMemory) -> Self {
        StoreFault::NoMemory
    }
}

/// A stop that a commit meets.
#[derive(Clone, Copy, Debug, PartialEq, Eq)]
pub enum Stop {
    /// Before it counts: the rows and the mark stay as they are.
    Before,
    /// After it counts: the rows and the mark are those that it sets.
    After,
}

/// A table of rows and at most one mark. A new one has neither.
///
/// A keeper may tell its content, which is its rows and its mark, a number of its calls, and its stops: the marks that
/// its commits set, the stop that the next commit meets, and whether it is sound, which says that a call fails only where
/// a commit meets an armed stop. Content is told only while the keeper is open: any call may shut it, and from then on it
/// tells none. The number of calls and the stops, where they are told, are told from then on. It always tells how often it
/// failed.
pub trait Keeper {
    /// What it tells of itself.
    ghost state: { Self → KeeperState };

    /// The mark, where one is set. What is read is of the content that is told after the call.
    fn mark(&mut self, alloc: Global) -> Result<Option<MarkText>, StoreFault>
        ensures { Reads (λ c. c.mark) (state self.old) (state self.new) result };

    /// Clears the rows where `clear` is true, then makes the changes in order, then sets the mark: all of it or none.
    fn commit(
        &mut self,
        alloc: Global,
        clear: bool,
        batch: &[Change],
        mark: &MarkText,
    ) -> Result<(), StoreFault>
        ensures { Commits (move_of clear batch.now mark.now) (state self.old) (state self.new) result };

    /// As [`Keeper::commit`], of changes whose payloads it may take, so that none need be copied. What is then left in the batch
    /// is of no matter.
    fn commit_taking(
        &mut self,
        alloc: Global,
        clear: bool,
        batch: &mut [Change],
        mark: &MarkText,
    ) -> Result<(), StoreFault>
        ensures { Commits (move_of clear batch.old mark.now) (state self.old) (state self.new) result }
    {
        self.commit(alloc, clear, batch, mark)
    }

    /// The first `max` rows after the cursor, or those there are, in order of source and key. `max` is at least 1.
    fn rows_after(&mut self, alloc: Global, cursor: &Cursor, max: usize) -> Result<Rows, StoreFault>
        requires { 0 < max }
        ensures read { Reads (λ c. page_of cursor.now max c.rows) (state self.old) (state self.new) result }
        ensures ordered { OnOk result (IfSome (state self.new).content (λ c. IsTable c.rows)) }
        ensures page { IfOk result (λ rows. IsPage cursor.now max rows) }
        ensures counted { OnOk result (BothTold WasCounted (state self.old).calls (state self.new).calls) };

    /// The payload of a row, where there is one.
    fn row(&mut self, alloc: Global, source: u16, key: &Key) -> Result<Option<Payload>, StoreFault>
        ensures { Reads (payload_of source key.now) (state self.old) (state self.new) result };
}
