ghost use Rattle.std.specs.Prelude.{◌≡◌, ◌≤◌, Some, IfOk, OnOk, OnErr, IfSome};
ghost use Rattle.bus_types.specs.Causes.{WasCounted};
ghost use Rattle.bus_types.specs.Rows.{page_of, IsPage};
ghost use Rattle.bus_stores.specs.Keeper.{Reads, Commits, BothTold, IsTable, new_content, move_of, payload_of};
ghost use Rattle.bus_stores.specs.Memory.{new_store, told_by, stop_at, listed_stop, read_stop, commit_stop, FailsAt, CountsCall, CommitLeaves, ReadLeaves, begun, failed, stopped, stored};

use crate::keeper::{Keeper, Stop, StoreFault};
use crate::marks::Marks;
use crate::plan::{Fail, next_stop, stop_at};
use crate::table::Table;
use bus_types::{
    Change, Cursor, Failed, Key, MarkText, NoMemory, Payload, Plan, RowName, Rows, copy_changes,
};
use std::alloc::Global;
use std::marker::Model;

/// A keeper in memory, which tells everything and fails at the calls that it was told. It is sound where it was told
/// none.
///
/// A commit takes time and memory in proportion to its batch and its mark, with a factor that is the logarithm of the
/// number of rows; one that clears also drops the rows that there were. Of the marks that commits set, which it tells, it
/// keeps the last one alone, so that memory grows with the rows and not with the commits.
#[derive(Debug, Drop)]
pub struct MemoryKeeper {
    table: Table,
    marks: Marks,
    // The stop that the next commit meets.
    armed: Option<Stop>,
    plan: Plan<Fail>,
}

impl Model for MemoryKeeper {
    ghost use Rattle.bus_stores.specs.Memory.{MemoryStore};

    ghost Value = { MemoryStore };

    ghost view = { λ k. record {
      rows = k.table;
      marks = k.marks;
      armed = k.armed;
      fails = k.plan.fails.items;
      calls = k.plan.calls;
      faults = k.plan.faults;
    } };
}

impl MemoryKeeper {
    /// A keeper without rows and without a mark, which fails at the calls that are listed. Calls are numbered from 0,
    /// over all calls of the trait [`Keeper`].
    pub fn new(alloc: Global, fails: &[Fail]) -> Result<MemoryKeeper, NoMemory>
        ensures ok { IfOk result (λ keeper. keeper ≡ new_store fails.now) }
        ensures neither { IfOk result (λ keeper. (told_by keeper).content ≡ Some new_content) }
    {
        Ok(MemoryKeeper {
            table: Table::new(alloc),
            marks: Marks::new(),
            armed: None,
            plan: Plan::new(alloc, fails)?,
        })
    }

    /// How many calls of the trait were made. It stops at 18446744073709551615.
    pub fn calls(&self) -> u64
        ensures { result ≡ self.now.calls }
    {
        self.plan.calls
    }

    /// Lets the next commit fail, after it counts where `after` is true and else before. A second arm takes the place
    /// of the first.
    pub fn arm(&mut self, after: bool)
        ensures { self.new ≡ record self.old { armed = Some (stop_at after) } }
    {
        self.armed = Some(stop_at(after));
    }

    /// The stop that the next commit meets, where one is armed.
    pub fn armed(&self) -> Option<Stop>
        ensures { result ≡ self.now.armed }
    {
        self.armed
    }

    // Counts a call, and answers the stop that is listed for it.
    fn next_call(&mut self) -> Option<Stop>
        ensures listed { result ≡ listed_stop self.old.fails self.old.calls }
        ensures begun { self.new ≡ begun self.old }
        ensures later { self.old.calls ≤ self.new.calls }
    {
        next_stop(&mut self.plan)
    }

    // Fails a call that reads.
    fn fail(&mut self) -> StoreFault
        ensures fault { result ≡ StoreFault.Failed }
        ensures failed { self.new ≡ failed self.old }
        ensures later { self.old.faults ≤ self.new.faults }
    {
        let Failed = self.plan.fail();
        StoreFault::Failed
    }

    // Begins a call that reads: it fails where it is listed.
    #[tactic(auto, using(crate::proofs::Storing::reading_steps))]
    fn begin(&mut self) -> Result<(), StoreFault>
        ensures read { Reads (λ c. tt) (told_by self.old) (told_by self.new) result }
        ensures exact { FailsAt (read_stop self.old) result }
        ensures exact_state { ReadLeaves self.old self.new result }
        ensures numbered { CountsCall self.old self.new }
    {
        match self.next_call() {
            None => Ok(()),
            Some(_) => Err(self.fail()),
        }
    }

    // Begins a commit: counts it, and answers the stop that it meets.
    fn begin_commit(&mut self) -> Option<Stop>
        ensures met { result ≡ commit_stop self.old }
        ensures begun { self.new ≡ begun self.old }
        ensures later { self.old.calls ≤ self.new.calls }
    {
        let armed = self.armed;
        armed.or(self.next_call())
    }

    // Fails a commit, after which no stop is armed.
    fn stop(&mut self) -> StoreFault
        ensures fault { result ≡ StoreFault.Failed }
        ensures stopped { self.new ≡ stopped self.old }
        ensures later { self.old.faults ≤ self.new.faults }
    {
        self.armed = None;
        let Failed = self.plan.fail();
        StoreFault::Failed
    }

    // Makes what a commit asks for, all of it or none.
    fn store(
        &mut self,
        alloc: Global,
        clear: bool,
        batch: &mut [Change],
        mark: &MarkText,
    ) -> Result<(), NoMemory>
        ensures ok { OnOk result (self.new ≡ stored (move_of clear batch.old mark.now) self.old) }
        ensures err { OnErr result (self.new ≡ self.old) }
    {
        let mark = MarkText::new(alloc, mark.bytes())?;
        self.table.change(alloc, clear, batch)?;
        self.marks.push(mark);
        Ok(())
    }

    // As `store`, of changes that are lent.
    fn store_copy(
        &mut self,
        alloc: Global,
        clear: bool,
        batch: &[Change],
        mark: &MarkText,
    ) -> Result<(), NoMemory>
        ensures ok { OnOk result (self.new ≡ stored (move_of clear batch.now mark.now) self.old) }
        ensures err { OnErr result (self.new ≡ self.old) }
    {
        let mut copies = copy_changes(alloc, batch)?;
        self.store(alloc, clear, &mut copies, mark)
    }
}

impl Keeper for MemoryKeeper {
    ghost state = { told_by };

    #[tactic(auto, using(crate::proofs::Reading::reading))]
    fn mark(&mut self, alloc: Global) -> Result<Option<MarkText>, StoreFault>
        ensures read { Reads (λ c. c.mark) (told_by self.old) (told_by self.new) result }
        ensures exact { FailsAt (read_stop self.old) result }
        ensures exact_state { ReadLeaves self.old self.new result }
        ensures numbered { CountsCall self.old self.new }
    {
        self.begin()?;
        Ok(self.marks.copy_last(alloc)?)
    }

    /// An armed stop goes before a listed one. After `Failed` the rows and the mark are those that it sets where the stop
    /// that it met is one after it counts, and else those before it; no stop is armed then.
    #[tactic(auto, using(crate::proofs::Storing::commit_steps))]
    fn commit(
        &mut self,
        alloc: Global,
        clear: bool,
        batch: &[Change],
        mark: &MarkText,
    ) -> Result<(), StoreFault>
        ensures commit { Commits (move_of clear batch.now mark.now) (told_by self.old) (told_by self.new) result }
        ensures exact { FailsAt (commit_stop self.old) result }
        ensures exact_state { CommitLeaves (move_of clear batch.now mark.now) self.old self.new result }
        ensures numbered { CountsCall self.old self.new }
    {
        match self.begin_commit() {
            None => Ok(self.store_copy(alloc, clear, batch, mark)?),
            Some(Stop::Before) => Err(self.stop()),
            Some(Stop::After) => {
                self.store_copy(alloc, clear, batch, mark)?;
                Err(self.stop())
            }
        }
    }

    /// An armed stop goes before a listed one. After `Failed` the rows and the mark are those that it sets where the stop
    /// that it met is one after it counts, and else those before it; no stop is armed then.
    #[tactic(auto, using(crate::proofs::Storing::commit_steps))]
    fn commit_taking(
        &mut self,
        alloc: Global,
        clear: bool,
        batch: &mut [Change],
        mark: &MarkText,
    ) -> Result<(), StoreFault>
        ensures commit { Commits (move_of clear batch.old mark.now) (told_by self.old) (told_by self.new) result }
        ensures exact { FailsAt (commit_stop self.old) result }
        ensures exact_state { CommitLeaves (move_of clear batch.old mark.now) self.old self.new result }
        ensures numbered { CountsCall self.old self.new }
    {
        match self.begin_commit() {
            None => Ok(self.store(alloc, clear, batch, mark)?),
            Some(Stop::Before) => Err(self.stop()),
            Some(Stop::After) => {
                self.store(alloc, clear, batch, mark)?;
                Err(self.stop())
            }
        }
    }

    #[tactic(auto, using(crate::proofs::Reading::reading))]
    fn rows_after(&mut self, alloc: Global, cursor: &Cursor, max: usize) -> Result<Rows, StoreFault>
        ensures read { Reads (λ c. page_of cursor.now max c.rows) (told_by self.old) (told_by self.new) result }
        ensures ordered { OnOk result (IfSome (told_by self.new).content (λ c. IsTable c.rows)) }
        ensures page { IfOk result (λ rows. IsPage cursor.now max rows) }
        ensures counted { OnOk result (BothTold WasCounted (told_by self.old).calls (told_by self.new).calls) }
        ensures exact { FailsAt (read_stop self.old) result }
        ensures exact_state { ReadLeaves self.old self.new result }
        ensures numbered { CountsCall self.old self.new }
    {
        self.begin()?;
        Ok(self.table.page(alloc, cursor, max)?)
    }

    #[tactic(auto, using(crate::proofs::Reading::reading))]
    fn row(&mut self, alloc: Global, source: u16, key: &Key) -> Result<Option<Payload>, StoreFault>
        ensures read { Reads (payload_of source key.now) (told_by self.old) (told_by self.new) result }
        ensures exact { FailsAt (read_stop self.old) result }
        ensures exact_state { ReadLeaves self.old self.new result }
        ensures numbered { CountsCall self.old self.new }
    {
        self.begin()?;
        let name = RowName { source, key: *key };
        Ok(self.table.payload(alloc, &name)?)
    }
}
