ghost use Rattle.std.specs.Prelude.{◌≡◌, ◌≤◌, ◌<◌, false, length, slice_get, IfOk, OnOk, OnErr};
ghost use Rattle.bus_types.specs.Window.{span_size};
ghost use Rattle.bus_types.specs.Timeline.{IsTimelineFrom, end_from, windows_between};
ghost use Rattle.bus_stores.specs.Log.{AppendsWindow, ReadsNext, DropsWindows, Dropped, IsFound, first_after};
ghost use Rattle.bus_stores.specs.Memory.{before_any};
ghost use Rattle.bus_stores.specs.MemoryLog.{new_windows, log_of, log_stop, log_begun, log_failed, with_window, without_front, without_upto, Pushes, PushesAndFails, IsPlaceAfter, LogFailsAt, CountsLogCall, AppendStands, NextStands, DropStands};

use crate::keeper::Stop;
use crate::log::{LogFault, WindowLog};
use crate::plan::{Fail, next_stop};
use bus_types::{Failed, NoMemory, Plan, Window};
use std::alloc::Global;
use std::collections::VecDeque;
use std::marker::Model;

/// A log in memory, which tells everything and fails at the calls that it was told. It is sound where it was told none.
///
/// An append copies its window, `next` finds its window by a binary search and copies it, and a drop takes time in
/// proportion to the windows that it drops.
#[derive(Debug, Drop)]
pub struct MemoryLog {
    windows: VecDeque<Window>,
    // The bytes of the windows in full.
    size: u64,
    floor: u64,
    limit: u64,
    plan: Plan<Fail>,
}

impl Model for MemoryLog {
    ghost use Rattle.bus_stores.specs.MemoryLog.{MemoryWindows, AreKept};

    ghost Value = { MemoryWindows };

    ghost view = { λ l. record {
      windows = l.windows.items;
      floor = l.floor;
      limit = l.limit;
      fails = l.plan.fails.items;
      calls = l.plan.calls;
      faults = l.plan.faults;
    } };

    ghost invariant = { λ l. AreKept l.floor l.windows.items l.size l.limit };
}

impl MemoryLog {
    /// A log without a window, which holds at most `limit` bytes of windows in full and fails at the calls that are
    /// listed. Calls are numbered from 0, over `append`, `next` and `drop_through`. A call that is to fail after it counts
    /// is made, as far as there is room, and then fails; where memory runs out in it, it answers that instead.
    pub fn new(alloc: Global, limit: u64, fails: &[Fail]) -> Result<MemoryLog, NoMemory>
        ensures { IfOk result (λ log. log ≡ new_windows limit fails.now) }
    {
        Ok(MemoryLog {
            windows: VecDeque::new(alloc),
            size: 0,
            floor: 0,
            limit,
            plan: Plan::new(alloc, fails)?,
        })
    }

    /// How many calls of the trait that can fail were made. It stops at 18446744073709551615.
    pub fn calls(&self) -> u64
        ensures { result ≡ self.now.calls }
    {
        self.plan.calls
    }

    // Counts a call, and answers the stop that is listed for it.
    fn next_call(&mut self) -> Option<Stop>
        ensures listed { result ≡ log_stop self.old }
        ensures begun { self.new ≡ log_begun self.old }
    {
        next_stop(&mut self.plan)
    }

    // Fails a call.
    fn fail(&mut self) -> LogFault
        ensures fault { result ≡ LogFault.Failed }
        ensures failed { self.new ≡ log_failed self.old }
        ensures later { self.old.faults ≤ self.new.faults }
    {
        let Failed = self.plan.fail();
        LogFault::Failed
    }

    // Appends an equal window, for which there is room.
    fn add(&mut self, alloc: Global, window: &Window) -> Result<(), NoMemory>
        requires chained { window.now.prev ≡ end_from self.old.floor self.old.windows }
        requires full { 0 < length window.now.changes }
        requires free { (log_of self.old).full (span_size window.now) ≡ false }
        ensures ok { OnOk result (self.new ≡ with_window window.now self.old) }
        ensures err { OnErr result (self.new ≡ self.old) }
    {
        let size = window.size();
        self.windows.push_back(window.copy(alloc)?)?;
        self.size += size;
        Ok(())
    }

    // Appends an equal window, where there is room for it.
    fn push(&mut self, alloc: Global, window: &Window) -> Result<(), LogFault>
        requires chained { window.now.prev ≡ end_from self.old.floor self.old.windows }
        requires full { 0 < length window.now.changes }
        ensures { Pushes window.now self.old self.new result }
    {
        if self.is_full(window.size()) {
            return Err(LogFault::Full);
        }
        self.add(alloc, window)?;
        Ok(())
    }

    // Appends an equal window, where there is room for it, and then fails.
    fn push_and_fail(&mut self, alloc: Global, window: &Window) -> Result<(), LogFault>
        requires chained { window.now.prev ≡ end_from self.old.floor self.old.windows }
        requires full { 0 < length window.now.changes }
        ensures pushes { PushesAndFails window.now self.old self.new result }
        ensures later { self.old.faults ≤ self.new.faults }
    {
        if self.is_full(window.size()) {
            return Err(self.fail());
        }
        self.add(alloc, window)?;
        Err(self.fail())
    }

    // Drops the oldest window, where there is one.
    fn drop_oldest(&mut self)
        ensures { self.new ≡ without_front 1 self.old }
    {
        if let Some(oldest) = self.windows.pop_front() {
            self.size -= oldest.size();
            self.floor = oldest.scn();
        }
    }

    // Drops so many of the oldest windows.
    fn drop_front(&mut self, count: usize)
        ensures { self.new ≡ without_front count self.old }
    {
        for _ in 0..count {
            self.drop_oldest();
        }
    }

    // How many windows have an SCN of at most this one.
    fn place_after(&self, scn: u64) -> usize
        ensures place { IsPlaceAfter scn self.now.floor self.now.windows result }
        ensures chained { IsTimelineFrom self.now.floor self.now.windows }
    {
        self.windows.partition_point(|window| window.scn() <= scn)
    }

    // Drops the windows up to an SCN.
    fn drop_upto(&mut self, scn: u64)
        ensures drops { Dropped scn (log_of self.old) (log_of self.new) }
        ensures is { self.new ≡ without_upto scn self.old }
    {
        self.drop_front(self.place_after(scn));
    }

    // A copy of the oldest window behind an SCN.
    fn find(&self, alloc: Global, scn: u64) -> Result<Option<Window>, NoMemory>
        requires { self.now.floor ≤ scn }
        ensures first { IfOk result (λ found. found ≡ first_after scn self.now.windows) }
        ensures found { IfOk result (λ found. IsFound scn (end_from self.now.floor self.now.windows) found) }
    {
        copy_at(alloc, &self.windows, self.place_after(scn))
    }
}

// The SCN of the last window, or this one where there is none.
fn last_scn(windows: &VecDeque<Window>, floor: u64) -> u64
    ensures { result ≡ end_from floor windows.now.items }
{
    match windows.back() {
        None => floor,
        Some(newest) => newest.scn(),
    }
}

// A copy of the window at a place, where one stands.
fn copy_at(
    alloc: Global,
    windows: &VecDeque<Window>,
    place: usize,
) -> Result<Option<Window>, NoMemory>
    ensures { IfOk result (λ window. window ≡ slice_get windows.now.items place) }
{
    match windows.get(place) {
        None => Ok(None),
        Some(window) => Ok(Some(window.copy(alloc)?)),
    }
}

impl WindowLog for MemoryLog {
    ghost state = { log_of };

    ghost weakens = { λ ws vs b c old new w p. tt };

    ghost passes_on = { λ ws b old now new p q. tt };

    fn floor(&self) -> u64 {
        self.floor
    }

    fn high(&self) -> u64 {
        last_scn(&self.windows, self.floor)
    }

    fn is_full(&self, size: u64) -> bool {
        self.limit - self.size < size
    }

    fn append(&mut self, alloc: Global, window: &Window) -> Result<(), LogFault>
        requires chained { window.now.prev ≡ (log_of self.old).high }
        requires full { 0 < length window.now.changes }
        ensures append { AppendsWindow window.now (log_of self.old) (log_of self.new) result }
        ensures exact { LogFailsAt (log_stop self.old) result }
        ensures exact_state { AppendStands window.now self.old self.new result }
        ensures numbered { CountsLogCall self.old self.new }
    {
        match self.next_call() {
            None => self.push(alloc, window),
            Some(Stop::Before) => Err(self.fail()),
            Some(Stop::After) => self.push_and_fail(alloc, window),
        }
    }

    fn next(&mut self, alloc: Global, scn: u64) -> Result<Option<Window>, LogFault>
        requires { (log_of self.old).floor ≤ scn }
        ensures next { ReadsNext scn (log_of self.old) (log_of self.new) result }
        ensures exact { LogFailsAt (before_any (log_stop self.old)) result }
        ensures exact_state { NextStands self.old self.new result }
        ensures numbered { CountsLogCall self.old self.new }
    {
        match self.next_call() {
            None => Ok(self.find(alloc, scn)?),
            Some(_) => Err(self.fail()),
        }
    }

    fn drop_through(&mut self, _alloc: Global, scn: u64) -> Result<(), LogFault>
        ensures drops { DropsWindows scn (log_of self.old) (log_of self.new) result }
        ensures exact { LogFailsAt (log_stop self.old) result }
        ensures exact_state { DropStands scn self.old self.new result }
        ensures numbered { CountsLogCall self.old self.new }
    {
        match self.next_call() {
            None => {
                self.drop_upto(scn);
                Ok(())
            }
            Some(Stop::Before) => Err(self.fail()),
            Some(Stop::After) => {
                self.drop_upto(scn);
                Err(self.fail())
            }
        }
    }
}
