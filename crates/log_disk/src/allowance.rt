ghost use Rattle.std.specs.Prelude.{◌≡◌, ◌<◌, ◌≤◌, ◌+◌, ◌-◌, ◌||◌, ◌==◌, nat_lt, [], IfOk};
ghost use Rattle.std.specs.List.{list_any};
ghost use Rattle.bus_types.specs.Counting.{next_count};

use bus_types::{Failed, NoMemory, Plan};
use std::alloc::Global;

/// How many bytes and calls a disk in memory has room for, and which calls of it are to fail.
#[derive(Debug, Drop)]
pub(crate) struct Allowance {
    pub room: u64,
    pub calls: u32,
    pub plan: Plan<u64>,
}

impl Allowance {
    /// No call was made.
    pub fn new(alloc: Global, room: u64, calls: u32, fails: &[u64]) -> Result<Allowance, NoMemory>
        ensures room { IfOk result (λ allowance. allowance.room ≡ room) }
        ensures calls { IfOk result (λ allowance. allowance.calls ≡ calls) }
        ensures fails { IfOk result (λ allowance. allowance.plan.fails.items ≡ fails.now) }
        ensures next { IfOk result (λ allowance. allowance.plan.calls ≡ 0) }
        ensures faults { IfOk result (λ allowance. allowance.plan.faults ≡ 0) }
    {
        Ok(Allowance {
            room,
            calls,
            plan: Plan::new(alloc, fails)?,
        })
    }

    /// Whether a call that writes so many bytes finds no room for them, or none for itself.
    pub fn exceeds(&self, size: usize) -> bool
        ensures { result ≡ (nat_lt self.now.room size || self.now.calls == 0) }
    {
        self.room < size as u64 || self.calls == 0
    }

    /// Whether the next call is to fail.
    pub fn is_listed(&self) -> bool
        ensures { result ≡ list_any (λ call. call == self.now.plan.calls) self.now.plan.fails.items }
    {
        self.plan.fails.contains(&self.plan.calls)
    }

    /// Counts a call, for which there is room.
    pub fn count(&mut self)
        requires { 0 < self.old.calls }
        ensures { self.new ≡ record self.old { calls = self.old.calls - 1; plan = record self.old.plan { calls = next_count self.old.plan.calls } } }
    {
        self.calls -= 1;
        self.plan.next_call();
    }

    /// Counts a fault.
    pub fn fail(&mut self) -> Failed
        ensures counted { self.new ≡ record self.old { plan = record self.old.plan { faults = self.old.plan.faults + 1 } } }
        ensures later { self.old.plan.faults ≤ self.new.plan.faults }
    {
        self.plan.fail()
    }

    /// No call of those to come is to fail, none was made, and none has failed.
    pub fn restart(&mut self)
        ensures fails { self.new.plan.fails.items ≡ [] }
        ensures rest { self.new ≡ record self.old { plan = record self.old.plan { fails = self.new.plan.fails; calls = 0; faults = 0 } } }
    {
        self.plan.restart();
    }
}
