ghost use Rattle.std.specs.Prelude.{◌≡◌, ◌+◌, ◌≤◌, [], IfOk};
ghost use Rattle.bus_types.specs.Counting.{next_count};

use crate::count::Count;
use crate::fault::{Failed, NoMemory};
use std::alloc::Global;

/// Which calls of a form in memory are to fail, how many were made and how often one failed. Calls are numbered from 0;
/// the number of calls stops at 18446744073709551615. What an `F` says of a call, each form says.
#[derive(Debug, Drop)]
pub struct Plan<F> {
    /// The calls that are to fail.
    pub fails: Vec<F>,
    /// How many calls were made.
    pub calls: u64,
    /// How often one failed, for contracts alone.
    pub faults: Count,
}

impl<F: Copy> Plan<F> {
    /// The plan by which these calls are to fail; none was made.
    pub fn new(alloc: Global, fails: &[F]) -> Result<Plan<F>, NoMemory>
        ensures fails { IfOk result (λ plan. plan.fails.items ≡ fails.now) }
        ensures calls { IfOk result (λ plan. plan.calls ≡ 0) }
        ensures faults { IfOk result (λ plan. plan.faults ≡ 0) }
    {
        Ok(Plan {
            fails: Vec::from_slice(alloc, fails)?,
            calls: 0,
            faults: Count::zero(),
        })
    }

    /// Counts a call, and answers its number.
    pub fn next_call(&mut self) -> u64
        ensures number { result ≡ self.old.calls }
        ensures counted { self.new ≡ record self.old { calls = next_count self.old.calls } }
        ensures later { self.old.calls ≤ self.new.calls }
    {
        let call = self.calls;
        self.calls = call.saturating_add(1);
        call
    }

    /// Counts a fault.
    pub fn fail(&mut self) -> Failed
        ensures counted { self.new ≡ record self.old { faults = self.old.faults + 1 } }
        ensures later { self.old.faults ≤ self.new.faults }
    {
        self.faults.raise();
        Failed
    }

    /// No call of those to come is to fail, none was made, and none has failed.
    pub fn restart(&mut self)
        ensures fails { self.new.fails.items ≡ [] }
        ensures rest { self.new ≡ record self.old { fails = self.new.fails; calls = 0; faults = 0 } }
    {
        self.fails.clear();
        self.calls = 0;
        self.faults = Count::zero();
    }
}
