ghost use Rattle.std.specs.Prelude.{◌≡◌, ◌≤◌};
ghost use Rattle.bus_types.specs.Causes.{Rose};
ghost use Rattle.bus_stores.specs.Keeper.{OnFailed};

use bus_stores::{Keeper, StoreFault};
use bus_types::{Change, Count, Cursor, Key, MarkText, Payload, Rows};
use std::alloc::Global;

/// A keeper that tells nothing of the one inside, as one over a database does: only how often it failed.
#[derive(Drop)]
pub struct Quiet<K> {
    pub inner: K,
    pub faults: Count,
}

// Counts a fault, where there is one.
fn counted<T>(faults: &mut Count, outcome: Result<T, StoreFault>) -> Result<T, StoreFault>
    ensures same { result ≡ outcome }
    ensures later { faults.old ≤ faults.new }
    ensures failed { OnFailed result (Rose faults.old faults.new) }
{
    match outcome {
        Ok(value) => Ok(value),
        Err(StoreFault::NoMemory) => Err(StoreFault::NoMemory),
        Err(StoreFault::Failed) => {
            faults.raise();
            Err(StoreFault::Failed)
        }
    }
}

impl<K: Keeper> Keeper for Quiet<K> {
    ghost use Rattle.bus_stores.specs.Keeper.{untold};

    ghost state = { λ q. untold q.faults };

    fn mark(&mut self, alloc: Global) -> Result<Option<MarkText>, StoreFault> {
        counted(&mut self.faults, self.inner.mark(alloc))
    }

    fn commit(
        &mut self,
        alloc: Global,
        clear: bool,
        batch: &[Change],
        mark: &MarkText,
    ) -> Result<(), StoreFault> {
        counted(
            &mut self.faults,
            self.inner.commit(alloc, clear, batch, mark),
        )
    }

    fn rows_after(
        &mut self,
        alloc: Global,
        cursor: &Cursor,
        max: usize,
    ) -> Result<Rows, StoreFault> {
        counted(&mut self.faults, self.inner.rows_after(alloc, cursor, max))
    }

    fn row(
        &mut self,
        alloc: Global,
        source: u16,
        key: &Key,
    ) -> Result<Option<Payload>, StoreFault> {
        counted(&mut self.faults, self.inner.row(alloc, source, key))
    }
}
