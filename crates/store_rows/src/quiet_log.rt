ghost use Rattle.std.specs.Prelude.{◌≡◌, ◌≤◌};
ghost use Rattle.bus_types.specs.Causes.{Rose};
ghost use Rattle.bus_stores.specs.Log.{OnLogFailed};

use bus_stores::{LogFault, WindowLog};
use bus_types::{Count, Window};
use std::alloc::Global;

/// A log that tells neither the windows nor the room of the one inside, as one over files does, and counts its faults.
#[derive(Drop)]
pub struct QuietLog<G> {
    pub inner: G,
    pub faults: Count,
}

// Counts a fault, where there is one.
fn counted<T>(faults: &mut Count, outcome: Result<T, LogFault>) -> Result<T, LogFault>
    ensures same { result ≡ outcome }
    ensures later { faults.old ≤ faults.new }
    ensures failed { OnLogFailed result (Rose faults.old faults.new) }
{
    match outcome {
        Err(LogFault::Failed) => {
            faults.raise();
            Err(LogFault::Failed)
        }
        Err(LogFault::Full) => Err(LogFault::Full),
        Err(LogFault::NoMemory) => Err(LogFault::NoMemory),
        Ok(value) => Ok(value),
    }
}

impl<G: WindowLog> WindowLog for QuietLog<G> {
    ghost use Rattle.bus_stores.specs.Log.{untold_log};

    ghost state = { λ q. untold_log q.faults (G.state q.inner) };

    ghost weakens = { λ ws vs b c old new w p. tt };

    ghost passes_on = { λ ws b old now new p q. tt };

    fn floor(&self) -> u64 {
        self.inner.floor()
    }

    fn high(&self) -> u64 {
        self.inner.high()
    }

    fn is_full(&self, size: u64) -> bool {
        self.inner.is_full(size)
    }

    fn append(&mut self, alloc: Global, window: &Window) -> Result<(), LogFault> {
        counted(&mut self.faults, self.inner.append(alloc, window))
    }

    fn next(&mut self, alloc: Global, scn: u64) -> Result<Option<Window>, LogFault> {
        counted(&mut self.faults, self.inner.next(alloc, scn))
    }

    fn drop_through(&mut self, alloc: Global, scn: u64) -> Result<(), LogFault> {
        counted(&mut self.faults, self.inner.drop_through(alloc, scn))
    }
}
