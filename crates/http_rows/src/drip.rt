ghost use Rattle.std.specs.Prelude.{None};

use bus_io::{MemorySource, Source};
use bus_types::Failed;

/// A source that gives at most so many bytes in one read, and tells nothing but how often it failed.
#[derive(Drop)]
pub struct Drip {
    /// What it gives.
    pub inner: MemorySource,
    /// The most bytes of one read, at least 1.
    pub most: usize,
}

impl Source for Drip {
    ghost left = { λ _. None };

    ghost given = { λ _. None };

    ghost faults = { λ d. d.inner.faults };

    ghost Beside = { Unit {0} };

    ghost beside = { λ _. tt };

    fn read(&mut self, buf: &mut [u8]) -> Result<usize, Failed> {
        let size = buf.len().min(self.most);
        self.inner.read(&mut buf[..size])
    }
}
