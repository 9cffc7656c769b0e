use std::io;
use std::time::Duration;

/// What readers have read together.
#[derive(Clone, Copy, Debug)]
pub(crate) struct Reading {
    /// How often they asked.
    pub asks: u64,
    /// How many windows they read.
    pub windows: u64,
    /// The sum of all their bytes, modulo 2^64, so that each is read.
    pub sum: u64,
    /// How long the slowest of them took.
    pub nanoseconds: u64,
}

impl Reading {
    /// Nothing was read.
    pub fn new() -> Reading {
        Reading {
            asks: 0,
            windows: 0,
            sum: 0,
            nanoseconds: 0,
        }
    }

    /// Adds windows of this sum.
    pub fn add(&mut self, windows: u64, sum: u64) {
        self.windows = self.windows.saturating_add(windows);
        self.sum = self.sum.wrapping_add(sum);
    }

    /// What two readers read.
    pub fn with(self, other: Reading) -> Reading {
        Reading {
            asks: self.asks.saturating_add(other.asks),
            windows: self.windows.saturating_add(other.windows),
            sum: self.sum.wrapping_add(other.sum),
            nanoseconds: self.nanoseconds.max(other.nanoseconds),
        }
    }
}

/// What two readers read, or the first one's fault.
pub(crate) fn both(one: io::Result<Reading>, other: io::Result<Reading>) -> io::Result<Reading> {
    Ok(one?.with(other?))
}

/// The sum of bytes, modulo 2^64: of the numbers of eight each, and of the last ones that are no eight.
pub(crate) fn sum_of(bytes: &[u8]) -> u64 {
    let (words, rest) = bytes.as_chunks::<8>();
    let mut sum: u64 = 0;
    for word in words {
        sum = sum.wrapping_add(u64::from_le_bytes(*word));
    }
    for byte in rest {
        sum = sum.wrapping_add(*byte as u64);
    }
    sum
}

/// A time in nanoseconds, at most 2^64 - 1.
pub(crate) fn nanoseconds(time: Duration) -> u64 {
    u64::try_from(time.as_nanos()).unwrap_or(u64::MAX)
}
