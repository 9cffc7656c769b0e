//! An index from SCNs to places, with the number of entries that a search reads. It stands on `bus_types`. The layer above
//! asks a `ScnIndex` for the entry with the greatest SCN at or below one; `Steps` counts what it read (`specs/`).
#![tactic(auto)]

mod index;
mod steps;

pub use index::ScnIndex;
pub use steps::Steps;
