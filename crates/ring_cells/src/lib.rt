//! The cells of a shared ring: each holds one window's bytes with its position, which many threads may read in place or
//! one may replace. It stands on `event_codec` and on the kit's `counted_slot`. The layer above puts entries, and reads
//! them through a `Shown`; what one shows is the window of the timeline at its own position, in any thread (`specs/`).
#![tactic(auto)]

mod cells;
mod entry;

pub use cells::{Cells, Shown, Taken};
pub use entry::Entry;
