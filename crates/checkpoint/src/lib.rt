//! Checkpoints of a consumer: how far it has come, as a mark with one text of JSON, read exactly and written. It stands
//! on `bus_types` and `serde_json`. The layers above keep a mark's text beside the rows that it speaks of, read it back
//! by `Mark::read`, and cite `mark_text` and `IsMark` (`specs/`).
#![tactic(auto)]

mod laws;
mod mark;
mod reading;
mod writing;

pub use laws::{a_mark_has_one_text, worked_texts};
pub use mark::{Mark, MarkFault};
