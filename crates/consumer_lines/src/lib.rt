//! The lines that commands print of consumers: the stage at which one takes a reply, and what is shown of its rows (`specs/`).
//! It stands on `checkpoint` for marks, on `trace_script` for the other lines and on `hex` for payloads. What runs a script and
//! what runs a node print by it, so that they print the same.
#![tactic(auto)]

mod shown;

pub use shown::{mode_shown, put_row, rows_shown, stage_of};
