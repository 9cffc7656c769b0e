//! The lines of scripts and of what commands print: their grammar, read exactly and written, the lines of an input, and
//! those of relays, bootstraps and replies (`specs/`). It stands on `bus_types`, `event_codec` and `partition_filter`. What
//! a script means stands in the layers above, which cut an input by a `LineCutter`, read each line by `read_line`, write
//! one by `write_line`, and print by `reply_line`, `relay_line`, `boot_line` and `gap_line`.
#![tactic(auto)]

mod change;
mod cutting;
mod digits;
mod fault;
mod laws;
mod line;
mod name;
mod printing;
mod reading;
mod writing;

pub use cutting::LineCutter;
pub use fault::{CutFault, LineFault};
pub use generated_windows::{GenFault, gen_window};
pub use laws::{the_limits_of_inputs, the_limits_of_lines, worked_lines, worked_replies};
pub use line::Line;
pub use name::Name;
pub use printing::{Stage, boot_line, gap_line, relay_line, reply_line};
pub use reading::read_line;
pub use writing::write_line;
