//! The applier of a bootstrap: it moves a keeper's rows, the source's table at an SCN, over the next windows of a log, with
//! the boot mark in the same commit. It stands on `bus_stores` for the log and the keeper. The layers above read and write
//! the boot mark by `read_boot` and `boot_text`, and call `apply`.
#![tactic(auto)]

mod applying;
mod boot;
mod fault;
mod laws;
mod text;

pub use applying::apply;
pub use boot::BootMark;
pub use bus_stores::BootFault;
pub use fault::BootTextFault;
pub use laws::{a_boot_mark_has_one_text, applied_rows_are_the_table};
pub use text::{boot_text, read_boot};
