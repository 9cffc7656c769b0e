//! A bootstrap over a log on disks: how it is opened, and that it survives a stop of the disks at any moment. It stands on
//! `bootstrap_core`, `log_store`, `log_disk` and `bus_stores`. The layers above open it by `open_boot` and move it by `take_log`,
//! `apply` and `trim`, whose clauses say what a stop meanwhile leaves (`specs/Stops.antt`).
#![tactic(auto)]

mod calls;
mod laws;
mod opening;

pub use calls::{apply, take_log, trim};
pub use laws::{a_bootstrap_goes_on, a_bootstrap_survives_a_stop};
pub use opening::{OpenBoot, open_boot};
