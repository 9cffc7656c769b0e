//! The bus of a script: a source, a relay, a bootstrap, and consumers with clients and keepers. `Bus::step` takes one line
//! and writes what it prints; `specs/` says what each line does to the state of a script, and `script`, what a whole input
//! means. It stands on `client_switch` for the clients, on `relay_core` for the relay's replies, on `bootstrap_core` for the
//! bootstrap, on `source_db` for the commits and on `trace_script` for the lines. The layer above hands each line of its input to `Bus::step`.
#![tactic(auto)]

mod boot;
mod bus;
mod fault;
mod generate;
mod laws;
mod member;
mod poll;
mod rows;
mod sum;
mod text;
mod worked;

pub use bus::Bus;
pub use fault::StepFault;
pub use laws::consumers_never_go_back;
pub use rows::{
    worked_script_of_a_scan, worked_script_of_many_windows, worked_scripts,
    worked_scripts_of_a_bootstrap, worked_scripts_of_a_delta, worked_scripts_of_a_relay,
    worked_scripts_of_stops, worked_scripts_of_streams,
};
pub use worked::{worked_steps, worked_steps_of_a_bootstrap, worked_steps_of_generated_windows};
