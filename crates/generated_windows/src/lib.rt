//! Windows that are made from a number: a load with which the program can be measured, the same on every machine. It stands on
//! `bus_types`; a script's `gen` line makes its windows by it.
#![tactic(auto)]

mod generate;

pub use generate::{GenFault, gen_window, worked_windows};
