//! Filters: which rows a consumer asks for, by source and key, with their one text, read exactly and written
//! (`specs/`). It stands on `bus_types`. The layers above read a filter by `Filter::read`, pass it where rows are
//! accepted (`Accepts`), and cite `test_of`, the test that it stands for, and `filter_of`, what a text spells.
#![tactic(auto)]

mod accepting;
mod fault;
mod faults;
mod filter;
mod reading;
mod rows;
mod rule;
mod writing;

pub use fault::FilterFault;
pub use filter::Filter;
pub use rows::{the_limits_of_filters, what_filters_mean, worked_filters};
pub use rule::{Keys, Numbers, Rule};
