//! What no clause says of the shared ring, shown by tests: that it can be had and used, that readers and the feeder get
//! on, and that a ring, its feeder and its passes cross threads. Nothing stands on it.
#![tactic(auto)]

#[cfg(test)]
mod ring;
