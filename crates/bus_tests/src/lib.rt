//! Tests of what stands above the stores and the relay, for what no clause says: what a run hands back, and what stands
//! written around faults. It stands on the crates that it tests, and has nothing for a layer above.
#![tactic(auto)]

#[cfg(test)]
mod lines;
