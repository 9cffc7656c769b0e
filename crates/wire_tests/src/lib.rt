//! What no clause says of the lower crates, shown by tests: that memory suffices for what is small, and that the forms in
//! memory and the adapters can be had and used through their traits. Each module tests one crate. Nothing stands on it.
#![tactic(auto)]

#[cfg(test)]
mod buffer;
#[cfg(test)]
mod callbacks;
#[cfg(test)]
mod codec;
#[cfg(test)]
mod filter;
#[cfg(test)]
mod relay;
#[cfg(test)]
mod source;
#[cfg(test)]
mod splitter;
#[cfg(test)]
mod streams;
#[cfg(test)]
mod types;
#[cfg(test)]
mod wire;
