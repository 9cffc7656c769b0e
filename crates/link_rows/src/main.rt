//! Rows of links: it makes connections through a link in memory, with calls that fail, and one over the loopback of this machine,
//! and prints what comes of them. What has to be printed stands in `stdout`, from outside the program. It stands on `bus_link`, and
//! on `bus_io` for connections in memory; nothing stands on it.
#![tactic(auto)]

mod loopback;
mod memory;

use loopback::show_loopback;
use memory::{show_connects, show_doors};
use std::test::Fail;

fn main(rt: HostRuntime) -> Result<(), Fail> {
    show_doors(&rt)?;
    show_connects(&rt)?;
    show_loopback(&rt)
}
