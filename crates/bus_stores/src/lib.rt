//! Stores of rows and of a mark: the trait that every store of the bus keeps to, and a store in memory. It stands on
//! `bus_types`. The layers above keep rows and marks through the trait `Keeper` alone, and never learn whether they
//! lie in memory or in a database.
#![tactic(auto)]

mod boot_fault;
mod entries;
mod following;
mod keeper;
mod laws;
mod log;
mod marks;
mod memory;
mod memory_log;
mod paging;
mod plan;
mod table;
mod taking;

pub use boot_fault::BootFault;
pub use following::next_windows;
pub use keeper::{Keeper, Stop, StoreFault};
pub use laws::worked_commits;
pub use log::{LogFault, WindowLog};
pub use memory::MemoryKeeper;
pub use memory_log::MemoryLog;
pub use paging::all_rows;
pub use plan::Fail;
pub use taking::{Commit, take};
