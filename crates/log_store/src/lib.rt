//! One log of windows over the segments of 1 to 16 disks. It stands on `log_segment`, `log_disk`, `bus_stores` and `bus_types`.
//! The layers above use it through the trait `WindowLog`, and rely on what a crash leaves of its disks (`specs/Crash.antt`).
#![tactic(auto)]

mod change;
mod first;
mod laws;
mod opening;
mod order;
mod store;

pub use laws::a_log_is_read_in_one_way;
pub use opening::OpenLog;
pub use store::LogStore;
