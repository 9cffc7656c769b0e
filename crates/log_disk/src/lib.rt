//! Disks: the trait that every disk of the bus keeps to, with what a crash may leave of it, a disk in memory that tells
//! all of this, and a disk over a file that tells nothing. It stands on `bus_types`. The layers above write to disks
//! through the trait `Disk` alone, and prove from its clauses what a crash at any moment leaves (`specs/Disk.antt`).
#![tactic(auto)]

mod allowance;
mod disk;
mod file;
mod memory;

pub use disk::Disk;
pub use file::FileDisk;
pub use memory::{MemoryDisk, Pick};
