//! Disks: what a read gives, what a crash may leave, and the failures that are counted.
//!
//! `Disk` is the trait. `MemDisk` keeps a file in memory and answers what a crash during each of
//! its calls may leave; `FileDisk` is the adapter to a file. The libraries above make no device
//! call of their own: they write, cut and read by the functions here, which sync what they do.
#![tactic(auto)]

mod calls;
mod device;
mod file;
mod file_fault;
mod losses;
mod memory;
mod real_file;
mod size_limit;
mod synced;

pub use device::{Disk, DiskFailed};
pub use file::FileDisk;
pub use file_fault::{FileCall, FileFault};
pub use losses::Choice;
pub use memory::MemDisk;
pub use real_file::{LOCK_TRIES, LOCK_WAIT};
pub use size_limit::greatest_file_size;
pub use synced::{
    Front, ReadFault, cut_synced, cut_write_synced, first_byte, front_synced, read_synced,
    write_synced,
};
