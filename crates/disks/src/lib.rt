//! Three disks as one, with one order of moments.
//!
//! `Disks` is a disk of `disk_model`: calls go to the one of the three that it is turned to. What
//! holds of the calls of `disk_model` and of those above it holds so of each of the three, and says
//! what a crash leaves of all three at one moment.
#![tactic(auto)]

mod fault;
mod history;
mod laws;
mod name;
mod synced;
mod three;
mod trio;

pub use fault::{CompactFault, MakeFault, OpenFault, Sizes};
pub use laws::{law_each_moment, law_moments, law_one_disk, law_reads, law_settled};
pub use name::DiskName;
pub use synced::{front_synced_on, write_synced_on};
pub use three::Disks;
