//! What tests of crashes share: disks in memory whose calls fail where it is told, and the images
//! that a stop leaves of them.
#![tactic(auto)]

mod files;
mod left;

pub use files::{Failing, Files, NO_FAILING, are, disk_of, disks_of, got, hold};
pub use left::{CHOICES, Left, images_during, images_now};
