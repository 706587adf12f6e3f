//! The files of a store in a folder.
//!
//! `files_in` names the three files, as the disks of a store. `lock_folder` takes the lock under
//! which a store is made, and `failed_file` says which of the files failed. Nothing here reads or
//! writes a file: whoever holds the disks does, as `Volume` of `replica_volume`.
#![tactic(auto)]

mod files;
mod lock;
#[cfg(test)]
mod tests;

pub use files::{StoreFiles, failed_file, files_in};
pub use lock::{FolderLock, lock_folder};
