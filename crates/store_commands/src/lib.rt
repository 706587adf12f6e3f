//! The commands over a store on its disks: each is opened, does its part, and prints its lines.
//!
//! `run_over` is the top call. Its one clause, `RunsWhole`, says for each outcome when it comes,
//! what it leaves in the store, what was read of the input and what is printed; and that a run
//! which nothing stops is done.
#![tactic(auto)]

mod all;
mod carrying;
mod changes;
mod compacting;
mod conflicting;
mod create;
mod delete;
mod doing;
mod get;
mod index_create;
mod index_delete;
mod index_list;
mod info;
mod init;
mod keys;
mod listing;
mod memory;
mod put;
mod query;
mod range;
mod resolve;
mod store;
mod top;

use command_lines::Outcome;
pub use memory::{MemOpened, MemStore};
pub use store::Store;
pub use top::{finish, run_over};

/// How far a command came: Ok where its text was printed, else how the run ends.
pub type Ended = Result<(), Outcome>;
