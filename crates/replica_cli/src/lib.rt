//! The commands of the program over three disks, each from its words to its printed lines and its
//! status.
//!
//! `run` is the top call. Its one clause, `Runs`, says how the words read, and what their command
//! leaves of the disks, of the input and of the output: it cites the contract of `store_commands`
//! over what is known of the three disks.
#![tactic(auto)]

mod seeds;
mod store;
mod top;

pub use seeds::needs_seed;
pub use store::StoreOnDisks;
pub use top::run;
