//! The transaction log of a replica: it grows at its end, tells what changed since a generation,
//! and checks the positions that peers tell of it.
//!
//! A contract sees a log as the list of its entries, oldest first, and the number of entries that
//! it has room for.
#![tactic(auto)]

mod check;
mod entry;
mod laws;
mod log;
mod since;

pub use check::{Check, goes_on};
pub use entry::{Change, Changes, Entry};
pub use laws::{law_changes, law_growth, law_tests};
pub use log::Log;
