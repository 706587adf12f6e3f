//! A sorted map from ids of one kind, as document ids or replica uids, which can make room ahead.
//!
//! A contract sees the list of its pairs and that they go by id, each id once; and how many new
//! ones may be put without memory.
#![tactic(auto)]

mod entry;
mod table;
mod walk;

pub use table::Table;
pub use walk::Pairs;
