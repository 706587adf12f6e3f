//! The table of an index: the pairs of a key and the id of a document that has it, in order.
//!
//! A contract sees the list of its pairs and that they go by key and then by id, each once; and how
//! many more may be put in without memory. Who counts is told how often a search looks at a pair,
//! at most. The laws say how a table follows the documents that it is of.
#![tactic(auto)]

mod abbreviated;
mod edits;
mod follows;
mod order;
mod pair;
mod pairs;
mod table;
mod walk;

pub use follows::{law_changes, law_documents, law_growth};
pub use order::compare_keys;
pub use pairs::Pairs;
pub use table::IndexTable;
pub use walk::Entries;
