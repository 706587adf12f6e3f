//! Queries over the table of an index.
//!
//! A query has a value for each expression of the index: a text, a prefix with a star after it, or
//! a star alone. It finds the documents with a key that meets each value, by their least such key
//! and then by id. A range finds those with a key from a start to an end. Each answer is a filter
//! of the table's pairs, found by one search and a look at each pair from there until nothing more
//! can belong to it. In the table of documents it is a filter of these (`law_answers`).
#![tactic(auto)]

mod distinct;
mod documents;
mod fault;
mod once;
mod pattern;
mod range;
mod wanted;

pub use distinct::distinct_keys;
pub use documents::law_answers;
pub use fault::PatternFault;
pub use index_tables::compare_keys;
pub use pattern::{Part, Pattern};
pub use range::{between, matching};
