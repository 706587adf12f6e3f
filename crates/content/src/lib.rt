//! Contents of documents: JSON objects with whole numbers only, read with every fault told apart,
//! and written as one canonical text.
//!
//! A contract sees a content as the tree of its root. A content that was read has a text that is
//! never longer than what was read, and that text reads as the same content.
#![tactic(auto)]

mod check;
mod contents;
mod convert;
mod fault;
mod flat;
mod laws;
mod made;
mod parts;
mod plain;
mod put;
mod scan;
mod spelled;
mod value;
mod whole;
mod write;

pub use contents::Content;
pub use fault::ContentFault;
pub use laws::law_contents;
pub use value::{Field, Json};
