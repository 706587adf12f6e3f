//! The words of a command line: which of them are a command, and what it is asked to do.
//!
//! The layer above may rest on `read_words`: it answers a command exactly for the words of the
//! table in `specs/Table.antt`, with each operand as its reader gives it, and else says what is
//! wrong with the words. clap decides whether a command has the right number of operands and its
//! option a value.
#![tactic(auto)]

mod command;
mod documents;
mod ends;
mod fault;
mod fits;
mod given;
mod indexes;
pub mod limits;
mod numbers;
mod operands;
mod parted;
mod read;
mod stores;
mod syncs;
mod synopsis;
mod verb;
mod word;

pub use command::{Command, Edit, Online, Show, View};
pub use fault::WordsFault;
pub use read::{operands_shown, read_words};
