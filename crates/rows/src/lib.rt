//! Tests as rows of data: a program of this library reads a file of rows from standard input, and
//! prints it anew with the answers that came. So the wanted text is the file itself.
//!
//! Of the lines of the file:
//! - `> TEXT`, or `>` alone, is an answer of an earlier run, and is left out;
//! - a blank line, a remark `# TEXT` and a title `## TEXT` are printed as they are;
//! - every other line asks: it is printed as it is, and behind it each answer that the program
//!   gives to it, as `> TEXT` on a line of its own.
//!
//! A program has an `Answers`, whose `answer` gets each line that asks and puts its answers into a
//! `Said`, and a `main` that is `run(&rt, &mut answers)`. `parts_of` parts a line into its words.
#![tactic(auto)]

mod numbers;
mod parts;
mod running;
mod said;

pub use numbers::{bytes_of_hex, number_of};
pub use parts::{Parts, parts_of};
pub use running::{Answers, run};
pub use said::Said;
