//! Searches and comparisons of bytes that go 16 bytes at a time, and abbreviated keys of up to 16
//! bytes.
//!
//! Each call answers exactly what its plain definition says, for every length. None takes memory,
//! none fails.
#![tactic(auto)]

mod abbreviated;
mod ascii;
mod block;
mod lines;
mod order;

pub use abbreviated::abbreviated_key;
pub use ascii::{is_ascii, lower_ascii};
pub use lines::find_break;
pub use order::{common_prefix, compare};
