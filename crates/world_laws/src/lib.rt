//! What holds in every world of the places that replicas keep, and of quiet sessions.
//!
//! The crate has definitions and laws; it runs nothing.
#![tactic(auto)]

mod laws;

pub use laws::{law_positions, law_quiet_sync, law_quiet_worked};
