//! A world of replicas that write, ask, serve, stop and lose messages, as a function on values, and
//! what holds of it after every list of steps.
//!
//! A serving is the one that is defined for a connection, and a session is made of the phases of
//! which the calls of a session are made. The crate has definitions and laws; it runs nothing.
#![tactic(auto)]

mod laws;

pub use laws::{law_ancestry, law_cover, law_worked};
