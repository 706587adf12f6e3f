//! What holds between the places that two replicas keep of each other, and what keeps it.
//!
//! The crate has definitions and lemmas; it runs nothing.
#![tactic(auto)]
