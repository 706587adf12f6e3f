//! The compaction of a replica's history: which steps are left of it, and what a list of steps
//! takes as an image.
//!
//! A compaction leaves the state that the history leaves, now and after any later steps, and its
//! image is no longer (`law_compaction`).
#![tactic(auto)]

mod compacting;
mod laws;
mod noted;
mod spelling;
mod standing;

pub use compacting::{Steps, compact, trim};
pub use laws::law_compaction;
pub use spelling::{Spelled, spell};
