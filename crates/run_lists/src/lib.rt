//! Runs of the program's commands one after the other, as a script makes them: what they leave of a
//! store, and what a stop of the machine leaves at any moment of any of them.
//!
//! `run_all` is the one call. Each run has the contract of `replica_cli::run`, and each answer of
//! an index is the filter of the live documents that stood then (`AnswersInTurn`). Over disks that
//! contracts can see, the store stands for a history that goes on, and no revision is lost that was
//! ever accepted (`KeepsAll`). `law_sessions` says the same of many lists, each of which is stopped
//! at some moment or comes to its end.
#![tactic(auto)]

mod laws;
mod list;

pub use laws::law_sessions;
pub use list::{Request, run_all};
