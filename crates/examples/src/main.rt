//! Examples: short callers of the libraries, to start from.
//!
//! Each file has one example. Its contract says what the caller gets, and the program runs them all
//! and prints what they give. The wanted text was worked out by hand.
#![tactic(auto)]

mod canonical;
mod conflict;
mod folder;
mod pieces;
mod reopening;
mod tags;
mod telling;

use crate::telling::{tell_folder, tell_notes, tell_store, tell_tags, tell_texts};
use std::process::ExitCode;

fn main(rt: HostRuntime) -> ExitCode {
    match tell_all(&rt) {
        Some(()) => ExitCode::SUCCESS,
        None => ExitCode::FAILURE,
    }
}

fn tell_all(rt: &HostRuntime) -> Option<()> {
    tell_texts(rt)?;
    tell_notes(rt)?;
    tell_tags(rt)?;
    tell_store(rt)?;
    tell_folder(rt)
}
