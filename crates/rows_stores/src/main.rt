//! Rows about stores: commands, and what no command does, over stores in memory.
//!
//! `rows` says how a file of rows is read and answered. The rows of this program are:
//! - `= NAME` makes a store of this name, with no bytes; `= NAME like OTHER` with those that the
//!   store OTHER has now;
//! - `NAME WORDS.. [<TEXT]` runs the command of these words over the store, with the text as its
//!   input. The answers are what it prints, and `[N]` for a status N other than 0;
//! - `! NAME DO..` does to the store what no command does:
//!   - `bytes FILE FROM N` and `length FILE` tell of a file (`root`, `left` or `right`),
//!     `set FILE PLACE HEX` and `cut FILE N` change it, `add HEX` adds an entry with this body to
//!     the left image, and `calls` tells how often the last command called each disk;
//!   - `fail FILE|input|output N` makes a call of the next command fail, by its number from 0;
//!   - `take ID REV CONTENT from UID GENERATION [TRANS]` takes a revision that a sync asked for,
//!     and `sent ..` one that a peer sends; a content `-` is a deletion;
//!   - `move known|told UID GENERATION [TRANS]` moves a position, and `check GENERATION TRANS`
//!     checks one against the log;
//!   - `cuts QUESTION..` asks over the left image, cut to each shorter length, and tells of each
//!     answer at which lengths it comes;
//!   - `runs WORDS.. ; WORDS.. [<TEXT]` makes several runs, one after the other, each of which has
//!     this input; the last answer has the status of each;
//!   - `stops QUESTION.. : WORDS.. [<TEXT]` runs the command over and over, each call of a disk, of
//!     the input and of the output failing in turn, and then with none; each time it stops the
//!     machine, and each disk loses what was not synced in one of five ways. It tells how the
//!     command ended and what the question finds then, each answer once. A run whose output failed
//!     has `front` in the place of what it printed. The store stays as it was.
//!
//! `T1`, `T2` and so on are the transaction ids of the generations 1, 2 and so on.
#![tactic(auto)]

mod acts;
mod ids;
mod lists;
mod receipts;
mod runs;
mod shelf;
mod stops;
mod store;

use crate::shelf::Shelf;
use rows::run;
use std::process::ExitCode;

fn main(rt: HostRuntime) -> ExitCode {
    let mut shelf = Shelf::new(rt.alloc());
    run(&rt, &mut shelf)
}
