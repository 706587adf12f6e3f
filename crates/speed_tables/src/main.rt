//! Measured workloads of the libraries below a replica: `speed_tables WORKLOAD SIZE`.
//!
//! Standard output gets one line, `WORKLOAD SIZE RESULT`, which is the same at every run. Standard
//! error gets a line at each moment of the work, and last `WORKLOAD SIZE ours MICROSECONDS peer
//! MICROSECONDS`, where the peer is the plainest thing that a user would take instead, timed in the
//! same run.
#![tactic(auto)]

mod answers;
mod changes;
mod contents;
mod heads;
mod lanes;
mod large;
mod lines;
mod pairs;
mod receipts;
mod sent;
mod set;
mod stream;
mod table;

use crate::answers::Answers;
use crate::changes::Changes;
use crate::contents::Contents;
use crate::heads::Heads;
use crate::lanes::Lanes;
use crate::large::Large;
use crate::lines::Lines;
use crate::pairs::Pairs;
use crate::receipts::Receipts;
use crate::stream::Stream;
use crate::table::Documents;
use speed_common::{Fault, Report, end, measure, read_words};
use std::process::ExitCode;

/// What is said where the words name no workload.
const USAGE: &str = "usage: speed_tables answers|changes|contents|heads|lanes|large|lines|pairs|\
    receipts|stream|table SIZE";

fn main(rt: HostRuntime) -> ExitCode {
    let report = measured(&rt);
    end(&rt, USAGE, report)
}

// The workload that the words name.
fn measured(rt: &HostRuntime) -> Result<Report, Fault> {
    let asked = read_words(rt)?;
    workload(rt, asked.name.as_str(), asked.size)
}

fn workload(rt: &HostRuntime, name: &str, size: u32) -> Result<Report, Fault> {
    match name {
        "answers" => measure::<Answers>(rt, "answers", size),
        "changes" => measure::<Changes>(rt, "changes", size),
        "contents" => measure::<Contents>(rt, "contents", size),
        "heads" => measure::<Heads>(rt, "heads", size),
        "lanes" => measure::<Lanes>(rt, "lanes", size),
        "large" => measure::<Large>(rt, "large", size),
        "lines" => measure::<Lines>(rt, "lines", size),
        "pairs" => measure::<Pairs>(rt, "pairs", size),
        "receipts" => measure::<Receipts>(rt, "receipts", size),
        "stream" => measure::<Stream>(rt, "stream", size),
        "table" => measure::<Documents>(rt, "table", size),
        _ => Err(Fault::Words),
    }
}
