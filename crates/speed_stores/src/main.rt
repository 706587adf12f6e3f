//! Measured workloads of a replica on three disks in memory: `speed_stores WORKLOAD SIZE`.
//!
//! Standard output gets one line, `WORKLOAD SIZE RESULT`, which is the same at every run. Standard
//! error gets a line at some moments of the work, and last `WORKLOAD SIZE ours MICROSECONDS peer
//! MICROSECONDS`, where the peer is the plainest thing that a user would take instead, timed in the
//! same run.
#![tactic(auto)]

mod commit;
mod compact;
mod first;
mod image;
mod open;
mod steps;
mod stores;

use speed_common::{Fault, Report, end, read_words};
use std::process::ExitCode;

/// What is said where the words name no workload.
const USAGE: &str = "usage: speed_stores commit|compact|first|group|open|open_indexed SIZE";

fn main(rt: HostRuntime) -> ExitCode {
    let report = measured(&rt);
    end(&rt, USAGE, report)
}

// The workload that the words name.
fn measured(rt: &HostRuntime) -> Result<Report, Fault> {
    let asked = read_words(rt)?;
    workload(rt, asked.name.as_str(), asked.size)
}

fn workload(rt: &HostRuntime, name: &str, size: u32) -> Result<Report, Fault> {
    match name {
        "commit" => commit::measure(rt, "commit", size, false),
        "compact" => compact::measure(rt, size),
        "first" => first::measure(rt, size),
        "group" => commit::measure(rt, "group", size, true),
        "open" => open::measure(rt, "open", size, false),
        "open_indexed" => open::measure(rt, "open_indexed", size, true),
        _ => Err(Fault::Words),
    }
}
