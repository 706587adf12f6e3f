//! What a workload reports, and its moments.
use crate::Fault;
use std::process::ExitCode;
use std::time::{Duration, Instant};

/// One measured workload.
#[derive(Clone, Copy)]
pub struct Report {
    pub name: &'static str,
    pub size: u32,
    /// What was computed: it shows that the work was done, and is the same at every run.
    pub result: u64,
    pub ours: Duration,
    pub peer: Duration,
}

impl Report {
    // Prints the result and the times.
    fn print(&self, rt: &HostRuntime) -> ExitCode {
        let (name, size, result) = (self.name, self.size, self.result);
        let (ours, peer) = (self.ours.as_micros(), self.peer.as_micros());
        let printed = println!(rt; "{name} {size} {result}");
        let timed = eprintln!(rt; "{name} {size} ours {ours} peer {peer}");
        if printed.is_ok() && timed.is_ok() {
            ExitCode::SUCCESS
        } else {
            ExitCode::from(1)
        }
    }
}

/// Prints the report, or says why there is none: `usage`, where the words name no workload.
pub fn end(rt: &HostRuntime, usage: &str, report: Result<Report, Fault>) -> ExitCode {
    match report {
        Ok(report) => report.print(rt),
        Err(Fault::Words) => {
            let _ = rt.eprintln(usage);
            ExitCode::from(2)
        }
        Err(Fault::Run) => {
            let _ = rt.eprintln("the workload failed");
            ExitCode::from(1)
        }
    }
}

/// The time, from which a workload is measured.
pub fn started(rt: &HostRuntime) -> Result<Instant, Fault> {
    Ok(Instant::now(rt)?)
}

/// The time since then.
pub fn elapsed(rt: &HostRuntime, since: Instant) -> Result<Duration, Fault> {
    Ok(since.elapsed(rt)?)
}

/// Says a line on standard error, which marks a moment.
pub fn tell(rt: &HostRuntime, line: &str) -> Result<(), Fault> {
    Ok(rt.eprintln(line)?)
}
