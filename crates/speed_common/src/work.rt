//! A workload, timed beside its peer.
use crate::Fault;
use crate::report::{Report, elapsed, started, tell};
use std::alloc::Global;

/// Work that is done twice: by our libraries, and by the plainest thing that a user would take
/// instead.
pub trait Workload: Drop {
    /// What both work on.
    fn make(alloc: Global, size: u32) -> Result<Self, Fault>;

    /// Does the work, and answers a number that shows it.
    fn ours(&mut self, alloc: Global) -> Result<u64, Fault>;

    /// Does the work of the peer, which has to come to the same number.
    fn peer(&mut self, alloc: Global) -> Result<u64, Fault>;
}

/// Makes the work, and times it beside its peer. On standard error a line each stands before the
/// work is made, before it is done, and after that.
pub fn measure<W: Workload>(
    rt: &HostRuntime,
    name: &'static str,
    size: u32,
) -> Result<Report, Fault> {
    tell(rt, name)?;
    let mut work = W::make(rt.alloc(), size)?;
    compared(rt, name, size, &mut work)
}

fn compared<W: Workload>(
    rt: &HostRuntime,
    name: &'static str,
    size: u32,
    work: &mut W,
) -> Result<Report, Fault> {
    tell(rt, "made")?;
    let before = started(rt)?;
    let result = work.ours(rt.alloc())?;
    let ours = elapsed(rt, before)?;
    tell(rt, "done")?;
    let before = started(rt)?;
    let other = work.peer(rt.alloc())?;
    let peer = elapsed(rt, before)?;
    if result != other {
        return Err(Fault::Run);
    }
    Ok(Report {
        name,
        size,
        result,
        ours,
        peer,
    })
}
