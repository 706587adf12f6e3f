//! The first commit of a store that was opened, beside the second one. Another store is opened
//! between the two, so that each comes right behind an opening, and finds in the processor's caches
//! what an opening leaves there.
use crate::steps::{MANY, edits};
use crate::stores::{filled, timed};
use disk_model::MemDisk;
use disks::Disks;
use replica_core::Replica;
use replica_volume::Volume;
use speed_common::{Fault, Report};
use std::alloc::Global;
use std::time::Duration;

/// So many documents each store has where it is opened for the first time.
const DOCUMENTS: u32 = 1000;

// How long the first commits took, and the second ones.
#[derive(Clone, Copy)]
struct Times {
    first: Duration,
    second: Duration,
}

// The disks of the store that was opened last, and of the other one. They grew as the documents
// were put in, so that they have room for more.
#[derive(Drop)]
struct Closed {
    disks: Disks<MemDisk>,
    other: Disks<MemDisk>,
    documents: u64,
    times: Times,
}

/// Opens a store so many times, one after the other, and times its first commit and its second
/// one. The result is the number of its documents at the end.
pub fn measure(rt: &HostRuntime, size: u32) -> Result<Report, Fault> {
    let mut closed = new(rt.alloc())?;
    for number in 0..size {
        closed = again(rt, closed, number)?;
    }
    Ok(Report {
        name: "first",
        size,
        result: closed.documents,
        ours: closed.times.first,
        peer: closed.times.second,
    })
}

fn new(alloc: Global) -> Result<Closed, Fault> {
    let disks = filled(alloc, edits(alloc, 0, DOCUMENTS, MANY)?)?;
    let other = filled(alloc, edits(alloc, 0, DOCUMENTS, MANY)?)?;
    Ok(Closed {
        disks,
        other,
        documents: u64::from(DOCUMENTS),
        times: Times {
            first: Duration::ZERO,
            second: Duration::ZERO,
        },
    })
}

fn again(rt: &HostRuntime, closed: Closed, number: u32) -> Result<Closed, Fault> {
    match Volume::open_volume(rt.alloc(), closed.disks) {
        Ok(mut volume) => {
            let committed = committed(rt, &mut volume, closed.other, number, closed.times);
            let documents = volume.state().docs().length();
            let disks = volume.into_disks();
            let (times, other) = committed?;
            Ok(Closed {
                disks,
                other,
                documents,
                times,
            })
        }
        Err((_disks, _fault)) => Err(Fault::Run),
    }
}

fn committed<R: Replica>(
    rt: &HostRuntime,
    replica: &mut R,
    other: Disks<MemDisk>,
    number: u32,
    times: Times,
) -> Result<(Times, Disks<MemDisk>), Fault>
    requires { R.is_open replica.old }
{
    let place = number.saturating_mul(2).saturating_add(DOCUMENTS);
    let next = place.saturating_add(1);
    let one = edits(rt.alloc(), place, next, MANY)?;
    let two = edits(rt.alloc(), next, next.saturating_add(1), MANY)?;
    let first = timed(rt, replica, one)?;
    let other = reopened(rt.alloc(), other)?;
    let second = timed(rt, replica, two)?;
    let times = Times {
        first: times.first.saturating_add(first),
        second: times.second.saturating_add(second),
    };
    Ok((times, other))
}

fn reopened(alloc: Global, disks: Disks<MemDisk>) -> Result<Disks<MemDisk>, Fault> {
    match Volume::open_volume(alloc, disks) {
        Ok(volume) => Ok(volume.into_disks()),
        Err((_disks, _fault)) => Err(Fault::Run),
    }
}
