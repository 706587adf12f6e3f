//! A store of many edits on disks in memory is compacted, beside the opening of the same store.
ghost use Rattle.std.specs.Prelude.{true};
ghost use Rattle.disk_model.specs.MemDisk.{mem_known};
ghost use Rattle.replica_volume.specs.Volume.{IsOpenVolume};

use crate::open::{opened, written};
use crate::steps::edits;
use crate::stores::end;
use disk_model::MemDisk;
use replica_volume::Volume;
use speed_common::{Fault, Report, done, elapsed, started};
use std::time::Duration;

/// Times the compaction of a store of so many edits, ten for each document. The result is the
/// length of the new image in bytes.
pub fn measure(rt: &HostRuntime, size: u32) -> Result<Report, Fault> {
    let documents = (size / 10).max(1);
    let image = written(rt.alloc(), edits(rt.alloc(), 0, size, documents)?)?;
    let (mut volume, peer) = opened(rt, image.as_slice())?;
    let compacted = compacted(rt, &mut volume);
    end(volume);
    let (result, ours) = compacted?;
    Ok(Report {
        name: "compact",
        size,
        result,
        ours,
        peer,
    })
}

fn compacted(rt: &HostRuntime, volume: &mut Volume<MemDisk>) -> Result<(u64, Duration), Fault>
    requires { IsOpenVolume true mem_known volume.old }
{
    let before = started(rt)?;
    let sizes = done(volume.compact())?;
    let ours = elapsed(rt, before)?;
    Ok((sizes.after, ours))
}
