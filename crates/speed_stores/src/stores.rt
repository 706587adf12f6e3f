//! Stores on disks in memory.
ghost use Rattle.std.specs.Prelude.{IfOk, OnOk, true};
ghost use Rattle.disk_model.specs.MemDisk.{mem_known};
ghost use Rattle.replica_volume.specs.Volume.{IsOpenVolume};

use crate::steps::own;
use disk_model::MemDisk;
use disks::{DiskName, Disks};
use journal::Header;
use replica_core::Replica;
use replica_state::Step;
use replica_volume::Volume;
use speed_common::{Fault, done, elapsed, started};
use std::alloc::Global;
use std::time::Duration;
use u1_base::limits::GREATEST_IMAGE_LIMIT;
use u1_base::{Bytes, DbName, Memory, Numbers};

/// A disk in memory that holds these bytes.
pub fn disk_of(alloc: Global, bytes: &[u8]) -> Result<MemDisk, Memory> {
    let mut held = Bytes::new(alloc);
    held.extend(bytes)?;
    Ok(MemDisk::new(alloc, held, Numbers::new(alloc)))
}

/// Three disks in memory, of which the root and left hold these bytes.
pub fn disks_of(alloc: Global, root: &[u8], left: &[u8]) -> Result<Disks<MemDisk>, Memory> {
    let root = disk_of(alloc, root)?;
    let left = disk_of(alloc, left)?;
    Ok(Disks::new(root, left, disk_of(alloc, b"")?))
}

/// The empty store of a replica, which lies on the left disk.
pub fn store(alloc: Global) -> Result<Volume<MemDisk>, Fault>
    ensures { IfOk result (IsOpenVolume true mem_known) }
{
    let header = Header {
        name: done(DbName::read(alloc, "speed"))?,
        uid: own(alloc)?,
        limit: GREATEST_IMAGE_LIMIT,
    };
    match Volume::init(alloc, disks_of(alloc, b"", b"")?, header) {
        Ok(volume) => Ok(volume),
        Err((_disks, _fault)) => Err(Fault::Run),
    }
}

/// Ends a store: the state is given back with its disks.
pub fn end(volume: Volume<MemDisk>) {
    let _disks = volume.into_disks();
}

/// The disks of a store of these steps, which are committed one by one.
pub fn filled(alloc: Global, steps: Vec<Step>) -> Result<Disks<MemDisk>, Fault> {
    let mut volume = store(alloc)?;
    let committed = commit_all(&mut volume, steps);
    let disks = volume.into_disks();
    committed?;
    Ok(disks)
}

/// The bytes on the left disk.
pub fn image_of(alloc: Global, disks: &Disks<MemDisk>) -> Result<Bytes, Memory> {
    let mut image = Bytes::new(alloc);
    image.extend(disks.disk(DiskName::Left).bytes())?;
    Ok(image)
}

/// Commits steps, one by one, and times that. A function of the built program, so that `.ci/growth`
/// can count what each call does.
#[inline(never)]
pub fn timed<R: Replica>(
    rt: &HostRuntime,
    replica: &mut R,
    steps: Vec<Step>,
) -> Result<Duration, Fault>
    requires { R.is_open replica.old }
    ensures { OnOk result (R.is_open replica.new) }
{
    let before = started(rt)?;
    commit_all(replica, steps)?;
    elapsed(rt, before)
}

fn commit_all<R: Replica>(replica: &mut R, steps: Vec<Step>) -> Result<(), Fault>
    requires { R.is_open replica.old }
    ensures { OnOk result (R.is_open replica.new) }
{
    for step in steps {
        commit(replica, step)?;
    }
    Ok(())
}

// Commits a step, which has to fit.
fn commit<R: Replica>(replica: &mut R, step: Step) -> Result<(), Fault>
    requires { R.is_open replica.old }
    ensures { OnOk result (R.is_open replica.new) }
{
    if !replica.state().fits(&step) {
        return Err(Fault::Run);
    }
    match replica.commit(step) {
        Ok(()) => Ok(()),
        Err(_) => Err(Fault::Run),
    }
}

/// Stages steps, flushes them together, and times that.
pub fn timed_group<R: Replica>(
    rt: &HostRuntime,
    replica: &mut R,
    steps: Vec<Step>,
) -> Result<Duration, Fault>
    requires { R.is_open replica.old }
    ensures { OnOk result (R.is_open replica.new) }
{
    let before = started(rt)?;
    stage_all(replica, steps)?;
    flush(replica)?;
    elapsed(rt, before)
}

fn stage_all<R: Replica>(replica: &mut R, steps: Vec<Step>) -> Result<(), Fault>
    requires { R.is_open replica.old }
    ensures { OnOk result ((kept : _) × R.stages replica.new kept) }
{
    for step in steps {
        stage(replica, step)?;
    }
    Ok(())
}

// Stages a step, which has to fit.
fn stage<R: Replica>(replica: &mut R, step: Step) -> Result<(), Fault>
    requires { (kept : _) × R.stages replica.old kept }
    ensures { OnOk result ((kept : _) × R.stages replica.new kept) }
{
    if !replica.state().fits(&step) {
        return Err(Fault::Run);
    }
    match replica.stage(step) {
        Ok(()) => Ok(()),
        Err(_) => Err(Fault::Run),
    }
}

fn flush<R: Replica>(replica: &mut R) -> Result<(), Fault>
    requires { (kept : _) × R.stages replica.old kept }
    ensures { OnOk result (R.is_open replica.new) }
{
    match replica.flush() {
        Ok(()) => Ok(()),
        Err(_) => Err(Fault::Run),
    }
}
