//! The bytes of three files, and disks in memory that hold them.
ghost use Rattle.std.specs.Prelude.{◌≡◌, IfOk};
ghost use Rattle.disk_model.specs.Device.{untouched};
ghost use Rattle.disk_model.specs.MemDisk.{mem_failing, mem_known};

use disk_model::MemDisk;
use disks::{DiskName, Disks};
use std::alloc::Global;
use u1_base::{Bytes, Memory, Numbers};

/// The bytes of the three files of a store: the root, left and right.
#[derive(Clone, Copy)]
pub struct Files<'a>(pub &'a [u8], pub &'a [u8], pub &'a [u8]);

impl<'a> Files<'a> {
    /// The file of this disk.
    pub fn file(&self, name: DiskName) -> &'a [u8] {
        match name {
            DiskName::Root => self.0,
            DiskName::Left => self.1,
            DiskName::Right => self.2,
        }
    }

    /// The files with another one in the place of that of this disk.
    pub fn with(&self, name: DiskName, file: &'a [u8]) -> Files<'a> {
        match name {
            DiskName::Root => Files(file, self.1, self.2),
            DiskName::Left => Files(self.0, file, self.2),
            DiskName::Right => Files(self.0, self.1, file),
        }
    }
}

/// The calls that fail: those of this disk with these numbers, which count its calls from 0.
#[derive(Clone, Copy)]
pub struct Failing<'a> {
    pub disk: DiskName,
    pub calls: &'a [u64],
}

/// No call fails.
pub const NO_FAILING: Failing = Failing {
    disk: DiskName::Root,
    calls: &[],
};

impl<'a> Failing<'a> {
    // Those of the disk of this name.
    fn on(&self, name: DiskName) -> &'a [u64] {
        if self.disk == name { self.calls } else { &[] }
    }
}

/// A disk that holds these bytes, and fails at its calls of these numbers.
pub fn disk_of(alloc: Global, bytes: &[u8], failing: &[u64]) -> Result<MemDisk, Memory>
    ensures known { IfOk result (λ disk. mem_known disk ≡ untouched bytes.now) }
    ensures failing { IfOk result (λ disk. mem_failing disk ≡ failing.now) }
{
    let bytes = Bytes::from_vec(bytes.to_vec(alloc)?);
    let failing = Numbers::from_vec(failing.to_vec(alloc)?);
    Ok(MemDisk::new(alloc, bytes, failing))
}

/// Three disks that hold these files, where these calls fail.
pub fn disks_of(alloc: Global, files: &Files, failing: &Failing) -> Result<Disks<MemDisk>, Memory> {
    let root = disk_of(alloc, files.0, failing.on(DiskName::Root))?;
    let left = disk_of(alloc, files.1, failing.on(DiskName::Left))?;
    let right = disk_of(alloc, files.2, failing.on(DiskName::Right))?;
    Ok(Disks::new(root, left, right))
}

/// Whether these are the wanted bytes. Compared in a function of its own, which keeps the proofs of
/// its callers short.
pub fn are(bytes: &[u8], want: &[u8]) -> bool {
    bytes == want
}

/// Whether a read of the three gives these files.
pub fn hold(disks: &Disks<MemDisk>, files: &Files) -> bool {
    are(disks.disk(DiskName::Root).bytes(), files.0)
        && are(disks.disk(DiskName::Left).bytes(), files.1)
        && are(disks.disk(DiskName::Right).bytes(), files.2)
}

/// Whether the three were given so many calls: the root, left and right.
pub fn got(disks: &Disks<MemDisk>, root: u64, left: u64, right: u64) -> bool {
    disks.disk(DiskName::Root).calls() == root
        && disks.disk(DiskName::Left).calls() == left
        && disks.disk(DiskName::Right).calls() == right
}
