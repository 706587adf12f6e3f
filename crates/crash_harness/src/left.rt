//! What a stop leaves of a disk, and of three disks at one moment.
ghost use Rattle.std.specs.Prelude.{◌<◌};
ghost use Rattle.disk_model.specs.MemDisk.{mem_calls};

use crate::Files;
use disk_model::{Choice, MemDisk};
use disks::{DiskName, Disks};
use std::alloc::Global;
use u1_base::{Bytes, Memory};

/// How a stop may leave what was not synced.
pub const CHOICES: &[Choice] = &[
    Choice::Nothing,
    Choice::Whole,
    Choice::FirstHalf,
    Choice::Fill(0),
    Choice::Fill(1),
];

/// What a stop now leaves of the disk, by each choice.
pub fn images_now(alloc: Global, disk: &MemDisk) -> Result<Vec<Bytes>, Memory> {
    let mut images = Vec::new(alloc);
    for choice in CHOICES {
        images.push(disk.crash_image_now(alloc, *choice)?)?;
    }
    Ok(images)
}

/// What a stop during the call of this number left of the disk, by each choice.
pub fn images_during(alloc: Global, disk: &MemDisk, call: u64) -> Result<Vec<Bytes>, Memory>
    requires { call < mem_calls disk.now }
{
    let mut images = Vec::new(alloc);
    for choice in CHOICES {
        images.push(disk.crash_image(alloc, call, *choice)?)?;
    }
    Ok(images)
}

/// What a stop leaves of three disks at one moment: of each disk an image by each choice, whatever
/// is left of the other two.
#[derive(Drop)]
pub struct Left {
    roots: Vec<Bytes>,
    lefts: Vec<Bytes>,
    rights: Vec<Bytes>,
}

impl Left {
    /// How many triples of images there are.
    pub const COUNT: usize = 125;

    /// What a stop now leaves.
    pub fn of(alloc: Global, disks: &Disks<MemDisk>) -> Result<Left, Memory> {
        let roots = images_now(alloc, disks.disk(DiskName::Root))?;
        let lefts = images_now(alloc, disks.disk(DiskName::Left))?;
        let rights = images_now(alloc, disks.disk(DiskName::Right))?;
        Ok(Left {
            roots,
            lefts,
            rights,
        })
    }

    /// The triple of this number, from 0 on. There are `COUNT`.
    pub fn files(&self, number: usize) -> Option<Files<'_>> {
        let root = self.roots.get(number / 25)?;
        let left = self.lefts.get(number / 5 % 5)?;
        let right = self.rights.get(number % 5)?;
        Some(Files(root.as_slice(), left.as_slice(), right.as_slice()))
    }
}
