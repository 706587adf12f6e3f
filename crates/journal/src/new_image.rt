//! An image that is spelled in memory before a disk is called.
ghost use Rattle.std.specs.Prelude.{◌≡◌, IsTrue, IfOk, OnOk};
ghost use Rattle.u1_base.specs.Causes.{HasCause};
ghost use Rattle.disk_model.specs.Disk.{IsAny};
ghost use Rattle.disk_model.specs.Device.{IsSettled, file_of};
ghost use Rattle.disk_model.specs.Moments.{LeavesOnly};
ghost use Rattle.disk_model.specs.Counts.{MakesCalls};
ghost use Rattle.journal.specs.Image.{AreBodies};
ghost use Rattle.journal.specs.Spelled.{HoldsSpelled, Spells, extent_of};

use crate::spelling::image_in_bytes;
use crate::{Header, Journal};
use disk_model::{Disk, DiskFailed, cut_write_synced};
use std::alloc::Global;
use std::marker::Model;
use u1_base::{Bytes, Memory};

/// An image of format 2 that is spelled and not written yet: its bytes, and its limit.
///
/// Spelling takes all the memory that an image needs, so that none is wanted once a disk is called.
#[derive(Drop)]
pub struct NewImage {
    bytes: Bytes,
    limit: u64,
}

impl Model for NewImage {
    ghost use Rattle.std.specs.Prelude.{◌≤◌, length};
    ghost use Rattle.journal.specs.Image.{IsLimit};
    ghost use Rattle.journal.specs.Spelled.{Spelled};

    ghost Value = { Spelled };

    ghost view = { λ n. record { bytes = n.bytes; limit = n.limit } };

    ghost invariant = { λ n. (1 ≤ length n.bytes) × IsLimit n.limit };
}

impl NewImage {
    /// Spells the image of this header and these bodies.
    pub fn of(alloc: Global, header: &Header, bodies: &[Bytes]) -> Result<NewImage, Memory>
        requires { AreBodies bodies.now }
        ensures { IfOk result (λ image. Spells header.now bodies.now image) }
    {
        let bytes = image_in_bytes(alloc, header, bodies)?;
        let limit = header.limit;
        Ok(NewImage { bytes, limit })
    }

    /// Its bytes, up to and with the closed gate.
    pub fn as_slice(&self) -> &[u8]
        ensures { result.now ≡ self.now.bytes }
    {
        self.bytes.as_slice()
    }

    /// The journal of a file that has just these bytes.
    pub fn journal(&self) -> Journal
        ensures { result ≡ extent_of self.now }
    {
        Journal::of(self.bytes.len() as u64, self.limit)
    }

    /// Puts the image in the place of all that the disk holds: one cut, one write, one sync.
    ///
    /// A crash on the way may leave anything, and so may a failure.
    pub fn write<D: Disk>(&self, disk: &mut D) -> Result<Journal, DiskFailed>
        ensures written { IsTrue D.tells → OnOk result ((D.known disk.new).seen ≡ self.now.bytes) }
        ensures durable { IsTrue D.tells → OnOk result (IsSettled (file_of (D.known disk.new))) }
        ensures ok { IsTrue D.tells
            → IfOk result (λ journal. HoldsSpelled self.now journal (file_of (D.known disk.new))) }
        ensures journal { IfOk result (λ journal. journal ≡ extent_of self.now) }
        ensures beside { IsTrue D.tells → (D.known disk.new).beside ≡ (D.known disk.old).beside }
        ensures any_moment { IsTrue D.tells
            → LeavesOnly (D.known disk.old) (D.known disk.new) IsAny }
        ensures calls { MakesCalls 3 (D.known disk.old) (D.known disk.new) result }
        ensures cause { HasCause (D.known disk.old).faults (D.known disk.new).faults result }
    {
        cut_write_synced(disk, self.as_slice())?;
        Ok(self.journal())
    }
}
