//! Opening an image: the disk is synced, and then read.
ghost use Rattle.std.specs.Prelude.{◌≡◌, ℕ, ◌+◌, ◌≤◌, Err, IsTrue, IfOk, IsErrOf, List, length};
ghost use Rattle.u1_base.specs.Causes.{HasCauseOf};
ghost use Rattle.disk_model.specs.Disk.{IsCrashImage};
ghost use Rattle.disk_model.specs.Device.{IsSettled, StaysSettled, file_of};
ghost use Rattle.disk_model.specs.Moments.{LeavesOnly};
ghost use Rattle.disk_model.specs.Counts.{called, pieces};
ghost use Rattle.journal.specs.Journal.{Holds};
ghost use Rattle.journal.specs.Opening.{Opens};

use crate::{Bodies, Header, Journal, Stored, read_image};
use disk_model::Disk;
use std::alloc::Global;
use std::error::Error;
use std::fmt;
use u1_base::Memory;

/// What was opened.
#[derive(Drop)]
pub struct Opened {
    pub header: Header,
    pub journal: Journal,
    pub bodies: Bodies,
    /// The format of the image, `FIRST_FORMAT` or `SECOND_FORMAT`.
    pub format: u8,
}

/// Why an image was not opened.
#[derive(Clone, Copy, Debug, PartialEq, Eq)]
pub enum OpenFault {
    /// The place of the first field that cannot be read.
    Damaged(u64),
    Disk,
    Memory,
}

impl fmt::Display for OpenFault {
    fn fmt<W: fmt::Write>(&self, f: &mut fmt::Formatter<W>) -> fmt::Result {
        match self {
            OpenFault::Damaged(place) => write!(f, "the image is damaged at byte {place}"),
            OpenFault::Disk => f.write_str("the disk failed"),
            OpenFault::Memory => f.write_str("out of memory"),
        }
    }
}

impl Error for OpenFault {}

/// Syncs the disk, reads its image, and gives the bodies up to the first closed gate.
///
/// A crash on the way leaves no more than might have been left before. Where damage is found the
/// disk is settled all the same.
pub fn open_image<D: Disk>(alloc: Global, disk: &mut D) -> Result<Opened, OpenFault>
    ensures reads { (stored : List ℕ) × (IsTrue D.tells → stored ≡ (D.known disk.old).seen)
        × Opens stored result }
    ensures ok { IsTrue D.tells
        → IfOk result (λ opened. Holds opened.journal opened.format opened.header opened.bodies
        (file_of (D.known disk.new))) }
    ensures damaged { IsTrue D.tells → (place : ℕ) → result ≡ Err (OpenFault.Damaged place)
        → IsSettled (file_of (D.known disk.new)) }
    ensures stays_settled { IsTrue D.tells
        → StaysSettled (file_of (D.known disk.old)) (file_of (D.known disk.new)) }
    ensures seen { IsTrue D.tells → (D.known disk.new).seen ≡ (D.known disk.old).seen }
    ensures beside { IsTrue D.tells → (D.known disk.new).beside ≡ (D.known disk.old).beside }
    ensures any_moment { IsTrue D.tells
        → LeavesOnly (D.known disk.old) (D.known disk.new) (IsCrashImage (D.known disk.old).now) }
    ensures most_calls { IsTrue D.tells
        → (D.known disk.new).made ≤ called (2 + pieces (length (D.known disk.old).seen))
        (D.known disk.old).made }
    ensures cause { HasCauseOf OpenFault.Disk (D.known disk.old).faults
        (D.known disk.new).faults result }
{
    let stored = match read_image(alloc, disk) {
        Ok(stored) => stored,
        Err(fault) => return Err(fault),
    };
    match stored.copy_bodies(alloc) {
        Ok(bodies) => Ok(with_bodies(stored, bodies)),
        Err(Memory) => Err(OpenFault::Memory),
    }
}

fn with_bodies(stored: Stored, bodies: Bodies) -> Opened
    ensures { result ≡ record {
      header = stored.header;
      journal = stored.journal;
      bodies = bodies;
      format = stored.format;
    } }
{
    let journal = stored.journal();
    let format = stored.format();
    let header = stored.into_header();
    Opened {
        header,
        journal,
        bodies,
        format,
    }
}
