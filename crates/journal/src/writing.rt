//! Writing an image whole.
ghost use Rattle.std.specs.Prelude.{◌≡◌, Err, IsTrue, IfOk, OnOk};
ghost use Rattle.u1_base.specs.Causes.{HasCauseOf};
ghost use Rattle.disk_model.specs.Disk.{IsAny};
ghost use Rattle.disk_model.specs.Device.{file_of};
ghost use Rattle.disk_model.specs.Moments.{LeavesOnly};
ghost use Rattle.disk_model.specs.Counts.{MakesCalls};
ghost use Rattle.journal.specs.Image.{AreBodies, image};
ghost use Rattle.journal.specs.Journal.{Holds, IsExtent};
ghost use Rattle.journal.specs.declared.layout.TheConstants.{SECOND_FORMAT};

use crate::{Bodies, Header, Journal, NewImage};
use disk_model::{Disk, DiskFailed};
use std::alloc::Global;
use std::error::Error;
use std::fmt;

/// Why an image was not written.
#[derive(Clone, Copy, Debug, PartialEq, Eq)]
pub enum ImageFault {
    Disk,
    Memory,
}

impl fmt::Display for ImageFault {
    fn fmt<W: fmt::Write>(&self, f: &mut fmt::Formatter<W>) -> fmt::Result {
        match self {
            ImageFault::Disk => f.write_str("the disk failed"),
            ImageFault::Memory => f.write_str("out of memory"),
        }
    }
}

impl Error for ImageFault {}

/// Puts an image of format 2 in the place of all that the disk holds: one cut, one write, one sync.
///
/// A crash on the way may leave anything, and so may an answer `Disk`. At `Memory` the disk was not
/// called.
pub fn write_image<D: Disk>(
    alloc: Global,
    disk: &mut D,
    header: &Header,
    bodies: &Bodies,
) -> Result<Journal, ImageFault>
    requires { AreBodies bodies.now }
    ensures written { IsTrue D.tells
        → OnOk result ((D.known disk.new).seen
        ≡ image SECOND_FORMAT header.now bodies.now) }
    ensures ok { IsTrue D.tells
        → IfOk result (λ journal. Holds journal SECOND_FORMAT header.now bodies.now
        (file_of (D.known disk.new))) }
    ensures extent { IfOk result (λ journal. IsExtent SECOND_FORMAT header.now bodies.now journal) }
    ensures beside { IsTrue D.tells → (D.known disk.new).beside ≡ (D.known disk.old).beside }
    ensures any_moment { IsTrue D.tells → LeavesOnly (D.known disk.old) (D.known disk.new) IsAny }
    ensures untouched { result ≡ Err ImageFault.Memory → disk.new ≡ disk.old }
    ensures calls { MakesCalls 3 (D.known disk.old) (D.known disk.new) result }
    ensures cause { HasCauseOf ImageFault.Disk (D.known disk.old).faults
        (D.known disk.new).faults result }
{
    let Ok(image) = NewImage::of(alloc, header, bodies.as_slice()) else {
        return Err(ImageFault::Memory);
    };
    match image.write(disk) {
        Ok(journal) => Ok(journal),
        Err(DiskFailed) => Err(ImageFault::Disk),
    }
}
