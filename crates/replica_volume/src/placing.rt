//! Putting an image that was spelled anew in the place of the one that stands.
ghost use Rattle.std.specs.Prelude.{◌≡◌, ◌≢◌, IfOk, IsErrOf, IsTrue, length};
ghost use Rattle.u1_base.specs.Causes.{HasCauseOf};
ghost use Rattle.compaction.specs.Images.{image_of};
ghost use Rattle.conflicts.specs.State.{History};
ghost use Rattle.disks.specs.Disks.{disks_known};
ghost use Rattle.volume.specs.Store.{StandsOnOther};
ghost use Rattle.replica_volume.specs.inner.Placing.{IsSpelled, LeavesOldOrSpelled, StandsWith};

use compaction::Spelled;
use disk_model::{Disk, DiskFailed};
use disks::{CompactFault, DiskName, Disks, OpenFault};
use journal::{Header, Journal, NewImage};
use record_codec::Uids;
use std::alloc::Global;
use u1_base::Memory;
use volume::put_in_place;

/// An image of format 2 that stands: its side, its journal, and the uids that have numbers in it.
#[derive(Drop)]
pub(crate) struct Standing {
    pub(crate) side: DiskName,
    pub(crate) journal: Journal,
    pub(crate) uids: Uids,
}

/// Why an image was not put in place.
#[derive(Clone, Copy, PartialEq, Eq)]
pub(crate) enum PlaceFault {
    Disk,
    Memory,
}

impl From<Memory> for PlaceFault {
    ghost use Rattle.std.specs.Prelude.{◌≡◌};
    ghost use Rattle.replica_volume.specs.declared.placing.PlaceFault.TheVariants as fault;

    ghost from_gives = { λ _ e. e ≡ fault.Memory };

    fn from(_memory: Memory) -> PlaceFault {
        PlaceFault::Memory
    }
}

impl From<DiskFailed> for PlaceFault {
    ghost use Rattle.std.specs.Prelude.{◌≡◌};
    ghost use Rattle.replica_volume.specs.declared.placing.PlaceFault.TheVariants as fault;

    ghost from_gives = { λ _ e. e ≡ fault.Disk };

    fn from(_failed: DiskFailed) -> PlaceFault {
        PlaceFault::Disk
    }
}

impl From<PlaceFault> for OpenFault {
    ghost use Rattle.std.specs.Prelude.{◌≡◌};
    ghost use Rattle.replica_volume.specs.Faults.{fault_placing};

    ghost from_gives = { λ fault e. e ≡ fault_placing fault };

    fn from(fault: PlaceFault) -> OpenFault {
        match fault {
            PlaceFault::Disk => OpenFault::Disk,
            PlaceFault::Memory => OpenFault::Memory,
        }
    }
}

impl From<PlaceFault> for CompactFault {
    ghost use Rattle.std.specs.Prelude.{◌≡◌};
    ghost use Rattle.replica_volume.specs.Faults.{fault_compacting};

    ghost from_gives = { λ fault e. e ≡ fault_compacting fault };

    fn from(fault: PlaceFault) -> CompactFault {
        match fault {
            PlaceFault::Disk => CompactFault::Disk,
            PlaceFault::Memory => CompactFault::Memory,
        }
    }
}

/// Writes the image of this header and these bodies on this side, and lets the root name it then.
///
/// All memory is taken before a disk is called. A crash on the way leaves the store that stood on
/// the other side, or the new one.
pub(crate) fn put_spelled<D: Disk>(
    alloc: Global,
    disks: &mut Disks<D>,
    header: &Header,
    spelled: Spelled,
    to: DiskName,
) -> Result<Standing, PlaceFault>
    requires side { to ≢ DiskName.Root }
    requires store { IsTrue D.tells → StandsOnOther to (disks_known D.known disks.old).files }
    requires spelled { (h : History) × IsSpelled header.now.uid h spelled }
    ensures ok { IsTrue D.tells
        → IfOk result (λ s. (h : History) → IsSpelled header.now.uid h spelled
        → StandsWith header.now h s (disks_known D.known disks.new).files) }
    ensures side { IfOk result (λ s. s.side ≡ to) }
    ensures limit { IfOk result (λ s. s.journal.limit ≡ header.now.limit) }
    ensures length { (h : History) → IsSpelled header.now.uid h spelled
        → IfOk result (λ s. s.journal.length ≡ length (image_of header.now h)) }
    ensures uids { IfOk result (λ s. s.uids ≡ spelled.uids) }
    ensures any_moment { IsTrue D.tells
        → (h : History) → IsSpelled header.now.uid h spelled → LeavesOldOrSpelled to header.now h
        (disks_known D.known disks.old) (disks_known D.known disks.new) }
    ensures untouched { IsErrOf result PlaceFault.Memory → disks.new ≡ disks.old }
    ensures cause { HasCauseOf PlaceFault.Disk
        (disks_known D.known disks.old).faults (disks_known D.known disks.new).faults result }
{
    let Spelled { bodies, uids } = spelled;
    let image = NewImage::of(alloc, header, bodies.as_slice())?;
    let journal = put_in_place(disks, &image, to)?;
    Ok(Standing {
        side: to,
        journal,
        uids,
    })
}
