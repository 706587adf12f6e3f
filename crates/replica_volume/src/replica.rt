//! A replica on three disks.
use disk_model::Disk;
use disks::{DiskName, Disks};
use journal::{Journal, NewEntries};
use record_codec::Uids;
use replica_state::State;
use std::alloc::Global;
use std::mem::forget;

/// A replica whose steps are the bodies of an image, on one of two of its three disks. The third
/// disk, the root, names it.
#[derive(Drop)]
pub struct Volume<D: Disk> {
    pub(crate) alloc: Global,
    pub(crate) disks: Disks<D>,
    // The disk on which the image lies, left or right.
    pub(crate) side: DiskName,
    pub(crate) journal: Journal,
    pub(crate) uids: Uids,
    pub(crate) state: State,
    pub(crate) open: bool,
    // The bodies of the steps that are made and not kept on the disks yet.
    pub(crate) staged: NewEntries,
}

impl<D: Disk> Volume<D> {
    ghost use Rattle.std.specs.Prelude.{◌≡◌};

    /// Gives the disks back.
    pub fn into_disks(self) -> Disks<D>
        ensures { result ≡ self.disks }
    {
        let Volume { disks, .. } = self;
        disks
    }

    /// Gives the disks back, and leaves the memory of the state to the process: for a program that
    /// ends now. To give back each piece of a large state takes a good part of the time that it
    /// takes to open the store.
    pub fn leave(self) -> Disks<D>
        ensures { result ≡ self.disks }
    {
        let Volume { disks, state, .. } = self;
        forget(state);
        disks
    }
}
