//! Making a store.
ghost use Rattle.std.specs.Prelude.{◌≡◌, ◌≢◌, ℕ, List, [], IfOk, IsErrOf, IsTrue};
ghost use Rattle.u1_base.specs.Causes.{HasCauseOf};
ghost use Rattle.disks.specs.Disks.{disks_known};
ghost use Rattle.disks.specs.Joint.{seen_of};
ghost use Rattle.volume.specs.Store.{found_of};
ghost use Rattle.volume.specs.Crashes.{IsBlankOrEmpty, OnlyLooks};
ghost use Rattle.replica_volume.specs.Making.{LeavesAsBeforeOrNew, MakesVolume};
ghost use Rattle.replica_volume.specs.Volume.{IsOpenVolume, disks_in, fault_in};

use crate::Volume;
use disk_model::Disk;
use disks::{DiskName, Disks, MakeFault};
use journal::{Header, NewEntries};
use record_codec::Uids;
use replica_state::State;
use std::alloc::Global;
use volume::init_images;

impl<D: Disk> Volume<D> {
    /// Makes the empty store of this header, over an empty root.
    ///
    /// All memory is taken before a disk is called. The root is written last, so a crash on the way
    /// leaves no store or the empty one.
    pub fn init(
        alloc: Global,
        disks: Disks<D>,
        header: Header,
    ) -> Result<Volume<D>, (Disks<D>, MakeFault)>
        ensures reads { (root : List ℕ)
            × (IsTrue D.tells → root ≡ (disks_known D.known disks).files.root.seen)
            × MakesVolume header root result }
        ensures open { IfOk result (IsOpenVolume D.tells D.known) }
        ensures looks { IsTrue D.tells → (disks_known D.known disks).files.root.seen ≢ []
            → OnlyLooks (disks_known D.known disks) (disks_known D.known (disks_in result)) }
        ensures left { IsTrue D.tells → (disks_known D.known disks).files.root.seen ≡ []
            → IsBlankOrEmpty header
            (found_of (seen_of (disks_known D.known (disks_in result)).files)) }
        ensures any_moment { IsTrue D.tells → LeavesAsBeforeOrNew header
            (disks_known D.known disks) (disks_known D.known (disks_in result)) }
        ensures untouched { IsErrOf (fault_in result) MakeFault.Memory → disks_in result ≡ disks }
        ensures cause { HasCauseOf MakeFault.Disk (disks_known D.known disks).faults
            (disks_known D.known (disks_in result)).faults (fault_in result) }
    {
        let mut disks = disks;
        let Ok(uids) = Uids::new(alloc, &header.uid) else {
            return Err((disks, MakeFault::Memory));
        };
        let journal = match init_images(alloc, &mut disks, &header) {
            Ok(journal) => journal,
            Err(fault) => return Err((disks, fault)),
        };
        let Header { name, uid, .. } = header;
        let state = State::new(alloc, name, uid);
        Ok(Volume {
            alloc,
            disks,
            side: DiskName::Left,
            journal,
            uids,
            state,
            open: true,
            staged: NewEntries::new(alloc),
        })
    }
}
