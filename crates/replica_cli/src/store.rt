//! Three disks as a store that a command opens, makes and closes.
ghost use Rattle.std.specs.Prelude.{◌≡◌, ◌≤◌, IfOk};
ghost use Rattle.u1_base.specs.declared.limits.TheConstants.{GREATEST_IMAGE_LIMIT};
ghost use Rattle.u1_base.specs.declared.limits.TheConstants.{LEAST_IMAGE_LIMIT};

use disk_model::Disk;
use disks::{CompactFault, Disks, MakeFault, OpenFault, Sizes};
use journal::Header;
use replica_volume::Volume;
use std::alloc::Global;
use store_commands::Store;
use u1_base::{DbName, Memory, ReplicaUid};

/// A store that is not open: its three disks.
#[derive(Drop)]
pub struct StoreOnDisks<D: Disk> {
    disks: Disks<D>,
}

impl<D: Disk> StoreOnDisks<D> {
    /// The store on these disks, if there is one.
    pub fn new(disks: Disks<D>) -> StoreOnDisks<D>
        ensures { result.disks ≡ disks }
    {
        StoreOnDisks { disks }
    }

    /// Gives the disks back.
    pub fn into_disks(self) -> Disks<D>
        ensures { result ≡ self.disks }
    {
        self.disks
    }
}

impl<D: Disk> Store for StoreOnDisks<D> {
    ghost use Rattle.replica_cli.specs.Store.{store_image, store_known, volume_image};
    ghost use Rattle.replica_cli.specs.Told.{may_stay};

    type Opened = Volume<D>;

    ghost known = { store_known D.tells D.known };

    ghost image = { store_image D.tells D.known };

    ghost image_in = { volume_image D.tells D.known };

    fn open(self, alloc: Global) -> Result<Volume<D>, (OpenFault, StoreOnDisks<D>)> {
        match Volume::open_volume(alloc, self.disks) {
            Ok(volume) => Ok(volume),
            Err((disks, fault)) => Err((fault, StoreOnDisks::new(disks))),
        }
    }

    fn make(
        self,
        alloc: Global,
        name: &DbName,
        uid: &ReplicaUid,
        limit: u64,
    ) -> (Result<(), MakeFault>, StoreOnDisks<D>) {
        let Ok(header) = header_of(name, uid, limit) else {
            return (Err(MakeFault::Memory), self);
        };
        match Volume::init(alloc, self.disks, header) {
            Ok(volume) => (Ok(()), StoreOnDisks::new(volume.into_disks())),
            Err((disks, fault)) => (Err(fault), StoreOnDisks::new(disks)),
        }
    }

    fn compact(opened: &mut Volume<D>) -> Result<Sizes, CompactFault> {
        opened.compact()
    }

    fn close(opened: Volume<D>) -> StoreOnDisks<D> {
        StoreOnDisks::new(opened.leave())
    }

    ghost told = { may_stay D.tells D.known D.seen_may_stay };
}

// The header of a new image.
fn header_of(name: &DbName, uid: &ReplicaUid, limit: u64) -> Result<Header, Memory>
    requires least { LEAST_IMAGE_LIMIT ≤ limit }
    requires greatest { limit ≤ GREATEST_IMAGE_LIMIT }
    ensures { IfOk result (λ header. header
        ≡ record { name = name.now; uid = uid.now; limit = limit }) }
{
    let name = name.copy()?;
    let uid = uid.copy()?;
    Ok(Header { name, uid, limit })
}
