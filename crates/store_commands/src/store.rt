//! The trait of stores that are not open.
ghost use Rattle.std.specs.Prelude.{◌≡◌, ◌≤◌, IfErr, IfOk, Option};
ghost use Rattle.u1_base.specs.declared.limits.TheConstants.{GREATEST_IMAGE_LIMIT};
ghost use Rattle.u1_base.specs.declared.limits.TheConstants.{LEAST_IMAGE_LIMIT};
ghost use Rattle.store_commands.specs.Compacting.{Compacts, Image};
ghost use Rattle.store_commands.specs.Found.{Store as StoreKnown};
ghost use Rattle.store_commands.specs.Store.{Closes, FailsToOpen, Makes, MayStay, Opens};

use disks::{CompactFault, MakeFault, OpenFault, Sizes};
use replica_core::Replica;
use std::alloc::Global;
use u1_base::{DbName, ReplicaUid};

/// A store on its disks, before it is opened and after it was closed.
///
/// `known` is what contracts see of it: what opening it would find, where the disks tell it, what a
/// crash at each moment leaves, how often the disks failed, and the bytes of its files, where
/// contracts can see them. `image` is its image, and `image_in` that of an open store, where
/// contracts can see it.
pub trait Store: Sized {
    /// The store while it is open.
    type Opened: Replica;

    ghost known: { Self → StoreKnown };

    ghost image: { Self → Option Image };

    ghost image_in: { Self.Opened → Option Image };

    /// Opens the store that is there. At a fault it comes back with it, and unless a disk failed
    /// its files have the bytes that they had.
    fn open(self, alloc: Global) -> Result<Self::Opened, (OpenFault, Self)>
        ensures ok { IfOk result (λ opened. Opens (known self)
            (Self.Opened.Replica.known opened) (Self.Opened.Replica.crash opened)
            (Self.Opened.Replica.is_open opened)) }
        ensures image { IfOk result (λ opened. image_in opened ≡ image self) }
        ensures err { IfErr result (λ failed. FailsToOpen (known self) (known failed.1) failed.0) };

    /// Makes the empty store of this database and replica, where there is none. Its image may have
    /// `limit` bytes. At a fault its files have the bytes that they had, unless a disk failed.
    fn make(
        self,
        alloc: Global,
        name: &DbName,
        uid: &ReplicaUid,
        limit: u64,
    ) -> (Result<(), MakeFault>, Self)
        requires least { LEAST_IMAGE_LIMIT ≤ limit }
        requires greatest { limit ≤ GREATEST_IMAGE_LIMIT }
        ensures { Makes name.now uid.now limit (known self) (known result.1) result.0 };

    /// Writes the image anew, with what a compaction leaves of its steps. The state stays, at every
    /// moment on the way too.
    fn compact(opened: &mut Self::Opened) -> Result<Sizes, CompactFault>
        requires { Self.Opened.Replica.is_open opened.old }
        ensures { Compacts Self.Opened.Replica.known Self.Opened.Replica.is_open
            Self.Opened.Replica.crash image_in opened.old opened.new result };

    /// Closes a store.
    fn close(opened: Self::Opened) -> Self
        ensures known { Closes (Self.Opened.Replica.known opened) (Self.Opened.Replica.crash opened)
            (Self.Opened.Replica.is_open opened) (known result) }
        ensures image { image result ≡ image_in opened };

    /// What is told is one of what a crash now may leave.
    ghost told: { (store : Self) → MayStay (known store) (known store).found };
}
