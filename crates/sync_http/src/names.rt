//! Names of databases and uids of replicas.
ghost use Rattle.std.specs.Prelude.{◌≡◌, IfOk};
ghost use Rattle.u1_base.specs.Ids.{id_in};
ghost use Rattle.u1_base.specs.declared.ids.Form.TheVariants.{Name, Replica};

use std::alloc::Global;
use u1_base::{DbName, IdFault, Memory, ReplicaUid};

/// The name of a database that the text is, if it is one.
pub(crate) fn name_of(alloc: Global, text: &str) -> Result<Option<DbName>, Memory>
    ensures { IfOk result (λ name. name ≡ id_in Name text.now) }
{
    match DbName::read(alloc, text) {
        Ok(name) => Ok(Some(name)),
        Err(IdFault::Memory) => Err(Memory),
        Err(_) => Ok(None),
    }
}

/// The uid of a replica that the text is, if it is one.
pub(crate) fn uid_of(alloc: Global, text: &str) -> Result<Option<ReplicaUid>, Memory>
    ensures { IfOk result (λ uid. uid ≡ id_in Replica text.now) }
{
    match ReplicaUid::read(alloc, text) {
        Ok(uid) => Ok(Some(uid)),
        Err(IdFault::Memory) => Err(Memory),
        Err(_) => Ok(None),
    }
}
