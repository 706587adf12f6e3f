//! The target of a request.
ghost use Rattle.std.specs.Prelude.{◌≡◌, IfOk, IsUtf8};
ghost use Rattle.u1_base.specs.Ids.{id_in};
ghost use Rattle.u1_base.specs.declared.ids.Form.TheVariants.{Name, Replica};
ghost use Rattle.sync_http.specs.Heads.{target_in, target_with};

use crate::names::{name_of, uid_of};
use crate::slashes::cut;
use std::alloc::Global;
use std::str;
use u1_base::{DbName, Memory, ReplicaUid};

/// The database and the replica that a target names.
#[derive(Drop)]
pub struct Target {
    pub db: DbName,
    pub source: ReplicaUid,
}

/// The target `/DATABASE/sync-from/UID`, if the bytes are one.
pub(crate) fn target_at(alloc: Global, bytes: &[u8]) -> Result<Option<Target>, Memory>
    requires { IsUtf8 bytes.now }
    ensures { IfOk result (λ target. target ≡ target_in bytes.now) }
{
    let Ok(text) = str::from_utf8(bytes) else {
        return Ok(None);
    };
    let Some((front, behind)) = cut(text) else {
        return Ok(None);
    };
    if !front.is_empty() {
        return Ok(None);
    }
    let Some((db, behind)) = cut(behind) else {
        return Ok(None);
    };
    let Some((word, uid)) = cut(behind) else {
        return Ok(None);
    };
    if word != "sync-from" {
        return Ok(None);
    }
    target_named(alloc, db, uid)
}

fn target_named(alloc: Global, db: &str, uid: &str) -> Result<Option<Target>, Memory>
    ensures { IfOk result (λ target. target
        ≡ target_with (id_in Name db.now) (id_in Replica uid.now)) }
{
    let Some(db) = name_of(alloc, db)? else {
        return Ok(None);
    };
    let Some(source) = uid_of(alloc, uid)? else {
        return Ok(None);
    };
    Ok(Some(Target { db, source }))
}
