//! `resolve` and `resolve-deleted`: resolve a conflict.
ghost use Rattle.replica_core.specs.Commands.Edits.{resolve_effect, resolve_deleted_effect};
ghost use Rattle.replica_core.specs.Replica.{state_in};
ghost use Rattle.store_commands.specs.Carries.{Carries};
ghost use Rattle.store_commands.specs.Deeds.{over_replica};

use crate::Ended;
use command_lines::print_made;
use content::Content;
use link::Sink;
use replica_core::{Replica, resolve_doc};
use std::alloc::Global;
use u1_base::DocId;
use vector_rev::Clocks;

/// The named members become one revision with the content.
pub fn resolve<R: Replica, K: Sink>(
    alloc: Global,
    seed: u128,
    id: &DocId,
    named: &Clocks,
    content: &Content,
    replica: &mut R,
    out: &mut K,
) -> Ended
    requires { R.is_open replica.old }
    ensures { Carries R.known R.is_open R.crash
        (over_replica
        (resolve_effect (state_in (R.known replica.old)) seed id.now named.now content.now))
        replica.old replica.new (K.known out.old) (K.known out.new) result }
{
    let made = resolve_doc(alloc, replica, seed, id, named, Some(content))?;
    Ok(print_made(out, id, &made)?)
}

/// The named members become one revision without a content.
pub fn resolve_deleted<R: Replica, K: Sink>(
    alloc: Global,
    seed: u128,
    id: &DocId,
    named: &Clocks,
    replica: &mut R,
    out: &mut K,
) -> Ended
    requires { R.is_open replica.old }
    ensures { Carries R.known R.is_open R.crash
        (over_replica
        (resolve_deleted_effect (state_in (R.known replica.old)) seed id.now named.now))
        replica.old replica.new (K.known out.old) (K.known out.new) result }
{
    let made = resolve_doc(alloc, replica, seed, id, named, None)?;
    Ok(print_made(out, id, &made)?)
}
