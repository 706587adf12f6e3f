//! `put`: gives a document a content.
ghost use Rattle.std.specs.Prelude.{option_copied};
ghost use Rattle.replica_core.specs.Commands.Edits.{put_effect};
ghost use Rattle.replica_core.specs.Replica.{state_in};
ghost use Rattle.store_commands.specs.Carries.{Carries};
ghost use Rattle.store_commands.specs.Deeds.{over_replica};

use crate::Ended;
use command_lines::print_made;
use content::Content;
use link::Sink;
use replica_core::{Replica, put_doc};
use std::alloc::Global;
use u1_base::DocId;
use vector_rev::Clock;

/// Gives the document the content. `rev` names the revision that is changed; none is named where
/// there is no document, or a deleted one.
pub fn put<R: Replica, K: Sink>(
    alloc: Global,
    seed: u128,
    id: &DocId,
    rev: Option<&Clock>,
    content: &Content,
    replica: &mut R,
    out: &mut K,
) -> Ended
    requires { R.is_open replica.old }
    ensures { Carries R.known R.is_open R.crash
        (over_replica (put_effect (state_in (R.known replica.old)) seed id.now
        (option_copied rev.entry) content.now))
        replica.old replica.new (K.known out.old) (K.known out.new) result }
{
    let made = put_doc(alloc, replica, seed, id, rev, content)?;
    Ok(print_made(out, id, &made)?)
}
