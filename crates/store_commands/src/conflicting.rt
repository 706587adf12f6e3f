//! `conflicts`: shows the members of a document in conflict.
ghost use Rattle.std.specs.Prelude.{map};
ghost use Rattle.command_lines.specs.Lines.{lines_text};
ghost use Rattle.command_lines.specs.Puts.{Puts};
ghost use Rattle.conflicts.specs.Kept.{current_first};
ghost use Rattle.replica_core.specs.Commands.Documents.{conflicts_effect};
ghost use Rattle.replica_core.specs.Commands.Effects.{Conflict};
ghost use Rattle.replica_core.specs.Replica.{state_in};
ghost use Rattle.store_commands.specs.Carries.{Carries};
ghost use Rattle.store_commands.specs.Deeds.{over_replica};

use crate::Ended;
use command_lines::{PrintFault, print_conflict};
use conflicts::DocSet;
use link::Sink;
use replica_core::{Replica, doc_conflicts};
use u1_base::DocId;

/// Shows the members, the current one first; nothing for a document that has fewer than two.
pub fn conflicts<R: Replica, K: Sink>(id: &DocId, replica: &R, out: &mut K) -> Ended
    requires { R.is_open replica.now }
    ensures { Carries R.known R.is_open R.crash
        (over_replica (conflicts_effect (state_in (R.known replica.now)) id.now))
        replica.now replica.now (K.known out.old) (K.known out.new) result }
{
    match doc_conflicts(replica.state(), id) {
        Some(set) => Ok(print_members(set, out)?),
        None => Ok(()),
    }
}

fn print_members<K: Sink>(set: &DocSet, out: &mut K) -> Result<(), PrintFault>
    ensures { Puts (lines_text (map Conflict (current_first set.now)))
        (K.known out.old) (K.known out.new) result }
{
    for place in 0..set.length() {
        let Some(member) = set.member(place) else {
            break;
        };
        print_conflict(out, member)?;
    }
    Ok(())
}
