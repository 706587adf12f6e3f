//! `all`: lists the documents.
ghost use Rattle.std.specs.Prelude.{◌∷◌, length};
ghost use Rattle.command_lines.specs.Lines.{lines_text};
ghost use Rattle.command_lines.specs.Puts.{Puts};
ghost use Rattle.replica_core.specs.Commands.Documents.{all_effect, document_lines};
ghost use Rattle.replica_core.specs.Commands.Effects.{Generation};
ghost use Rattle.replica_state.specs.Held.{lists_of, meaning};
ghost use Rattle.store_commands.specs.Carries.{Carries};
ghost use Rattle.store_commands.specs.Deeds.{over_replica};

use crate::Ended;
use crate::listing::print_documents;
use command_lines::{PrintFault, print_generation};
use link::Sink;
use replica_core::{Replica, all_docs};
use replica_state::State;
use std::alloc::Global;
use u1_base::DocId;

/// Shows the generation, and then the documents by their ids; deleted ones too, if that is asked.
pub fn all<R: Replica, K: Sink>(alloc: Global, deleted: bool, replica: &R, out: &mut K) -> Ended
    requires { R.is_open replica.now }
    ensures { Carries R.known R.is_open R.crash
        (over_replica (all_effect (lists_of (R.known replica.now).state) deleted))
        replica.now replica.now (K.known out.old) (K.known out.new) result }
{
    let state = replica.state();
    let ids = all_docs(alloc, state, deleted)?;
    Ok(print_all(state, deleted, ids.as_slice(), out)?)
}

fn print_all<K: Sink>(
    state: &State,
    deleted: bool,
    ids: &[DocId],
    out: &mut K,
) -> Result<(), PrintFault>
    ensures { Puts (lines_text (Generation (length (lists_of state.now).log)
        ∷ document_lines (meaning state.now) deleted ids.now))
        (K.known out.old) (K.known out.new) result }
{
    print_generation(out, state.log().generation())?;
    print_documents(state, deleted, ids, out)
}
