//! `keys`: shows the keys of an index.
ghost use Rattle.std.specs.Prelude.{map};
ghost use Rattle.command_lines.specs.Lines.{lines_text};
ghost use Rattle.command_lines.specs.Puts.{Puts};
ghost use Rattle.replica_core.specs.Commands.Effects.{Keyed};
ghost use Rattle.replica_core.specs.Commands.Indexes.{keys_effect};
ghost use Rattle.replica_state.specs.Held.{lists_of};
ghost use Rattle.store_commands.specs.Carries.{Carries};
ghost use Rattle.store_commands.specs.Deeds.{over_replica};

use crate::Ended;
use command_lines::{Outcome, PrintFault, Refusal, print_key};
use link::Sink;
use replica_core::{Replica, index_table, list_index_keys};
use std::alloc::Global;
use u1_base::{IndexName, Key};

/// Shows the keys of the live documents, in order, each once.
pub fn keys<R: Replica, K: Sink>(alloc: Global, name: &IndexName, replica: &R, out: &mut K) -> Ended
    requires { R.is_open replica.now }
    ensures { Carries R.known R.is_open R.crash
        (over_replica (keys_effect (lists_of (R.known replica.now).state) name.now))
        replica.now replica.now (K.known out.old) (K.known out.new) result }
{
    let Some(index) = index_table(replica.state(), name) else {
        return Err(Outcome::Refused(Refusal::IndexUnknown));
    };
    let keys = list_index_keys(alloc, index)?;
    Ok(print_keys(alloc, keys.as_slice(), out)?)
}

fn print_keys<K: Sink>(alloc: Global, keys: &[Key], out: &mut K) -> Result<(), PrintFault>
    ensures { Puts (lines_text (map Keyed keys.now)) (K.known out.old) (K.known out.new) result }
{
    for key in keys {
        print_key(alloc, out, key)?;
    }
    Ok(())
}
