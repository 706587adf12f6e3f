//! `changes`: shows what changed since a generation.
ghost use Rattle.std.specs.Prelude.{◌∷◌, map};
ghost use Rattle.command_lines.specs.Lines.{lines_text};
ghost use Rattle.command_lines.specs.Puts.{Puts};
ghost use Rattle.replica_core.specs.Commands.Effects.{Changed, Now};
ghost use Rattle.replica_core.specs.Commands.Logs.{changes_effect};
ghost use Rattle.replica_core.specs.Replica.{state_in};
ghost use Rattle.store_commands.specs.Carries.{Carries};
ghost use Rattle.store_commands.specs.Deeds.{over_replica};

use crate::Ended;
use command_lines::{PrintFault, print_change, print_now};
use link::Sink;
use replica_core::{Changed as ChangedSince, Replica, whats_changed};
use translog::Change;

/// Shows the position after all entries, and each document that changed since the generation at
/// its last entry.
pub fn changes<R: Replica, K: Sink>(generation: u64, replica: &R, out: &mut K) -> Ended
    requires { R.is_open replica.now }
    ensures { Carries R.known R.is_open R.crash
        (over_replica (changes_effect (state_in (R.known replica.now)) generation))
        replica.now replica.now (K.known out.old) (K.known out.new) result }
{
    let changed = whats_changed(replica.state(), generation)?;
    Ok(print_changed(&changed, out)?)
}

fn print_changed<K: Sink>(changed: &ChangedSince, out: &mut K) -> Result<(), PrintFault>
    ensures { Puts (lines_text (Now changed.now.at ∷ map Changed changed.now.changes))
        (K.known out.old) (K.known out.new) result }
{
    print_now(out, &changed.at)?;
    print_changes(changed.changes.as_slice(), out)
}

fn print_changes<K: Sink>(changes: &[Change], out: &mut K) -> Result<(), PrintFault>
    ensures { Puts (lines_text (map Changed changes.now))
        (K.known out.old) (K.known out.new) result }
{
    for change in changes {
        print_change(out, change)?;
    }
    Ok(())
}
