//! What goes back to a source.
ghost use Rattle.std.specs.Prelude.{◌≡◌, IfOk, List, filter, not};
ghost use Rattle.replica_core.specs.Replica.{state_in};
ghost use Rattle.sync_stream.specs.Serving.{Held, is_held};
ghost use Rattle.sync_exchange.specs.Returned.{changes_for};
ghost use Rattle.sync_exchange.specs.Seen.{SeesAs};

use crate::Seen;
use replica_core::Replica;
use translog::{Change, Changes};
use u1_base::{Memory, Position};

/// The changes since the position that the source knows, without those that it has. Of each, the
/// current member goes back.
pub fn returned<R: Replica>(replica: &R, known: &Position, seen: &Seen) -> Result<Changes, Memory>
    ensures { IfOk result (λ changes. (held : List Held) → SeesAs seen.now.pairs held
        → changes ≡ changes_for (state_in (R.known replica.now)) known.now held) }
{
    let changes = replica.state().log().changed_since(known.generation)?;
    let mut changes = changes.into_vec();
    leave_out(&mut changes, seen);
    Ok(Changes::from_vec(changes))
}

fn leave_out(changes: &mut Vec<Change>, seen: &Seen)
    ensures { (held : List Held) → SeesAs seen.now.pairs held
        → changes.new.items ≡ filter (λ c. not (is_held held c)) changes.old.items }
{
    changes.retain(|change| !seen.has(change));
}
