//! What a log tells.
ghost use Rattle.std.specs.Prelude.{◌≡◌, IfOk};
ghost use Rattle.translog.specs.Checks.{Checks};
ghost use Rattle.replica_state.specs.Held.{meaning};
ghost use Rattle.replica_reads.specs.Changes.{changed_since};

use replica_state::State;
use translog::{Changes, Check};
use u1_base::{Memory, Position};

/// What changed since a generation.
#[derive(Drop)]
pub struct Changed {
    /// The position after all entries of the log.
    pub at: Position,
    /// Each document with an entry after the generation once, at its last entry, in the order of
    /// these entries.
    pub changes: Changes,
}

/// What changed since a generation: nothing, where it is that of the log or greater.
pub fn whats_changed(state: &State, generation: u64) -> Result<Changed, Memory>
    ensures { IfOk result (λ changed. changed ≡ changed_since (meaning state.now).log generation) }
{
    let log = state.log();
    Ok(Changed {
        at: log.position()?,
        changes: log.changed_since(generation)?,
    })
}

/// How a position stands to the log.
pub fn check_log<'a>(state: &'a State, at: &Position) -> Check<'a>
    ensures { Checks (meaning state.now).log at.now result }
{
    state.log().check(at)
}
