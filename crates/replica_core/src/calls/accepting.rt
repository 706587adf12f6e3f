//! An accepted revision as the next entry of the log.
ghost use Rattle.std.specs.Prelude.{◌≡◌, IfOk, None, Some};
ghost use Rattle.conflicts.specs.Document.{FitsDocument};
ghost use Rattle.replica_state.specs.Held.{meaning};
ghost use Rattle.replica_state.specs.Steps.{step_of};
ghost use Rattle.replica_core.specs.Replica.{state_in};
ghost use Rattle.conflicts.specs.Writing.{Answers, accept_next};
ghost use Rattle.replica_core.specs.Calls.{IsDone};
ghost use Rattle.replica_core.specs.CallsFaults.{commit_failure};

use crate::calls::committing::commit_for;
use crate::{CommitFault, Replica};
use conflicts::{Accept, Move};
use replica_state::{State, Step};
use std::alloc::Global;
use u1_base::{DocId, IdKind, Memory, TransId};
use vector_rev::Clock;

/// Accepts what was made of the document, and answers its revision.
pub(crate) fn accept_made<R: Replica>(
    alloc: Global,
    replica: &mut R,
    seed: u128,
    id: &DocId,
    accept: Accept,
) -> Result<Clock, CommitFault>
    requires ready { R.is_open replica.old }
    requires fits { FitsDocument ((state_in (R.known replica.old)).document id.now) accept }
    ensures { IsDone R.known R.is_open R.crash commit_failure
        (Answers accept.rev (Some
        (accept_next seed (state_in (R.known replica.old)) id.now accept None)))
        replica.old replica.new result }
{
    let rev = accept.rev.copy()?;
    let step = next_entry(alloc, replica.state(), seed, id, accept, None)?;
    commit_for(replica, Some(step), rev)
}

/// The acceptance with the move, as the next entry of the log.
pub(crate) fn next_entry(
    alloc: Global,
    state: &State,
    seed: u128,
    id: &DocId,
    accept: Accept,
    moved: Option<Move>,
) -> Result<Step, Memory>
    ensures { IfOk result (λ step. step_of step
        ≡ accept_next seed (meaning state.now) id.now accept moved) }
{
    let generation = state.log().generation() + 1;
    let trans = TransId::made(alloc, seed, IdKind::Trans, generation)?;
    Ok(Step::Accept {
        doc: id.copy()?,
        accept,
        trans,
        moved,
    })
}
