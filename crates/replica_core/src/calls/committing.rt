//! What each call ends with: its step, if it made one, and its answer.
ghost use Rattle.std.specs.Prelude.{IfSome};
ghost use Rattle.std.specs.Option.{option_map};
ghost use Rattle.conflicts.specs.State.{Fits};
ghost use Rattle.replica_state.specs.Steps.{step_of};
ghost use Rattle.replica_core.specs.Replica.{state_in};
ghost use Rattle.conflicts.specs.Writing.{Answers};
ghost use Rattle.replica_core.specs.Calls.{IsDone};
ghost use Rattle.replica_core.specs.CallsFaults.{commit_failure};
ghost use Rattle.replica_core.specs.Staging.{Stages};

use crate::{CommitFault, Replica};
use replica_state::Step;

/// Commits the step, if there is one, and then gives the answer.
pub(crate) fn commit_for<R: Replica, A: Drop>(
    replica: &mut R,
    step: Option<Step>,
    answer: A,
) -> Result<A, CommitFault>
    requires ready { R.is_open replica.old }
    requires fits { IfSome step (λ x. Fits (state_in (R.known replica.old)) (step_of x)) }
    ensures { IsDone R.known R.is_open R.crash commit_failure
        (Answers answer (option_map step_of step)) replica.old replica.new result }
{
    match step {
        Some(step) => {
            replica.commit(step)?;
            Ok(answer)
        }
        None => Ok(answer),
    }
}

/// Stages the step, if there is one, and then gives the answer.
pub(crate) fn stage_for<R: Replica, A: Drop>(
    replica: &mut R,
    step: Option<Step>,
    answer: A,
) -> Result<A, CommitFault>
    requires ready { (kept : _) × R.stages replica.old kept }
    requires fits { IfSome step (λ x. Fits (state_in (R.known replica.old)) (step_of x)) }
    ensures { Stages R.known R.stages R.crash commit_failure
        (Answers answer (option_map step_of step)) replica.old replica.new result }
{
    match step {
        Some(step) => {
            replica.stage(step)?;
            Ok(answer)
        }
        None => Ok(answer),
    }
}
