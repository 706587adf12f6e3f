//! Revisions that a peer hands over, and positions that it tells.
ghost use Rattle.std.specs.Prelude.{◌≡◌, IfErr, IfOk, IfSome};
ghost use Rattle.std.specs.Option.{option_map};
ghost use Rattle.conflicts.specs.Decision.{decides};
ghost use Rattle.conflicts.specs.Document.{FitsDocument};
ghost use Rattle.conflicts.specs.State.{Fits};
ghost use Rattle.conflicts.specs.Writing.{Answers, take_step};
ghost use Rattle.replica_state.specs.Held.{meaning};
ghost use Rattle.replica_state.specs.Steps.{step_of};
ghost use Rattle.replica_core.specs.Replica.{state_in};
ghost use Rattle.replica_core.specs.Calls.{IsDone};
ghost use Rattle.replica_core.specs.CallsChecks.{Checks, IsUndone};
ghost use Rattle.replica_core.specs.CallsDecide.{move_decides, take_decides};
ghost use Rattle.replica_core.specs.CallsFaults.{take_failure};
ghost use Rattle.replica_core.specs.Staging.{Stages};

use crate::calls::accepting::next_entry;
use crate::calls::committing::{commit_for, stage_for};
use crate::calls::positions::{check_move, step_of_move};
use crate::{CommitFault, Replica};
use conflicts::{Accept, Member, Move, Taken, law_makings, law_members, receive};
use replica_state::{State, Step};
use std::alloc::Global;
use std::error::Error;
use std::fmt;
use translog::law_tests;
use u1_base::{DocId, Memory, Position};

/// Why a revision or a position of a peer was not taken.
#[derive(Debug, PartialEq, Eq, Drop)]
pub enum TakeFault {
    /// The position goes back before the one that is kept, or has another transaction id at its
    /// generation.
    LogCheck {
        /// The position that is kept.
        mine: Position,
        /// The position that was given.
        theirs: Position,
    },
    /// With the step the image would have `need` bytes, and it may have no more than `limit`.
    Full {
        need: u64,
        limit: u64,
    },
    /// A disk failed. The replica is closed; the step may have been written.
    Disk,
    Memory,
}

impl fmt::Display for TakeFault {
    fn fmt<W: fmt::Write>(&self, f: &mut fmt::Formatter<W>) -> fmt::Result {
        match self {
            TakeFault::LogCheck { mine: _, theirs: _ } => f.write_str(
                "the position goes back behind the one that is kept",
            ),
            TakeFault::Full { need: _, limit: _ } => f.write_str("the image would be too long"),
            TakeFault::Disk => f.write_str("a disk failed"),
            TakeFault::Memory => f.write_str("out of memory"),
        }
    }
}

impl Error for TakeFault {}

impl From<Memory> for TakeFault {
    ghost use Rattle.std.specs.Prelude.{◌≡◌};
    ghost use Rattle.replica_core.specs.declared.calls.receipts.TakeFault.TheVariants as fault;

    ghost from_gives = { λ _ e. e ≡ fault.Memory };

    fn from(_memory: Memory) -> TakeFault {
        TakeFault::Memory
    }
}

impl TakeFault {
    ghost use Rattle.std.specs.Prelude.{◌≡◌};

    /// The failure of the commit that the fault is. None for a refusal.
    pub fn failure(&self) -> Option<CommitFault>
        ensures { result ≡ take_failure self.now }
    {
        match self {
            TakeFault::LogCheck { mine: _, theirs: _ } => None,
            TakeFault::Full { need, limit } => Some(CommitFault::Full {
                need: *need,
                limit: *limit,
            }),
            TakeFault::Disk => Some(CommitFault::Disk),
            TakeFault::Memory => Some(CommitFault::Memory),
        }
    }
}

impl From<CommitFault> for TakeFault {
    ghost use Rattle.std.specs.Prelude.{◌≡◌};
    ghost use Rattle.replica_core.specs.CallsFaults.{take_failed};

    ghost from_gives = { λ fault e. e ≡ take_failed fault };

    fn from(fault: CommitFault) -> TakeFault {
        match fault {
            CommitFault::Full { need, limit } => TakeFault::Full { need, limit },
            CommitFault::Disk => TakeFault::Disk,
            CommitFault::Memory => TakeFault::Memory,
        }
    }
}

/// Decides on a revision of the document that a peer hands over, and moves the peer's position in
/// the same step. `save` is set where this replica asked for the revision: then one that is in
/// conflict is kept.
///
/// Where nothing is accepted the position moves alone, and where it stands there already no step is
/// made. The transaction id of the log's entry is made of the seed and the generation.
pub fn put_if_newer<R: Replica>(
    alloc: Global,
    replica: &mut R,
    seed: u128,
    id: &DocId,
    incoming: &Member,
    save: bool,
    moved: &Move,
) -> Result<Taken, TakeFault>
    requires { R.is_open replica.old }
    ensures { IsDone R.known R.is_open R.crash take_failure
        (take_decides seed id.now incoming.now save moved.now (state_in (R.known replica.old)))
        replica.old replica.new result }
{
    let (taken, step) = decide_receipt(alloc, replica.state(), seed, id, incoming, save, moved)?;
    Ok(commit_for(replica, step, taken)?)
}

/// Decides and answers as `put_if_newer`, and makes the same step, but stages it.
pub fn stage_if_newer<R: Replica>(
    alloc: Global,
    replica: &mut R,
    seed: u128,
    id: &DocId,
    incoming: &Member,
    save: bool,
    moved: &Move,
) -> Result<Taken, TakeFault>
    requires { (kept : _) × R.stages replica.old kept }
    ensures { Stages R.known R.stages R.crash take_failure
        (take_decides seed id.now incoming.now save moved.now (state_in (R.known replica.old)))
        replica.old replica.new result }
{
    let (taken, step) = decide_receipt(alloc, replica.state(), seed, id, incoming, save, moved)?;
    Ok(stage_for(replica, step, taken)?)
}

/// Moves the position that is kept of a peer. Where it stands there already no step is made.
pub fn move_position<R: Replica>(replica: &mut R, moved: &Move) -> Result<(), TakeFault>
    requires { R.is_open replica.old }
    ensures { IsDone R.known R.is_open R.crash take_failure
        (move_decides moved.now (state_in (R.known replica.old)))
        replica.old replica.new result }
{
    let step = decide_move(replica.state(), moved)?;
    Ok(commit_for(replica, step, ())?)
}

/// Decides and answers as `move_position`, and makes the same step, but stages it.
pub fn stage_position<R: Replica>(replica: &mut R, moved: &Move) -> Result<(), TakeFault>
    requires { (kept : _) × R.stages replica.old kept }
    ensures { Stages R.known R.stages R.crash take_failure
        (move_decides moved.now (state_in (R.known replica.old)))
        replica.old replica.new result }
{
    let step = decide_move(replica.state(), moved)?;
    Ok(stage_for(replica, step, ())?)
}

// What becomes of the revision, and the step that it makes.
fn decide_receipt(
    alloc: Global,
    state: &State,
    seed: u128,
    id: &DocId,
    incoming: &Member,
    save: bool,
    moved: &Move,
) -> Result<(Taken, Option<Step>), TakeFault>
    ensures decided { IfOk result (λ r.
        take_decides seed id.now incoming.now save moved.now (meaning state.now)
        ≡ Answers r.0 (option_map step_of r.1)) }
    ensures fits { IfOk result (λ r. IfSome r.1 (λ x. Fits (meaning state.now) (step_of x))) }
    ensures undone { IfErr result (IsUndone take_failure
        (take_decides seed id.now incoming.now save moved.now (meaning state.now))) }
{
    law_tests();
    let taken = checked_receipt(alloc, state, id, incoming, save, moved)?;
    let step = step_of_taken(alloc, state, seed, id, &taken.accepted, moved)?;
    Ok((taken, step))
}

// The step that the move makes.
fn decide_move(state: &State, moved: &Move) -> Result<Option<Step>, TakeFault>
    ensures decided { IfOk result (λ step.
        move_decides moved.now (meaning state.now) ≡ Answers tt (option_map step_of step)) }
    ensures fits { IfOk result (λ step. IfSome step (λ x. Fits (meaning state.now) (step_of x))) }
    ensures undone { IfErr result (IsUndone take_failure
        (move_decides moved.now (meaning state.now))) }
{
    law_tests();
    check_move(state, moved)?;
    Ok(step_of_move(state, moved)?)
}

// The move is checked first, so nothing is accepted with one that goes back.
fn checked_receipt(
    alloc: Global,
    state: &State,
    id: &DocId,
    incoming: &Member,
    save: bool,
    moved: &Move,
) -> Result<Taken, TakeFault>
    ensures checked { Checks (meaning state.now) moved.now result }
    ensures taken { IfOk result
        (λ taken. taken ≡ decides ((meaning state.now).document id.now) incoming.now save
        state.now.uid) }
    ensures fits { IfOk result
        (λ taken. IfSome taken.accepted (FitsDocument ((meaning state.now).document id.now))) }
{
    check_move(state, moved)?;
    Ok(receipt_of(alloc, state, id, incoming, save)?)
}

// What becomes of the revision over the document of the id.
fn receipt_of(
    alloc: Global,
    state: &State,
    id: &DocId,
    incoming: &Member,
    save: bool,
) -> Result<Taken, Memory>
    ensures taken { IfOk result
        (λ taken. taken ≡ decides ((meaning state.now).document id.now) incoming.now save
        state.now.uid) }
    ensures fits { IfOk result
        (λ taken. IfSome taken.accepted (FitsDocument ((meaning state.now).document id.now))) }
{
    law_makings();
    law_members();
    receive(alloc, state.docs().get(id), incoming, save, state.uid())
}

// The accepted revision and the move as one step. The step owns a copy, since the answer keeps what
// was accepted.
fn step_of_taken(
    alloc: Global,
    state: &State,
    seed: u128,
    id: &DocId,
    accepted: &Option<Accept>,
    moved: &Move,
) -> Result<Option<Step>, Memory>
    ensures { IfOk result (λ step. option_map step_of step
        ≡ take_step seed id.now moved.now (meaning state.now) accepted.now) }
{
    match accepted {
        Some(accept) => {
            let accept = accept.copy(alloc)?;
            let moved = moved.copy()?;
            Ok(Some(next_entry(alloc, state, seed, id, accept, Some(moved))?))
        }
        None => step_of_move(state, moved),
    }
}
