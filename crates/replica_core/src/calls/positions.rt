//! The position that is kept of a peer, and a move of it.
ghost use Rattle.std.specs.Prelude.{◌≡◌, IfOk};
ghost use Rattle.std.specs.Option.{option_map};
ghost use Rattle.u1_base.specs.Places.{nowhere, same_place};
ghost use Rattle.replica_state.specs.Held.{meaning};
ghost use Rattle.replica_state.specs.Steps.{step_of};
ghost use Rattle.conflicts.specs.Writing.{kept_place, move_step};
ghost use Rattle.replica_core.specs.CallsChecks.{Checks, ChecksFrom};

use crate::calls::receipts::TakeFault;
use conflicts::Move;
use replica_state::{State, Step};
use translog::goes_on;
use u1_base::{Memory, Position};

/// Refuses a move to before the place that is kept, or to another id at its generation.
pub(crate) fn check_move(state: &State, moved: &Move) -> Result<(), TakeFault>
    ensures { Checks (meaning state.now) moved.now result }
{
    match state.positions(moved.table).get(&moved.uid) {
        Some(kept) => check_from(kept, &moved.at),
        None => check_from_start(&moved.at),
    }
}

fn check_from_start(to: &Position) -> Result<(), TakeFault>
    ensures { ChecksFrom nowhere to.now result }
{
    check_from(&Position::start(), to)
}

fn check_from(kept: &Position, to: &Position) -> Result<(), TakeFault>
    ensures { ChecksFrom kept.now to.now result }
{
    if goes_on(kept, to) {
        return Ok(());
    }
    Err(TakeFault::LogCheck {
        mine: kept.copy()?,
        theirs: to.copy()?,
    })
}

/// The move as a step; none where this place is kept already.
pub(crate) fn step_of_move(state: &State, moved: &Move) -> Result<Option<Step>, Memory>
    ensures { IfOk result (λ step. option_map step_of step
        ≡ move_step (meaning state.now) moved.now) }
{
    if is_kept(state, moved) {
        return Ok(None);
    }
    Ok(Some(Step::Position(moved.copy()?)))
}

fn is_kept(state: &State, moved: &Move) -> bool
    ensures { result ≡ same_place moved.now.at (kept_place (meaning state.now) moved.now) }
{
    match state.positions(moved.table).get(&moved.uid) {
        Some(kept) => is_at(&moved.at, kept),
        None => is_at_start(&moved.at),
    }
}

fn is_at(at: &Position, kept: &Position) -> bool
    ensures { result ≡ same_place at.now kept.now }
{
    *at == *kept
}

fn is_at_start(at: &Position) -> bool
    ensures { result ≡ same_place at.now nowhere }
{
    *at == Position::start()
}
