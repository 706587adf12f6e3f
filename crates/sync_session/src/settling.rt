//! The place of the target's log is settled, and moved.
ghost use Rattle.std.specs.Prelude.{◌≡◌, ◌≢◌, IfOk};
ghost use Rattle.replica_core.specs.Replica.{state_in};
ghost use Rattle.replica_core.specs.Calls.{IsDone};
ghost use Rattle.replica_core.specs.CallsDecide.{move_decides};
ghost use Rattle.replica_core.specs.CallsFaults.{take_failure};
ghost use Rattle.sync_phases.specs.Phases.{known_to};
ghost use Rattle.sync_phases.specs.Phases as phases;
ghost use Rattle.sync_session.specs.Made.{Does};
ghost use Rattle.sync_session.specs.inner.Faults.{take_ends};

use crate::session::{Recording, Taking};
use conflicts::{Move, PosTable};
use replica_core::{Replica, TakeFault, move_position};
use sync_phases::SyncFault;
use u1_base::{Memory, Position, ReplicaUid};

impl Taking {
    /// Moves the place up to which the target's log is known to the end of that log, and keeps that
    /// for good.
    #[tactic(auto, using(crate::proofs::Settled::settled_ok, crate::proofs::Settled::settled_err))]
    pub fn settle<R: Replica>(self, replica: &mut R) -> Result<Recording, SyncFault>
        requires { R.is_open replica.old }
        ensures { Does R.known R.is_open R.crash
            (phases.settle self (state_in (R.known replica.old))) replica.old replica.new result }
    {
        match settle_at(replica, &self.course.target, &self.course.at) {
            Ok(()) => Ok(Recording {
                course: self.course,
            }),
            Err(fault) => Err(take_fault(fault)),
        }
    }
}

fn settle_at<R: Replica>(
    replica: &mut R,
    target: &ReplicaUid,
    at: &Position,
) -> Result<(), TakeFault>
    requires { R.is_open replica.old }
    ensures { IsDone R.known R.is_open R.crash take_failure
        (move_decides (known_to target.now at.now) (state_in (R.known replica.old)))
        replica.old replica.new result }
{
    let moved = known_move(target, at)?;
    move_position(replica, &moved)
}

/// The move of the place up to which the target's log is known.
pub(crate) fn known_move(target: &ReplicaUid, at: &Position) -> Result<Move, Memory>
    ensures { IfOk result (λ m. m ≡ known_to target.now at.now) }
{
    Ok(Move {
        table: PosTable::Known,
        uid: target.copy()?,
        at: at.copy()?,
    })
}

/// A fault of a receipt or a move, as one of a session.
pub(crate) fn take_fault(fault: TakeFault) -> SyncFault
    ensures ends { result ≡ take_ends fault }
    ensures never { result ≢ SyncFault.Link }
{
    match fault {
        TakeFault::LogCheck { mine, theirs } => SyncFault::LogCheck { mine, theirs },
        TakeFault::Full { need, limit } => SyncFault::Full { need, limit },
        TakeFault::Disk => SyncFault::Disk,
        TakeFault::Memory => SyncFault::Memory,
    }
}
