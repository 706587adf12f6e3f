//! The asks of a source that are not about a document.
ghost use Rattle.std.specs.Prelude.{◌≡◌, IfOk};
ghost use Rattle.replica_core.specs.Replica.{state_in};
ghost use Rattle.replica_core.specs.Calls.{IsDone};
ghost use Rattle.sync_stream.specs.Serving.{info_of};
ghost use Rattle.sync_exchange.specs.Asks.{ChecksKnown};
ghost use Rattle.sync_exchange.specs.Decide.{tell_decides, told_move};
ghost use Rattle.sync_exchange.specs.Faults.{exchange_failure};

use crate::ExchangeFault;
use conflicts::{Move, PosTable};
use replica_core::{Replica, check_log, move_position, position_of};
use sync_http::Info;
use translog::{Check, law_tests};
use u1_base::{Memory, Position, ReplicaUid};

/// What this replica says of itself to the source that asks: its log's end, and up to where it was
/// told of the source's log.
pub fn info<R: Replica>(replica: &R, source: &ReplicaUid) -> Result<Info, Memory>
    ensures { IfOk result (λ info. info ≡ info_of (state_in (R.known replica.now)) source.now) }
{
    let state = replica.state();
    Ok(Info {
        target: state.uid().copy()?,
        target_at: state.log().position()?,
        source: source.copy()?,
        source_at: position_of(state, PosTable::Told, source)?,
    })
}

/// Whether the position up to which the source knows this replica's log fits the log. It makes no
/// step, so it answers `LogCheck` or `Memory` alone.
pub fn check_known<R: Replica>(replica: &R, known: &Position) -> Result<(), ExchangeFault>
    ensures { ChecksKnown (state_in (R.known replica.now)).log known.now result }
{
    law_tests();
    let log = replica.state().log();
    match check_log(replica.state(), known) {
        Check::Fits => Ok(()),
        Check::NotReached(_) => Err(ExchangeFault::LogCheck {
            asked: known.copy()?,
            mine: log.position()?,
        }),
        Check::OtherId(id) => Err(ExchangeFault::LogCheck {
            asked: known.copy()?,
            mine: Position {
                generation: known.generation,
                trans: Some(id.copy()?),
            },
        }),
    }
}

/// Moves the position up to which the source has told of its log, and keeps that for good.
pub fn tell<R: Replica>(
    replica: &mut R,
    source: &ReplicaUid,
    at: &Position,
) -> Result<(), ExchangeFault>
    requires { R.is_open replica.old }
    ensures { IsDone R.known R.is_open R.crash exchange_failure
        (tell_decides source.now at.now (state_in (R.known replica.old)))
        replica.old replica.new result }
{
    let moved = told(source, at)?;
    Ok(move_position(replica, &moved)?)
}

/// The move of the source's told position to a place.
pub(crate) fn told(source: &ReplicaUid, at: &Position) -> Result<Move, Memory>
    ensures { IfOk result (λ m. m ≡ told_move source.now at.now) }
{
    Ok(Move {
        table: PosTable::Told,
        uid: source.copy()?,
        at: at.copy()?,
    })
}
