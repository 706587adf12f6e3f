//! One document of a source.
ghost use Rattle.std.specs.Prelude.{◌≡◌, ◌<◌, ◌++◌, IfOk, OnOk, OnErr, List};
ghost use Rattle.replica_core.specs.Replica.{state_in};
ghost use Rattle.replica_core.specs.Staging.{Stages};
ghost use Rattle.sync_stream.specs.Serving.{Held, held_after};
ghost use Rattle.sync_exchange.specs.Decide.{apply_decides, told_move};
ghost use Rattle.sync_exchange.specs.Faults.{exchange_failure};
ghost use Rattle.sync_exchange.specs.Seen.{SeesAs};

use crate::asks::told;
use crate::{ExchangeFault, Seen};
use conflicts::{Move, Outcome4};
use replica_core::{Replica, stage_if_newer};
use std::alloc::Global;
use sync_stream::SyncDoc;
use u1_base::{DocId, Memory, ReplicaUid};

/// Takes a document of the source, and moves the source's told position to that of the document in
/// the same step. The step is staged: whoever answers the source flushes it first.
///
/// Where nothing is accepted the position moves alone, and where it stands there already no step is
/// made. The transaction id of the log's entry is made of the seed and the generation. `seen` notes
/// that the source has the document as it is here then. `Disk` is not returned.
pub fn apply_one<R: Replica>(
    alloc: Global,
    replica: &mut R,
    seed: u128,
    source: &ReplicaUid,
    doc: &SyncDoc,
    seen: &mut Seen,
) -> Result<Outcome4, ExchangeFault>
    requires { (kept : _) × R.stages replica.old kept }
    ensures stages { Stages R.known R.stages R.crash exchange_failure
        (apply_decides seed source.now doc.now (state_in (R.known replica.old)))
        replica.old replica.new result }
    ensures seen { IfOk result (λ outcome. (held : List Held) → SeesAs seen.old.pairs held
        → SeesAs seen.new.pairs
        (held ++ held_after outcome doc.now.id (state_in (R.known replica.new)))) }
    ensures unseen { OnErr result (seen.new.pairs ≡ seen.old.pairs) }
{
    let (id, moved) = ready(source, doc, seen)?;
    let taken = stage_if_newer(alloc, replica, seed, &doc.id, &doc.member, false, &moved)?;
    seen.note(taken.outcome, id, replica.state().log().generation());
    Ok(taken.outcome)
}

// Makes room for the document, and the move to its position: the memory that is needed besides that
// of the step.
fn ready(source: &ReplicaUid, doc: &SyncDoc, seen: &mut Seen) -> Result<(DocId, Move), Memory>
    ensures pairs { seen.new.pairs ≡ seen.old.pairs }
    ensures room { OnOk result (0 < seen.new.room) }
    ensures id { IfOk result (λ r. r.0 ≡ doc.now.id) }
    ensures moved { IfOk result (λ r. r.1 ≡ told_move source.now doc.now.at) }
{
    seen.reserve()?;
    Ok((doc.id.copy()?, told(source, &doc.at)?))
}
