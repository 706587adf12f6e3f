//! The last phase: the target is told where this replica's log ends.
ghost use Rattle.std.specs.Prelude.{◌≡◌, ◌≢◌, Err, IfOk, List, ℕ};
ghost use Rattle.u1_base.specs.Causes.{HasCauseOf};
ghost use Rattle.translog.specs.Log.{end_of};
ghost use Rattle.replica_state.specs.Held.{meaning};
ghost use Rattle.replica_core.specs.Replica.{state_in};
ghost use Rattle.sync_http.specs.Bodies.{kept_in};
ghost use Rattle.sync_stream.specs.Messages.{SaysKept, small_if};
ghost use Rattle.sync_stream.specs.Requests.{ToKeep, request_text};
ghost use Rattle.sync_phases.specs.Phases.{has_all, small_ends, small_heard, summary, told_by};
ghost use Rattle.sync_asking.specs.Carried.{Carries};
ghost use Rattle.sync_session.specs.Asked.{Asks, ComesOf, Finishes};
ghost use Rattle.sync_session.specs.inner.Asked.{ComesTo};
ghost use Rattle.sync_session.specs.Seen.{exchanged_in};

use crate::session::{Course, Recording};
use replica_core::Replica;
use replica_state::State;
use std::alloc::Global;
use sync_asking::{SmallBody, ask_small};
use sync_http::{Address, BodyFault, RequestHead, Verb, read_kept, write_request, write_told};
use sync_link::Link;
use sync_phases::{Summary, SyncFault};
use u1_base::{Bytes, Memory, Position, ReplicaUid};

impl Recording {
    /// Tells the target where this replica's log ends, if nothing was written here since the
    /// exchange but what the target returned, and that is something.
    #[tactic(auto, using(crate::proofs::Told::untold, crate::proofs::Told::told, crate::proofs::Told::not_told))]
    pub fn finish<R: Replica, L: Link>(
        self,
        alloc: Global,
        replica: &R,
        link: &mut L,
    ) -> Result<Summary, SyncFault>
        ensures finishes { Finishes L.serves L.stops (L.known link.old) (L.known link.new)
            (state_in (R.known replica.now)).uid self
            (told_by self (state_in (R.known replica.now))) result }
        ensures cause { HasCauseOf SyncFault.Link
            (L.known link.old).faults (L.known link.new).faults result }
    {
        let state = replica.state();
        if !has_all(state, &self.course) {
            return Ok(summed(self.course, false));
        }
        match tell_end(alloc, link, state, &self.course.to) {
            Ok(()) => Ok(summed(self.course, true)),
            Err(fault) => Err(fault),
        }
    }
}

fn summed(course: Course, recorded: bool) -> Summary
    ensures { result ≡ summary (exchanged_in course) recorded }
{
    Summary {
        target: course.target,
        sent: course.sent,
        taken: course.taken,
        known: course.at.generation,
        recorded,
    }
}

// Whether the log has grown by what was taken, and by nothing else.
#[tactic(auto, using(crate::proofs::Told::behind, crate::proofs::Told::since))]
fn has_all(state: &State, course: &Course) -> bool
    ensures { result ≡ has_all (meaning state.now) course.now.base course.now.taken }
{
    let generation = state.log().generation();
    if generation < course.base {
        return false;
    }
    generation - course.base == course.taken && course.taken >= 1
}

// Asks that the target keeps the end of this log.
fn tell_end<L: Link>(
    alloc: Global,
    link: &mut L,
    state: &State,
    to: &Address,
) -> Result<(), SyncFault>
    ensures asks { Asks L.serves L.stops (L.known link.old) (L.known link.new) to.now
        (meaning state.now).uid (ToKeep (end_of (meaning state.now).log)) SaysKept
        small_heard result }
    ensures cause { HasCauseOf SyncFault.Link
        (L.known link.old).faults (L.known link.new).faults result }
{
    match end_request(alloc, to, state) {
        Ok(request) => kept_by(alloc, link, to, request.as_slice()),
        Err(_) => Err(SyncFault::Memory),
    }
}

fn kept_by<L: Link>(
    alloc: Global,
    link: &mut L,
    to: &Address,
    request: &[u8],
) -> Result<(), SyncFault>
    ensures asks { (given : List ℕ)
        × Carries L.serves L.stops (L.known link.old) (L.known link.new) to.now request.now given
        × ComesOf SaysKept small_heard given result }
    ensures cause { HasCauseOf SyncFault.Link
        (L.known link.old).faults (L.known link.new).faults result }
{
    match ask_small(alloc, link, to, request) {
        Ok(body) => kept_of(alloc, &body),
        Err(fault) => Err(fault),
    }
}

fn end_request(alloc: Global, to: &Address, state: &State) -> Result<Bytes, Memory>
    ensures { IfOk result (λ bytes. bytes ≡ request_text to.now (meaning state.now).uid
        (ToKeep (end_of (meaning state.now).log))) }
{
    let at = state.log().position()?;
    told_request(alloc, to, state.uid(), &at)
}

fn told_request(
    alloc: Global,
    to: &Address,
    source: &ReplicaUid,
    at: &Position,
) -> Result<Bytes, Memory>
    ensures { IfOk result (λ bytes. bytes ≡ request_text to.now source.now (ToKeep at.now)) }
{
    let body = write_told(alloc, at)?;
    let head = RequestHead {
        verb: Verb::Put,
        db: to.db.copy()?,
        source: source.copy()?,
        body: body.len() as u64,
    };
    let mut request = write_request(alloc, to, &head)?;
    request.extend(body.as_slice())?;
    Ok(request)
}

fn kept_of(alloc: Global, body: &SmallBody) -> Result<(), SyncFault>
    ensures comes { ComesTo (small_ends (small_if (kept_in body.now))) result }
    ensures never { result ≢ Err SyncFault.Link }
{
    match read_kept(alloc, body.as_slice()) {
        Ok(()) => Ok(()),
        Err(BodyFault::Bad) => Err(SyncFault::Broken(1)),
        Err(BodyFault::Memory) => Err(SyncFault::Memory),
    }
}
