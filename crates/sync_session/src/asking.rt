//! The first phase: the target is asked for its info.
ghost use Rattle.std.specs.Prelude.{◌≡◌, ◌≢◌, ◌⊎◌, Err, false, if◌then◌else◌, IfOk, List, ℕ, Ok};
ghost use Rattle.std.specs.Prelude.{true};
ghost use Rattle.u1_base.specs.Causes.{HasCauseOf};
ghost use Rattle.u1_base.specs.Ids.{same_id};
ghost use Rattle.u1_base.specs.Places.{same_place};
ghost use Rattle.translog.specs.Log.{fits_log, mine_of};
ghost use Rattle.replica_state.specs.Held.{meaning};
ghost use Rattle.replica_core.specs.Replica.{state_in};
ghost use Rattle.sync_http.specs.Bodies.{info_in};
ghost use Rattle.sync_stream.specs.Messages.{SaysInfo, small_if};
ghost use Rattle.sync_stream.specs.Requests.{ForInfo, request_text};
ghost use Rattle.sync_phases.specs.Phases.{by_info, if_same, is_level, known_of, level_with};
ghost use Rattle.sync_phases.specs.Phases.{small_ends, small_heard};
ghost use Rattle.sync_phases.specs.Phases as phases;
ghost use Rattle.sync_asking.specs.Carried.{Carries};
ghost use Rattle.sync_session.specs.Asked.{Asks, ComesOf};
ghost use Rattle.sync_session.specs.inner.Asked.{ComesTo};

use crate::session::{Asking, Sending};
use replica_core::{Replica, position_of};
use replica_state::{PosTable, State};
use std::alloc::Global;
use std::cmp::Ordering;
use sync_asking::{SmallBody, ask_small};
use sync_http::{Address, BodyFault, Info, RequestHead, Verb, read_info, write_request};
use sync_link::Link;
use sync_phases::{Asked, Summary, SyncFault};
use translog::{Check, Log, law_tests};
use u1_base::{Bytes, Memory, Position, ReplicaUid};

impl Asking {
    /// Asks the target for its info. The session is complete if nothing is new on either side; else
    /// documents are to be exchanged.
    #[tactic(auto, using(crate::proofs::Infos::informs, crate::proofs::Infos::not_informed))]
    pub fn ask<R: Replica, L: Link>(
        self,
        alloc: Global,
        replica: &R,
        link: &mut L,
    ) -> Result<Asked<Sending>, SyncFault>
        ensures asks { Asks L.serves L.stops (L.known link.old) (L.known link.new) self.to
            (state_in (R.known replica.now)).uid ForInfo SaysInfo
            (λ heard. (phases.ask self (state_in (R.known replica.now)) heard).ends) result }
        ensures cause { HasCauseOf SyncFault.Link
            (L.known link.old).faults (L.known link.new).faults result }
    {
        let state = replica.state();
        match hear_info(alloc, link, &self.to, state.uid()) {
            Ok(info) => informed(state, self.to, self.seed, info),
            Err(fault) => Err(fault),
        }
    }
}

// Asks for the info.
fn hear_info<L: Link>(
    alloc: Global,
    link: &mut L,
    to: &Address,
    source: &ReplicaUid,
) -> Result<Info, SyncFault>
    ensures asks { Asks L.serves L.stops (L.known link.old) (L.known link.new) to.now
        source.now ForInfo SaysInfo small_heard result }
    ensures cause { HasCauseOf SyncFault.Link
        (L.known link.old).faults (L.known link.new).faults result }
{
    match info_request(alloc, to, source) {
        Ok(request) => info_by(alloc, link, to, request.as_slice()),
        Err(_) => Err(SyncFault::Memory),
    }
}

fn info_by<L: Link>(
    alloc: Global,
    link: &mut L,
    to: &Address,
    request: &[u8],
) -> Result<Info, SyncFault>
    ensures asks { (given : List ℕ)
        × Carries L.serves L.stops (L.known link.old) (L.known link.new) to.now request.now given
        × ComesOf SaysInfo small_heard given result }
    ensures cause { HasCauseOf SyncFault.Link
        (L.known link.old).faults (L.known link.new).faults result }
{
    match ask_small(alloc, link, to, request) {
        Ok(body) => info_of(alloc, &body),
        Err(fault) => Err(fault),
    }
}

fn info_request(alloc: Global, to: &Address, source: &ReplicaUid) -> Result<Bytes, Memory>
    ensures { IfOk result (λ bytes. bytes ≡ request_text to.now source.now ForInfo) }
{
    let head = RequestHead {
        verb: Verb::Get,
        db: to.db.copy()?,
        source: source.copy()?,
        body: 0,
    };
    write_request(alloc, to, &head)
}

fn info_of(alloc: Global, body: &SmallBody) -> Result<Info, SyncFault>
    ensures comes { ComesTo (small_ends (small_if (info_in body.now))) result }
    ensures never { result ≢ Err SyncFault.Link }
{
    match read_info(alloc, body.as_slice()) {
        Ok(info) => Ok(info),
        Err(BodyFault::Bad) => Err(SyncFault::Broken(1)),
        Err(BodyFault::Memory) => Err(SyncFault::Memory),
    }
}

// What follows from the info.
#[tactic(auto, using(crate::proofs::Infos::named, crate::proofs::Infos::unnamed))]
fn informed(state: &State, to: Address, seed: u128, info: Info) -> Result<Asked<Sending>, SyncFault>
    ensures comes { ComesTo (by_info (meaning state.now) info
        (Asked.Level (level_with (meaning state.now) info.target))
        (Asked.Send (phases.informed (record { to = to; seed = seed }) info))) result }
    ensures never { result ≢ Err SyncFault.Link }
{
    match are_level(state, &info) {
        Ok(true) => Ok(Asked::Level(level_with(state, info.target))),
        Ok(false) => Ok(Asked::Send(Sending {
            to,
            seed,
            target: info.target,
            told: info.source_at,
        })),
        Err(fault) => Err(fault),
    }
}

fn level_with(state: &State, target: ReplicaUid) -> Summary
    ensures { result ≡ level_with (meaning state.now) target }
{
    let known = known_generation(state, &target);
    Summary {
        target,
        sent: 0,
        taken: 0,
        known,
        recorded: false,
    }
}

// Whether the two are level; else documents are to be exchanged.
#[tactic(auto, using(crate::proofs::Infos::of_another, crate::proofs::Infos::unfit, crate::proofs::Infos::not_level, crate::proofs::Infos::all_level))]
fn are_level(state: &State, info: &Info) -> Result<bool, SyncFault>
    ensures comes { ComesTo (by_info (meaning state.now) info.now true false) result }
    ensures never { result ≢ Err SyncFault.Link }
{
    if !is_own(state, info) {
        return Err(SyncFault::Broken(1));
    }
    if !fits(state.log(), &info.source_at) {
        return Err(misfit(state.log(), &info.source_at));
    }
    if !is_level(state, info) {
        return Ok(false);
    }
    same(state, info)
}

fn is_own(state: &State, info: &Info) -> bool
    ensures { result ≡ same_id info.now.source (meaning state.now).uid }
{
    match info.source.cmp(state.uid()) {
        Ordering::Equal => true,
        Ordering::Less => false,
        Ordering::Greater => false,
    }
}

fn fits(log: &Log, at: &Position) -> bool
    ensures { result ≡ fits_log log.now.entries at.now }
{
    law_tests();
    match log.check(at) {
        Check::Fits => true,
        Check::NotReached(_) => false,
        Check::OtherId(_) => false,
    }
}

// A place that does not fit, and the one that the log has instead.
fn misfit(log: &Log, at: &Position) -> SyncFault
    ensures { (result ≡ SyncFault.Memory)
        ⊎ (result ≡ SyncFault.LogCheck (mine_of log.now.entries at.now) at.now) }
{
    match mine_of(log, at) {
        Ok(mine) => log_check(mine, at),
        Err(_) => SyncFault::Memory,
    }
}

fn log_check(mine: Position, theirs: &Position) -> SyncFault
    ensures { (result ≡ SyncFault.Memory) ⊎ (result ≡ SyncFault.LogCheck mine theirs.now) }
{
    match theirs.copy() {
        Ok(theirs) => SyncFault::LogCheck { mine, theirs },
        Err(_) => SyncFault::Memory,
    }
}

fn mine_of(log: &Log, at: &Position) -> Result<Position, Memory>
    ensures { IfOk result (λ mine. mine ≡ mine_of log.now.entries at.now) }
{
    let generation = at.generation.min(log.generation());
    let trans = match log.at(generation) {
        Some(trans) => Some(trans.copy()?),
        None => None,
    };
    Ok(Position { generation, trans })
}

fn is_level(state: &State, info: &Info) -> bool
    ensures { result ≡ is_level (meaning state.now) info.now }
{
    state.log().generation() == info.source_at.generation
        && known_generation(state, &info.target) == info.target_at.generation
}

fn known_generation(state: &State, target: &ReplicaUid) -> u64
    ensures { result ≡ (known_of (meaning state.now) target.now).generation }
{
    match state.positions(PosTable::Known).get(target) {
        Some(at) => at.generation,
        None => 0,
    }
}

// Where the two are level, their places have to be one.
fn same(state: &State, info: &Info) -> Result<bool, SyncFault>
    ensures comes { ComesTo (if_same (meaning state.now) info.now true) result }
    ensures never { result ≢ Err SyncFault.Link }
{
    match position_of(state, PosTable::Known, &info.target) {
        Ok(known) => same_at(known, &info.target_at),
        Err(_) => Err(SyncFault::Memory),
    }
}

fn same_at(known: Position, at: &Position) -> Result<bool, SyncFault>
    ensures comes { ComesTo (if same_place known at.now then Ok true
        else Err (SyncFault.LogCheck known at.now)) result }
    ensures never { result ≢ Err SyncFault.Link }
{
    if known == *at {
        return Ok(true);
    }
    Err(log_check(known, at))
}
