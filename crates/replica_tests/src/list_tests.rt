//! A list of calls on a replica in memory.
ghost use Rattle.std.specs.Prelude.{◌<◌};

use conflicts::{Member, Move, PosTable, Taken};
use content::Content;
use expr_parser::{Expr, Exprs};
use replica_core::{
    Call, CallFault, Ends, MemReplica, Replica, TakeFault, get_doc, position_of, run_all,
    stage_if_newer, stage_position, whats_changed,
};
use replica_state::{IndexExprs, State};
use std::alloc::Global;
use u1_base::{DbName, DocId, IndexName, Position, ReplicaUid, TransId};
use vector_rev::{Clock, Clocks};

const SEED: u128 = 7;

// ---- calls of one document `d1` and one index

fn put(alloc: Global) -> Option<Call> {
    Some(Call::PutDoc {
        seed: SEED,
        id: doc(alloc)?,
        rev: None,
        content: content(alloc, b"{}")?,
    })
}

fn take(alloc: Global) -> Option<Call> {
    Some(Call::PutIfNewer {
        seed: SEED,
        id: doc(alloc)?,
        incoming: Member {
            rev: rev(alloc, "b:1")?,
            content: Some(content(alloc, b"{\"v\":1}")?),
        },
        save: true,
        moved: to(alloc, 1)?,
    })
}

fn resolve(alloc: Global) -> Option<Call> {
    let mut named = Clocks::new(alloc);
    named.push(rev(alloc, "a:1")?).ok()?;
    named.push(rev(alloc, "b:1")?).ok()?;
    Some(Call::ResolveDoc {
        seed: SEED,
        id: doc(alloc)?,
        named,
        content: None,
    })
}

fn delete(alloc: Global) -> Option<Call> {
    Some(Call::DeleteDoc {
        seed: SEED,
        id: doc(alloc)?,
        rev: rev(alloc, "a:2|b:1")?,
    })
}

fn create(alloc: Global, by: &str) -> Option<Call> {
    let mut exprs = Exprs::new(alloc);
    exprs.push(Expr::read(alloc, by).ok()?).ok()?;
    Some(Call::CreateIndex {
        name: name(alloc, "i")?,
        exprs: IndexExprs::of(exprs),
    })
}

fn drop_index(alloc: Global, of: &str) -> Option<Call> {
    Some(Call::DeleteIndex {
        name: name(alloc, of)?,
    })
}

// The moves of the position of `b`.
fn move_to(alloc: Global, generation: u64) -> Option<Call>
    requires some { 0 < generation }
    requires most { generation < 10 }
{
    Some(Call::MovePosition(to(alloc, generation)?))
}

fn to(alloc: Global, generation: u64) -> Option<Move>
    requires some { 0 < generation }
    requires most { generation < 10 }
{
    let trans = TransId::read(alloc, "Tb").ok()?;
    Some(Move {
        table: PosTable::Known,
        uid: ReplicaUid::read(alloc, "b").ok()?,
        at: Position {
            generation,
            trans: Some(trans),
        },
    })
}

fn doc(alloc: Global) -> Option<DocId> {
    DocId::read(alloc, "d1").ok()
}

fn name(alloc: Global, text: &str) -> Option<IndexName> {
    IndexName::read(alloc, text).ok()
}

fn rev(alloc: Global, text: &str) -> Option<Clock> {
    Clock::read(alloc, text).ok()
}

fn content(alloc: Global, text: &[u8]) -> Option<Content> {
    Content::read(alloc, text).ok()
}

fn push(calls: &mut Vec<Call>, call: Option<Call>) -> Option<()> {
    calls.push(call?).ok()
}

// Each kind of call, with refusals among them.
fn push_calls(alloc: Global, calls: &mut Vec<Call>) -> Option<()> {
    push(calls, put(alloc))?;
    push(calls, put(alloc))?;
    push(calls, take(alloc))?;
    push(calls, resolve(alloc))?;
    push(calls, delete(alloc))?;
    push(calls, create(alloc, "v"))?;
    push(calls, create(alloc, "w"))?;
    push(calls, move_to(alloc, 2))?;
    push(calls, move_to(alloc, 1))?;
    push(calls, drop_index(alloc, "j"))?;
    push(calls, drop_index(alloc, "i"))
}

const MARKS: &str = "+-++-+-+--+";

fn mark_of(end: &Result<(), CallFault>) -> char {
    match end {
        Ok(()) => '+',
        Err(CallFault::Refused) => '-',
        Err(_) => '!',
    }
}

fn have_ended(alloc: Global, ends: &Ends) -> Option<bool> {
    let mut marks = String::new(alloc);
    for end in ends {
        marks.push(mark_of(end)).ok()?;
    }
    Some(marks.as_str() == MARKS)
}

// The document is deleted by the resolution, which was the third entry of the log.
fn is_left(alloc: Global, state: &State) -> Option<bool> {
    let id = doc(alloc)?;
    let text = get_doc(state, &id, true)?.rev.text().ok()?;
    let changed = whats_changed(state, 0).ok()?;
    Some(text.as_str() == "a:2|b:1" && changed.at.generation == 3)
}

// The calls are made in a function of their own: what the contract says would make the proofs of
// its callers long.
fn run(alloc: Global, replica: &mut MemReplica, calls: &[Call]) -> Option<Ends> {
    run_all(alloc, replica, calls).ok()
}

fn have_run(alloc: Global, replica: &mut MemReplica) -> Option<bool> {
    let mut calls = Vec::new(alloc);
    push_calls(alloc, &mut calls)?;
    let ends = run(alloc, replica, calls.as_slice())?;
    Some(have_ended(alloc, &ends)? && is_left(alloc, replica.state())?)
}

fn new_replica(alloc: Global) -> Option<MemReplica> {
    let name = DbName::read(alloc, "db").ok()?;
    let uid = ReplicaUid::read(alloc, "a").ok()?;
    Some(MemReplica::new(alloc, name, uid))
}

fn is_run(alloc: Global) -> Option<bool> {
    let mut replica = new_replica(alloc)?;
    have_run(alloc, &mut replica)
}

// ---- receipts and moves that are staged

fn stage(
    alloc: Global,
    replica: &mut MemReplica,
    incoming: &Member,
    id: &DocId,
    moved: &Move,
) -> Result<Taken, TakeFault> {
    stage_if_newer(alloc, replica, SEED, id, incoming, false, moved)
}

// The revision of `d1`, with a move of `b`: whether it was accepted. None where the call failed.
fn stage_rev(alloc: Global, replica: &mut MemReplica, of: &str, generation: u64) -> Option<bool>
    requires some { 0 < generation }
    requires most { generation < 10 }
{
    let id = doc(alloc)?;
    let moved = to(alloc, generation)?;
    let rev = rev(alloc, of)?;
    let incoming = Member { rev, content: None };
    is_accepted(stage(alloc, replica, &incoming, &id, &moved))
}

fn is_accepted(answer: Result<Taken, TakeFault>) -> Option<bool> {
    match answer {
        Ok(taken) => Some(taken.accepted.is_some()),
        Err(TakeFault::LogCheck { mine: _, theirs: _ }) => Some(false),
        Err(_) => None,
    }
}

fn stage_move(replica: &mut MemReplica, moved: &Move) -> bool {
    stage_position(replica, moved).is_ok()
}

fn is_flushed(replica: &mut MemReplica) -> bool {
    replica.flush().is_ok()
}

// Each call is decided over what was staged before it, and a refusal keeps that.
fn are_staged(alloc: Global, replica: &mut MemReplica) -> Option<bool> {
    let first = stage_rev(alloc, replica, "b:1", 1)?;
    let second = stage_rev(alloc, replica, "b:2", 2)?;
    let back = stage_rev(alloc, replica, "b:3", 1)?;
    let older = stage_rev(alloc, replica, "b:1", 2)?;
    let on = stage_move(replica, &to(alloc, 3)?);
    let off = stage_move(replica, &to(alloc, 2)?);
    Some(first && second && !back && !older && on && !off)
}

// What was staged stands after the flush, and a second flush has nothing to do.
fn is_kept(alloc: Global, state: &State) -> Option<bool> {
    let id = doc(alloc)?;
    let text = get_doc(state, &id, true)?.rev.text().ok()?;
    let log = whats_changed(state, 0).ok()?.at.generation;
    let of_peer = position_of(state, PosTable::Known, &ReplicaUid::read(alloc, "b").ok()?).ok()?;
    Some(text.as_str() == "b:2" && log == 2 && of_peer.generation == 3)
}

fn is_staged(alloc: Global) -> Option<bool> {
    let mut replica = new_replica(alloc)?;
    let staged = are_staged(alloc, &mut replica)?;
    let flushed = is_flushed(&mut replica) && is_flushed(&mut replica);
    Some(staged && flushed && is_kept(alloc, replica.state())?)
}

#[test]
fn a_list_of_calls(rt: HostRuntime) {
    assert!(rt; is_run(rt.alloc()) == Some(true));
}

#[test]
fn staged_receipts(rt: HostRuntime) {
    assert!(rt; is_staged(rt.alloc()) == Some(true));
}
