//! Calls of the libraries on an open store, which no command makes: revisions and positions of
//! peers.
use crate::store::word;
use conflicts::{Accept, Member, Move, Outcome4, PosTable, Taken};
use content::Content;
use disk_model::MemDisk;
use disks::Disks;
use replica_core::{Replica, TakeFault, check_log, move_position, put_if_newer};
use replica_state::State;
use replica_volume::Volume;
use rows::Said;
use std::alloc::Global;
use translog::Check;
use u1_base::{DocId, IdKind, Memory, Position, ReplicaUid, Text, TransId};
use vector_rev::Clock;

/// Makes the call that the words behind `! NAME` say, and hands the disks back.
pub fn call_on(
    disks: Disks<MemDisk>,
    words: &[Text],
    said: &mut Said,
) -> (Disks<MemDisk>, Result<(), Memory>) {
    match Volume::open_volume(said.alloc(), disks) {
        Ok(mut volume) => {
            let done = call(&mut volume, words, said);
            (volume.into_disks(), done)
        }
        Err((disks, _)) => (disks, said.line("not open")),
    }
}

fn call<R: Replica>(replica: &mut R, words: &[Text], said: &mut Said) -> Result<(), Memory>
    requires { R.is_open replica.old }
{
    match word(words, 2) {
        "take" => take(replica, words, true, said),
        "sent" => take(replica, words, false, said),
        "move" => move_to(replica, words, said),
        "check" => check(replica.state(), words, said),
        _ => said.line("no such call"),
    }
}

// `ID REV CONTENT from UID GENERATION [TRANS]`
fn take<R: Replica>(
    replica: &mut R,
    words: &[Text],
    save: bool,
    said: &mut Said,
) -> Result<(), Memory>
    requires { R.is_open replica.old }
{
    let alloc = said.alloc();
    let id = DocId::read(alloc, word(words, 3)).ok().ok_or(Memory)?;
    let incoming = member(alloc, word(words, 4), word(words, 5))?;
    let table = if save {
        PosTable::Known
    } else {
        PosTable::Told
    };
    let moved = move_of(alloc, table, words, 7)?;
    match put_if_newer(alloc, replica, 0, &id, &incoming, save, &moved) {
        Ok(taken) => push_taken(&taken, said),
        Err(fault) => push_fault(&fault, said),
    }
}

// `known|told UID GENERATION [TRANS]`
fn move_to<R: Replica>(replica: &mut R, words: &[Text], said: &mut Said) -> Result<(), Memory>
    requires { R.is_open replica.old }
{
    let table = match word(words, 3) {
        "told" => PosTable::Told,
        _ => PosTable::Known,
    };
    let moved = move_of(said.alloc(), table, words, 4)?;
    match move_position(replica, &moved) {
        Ok(()) => said.line("done"),
        Err(fault) => push_fault(&fault, said),
    }
}

// `GENERATION TRANS`
fn check(state: &State, words: &[Text], said: &mut Said) -> Result<(), Memory> {
    let at = place_of(said.alloc(), words, 3)?;
    match check_log(state, &at) {
        Check::Fits => said.line("fits"),
        Check::NotReached(reached) => {
            said.word("not reached")?;
            said.number(reached)?;
            said.end()
        }
        Check::OtherId(id) => {
            said.word("other")?;
            push_trans(id, said)?;
            said.end()
        }
    }
}

// ---- operands; one that does not read ends the run

// A content `-` is none.
fn member(alloc: Global, rev: &str, text: &str) -> Result<Member, Memory> {
    let rev = Clock::read(alloc, rev).ok().ok_or(Memory)?;
    let content = match text {
        "-" => None,
        _ => Some(Content::read(alloc, text.as_bytes()).ok().ok_or(Memory)?),
    };
    Ok(Member { rev, content })
}

// `UID GENERATION [TRANS]` from this word on
fn move_of(alloc: Global, table: PosTable, words: &[Text], from: usize) -> Result<Move, Memory> {
    let uid = ReplicaUid::read(alloc, word(words, from))
        .ok()
        .ok_or(Memory)?;
    let at = place_of(alloc, words, from.saturating_add(1))?;
    Ok(Move { table, uid, at })
}

// `GENERATION [TRANS]` from this word on; where no id is told it is that of the seed 0.
fn place_of(alloc: Global, words: &[Text], from: usize) -> Result<Position, Memory> {
    let generation = word(words, from).parse::<u32>().unwrap_or(0);
    if generation == 0 {
        return Ok(Position::start());
    }
    let generation = u64::from(generation);
    let trans = match word(words, from.saturating_add(1)) {
        "" => TransId::made(alloc, 0, IdKind::Trans, generation)?,
        id => TransId::read(alloc, id).ok().ok_or(Memory)?,
    };
    Ok(Position {
        generation,
        trans: Some(trans),
    })
}

// ---- answers

// The outcome and the accepted revision, if there is one.
fn push_taken(taken: &Taken, said: &mut Said) -> Result<(), Memory> {
    said.word(match taken.outcome {
        Outcome4::Inserted => "inserted",
        Outcome4::Superseded => "superseded",
        Outcome4::Converged => "converged",
        Outcome4::Conflicted => "conflicted",
    })?;
    if let Some(accept) = &taken.accepted {
        push_rev(accept, said)?;
    }
    said.end()
}

fn push_rev(accept: &Accept, said: &mut Said) -> Result<(), Memory> {
    let text = accept.rev.text()?;
    said.word(text.as_str())
}

fn push_fault(fault: &TakeFault, said: &mut Said) -> Result<(), Memory> {
    match fault {
        TakeFault::LogCheck { mine, theirs } => {
            said.word("log-check")?;
            push_place(mine, said)?;
            push_place(theirs, said)?;
            said.end()
        }
        TakeFault::Full { need: _, limit: _ } => said.line("full"),
        TakeFault::Disk => said.line("failed disk"),
        TakeFault::Memory => Err(Memory),
    }
}

fn push_place(at: &Position, said: &mut Said) -> Result<(), Memory> {
    said.number(at.generation)?;
    match &at.trans {
        Some(trans) => push_trans(trans, said),
        None => said.word("-"),
    }
}

fn push_trans(trans: &TransId, said: &mut Said) -> Result<(), Memory> {
    let text = crate::ids::named(said.alloc(), trans.as_str())?;
    said.word(text.as_str())
}
