//! `body`: the bodies of a store's entries, in words of base 16 (`'` begins a text).
//!
//! - `own UID`: of the uids just this one has a number, which is 0.
//! - `read BODY`: the step that a body in format 2 says; what that step is written as, `again`
//!   where it is the body, and the uids that it adds then; and the uids that the body adds.
//!   `first BODY`: the first two of a body in format 1.
//! - `number BODY`: there is room for the uids that a body adds, and they get numbers.
//! - `fronts BODY`: of each shorter front the place of its fault.
use crate::histories::say_accept;
use crate::meant::{hex, say_bad, say_position};
use conflicts::{Move, PosTable};
use json::Scratch;
use record_codec::{Decoded, RecordFault, Uids, decode, decode_first, encode};
use replica_state::Step;
use rows::Said;
use std::alloc::Global;
use std::mem;
use u1_base::{ReplicaUid, TransId};

pub(crate) fn answer(
    alloc: Global,
    uids: &mut Uids,
    call: &str,
    row: &str,
    said: &mut Said,
) -> Option<()> {
    if call == "own" {
        drop(mem::replace(uids, own(alloc, row)?));
        return say_uids(uids.as_slice(), said);
    }
    let body = hex(alloc, row)?;
    match call {
        "read" => read(alloc, uids, body.as_slice(), said),
        "first" => first(alloc, uids, body.as_slice(), said),
        "number" => number(alloc, uids, body.as_slice(), said),
        "fronts" => fronts(alloc, uids, body.as_slice(), said),
        _ => None,
    }
}

fn own(alloc: Global, uid: &str) -> Option<Uids> {
    let uid = ReplicaUid::read(alloc, uid).ok()?;
    Uids::new(alloc, &uid).ok()
}

fn say_uids(uids: &[ReplicaUid], said: &mut Said) -> Option<()> {
    said.word("uids").ok()?;
    for uid in uids {
        said.word(uid.as_str()).ok()?;
    }
    said.end().ok()
}

fn decoded(alloc: Global, uids: &Uids, body: &[u8]) -> Result<Decoded, RecordFault> {
    decode(alloc, &mut Scratch::new(alloc), body, uids)
}

fn read(alloc: Global, uids: &Uids, body: &[u8], said: &mut Said) -> Option<()> {
    match decoded(alloc, uids, body) {
        Ok(decoded) => {
            let told = say_decoded(alloc, uids, &decoded, body, said);
            drop(decoded);
            told
        }
        Err(fault) => say_bad(alloc, &fault, said),
    }
}

fn say_decoded(
    alloc: Global,
    uids: &Uids,
    decoded: &Decoded,
    body: &[u8],
    said: &mut Said,
) -> Option<()> {
    say_read(alloc, &decoded.step, uids, body, said)?;
    say_uids(decoded.added.as_slice(), said)
}

fn first(alloc: Global, uids: &Uids, body: &[u8], said: &mut Said) -> Option<()> {
    match decoded_first(alloc, body) {
        Ok(step) => {
            let told = say_read(alloc, &step, uids, body, said);
            drop(step);
            told
        }
        Err(fault) => say_bad(alloc, &fault, said),
    }
}

fn decoded_first(alloc: Global, body: &[u8]) -> Result<Step, RecordFault> {
    decode_first(alloc, &mut Scratch::new(alloc), body)
}

// The step, and its body in format 2: `again` where it is this one.
fn say_read(alloc: Global, step: &Step, uids: &Uids, body: &[u8], said: &mut Said) -> Option<()> {
    say_step(alloc, step, said)?;
    let encoded = encode(alloc, step, uids).ok()?;
    say_written(encoded.bytes.as_slice(), body, said)?;
    say_uids(encoded.added.as_slice(), said)
}

fn say_written(bytes: &[u8], body: &[u8], said: &mut Said) -> Option<()> {
    if bytes == body {
        said.word("again").ok()
    } else {
        said.hex(bytes).ok()
    }
}

fn number(alloc: Global, uids: &mut Uids, body: &[u8], said: &mut Said) -> Option<()> {
    let decoded = decode(alloc, &mut Scratch::new(alloc), body, uids).ok()?;
    let Decoded { step, added } = decoded;
    drop(step);
    uids.reserve(added.len() as u64).ok()?;
    let room = uids.room();
    uids.add(added);
    said.word("room").ok()?;
    said.number(room).ok()?;
    say_uids(uids.as_slice(), said)
}

fn fronts(alloc: Global, uids: &Uids, body: &[u8], said: &mut Said) -> Option<()> {
    for length in 0..body.len() {
        let (front, _) = body.split_at(length);
        said.number(fault_place(alloc, uids, front)?).ok()?;
    }
    said.end().ok()
}

fn fault_place(alloc: Global, uids: &Uids, body: &[u8]) -> Option<u64> {
    match decoded(alloc, uids, body) {
        Err(RecordFault::Bad(place)) => Some(place),
        Err(RecordFault::Memory) => None,
        Ok(decoded) => {
            drop(decoded);
            None
        }
    }
}

fn say_step(alloc: Global, step: &Step, said: &mut Said) -> Option<()> {
    match step {
        Step::Accept {
            doc,
            accept,
            trans,
            moved,
        } => {
            said.word(doc.as_str()).ok()?;
            say_accept(accept, said)?;
            say_entry(trans, moved, said)
        }
        Step::Gone { doc, trans, moved } => {
            said.word("gone").ok()?;
            said.word(doc.as_str()).ok()?;
            say_entry(trans, moved, said)
        }
        Step::Position(moved) => say_move(moved, said),
        Step::IndexCreate { name, exprs } => {
            said.word("index").ok()?;
            said.word(name.as_str()).ok()?;
            for expr in exprs.as_slice() {
                said.word(expr.text(alloc).ok()?.as_str()).ok()?;
            }
            said.end().ok()
        }
        Step::IndexDelete { name } => {
            said.word("no index").ok()?;
            said.line(name.as_str()).ok()
        }
    }
}

fn say_entry(trans: &TransId, moved: &Option<Move>, said: &mut Said) -> Option<()> {
    said.word(trans.as_str()).ok()?;
    match moved {
        Some(moved) => say_move(moved, said),
        None => said.end().ok(),
    }
}

fn say_move(moved: &Move, said: &mut Said) -> Option<()> {
    let copy = moved.copy().ok()?;
    let told = say_place(&copy, said);
    drop(copy);
    told
}

fn say_place(moved: &Move, said: &mut Said) -> Option<()> {
    said.word(match moved.table {
        PosTable::Known => "known",
        PosTable::Told => "told",
    })
    .ok()?;
    said.word(moved.uid.as_str()).ok()?;
    say_position(&moved.at, said)?;
    said.end().ok()
}
