//! The calls that are made, each by its name, over the prepared store.
use conflicts::{Member, Move, PosTable};
use content::Content;
use expr_parser::{Expr, Exprs};
use replica_core::Call;
use replica_state::IndexExprs;
use std::alloc::Global;
use u1_base::{DocId, IndexName, Memory, Position, ReplicaUid, TransId};
use vector_rev::{Clock, Clocks};

/// The call of this name, so many times.
pub fn calls_of(alloc: Global, name: &str, times: usize) -> Result<Vec<Call>, Memory> {
    let mut calls = Vec::new(alloc);
    for _ in 0..times {
        push(&mut calls, call_of(alloc, name))?;
    }
    Ok(calls)
}

fn push(calls: &mut Vec<Call>, call: Option<Call>) -> Result<(), Memory> {
    calls.push(call.ok_or(Memory)?)?;
    Ok(())
}

// None is answered where there is no such call too. Where a peer sends the content that one member
// of a document has, the two are merged, and the other member stays.
fn call_of(alloc: Global, name: &str) -> Option<Call> {
    match name {
        "put-doc" => put(alloc),
        "delete-doc" => delete(alloc),
        "resolve-doc" => resolve(alloc),
        "put-if-newer" => take(alloc, "d2", "a:1|b:1", b"{\"t\":\"bc\"}", PosTable::Known),
        "put-if-equal" => take(alloc, "d3", "c:1", b"{\"v\":\"a\"}", PosTable::Told),
        "move-position" => Some(Call::MovePosition(first_of_c(alloc, PosTable::Told)?)),
        "create-index" => create(alloc),
        "delete-index" => drop_index(alloc),
        _ => None,
    }
}

// The bits of the seed are 0, as in the worked images.
const SEED: u128 = 0;

fn put(alloc: Global) -> Option<Call> {
    Some(Call::PutDoc {
        seed: SEED,
        id: doc(alloc, "d2")?,
        rev: Some(clock(alloc, "a:1")?),
        content: content(alloc, b"{\"t\":\"bc\"}")?,
    })
}

fn delete(alloc: Global) -> Option<Call> {
    Some(Call::DeleteDoc {
        seed: SEED,
        id: doc(alloc, "d2")?,
        rev: clock(alloc, "a:1")?,
    })
}

fn resolve(alloc: Global) -> Option<Call> {
    let mut named = Clocks::new(alloc);
    named.push(clock(alloc, "a:1")?).ok()?;
    named.push(clock(alloc, "b:1")?).ok()?;
    Some(Call::ResolveDoc {
        seed: SEED,
        id: doc(alloc, "d3")?,
        named,
        content: Some(content(alloc, b"{\"t\":\"x\"}")?),
    })
}

fn take(alloc: Global, id: &str, rev: &str, text: &[u8], table: PosTable) -> Option<Call> {
    Some(Call::PutIfNewer {
        seed: SEED,
        id: doc(alloc, id)?,
        incoming: Member {
            rev: clock(alloc, rev)?,
            content: Some(content(alloc, text)?),
        },
        save: false,
        moved: first_of_c(alloc, table)?,
    })
}

fn create(alloc: Global) -> Option<Call> {
    let mut exprs = Exprs::new(alloc);
    exprs
        .push(Expr::read(alloc, "split_words(lower(t))").ok()?)
        .ok()?;
    Some(Call::CreateIndex {
        name: IndexName::read(alloc, "by_word").ok()?,
        exprs: IndexExprs::of(exprs),
    })
}

fn drop_index(alloc: Global) -> Option<Call> {
    Some(Call::DeleteIndex {
        name: IndexName::read(alloc, "i").ok()?,
    })
}

// ---- operands

fn doc(alloc: Global, text: &str) -> Option<DocId> {
    DocId::read(alloc, text).ok()
}

fn clock(alloc: Global, text: &str) -> Option<Clock> {
    Clock::read(alloc, text).ok()
}

fn content(alloc: Global, text: &[u8]) -> Option<Content> {
    Content::read(alloc, text).ok()
}

// The first place in the log of the replica `c`.
fn first_of_c(alloc: Global, table: PosTable) -> Option<Move> {
    let trans = TransId::read(alloc, "T-1").ok()?;
    Some(Move {
        table,
        uid: ReplicaUid::read(alloc, "c").ok()?,
        at: Position {
            generation: 1,
            trans: Some(trans),
        },
    })
}
