//! All that is read of a replica's state, as lines.
use command_lines::{
    PrintFault, print_document, print_index, print_key, print_known, print_told, put_all,
};
use conflicts::{DocSet, PosTable};
use link::MemSink;
use replica_core::{kept_at, list_index_keys, query_index_range};
use replica_state::{Index, State};
use std::alloc::Global;
use u1_base::{DocId, Ids, Keys};

/// Prints the documents with their members, the log, the positions of peers, and the indexes with
/// their keys and the documents that they find.
pub fn print_state(alloc: Global, state: &State, out: &mut MemSink) -> Result<(), PrintFault> {
    print_documents(state, out)?;
    print_log(state, out)?;
    print_positions(state, PosTable::Known, out)?;
    print_positions(state, PosTable::Told, out)?;
    print_indexes(alloc, state, out)
}

fn print_documents(state: &State, out: &mut MemSink) -> Result<(), PrintFault> {
    let docs = state.docs();
    let mut walk = docs.walk();
    for place in 0..docs.length() {
        if let Some((id, set)) = walk.pair(place) {
            print_members(id, set, out)?;
        }
    }
    Ok(())
}

fn print_members(id: &DocId, set: &DocSet, out: &mut MemSink) -> Result<(), PrintFault> {
    for place in 0..set.length() {
        if let Some(member) = set.member(place) {
            print_document(out, id, member, set.length() > 1)?;
        }
    }
    Ok(())
}

fn print_log(state: &State, out: &mut MemSink) -> Result<(), PrintFault> {
    for entry in state.log().entries() {
        let id = entry.doc.as_str().as_bytes();
        put_all(out, &[id, b" ", entry.trans.as_str().as_bytes(), b"\n"])?;
    }
    Ok(())
}

fn print_positions(state: &State, table: PosTable, out: &mut MemSink) -> Result<(), PrintFault> {
    for place in 0..state.positions(table).length() {
        if let Some((uid, at)) = kept_at(state, table, place) {
            match table {
                PosTable::Known => print_known(out, uid, at)?,
                PosTable::Told => print_told(out, uid, at)?,
            }
        }
    }
    Ok(())
}

fn print_indexes(alloc: Global, state: &State, out: &mut MemSink) -> Result<(), PrintFault> {
    for index in state.indexes() {
        print_index(alloc, out, index.name(), index.exprs())?;
        print_answers(alloc, index, out)?;
    }
    Ok(())
}

// The keys, and the documents that a range without ends finds.
fn print_answers(alloc: Global, index: &Index, out: &mut MemSink) -> Result<(), PrintFault> {
    let keys = list_index_keys(alloc, index)?;
    print_keys(alloc, &keys, out)?;
    match query_index_range(alloc, index, None, None) {
        Ok(ids) => print_ids(&ids, out),
        Err(_) => Err(PrintFault::Memory),
    }
}

fn print_keys(alloc: Global, keys: &Keys, out: &mut MemSink) -> Result<(), PrintFault> {
    for key in keys.as_slice() {
        print_key(alloc, out, key)?;
    }
    Ok(())
}

fn print_ids(ids: &Ids, out: &mut MemSink) -> Result<(), PrintFault> {
    for id in ids.as_slice() {
        put_all(out, &[id.as_str().as_bytes(), b"\n"])?;
    }
    Ok(())
}
