//! Ids, read and made.
use crate::{Asked, say_fault};
use rows::{Said, bytes_of_hex, number_of};
use u1_base::{
    Database, DocId, Document, FormOf, Id, IdKind, Index, Memory, Replica, Text, Transaction,
    new_id,
};

/// Answers the calls of ids, and tells whether it is one of them.
pub(crate) fn answer(asked: &Asked<'_>, said: &mut Said) -> Result<bool, Memory> {
    match asked.call {
        "document" => say_id::<Document>(asked.text, said)?,
        "replica" => say_id::<Replica>(asked.text, said)?,
        "transaction" => say_id::<Transaction>(asked.text, said)?,
        "index" => say_id::<Index>(asked.text, said)?,
        "database" => say_id::<Database>(asked.text, said)?,
        "document-of-bytes" => say_id_of_bytes(asked.text, said)?,
        "new-id" => say_new_id(asked.arguments, said)?,
        _ => return Ok(false),
    }
    Ok(true)
}

fn say_id<F: FormOf>(text: &str, said: &mut Said) -> Result<(), Memory> {
    match Id::<F>::read(said.alloc(), text) {
        Ok(id) => said.line(id.as_str()),
        Err(fault) => say_fault(fault, said),
    }
}

// A document id of bytes in base 16.
fn say_id_of_bytes(text: &str, said: &mut Said) -> Result<(), Memory> {
    match bytes_of_hex(said.alloc(), text)? {
        Some(bytes) => match DocId::of_bytes(said.alloc(), bytes.as_slice()) {
            Ok(id) => said.line(id.as_str()),
            Err(fault) => say_fault(fault, said),
        },
        None => said.line("no bytes"),
    }
}

// The id that is made of KIND SEED NUMBER.
fn say_new_id(arguments: &[Text], said: &mut Said) -> Result<(), Memory> {
    match arguments {
        [kind, seed, number] => match (seed.as_str().parse::<u128>(), number_of(number.as_str())) {
            (Ok(seed), Some(number)) => {
                let id = new_id(said.alloc(), seed, kind_of(kind.as_str()), number)?;
                said.line(id.as_str())
            }
            _ => said.line("no number"),
        },
        _ => said.line("not three words"),
    }
}

fn kind_of(word: &str) -> IdKind {
    match word {
        "document" => IdKind::Doc,
        "transaction" => IdKind::Trans,
        _ => IdKind::Replica,
    }
}
