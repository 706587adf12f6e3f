//! The documents of the workloads: made ids, and contents of about 45 bytes.
use crate::Fault;
use crate::fault::done;
use content::Content;
use std::alloc::{AllocError, Global};
use u1_base::{DocId, IdKind, Memory, TransId};

/// The names in the contents, none of which another one begins with.
pub const NAMES: [&str; 16] = [
    "ann", "bob", "carl", "dora", "evan", "finn", "gus", "hal", "ida", "jon", "kim", "lea", "max",
    "nina", "otto", "pia",
];

/// The name in the content of this number: one of 16 has each name.
pub fn name_of(number: u32) -> &'static str {
    NAMES.get((number % 16) as usize).copied().unwrap_or("")
}

/// The content of this number as a text: an object of three members, in which a number follows the
/// name.
pub fn text_of(alloc: Global, number: u32) -> Result<String, AllocError> {
    let name = name_of(number);
    format!(in alloc; "{{\"name\":\"{name}{number:06}\",\"tags\":\"home work\",\"age\":{number}}}")
}

/// The content of this number.
pub fn content_of(alloc: Global, number: u32) -> Result<Content, Fault> {
    let text = text_of(alloc, number)?;
    done(Content::read(alloc, text.as_bytes()))
}

/// The id of the document of this number.
pub fn id_of(alloc: Global, number: u32) -> Result<DocId, Memory> {
    DocId::made(alloc, 7, IdKind::Doc, u64::from(number))
}

/// The id of the transaction of this number.
pub fn trans_of(alloc: Global, number: u32) -> Result<TransId, Memory> {
    TransId::made(alloc, 7, IdKind::Trans, u64::from(number))
}
