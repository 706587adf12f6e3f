//! What a log holds, and what it tells of a document.
use u1_base::{DocId, Items, TransId};

/// One accepted change: its document, and the id of its transaction.
#[derive(PartialEq, Eq, Drop)]
pub struct Entry {
    pub doc: DocId,
    pub trans: TransId,
}

/// A document with its last entry in a log.
#[derive(PartialEq, Eq, Drop)]
pub struct Change {
    pub doc: DocId,
    /// The place of the entry in the log, counted from 1.
    pub generation: u64,
    pub trans: TransId,
}

/// A list of changes.
pub type Changes = Items<Change>;
