//! The steps of a replica.
use crate::exprs::IndexExprs;
use conflicts::{Accept, Move};
use u1_base::{DocId, IndexName, TransId};

/// One committed step of a replica.
#[derive(Drop)]
pub enum Step {
    /// A revision of a document is accepted, under the id of its log entry, and a position moves
    /// with it.
    Accept {
        doc: DocId,
        accept: Accept,
        trans: TransId,
        moved: Option<Move>,
    },
    /// An acceptance that a compaction left out: only its log entry and its move stay.
    Gone {
        doc: DocId,
        trans: TransId,
        moved: Option<Move>,
    },
    /// A position moves.
    Position(Move),
    IndexCreate {
        name: IndexName,
        exprs: IndexExprs,
    },
    IndexDelete {
        name: IndexName,
    },
}
