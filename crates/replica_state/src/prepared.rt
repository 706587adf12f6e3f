//! What is made ahead for a step.
use crate::index::Index;
use conflicts::{DocSet, Move};
use index_tables::Pairs;
use std::alloc::Global;
use translog::Entry;
use u1_base::{DocId, IndexName, Keys, Memory};

/// What is made ahead for a step of a state: the parts of the state after it. `State::apply` puts
/// them in. They lie apart, so that little moves from call to call.
#[derive(Drop)]
pub struct Prepared {
    pub(crate) parts: Box<Parts>,
}

impl Prepared {
    ghost use Rattle.std.specs.Prelude.{◌≡◌, IfOk};

    pub(crate) fn of(alloc: Global, parts: Parts) -> Result<Prepared, Memory>
        ensures { IfOk result (λ prepared. prepared.parts.value ≡ parts) }
    {
        Ok(Prepared {
            parts: Box::new(alloc, parts)?,
        })
    }
}

/// The parts of the state after a step.
#[derive(Drop)]
pub(crate) struct Parts {
    pub(crate) replacement: Replacement,
    pub(crate) entry: Option<Entry>,
    pub(crate) moved: Option<Move>,
}

/// What is replaced of the documents and indexes.
#[derive(Drop)]
pub(crate) enum Replacement {
    Nothing,
    /// A set of members, with what it changes in each index, in their order.
    Document {
        id: DocId,
        set: DocSet,
        changes: Vec<KeyChange>,
    },
    /// An index, in the place of one of its name.
    NewIndex {
        index: Index,
    },
    NoIndex {
        name: IndexName,
    },
}

/// What a document changes in an index: the keys that go, and the pairs that come.
#[derive(Drop)]
pub(crate) struct KeyChange {
    pub(crate) gone: Keys,
    pub(crate) pairs: Pairs,
}
