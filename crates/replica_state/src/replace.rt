//! What a step replaces of documents and indexes: made ahead, and put in.
ghost use Rattle.std.specs.Prelude.{◌≡◌, ◌-◌, ◌<◌, ◌≤◌, IfOk, length, map, vec_capacity, vec_len};
ghost use Rattle.std.specs.Prelude.{option_copied};
ghost use Rattle.std.specs.List.{All};
ghost use Rattle.std.specs.FinMap.Entries.{find, put};
ghost use Rattle.u1_base.specs.Ids.{id_cmp};
ghost use Rattle.replica_state.specs.inner.Accepted.{IsDocumentAfter, IsIndexAfter, IsSetPut};
ghost use Rattle.replica_state.specs.Keyed.{AreTables, IsTable};
ghost use Rattle.replica_state.specs.Named.{heading};
ghost use Rattle.replica_state.specs.inner.Named.{HasRoom, bare, names_of};
ghost use Rattle.replica_state.specs.Prepared.{Takes, docs_with, key_change, names_with};

use crate::accepting::set_after;
use crate::build::build;
use crate::changes::{change_indexes, prepare_indexes};
use crate::exprs::IndexExprs;
use crate::index::Index;
use crate::naming::{add_index, drop_index};
use crate::prepared::{KeyChange, Replacement};
use conflicts::{Accept, DocSet};
use doc_table::Table;
use std::alloc::Global;
use u1_base::{DocId, Document, IndexName, Memory};

/// What an acceptance replaces, and the room for it.
pub(crate) fn new_document(
    alloc: Global,
    docs: &mut Table<Document, DocSet>,
    indexes: &mut Vec<Index>,
    doc: &DocId,
    accept: Accept,
) -> Result<Replacement, Memory>
    ensures docs { docs.new.pairs ≡ docs.old.pairs }
    ensures same { map bare indexes.new.items ≡ map bare indexes.old.items }
    ensures after { IfOk result (IsDocumentAfter docs.new.pairs doc.now accept) }
    ensures ready { IfOk result
        (Takes docs.new (map heading indexes.new.items)
        (vec_capacity indexes.new - vec_len indexes.new)) }
{
    // Before the look, so that the document is looked up once.
    docs.reserve()?;
    let old = docs.get(doc);
    match set_after(alloc, old, accept)? {
        Some(set) => new_set(alloc, docs, indexes, doc, old, set),
        None => Ok(Replacement::Nothing),
    }
}

// The set in the place of the document's old one, and the room for it in the indexes.
fn new_set(
    alloc: Global,
    docs: &Table<Document, DocSet>,
    indexes: &mut Vec<Index>,
    doc: &DocId,
    old: Option<&DocSet>,
    set: DocSet,
) -> Result<Replacement, Memory>
    requires place { 1 ≤ docs.now.room }
    requires old { option_copied old ≡ find id_cmp doc.now docs.now.pairs }
    ensures same { map bare indexes.new.items ≡ map bare indexes.old.items }
    ensures put { IfOk result (IsSetPut doc.now set) }
    ensures ready { IfOk result
        (Takes docs.now (map heading indexes.new.items)
        (vec_capacity indexes.new - vec_len indexes.new)) }
{
    let changes = prepare_indexes(alloc, indexes, doc, old, &set)?;
    let id = doc.copy()?;
    Ok(Replacement::Document { id, set, changes })
}

/// A new index, and the room for it.
pub(crate) fn new_index(
    alloc: Global,
    docs: &Table<Document, DocSet>,
    indexes: &mut Vec<Index>,
    name: IndexName,
    exprs: IndexExprs,
) -> Result<Replacement, Memory>
    ensures same { indexes.new.items ≡ indexes.old.items }
    ensures after { IfOk result (IsIndexAfter name exprs.texts) }
    ensures ready { IfOk result
        (Takes docs.now (map heading indexes.new.items)
        (vec_capacity indexes.new - vec_len indexes.new)) }
{
    indexes.reserve(1)?;
    let table = build(alloc, docs, &exprs)?;
    let index = Index { name, exprs, table };
    Ok(Replacement::NewIndex { index })
}

/// Puts the replacement in. It takes no memory.
pub(crate) fn replace(
    docs: &mut Table<Document, DocSet>,
    indexes: &mut Vec<Index>,
    replacement: Replacement,
)
    requires tied { AreTables docs.old.pairs indexes.old.items }
    requires ready { Takes docs.old (map heading indexes.old.items)
        (vec_capacity indexes.old - vec_len indexes.old) replacement }
    ensures tied { AreTables docs.new.pairs indexes.new.items }
    ensures docs { docs.new.pairs ≡ docs_with replacement docs.old.pairs }
    ensures names { names_of indexes.new.items
        ≡ names_with replacement (names_of indexes.old.items) }
{
    match replacement {
        Replacement::Nothing => {}
        Replacement::Document { id, set, changes } => {
            put_document(docs, indexes, id, set, changes);
        }
        Replacement::NewIndex { index } => add_index(indexes, index),
        Replacement::NoIndex { name } => drop_index(indexes, &name),
    }
}

fn put_document(
    docs: &mut Table<Document, DocSet>,
    indexes: &mut Vec<Index>,
    id: DocId,
    set: DocSet,
    changes: Vec<KeyChange>,
)
    requires tied { AreTables docs.old.pairs indexes.old.items }
    requires place { 1 ≤ docs.old.room }
    requires changes { changes.items
        ≡ map (λ x. key_change id (find id_cmp id docs.old.pairs) set x.exprs.texts)
        indexes.old.items }
    requires room { All (HasRoom set) indexes.old.items }
    ensures docs { docs.new.pairs ≡ put id_cmp id set docs.old.pairs }
    ensures tied { AreTables docs.new.pairs indexes.new.items }
    ensures names { names_of indexes.new.items ≡ names_of indexes.old.items }
{
    change_indexes(indexes, docs, &id, &set, changes);
    docs.put(id, set);
}
