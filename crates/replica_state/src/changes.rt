//! The changes of all indexes, made ahead and then carried out.
ghost use Rattle.std.specs.Prelude.{◌≡◌, IfOk, OnOk, map, option_copied};
ghost use Rattle.std.specs.List.{All};
ghost use Rattle.std.specs.FinMap.Entries.{find, put};
ghost use Rattle.u1_base.specs.Ids.{id_cmp};
ghost use Rattle.replica_state.specs.Keyed.{AreTables, IsTable};
ghost use Rattle.replica_state.specs.inner.Named.{HasRoom, bare, name_of};
ghost use Rattle.replica_state.specs.Prepared.{key_change};

use crate::index::Index;
use crate::keys::{keys_before, keys_of_set, names_of};
use crate::prepared::KeyChange;
use conflicts::DocSet;
use doc_table::Table;
use index_tables::IndexTable;
use std::alloc::Global;
use u1_base::{DocId, Document, Memory};

// Makes the change of one index, and the room for it.
fn prepare_index(
    alloc: Global,
    index: &mut Index,
    id: &DocId,
    old: Option<&DocSet>,
    new: &DocSet,
) -> Result<KeyChange, Memory>
    ensures same { bare index.new ≡ bare index.old }
    ensures change { IfOk result
        (λ change. change ≡ key_change id.now
        (option_copied old.entry) new.now index.new.exprs.texts) }
    ensures room { OnOk result (HasRoom new.now index.new) }
{
    let names = names_of(alloc, &index.exprs)?;
    let gone = keys_before(alloc, &index.exprs, names.as_slice(), old)?;
    let keys = keys_of_set(alloc, &index.exprs, names.as_slice(), new)?;
    let pairs = IndexTable::pairs(id, keys)?;
    index.table.reserve(pairs.len() as u64)?;
    Ok(KeyChange { gone, pairs })
}

/// Makes the changes of all indexes, and the room for them.
pub(crate) fn prepare_indexes(
    alloc: Global,
    indexes: &mut Vec<Index>,
    id: &DocId,
    old: Option<&DocSet>,
    new: &DocSet,
) -> Result<Vec<KeyChange>, Memory>
    ensures same { map bare indexes.new.items ≡ map bare indexes.old.items }
    ensures changes { IfOk result
        (λ changes. changes.items
        ≡ map (λ x. key_change id.now (option_copied old.entry) new.now x.exprs.texts)
        indexes.new.items) }
    ensures room { OnOk result (All (HasRoom new.now) indexes.new.items) }
{
    let mut changes = Vec::with_capacity(alloc, indexes.len())?;
    let mut at = 0;
    while at < indexes.len() {
        let index = &mut indexes[at];
        let change = prepare_index(alloc, index, id, old, new)?;
        changes.push(change)?;
        at += 1;
    }
    Ok(changes)
}

// Carries out the change of one index.
fn change_index(
    index: &mut Index,
    docs: &Table<Document, DocSet>,
    id: &DocId,
    set: &DocSet,
    change: KeyChange,
)
    requires tied { IsTable docs.now.pairs index.old }
    requires change { change ≡ key_change id.now
        (find id_cmp id.now docs.now.pairs) set.now index.old.exprs.texts }
    requires room { HasRoom set.now index.old }
    ensures tied { IsTable (put id_cmp id.now set.now docs.now.pairs) index.new }
    ensures name { name_of index.new ≡ name_of index.old }
{
    let KeyChange { gone, pairs } = change;
    index.table.drop_pairs(id, gone.as_slice());
    index.table.put_pairs(pairs);
}

/// Carries out the changes of all indexes, before the document is put.
pub(crate) fn change_indexes(
    indexes: &mut Vec<Index>,
    docs: &Table<Document, DocSet>,
    id: &DocId,
    set: &DocSet,
    mut changes: Vec<KeyChange>,
)
    requires tied { AreTables docs.now.pairs indexes.old.items }
    requires changes { changes.items
        ≡ map (λ x. key_change id.now (find id_cmp id.now docs.now.pairs) set.now x.exprs.texts)
        indexes.old.items }
    requires room { All (HasRoom set.now) indexes.old.items }
    ensures tied { AreTables (put id_cmp id.now set.now docs.now.pairs) indexes.new.items }
    ensures names { map name_of indexes.new.items ≡ map name_of indexes.old.items }
{
    while let Some(change) = changes.pop() {
        let index = &mut indexes[changes.len()];
        change_index(index, docs, id, set, change);
    }
}
