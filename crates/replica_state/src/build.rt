//! The table of a new index.
ghost use Rattle.std.specs.Prelude.{[], IfOk};
ghost use Rattle.index_tables.specs.Documents.{IsTableOf};
ghost use Rattle.index_tables.specs.Entries.{HoldsBoth};
ghost use Rattle.replica_state.specs.Keyed.{keyed};

use crate::exprs::IndexExprs;
use crate::keys::{keys_of_set, names_of};
use conflicts::DocSet;
use doc_table::Table;
use index_tables::{IndexTable, Pairs};
use std::alloc::Global;
use u1_base::{Document, Memory};

/// The table over all documents.
pub(crate) fn build(
    alloc: Global,
    docs: &Table<Document, DocSet>,
    exprs: &IndexExprs,
) -> Result<IndexTable, Memory>
    ensures { IfOk result (λ table. IsTableOf (keyed exprs.now.texts docs.now.pairs) table.pairs) }
{
    let pairs = pairs_of_all(alloc, docs, exprs)?;
    table_with(alloc, pairs)
}

// The pairs of all documents. They are put into the table together, which sorts them once; put in
// one by one, each would move others.
fn pairs_of_all(
    alloc: Global,
    docs: &Table<Document, DocSet>,
    exprs: &IndexExprs,
) -> Result<Pairs, Memory>
    ensures { IfOk result (λ pairs. IsTableOf (keyed exprs.now.texts docs.now.pairs) pairs) }
{
    let names = names_of(alloc, exprs)?;
    let mut pairs = Pairs::new(alloc);
    let mut walk = docs.walk();
    for place in 0..docs.length() {
        let Some((id, set)) = walk.pair(place) else {
            break;
        };
        let keys = keys_of_set(alloc, exprs, names.as_slice(), set)?;
        pairs = pairs.with(id, keys)?;
    }
    Ok(pairs)
}

// A table of these pairs.
fn table_with(alloc: Global, pairs: Pairs) -> Result<IndexTable, Memory>
    ensures { IfOk result (λ table. HoldsBoth [] pairs table.pairs) }
{
    let mut table = IndexTable::new(alloc);
    table.reserve(pairs.len() as u64)?;
    table.put_pairs(pairs);
    Ok(table)
}
