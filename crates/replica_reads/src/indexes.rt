//! The indexes of a state, and what they answer.
ghost use Rattle.std.specs.Prelude.{◌≡◌, ◌+◌, ◌≤◌, IfOk, length, map, option_copied, option_map};
ghost use Rattle.std.specs.Prelude.{slice_get};
ghost use Rattle.chunk_list.specs.Looks.{FewLooks};
ghost use Rattle.query_range.specs.Answers.{is_within, keys_of, wanted_of};
ghost use Rattle.query_range.specs.Patterns.{meets, part_of};
ghost use Rattle.replica_state.specs.Held.{lists_of};
ghost use Rattle.replica_state.specs.Keyed.{keyed};
ghost use Rattle.replica_state.specs.Lent.{IsLent};
ghost use Rattle.replica_reads.specs.Answers.{keys_by};
ghost use Rattle.replica_reads.specs.Indexes.{Gives, OverDocuments, looked_up, queried, ranged};
ghost use Rattle.replica_reads.specs.Indexes.{searched};
ghost use Rattle.replica_reads.specs.Patterns.{has_width};

use crate::QueryFault;
use query_range::{Pattern, between, distinct_keys, matching};
use replica_state::{Index, IndexExprs, State};
use std::alloc::Global;
use std::sync::ledger::Ledger;
use u1_base::{Ids, IndexName, Key, Keys, Memory, Steps, Text};

/// The index of a name. None exactly where there is no such index. Its table has just the pairs of
/// the keys and ids of the live documents.
pub fn index_table<'a>(state: &'a State, name: &IndexName) -> Option<&'a Index>
    ensures { IsLent state.now name.now (option_copied result) }
{
    state.index_table(name)
}

/// The index at a place, which counts from 0 in the order of names. None exactly past the end.
pub fn index_at(state: &State, place: u64) -> Option<(&IndexName, &IndexExprs)>
    ensures { option_map (λ index. (index.0.now, index.1.now.texts)) result
        ≡ slice_get (lists_of state.now).indexes place }
{
    match index_in(state.indexes(), place) {
        Some(index) => Some((index.name(), index.exprs())),
        None => None,
    }
}

fn index_in(indexes: &[Index], place: u64) -> Option<&Index>
    ensures { option_copied result ≡ slice_get indexes.now place }
{
    indexes.get(place as usize)
}

/// The documents with a key that meets the values of a query, by their least such key and then by
/// id.
///
/// It counts at most two steps for each bit of the length of the table, one for each of its pairs
/// whose key meets the values, and one more.
pub fn from_index<L: Ledger>(
    alloc: Global,
    index: &Index,
    values: &[Text],
    steps: &mut Steps<L>,
) -> Result<Ids, QueryFault>
    // by the pairs of its table
    ensures pairs { Gives (searched index.now values.now) result }
    // by the documents that the table is of
    ensures documents { OverDocuments index.now
        (λ docs. Gives (queried index.now.exprs.texts docs values.now) result) }
    ensures looks { FewLooks (length index.now.table.pairs)
        (length (wanted_of (meets (map part_of values.now)) index.now.table.pairs) + 1)
        steps.old steps.new }
{
    let width = index.exprs().as_slice().len() as u64;
    let pattern = Pattern::read(alloc, values, width)?;
    Ok(matching(alloc, index.table(), &pattern, steps)?)
}

/// The documents with a key from a start to an end, by their least such key and then by id. Both
/// ends belong to the range, and one that is left out bounds nothing.
///
/// It counts at most two steps for each bit of the length of the table, one for each of its pairs
/// whose key lies in the range, and one more.
pub fn range_from_index<L: Ledger>(
    alloc: Global,
    index: &Index,
    start: Option<&Key>,
    end: Option<&Key>,
    steps: &mut Steps<L>,
) -> Result<Ids, QueryFault>
    ensures pairs { Gives
        (looked_up index.now (option_copied start.entry) (option_copied end.entry)) result }
    ensures documents { OverDocuments index.now (λ docs. Gives
        (ranged index.now.exprs.texts docs (option_copied start.entry) (option_copied end.entry))
        result) }
    ensures looks { FewLooks (length index.now.table.pairs)
        (length (wanted_of (is_within start.entry end.entry) index.now.table.pairs) + 1)
        steps.old steps.new }
{
    if !has_width(index, start) || !has_width(index, end) {
        return Err(QueryFault::WrongWidth);
    }
    Ok(between(alloc, index.table(), start, end, steps)?)
}

// Whether the end of a range, if it is given, has a text for each expression.
fn has_width(index: &Index, end: Option<&Key>) -> bool
    ensures { result ≡ has_width (length index.now.exprs.texts) (option_copied end.entry) }
{
    match end {
        Some(key) => key.texts().len() == index.exprs().as_slice().len(),
        None => true,
    }
}

/// The keys of the live documents, in order, each once.
///
/// It counts at most one step for each pair of the table.
pub fn index_keys<L: Ledger>(
    alloc: Global,
    index: &Index,
    steps: &mut Steps<L>,
) -> Result<Keys, Memory>
    ensures pairs { IfOk result (λ keys. keys ≡ keys_of index.now.table.pairs) }
    ensures documents { OverDocuments index.now
        (λ docs. IfOk result (λ keys. keys ≡ keys_by (keyed index.now.exprs.texts docs))) }
    ensures looks { steps.new ≤ steps.old + length index.now.table.pairs }
{
    distinct_keys(alloc, index.table(), steps)
}
