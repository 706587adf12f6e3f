//! The answers of an index, for callers that count no steps.
ghost use Rattle.std.specs.Prelude.{◌≡◌, ◌<◌, IfOk, option_copied};
ghost use Rattle.query_range.specs.Answers.{keys_of};
ghost use Rattle.replica_state.specs.Keyed.{keyed};
ghost use Rattle.replica_reads.specs.Answers.{keys_by};
ghost use Rattle.replica_reads.specs.Indexes.{Gives, OverDocuments, looked_up, queried, ranged};
ghost use Rattle.replica_reads.specs.Indexes.{searched};

use crate::{QueryFault, from_index, index_keys, range_from_index};
use replica_state::Index;
use std::alloc::Global;
use std::marker::Brand;
use std::sync::ledger::{Blank, Ledger};
use u1_base::{Ids, Key, Keys, Memory, Steps, Text};

/// Answers as `from_index`.
pub fn query_index(alloc: Global, index: &Index, values: &[Text]) -> Result<Ids, QueryFault>
    ensures pairs { Gives (searched index.now values.now) result }
    ensures documents { OverDocuments index.now
        (λ docs. Gives (queried index.now.exprs.texts docs values.now) result) }
{
    counted_query::<Brand>(alloc, index, values, Blank::new(1))
}

/// Answers as `range_from_index`.
pub fn query_index_range(
    alloc: Global,
    index: &Index,
    start: Option<&Key>,
    end: Option<&Key>,
) -> Result<Ids, QueryFault>
    ensures pairs { Gives
        (looked_up index.now (option_copied start.entry) (option_copied end.entry)) result }
    ensures documents { OverDocuments index.now (λ docs. Gives
        (ranged index.now.exprs.texts docs (option_copied start.entry) (option_copied end.entry))
        result) }
{
    counted_range::<Brand>(alloc, index, start, end, Blank::new(1))
}

/// Answers as `index_keys`.
pub fn list_index_keys(alloc: Global, index: &Index) -> Result<Keys, Memory>
    ensures pairs { IfOk result (λ keys. keys ≡ keys_of index.now.table.pairs) }
    ensures documents { OverDocuments index.now
        (λ docs. IfOk result (λ keys. keys ≡ keys_by (keyed index.now.exprs.texts docs))) }
{
    counted_keys::<Brand>(alloc, index, Blank::new(1))
}

fn counted_query<L: Ledger>(
    alloc: Global,
    index: &Index,
    values: &[Text],
    blank: Blank,
) -> Result<Ids, QueryFault>
    requires name { blank.name ≡ L.name }
    requires parts { blank.parts ≡ L.parts }
    requires some { 0 < L.parts }
    ensures pairs { Gives (searched index.now values.now) result }
    ensures documents { OverDocuments index.now
        (λ docs. Gives (queried index.now.exprs.texts docs values.now) result) }
{
    let mut steps = Steps::<L>::new(blank);
    from_index(alloc, index, values, &mut steps)
}

fn counted_range<L: Ledger>(
    alloc: Global,
    index: &Index,
    start: Option<&Key>,
    end: Option<&Key>,
    blank: Blank,
) -> Result<Ids, QueryFault>
    requires name { blank.name ≡ L.name }
    requires parts { blank.parts ≡ L.parts }
    requires some { 0 < L.parts }
    ensures pairs { Gives
        (looked_up index.now (option_copied start.entry) (option_copied end.entry)) result }
    ensures documents { OverDocuments index.now (λ docs. Gives
        (ranged index.now.exprs.texts docs (option_copied start.entry) (option_copied end.entry))
        result) }
{
    let mut steps = Steps::<L>::new(blank);
    range_from_index(alloc, index, start, end, &mut steps)
}

fn counted_keys<L: Ledger>(alloc: Global, index: &Index, blank: Blank) -> Result<Keys, Memory>
    requires name { blank.name ≡ L.name }
    requires parts { blank.parts ≡ L.parts }
    requires some { 0 < L.parts }
    ensures pairs { IfOk result (λ keys. keys ≡ keys_of index.now.table.pairs) }
    ensures documents { OverDocuments index.now
        (λ docs. IfOk result (λ keys. keys ≡ keys_by (keyed index.now.exprs.texts docs))) }
{
    let mut steps = Steps::<L>::new(blank);
    index_keys(alloc, index, &mut steps)
}
