//! The documents that a pattern or a range finds.
ghost use Rattle.std.specs.Prelude.{◌≡◌, ◌+◌, IfOk, length, option_copied};
ghost use Rattle.chunk_list.specs.Looks.{FewLooks};
ghost use Rattle.index_tables.specs.Entries.{HaveWidth};
ghost use Rattle.query_range.specs.Answers.{IsAnswer, answer, is_to, is_within, wanted_of};
ghost use Rattle.query_range.specs.Patterns.{meets};
ghost use Rattle.query_range.specs.inner.Wanted.{StartsAt, takes};

use crate::Pattern;
use crate::wanted::{Wanted, ids_from};
use index_tables::IndexTable;
use std::alloc::Global;
use std::sync::ledger::Ledger;
use u1_base::{Ids, Key, Memory, Steps};

/// The documents with a key that meets the pattern, by their least such key and then by id.
///
/// It counts at most two steps for each bit of the length, one for each pair whose key meets the
/// pattern, and one more.
pub fn matching<L: Ledger>(
    alloc: Global,
    table: &IndexTable,
    pattern: &Pattern,
    steps: &mut Steps<L>,
) -> Result<Ids, Memory>
    requires width { HaveWidth (length pattern.now) table.now.pairs }
    ensures found { IfOk result (IsAnswer (meets pattern.now) table.now.pairs) }
    ensures filtered { IfOk result (λ ids. ids ≡ answer (meets pattern.now) table.now.pairs) }
    ensures looks { FewLooks (length table.now.pairs)
        (length (wanted_of (meets pattern.now) table.now.pairs) + 1) steps.old steps.new }
{
    let floor = pattern.floor(alloc)?;
    let from = table.seek(floor.as_slice(), steps);
    ids_from(alloc, table, from, &Wanted::Meets(pattern), steps)
}

/// The documents with a key from a start to an end, by their least such key and then by id. Both
/// ends belong to the range, and one that is left out bounds nothing.
///
/// It counts at most two steps for each bit of the length, one for each pair whose key lies in the
/// range, and one more.
pub fn between<L: Ledger>(
    alloc: Global,
    table: &IndexTable,
    start: Option<&Key>,
    end: Option<&Key>,
    steps: &mut Steps<L>,
) -> Result<Ids, Memory>
    ensures found { IfOk result (IsAnswer (is_within start.entry end.entry) table.now.pairs) }
    ensures filtered { IfOk result
        (λ ids. ids ≡ answer (is_within start.entry end.entry) table.now.pairs) }
    ensures looks { FewLooks (length table.now.pairs)
        (length (wanted_of (is_within start.entry end.entry) table.now.pairs) + 1)
        steps.old steps.new }
{
    let from = start_of(table, start, steps);
    ids_from(alloc, table, from, &up_to(end), steps)
}

// The first place whose key is not below the start.
fn start_of<L: Ledger>(table: &IndexTable, start: Option<&Key>, steps: &mut Steps<L>) -> u64
    ensures place { StartsAt (option_copied start.entry) table.now.pairs result }
    ensures looks { FewLooks (length table.now.pairs) 0 steps.old steps.new }
{
    match start {
        Some(key) => table.seek(key.texts(), steps),
        None => 0,
    }
}

// Which keys are taken up to the end.
fn up_to(end: Option<&Key>) -> Wanted<'_>
    ensures { (key : _) → takes result key ≡ is_to (option_copied end.entry) key }
{
    match end {
        Some(key) => Wanted::UpTo(key),
        None => Wanted::Every,
    }
}
