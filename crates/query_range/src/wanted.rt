//! The documents of the pairs from a place on.
ghost use Rattle.std.specs.Prelude.{◌≡◌, ◌+◌, ◌≤◌, IfOk, length, map};
ghost use Rattle.u1_base.specs.Ids.{id_cmp};
ghost use Rattle.query_range.specs.Answers.{firsts};
ghost use Rattle.query_range.specs.inner.Wanted.{taken_from, takes};

use crate::Pattern;
use crate::once::each_once;
use index_tables::{IndexTable, compare_keys};
use std::alloc::Global;
use std::sync::ledger::Ledger;
use u1_base::{Ids, Key, Memory, Steps};

/// Which keys are still taken.
#[derive(Clone, Copy)]
pub(crate) enum Wanted<'a> {
    Meets(&'a Pattern),
    /// Those that are not above this one.
    UpTo(&'a Key),
    Every,
}

impl Wanted<'_> {
    fn takes(&self, key: &Key) -> bool
        ensures { result ≡ takes self.now key.now }
    {
        match self {
            Wanted::Meets(pattern) => pattern.meets(key),
            Wanted::UpTo(end) => compare_keys(key.texts(), end.texts()).is_le(),
            Wanted::Every => true,
        }
    }
}

/// The documents of the pairs from a place to the first whose key is not taken, each once, at its
/// first pair.
pub(crate) fn ids_from<L: Ledger>(
    alloc: Global,
    table: &IndexTable,
    from: u64,
    wanted: &Wanted<'_>,
    steps: &mut Steps<L>,
) -> Result<Ids, Memory>
    ensures ids { IfOk result
        (λ ids. ids ≡ firsts id_cmp
        (map (λ p. p.1) (taken_from from (takes wanted.now) table.now.pairs))) }
    ensures looks { steps.new ≤ steps.old
        + length (taken_from from (takes wanted.now) table.now.pairs) + 1 }
{
    let mut found = Vec::new(alloc);
    let mut entries = table.walk();
    for place in from..table.length() {
        let Some((key, id)) = entries.entry(place, steps) else {
            break;
        };
        if !wanted.takes(key) {
            break;
        }
        found.push(id)?;
    }
    each_once(alloc, found.as_slice())
}
