//! The keys of a table.
ghost use Rattle.std.specs.Prelude.{◌≡◌, ◌+◌, ◌-◌, ◌≤◌, IfOk, length, slice_get};
ghost use Rattle.query_range.specs.Answers.{AreKeys, keys_of};
ghost use Rattle.query_range.specs.inner.Wanted.{is_key};

use index_tables::{IndexTable, compare_keys};
use std::alloc::Global;
use std::sync::ledger::Ledger;
use u1_base::{Key, Keys, Memory, Steps};

/// The keys of all pairs, in order, each once.
///
/// Each pair counts one step.
pub fn distinct_keys<L: Ledger>(
    alloc: Global,
    table: &IndexTable,
    steps: &mut Steps<L>,
) -> Result<Keys, Memory>
    ensures found { IfOk result (AreKeys table.now.pairs) }
    ensures filtered { IfOk result (λ keys. keys ≡ keys_of table.now.pairs) }
    ensures looks { steps.new ≤ steps.old + length table.now.pairs }
{
    let mut keys = Keys::new(alloc);
    let mut entries = table.walk();
    for place in 0..table.length() {
        let Some((key, _)) = entries.entry(place, steps) else {
            break;
        };
        if !is_last(keys.as_slice(), key) {
            keys.push(key.copy()?)?;
        }
    }
    Ok(keys)
}

// Whether the last of the keys is this one.
fn is_last(keys: &[Key], key: &Key) -> bool
    ensures { result ≡ is_key (slice_get keys.now (length keys.now - 1)) key.now }
{
    match keys.last() {
        Some(last) => compare_keys(last.texts(), key.texts()).is_eq(),
        None => false,
    }
}
