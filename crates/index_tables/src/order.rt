//! The order of keys, and of pairs of a key and an id.
ghost use Rattle.std.specs.Prelude.{◌≡◌};
ghost use Rattle.index_tables.specs.Abbreviated.{IsAbbreviated};
ghost use Rattle.index_tables.specs.Order.{entry_cmp, key_cmp};
ghost use Rattle.index_tables.specs.Seen.{entry_of};

use crate::pair::Pair;
use key_lanes::compare;
use std::cmp::Ordering;
use u1_base::{DocId, Text};

/// The order of keys: text by text, each by its bytes. A key comes before one that goes on after
/// it.
pub fn compare_keys(a: &[Text], b: &[Text]) -> Ordering
    ensures { result ≡ key_cmp a.now b.now }
{
    let mut at = 0;
    while at < a.len() && at < b.len() {
        let order = compare(a[at].as_str().as_bytes(), b[at].as_str().as_bytes());
        if order.is_ne() {
            return order;
        }
        at += 1;
    }
    a.len().cmp(&b.len())
}

// The same of the key of a pair, and of a key with its abbreviated key. Where these differ they
// decide.
pub(crate) fn compare_key(pair: &Pair, abbreviated: u128, key: &[Text]) -> Ordering
    requires { IsAbbreviated key.now abbreviated }
    ensures { result ≡ key_cmp pair.now.key key.now }
{
    match pair.abbreviated.cmp(&abbreviated) {
        Ordering::Less => Ordering::Less,
        Ordering::Equal => compare_keys(pair.key.texts(), key),
        Ordering::Greater => Ordering::Greater,
    }
}

// The order of a pair, and of a key with its abbreviated key and an id.
pub(crate) fn compare_pair(pair: &Pair, abbreviated: u128, key: &[Text], id: &DocId) -> Ordering
    requires { IsAbbreviated key.now abbreviated }
    ensures { result ≡ entry_cmp (entry_of pair.now) (key.now, id.now) }
{
    match compare_key(pair, abbreviated, key) {
        Ordering::Less => Ordering::Less,
        Ordering::Equal => compare(pair.id.as_str().as_bytes(), id.as_str().as_bytes()),
        Ordering::Greater => Ordering::Greater,
    }
}

// The order of two pairs.
pub(crate) fn compare_pairs(pair: &Pair, other: &Pair) -> Ordering
    ensures { result ≡ entry_cmp (entry_of pair.now) (entry_of other.now) }
{
    compare_pair(pair, other.abbreviated, other.key.texts(), &other.id)
}
