//! A table that changes, against a plain list of its pairs, and what is found in it against a plain
//! filter.
ghost use Rattle.std.specs.Prelude.{◌≡◌, ◌<◌, true, All, length};

use index_tables::IndexTable;
use query_range::{Pattern, between, compare_keys, matching};
use std::alloc::Global;
use std::marker::Brand;
use std::sync::ledger::{Blank, Ledger};
use u1_base::{DocId, Ids, Key, Keys, Memory, Steps, Text, Texts};

// Pseudo-random numbers: xorshift of 64 bits with the shifts 13, 7 and 17 (Marsaglia, 2003).
#[derive(Drop)]
struct Random {
    state: u64,
}

impl Random {
    // A number below the limit, or 0.
    fn below(&mut self, limit: u64) -> u64 {
        self.state ^= self.state << 13;
        self.state ^= self.state >> 7;
        self.state ^= self.state << 17;
        self.state.checked_rem(limit).unwrap_or(0)
    }
}

fn two_texts(alloc: Global, first: &str, second: &str) -> Option<Texts> {
    let mut texts = Texts::new(alloc);
    texts.push(Text::copy(alloc, first).ok()?).ok()?;
    texts.push(Text::copy(alloc, second).ok()?).ok()?;
    Some(texts)
}

// The key of a number below 1000: its first two digits, and the last. Keys go as the numbers do.
fn key(alloc: Global, number: u64) -> Option<Key> {
    let first = format!(in alloc; "{:02}", number / 10).ok()?;
    let second = format!(in alloc; "{}", number % 10).ok()?;
    let texts = two_texts(alloc, first.as_str(), second.as_str())?;
    if texts.len() != 2 {
        return None;
    }
    Some(Key::of(texts))
}

fn document(alloc: Global, number: u64) -> Option<DocId> {
    DocId::read(alloc, format!(in alloc; "w{number:02}").ok()?.as_str()).ok()
}

// A pair in the plain list is the number of its key times 100, and that of its document, which is
// below 100.
fn put(alloc: Global, table: &mut IndexTable, id: &DocId, key: Key) -> Result<(), Memory> {
    let mut keys = Keys::new(alloc);
    keys.push(key)?;
    table.drop_pairs(id, keys.as_slice());
    table.add(id, keys)
}

// The keys that a document has in the plain list.
fn keys_of(alloc: Global, plain: &[u64], number: u64) -> Option<Keys> {
    let mut keys = Keys::new(alloc);
    for code in plain {
        if *code % 100 == number {
            keys.push(key(alloc, *code / 100)?).ok()?;
        }
    }
    Some(keys)
}

// One document gets up to 24 other keys, in both. Its old pairs go by a walk in each fourth round,
// else by their keys.
fn change(
    alloc: Global,
    random: &mut Random,
    table: &mut IndexTable,
    plain: &mut Vec<u64>,
    round: u64,
) -> Option<()> {
    let number = random.below(100);
    let id = document(alloc, number)?;
    if round % 4 == 3 {
        table.remove(&id);
    } else {
        table.drop_pairs(&id, keys_of(alloc, plain.as_slice(), number)?.as_slice());
    }
    plain.retain(|code| *code % 100 != number);
    for _ in 0..random.below(25) {
        let drawn = random.below(300);
        let code = drawn.saturating_mul(100).saturating_add(number);
        if !plain.contains(&code) {
            plain.push(code).ok()?;
            put(alloc, table, &id, key(alloc, drawn)?).ok()?;
        }
    }
    plain.sort().ok()
}

// The documents of the pairs whose key numbers lie from one number up to below another one, each at
// its first pair, with a blank behind each.
fn filtered(alloc: Global, plain: &[u64], from: u64, to: u64) -> Option<String> {
    let mut found = String::new(alloc);
    for code in plain {
        if from <= *code / 100 && *code / 100 < to {
            let word = format!(in alloc; "w{:02} ", *code % 100).ok()?;
            if !found.as_str().contains(word.as_str()) {
                found.push_str(word.as_str()).ok()?;
            }
        }
    }
    Some(found)
}

fn are_ids(ids: &Ids, want: &str) -> bool {
    let mut rest = want.split(' ');
    for id in ids.as_slice() {
        if rest.next() != Some(id.as_str()) {
            return false;
        }
    }
    rest.next() == Some("") && rest.next().is_none()
}

// Whether the table has the pairs of the plain list in its order.
fn is_same<L: Ledger>(
    alloc: Global,
    table: &IndexTable,
    plain: &[u64],
    steps: &mut Steps<L>,
) -> Option<bool> {
    for (place, code) in plain.iter().enumerate() {
        let (found, id) = table.entry(place as u64, steps)?;
        let is_key = compare_keys(found.texts(), key(alloc, *code / 100)?.texts()).is_eq();
        if !is_key || *id != document(alloc, *code % 100)? {
            return Some(false);
        }
    }
    Some(table.length() == plain.len() as u64)
}

// Whether each key has so many texts.
fn have_width<L: Ledger>(table: &IndexTable, width: usize, steps: &mut Steps<L>) -> bool
    ensures { result ≡ true → All (λ p. length p.0 ≡ width) table.now.pairs }
{
    for place in 0..table.length() {
        match table.entry(place, steps) {
            Some((key, _)) => {
                if key.texts().len() != width {
                    return false;
                }
            }
            None => return false,
        }
    }
    true
}

// The documents with a key whose first text is this value.
fn query<L: Ledger>(
    alloc: Global,
    table: &IndexTable,
    value: &str,
    steps: &mut Steps<L>,
) -> Option<Ids> {
    let values = two_texts(alloc, value, "*")?;
    let pattern = Pattern::read(alloc, values.as_slice(), 2).ok()?;
    if !have_width(table, pattern.parts().len(), steps) {
        return None;
    }
    matching(alloc, table, &pattern, steps).ok()
}

fn range<L: Ledger>(
    alloc: Global,
    table: &IndexTable,
    from: u64,
    to: u64,
    steps: &mut Steps<L>,
) -> Option<Ids> {
    let start = key(alloc, from)?;
    let end = key(alloc, to.saturating_sub(1))?;
    between(alloc, table, Some(&start), Some(&end), steps).ok()
}

// Whether the keys of the numbers are found by the value of their first texts, and as a range.
fn finds<L: Ledger>(
    alloc: Global,
    table: &IndexTable,
    plain: &[u64],
    value: &str,
    from: u64,
    to: u64,
    steps: &mut Steps<L>,
) -> Option<bool> {
    let want = filtered(alloc, plain, from, to)?;
    Some(
        are_ids(&query(alloc, table, value, steps)?, want.as_str())
            && are_ids(&range(alloc, table, from, to, steps)?, want.as_str()),
    )
}

fn finds_each<L: Ledger>(
    alloc: Global,
    table: &IndexTable,
    plain: &[u64],
    steps: &mut Steps<L>,
) -> Option<bool> {
    for ten in 0..30u64 {
        let value = format!(in alloc; "{ten:02}").ok()?;
        if !finds(
            alloc,
            table,
            plain,
            value.as_str(),
            ten * 10,
            ten * 10 + 10,
            steps,
        )? {
            return Some(false);
        }
    }
    Some(
        finds(alloc, table, plain, "0*", 0, 100, steps)?
            && finds(alloc, table, plain, "2*", 200, 300, steps)?
            && finds(alloc, table, plain, "*", 0, 300, steps)?,
    )
}

fn agrees<L: Ledger>(alloc: Global, table: &IndexTable, plain: &[u64], blank: Blank) -> Option<bool>
    requires name { blank.name ≡ L.name }
    requires parts { blank.parts ≡ L.parts }
    requires some { 0 < L.parts }
{
    let mut steps = Steps::<L>::new(blank);
    Some(is_same(alloc, table, plain, &mut steps)? && finds_each(alloc, table, plain, &mut steps)?)
}

// Whether the table stays as the plain list, looked at after each 100 of 2,000 changes.
fn stays_same(alloc: Global, table: &mut IndexTable, plain: &mut Vec<u64>) -> Option<bool> {
    let mut random = Random {
        state: 0x9e37_79b9_7f4a_7c15,
    };
    for round in 0..2000 {
        change(alloc, &mut random, table, plain, round)?;
        if round % 100 == 99 && !agrees::<Brand>(alloc, table, plain.as_slice(), Blank::new(1))? {
            return Some(false);
        }
    }
    Some(table.length() > 700)
}

#[test]
fn is_as_a_plain_list(rt: HostRuntime) {
    let mut table = IndexTable::new(rt.alloc());
    let mut plain = Vec::new(rt.alloc());
    assert!(rt; stays_same(rt.alloc(), &mut table, &mut plain) == Some(true));
}
