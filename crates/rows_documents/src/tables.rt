//! `table`: the table of an index. A key is its texts with `|` between.
//!
//! - `new NAME`: an empty table. `put ID KEY;KEY`: the pairs of a document, one by one; `drop ID
//!   KEY;KEY`, `remove ID`: they go. The answer is how many pairs there are.
//! - `pairs all`, `keys all`, `seek KEY`, `query WIDTH VALUES`, `range START : END`, where `open`
//!   is no end.
//! - `pattern WIDTH VALUES`: the parts of the values of a query.
ghost use Rattle.std.specs.Prelude.{◌≡◌, ◌<◌, true, All, length};

use crate::meant::say_bad;
use index_tables::IndexTable;
use query_range::{Part, Pattern, PatternFault, between, compare_keys, distinct_keys, matching};
use rows::{Said, number_of};
use std::alloc::Global;
use std::marker::Brand;
use std::mem;
use std::sync::ledger::{Blank, Ledger};
use u1_base::{DocId, Ids, Key, Keys, Memory, Steps, Text, Texts};

pub(crate) fn answer(
    alloc: Global,
    table: &mut IndexTable,
    call: &str,
    row: &str,
    said: &mut Said,
) -> Option<()> {
    match call {
        "new" => drop(mem::replace(table, IndexTable::new(alloc))),
        "put" => put(alloc, table, row)?,
        "drop" => drop_keys(alloc, table, row)?,
        "remove" => table.remove(&DocId::read(alloc, row).ok()?),
        "pattern" => return said_pattern(alloc, row, said),
        _ => return uncounted(alloc, table, call, row, said),
    }
    said.number(table.length()).ok()?;
    said.end().ok()
}

// The texts between bars.
fn texts(alloc: Global, words: &str) -> Option<Texts> {
    let mut texts = Texts::new(alloc);
    for word in words.split('|') {
        texts.push(Text::copy(alloc, word).ok()?).ok()?;
    }
    Some(texts)
}

fn key(alloc: Global, words: &str) -> Option<Key> {
    let texts = texts(alloc, words)?;
    if texts.len() < 1 || texts.len() > 8 {
        return None;
    }
    Some(Key::of(texts))
}

fn put(alloc: Global, table: &mut IndexTable, row: &str) -> Option<()> {
    let (id, words) = row.split_once(' ')?;
    let id = DocId::read(alloc, id).ok()?;
    for words in words.split(';') {
        put_one(alloc, table, &id, key(alloc, words)?).ok()?;
    }
    Some(())
}

// Puts a pair in, in the place of one that is there already.
fn put_one(alloc: Global, table: &mut IndexTable, id: &DocId, key: Key) -> Result<(), Memory> {
    let mut keys = Keys::new(alloc);
    keys.push(key)?;
    table.drop_pairs(id, keys.as_slice());
    table.add(id, keys)
}

fn drop_keys(alloc: Global, table: &mut IndexTable, row: &str) -> Option<()> {
    let (id, words) = row.split_once(' ')?;
    let id = DocId::read(alloc, id).ok()?;
    let mut keys = Keys::new(alloc);
    for words in words.split(';') {
        keys.push(key(alloc, words)?).ok()?;
    }
    table.drop_pairs(&id, keys.as_slice());
    Some(())
}

fn uncounted(
    alloc: Global,
    table: &IndexTable,
    call: &str,
    row: &str,
    said: &mut Said,
) -> Option<()> {
    let call = Text::copy(alloc, call).ok()?;
    let row = Text::copy(alloc, row).ok()?;
    asked::<Brand>(alloc, table, &call, &row, Blank::new(1), said)
}

fn asked<L: Ledger>(
    alloc: Global,
    table: &IndexTable,
    call: &Text,
    row: &Text,
    blank: Blank,
    said: &mut Said,
) -> Option<()>
    requires name { blank.name ≡ L.name }
    requires parts { blank.parts ≡ L.parts }
    requires some { 0 < L.parts }
{
    let mut steps = Steps::<L>::new(blank);
    let row = row.as_str();
    match call.as_str() {
        "pairs" => pairs(table, &mut steps, said),
        "keys" => keys(alloc, table, &mut steps, said),
        "seek" => seek(alloc, table, row, &mut steps, said),
        "query" => query(alloc, table, row, &mut steps, said),
        "range" => range(alloc, table, row, &mut steps, said),
        _ => None,
    }
}

// Each pair that a walk meets.
fn pairs<L: Ledger>(table: &IndexTable, steps: &mut Steps<L>, said: &mut Said) -> Option<()> {
    let mut entries = table.walk();
    for place in 0..table.length() {
        let (key, id) = entries.entry(place, steps)?;
        say_key(key, said)?;
        said.word(id.as_str()).ok()?;
        said.end().ok()?;
    }
    Some(())
}

fn say_key(key: &Key, said: &mut Said) -> Option<()> {
    let mut is_later = false;
    for text in key.texts() {
        if is_later {
            said.join("|").ok()?;
            said.join(text.as_str()).ok()?;
        } else {
            said.word(text.as_str()).ok()?;
        }
        is_later = true;
    }
    Some(())
}

fn keys<L: Ledger>(
    alloc: Global,
    table: &IndexTable,
    steps: &mut Steps<L>,
    said: &mut Said,
) -> Option<()> {
    let keys = distinct_keys(alloc, table, steps).ok()?;
    for key in keys.as_slice() {
        say_key(key, said)?;
        said.end().ok()?;
    }
    Some(())
}

fn seek<L: Ledger>(
    alloc: Global,
    table: &IndexTable,
    words: &str,
    steps: &mut Steps<L>,
    said: &mut Said,
) -> Option<()> {
    let place = table.seek(texts(alloc, words)?.as_slice(), steps);
    said.number(place).ok()?;
    said.end().ok()
}

fn pattern(alloc: Global, row: &str) -> Option<Result<Pattern, PatternFault>> {
    let (width, words) = row.split_once(' ')?;
    let values = texts(alloc, words)?;
    Some(Pattern::read(alloc, values.as_slice(), number_of(width)?))
}

fn query<L: Ledger>(
    alloc: Global,
    table: &IndexTable,
    row: &str,
    steps: &mut Steps<L>,
    said: &mut Said,
) -> Option<()> {
    match pattern(alloc, row)? {
        Ok(pattern) => found(alloc, table, &pattern, steps, said),
        Err(fault) => say_bad(alloc, &fault, said),
    }
}

fn found<L: Ledger>(
    alloc: Global,
    table: &IndexTable,
    pattern: &Pattern,
    steps: &mut Steps<L>,
    said: &mut Said,
) -> Option<()> {
    if !have_width(table, pattern.parts().len(), steps) {
        return said.line("another width").ok();
    }
    say_ids(&matching(alloc, table, pattern, steps).ok()?, said)
}

// Whether each key has so many texts.
fn have_width<L: Ledger>(table: &IndexTable, width: usize, steps: &mut Steps<L>) -> bool
    ensures { result ≡ true → All (λ p. length p.0 ≡ width) table.now.pairs }
{
    for place in 0..table.length() {
        match table.entry(place, steps) {
            Some((key, _)) => {
                if key.texts().len() != width {
                    return false;
                }
            }
            None => return false,
        }
    }
    true
}

fn range<L: Ledger>(
    alloc: Global,
    table: &IndexTable,
    row: &str,
    steps: &mut Steps<L>,
    said: &mut Said,
) -> Option<()> {
    let (start, end) = row.split_once(" : ")?;
    let start = end_of(alloc, start)?;
    let end = end_of(alloc, end)?;
    say_ids(
        &between(alloc, table, start.as_ref(), end.as_ref(), steps).ok()?,
        said,
    )
}

fn end_of(alloc: Global, words: &str) -> Option<Option<Key>> {
    if words == "open" {
        return Some(None);
    }
    Some(Some(key(alloc, words)?))
}

fn say_ids(ids: &Ids, said: &mut Said) -> Option<()> {
    for id in ids.as_slice() {
        said.word(id.as_str()).ok()?;
    }
    said.end().ok()
}

fn said_pattern(alloc: Global, row: &str, said: &mut Said) -> Option<()> {
    match pattern(alloc, row)? {
        Ok(pattern) => say_parts(pattern.parts(), said),
        Err(fault) => say_bad(alloc, &fault, said),
    }
}

fn say_parts(parts: &[Part], said: &mut Said) -> Option<()> {
    for part in parts {
        say_part(part, said)?;
    }
    said.end().ok()
}

fn say_part(part: &Part, said: &mut Said) -> Option<()> {
    match part {
        Part::Any => said.word("any").ok(),
        Part::Exact(text) => {
            said.word("exactly").ok()?;
            said.quoted(text.as_str()).ok()
        }
        Part::Prefix(text) => {
            said.word("from").ok()?;
            said.quoted(text.as_str()).ok()
        }
    }
}
