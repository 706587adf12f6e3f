//! Queries in the table of an index, each of which finds one of 16 documents, beside ranges of
//! std's `BTreeSet` of the same pairs.
ghost use Rattle.std.specs.Prelude.{◌≡◌, ◌<◌, true, All, length};

use crate::pairs::key_of;
use crate::set::KeySet;
use index_tables::IndexTable;
use query_range::{Pattern, matching};
use speed_common::{Fault, NAMES, Workload, done, id_of, name_of};
use std::alloc::{AllocError, Global};
use std::collections::BTreeSet;
use std::marker::Brand;
use std::sync::ledger::{Blank, Ledger};
use u1_base::{DocId, Ids, Steps, Text, Texts};

// A key and the id of a document with this key, as a user would keep them plainly.
type PlainPair = (String, DocId);

/// So many documents with a key of a name each. The result is the number of ids in the answers to a
/// query for each of 16 names.
#[derive(Drop)]
pub struct Answers {
    table: IndexTable,
    plain: BTreeSet<PlainPair>,
    ghost width: { All (λ p. length p.0 ≡ 1) table.pairs },
}

impl Workload for Answers {
    fn make(alloc: Global, size: u32) -> Result<Answers, Fault> {
        let table = table_of(alloc, size)?;
        if !have_width::<Brand>(&table, 1, Blank::new(1)) {
            return Err(Fault::Run);
        }
        let plain = plain_of(alloc, size)?;
        Ok(Answers { table, plain })
    }

    fn ours(&mut self, alloc: Global) -> Result<u64, Fault> {
        let mut found = 0u64;
        for name in NAMES {
            found = found.saturating_add(count_of(alloc, &self.table, name)?);
        }
        Ok(found)
    }

    fn peer(&mut self, alloc: Global) -> Result<u64, Fault> {
        let mut found = 0u64;
        for name in NAMES {
            found = found.saturating_add(in_range(alloc, &self.plain, name)?.len() as u64);
        }
        Ok(found)
    }
}

// ---- the documents

fn table_of(alloc: Global, size: u32) -> Result<IndexTable, Fault> {
    let mut table = IndexTable::new(alloc);
    for number in 0..size {
        put(alloc, &mut table, number)?;
    }
    Ok(table)
}

fn put(alloc: Global, table: &mut IndexTable, number: u32) -> Result<(), Fault> {
    let id = id_of(alloc, number)?;
    let mut keys = KeySet::new(alloc);
    keys.insert(key_of(alloc, text_at(alloc, number)?)?)?;
    Ok(keys.add_to(table, &id)?)
}

fn plain_of(alloc: Global, size: u32) -> Result<BTreeSet<PlainPair>, Fault> {
    let mut plain = BTreeSet::new(alloc);
    for number in 0..size {
        plain.insert((text_at(alloc, number)?, id_of(alloc, number)?))?;
    }
    Ok(plain)
}

fn text_at(alloc: Global, number: u32) -> Result<String, AllocError> {
    let name = name_of(number);
    format!(in alloc; "{name}{number:06}")
}

// Whether each key has so many texts.
fn have_width<L: Ledger>(table: &IndexTable, width: usize, blank: Blank) -> bool
    requires name { blank.name ≡ L.name }
    requires parts { blank.parts ≡ L.parts }
    requires some { 0 < L.parts }
    ensures { result ≡ true → All (λ p. length p.0 ≡ width) table.now.pairs }
{
    let mut steps = Steps::<L>::new(blank);
    for place in 0..table.length() {
        match table.entry(place, &mut steps) {
            Some((key, _)) => {
                if key.texts().len() != width {
                    return false;
                }
            }
            None => return false,
        }
    }
    true
}

// ---- the queries

// How many documents have a name that begins so.
fn count_of(alloc: Global, table: &IndexTable, name: &str) -> Result<u64, Fault>
    requires { All (λ p. length p.0 ≡ 1) table.now.pairs }
{
    let pattern = pattern_of(alloc, name)?;
    counted::<Brand>(alloc, table, &pattern, Blank::new(1))
}

fn counted<L: Ledger>(
    alloc: Global,
    table: &IndexTable,
    pattern: &Pattern,
    blank: Blank,
) -> Result<u64, Fault>
    requires name { blank.name ≡ L.name }
    requires parts { blank.parts ≡ L.parts }
    requires some { 0 < L.parts }
    requires width { All (λ p. length p.0 ≡ 1) table.now.pairs }
{
    if pattern.parts().len() != 1 {
        return Err(Fault::Run);
    }
    let mut steps = Steps::<L>::new(blank);
    Ok(matching(alloc, table, pattern, &mut steps)?.len() as u64)
}

fn pattern_of(alloc: Global, name: &str) -> Result<Pattern, Fault> {
    let prefix = format!(in alloc; "{name}*")?;
    let mut values = Texts::new(alloc);
    values.push(Text::from_string(prefix)?)?;
    done(Pattern::read(alloc, values.as_slice(), 1))
}

// ---- the ranges

// The ids of the pairs whose text begins so, by the least key of each.
fn in_range(alloc: Global, pairs: &BTreeSet<PlainPair>, name: &str) -> Result<Ids, Fault> {
    let start = (String::from_str(alloc, name)?, id_of(alloc, 0)?);
    let mut ids = Ids::new(alloc);
    let mut found = BTreeSet::new(alloc);
    for (text, id) in pairs.range(start..) {
        if !text.as_str().starts_with(name) {
            break;
        }
        if found.insert(id.as_str())? {
            ids.push(id.copy()?)?;
        }
    }
    Ok(ids)
}
