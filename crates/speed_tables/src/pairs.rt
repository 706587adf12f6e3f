//! Documents put whole into the table of an index, and each then replaced, beside std's `BTreeMap`
//! of the same pairs.
use crate::set::KeySet;
use index_tables::IndexTable;
use speed_common::{Fault, Workload, id_of};
use std::alloc::{AllocError, Global};
use std::collections::BTreeMap;
use std::mem::replace;
use u1_base::{DocId, Key, Memory, Text, Texts};

// The greatest number of keys that a document has.
const MOST: u32 = 24;

/// The keys of a document, one text each, as they are at first or after the document was replaced.
#[derive(Clone, Copy)]
pub struct Round {
    number: u32,
    count: u32,
    replaced: bool,
}

/// The keys that a document had, and those that it gets.
#[derive(Drop)]
pub struct Change {
    id: DocId,
    old: KeySet,
    new: KeySet,
}

/// The pairs of many documents, as a user of std's map would keep them.
pub type PlainMap = BTreeMap<(Vec<String>, String), ()>;

/// A pair of it.
pub type PlainPair = (Vec<String>, String);

// A change with those pairs.
#[derive(Drop)]
struct PlainChange {
    old: Vec<PlainPair>,
    new: Vec<PlainPair>,
}

/// Documents of 1, 4 and 24 keys in turn, so many pairs in all or a few more: each is put, and then
/// each is replaced. The result is the number of pairs that stand at the end.
#[derive(Drop)]
pub struct Pairs {
    alloc: Global,
    changes: Vec<Change>,
    plain: Vec<PlainChange>,
}

impl Workload for Pairs {
    fn make(alloc: Global, size: u32) -> Result<Pairs, Fault> {
        let mut pairs = Pairs {
            alloc,
            changes: Vec::new(alloc),
            plain: Vec::new(alloc),
        };
        for number in 0..documents(size) {
            pairs.add(Round::none(number), Round::first(number))?;
        }
        for number in 0..documents(size) {
            pairs.add(Round::first(number), Round::second(number))?;
        }
        Ok(pairs)
    }

    fn ours(&mut self, alloc: Global) -> Result<u64, Fault> {
        let changes = replace(&mut self.changes, Vec::new(alloc));
        let mut table = IndexTable::new(alloc);
        for change in changes {
            put(&mut table, change)?;
        }
        Ok(table.length())
    }

    fn peer(&mut self, alloc: Global) -> Result<u64, Fault> {
        let changes = replace(&mut self.plain, Vec::new(alloc));
        let mut map = BTreeMap::new(alloc);
        for change in changes {
            for pair in &change.old {
                let _ = map.remove(pair);
            }
            insert_all(&mut map, change.new)?;
        }
        Ok(map.len() as u64)
    }
}

impl Pairs {
    fn add(&mut self, old: Round, new: Round) -> Result<(), Fault> {
        self.changes.push(change_of(self.alloc, old, new)?)?;
        self.plain.push(plain_change(self.alloc, old, new)?)?;
        Ok(())
    }
}

/// How many documents have so many keys in all, or a few more.
pub fn documents(size: u32) -> u32 {
    (size / 29).saturating_add(1).saturating_mul(3)
}

impl Round {
    /// No keys.
    pub fn none(number: u32) -> Round {
        Round {
            number,
            count: 0,
            replaced: false,
        }
    }

    pub fn first(number: u32) -> Round {
        let count = match number % 3 {
            0 => 1,
            1 => 4,
            _ => MOST,
        };
        Round {
            number,
            count,
            replaced: false,
        }
    }

    /// A document of as many keys as one may have.
    pub fn large() -> Round {
        Round {
            number: u32::MAX,
            count: 4096,
            replaced: false,
        }
    }

    fn second(number: u32) -> Round {
        Round {
            replaced: true,
            ..Round::first(number)
        }
    }

    // The text at a place: it is drawn by the multiplication of Fibonacci hashing (Knuth). Where a
    // document is replaced, every second key is another one.
    fn text(self, alloc: Global, place: u32) -> Result<String, AllocError> {
        let pair = self.number.wrapping_mul(MOST).wrapping_add(place);
        let other = if self.replaced && place % 2 == 0 {
            pair.wrapping_add(1 << 31)
        } else {
            pair
        };
        let drawn = other.wrapping_mul(2_654_435_769) >> 6;
        format!(in alloc; "word{drawn:08}")
    }
}

/// A document whose keys are replaced by others.
pub fn change_of(alloc: Global, old: Round, new: Round) -> Result<Change, Fault> {
    Ok(Change {
        id: id_of(alloc, new.number)?,
        old: key_set(alloc, old)?,
        new: key_set(alloc, new)?,
    })
}

fn key_set(alloc: Global, round: Round) -> Result<KeySet, Fault> {
    let mut set = KeySet::new(alloc);
    for place in 0..round.count {
        set.insert(key_of(alloc, round.text(alloc, place)?)?)?;
    }
    Ok(set)
}

/// The key of one text.
pub fn key_of(alloc: Global, text: String) -> Result<Key, Memory> {
    let mut texts = Texts::new(alloc);
    texts.push(Text::from_string(text)?)?;
    Ok(Key::of(texts))
}

/// Puts the pairs of a document in the place of those that it had. A function of the built program,
/// so that `.ci/growth` can count it.
#[inline(never)]
pub fn put(table: &mut IndexTable, change: Change) -> Result<(), Memory> {
    let Change { id, old, new } = change;
    old.drop_from(table, &id);
    new.add_to(table, &id)
}

// ---- the same plainly

fn plain_change(alloc: Global, old: Round, new: Round) -> Result<PlainChange, Fault> {
    Ok(PlainChange {
        old: plain_pairs(alloc, old)?,
        new: plain_pairs(alloc, new)?,
    })
}

/// The pairs of a document.
pub fn plain_pairs(alloc: Global, round: Round) -> Result<Vec<PlainPair>, Fault> {
    let id = id_of(alloc, round.number)?;
    let mut pairs = Vec::new(alloc);
    for place in 0..round.count {
        pairs.push(plain_pair(alloc, id.as_str(), round.text(alloc, place)?)?)?;
    }
    Ok(pairs)
}

fn plain_pair(alloc: Global, id: &str, text: String) -> Result<PlainPair, Fault> {
    let mut key = Vec::new(alloc);
    key.push(text)?;
    Ok((key, String::from_str(alloc, id)?))
}

/// Inserts each pair.
pub fn insert_all(map: &mut PlainMap, pairs: Vec<PlainPair>) -> Result<(), Fault> {
    for pair in pairs {
        map.insert(pair, ())?;
    }
    Ok(())
}
