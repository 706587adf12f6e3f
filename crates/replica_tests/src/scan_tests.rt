//! Queries over 5,000 documents, against a scan of all of them.
use content::Content;
use expr_parser::{Expr, Exprs};
use query_range::Pattern;
use replica_core::{MemReplica, Replica, create_index, index_table, put_doc, query_index};
use replica_state::{Index, IndexExprs};
use std::alloc::Global;
use std::fmt::Write;
use u1_base::{DbName, DocId, Ids, IndexName, Key, Memory, ReplicaUid, Text, Texts};

const DOCS: u64 = 5_000;

// The first document has this number. All numbers have five digits, so their order is that of the
// ids.
const FIRST: u64 = 10_000;

// A key has two of these words, and is numbered so that the order of the numbers is that of the
// keys.
const KEYS: u64 = 25;

fn word(number: u64) -> &'static str {
    match number {
        0 => "a",
        1 => "ab",
        2 => "b",
        3 => "ba",
        _ => "c",
    }
}

// What is asked for: each of these words with each value of the second expression; and the globs,
// after which only any text can be asked for.
const WORDS: [&str; 5] = ["a", "ab", "b", "ba", "c"];

const VALUES: [&str; 9] = ["a", "ab", "b", "ba", "c", "d", "a*", "b*", "*"];

const GLOBS: [&str; 5] = ["a*", "ab*", "b*", "d*", "*"];

// The next number that the generator makes of this one.
fn next(x: u64) -> u64 {
    x.wrapping_mul(6364136223846793005)
        .wrapping_add(1442695040888963407)
}

// The number of each document's key.
fn made_up_keys(alloc: Global) -> Result<Vec<u64>, Memory> {
    let mut keys = Vec::new(alloc);
    let mut x: u64 = 0;
    for _ in 0..DOCS {
        x = next(x);
        keys.push((x >> 32) % KEYS)?;
    }
    Ok(keys)
}

// ---- the documents and their index

fn new_replica(alloc: Global) -> Option<MemReplica> {
    let name = DbName::read(alloc, "db").ok()?;
    let uid = ReplicaUid::read(alloc, "a").ok()?;
    Some(MemReplica::new(alloc, name, uid))
}

fn id_of(alloc: Global, doc: u64) -> Option<DocId> {
    let mut text = String::new(alloc);
    write!(text, "d{doc}").ok()?;
    DocId::read(alloc, text.as_str()).ok()
}

fn content_of(alloc: Global, key: u64) -> Option<Content> {
    let mut text = String::from_str(alloc, r#"{"n":""#).ok()?;
    text.push_str(word(key / 5)).ok()?;
    text.push_str(r#"","m":""#).ok()?;
    text.push_str(word(key % 5)).ok()?;
    text.push_str(r#""}"#).ok()?;
    Content::read(alloc, text.as_bytes()).ok()
}

fn put(alloc: Global, replica: &mut MemReplica, doc: u64, key: u64) -> Option<()> {
    let id = id_of(alloc, doc)?;
    let content = content_of(alloc, key)?;
    put_doc(alloc, replica, 7, &id, None, &content).ok()?;
    Some(())
}

fn put_all(alloc: Global, replica: &mut MemReplica, keys: &[u64]) -> Option<()> {
    let mut doc = FIRST;
    for key in keys {
        put(alloc, replica, doc, *key)?;
        doc = doc.saturating_add(1);
    }
    Some(())
}

fn index(alloc: Global, replica: &mut MemReplica) -> Option<()> {
    let name = IndexName::read(alloc, "i").ok()?;
    let mut exprs = Exprs::new(alloc);
    exprs.push(Expr::read(alloc, "n").ok()?).ok()?;
    exprs.push(Expr::read(alloc, "m").ok()?).ok()?;
    create_index(replica, &name, IndexExprs::of(exprs)).ok()
}

// ---- a query, and a scan

fn two_texts(alloc: Global, one: &str, other: &str) -> Result<Texts, Memory> {
    let mut texts = Texts::new(alloc);
    texts.push(Text::copy(alloc, one)?)?;
    texts.push(Text::copy(alloc, other)?)?;
    Ok(texts)
}

fn found(alloc: Global, index: &Index, values: &Texts) -> Option<Ids> {
    query_index(alloc, index, values.as_slice()).ok()
}

fn key_of(alloc: Global, key: u64) -> Option<Key> {
    let mut texts = Texts::new(alloc);
    texts.push(Text::copy(alloc, word(key / 5)).ok()?).ok()?;
    texts.push(Text::copy(alloc, word(key % 5)).ok()?).ok()?;
    Some(Key::of(texts))
}

// The documents that have the key, by their ids.
fn push_docs(line: &mut String, keys: &[u64], key: u64) -> Option<()> {
    let mut doc = FIRST;
    for kept in keys {
        if *kept == key {
            write!(line, "d{doc} ").ok()?;
        }
        doc = doc.saturating_add(1);
    }
    Some(())
}

fn scan(alloc: Global, keys: &[u64], values: &Texts) -> Option<String> {
    let pattern = Pattern::read(alloc, values.as_slice(), 2).ok()?;
    let mut line = String::new(alloc);
    for key in 0..KEYS {
        if pattern.meets(&key_of(alloc, key)?) {
            push_docs(&mut line, keys, key)?;
        }
    }
    Some(line)
}

fn joined(alloc: Global, ids: &Ids) -> Option<String> {
    let mut line = String::new(alloc);
    for id in ids.as_slice() {
        line.push_str(id.as_str()).ok()?;
        line.push(' ').ok()?;
    }
    Some(line)
}

// Whether the index answers the values as the scan does.
fn is_scanned(alloc: Global, index: &Index, keys: &[u64], one: &str, other: &str) -> Option<bool> {
    let values = two_texts(alloc, one, other).ok()?;
    let answered = joined(alloc, &found(alloc, index, &values)?)?;
    let wanted = scan(alloc, keys, &values)?;
    Some(answered.as_str() == wanted.as_str())
}

fn are_scanned(alloc: Global, index: &Index, keys: &[u64]) -> Option<bool> {
    for one in WORDS {
        for other in VALUES {
            if !is_scanned(alloc, index, keys, one, other)? {
                return Some(false);
            }
        }
    }
    for glob in GLOBS {
        if !is_scanned(alloc, index, keys, glob, "*")? {
            return Some(false);
        }
    }
    Some(true)
}

fn do_agree(alloc: Global, replica: &mut MemReplica) -> Option<bool> {
    let keys = made_up_keys(alloc).ok()?;
    index(alloc, replica)?;
    put_all(alloc, replica, keys.as_slice())?;
    let name = IndexName::read(alloc, "i").ok()?;
    are_scanned(alloc, index_table(replica.state(), &name)?, keys.as_slice())
}

fn agree(alloc: Global) -> Option<bool> {
    let mut replica = new_replica(alloc)?;
    do_agree(alloc, &mut replica)
}

#[test]
fn fifty_queries_of_many_documents(rt: HostRuntime) {
    assert!(rt; agree(rt.alloc()) == Some(true));
}
