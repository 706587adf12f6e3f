//! Commands over a store in memory, one after the other: each with its input, what it prints and
//! what is left of the input.
//!
//! These functions borrow where they can and answer a plain `bool`: that keeps the proof of the
//! test short.
use cli_words::{Command, WordsFault, read_words};
use command_lines::Outcome;
use link::{MemSink, MemSource, read_at_most};
use outside::{NoDoor, Outside};
use std::alloc::Global;
use store_commands::{MemStore, run_over};
use sync_link::{MemLink, Replies};
use u1_base::{Bytes, Memory, Numbers, Text, Texts};

type Around = Outside<MemSource, MemSink, MemLink, NoDoor>;

// The words of a command after the directory, its input, what it prints, and what is left of the
// input.
type Row = (&'static str, &'static str, &'static str, &'static str);

// The store counts before the input, and who wants no content leaves the input alone. A store in
// memory has no image, so the lengths of a compaction are 0.
const ROWS: &[Row] = &[
    ("compact", "{}", "refused no-database\n", "{}"),
    ("create d1", "[]", "refused no-database\n", "[]"),
    ("init db a", "{}", "database db replica a\n", "{}"),
    ("init db b", "{}", "refused database-exists\n", "{}"),
    ("compact", "{}", "compacted 0 0\n", "{}"),
    ("create d1", "[]", "bad-content not-object\n", ""),
    ("create d1", r#"{"a":"x"}"#, "d1 a:1\n", ""),
    ("index-create i a", "{}", "index i\n", "{}"),
    ("put d1 a:1", r#"{"a":"y"}"#, "d1 a:2\n", ""),
    ("put d1 a:1", "{}", "refused revision-conflict a:2\n", ""),
    ("compact", "{}", "compacted 0 0\n", "{}"),
    ("query i y", "{}", "d1 a:2 - {\"a\":\"y\"}\n", "{}"),
    ("delete d1 a:2", "{}", "d1 a:3\n", "{}"),
    ("all", "{}", "generation 3\n", "{}"),
];

#[test]
fn a_store_in_memory_does_what_is_asked(rt: HostRuntime) {
    assert!(rt; tells(rt.alloc(), ROWS));
}

// Whether each command does what its row says, where there is no store at first.
fn tells(alloc: Global, rows: &[Row]) -> bool {
    is_told(walk(alloc, MemStore::blank(), rows))
}

// What a step told, without the store after it. Dropping a store is dear to prove, so this is the
// one function that does.
fn is_told(step: (bool, MemStore)) -> bool {
    step.0
}

// Whether each command does what its row says, and the store after them.
fn walk(alloc: Global, store: MemStore, rows: &[Row]) -> (bool, MemStore) {
    let mut store = store;
    let mut good = true;
    for row in rows {
        let (told, next) = step(alloc, store, row);
        store = next;
        good = good && told;
    }
    (good, store)
}

fn step(alloc: Global, store: MemStore, row: &Row) -> (bool, MemStore) {
    match around(alloc, row.1) {
        Ok(mut outside) => step_from(alloc, store, row, &mut outside),
        Err(Memory) => (false, store),
    }
}

fn step_from(alloc: Global, store: MemStore, row: &Row, outside: &mut Around) -> (bool, MemStore) {
    let (line, _, printed, left) = *row;
    let (outcome, store) = run_line(alloc, line, store, outside);
    let good = has_ended(&outcome)
        && outside.out.bytes() == printed.as_bytes()
        && leaves(alloc, &mut outside.input, left);
    (good, store)
}

// Whether it is another outcome than running out of memory, which prints nothing.
fn has_ended(outcome: &Outcome) -> bool {
    match outcome {
        Outcome::Memory => false,
        _ => true,
    }
}

// Whether just this is left.
fn leaves(alloc: Global, input: &mut MemSource, left: &str) -> bool {
    match read_at_most(alloc, input, 64) {
        Ok(bytes) => bytes.as_slice() == left.as_bytes(),
        Err(_) => false,
    }
}

// What stands outside: this input, an empty output, and no peer.
fn around(alloc: Global, text: &str) -> Result<Around, Memory> {
    Ok(Outside {
        input: source_of(alloc, text)?,
        out: MemSink::new(alloc, Numbers::new(alloc)),
        link: MemLink::new(Replies::new(alloc), 1, Numbers::new(alloc)),
        door: NoDoor,
    })
}

fn source_of(alloc: Global, text: &str) -> Result<MemSource, Memory> {
    let mut bytes = Bytes::new(alloc);
    bytes.extend(text.as_bytes())?;
    Ok(MemSource::new(bytes, Numbers::new(alloc)))
}

// How the command of the line ends, and the store after it. Words of no command end as if memory
// ran out, which no row wants.
fn run_line(
    alloc: Global,
    line: &str,
    store: MemStore,
    outside: &mut Around,
) -> (Outcome, MemStore) {
    match command_of(alloc, line) {
        Ok(command) => run_over(alloc, &command, 0, store, outside),
        Err(_) => (Outcome::Memory, store),
    }
}

fn command_of(alloc: Global, line: &str) -> Result<Command, WordsFault> {
    let mut words = Texts::new(alloc);
    words.push(Text::copy(alloc, ".")?)?;
    for word in line.split(' ') {
        words.push(Text::copy(alloc, word)?)?;
    }
    read_words(alloc, words.as_slice())
}
