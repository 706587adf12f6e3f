//! The examples are run, and what they give is printed.
use crate::canonical::print_canonical;
use crate::conflict::{settle_note, take_note, write_note};
use crate::folder::open_notes;
use crate::pieces::content_in_pieces;
use crate::reopening::{KeepFault, keep_note};
use crate::tags::{index_notes, notes_with};
use conflicts::{Member, Move, Outcome4, PosTable};
use content::Content;
use disk_model::MemDisk;
use disks::Disks;
use expr_parser::Expr;
use journal::Header;
use link::StdSink;
use replica_core::{MemReplica, Replica, get_doc};
use replica_state::State;
use replica_volume::Volume;
use std::alloc::Global;
use std::{fs, io};
use u1_base::limits::GREATEST_IMAGE_LIMIT;
use u1_base::{Bytes, DbName, DocId, Ids, IndexName, Numbers, Position, ReplicaUid, TransId};
use vector_rev::Clock;

const SEED: u128 = 7;

const MILK: &str = r#"{"title":"milk"}"#;

const BREAD: &str = r#"{"title":"bread"}"#;

const BOTH: &str = r#"{"title":"milk and bread"}"#;

// ---- canonical texts, and a text in pieces

pub fn tell_texts(rt: &HostRuntime) -> Option<()> {
    tell_canonical(
        rt,
        r#" { "town" : "Bonn", "age": 30, "age" : 31, "a\u0041": [ true , null ] } "#,
    )?;
    tell_canonical(rt, "[1]")?;
    tell_canonical(rt, r#"{"a":1.5}"#)?;
    for most in [1, 2, 7, 100] {
        tell_pieces(rt, most)?;
    }
    Some(())
}

fn tell_canonical(rt: &HostRuntime, json: &str) -> Option<()> {
    let mut out = StdSink::new(io::writer(rt));
    match print_canonical(rt.alloc(), json.as_bytes(), &mut out) {
        Ok(()) => rt.println("").ok(),
        Err(fault) => rt.println(fault).ok(),
    }
}

fn tell_pieces(rt: &HostRuntime, most: usize) -> Option<()> {
    let content = content_in_pieces(rt.alloc(), br#"{ "title": "milk" }"#, most.max(1)).ok()?;
    rt.println(content.as_str()).ok()
}

// ---- a note that two devices change

pub fn tell_notes(rt: &HostRuntime) -> Option<()> {
    let mut notes = new_notes(rt.alloc())?;
    tell_conflict(rt, &mut notes)
}

fn tell_conflict(rt: &HostRuntime, notes: &mut MemReplica) -> Option<()> {
    write(rt, notes, "n1", MILK)?;
    take(rt, notes, BREAD)?;
    read(rt, notes.state())?;
    settle(rt, notes, BOTH)?;
    read(rt, notes.state())
}

fn new_notes(alloc: Global) -> Option<MemReplica> {
    let name = DbName::read(alloc, "notes").ok()?;
    let uid = ReplicaUid::read(alloc, "laptop").ok()?;
    Some(MemReplica::new(alloc, name, uid))
}

fn note_of(alloc: Global, id: &str, text: &str) -> Option<(DocId, Content)> {
    let id = DocId::read(alloc, id).ok()?;
    let content = Content::read(alloc, text.as_bytes()).ok()?;
    Some((id, content))
}

fn write(rt: &HostRuntime, notes: &mut MemReplica, id: &str, text: &str) -> Option<()> {
    let (id, text) = note_of(rt.alloc(), id, text)?;
    tell_rev(rt, write_note(rt.alloc(), notes, SEED, &id, &text).ok())
}

fn settle(rt: &HostRuntime, notes: &mut MemReplica, text: &str) -> Option<()> {
    let (id, text) = note_of(rt.alloc(), "n1", text)?;
    tell_rev(rt, settle_note(rt.alloc(), notes, SEED, &id, &text).ok())
}

fn tell_rev(rt: &HostRuntime, rev: Option<Clock>) -> Option<()> {
    let text = rev?.text().ok()?;
    rt.println(text.as_str()).ok()
}

// The phone's text, which knows of no other change.
fn take(rt: &HostRuntime, notes: &mut MemReplica, text: &str) -> Option<()> {
    let alloc = rt.alloc();
    let (id, text) = note_of(alloc, "n1", text)?;
    let theirs = Member {
        rev: Clock::read(alloc, "phone:1").ok()?,
        content: Some(text),
    };
    let at = first_of_phone(alloc)?;
    let taken = take_note(alloc, notes, SEED, &id, &theirs, &at).ok()?;
    rt.println(match taken.outcome {
        Outcome4::Conflicted => "conflicted",
        _ => "not conflicted",
    })
    .ok()
}

// The first entry in the log of the device `phone`.
fn first_of_phone(alloc: Global) -> Option<Move> {
    let trans = TransId::read(alloc, "T-1").ok()?;
    let uid = ReplicaUid::read(alloc, "phone").ok()?;
    let at = Position {
        generation: 1,
        trans: Some(trans),
    };
    Some(Move {
        table: PosTable::Known,
        uid,
        at,
    })
}

fn read(rt: &HostRuntime, notes: &State) -> Option<()> {
    let id = DocId::read(rt.alloc(), "n1").ok()?;
    match &get_doc(notes, &id, false)?.content {
        Some(content) => rt.println(content.as_str()).ok(),
        None => rt.println("deleted").ok(),
    }
}

// ---- notes by their tags: a changed note is found by what it has now

pub fn tell_tags(rt: &HostRuntime) -> Option<()> {
    let mut notes = new_notes(rt.alloc())?;
    tell_tagged(rt, &mut notes)
}

fn tell_tagged(rt: &HostRuntime, notes: &mut MemReplica) -> Option<()> {
    write(rt, notes, "n2", r#"{"tag":"shop"}"#)?;
    write(rt, notes, "n1", r#"{"tag":"shop"}"#)?;
    index(rt.alloc(), notes)?;
    find(rt, notes.state(), "shop")?;
    write(rt, notes, "n2", r#"{"tag":"work"}"#)?;
    find(rt, notes.state(), "shop")?;
    find(rt, notes.state(), "work")
}

fn index(alloc: Global, notes: &mut MemReplica) -> Option<()> {
    let name = IndexName::read(alloc, "by_tag").ok()?;
    let by = Expr::read(alloc, "tag").ok()?;
    index_notes(alloc, notes, &name, by).ok()
}

fn find(rt: &HostRuntime, notes: &State, tag: &str) -> Option<()> {
    let name = IndexName::read(rt.alloc(), "by_tag").ok()?;
    let found = notes_with(rt.alloc(), notes, &name, tag).ok()?;
    rt.println(tag).ok()?;
    tell_ids(rt, &found?)
}

fn tell_ids(rt: &HostRuntime, ids: &Ids) -> Option<()> {
    for id in ids.as_slice() {
        rt.println(id.as_str()).ok()?;
    }
    Some(())
}

// ---- a note in a store, and a store whose first disk fails

pub fn tell_store(rt: &HostRuntime) -> Option<()> {
    let sound = kept(rt.alloc(), Numbers::new(rt.alloc()))?;
    tell_kept(rt, sound)?;
    let mut failing = Numbers::new(rt.alloc());
    failing.push(0).ok()?;
    let broken = kept(rt.alloc(), failing)?;
    tell_kept(rt, broken)
}

// What came of a note that was kept: the one function that lets a store go.
fn tell_kept(rt: &HostRuntime, kept: Result<Volume<MemDisk>, KeepFault>) -> Option<()> {
    match kept {
        Ok(store) => read(rt, store.state()),
        Err(fault) => rt.println(fault).ok(),
    }
}

fn kept(alloc: Global, failing: Numbers) -> Option<Result<Volume<MemDisk>, KeepFault>> {
    let header = header_of(alloc)?;
    let (id, text) = note_of(alloc, "n1", MILK)?;
    let disks = disks_of(alloc, failing);
    Some(keep_note(alloc, disks, header, SEED, &id, &text))
}

// The calls of the root with these numbers fail.
fn disks_of(alloc: Global, failing: Numbers) -> Disks<MemDisk> {
    let root = MemDisk::new(alloc, Bytes::new(alloc), failing);
    let left = MemDisk::new(alloc, Bytes::new(alloc), Numbers::new(alloc));
    let right = MemDisk::new(alloc, Bytes::new(alloc), Numbers::new(alloc));
    Disks::new(root, left, right)
}

fn header_of(alloc: Global) -> Option<Header> {
    let name = DbName::read(alloc, "notes").ok()?;
    let uid = ReplicaUid::read(alloc, "laptop").ok()?;
    Some(Header {
        name,
        uid,
        limit: GREATEST_IMAGE_LIMIT,
    })
}

// ---- a store in a folder: the second call finds the store of the first one

// Where the program runs, and removed at the end: a name that nothing else has.
const FOLDER: &str = "notes-of-the-example";

pub fn tell_folder(rt: &HostRuntime) -> Option<()> {
    let _ = fs::remove_dir_all(rt, FOLDER);
    write_in_folder(rt, MILK)?;
    write_in_folder(rt, BREAD)?;
    fs::remove_dir_all(rt, FOLDER).ok()
}

fn write_in_folder(rt: &HostRuntime, text: &str) -> Option<()> {
    let header = header_of(rt.alloc())?;
    let (id, text) = note_of(rt.alloc(), "n1", text)?;
    tell_rev(rt, written(rt, header, &id, &text))
}

fn written(rt: &HostRuntime, header: Header, id: &DocId, text: &Content) -> Option<Clock> {
    match open_notes(rt, FOLDER, header) {
        Ok(mut notes) => write_note(rt.alloc(), &mut notes, SEED, id, text).ok(),
        Err(_) => None,
    }
}
