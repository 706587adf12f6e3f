//! What the tests ask of a store, and what it answers. One function opens it and one makes it,
//! whatever is asked then: that keeps the proofs short.
ghost use Rattle.replica_volume.specs.Volume.{IsOpenVolume};

use crate::plain_state_tests::PlainState;
use conflicts::{Member, Outcome4};
use content::Content;
use crash_harness::{Files, NO_FAILING, disks_of};
use disk_model::{Disk, MemDisk};
use disks::{CompactFault, DiskName, Disks, MakeFault, OpenFault, Sizes};
use journal::Header;
use replica_core::{PutFault, Replica, TakeFault, put_doc, put_if_newer};
use replica_state::{Move, PosTable, State};
use replica_volume::Volume;
use std::alloc::Global;
use u1_base::limits::{GREATEST_IMAGE_LIMIT, LEAST_IMAGE_LIMIT};
use u1_base::{Bytes, DbName, DocId, IdFault, Memory, Position, ReplicaUid, TransId};
use vector_rev::Clock;

/// What is asked of a store, which is opened for it or made.
#[derive(Clone, Copy)]
pub(crate) enum Act<'a> {
    /// Makes the store of the database `db` at the replica `a` with this limit, and asks this.
    Make(u64, &'a Act<'a>),
    Look,
    /// Gives the document a content, in the place of this revision or of none.
    Put(&'a str, &'a str, &'a [u8]),
    /// Creates the document with a content of 8 bytes and so many letters.
    PutLetters(&'a str, usize),
    Take(&'a Entry),
    Compact,
}

/// An entry of the log of the replica `b`, which makes a document by the revision `b:1` with the
/// content `{}`: its generation, up to 3, its transaction id, and the id of the document.
pub(crate) struct Entry {
    pub(crate) generation: u64,
    pub(crate) trans: &'static str,
    pub(crate) doc: &'static str,
}

/// What is answered.
#[derive(Clone, Copy, PartialEq)]
pub(crate) enum Answer {
    /// It was done. The generation of the state then, and how many documents it has.
    Has(u64, u64),
    /// The lengths of the images before a compaction and after it.
    Sizes(u64, u64),
    Full(u64, u64),
    Damaged(DiskName, u64),
    Blank,
    Exists,
    Disk,
    Memory,
    Other,
}

/// What is asked, and what is to be answered.
#[derive(Clone, Copy)]
pub(crate) struct Asked<'a>(pub(crate) Act<'a>, pub(crate) Answer);

fn has(state: &State) -> Answer {
    Answer::Has(state.log().generation(), state.docs().length())
}

/// The answer of an opening that failed.
pub(crate) fn no_volume(fault: OpenFault) -> Answer {
    match fault {
        OpenFault::Blank => Answer::Blank,
        OpenFault::Damaged { disk, place } => Answer::Damaged(disk, place),
        OpenFault::Disk => Answer::Disk,
        OpenFault::Memory => Answer::Memory,
    }
}

// ---- documents

fn put_answer(put: &Result<Clock, PutFault>, state: &State) -> Answer {
    match put {
        Ok(_) => has(state),
        Err(PutFault::Full { need, limit }) => Answer::Full(*need, *limit),
        Err(PutFault::Disk) => Answer::Disk,
        Err(_) => Answer::Other,
    }
}

fn put_at<R: Replica>(
    alloc: Global,
    replica: &mut R,
    id: &DocId,
    rev: Option<&Clock>,
    content: &Content,
) -> Answer
    requires { R.is_open replica.old }
{
    let put = put_doc(alloc, replica, 0, id, rev, content);
    put_answer(&put, replica.state())
}

fn put_content<R: Replica>(
    alloc: Global,
    replica: &mut R,
    id: &DocId,
    rev: &str,
    content: &Content,
) -> Answer
    requires { R.is_open replica.old }
{
    if rev.is_empty() {
        return put_at(alloc, replica, id, None, content);
    }
    match Clock::read(alloc, rev) {
        Ok(rev) => put_at(alloc, replica, id, Some(&rev), content),
        Err(_) => Answer::Other,
    }
}

fn put<R: Replica>(alloc: Global, replica: &mut R, id: &str, rev: &str, text: &[u8]) -> Answer
    requires { R.is_open replica.old }
{
    let Ok(content) = Content::read(alloc, text) else {
        return Answer::Other;
    };
    match DocId::read(alloc, id) {
        Ok(id) => put_content(alloc, replica, &id, rev, &content),
        Err(_) => Answer::Other,
    }
}

/// Writes a content of 8 bytes and so many letters.
pub(crate) fn write_letters(text: &mut Bytes, count: usize) -> Result<(), Memory> {
    text.extend(b"{\"t\":\"")?;
    for _ in 0..count {
        text.extend(b"X")?;
    }
    text.extend(b"\"}")
}

fn put_letters<R: Replica>(alloc: Global, replica: &mut R, id: &str, count: usize) -> Answer
    requires { R.is_open replica.old }
{
    let mut text = Bytes::new(alloc);
    match write_letters(&mut text, count) {
        Ok(()) => put(alloc, replica, id, "", text.as_slice()),
        Err(_) => Answer::Memory,
    }
}

// ---- revisions of a peer

fn place_of(generation: u64, trans: TransId) -> Position {
    let trans = Some(trans);
    match generation {
        1 => Position {
            generation: 1,
            trans,
        },
        2 => Position {
            generation: 2,
            trans,
        },
        _ => Position {
            generation: 3,
            trans,
        },
    }
}

fn moved_to(alloc: Global, entry: &Entry) -> Result<Move, IdFault> {
    let uid = ReplicaUid::read(alloc, "b")?;
    let trans = TransId::read(alloc, entry.trans)?;
    Ok(Move {
        table: PosTable::Known,
        uid,
        at: place_of(entry.generation, trans),
    })
}

fn take_at<R: Replica>(
    alloc: Global,
    replica: &mut R,
    id: &DocId,
    theirs: &Member,
    moved: &Move,
) -> Answer
    requires { R.is_open replica.old }
{
    match put_if_newer(alloc, replica, 0, id, theirs, true, moved) {
        Ok(taken) => {
            let is_inserted = taken.outcome == Outcome4::Inserted;
            drop(taken);
            if is_inserted {
                has(replica.state())
            } else {
                Answer::Other
            }
        }
        Err(TakeFault::Disk) => Answer::Disk,
        Err(_) => Answer::Other,
    }
}

fn take_member<R: Replica>(alloc: Global, replica: &mut R, entry: &Entry, theirs: &Member) -> Answer
    requires { R.is_open replica.old }
{
    let Ok(moved) = moved_to(alloc, entry) else {
        return Answer::Other;
    };
    match DocId::read(alloc, entry.doc) {
        Ok(id) => take_at(alloc, replica, &id, theirs, &moved),
        Err(_) => Answer::Other,
    }
}

fn take<R: Replica>(alloc: Global, replica: &mut R, entry: &Entry) -> Answer
    requires { R.is_open replica.old }
{
    let Ok(rev) = Clock::read(alloc, "b:1") else {
        return Answer::Other;
    };
    match Content::read(alloc, b"{}") {
        Ok(content) => {
            let theirs = Member {
                rev,
                content: Some(content),
            };
            take_member(alloc, replica, entry, &theirs)
        }
        Err(_) => Answer::Other,
    }
}

// ---- volumes

fn compact<D: Disk>(volume: &mut Volume<D>) -> Answer
    requires { IsOpenVolume D.tells D.known volume.old }
{
    match volume.compact() {
        Ok(Sizes { before, after }) => Answer::Sizes(before, after),
        Err(CompactFault::Damaged { disk, place }) => Answer::Damaged(disk, place),
        Err(CompactFault::Disk) => Answer::Disk,
        Err(CompactFault::Memory) => Answer::Memory,
    }
}

fn does<D: Disk>(alloc: Global, volume: &mut Volume<D>, act: &Act) -> Answer
    requires { IsOpenVolume D.tells D.known volume.old }
{
    match act {
        Act::Put(id, rev, text) => put(alloc, volume, id, rev, text),
        Act::PutLetters(id, count) => put_letters(alloc, volume, id, *count),
        Act::Take(entry) => take(alloc, volume, entry),
        Act::Compact => compact(volume),
        Act::Look | Act::Make(_, _) => has(volume.state()),
    }
}

fn open(alloc: Global, disks: Disks<MemDisk>, act: &Act) -> (Disks<MemDisk>, Answer) {
    match Volume::open_volume(alloc, disks) {
        Ok(mut volume) => {
            let answer = does(alloc, &mut volume, act);
            (volume.into_disks(), answer)
        }
        Err((disks, fault)) => (disks, no_volume(fault)),
    }
}

fn header(alloc: Global, limit: u64) -> Result<Header, IdFault> {
    let name = DbName::read(alloc, "db")?;
    let uid = ReplicaUid::read(alloc, "a")?;
    let limit = limit.max(LEAST_IMAGE_LIMIT).min(GREATEST_IMAGE_LIMIT);
    Ok(Header { name, uid, limit })
}

fn no_store(fault: MakeFault) -> Answer {
    match fault {
        MakeFault::Exists => Answer::Exists,
        MakeFault::Disk => Answer::Disk,
        MakeFault::Memory => Answer::Memory,
    }
}

fn make(
    alloc: Global,
    disks: Disks<MemDisk>,
    header: Header,
    then: &Act,
) -> (Disks<MemDisk>, Answer) {
    match Volume::init(alloc, disks, header) {
        Ok(mut volume) => {
            let answer = does(alloc, &mut volume, then);
            (volume.into_disks(), answer)
        }
        Err((disks, fault)) => (disks, no_store(fault)),
    }
}

/// Asks this of the store of these disks: the disks, and the answer.
pub(crate) fn ask(alloc: Global, disks: Disks<MemDisk>, act: &Act) -> (Disks<MemDisk>, Answer) {
    match act {
        Act::Make(limit, then) => match header(alloc, *limit) {
            Ok(header) => make(alloc, disks, header, then),
            Err(_) => (disks, Answer::Memory),
        },
        _ => open(alloc, disks, act),
    }
}

/// Asks all of these, each of a store that is opened anew: the disks, and whether each was answered
/// as it is to be.
pub(crate) fn ask_all(
    alloc: Global,
    disks: Disks<MemDisk>,
    all: &[Asked],
) -> (Disks<MemDisk>, bool) {
    let mut disks = disks;
    let mut are_answered = true;
    for one in all {
        let (next, answer) = ask(alloc, disks, &one.0);
        disks = next;
        are_answered = are_answered && answer == one.1;
    }
    (disks, are_answered)
}

/// What is answered by the store of these files.
pub(crate) fn answer_of(alloc: Global, files: &Files, act: &Act) -> Answer {
    match disks_of(alloc, files, &NO_FAILING) {
        Ok(disks) => {
            let (_disks, answer) = ask(alloc, disks, act);
            answer
        }
        Err(_) => Answer::Memory,
    }
}

/// Whether the store of these files is opened, and has this state.
pub(crate) fn opens_as(alloc: Global, files: &Files, plain: &PlainState) -> bool {
    match disks_of(alloc, files, &NO_FAILING) {
        Ok(disks) => has_state(alloc, disks, plain),
        Err(_) => false,
    }
}

fn has_state(alloc: Global, disks: Disks<MemDisk>, plain: &PlainState) -> bool {
    match Volume::open_volume(alloc, disks) {
        Ok(volume) => plain.is_of(alloc, volume.state()),
        Err(_) => false,
    }
}
