//! Worked rows: a store, what is asked of it, its files then, and how many calls each disk was
//! given.
use crate::acts::{Act, Answer, Asked, Entry, ask_all, write_letters};
use crate::images::{
    CLOSED_FIRST, COMPACTED, CREATED, CREATED_FIRST, EACH_KIND, EACH_KIND_COMPACTED, EMPTY,
    EMPTY_FIRST, MARKED, MARKED_ANEW, NUMBERED, NUMBERED_BEFORE, NUMBERED_FIRST, REPLACED, TAKEN,
    TAKEN_TWO,
};
use crash_harness::{Files, NO_FAILING, disks_of, got, hold};
use std::alloc::Global;
use u1_base::limits::GREATEST_IMAGE_LIMIT;
use u1_base::{Bytes, Memory};

// The files before and what is asked of them, the files then, and the calls of the root, left and
// right.
struct Row(
    Files<'static>,
    &'static [Asked<'static>],
    Files<'static>,
    (u64, u64, u64),
);

const LIMIT: u64 = GREATEST_IMAGE_LIMIT;

pub(crate) const CREATE: Act = Act::Put("d1", "", b"{\"b\":1,\"a\":\"x\"}");

// The ids are those of the seed 0.
pub(crate) const FIRST: Act = Act::Take(&Entry {
    generation: 1,
    trans: "T-a12aa9bff3485ffcbd67876eea76a865",
    doc: "d1",
});

pub(crate) const SECOND: Act = Act::Take(&Entry {
    generation: 2,
    trans: "T-98057cb70a845067a81e0635ab0cbc89",
    doc: "d2",
});

const MAKE: &[Asked] = &[Asked(Act::Make(LIMIT, &Act::Look), Answer::Has(0, 0))];

const EXISTS: &[Asked] = &[Asked(Act::Make(LIMIT, &Act::Look), Answer::Exists)];

const MAKE_AND_CREATE: &[Asked] = &[Asked(Act::Make(LIMIT, &CREATE), Answer::Has(1, 1))];

const OPEN: &[Asked] = &[Asked(Act::Look, Answer::Has(1, 1))];

const OPEN_EMPTY: &[Asked] = &[Asked(Act::Look, Answer::Has(0, 0))];

const TAKE: &[Asked] = &[Asked(FIRST, Answer::Has(1, 1))];

const TAKE_TWO: &[Asked] = &[
    Asked(FIRST, Answer::Has(1, 1)),
    Asked(SECOND, Answer::Has(2, 2)),
];

const COMPACT: &[Asked] = &[Asked(Act::Compact, Answer::Sizes(196, 157))];

const COMPACT_AGAIN: &[Asked] = &[Asked(Act::Compact, Answer::Sizes(157, 157))];

const NUMBER_ANEW: &[Asked] = &[Asked(Act::Compact, Answer::Sizes(192, 170))];

const COMPACT_EACH: &[Asked] = &[
    Asked(Act::Look, Answer::Has(3, 2)),
    Asked(Act::Compact, Answer::Sizes(216, 191)),
    Asked(Act::Look, Answer::Has(3, 2)),
];

const MARK_ANEW: &[Asked] = &[
    Asked(Act::Look, Answer::Has(3, 1)),
    Asked(Act::Compact, Answer::Sizes(126, 106)),
    Asked(Act::Look, Answer::Has(3, 1)),
];

const LONG_TEXT: &[u8] = b"no image at all, and longer than one";

// Opening is a sync, a look and a read of the root and of the image that it names. Making looks at
// the root and writes and syncs it, and gives each image a cut, a write and a sync. Adding a body
// is four calls of the image. A compaction reads the root and the image anew, gives the new image
// three calls, and writes and syncs the root; so does a move of format 1, without reading anew.
const ROWS: &[Row] = &[
    Row(
        Files(b"", b"", b""),
        MAKE,
        Files(&[0], EMPTY, EMPTY),
        (4, 3, 3),
    ),
    Row(
        Files(b"", LONG_TEXT, CREATED),
        MAKE,
        Files(&[0], EMPTY, EMPTY),
        (4, 3, 3),
    ),
    Row(
        Files(b"", b"", b""),
        MAKE_AND_CREATE,
        Files(&[0], CREATED, EMPTY),
        (4, 7, 3),
    ),
    // where the root is not empty it alone is called
    Row(
        Files(&[255], b"", EMPTY),
        EXISTS,
        Files(&[255], b"", EMPTY),
        (3, 0, 0),
    ),
    Row(
        Files(b"root", b"", EMPTY),
        EXISTS,
        Files(b"root", b"", EMPTY),
        (3, 0, 0),
    ),
    // the other image may hold anything
    Row(
        Files(&[0], CREATED, b"U1"),
        OPEN,
        Files(&[0], CREATED, b"U1"),
        (3, 3, 0),
    ),
    Row(
        Files(&[1], b"", CREATED),
        OPEN,
        Files(&[1], b"", CREATED),
        (3, 0, 3),
    ),
    Row(
        Files(&[0], EMPTY, b"other"),
        TAKE,
        Files(&[0], TAKEN, b"other"),
        (3, 7, 0),
    ),
    Row(
        Files(&[1], b"other", EMPTY),
        TAKE_TWO,
        Files(&[1], b"other", TAKEN_TWO),
        (6, 0, 14),
    ),
    // a compaction writes the image on the other side, and so does a move of format 1
    Row(
        Files(&[254], REPLACED, b"old"),
        COMPACT,
        Files(&[1], REPLACED, COMPACTED),
        (8, 6, 3),
    ),
    Row(
        Files(&[255], b"", REPLACED),
        COMPACT,
        Files(&[0], COMPACTED, REPLACED),
        (8, 3, 6),
    ),
    Row(
        Files(&[1], b"", COMPACTED),
        COMPACT_AGAIN,
        Files(&[0], COMPACTED, COMPACTED),
        (8, 3, 6),
    ),
    Row(
        Files(&[0], NUMBERED_BEFORE, b""),
        NUMBER_ANEW,
        Files(&[1], NUMBERED_BEFORE, NUMBERED),
        (8, 6, 3),
    ),
    Row(
        Files(&[0], EACH_KIND, b""),
        COMPACT_EACH,
        Files(&[1], EACH_KIND, EACH_KIND_COMPACTED),
        (14, 9, 6),
    ),
    Row(
        Files(&[0], MARKED, b""),
        MARK_ANEW,
        Files(&[1], MARKED, MARKED_ANEW),
        (14, 9, 6),
    ),
    Row(
        Files(&[254], CREATED_FIRST, b"old"),
        OPEN,
        Files(&[1], CREATED_FIRST, CREATED),
        (5, 3, 3),
    ),
    Row(
        Files(&[255], b"", CREATED_FIRST),
        OPEN,
        Files(&[0], CREATED, CREATED_FIRST),
        (5, 3, 3),
    ),
    Row(
        Files(&[0], EMPTY_FIRST, b""),
        OPEN_EMPTY,
        Files(&[1], EMPTY_FIRST, EMPTY),
        (5, 3, 3),
    ),
    Row(
        Files(&[0], CLOSED_FIRST, b""),
        OPEN_EMPTY,
        Files(&[1], CLOSED_FIRST, EMPTY),
        (5, 3, 3),
    ),
    Row(
        Files(&[0], NUMBERED_FIRST, b""),
        OPEN,
        Files(&[1], NUMBERED_FIRST, NUMBERED),
        (5, 3, 3),
    ),
];

fn is_so(alloc: Global, row: &Row) -> bool {
    match disks_of(alloc, &row.0, &NO_FAILING) {
        Ok(disks) => {
            let (disks, are_answered) = ask_all(alloc, disks, row.1);
            let (root, left, right) = row.3;
            are_answered && hold(&disks, &row.2) && got(&disks, root, left, right)
        }
        Err(_) => false,
    }
}

#[test]
fn a_store_does_what_is_asked(rt: HostRuntime) {
    for (number, row) in ROWS.iter().enumerate() {
        assert!(rt; is_so(rt.alloc(), row), "row {number}");
    }
}

// ---- full images

// A body with a content of n bytes takes 71 and n with its entry, after a header of 23 bytes and
// before a gate. The contents have 8 bytes and the letters.
const FULL: &[Asked] = &[
    Asked(
        Act::Make(4096, &Act::PutLetters("d1", 3994)),
        Answer::Full(4097, 4096),
    ),
    Asked(Act::PutLetters("d1", 3993), Answer::Has(1, 1)),
];

// A compaction makes room below the same limit.
const ROOM: &[Asked] = &[
    Asked(
        Act::Make(1024, &Act::PutLetters("d2", 800)),
        Answer::Has(1, 1),
    ),
    Asked(Act::Put("d2", "a:1", b"{}"), Answer::Has(2, 1)),
    Asked(Act::PutLetters("d1", 2), Answer::Full(1070, 1024)),
    Asked(Act::Compact, Answer::Sizes(989, 157)),
    Asked(Act::PutLetters("d1", 789), Answer::Full(1025, 1024)),
    Asked(Act::PutLetters("d1", 788), Answer::Has(3, 2)),
];

fn are_answered(alloc: Global, files: &Files, all: &[Asked]) -> bool {
    match disks_of(alloc, files, &NO_FAILING) {
        Ok(disks) => {
            let (_disks, are_answered) = ask_all(alloc, disks, all);
            are_answered
        }
        Err(_) => false,
    }
}

// An image of format 1 whose limit is 1,024, with one document of so many letters.
fn write_first(image: &mut Bytes, count: u16) -> Result<(), Memory> {
    let content = count.saturating_add(8);
    let body = content.saturating_add(58);
    image.extend(b"U1DBVOL\x01\0\x02db\0\x01a\0\0\0\0\0\0\x04\0\x01\0\0")?;
    image.extend(&body.to_be_bytes())?;
    image.extend(b"\x01\0\x02d2\0\x03a:1\0\0\0\0\0\x01\x01\0\0")?;
    image.extend(&content.to_be_bytes())?;
    write_letters(image, count as usize)?;
    image.extend(b"\0\x22T-a12aa9bff3485ffcbd67876eea76a865\0\0")
}

fn is_moved_and(alloc: Global, count: u16, all: &[Asked]) -> bool {
    let mut image = Bytes::new(alloc);
    match write_first(&mut image, count) {
        Ok(()) => are_answered(alloc, &Files(&[0], image.as_slice(), b""), all),
        Err(_) => false,
    }
}

// In format 2 the image has eight bytes more, so it may come out longer than its limit. A body of
// an empty content takes 73 with its entry.
const TOO_LONG: &[Asked] = &[Asked(Act::Put("d1", "", b"{}"), Answer::Full(1101, 1024))];

const JUST_FITS: &[Asked] = &[Asked(Act::Put("d1", "", b"{}"), Answer::Has(2, 2))];

#[test]
fn an_image_is_full_above_its_limit(rt: HostRuntime) {
    let alloc = rt.alloc();
    let none = Files(b"", b"", b"");
    assert!(rt; are_answered(alloc, &none, FULL) && are_answered(alloc, &none, ROOM));
    assert!(rt; is_moved_and(alloc, 925, TOO_LONG) && is_moved_and(alloc, 848, JUST_FITS));
}
