//! Rows of calls that fail: what is answered, what a stop leaves after it, and what may be done
//! then. So each device call of a making, an opening, a commit, a compaction and a move of format 1
//! is a moment at which a stop comes.
use crate::acts::{Act, Answer, Asked, Entry, answer_of, ask, ask_all};
use crate::images::{CREATED, CREATED_FIRST, EMPTY, REPLACED};
use crate::opening_tests::finds_plain;
use crate::worked_tests::{CREATE, FIRST, SECOND};
use crash_harness::{Failing, Files, Left as Images, NO_FAILING, disks_of};
use disk_model::MemDisk;
use disks::DiskName::{Left, Right, Root};
use disks::{DiskName, Disks};
use std::alloc::Global;
use u1_base::limits::GREATEST_IMAGE_LIMIT;

// Of this disk a call fails whose number is one of these, and the one that comes so many later.
// What is asked and answered, and what a stop leaves then: just these answers to a look.
struct Row(
    DiskName,
    &'static [u64],
    &'static [u64],
    &'static [Asked<'static>],
    &'static [Answer],
);

// No second call fails.
const ONCE: &[u64] = &[100];

const BLANK: Answer = Answer::Blank;

const NONE: Answer = Answer::Has(0, 0);

const ONE: Answer = Answer::Has(1, 1);

const TWO: Answer = Answer::Has(2, 2);

const THREE: Answer = Answer::Has(3, 3);

// ---- a store is made

const MAKE: Act = Act::Make(GREATEST_IMAGE_LIMIT, &Act::Look);

const NOT_MADE: &[Asked] = &[Asked(MAKE, Answer::Disk)];

const MADE: &[Asked] = &[Asked(MAKE, NONE)];

const NOT_MADE_TWICE: &[Asked] = &[Asked(MAKE, Answer::Disk), Asked(MAKE, Answer::Disk)];

const MADE_THEN: &[Asked] = &[Asked(MAKE, Answer::Disk), Asked(MAKE, NONE)];

const EXISTS_THEN: &[Asked] = &[Asked(MAKE, Answer::Disk), Asked(MAKE, Answer::Exists)];

// The root is given a sync, a look, a write and a sync, and each image a cut, a write and a sync.
// Until the root is written there is no store. A write of one byte that fails puts none, so the
// root is still empty for a second making, whose first sync settles it. Where only the last sync
// failed the second making finds the root written: it asks the length, and reads the first byte.
const MAKING: &[Row] = &[
    Row(Root, &[0, 1], ONCE, NOT_MADE, &[BLANK]),
    Row(Left, &[0, 1, 2], ONCE, NOT_MADE, &[BLANK]),
    Row(Right, &[0, 1, 2], ONCE, NOT_MADE, &[BLANK]),
    Row(Root, &[2, 3], ONCE, NOT_MADE, &[BLANK, NONE]),
    Row(Root, &[4], ONCE, MADE, &[NONE]),
    Row(Left, &[0, 1, 2], &[1, 2, 3], NOT_MADE_TWICE, &[BLANK]),
    Row(Left, &[0, 1, 2], &[4], MADE_THEN, &[NONE]),
    Row(Right, &[0, 1, 2], &[1, 2, 3], NOT_MADE_TWICE, &[BLANK]),
    Row(Right, &[0, 1, 2], &[4], MADE_THEN, &[NONE]),
    Row(Root, &[0, 1], &[1, 2], NOT_MADE_TWICE, &[BLANK]),
    Row(Root, &[2], &[1], NOT_MADE_TWICE, &[BLANK, NONE]),
    Row(Root, &[2], &[2], NOT_MADE_TWICE, &[BLANK]),
    Row(Root, &[0, 1, 2], &[3, 4], NOT_MADE_TWICE, &[BLANK, NONE]),
    Row(Root, &[0, 1, 2], &[5], MADE_THEN, &[NONE]),
    Row(Root, &[3], &[1], NOT_MADE_TWICE, &[BLANK, NONE]),
    Row(Root, &[3], &[2, 3], NOT_MADE_TWICE, &[NONE]),
    Row(Root, &[3], &[4], EXISTS_THEN, &[NONE]),
];

// ---- a store is opened

const NOT_OPENED: &[Asked] = &[Asked(Act::Look, Answer::Disk)];

const OPENED: &[Asked] = &[Asked(Act::Look, ONE)];

const NOT_OPENED_TWICE: &[Asked] = &[
    Asked(Act::Look, Answer::Disk),
    Asked(Act::Look, Answer::Disk),
];

const OPENED_THEN: &[Asked] = &[Asked(Act::Look, Answer::Disk), Asked(Act::Look, ONE)];

// Three calls of the root and of the image that it names open the store.
const OPENING: &[Row] = &[
    Row(Root, &[0, 1, 2], ONCE, NOT_OPENED, &[ONE]),
    Row(Right, &[0, 1, 2], ONCE, NOT_OPENED, &[ONE]),
    Row(Left, &[0], ONCE, OPENED, &[ONE]),
    Row(Root, &[0, 1, 2], &[1, 2, 3], NOT_OPENED_TWICE, &[ONE]),
    Row(Right, &[0, 1, 2], &[1, 2, 3], NOT_OPENED_TWICE, &[ONE]),
    Row(Root, &[0, 1, 2], &[4], OPENED_THEN, &[ONE]),
    Row(Right, &[0, 1, 2], &[4], OPENED_THEN, &[ONE]),
];

// The old image is given three calls and the new one three, the root three and then two.
const MOVING: &[Row] = &[
    Row(Root, &[0, 1, 2, 3, 4], ONCE, NOT_OPENED, &[ONE]),
    Row(Left, &[0, 1, 2], ONCE, NOT_OPENED, &[ONE]),
    Row(Right, &[0, 1, 2], ONCE, NOT_OPENED, &[ONE]),
    Row(Root, &[5], ONCE, OPENED, &[ONE]),
];

// ---- a body is added

const NOT_PUT: &[Asked] = &[Asked(CREATE, Answer::Disk)];

const PUT: &[Asked] = &[Asked(CREATE, ONE)];

// The body with its content of 80 bytes is longer than that of a revision that is taken.
const LONG: Asked = Asked(Act::PutLetters("d1", 72), Answer::Disk);

const NOT_PUT_NOT_TAKEN: &[Asked] = &[LONG, Asked(SECOND, Answer::Disk)];

const TAKEN_ALONE: &[Asked] = &[LONG, Asked(SECOND, ONE)];

const TAKEN_BEHIND: &[Asked] = &[LONG, Asked(SECOND, TWO)];

// Three calls of the left disk open the store, and four add a body: until its gate is opened it is
// not there. Where only the last sync failed the next opening settles it.
const ADDING: &[Row] = &[
    Row(Left, &[3, 4], ONCE, NOT_PUT, &[NONE]),
    Row(Left, &[5, 6], ONCE, NOT_PUT, &[NONE, ONE]),
    Row(Left, &[7], ONCE, PUT, &[ONE]),
    Row(Left, &[3, 4, 5], &[4, 5], NOT_PUT_NOT_TAKEN, &[NONE]),
    Row(Left, &[3, 4, 5], &[6, 7], NOT_PUT_NOT_TAKEN, &[NONE, ONE]),
    Row(Left, &[3, 4, 5], &[8], TAKEN_ALONE, &[ONE]),
    Row(Left, &[6], &[4, 5], NOT_PUT_NOT_TAKEN, &[ONE]),
    Row(Left, &[6], &[6, 7], NOT_PUT_NOT_TAKEN, &[ONE, TWO]),
    Row(Left, &[6], &[8], TAKEN_BEHIND, &[TWO]),
];

// ---- an image is compacted

const NOT_COMPACTED: &[Asked] = &[Asked(Act::Compact, Answer::Disk)];

const COMPACTED: &[Asked] = &[Asked(Act::Compact, Answer::Sizes(196, 157))];

// Both revisions stand in the log, of one document.
const BOTH: Answer = Answer::Has(2, 1);

// Of the root and the left disk the first three calls open the store.
const COMPACTING: &[Row] = &[
    Row(Root, &[3, 4, 5, 6, 7], ONCE, NOT_COMPACTED, &[BOTH]),
    Row(Left, &[3, 4, 5], ONCE, NOT_COMPACTED, &[BOTH]),
    Row(Right, &[0, 1, 2], ONCE, NOT_COMPACTED, &[BOTH]),
    Row(Root, &[8], ONCE, COMPACTED, &[BOTH]),
];

// ---- entries of a peer are taken, one after the other

const THIRD: Act = Act::Take(&Entry {
    generation: 3,
    trans: "T-4a2f05bda87d5e5da1aec07f076e0982",
    doc: "d3",
});

const NO_FIRST: &[Asked] = &[Asked(FIRST, Answer::Disk)];

const NO_SECOND: &[Asked] = &[Asked(FIRST, ONE), Asked(SECOND, Answer::Disk)];

const NO_THIRD: &[Asked] = &[
    Asked(FIRST, ONE),
    Asked(SECOND, TWO),
    Asked(THIRD, Answer::Disk),
];

const ALL: &[Asked] = &[Asked(FIRST, ONE), Asked(SECOND, TWO), Asked(THIRD, THREE)];

// Each time three calls of the root and of the left disk open the store, and four of the left one
// add the body.
const TAKING: &[Row] = &[
    Row(Left, &[0, 1, 2, 3, 4], ONCE, NO_FIRST, &[NONE]),
    Row(Left, &[5, 6], ONCE, NO_FIRST, &[NONE, ONE]),
    Row(Left, &[7, 8, 9, 10, 11], ONCE, NO_SECOND, &[ONE]),
    Row(Left, &[12, 13], ONCE, NO_SECOND, &[ONE, TWO]),
    Row(Left, &[14, 15, 16, 17, 18], ONCE, NO_THIRD, &[TWO]),
    Row(Left, &[19, 20], ONCE, NO_THIRD, &[TWO, THREE]),
    Row(Left, &[21], ONCE, ALL, &[THREE]),
    Row(Root, &[0, 1, 2], ONCE, NO_FIRST, &[NONE]),
    Row(Root, &[3, 4, 5], ONCE, NO_SECOND, &[ONE]),
    Row(Root, &[6, 7, 8], ONCE, NO_THIRD, &[TWO]),
    Row(Root, &[9], ONCE, ALL, &[THREE]),
];

// ---- all rows

// The files of a store and its rows. After each, and after each stop then, all of this may be
// asked, whatever is answered to it, and a look is answered so then. Where it is none, nothing more
// is asked.
struct Group(
    Files<'static>,
    &'static [Row],
    &'static [Asked<'static>],
    Option<Answer>,
);

const MAKINGS: Group = Group(Files(b"", b"old", EMPTY), MAKING, &[], None);

const OPENINGS: Group = Group(Files(&[1], EMPTY, CREATED), OPENING, &[], None);

const MOVES: Group = Group(Files(&[0], CREATED_FIRST, b"old"), MOVING, &[], None);

const ADDITIONS: Group = Group(Files(&[0], EMPTY, CREATED), ADDING, &[], None);

const COMPACTIONS: Group = Group(Files(&[0], REPLACED, b"old"), COMPACTING, &[], None);

const RECEIPTS: Group = Group(Files(&[0], EMPTY, b""), TAKING, ALL, Some(THREE));

// Asks all of it, and tells whether a look is answered so then.
fn ends(alloc: Global, disks: Disks<MemDisk>, all: &[Asked], last: Answer) -> bool {
    let (disks, _) = ask_all(alloc, disks, all);
    let (_disks, answer) = ask(alloc, disks, &Act::Look);
    answer == last
}

fn goes_on(alloc: Global, disks: Disks<MemDisk>, group: &Group) -> bool {
    match group.3 {
        Some(last) => ends(alloc, disks, group.2, last),
        None => true,
    }
}

// Whether one of these is answered to a look at these files, and it goes on. Then the state is the
// one that the plain reading finds too, with the positions of the peer.
fn is_left(alloc: Global, files: &Files, row: &Row, group: &Group) -> bool {
    if !row.4.contains(&answer_of(alloc, files, &Act::Look)) {
        return false;
    }
    if group.3.is_none() {
        return true;
    }
    if !finds_plain(alloc, files) {
        return false;
    }
    match disks_of(alloc, files, &NO_FAILING) {
        Ok(disks) => goes_on(alloc, disks, group),
        Err(_) => false,
    }
}

fn are_left(alloc: Global, images: &Images, row: &Row, group: &Group) -> bool {
    for number in 0..Images::COUNT {
        match images.files(number) {
            Some(files) if is_left(alloc, &files, row, group) => {}
            _ => return false,
        }
    }
    true
}

// Whether a stop now leaves just what is listed.
fn leave(alloc: Global, disks: &Disks<MemDisk>, row: &Row, group: &Group) -> bool {
    match Images::of(alloc, disks) {
        Ok(images) => are_left(alloc, &images, row, group),
        Err(_) => false,
    }
}

fn is_so(alloc: Global, row: &Row, group: &Group, failing: &Failing) -> bool {
    match disks_of(alloc, &group.0, failing) {
        Ok(disks) => {
            let (disks, are_answered) = ask_all(alloc, disks, row.3);
            are_answered && leave(alloc, &disks, row, group) && goes_on(alloc, disks, group)
        }
        Err(_) => false,
    }
}

fn is_so_after(alloc: Global, row: &Row, group: &Group, number: u64) -> bool {
    for later in row.2 {
        let calls = [number, number.saturating_add(*later)];
        let failing = Failing {
            disk: row.0,
            calls: &calls,
        };
        if !is_so(alloc, row, group, &failing) {
            return false;
        }
    }
    true
}

fn holds(alloc: Global, row: &Row, group: &Group) -> bool {
    for number in row.1 {
        if !is_so_after(alloc, row, group, *number) {
            return false;
        }
    }
    true
}

// The number of the first row that does not hold, or of rows.
fn first_wrong(alloc: Global, group: &Group) -> usize {
    let mut number = 0;
    for row in group.1 {
        if !holds(alloc, row, group) {
            return number;
        }
        number = number.saturating_add(1);
    }
    number
}

// What a stop leaves is what was, or what is asked.

#[test]
fn a_making_that_fails(rt: HostRuntime) {
    assert_eq!(rt; first_wrong(rt.alloc(), &MAKINGS), MAKING.len());
}

#[test]
fn an_opening_that_fails(rt: HostRuntime) {
    assert_eq!(rt; first_wrong(rt.alloc(), &OPENINGS), OPENING.len());
}

#[test]
fn a_move_of_the_first_format_that_fails(rt: HostRuntime) {
    assert_eq!(rt; first_wrong(rt.alloc(), &MOVES), MOVING.len());
}

#[test]
fn an_addition_that_fails(rt: HostRuntime) {
    assert_eq!(rt; first_wrong(rt.alloc(), &ADDITIONS), ADDING.len());
}

#[test]
fn a_compaction_that_fails(rt: HostRuntime) {
    assert_eq!(rt; first_wrong(rt.alloc(), &COMPACTIONS), COMPACTING.len());
}

#[test]
fn receipts_that_fail(rt: HostRuntime) {
    assert_eq!(rt; first_wrong(rt.alloc(), &RECEIPTS), TAKING.len());
}
