//! Opening: worked damage, and each cut and each changed byte of some stores against the plain
//! reading.
use crate::acts::Answer::{Damaged, Has};
use crate::acts::{Act, Answer, answer_of, ask, no_volume, opens_as};
use crate::images::{
    COMPACTED, CREATED, CREATED_FIRST, EACH_KIND, EACH_KIND_COMPACTED, EACH_KIND_FIRST, EMPTY,
    NUMBERED, TAKEN_TWO,
};
use crate::plain_tests::plain;
use crash_harness::{Files, NO_FAILING, disks_of, hold};
use disks::DiskName::{self, Left};
use std::alloc::Global;
use u1_base::Memory;

// The image with other bytes from this place on.
fn changed(alloc: Global, image: &[u8], place: usize, bytes: &[u8]) -> Result<Vec<u8>, Memory> {
    let mut image = image.to_vec(alloc)?;
    for (at, byte) in bytes.iter().enumerate() {
        if let Some(slot) = image.get_mut(place.saturating_add(at)) {
            *slot = *byte;
        }
    }
    Ok(image)
}

// ---- worked damage

// The left image has these bytes from this place on, and this is answered.
struct Row(&'static [u8], usize, &'static [u8], Answer);

const ROWS: &[Row] = &[
    Row(CREATED, 28, &[9], Damaged(Left, 28)),
    Row(CREATED, 24, &[255, 255, 255, 255], Damaged(Left, 24)),
    Row(CREATED, 34, &[0, 0, 0, 5], Damaged(Left, 33)),
    Row(CREATED, 7, &[3], Damaged(Left, 0)),
    Row(CREATED, 109, &[1], Damaged(Left, 110)),
    // what was there, and gates that are closed
    Row(CREATED, 0, b"U", Has(1, 1)),
    Row(CREATED, 109, &[2], Has(1, 1)),
    Row(CREATED, 23, &[2], Has(0, 0)),
    Row(CREATED_FIRST, 28, &[9], Damaged(Left, 28)),
    Row(CREATED_FIRST, 33, &[1], Damaged(Left, 33)),
    Row(CREATED_FIRST, 35, b"?", Damaged(Left, 33)),
    Row(CREATED_FIRST, 38, &[4], Damaged(Left, 38)),
    Row(CREATED_FIRST, 101, &[1], Damaged(Left, 102)),
];

// Whether this is answered, and nothing is written.
fn is_answered(alloc: Global, files: &Files, want: Answer) -> bool {
    match disks_of(alloc, files, &NO_FAILING) {
        Ok(disks) => {
            let (disks, answer) = ask(alloc, disks, &Act::Look);
            answer == want && hold(&disks, files)
        }
        Err(_) => false,
    }
}

fn is_so(alloc: Global, row: &Row) -> bool {
    match changed(alloc, row.0, row.1, row.2) {
        Ok(image) => is_answered(alloc, &Files(&[0], &image, EMPTY), row.3),
        Err(_) => false,
    }
}

const LONG_ROOTS: &[&[u8]] = &[b"\0\0", b"\x01\0", b"\0\x01\x02", CREATED];

const TOO_LONG: Answer = Damaged(DiskName::Root, 1);

#[test]
fn finds_the_damage(rt: HostRuntime) {
    for row in ROWS {
        assert!(rt; is_so(rt.alloc(), row), "{}", row.1);
    }
    for root in LONG_ROOTS {
        assert!(rt; is_answered(rt.alloc(), &Files(*root, CREATED, CREATED), TOO_LONG));
    }
}

// ---- each cut and each byte

const STORES: &[Files] = &[
    Files(&[0], CREATED, EMPTY),
    Files(&[0], EACH_KIND, EMPTY),
    Files(&[1], EMPTY, CREATED_FIRST),
    Files(&[1], EMPTY, EACH_KIND_FIRST),
];

/// Whether opening finds of these files what the plain reading finds.
pub(crate) fn finds_plain(alloc: Global, files: &Files) -> bool {
    match plain(alloc, files) {
        Ok(state) => opens_as(alloc, files, &state),
        Err(fault) => answer_of(alloc, files, &Act::Look) == no_volume(fault),
    }
}

// Whole stores that the plain reading reads too.
const WHOLE: &[Files] = &[
    Files(&[1], b"", COMPACTED),
    Files(&[0], TAKEN_TWO, b""),
    Files(&[1], b"other", NUMBERED),
    Files(&[0], EACH_KIND_COMPACTED, b""),
];

#[test]
fn finds_the_whole_state(rt: HostRuntime) {
    for files in WHOLE {
        assert!(rt; finds_plain(rt.alloc(), files));
    }
}

// The same with another file in the place of that of this disk.
fn finds_with(alloc: Global, files: &Files, name: DiskName, file: &[u8]) -> bool {
    match name {
        DiskName::Root => finds_plain(alloc, &Files(file, files.1, files.2)),
        DiskName::Left => finds_plain(alloc, &Files(files.0, file, files.2)),
        DiskName::Right => finds_plain(alloc, &Files(files.0, files.1, file)),
    }
}

fn finds_each_cut(alloc: Global, files: &Files, name: DiskName) -> bool {
    let file = files.file(name);
    for length in 0..file.len() {
        if !finds_with(alloc, files, name, &file[..length]) {
            return false;
        }
    }
    true
}

#[test]
fn finds_what_is_cut(rt: HostRuntime) {
    for files in STORES {
        assert!(rt;
            finds_each_cut(rt.alloc(), files, DiskName::Root)
                && finds_each_cut(rt.alloc(), files, DiskName::Left)
                && finds_each_cut(rt.alloc(), files, DiskName::Right)
        );
    }
}

fn finds_changed(alloc: Global, files: &Files, name: DiskName, place: usize, byte: u8) -> bool {
    match changed(alloc, files.file(name), place, &[byte]) {
        Ok(file) => finds_with(alloc, files, name, &file),
        Err(_) => false,
    }
}

// The same of each value of the byte at this place.
fn finds_each_value(alloc: Global, files: &Files, name: DiskName, place: usize) -> bool {
    for byte in 0..=255u8 {
        if !finds_changed(alloc, files, name, place, byte) {
            return false;
        }
    }
    true
}

fn finds_each_byte(alloc: Global, files: &Files, name: DiskName) -> bool {
    for place in 0..files.file(name).len() {
        if !finds_each_value(alloc, files, name, place) {
            return false;
        }
    }
    true
}

#[test]
fn finds_what_is_changed(rt: HostRuntime) {
    for files in STORES {
        assert!(rt;
            finds_each_byte(rt.alloc(), files, DiskName::Root)
                && finds_each_byte(rt.alloc(), files, DiskName::Left)
                && finds_each_byte(rt.alloc(), files, DiskName::Right)
        );
    }
}
