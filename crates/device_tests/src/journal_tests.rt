//! An image on one disk: opened, written, begun anew, and given two bodies together, with a stop at
//! each device call. What single bodies add to an image, and each damage of one, is tested in
//! `volume_tests`.
ghost use Rattle.disk_model.specs.Device.{file_of};
ghost use Rattle.disk_model.specs.MemDisk.{mem_known};
ghost use Rattle.journal.specs.Journal.{IsHeld};

use crash_harness::{are, disk_of, images_during};
use disk_model::MemDisk;
use journal::{
    AppendFault, Bodies, Header, ImageFault, Journal, NewEntries, NewImage, OpenFault, Opened,
    open_image, restart_image, write_image,
};
use std::alloc::Global;
use u1_base::limits::{GREATEST_IMAGE_LIMIT, LEAST_IMAGE_LIMIT};
use u1_base::{Bytes, DbName, IdFault, Memory, ReplicaUid};

// The empty image of the database `db` at the replica `a`, with the greatest limit.
const EMPTY: &[u8] = b"U1DBVOL\x02\0\x02db\0\x01a\0\0\x01\0\0\0\0\0\0";

// The same in format 1.
const EMPTY_1: &[u8] = b"U1DBVOL\x01\0\x02db\0\x01a\0\0\x01\0\0\0\0\0\0";

const BODY: &[u8] = b"xyz";

// The image with the body, and after its closed gate bytes that look like another one.
const ONE: &[u8] = b"U1DBVOL\x02\0\x02db\0\x01a\0\0\x01\0\0\0\0\0\x01\0\0\0\x03xyz\0";

const ONE_AND_MORE: &[u8] =
    b"U1DBVOL\x02\0\x02db\0\x01a\0\0\x01\0\0\0\0\0\x01\0\0\0\x03xyz\0\x01\0\0\0\x01z\0";

// The image with both bodies, as it is where they came one by one.
const TWO: &[u8] =
    b"U1DBVOL\x02\0\x02db\0\x01a\0\0\x01\0\0\0\0\0\x01\0\0\0\x03xyz\x01\0\0\0\x01z\0";

fn header(alloc: Global) -> Result<Header, IdFault> {
    let name = DbName::read(alloc, "db")?;
    let uid = ReplicaUid::read(alloc, "a")?;
    Ok(Header {
        name,
        uid,
        limit: GREATEST_IMAGE_LIMIT,
    })
}

// ---- what is found

// What is found in an image: how many bodies, or the damage.
#[derive(Clone, Copy, PartialEq)]
enum Found {
    Bodies(usize),
    Damaged(u64),
    Other,
}

// The bodies are none, the one above, or that and `z`.
fn count(opened: &Opened) -> Found {
    match opened.bodies.as_slice() {
        [] => Found::Bodies(0),
        [body] if are(body.as_slice(), BODY) => Found::Bodies(1),
        [body, last] if are(body.as_slice(), BODY) && are(last.as_slice(), b"z") => {
            Found::Bodies(2)
        }
        _ => Found::Other,
    }
}

fn read_on(alloc: Global, disk: &mut MemDisk) -> Found {
    match open_image(alloc, disk) {
        Ok(opened) => count(&opened),
        Err(OpenFault::Damaged(place)) => Found::Damaged(place),
        Err(_) => Found::Other,
    }
}

fn read_in(alloc: Global, image: &[u8]) -> Found {
    match disk_of(alloc, image, &[]) {
        Ok(mut disk) => read_on(alloc, &mut disk),
        Err(_) => Found::Other,
    }
}

#[test]
fn opens_an_image(rt: HostRuntime) {
    let alloc = rt.alloc();
    assert!(rt;
        read_in(alloc, EMPTY_1) == Found::Bodies(0)
            && read_in(alloc, ONE) == Found::Bodies(1)
            && read_in(alloc, ONE_AND_MORE) == Found::Bodies(1)
            && read_in(alloc, &ONE[..31]) == Found::Damaged(31)
    );
}

// ---- an image is begun anew

// A stop leaves the old bytes, the empty image, or what does not read from the first byte on.
fn is_good(alloc: Global, image: &[u8], old: &[u8]) -> bool {
    are(image, old) || are(image, EMPTY) || read_in(alloc, image) == Found::Damaged(0)
}

fn are_good(alloc: Global, images: &Vec<Bytes>, old: &[u8]) -> bool {
    for image in images {
        if !is_good(alloc, image.as_slice(), old) {
            return false;
        }
    }
    true
}

// Whether this holds of a stop at each of the calls.
fn each_stop_is_good(alloc: Global, disk: &MemDisk, old: &[u8]) -> bool {
    for call in 0..disk.calls() {
        match images_during(alloc, disk, call) {
            Ok(images) if are_good(alloc, &images, old) => {}
            _ => return false,
        }
    }
    true
}

// Opens the image, which may be damaged, and begins it anew: whether this succeeds.
fn begin(alloc: Global, disk: &mut MemDisk, head: &Header) -> bool {
    match open_image(alloc, disk) {
        Ok(_) | Err(OpenFault::Damaged(_)) => is_empty(&restart_image(alloc, disk, head)),
        Err(_) => false,
    }
}

fn is_empty(begun: &Result<Journal, ImageFault>) -> bool {
    match begun {
        Ok(journal) => journal.length() == 24,
        Err(_) => false,
    }
}

// Whether it is begun anew just if no call fails, and each stop is good.
fn begins(alloc: Global, old: &[u8], failing: u64, head: &Header) -> bool {
    match disk_of(alloc, old, &[failing]) {
        Ok(mut disk) => {
            let is_begun = begin(alloc, &mut disk, head);
            is_begun == (disk.calls() <= failing)
                && (!is_begun || are(disk.bytes(), EMPTY))
                && each_stop_is_good(alloc, &disk, old)
        }
        Err(_) => false,
    }
}

// Opening and beginning anew make at most thirteen calls.
fn begins_over(alloc: Global, old: &[u8], head: &Header) -> bool {
    for failing in 0..14u64 {
        if !begins(alloc, old, failing, head) {
            return false;
        }
    }
    true
}

const OLD: &[&[u8]] = &[b"", b"U", b"hello, this is no image", EMPTY_1, ONE];

fn begins_over_each(alloc: Global) -> bool {
    match header(alloc) {
        Ok(head) => OLD.iter().all(|old| begins_over(alloc, *old, &head)),
        Err(_) => false,
    }
}

#[test]
fn begins_anew(rt: HostRuntime) {
    assert!(rt; begins_over_each(rt.alloc()));
}

// ---- an image is written

// Whether the empty image is written over these bytes, in three calls.
fn writes(alloc: Global, disk: &mut MemDisk, head: &Header) -> bool {
    is_empty(&write_image(alloc, disk, head, &Bodies::new(alloc)))
        && are(disk.bytes(), EMPTY)
        && disk.calls() == 3
}

fn is_written(alloc: Global, head: &Header) -> Result<bool, Memory> {
    let image = NewImage::of(alloc, head, &[])?;
    let mut disk = disk_of(alloc, b"what was here, and longer than an image", &[])?;
    Ok(are(image.as_slice(), EMPTY) && writes(alloc, &mut disk, head))
}

fn is_image_written(alloc: Global) -> bool {
    match header(alloc) {
        Ok(head) => is_written(alloc, &head) == Ok(true),
        Err(_) => false,
    }
}

#[test]
fn writes_the_empty_image(rt: HostRuntime) {
    assert!(rt; is_image_written(rt.alloc()));
}

// ---- two bodies are added together

// Whether both bodies were staged, and added.
fn adds_both(alloc: Global, disk: &mut MemDisk, journal: &mut Journal) -> bool
    requires { IsHeld journal.old (file_of (mem_known disk.old)) }
{
    let mut entries = NewEntries::new(alloc);
    if journal.stage(alloc, &mut entries, BODY).is_err() {
        return false;
    }
    if journal.stage(alloc, &mut entries, b"z").is_err() {
        return false;
    }
    journal.append_all(disk, &entries).is_ok()
}

fn opens_and_adds(alloc: Global, disk: &mut MemDisk) -> bool {
    match open_image(alloc, disk) {
        Ok(opened) => {
            let mut journal = opened.journal;
            adds_both(alloc, disk, &mut journal)
        }
        Err(_) => false,
    }
}

// A stop leaves both bodies or none.
fn are_all_or_none(alloc: Global, images: &Vec<Bytes>) -> bool {
    for image in images {
        let found = read_in(alloc, image.as_slice());
        if found != Found::Bodies(0) && found != Found::Bodies(2) {
            return false;
        }
    }
    true
}

fn each_stop_leaves_all_or_none(alloc: Global, disk: &MemDisk) -> bool {
    for call in 0..disk.calls() {
        match images_during(alloc, disk, call) {
            Ok(images) if are_all_or_none(alloc, &images) => {}
            _ => return false,
        }
    }
    true
}

// Whether both are added just if no call fails, and each stop leaves both or none.
fn adds_all_or_none(alloc: Global, failing: u64) -> bool {
    match disk_of(alloc, EMPTY, &[failing]) {
        Ok(mut disk) => {
            let are_added = opens_and_adds(alloc, &mut disk);
            are_added == (disk.calls() <= failing)
                && (!are_added || are(disk.bytes(), TWO))
                && each_stop_leaves_all_or_none(alloc, &disk)
        }
        Err(_) => false,
    }
}

// Opening and adding make at most seven calls.
fn adds_over_each(alloc: Global) -> bool {
    for failing in 0..8u64 {
        if !adds_all_or_none(alloc, failing) {
            return false;
        }
    }
    true
}

#[test]
fn adds_two_bodies_together(rt: HostRuntime) {
    assert!(rt; adds_over_each(rt.alloc()));
}

// The empty image has 24 bytes, and an entry five more than its body. The first body fits behind
// them, and the second does not fit behind the first.
fn second_is_full(alloc: Global, journal: &Journal) -> bool {
    let body = [7u8; 500];
    let mut entries = NewEntries::new(alloc);
    let first = journal.stage(alloc, &mut entries, &body);
    let second = journal.stage(alloc, &mut entries, &body);
    let full = AppendFault::Full {
        need: 1034,
        limit: 1024,
    };
    first == Ok(()) && second == Err(full) && entries.len() == 505
}

fn is_full_behind_staged(alloc: Global) -> bool {
    let Ok(head) = header(alloc) else {
        return false;
    };
    let Header { name, uid, .. } = head;
    let head = Header {
        name,
        uid,
        limit: LEAST_IMAGE_LIMIT,
    };
    let Ok(mut disk) = disk_of(alloc, b"", &[]) else {
        return false;
    };
    match write_image(alloc, &mut disk, &head, &Bodies::new(alloc)) {
        Ok(journal) => second_is_full(alloc, &journal),
        Err(_) => false,
    }
}

#[test]
fn counts_what_is_staged(rt: HostRuntime) {
    assert!(rt; is_full_behind_staged(rt.alloc()));
}
