//! Reading an image, and going through its entries one after the other: no body is copied.
ghost use Rattle.std.specs.Prelude.{◌≡◌, ◌+◌, ◌≤◌, ℕ, List, Err, IsTrue, IfOk, IsErrOf, length};
ghost use Rattle.u1_base.specs.Causes.{HasCauseOf};
ghost use Rattle.disk_model.specs.Disk.{IsCrashImage};
ghost use Rattle.disk_model.specs.Device.{IsSettled, StaysSettled, file_of};
ghost use Rattle.disk_model.specs.Moments.{LeavesOnly};
ghost use Rattle.disk_model.specs.Counts.{called, pieces};
ghost use Rattle.journal.specs.Journal.{Holds};
ghost use Rattle.journal.specs.Passing.{ReadsImage};

use crate::layout::BEFORE_BODY_BYTES;
use crate::parsed::{Parsed, Start};
use crate::reading::{add_copy, behind, body_of, end_of_entries, header_of};
use crate::{Bodies, Header, Journal, OpenFault};
use disk_model::{Disk, ReadFault, read_synced};
use std::alloc::Global;
use std::marker::Model;
use u1_base::{Bytes, Memory};

/// An image that was read whole and that stands: its header, its journal, and the bytes that have
/// its entries.
#[derive(Drop)]
pub struct Stored {
    bytes: Bytes,
    header: Header,
    format: u8,
    // The place of the first entry, and that of the closed gate.
    start: usize,
    end: usize,
}

impl Model for Stored {
    ghost use Rattle.journal.specs.Stored.{IsWholeImage, StoredImage, stored_image};

    ghost Value = { StoredImage };

    ghost view = { λ s. stored_image s.format s.header s.end s.bytes };

    ghost invariant = { λ s. IsWholeImage s.format s.header s.start s.end s.bytes };
}

/// An entry of an image. Places count bytes of the file from 0.
#[derive(Drop)]
pub struct Entry<'a> {
    pub body: &'a [u8],
    /// Where the body begins.
    pub place: usize,
    /// Where the next entry begins, or the closed gate stands.
    pub next: usize,
}

impl Stored {
    ghost use Rattle.std.specs.Prelude.{◌≡◌, ℕ, List, [], IfOk, IfSome};
    ghost use Rattle.journal.specs.Passing.{HasPassed, IsWithin, Meets};

    /// The format of the image, `FIRST_FORMAT` or `SECOND_FORMAT`.
    pub fn format(&self) -> u8
        ensures { result ≡ self.now.format }
    {
        self.format
    }

    pub fn header(&self) -> &Header
        ensures { result.now ≡ self.now.header }
    {
        &self.header
    }

    /// Gives the header, and drops the bytes.
    pub fn into_header(self) -> Header
        ensures { result ≡ self.header }
    {
        let Stored { header, .. } = self;
        header
    }

    pub fn journal(&self) -> Journal
        ensures { result ≡ self.now.journal }
    {
        let before_gate = &self.bytes.as_slice()[..self.end];
        Journal::of((before_gate.len() + 1) as u64, self.header.limit)
    }

    /// The place of the first entry, or of the closed gate where there is none.
    pub fn start(&self) -> usize
        ensures { HasPassed self.now [] result }
    {
        self.start
    }

    /// Lends the entry at this place, where the header or the entry before it ends. There is none
    /// at the closed gate. At any other place the answer says nothing of the image.
    pub fn entry_at(&self, place: usize) -> Option<Entry<'_>>
        ensures meets { (bodies : List (List ℕ)) → HasPassed self.now bodies place
            → Meets self.now bodies result }
        ensures within { IfSome result (IsWithin self.now place) }
    {
        let entries = &self.bytes.as_slice()[..self.end];
        if place >= entries.len() {
            return None;
        }
        let Some(body) = body_of(behind(entries, place + 1)) else {
            return None;
        };
        let place = place + BEFORE_BODY_BYTES;
        let next = place + body.len();
        Some(Entry { body, place, next })
    }

    /// Copies all bodies.
    pub fn copy_bodies(&self, alloc: Global) -> Result<Bodies, Memory>
        ensures { IfOk result (λ bodies. bodies ≡ self.now.bodies) }
    {
        let mut bodies = Bodies::new(alloc);
        let mut place = self.start();
        while let Some(entry) = self.entry_at(place) {
            add_copy(alloc, &mut bodies, entry.body)?;
            place = entry.next;
        }
        Ok(bodies)
    }
}

/// Syncs the disk, reads it whole, and finds the image that stands there, or its damage.
///
/// A crash on the way leaves no more than might have been left before. Where damage is found the
/// disk is settled all the same, and one that was settled stays so whatever the answer is.
pub fn read_image<D: Disk>(alloc: Global, disk: &mut D) -> Result<Stored, OpenFault>
    ensures reads { (stored : List ℕ) × (IsTrue D.tells → stored ≡ (D.known disk.old).seen)
        × ReadsImage stored result }
    ensures ok { IsTrue D.tells → IfOk result (λ image.
        Holds image.journal image.format image.header image.bodies (file_of (D.known disk.new))) }
    ensures damaged { IsTrue D.tells → (place : ℕ) → result ≡ Err (OpenFault.Damaged place)
        → IsSettled (file_of (D.known disk.new)) }
    ensures stays_settled { IsTrue D.tells
        → StaysSettled (file_of (D.known disk.old)) (file_of (D.known disk.new)) }
    ensures seen { IsTrue D.tells → (D.known disk.new).seen ≡ (D.known disk.old).seen }
    ensures beside { IsTrue D.tells → (D.known disk.new).beside ≡ (D.known disk.old).beside }
    ensures any_moment { IsTrue D.tells → LeavesOnly (D.known disk.old) (D.known disk.new)
        (IsCrashImage (D.known disk.old).now) }
    ensures most_calls { IsTrue D.tells → (D.known disk.new).made
        ≤ called (2 + pieces (length (D.known disk.old).seen)) (D.known disk.old).made }
    ensures cause { HasCauseOf OpenFault.Disk
        (D.known disk.old).faults (D.known disk.new).faults result }
{
    match read_synced(alloc, disk) {
        Ok(bytes) => stored_of(alloc, bytes),
        Err(ReadFault::Disk) => Err(OpenFault::Disk),
        Err(ReadFault::Memory) => Err(OpenFault::Memory),
    }
}

// The image that these bytes read as.
fn stored_of(alloc: Global, bytes: Bytes) -> Result<Stored, OpenFault>
    ensures reads { ReadsImage bytes result }
    ensures no_call { ¬ (IsErrOf result OpenFault.Disk) }
{
    let start = match header_of(alloc, bytes.as_slice()) {
        Parsed::Whole(start) => start,
        Parsed::Broken(place) => return Err(OpenFault::Damaged(place as u64)),
        Parsed::Memory => return Err(OpenFault::Memory),
    };
    let Start {
        format,
        header,
        length: start,
    } = start;
    let after_header = behind(bytes.as_slice(), start);
    match end_of_entries(after_header) {
        Ok(length) => Ok(Stored {
            bytes,
            header,
            format,
            start,
            end: start + length,
        }),
        Err(place) => Err(OpenFault::Damaged((start + place) as u64)),
    }
}
