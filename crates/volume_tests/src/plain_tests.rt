//! A plain reading of the three files of a store, against which opening is compared.
//!
//! It calls no reader of the crates below. Of the clocks of format 1, the contents and the
//! expressions it knows those that the images of the tests have, also with another byte.
use crate::plain_state_tests::{Accepted, Counter, Logged, Named, Place, PlainState};
use conflicts::PosTable;
use crash_harness::{Files, are};
use disks::{DiskName, OpenFault};
use std::alloc::Global;

// The greatest generation, and the greatest counter of a clock.
const GREATEST: usize = 0x7fff_ffff_ffff_ffff;

// ---- numbers and texts

// The number in so many bytes from a place on, where they are there.
fn number_at(bytes: &[u8], at: usize, size: usize) -> Option<usize> {
    let field = bytes.get(at..)?.get(..size)?;
    let mut number = 0usize;
    for byte in field {
        number = number.saturating_mul(256).saturating_add(*byte as usize);
    }
    Some(number)
}

// The text after its length in so many bytes, and where it ends.
fn text_at(bytes: &[u8], at: usize, size: usize) -> Option<(&[u8], usize)> {
    let length = number_at(bytes, at, size)?;
    let from = at.saturating_add(size);
    let text = bytes.get(from..)?.get(..length)?;
    Some((text, from.saturating_add(length)))
}

fn is_word(text: &[u8], most: usize, others: &[u8]) -> bool {
    let plain = text
        .iter()
        .all(|b| b.is_ascii_alphanumeric() || others.contains(b));
    plain && !text.is_empty() && text.len() <= most
}

// The text of letters, digits and these bytes after its length, and where it ends.
fn word_at<'a>(
    bytes: &'a [u8],
    at: usize,
    most: usize,
    others: &[u8],
) -> Option<(&'a [u8], usize)> {
    let (text, end) = text_at(bytes, at, 2)?;
    if !is_word(text, most, others) {
        return None;
    }
    Some((text, end))
}

fn is_below(one: &[u8], other: &[u8]) -> bool {
    for (a, b) in one.iter().zip(other.iter()) {
        if *a != *b {
            return *a < *b;
        }
    }
    one.len() < other.len()
}

fn is_among(list: &[&[u8]], text: &[u8]) -> bool {
    list.iter().any(|other| are(*other, text))
}

fn if_so(is: bool) -> Option<()> {
    if is { Some(()) } else { None }
}

// Adds a text that the list does not have, and tells whether it did.
fn add<'a>(list: &mut Vec<&'a [u8]>, text: &'a [u8]) -> bool {
    !is_among(list.as_slice(), text) && list.push(text).is_ok()
}

// ---- texts of some forms

// Whether a byte is what a form has there: `U` stands for a byte of a uid, `C` for what a text of
// JSON has without an escape, `0` for a digit, `1` for a digit but 0, another one for itself.
fn fits(byte: u8, form: u8) -> bool {
    match form {
        b'U' => byte.is_ascii_alphanumeric() || byte == b'_' || byte == b'-',
        b'C' => matches!(byte, b' '..=b'\x7f') && byte != b'"' && byte != b'\\',
        b'0' => byte.is_ascii_digit(),
        b'1' => byte.is_ascii_digit() && byte != b'0',
        _ => byte == form,
    }
}

fn has_form(text: &[u8], form: &[u8]) -> bool {
    for (byte, one) in text.iter().zip(form.iter()) {
        if !fits(*byte, *one) {
            return false;
        }
    }
    text.len() == form.len()
}

// Whether the byte at one place is below that at another.
fn rises(text: &[u8], one: usize, other: usize) -> bool {
    match (text.get(one), text.get(other)) {
        (Some(a), Some(b)) => *a < *b,
        _ => false,
    }
}

fn is_clock(text: &[u8]) -> bool {
    has_form(text, b"U:1") || has_form(text, b"U:1|U:1") && rises(text, 0, 4)
}

// The entry of a clock that stands at this place of its text.
fn counter_at(text: &[u8], at: usize) -> Option<Counter<'_>> {
    let uid = text.get(at..)?.get(..1)?;
    let digit = *text.get(at.saturating_add(2))?;
    Some(Counter {
        uid,
        counter: digit.saturating_sub(b'0') as usize,
    })
}

fn is_content(text: &[u8]) -> bool {
    let has_two = has_form(text, b"{\"C\":\"C\",\"C\":0}");
    has_form(text, b"{}") || has_two && rises(text, 2, 10)
}

// A field of one part.
fn is_expression(text: &[u8]) -> bool {
    let plain = text
        .iter()
        .all(|b| b.is_ascii() && !b" \t\n\x0b\x0c\r.,()".contains(b));
    plain && !text.is_empty()
}

// ---- fields

// A reading of an image. It stays at the first field that has no reading.
#[derive(Drop)]
struct Reading<'a> {
    // The image, up to the end of the body that is read.
    bytes: &'a [u8],
    at: usize,
    format: u8,
    // The uids that have numbers, each at its number.
    uids: Vec<&'a [u8]>,
    state: PlainState<'a>,
}

impl<'a> Reading<'a> {
    // A number in so many bytes, from the least one to the greatest.
    fn number(&mut self, size: usize, least: usize, most: usize) -> Option<usize> {
        let number = number_at(self.bytes, self.at, size)?;
        if number < least || number > most {
            return None;
        }
        self.at = self.at.saturating_add(size);
        Some(number)
    }

    fn word(&mut self, most: usize, others: &[u8]) -> Option<&'a [u8]> {
        let (text, end) = word_at(self.bytes, self.at, most, others)?;
        self.at = end;
        Some(text)
    }

    // Goes on to the end of a field, if it has a reading.
    fn pass(&mut self, is_read: bool, end: usize) -> Option<()> {
        if !is_read {
            return None;
        }
        self.at = end;
        Some(())
    }

    // The next free number stands before the text of its uid.
    fn uid(&mut self) -> Option<&'a [u8]> {
        if self.format == 1 {
            return self.word(64, b"_-");
        }
        let number = number_at(self.bytes, self.at, 4)?;
        if number == self.uids.len() {
            return self.new_uid();
        }
        let uid = *self.uids.as_slice().get(number)?;
        self.at = self.at.saturating_add(4);
        Some(uid)
    }

    fn new_uid(&mut self) -> Option<&'a [u8]> {
        let (uid, end) = word_at(self.bytes, self.at.saturating_add(4), 64, b"_-")?;
        let is_added = add(&mut self.uids, uid);
        self.pass(is_added, end)?;
        Some(uid)
    }

    fn clock(&mut self) -> Option<()> {
        let start = self.at;
        let read = self.clock_parts();
        if read.is_none() {
            self.at = start;
        }
        read
    }

    fn clock_parts(&mut self) -> Option<()> {
        if self.format == 1 {
            return self.clock_text();
        }
        let count = self.number(1, 1, 64)?;
        let mut before: &'a [u8] = b"";
        for _ in 0..count {
            let uid = self.uid()?;
            let counter = self.number(8, 1, GREATEST)?;
            if !is_below(before, uid) {
                return None;
            }
            self.keep_counter(Counter { uid, counter })?;
            before = uid;
        }
        Some(())
    }

    fn clock_text(&mut self) -> Option<()> {
        let (text, end) = text_at(self.bytes, self.at, 2)?;
        self.pass(is_clock(text), end)?;
        self.keep_counter(counter_at(text, 0)?)?;
        match counter_at(text, 4) {
            Some(counter) => self.keep_counter(counter),
            None => Some(()),
        }
    }

    fn keep_counter(&mut self, counter: Counter<'a>) -> Option<()> {
        if_so(self.state.counters.push(counter).is_ok())
    }

    fn clocks(&mut self) -> Option<()> {
        let count = self.number(4, 0, usize::MAX)?;
        for _ in 0..count {
            self.clock()?;
        }
        Some(())
    }

    // The text, or none of a deletion.
    fn content(&mut self) -> Option<Option<&'a [u8]>> {
        if self.number(1, 0, 1)? == 0 {
            return Some(None);
        }
        let (text, end) = text_at(self.bytes, self.at, 4)?;
        self.pass(is_content(text), end)?;
        Some(Some(text))
    }

    fn expressions(&mut self) -> Option<()> {
        let count = self.number(1, 1, 8)?;
        for _ in 0..count {
            let (text, end) = text_at(self.bytes, self.at, 2)?;
            self.pass(is_expression(text), end)?;
            if_so(self.state.expressions.push(text).is_ok())?;
        }
        Some(())
    }

    // A move. It may be none where the least table is 0.
    fn moved(&mut self, least: usize) -> Option<()> {
        match self.number(1, least, 2)? {
            0 => Some(()),
            1 => self.place(PosTable::Known),
            _ => self.place(PosTable::Told),
        }
    }

    fn place(&mut self, table: PosTable) -> Option<()> {
        let uid = self.uid()?;
        let generation = self.number(8, 0, GREATEST)?;
        let trans = self.trans_of(generation)?;
        if_so(
            self.state.place(Place {
                table,
                uid,
                generation,
                trans,
            }),
        )
    }

    // The transaction id of a position, which is empty at generation 0.
    fn trans_of(&mut self, generation: usize) -> Option<&'a [u8]> {
        if generation != 0 {
            return self.word(64, b"-");
        }
        self.number(2, 0, 0)?;
        let none: &'a [u8] = b"";
        Some(none)
    }

    // ---- bodies

    // A transaction id and a move, which make an entry of the log.
    fn logged(&mut self, doc: &'a [u8]) -> Option<()> {
        let trans = self.word(64, b"-")?;
        self.moved(0)?;
        if_so(self.state.entries.push(Logged { doc, trans }).is_ok())
    }

    fn accepted(&mut self) -> Option<()> {
        let doc = self.word(128, b"._-%")?;
        let from = self.state.counters.len();
        self.clock()?;
        let clock = (from, self.state.counters.len());
        self.revision(doc, clock)?;
        self.logged(doc)
    }

    // What stands between the clock of a revision and its transaction id.
    fn revision(&mut self, doc: &'a [u8], clock: (usize, usize)) -> Option<()> {
        self.number(1, 0, 3)?;
        self.clocks()?;
        let is_current = self.number(1, 0, 1)? == 1;
        let content = self.content()?;
        let revision = Accepted {
            doc,
            clock,
            is_current,
            content,
        };
        if_so(self.state.accepted.push(revision).is_ok())
    }

    fn gone(&mut self) -> Option<()> {
        let doc = self.word(128, b"._-%")?;
        self.logged(doc)
    }

    fn index_created(&mut self) -> Option<()> {
        let name = self.word(64, b"._-")?;
        let from = self.state.expressions.len();
        self.expressions()?;
        let expressions = (from, self.state.expressions.len());
        if_so(self.state.create_index(Named { name, expressions }))
    }

    fn index_deleted(&mut self) -> Option<()> {
        let name = self.word(64, b"._-")?;
        self.state.drop_index(name);
        Some(())
    }

    fn body(&mut self) -> Option<()> {
        match self.number(1, 1, 5)? {
            1 => self.accepted(),
            2 => self.gone(),
            3 => self.moved(1),
            4 => self.index_created(),
            _ => self.index_deleted(),
        }
    }

    // ---- images

    fn header(&mut self) -> Option<()> {
        let begins = self.bytes.get(..7) == Some(b"U1DBVOL");
        self.format = *self.bytes.get(7)?;
        self.pass(begins && matches!(self.format, 1..=2), 8)?;
        self.state.name = self.word(64, b"._-")?;
        let uid = self.word(64, b"_-")?;
        self.state.uid = uid;
        self.number(8, 1024, 0x100_0000_0000)?;
        let _is_new = add(&mut self.uids, uid);
        Some(())
    }

    // The gates and lengths of all entries, up to the closed gate. There are fewer than bytes.
    fn gates(&mut self) -> Option<()> {
        let image = self.bytes;
        for _ in image {
            if self.number(1, 0, 255)? != 1 {
                return Some(());
            }
            let (body, end) = text_at(self.bytes, self.at, 4)?;
            self.pass(!body.is_empty(), end)?;
        }
        None
    }

    // The bodies of all entries, where gates and lengths can be read.
    fn bodies(&mut self) -> Option<()> {
        let image = self.bytes;
        for _ in image {
            if image.get(self.at) != Some(&1) {
                return Some(());
            }
            let (_, end) = text_at(image, self.at.saturating_add(1), 4)?;
            self.at = self.at.saturating_add(5);
            self.bytes = image.get(..end)?;
            self.body()?;
            if self.at != end {
                return None;
            }
        }
        None
    }

    fn image(&mut self) -> Option<()> {
        self.header()?;
        let start = self.at;
        self.gates()?;
        self.at = start;
        self.bodies()
    }
}

fn read(alloc: Global, image: &[u8]) -> Result<PlainState<'_>, usize> {
    let mut reading = Reading {
        bytes: image,
        at: 0,
        format: 0,
        uids: Vec::new(alloc),
        state: PlainState::new(alloc),
    };
    match reading.image() {
        Some(()) => {
            let Reading { state, .. } = reading;
            Ok(state)
        }
        None => Err(reading.at),
    }
}

/// What the plain reading finds of these files.
pub(crate) fn plain<'a>(alloc: Global, files: &Files<'a>) -> Result<PlainState<'a>, OpenFault> {
    match files.0 {
        [] => Err(OpenFault::Blank),
        [byte] if byte % 2 == 0 => plain_image(alloc, DiskName::Left, files.1),
        [_] => plain_image(alloc, DiskName::Right, files.2),
        _ => Err(OpenFault::Damaged {
            disk: DiskName::Root,
            place: 1,
        }),
    }
}

fn plain_image(alloc: Global, disk: DiskName, image: &[u8]) -> Result<PlainState<'_>, OpenFault> {
    match read(alloc, image) {
        Ok(state) => Ok(state),
        Err(place) => Err(OpenFault::Damaged {
            disk,
            place: place as u64,
        }),
    }
}
