//! A body that is written field by field, in format 2.
ghost use Rattle.std.specs.Prelude.{◌≡◌, ◌<◌, ◌≤◌, ◌^◌, IfOk, IfSome, None, OnOk, length, true};
ghost use Rattle.std.specs.Int.{w16, w32, w64};
ghost use Rattle.std.specs.List.{list_all};
ghost use Rattle.content.specs.Contents.{IsContent};
ghost use Rattle.expr_parser.specs.Reading.{AreExprs, is_spelled};
ghost use Rattle.u1_base.specs.Ids.{IsId};
ghost use Rattle.u1_base.specs.declared.ids.Form.TheVariants as form_of;
ghost use Rattle.record_fields.specs.Fields.{each};
ghost use Rattle.record_fields.specs.Named.{IsPlace, clock, clocks, entry, place, reference};
ghost use Rattle.record_fields.specs.Plain.{byte, content, expression, expressions, flag, id};
ghost use Rattle.record_fields.specs.Plain.{number, text};
ghost use Rattle.record_fields.specs.Reading.{texts_of};
ghost use Rattle.record_fields.specs.Table.{number_of, uids};
ghost use Rattle.record_fields.specs.Writing.{unwritten, with_field};
ghost use Rattle.record_fields.specs.declared.format.Format.TheVariants.{Second};

use crate::uids::{ReplicaUids, Uids, place_of};
use content::Content;
use expr_parser::Expr;
use std::alloc::Global;
use std::marker::Model;
use u1_base::{Bytes, FormOf, Id, Memory, Position, ReplicaUid};
use vector_rev::{Clock, ClockEntry};

// Room for so many bytes is made ahead, so that a short body is never moved.
const SHORT_BODY_BYTES: usize = 256;

/// The bytes so far, and the uids that have numbers. After an error nothing is said of what was
/// written.
#[derive(Drop)]
pub struct Writer<'a> {
    alloc: Global,
    out: Bytes,
    uids: &'a Uids,
    added: ReplicaUids,
}

impl<'a> Model for Writer<'a> {
    ghost use Rattle.record_fields.specs.Writing.{Written};

    ghost Value = { Written };

    ghost view = { λ w. record {
      table = record { given = w.uids.now.uids; added = w.added };
      bytes = w.out;
    } };
}

impl<'a> Writer<'a> {
    /// Nothing is written, and these uids have numbers.
    pub fn new(alloc: Global, uids: &'a Uids) -> Result<Writer<'a>, Memory>
        ensures { IfOk result (λ w. w ≡ unwritten uids.now.uids) }
    {
        Ok(Writer {
            alloc,
            out: Bytes::from_vec(Vec::with_capacity(alloc, SHORT_BODY_BYTES)?),
            uids,
            added: ReplicaUids::new(alloc),
        })
    }

    /// The bytes, and the uids that got numbers, in the order of the numbers.
    pub fn into_parts(self) -> (Bytes, ReplicaUids)
        ensures bytes { result.0 ≡ self.entry.bytes }
        ensures added { result.1 ≡ self.entry.table.added }
    {
        let Writer { out, added, .. } = self;
        (out, added)
    }

    /// One byte.
    #[tactic(auto, unfolding(crate::specs::Writing::with_field))]
    pub fn byte(&mut self, value: u8) -> Result<(), Memory>
        ensures { OnOk result (self.new ≡ with_field byte value self.old) }
    {
        self.out.push(value)
    }

    /// One byte: 0 for no, 1 for yes.
    #[tactic(auto, unfolding(crate::specs::Writing::with_field))]
    pub fn flag(&mut self, value: bool) -> Result<(), Memory>
        ensures { OnOk result (self.new ≡ with_field flag value self.old) }
    {
        if value { self.byte(1) } else { self.byte(0) }
    }

    // A number in four bytes.
    #[tactic(auto, unfolding(crate::specs::Writing::with_field, u1_base::specs::Fields::u32_bytes))]
    fn number(&mut self, value: u32) -> Result<(), Memory>
        ensures { OnOk result (self.new ≡ with_field (number w32) value self.old) }
    {
        self.out.push_u32(value)
    }

    // A number in eight bytes.
    #[tactic(auto, unfolding(crate::specs::Writing::with_field, u1_base::specs::Fields::u64_bytes))]
    fn long_number(&mut self, value: u64) -> Result<(), Memory>
        ensures { OnOk result (self.new ≡ with_field (number w64) value self.old) }
    {
        self.out.push_u64(value)
    }

    // A text after two bytes of length.
    #[tactic(auto, using(crate::proofs::Writings::short_text_is))]
    fn short_text(&mut self, value: &[u8]) -> Result<(), Memory>
        requires { length value.now < 2 ^ 16 }
        ensures { OnOk result (self.new ≡ with_field (text w16) value.now self.old) }
    {
        self.out.push_u16(value.len() as u16)?;
        self.out.extend(value)
    }

    // A text after four bytes of length.
    #[tactic(auto, using(crate::proofs::Writings::text_is))]
    fn text(&mut self, value: &[u8]) -> Result<(), Memory>
        requires { length value.now < 2 ^ 32 }
        ensures { OnOk result (self.new ≡ with_field (text w32) value.now self.old) }
    {
        self.out.push_u32(value.len() as u32)?;
        self.out.extend(value)
    }

    /// An id after two bytes of length.
    #[tactic(auto, unfolding(crate::specs::Writing::with_field))]
    pub fn id<F: FormOf>(&mut self, value: &Id<F>) -> Result<(), Memory>
        ensures wrote { OnOk result (self.new ≡ with_field (id F.form) value.now self.old) }
        ensures is { IsId F.form value.now }
    {
        self.short_text(value.as_str().as_bytes())
    }

    /// The number of a uid. Where it has none, it gets the next one, and its text follows.
    #[tactic(auto, using(crate::proofs::Writings::reference_known))]
    pub fn reference(&mut self, value: &ReplicaUid) -> Result<(), Memory>
        ensures wrote { OnOk result (self.new ≡ with_field reference value.now self.old) }
        ensures is { IsId form_of.Replica value.now }
    {
        // Lending the text is what tells the proof that the uid is an id.
        let _text = value.as_str();
        match self.number_of(value)? {
            Some(known) => self.number(known),
            None => self.introduce(value),
        }
    }

    // The number of the uid, if it has one.
    #[tactic(auto, using(crate::proofs::Tables::numbers))]
    fn number_of(&self, value: &ReplicaUid) -> Result<Option<u32>, Memory>
        ensures { IfOk result (λ number. number ≡ number_of (uids self.now.table) value.now) }
    {
        match self.uids.number_of(value) {
            Some(known) => Ok(Some(as_reference(known)?)),
            None => match place_of(self.added.as_slice(), value) {
                Some(place) => Ok(Some(as_reference(self.uids.len().saturating_add(place))?)),
                None => Ok(None),
            },
        }
    }

    // Gives a uid that has no number the next one.
    fn introduce(&mut self, value: &ReplicaUid) -> Result<(), Memory>
        requires { number_of (uids self.old.table) value.now ≡ None }
        ensures { OnOk result (self.new ≡ with_field reference value.now self.old) }
    {
        let next = as_reference(self.uids.len().saturating_add(self.added.len()))?;
        self.number(next)?;
        self.id(value)?;
        self.added.push(value.copy()?)?;
        Ok(())
    }

    /// The entries of a clock after one byte with their number.
    #[tactic(auto, using(crate::proofs::Writings::clock_is))]
    pub fn clock(&mut self, value: &Clock) -> Result<(), Memory>
        ensures { OnOk result (self.new ≡ with_field (clock Second) value.now self.old) }
    {
        let entries = value.entries();
        self.byte(entries.len() as u8)?;
        self.each_entry(entries)
    }

    fn each_entry(&mut self, values: &[ClockEntry]) -> Result<(), Memory>
        ensures { OnOk result
            (self.new ≡ with_field (each entry (length values.now)) values.now self.old) }
    {
        for value in values {
            self.entry(value)?;
        }
        Ok(())
    }

    #[tactic(auto, using(crate::proofs::Writings::entry_is))]
    fn entry(&mut self, value: &ClockEntry) -> Result<(), Memory>
        ensures { OnOk result (self.new ≡ with_field entry value.now self.old) }
    {
        self.reference(value.uid())?;
        self.long_number(value.counter())
    }

    /// Clocks after four bytes with their number.
    #[tactic(auto, using(crate::proofs::Writings::clocks_is))]
    pub fn clocks(&mut self, values: &[Clock]) -> Result<(), Memory>
        requires { length values.now < 2 ^ 32 }
        ensures { OnOk result (self.new ≡ with_field (clocks Second) values.now self.old) }
    {
        self.number(values.len() as u32)?;
        self.each_clock(values)
    }

    fn each_clock(&mut self, values: &[Clock]) -> Result<(), Memory>
        ensures { OnOk result
            (self.new ≡ with_field (each (clock Second) (length values.now)) values.now self.old) }
    {
        for value in values {
            self.clock(value)?;
        }
        Ok(())
    }

    /// The generation in eight bytes, and its transaction id.
    #[tactic(auto, using(crate::proofs::Writings::place_some, crate::proofs::Writings::place_none))]
    pub fn place(&mut self, value: &Position) -> Result<(), Memory>
        ensures wrote { OnOk result (self.new ≡ with_field place value.now self.old) }
        ensures is { OnOk result (IsPlace value.now) }
    {
        self.long_number(value.generation)?;
        match &value.trans {
            Some(trans) => self.id(trans),
            None => self.short_text(&[]),
        }
    }

    /// A flag, and after a 1 four bytes of length and the canonical text of the content.
    #[tactic(auto, using(crate::proofs::Writings::contents))]
    pub fn content(&mut self, value: &Option<Content>) -> Result<(), Memory>
        ensures wrote { OnOk result (self.new ≡ with_field content value.now self.old) }
        ensures is { OnOk result (IfSome value.now IsContent) }
    {
        match value {
            Some(content) => {
                self.byte(1)?;
                self.text(content.as_str().as_bytes())
            }
            None => self.byte(0),
        }
    }

    /// One to eight expressions after one byte with their number, each by its canonical text.
    #[tactic(auto, using(crate::proofs::Writings::expressions_is))]
    pub fn expressions(&mut self, values: &[Expr]) -> Result<(), Memory>
        requires { AreExprs (texts_of values.now) }
        ensures { OnOk result
            (self.new ≡ with_field expressions (texts_of values.now) self.old) }
    {
        self.byte(values.len() as u8)?;
        self.each_expression(values)
    }

    fn each_expression(&mut self, values: &[Expr]) -> Result<(), Memory>
        requires { list_all is_spelled (texts_of values.now) ≡ true }
        ensures { OnOk result
            (self.new ≡ with_field
            (each expression (length values.now)) (texts_of values.now) self.old) }
    {
        for value in values {
            let text = value.text(self.alloc)?;
            self.short_text(text.as_str().as_bytes())?;
        }
        Ok(())
    }
}

// The number as it stands in a reference. No uid has a greater one.
fn as_reference(number: usize) -> Result<u32, Memory>
    ensures { IfOk result (λ reference. reference ≡ number) }
{
    if number > u32::MAX as usize {
        return Err(Memory);
    }
    Ok(number as u32)
}
