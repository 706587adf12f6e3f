//! What is left of a body, read field by field from its front. Where a field has no reading, the
//! answer is how many bytes are left at its first byte.
ghost use Rattle.std.specs.Prelude.{◌≡◌, ◌≢◌, ◌≤◌, ◌↔◌, IfOk, IsNone, IsSome, length};
ghost use Rattle.std.specs.Int.{w16, w32, w64};
ghost use Rattle.u1_base.specs.declared.limits.TheConstants.{GREATEST_COUNT};
ghost use Rattle.record_fields.specs.Plain.{byte, number, bytes, flag, id, text, text_of};
ghost use Rattle.record_fields.specs.Plain.{generation, trans_at};
ghost use Rattle.record_fields.specs.Reading.{Reads};
ghost use Rattle.record_fields.specs.Fields.{whole};

use crate::read::read_id;
use crate::stop::Stop;
use crate::uids::{ReplicaUids, Uids};
use std::alloc::Global;
use std::marker::Model;
use u1_base::limits::GREATEST_COUNT;
use u1_base::{FormOf, Id, TransId};

/// The bytes that are left, and the uids that have numbers: those that had one before the body, and
/// those that it added. After an error nothing is said of what is left.
#[derive(Drop)]
pub struct Reader<'a> {
    pub(crate) alloc: Global,
    pub(crate) rest: &'a [u8],
    pub(crate) uids: &'a Uids,
    pub(crate) added: ReplicaUids,
}

impl<'a> Model for Reader<'a> {
    ghost use Rattle.record_fields.specs.Fields.{Rest};

    ghost Value = { Rest };

    ghost view = { λ r. record {
      table = record { given = r.uids.now.uids; added = r.added };
      bytes = r.rest.now;
    } };
}

impl<'a> Reader<'a> {
    /// The whole body, where these uids have numbers.
    pub fn new(alloc: Global, body: &'a [u8], uids: &'a Uids) -> Reader<'a>
        ensures { result ≡ whole uids.now.uids body.now }
    {
        Reader {
            alloc,
            rest: body,
            uids,
            added: ReplicaUids::new(alloc),
        }
    }

    /// How many bytes are left.
    pub fn left(&self) -> usize
        ensures { result ≡ length self.now.bytes }
    {
        self.rest.len()
    }

    /// The uids to which the body gave numbers.
    pub fn into_added(self) -> ReplicaUids
        ensures { result ≡ self.entry.table.added }
    {
        let Reader { added, .. } = self;
        added
    }

    /// One byte.
    pub fn byte(&mut self) -> Result<u8, Stop>
        ensures { Reads (λ b. b) (byte.read self.old) result self.new }
    {
        match self.rest {
            [] => Err(Stop::Bad(0)),
            [first, rest @ ..] => {
                self.rest = rest;
                Ok(*first)
            }
        }
    }

    // So many bytes.
    fn bytes(&mut self, count: usize) -> Result<&'a [u8], Stop>
        ensures { Reads (λ b. b.now) ((bytes count).read self.old) result self.new }
    {
        if self.rest.len() < count {
            return Err(Stop::Bad(self.rest.len()));
        }
        let (front, rest) = self.rest.split_at(count);
        self.rest = rest;
        Ok(front)
    }

    // A number in two bytes.
    fn short_number(&mut self) -> Result<u16, Stop>
        ensures { Reads (λ n. n) ((number w16).read self.old) result self.new }
    {
        let piece = self.bytes(2)?;
        Ok(u16::from_be_bytes([piece[0], piece[1]]))
    }

    // A number in four bytes.
    pub(crate) fn number(&mut self) -> Result<u32, Stop>
        ensures { Reads (λ n. n) ((number w32).read self.old) result self.new }
    {
        let piece = self.bytes(4)?;
        Ok(u32::from_be_bytes([piece[0], piece[1], piece[2], piece[3]]))
    }

    // A number in eight bytes.
    pub(crate) fn long_number(&mut self) -> Result<u64, Stop>
        ensures { Reads (λ n. n) ((number w64).read self.old) result self.new }
    {
        let piece = self.bytes(8)?;
        Ok(u64::from_be_bytes([
            piece[0], piece[1], piece[2], piece[3], piece[4], piece[5], piece[6], piece[7],
        ]))
    }

    // The text after two bytes of length.
    pub(crate) fn short_text(&mut self) -> Result<&'a [u8], Stop>
        ensures { Reads (λ s. s.now) ((text w16).read self.old) result self.new }
    {
        let start = self.left();
        let count = self.short_number()?;
        match self.bytes(count as usize) {
            Ok(bytes) => Ok(bytes),
            Err(Stop::Bad(_)) => Err(Stop::Bad(start)),
            Err(Stop::Memory) => Err(Stop::Memory),
        }
    }

    // The text after four bytes of length.
    pub(crate) fn text(&mut self) -> Result<&'a [u8], Stop>
        ensures { Reads (λ s. s.now) ((text w32).read self.old) result self.new }
    {
        let start = self.left();
        let count = self.number()?;
        match self.bytes(count as usize) {
            Ok(bytes) => Ok(bytes),
            Err(Stop::Bad(_)) => Err(Stop::Bad(start)),
            Err(Stop::Memory) => Err(Stop::Memory),
        }
    }

    /// An id after two bytes of length.
    pub fn id<F: FormOf>(&mut self) -> Result<Id<F>, Stop>
        ensures { Reads (λ u. u) ((id F.form).read self.old) result self.new }
    {
        let start = self.left();
        let bytes = self.short_text()?;
        match read_id(self.alloc, bytes)? {
            Some(id) => Ok(id),
            None => Err(Stop::Bad(start)),
        }
    }

    /// One byte: 0 for no, 1 for yes.
    pub fn flag(&mut self) -> Result<bool, Stop>
        ensures { Reads (λ b. b) (flag.read self.old) result self.new }
    {
        let start = self.left();
        match self.byte()? {
            0 => Ok(false),
            1 => Ok(true),
            _ => Err(Stop::Bad(start)),
        }
    }

    pub(crate) fn generation(&mut self) -> Result<u64, Stop>
        ensures reads { Reads (λ n. n) (generation.read self.old) result self.new }
        ensures counted { IfOk result (λ n. n ≤ GREATEST_COUNT) }
    {
        let start = self.left();
        let number = self.long_number()?;
        if number > GREATEST_COUNT {
            return Err(Stop::Bad(start));
        }
        Ok(number)
    }

    // The transaction id of a generation; generation 0 has none.
    pub(crate) fn trans(&mut self, generation: u64) -> Result<Option<TransId>, Stop>
        ensures reads { Reads (λ t. t) ((trans_at generation).read self.old) result self.new }
        ensures named { IfOk result (λ t. (IsNone t) ↔ (generation ≡ 0)) }
    {
        if generation == 0 {
            return self.no_trans();
        }
        self.some_trans(generation)
    }

    fn no_trans(&mut self) -> Result<Option<TransId>, Stop>
        ensures reads { Reads (λ t. t) ((trans_at 0).read self.old) result self.new }
        ensures none { IfOk result IsNone }
    {
        let start = self.left();
        match self.short_text()? {
            [] => Ok(None),
            [_, ..] => Err(Stop::Bad(start)),
        }
    }

    #[tactic(auto, using(crate::proofs::PlainLaws::trans_above))]
    fn some_trans(&mut self, generation: u64) -> Result<Option<TransId>, Stop>
        requires { generation ≢ 0 }
        ensures reads { Reads (λ t. t) ((trans_at generation).read self.old) result self.new }
        ensures some { IfOk result IsSome }
    {
        let start = self.left();
        let bytes = self.short_text()?;
        match read_id(self.alloc, bytes)? {
            Some(id) => Ok(Some(id)),
            None => Err(Stop::Bad(start)),
        }
    }
}
