//! Reading what names uids: clocks, and the places of peers.
ghost use Rattle.std.specs.Prelude.{◌≡◌, [], IfOk, None, Ok, is_some, option_copied};
ghost use Rattle.std.specs.List.{slice_get};
ghost use Rattle.record_fields.specs.Table.{number_of, uids};
ghost use Rattle.record_fields.specs.Fields.{each};
ghost use Rattle.record_fields.specs.Named.{clock, clocks, entries, entry, introduced, place};
ghost use Rattle.record_fields.specs.Named.{reference, referred, uid};
ghost use Rattle.record_fields.specs.Reading.{Reads};
ghost use Rattle.record_fields.specs.declared.format.Format.TheVariants as format_of;

use crate::format::Format;
use crate::read::{clock_of, read_clock};
use crate::reader::Reader;
use crate::stop::Stop;
use crate::uids::place_of;
use std::alloc::Global;
use u1_base::{Memory, Position, ReplicaUid};
use vector_rev::{Clock, ClockEntries, ClockEntry, Clocks};

impl<'a> Reader<'a> {
    /// A uid: its text in format 1, its number in format 2.
    pub fn uid(&mut self, format: Format) -> Result<ReplicaUid, Stop>
        ensures { Reads (λ u. u) ((uid format).read self.old) result self.new }
    {
        match format {
            Format::First => self.id(),
            Format::Second => self.reference(),
        }
    }

    fn reference(&mut self) -> Result<ReplicaUid, Stop>
        ensures { Reads (λ u. u) (reference.read self.old) result self.new }
    {
        let start = self.left();
        let number = self.number()?;
        match self.uid_at(number as usize)? {
            Some(uid) => Ok(uid),
            None => self.new_uid(start, number),
        }
    }

    // The uid of the number, if there is one.
    #[tactic(auto, using(crate::proofs::Tables::get_given, crate::proofs::Tables::get_added))]
    fn uid_at(&self, number: usize) -> Result<Option<ReplicaUid>, Memory>
        ensures { IfOk result (λ found. found ≡ slice_get (uids self.now.table) number) }
    {
        let given = self.uids.as_slice();
        if number < given.len() {
            return copied(given.get(number));
        }
        copied(self.added.as_slice().get(number - given.len()))
    }

    // The uid that gets the number, which no uid has. The reference began with so many bytes left.
    #[tactic(auto, using(crate::proofs::Tables::length_both))]
    fn new_uid(&mut self, start: usize, number: u32) -> Result<ReplicaUid, Stop>
        ensures { Reads (λ u. u) (referred start None number self.old) result self.new }
    {
        if number as usize != self.uids.len().saturating_add(self.added.len()) {
            return Err(Stop::Bad(start));
        }
        match self.id() {
            Ok(uid) => self.introduced(start, uid),
            Err(Stop::Bad(_)) => Err(Stop::Bad(start)),
            Err(Stop::Memory) => Err(Stop::Memory),
        }
    }

    // Gives the uid that was read the next number.
    fn introduced(&mut self, start: usize, uid: ReplicaUid) -> Result<ReplicaUid, Stop>
        ensures { Reads (λ u. u) (introduced start (Ok (uid, self.old))) result self.new }
    {
        if self.has(&uid) {
            return Err(Stop::Bad(start));
        }
        self.added.push(uid.copy()?)?;
        Ok(uid)
    }

    // Whether the uid has a number.
    #[tactic(auto, using(crate::proofs::Tables::has_both))]
    fn has(&self, uid: &ReplicaUid) -> bool
        ensures { result ≡ is_some (number_of (uids self.now.table) uid.now) }
    {
        self.uids.number_of(uid).is_some() || place_of(self.added.as_slice(), uid).is_some()
    }

    /// A clock: its text in format 1, its entries in format 2.
    pub fn clock(&mut self, format: Format) -> Result<Clock, Stop>
        ensures { Reads (λ c. c) ((clock format).read self.old) result self.new }
    {
        match format {
            Format::First => self.spelled_clock(),
            Format::Second => self.numbered_clock(),
        }
    }

    // A clock as its text.
    fn spelled_clock(&mut self) -> Result<Clock, Stop>
        ensures { Reads (λ c. c) ((clock format_of.First).read self.old) result self.new }
    {
        let start = self.left();
        let bytes = self.short_text()?;
        match read_clock(self.alloc, bytes)? {
            Some(clock) => Ok(clock),
            None => Err(Stop::Bad(start)),
        }
    }

    // A clock as its entries.
    fn numbered_clock(&mut self) -> Result<Clock, Stop>
        ensures { Reads (λ c. c) ((clock format_of.Second).read self.old) result self.new }
    {
        let start = self.left();
        match self.entries() {
            Ok(entries) => match clock_of(entries) {
                Some(clock) => Ok(clock),
                None => Err(Stop::Bad(start)),
            },
            Err(Stop::Bad(_)) => Err(Stop::Bad(start)),
            Err(Stop::Memory) => Err(Stop::Memory),
        }
    }

    fn entries(&mut self) -> Result<ClockEntries, Stop>
        ensures { Reads (λ es. es) (entries.read self.old) result self.new }
    {
        let count = self.byte()?;
        let entries = self.each_entry(count)?;
        Ok(entries)
    }

    fn each_entry(&mut self, count: u8) -> Result<ClockEntries, Stop>
        ensures { Reads (λ es. es) ((each entry count).read self.old) result self.new }
    {
        let mut entries = no_entries(self.alloc, count)?;
        for _ in 0..count {
            let entry = self.entry()?;
            entries.push(entry)?;
        }
        Ok(entries)
    }

    fn entry(&mut self) -> Result<ClockEntry, Stop>
        ensures { Reads (λ e. e) (entry.read self.old) result self.new }
    {
        let uid = self.reference()?;
        let counter = self.long_number()?;
        Ok(ClockEntry::new(uid, counter))
    }

    /// Clocks after four bytes with their number.
    pub fn clocks(&mut self, format: Format) -> Result<Clocks, Stop>
        ensures { Reads (λ cs. cs) ((clocks format).read self.old) result self.new }
    {
        let count = self.number()?;
        let clocks = self.each_clock(format, count)?;
        Ok(clocks)
    }

    fn each_clock(&mut self, format: Format, count: u32) -> Result<Clocks, Stop>
        ensures { Reads (λ cs. cs) ((each (clock format) count).read self.old) result self.new }
    {
        let mut clocks = Clocks::new(self.alloc);
        for _ in 0..count {
            let clock = self.clock(format)?;
            clocks.push(clock)?;
        }
        Ok(clocks)
    }

    /// The generation in eight bytes, and its transaction id.
    pub fn place(&mut self) -> Result<Position, Stop>
        ensures { Reads (λ p. p) (place.read self.old) result self.new }
    {
        let generation = self.generation()?;
        let trans = self.trans(generation)?;
        Ok(Position { generation, trans })
    }
}

fn copied(uid: Option<&ReplicaUid>) -> Result<Option<ReplicaUid>, Memory>
    ensures { IfOk result (λ copy. copy ≡ option_copied uid.entry) }
{
    match uid {
        Some(uid) => Ok(Some(uid.copy()?)),
        None => Ok(None),
    }
}

// No entries, and memory for just so many: a list that grew would keep places that it never needs.
fn no_entries(alloc: Global, room: u8) -> Result<ClockEntries, Memory>
    ensures { IfOk result (λ es. es ≡ []) }
{
    let entries = Vec::with_capacity(alloc, usize::from(room))?;
    Ok(ClockEntries::from_vec(entries))
}
