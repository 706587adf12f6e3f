//! Clocks from texts and from lists of entries, and the text of a clock.
ghost use Rattle.std.specs.Prelude.{◌≡◌, ◌++◌, ◌==◌, false, IfOk, IsTrue, MatchOption, OnOk, T};
ghost use Rattle.std.specs.Prelude.{count_by, not, position, Some, string_bytes};
ghost use Rattle.std.specs.Char.{is_ascii_digit};
ghost use Rattle.std.specs.Str.Parse.{digits_value};
ghost use Rattle.vector_rev.specs.Clock.{is_entry, is_limited};
ghost use Rattle.vector_rev.specs.ClockText.{IsFirstUnsorted, ReadsClock, TakesEntries};
ghost use Rattle.vector_rev.specs.ClockText.{clock_text, entry_text, is_counter, is_numeral};
ghost use Rattle.vector_rev.specs.ClockText.{parts_of};
ghost use Rattle.std.specs.FinMap.Entries.{is_sorted};
ghost use Rattle.std.specs.List.{list_all};
ghost use Rattle.u1_base.specs.Ids.{id_cmp};
ghost use Rattle.vector_rev.specs.inner.Parts.{EntryIs, OrdersEntries, ReadsEntries, UidIs};
ghost use Rattle.vector_rev.specs.inner.Parts.{separated};

use crate::{Clock, ClockEntries, ClockEntry};
use itoa::Buffer;
use std::alloc::Global;
use std::cmp::Ordering;
use std::error::Error;
use std::fmt;
use u1_base::limits::{GREATEST_COUNT, MOST_CLOCK_ENTRIES};
use u1_base::{IdFault, Memory, ReplicaUid, Text};

/// Why a text, or a list of entries, is no clock. Entries are counted from 0, and the faults are
/// tested in this order.
#[derive(Clone, Copy, Debug, PartialEq, Eq)]
pub enum ClockFault {
    /// There is no entry.
    Empty,
    /// There are more than `u1_base::limits::MOST_CLOCK_ENTRIES` entries.
    TooMany,
    /// The first entry that is no replica uid with a counter from 1 to 2^63-1.
    BadEntry(u64),
    /// The first entry whose uid is not above the one before it.
    NotSorted(u64),
    Memory,
}

impl fmt::Display for ClockFault {
    fn fmt<W: fmt::Write>(&self, f: &mut fmt::Formatter<W>) -> fmt::Result {
        match self {
            ClockFault::Empty => f.write_str("the clock has no entry"),
            ClockFault::TooMany => {
                write!(f, "the clock has more than {MOST_CLOCK_ENTRIES} entries")
            }
            ClockFault::BadEntry(place) => write!(
                f,
                "entry {place} of the clock is not a replica uid with a counter"
            ),
            ClockFault::NotSorted(place) => write!(
                f,
                "entry {place} of the clock is not above the one before it"
            ),
            ClockFault::Memory => f.write_str("out of memory"),
        }
    }
}

impl Error for ClockFault {}

impl From<Memory> for ClockFault {
    ghost use Rattle.std.specs.Prelude.{◌≡◌};
    ghost use Rattle.vector_rev.specs.declared.read.ClockFault.TheVariants as fault;

    ghost from_gives = { λ _ e. e ≡ fault.Memory };

    fn from(_memory: Memory) -> ClockFault {
        ClockFault::Memory
    }
}

impl Clock {
    /// Reads a clock from the whole of the text: entries `UID:COUNTER` in the order of their uids,
    /// joined by `|`.
    pub fn read(alloc: Global, text: &str) -> Result<Clock, ClockFault>
        ensures { ReadsClock text.now result }
    {
        if text.is_empty() {
            return Err(ClockFault::Empty);
        }
        if bars_in(text.as_bytes()) >= MOST_CLOCK_ENTRIES {
            return Err(ClockFault::TooMany);
        }
        match read_entries(alloc, text) {
            Ok(entries) => Clock::in_order(entries.into_vec()),
            Err(fault) => Err(fault),
        }
    }

    /// Takes the list as a clock. It is never out of memory.
    pub fn of_entries(entries: ClockEntries) -> Result<Clock, ClockFault>
        ensures { TakesEntries entries result }
    {
        let entries = entries.into_vec();
        if entries.is_empty() {
            return Err(ClockFault::Empty);
        }
        if entries.len() > MOST_CLOCK_ENTRIES {
            return Err(ClockFault::TooMany);
        }
        match first_bad(entries.as_slice()) {
            Some(place) => Err(ClockFault::BadEntry(place as u64)),
            None => Clock::in_order(entries),
        }
    }

    // Tests the order of the uids alone.
    fn in_order(entries: Vec<ClockEntry>) -> Result<Clock, ClockFault>
        requires { T (is_limited entries.items) }
        ensures { OrdersEntries entries.items result }
    {
        match first_unsorted(entries.as_slice()) {
            Some(place) => Err(ClockFault::NotSorted(place as u64)),
            None => Ok(Clock { entries }),
        }
    }

    /// The text that `read` reads as this clock.
    pub fn text(&self) -> Result<Text, Memory>
        ensures { IfOk result (λ t. t ≡ clock_text self.now) }
    {
        let mut text = String::new(*self.entries.allocator());
        let entries = self.entries();
        for (i, entry) in entries.iter().enumerate() {
            push_separated(&mut text, i, entry)?;
        }
        Text::from_string(text)
    }
}

// Adds the entry at place i at the end, after a bar where it is not the first. At an error a front
// of that was added.
fn push_separated(text: &mut String, i: usize, entry: &ClockEntry) -> Result<(), Memory>
    ensures { OnOk result (string_bytes text.new ≡ string_bytes text.old ++ separated i entry.now) }
{
    if i == 0 {
        return push_entry(text, entry);
    }
    text.push('|')?;
    push_entry(text, entry)
}

// Adds the entry at the end. At an error a front of it was added.
fn push_entry(text: &mut String, entry: &ClockEntry) -> Result<(), Memory>
    ensures { OnOk result (string_bytes text.new ≡ string_bytes text.old ++ entry_text entry.now) }
{
    let mut buffer = Buffer::new();
    text.push_str(entry.uid().as_str())?;
    text.push(':')?;
    text.push_str(buffer.format(entry.counter()))?;
    Ok(())
}

fn bars_in(text: &[u8]) -> usize
    ensures { result ≡ count_by (λ b. b == 124) text.now }
{
    text.iter().filter(|b| **b == b'|').count()
}

// The entries of all parts of a text, in any order.
fn read_entries(alloc: Global, text: &str) -> Result<ClockEntries, ClockFault>
    ensures { ReadsEntries (parts_of text.now) result }
{
    let mut entries = ClockEntries::new(alloc);
    for part in text.split('|') {
        match read_entry(alloc, part)? {
            Some(entry) => entries.push(entry)?,
            None => return Err(ClockFault::BadEntry(entries.len() as u64)),
        }
    }
    Ok(entries)
}

fn read_entry(alloc: Global, part: &str) -> Result<Option<ClockEntry>, Memory>
    ensures { IfOk result (EntryIs part.now) }
{
    let Some((uid, digits)) = part.split_once(':') else {
        return Ok(None);
    };
    let Some(counter) = counter_of(digits) else {
        return Ok(None);
    };
    match read_uid(alloc, uid)? {
        Some(uid) => Ok(Some(ClockEntry::new(uid, counter))),
        None => Ok(None),
    }
}

fn read_uid(alloc: Global, text: &str) -> Result<Option<ReplicaUid>, Memory>
    ensures { IfOk result (UidIs text.now) }
{
    match ReplicaUid::read(alloc, text) {
        Ok(uid) => Ok(Some(uid)),
        Err(IdFault::Memory) => Err(Memory),
        Err(IdFault::Empty) => Ok(None),
        Err(IdFault::TooLong(_)) => Ok(None),
        Err(IdFault::BadByte(_)) => Ok(None),
    }
}

fn counter_of(digits: &str) -> Option<u64>
    ensures { MatchOption result (is_counter digits.now ≡ false)
        (λ n. IsTrue (is_counter digits.now) × (n ≡ digits_value 10 digits.now)) }
{
    if !is_numeral(digits.as_bytes()) {
        return None;
    }
    match digits.parse::<u64>() {
        Ok(counter) => {
            if counter <= GREATEST_COUNT {
                Some(counter)
            } else {
                None
            }
        }
        Err(_) => None,
    }
}

fn is_numeral(digits: &[u8]) -> bool
    ensures { result ≡ is_numeral digits.now }
{
    if digits.is_empty() {
        return false;
    }
    if digits[0] == b'0' {
        return false;
    }
    are_digits(digits)
}

fn are_digits(bytes: &[u8]) -> bool
    ensures { result ≡ list_all is_ascii_digit bytes.now }
{
    bytes.iter().all(|b| b.is_ascii_digit())
}

// Whether the counter is in range; a uid is always one.
fn is_entry(entry: &ClockEntry) -> bool
    ensures { result ≡ is_entry entry.now }
{
    let _uid = entry.uid();
    let counter = entry.counter();
    1 <= counter && counter <= GREATEST_COUNT
}

fn first_bad(entries: &[ClockEntry]) -> Option<usize>
    ensures { result ≡ position (λ e. not (is_entry e)) entries.now }
{
    entries.iter().position(|entry| !is_entry(entry))
}

// The first entry whose uid is not above the one before it.
fn first_unsorted(entries: &[ClockEntry]) -> Option<usize>
    ensures { MatchOption result (T (is_sorted id_cmp entries.now)) (IsFirstUnsorted entries.now) }
{
    for i in 1..entries.len() {
        let (before, entry) = (&entries[i - 1], &entries[i]);
        match before.uid().cmp(entry.uid()) {
            Ordering::Less => {}
            Ordering::Equal => return Some(i),
            Ordering::Greater => return Some(i),
        }
    }
    None
}
