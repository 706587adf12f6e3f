//! Ids: short ASCII texts, each form with its alphabet and its greatest length.
ghost use Rattle.std.specs.Prelude.{◌≡◌, ◌≤◌, ◌↔◌, IsTrue, IfOk, MatchOption, None, not, position};
ghost use Rattle.std.specs.Prelude.{get_or};
ghost use Rattle.u1_base.specs.Ids.{IsFault, IsId, ReadsId, id_in, is_allowed, longest};
ghost use Rattle.u1_base.specs.declared.ids.TheConstants.{FIRST_ALPHABETS};

use crate::limits::{MOST_DOCUMENT_ID_BYTES, MOST_NAME_BYTES};
use crate::{Items, Memory, Text};
use std::alloc::Global;
use std::cmp::Ordering;
use std::error::Error;
use std::fmt;
use std::marker::{Model, PhantomData};

/// What an id is for. It decides how long the id may be and which bytes it may have.
#[derive(Clone, Copy, PartialEq, Eq)]
pub enum Form {
    /// 1 to 128 ASCII letters, digits, `.`, `_`, `-`, `%`.
    Document,
    /// 1 to 64 ASCII letters, digits, `_`, `-`.
    Replica,
    /// 1 to 64 ASCII letters, digits, `-`.
    Transaction,
    /// 1 to 64 ASCII letters, digits, `.`, `_`, `-`.
    Name,
}

/// Why a text is no id. The length is tested first.
#[derive(Clone, Copy, Debug, PartialEq, Eq)]
pub enum IdFault {
    Empty,
    /// The length in bytes.
    TooLong(u64),
    /// The place of the first byte outside the alphabet.
    BadByte(u64),
    Memory,
}

impl From<Memory> for IdFault {
    ghost use Rattle.std.specs.Prelude.{◌≡◌};
    ghost use Rattle.u1_base.specs.declared.ids.IdFault.TheVariants as fault;

    ghost from_gives = { λ _ e. e ≡ fault.Memory };

    fn from(_memory: Memory) -> IdFault {
        IdFault::Memory
    }
}

impl fmt::Display for IdFault {
    fn fmt<W: fmt::Write>(&self, f: &mut fmt::Formatter<W>) -> fmt::Result {
        match self {
            IdFault::Empty => f.write_str("the id is empty"),
            IdFault::TooLong(length) => write!(f, "the id has {length} bytes, which is too long"),
            IdFault::BadByte(place) => write!(f, "byte {place} of the id is not allowed in it"),
            IdFault::Memory => f.write_str("out of memory"),
        }
    }
}

impl Error for IdFault {}

/// A kind of id: a type that names its form.
pub trait FormOf {
    ghost use Rattle.u1_base.specs.declared.ids.Form.{Form};

    ghost form: { Form };

    fn form() -> Form
        ensures { result ≡ form };
}

/// The kind of a document id.
pub struct Document;

/// The kind of a replica uid.
pub struct Replica;

/// The kind of a transaction id.
pub struct Transaction;

/// The kind of an index name.
pub struct Index;

/// The kind of a database name.
pub struct Database;

impl FormOf for Document {
    ghost use Rattle.u1_base.specs.declared.ids.Form.TheVariants as form_of;

    ghost form = { form_of.Document };

    fn form() -> Form {
        Form::Document
    }
}

impl FormOf for Replica {
    ghost use Rattle.u1_base.specs.declared.ids.Form.TheVariants as form_of;

    ghost form = { form_of.Replica };

    fn form() -> Form {
        Form::Replica
    }
}

impl FormOf for Transaction {
    ghost use Rattle.u1_base.specs.declared.ids.Form.TheVariants as form_of;

    ghost form = { form_of.Transaction };

    fn form() -> Form {
        Form::Transaction
    }
}

impl FormOf for Index {
    ghost use Rattle.u1_base.specs.declared.ids.Form.TheVariants as form_of;

    ghost form = { form_of.Name };

    fn form() -> Form {
        Form::Name
    }
}

impl FormOf for Database {
    ghost use Rattle.u1_base.specs.declared.ids.Form.TheVariants as form_of;

    ghost form = { form_of.Name };

    fn form() -> Form {
        Form::Name
    }
}

/// The id of a document.
pub type DocId = Id<Document>;

/// The uid of a replica.
pub type ReplicaUid = Id<Replica>;

/// The id of a transaction, which is one entry of a log.
pub type TransId = Id<Transaction>;

/// The name of an index or a view.
pub type IndexName = Id<Index>;

/// The name of a database.
pub type DbName = Id<Database>;

/// A list of document ids.
pub type Ids = Items<DocId>;

/// An id of one kind, seen as the list of its bytes. Ids are ordered by bytes.
#[derive(Drop)]
pub struct Id<F: FormOf> {
    text: Text,
    kind: PhantomData<F>,
}

impl<F: FormOf> Model for Id<F> {
    ghost use Rattle.std.specs.Prelude.{List, ℕ};
    ghost use Rattle.u1_base.specs.Ids.{IsId};

    ghost Value = { List ℕ };

    ghost view = { λ i. i.text };

    ghost invariant = { λ i. IsId F.form i.text };
}

impl<F: FormOf> Id<F> {
    /// Reads an id from the whole of the text.
    pub fn read(alloc: Global, text: &str) -> Result<Id<F>, IdFault>
        ensures { ReadsId F.form text.now result }
    {
        Id::of_bytes(alloc, text.as_bytes())
    }

    /// Reads an id from all of the bytes.
    pub fn of_bytes(alloc: Global, bytes: &[u8]) -> Result<Id<F>, IdFault>
        ensures { ReadsId F.form bytes.now result }
    {
        if let Some(fault) = fault_of(F::form(), bytes) {
            return Err(fault);
        }
        // Each alphabet is a part of ASCII.
        let text = unsafe { str::from_utf8_unchecked(bytes) };
        match Text::copy(alloc, text) {
            Ok(text) => Ok(Id::of_text(text)),
            Err(Memory) => Err(IdFault::Memory),
        }
    }

    // Takes a text that is an id.
    pub(crate) fn of_text(text: Text) -> Id<F>
        requires { IsId F.form text }
        ensures { result ≡ text }
    {
        Id {
            text,
            kind: PhantomData,
        }
    }

    pub fn as_str(&self) -> &str
        ensures value { result.now ≡ self.now }
        ensures id { IsId F.form self.now }
    {
        self.text.as_str()
    }

    pub fn copy(&self) -> Result<Id<F>, Memory>
        ensures { IfOk result (λ id. id ≡ self.now) }
    {
        Ok(Id::of_text(self.text.duplicate()?))
    }
}

fn fault_of(form: Form, bytes: &[u8]) -> Option<IdFault>
    ensures { MatchOption result (IsId form bytes.now)
        (λ fault. IsFault form bytes.now fault × (id_in form bytes.now ≡ None)) }
{
    if bytes.is_empty() {
        return Some(IdFault::Empty);
    }
    if bytes.len() > longest_of(form) {
        return Some(IdFault::TooLong(bytes.len() as u64));
    }
    match first_bad_byte(form, bytes) {
        Some(place) => Some(IdFault::BadByte(place as u64)),
        None => None,
    }
}

fn longest_of(form: Form) -> usize
    ensures { result ≡ longest form }
{
    match form {
        Form::Document => MOST_DOCUMENT_ID_BYTES,
        Form::Replica | Form::Transaction | Form::Name => MOST_NAME_BYTES,
    }
}

// Each alphabet is a part of the next one: of transactions (1), of replicas (2), of names (3), of
// documents (4). Of each byte this is the first one that has it; 9 stands for none.
static FIRST_ALPHABETS: [u8; 256] = *b"\
    99999999999999999999999999999999\
    99999499999991391111111111999999\
    91111111111111111111111111199992\
    91111111111111111111111111199999\
    99999999999999999999999999999999\
    99999999999999999999999999999999\
    99999999999999999999999999999999\
    99999999999999999999999999999999";

fn first_alphabet(byte: u8) -> u8
    ensures { result ≡ get_or FIRST_ALPHABETS byte 0 }
{
    FIRST_ALPHABETS[byte as usize]
}

fn allows(form: Form, byte: u8) -> bool
    ensures { result ≡ is_allowed form byte }
{
    match form {
        Form::Transaction => first_alphabet(byte) <= b'1',
        Form::Replica => first_alphabet(byte) <= b'2',
        Form::Name => first_alphabet(byte) <= b'3',
        Form::Document => first_alphabet(byte) <= b'4',
    }
}

fn first_bad_byte(form: Form, bytes: &[u8]) -> Option<usize>
    ensures { result ≡ position (λ b. not (is_allowed form b)) bytes.now }
{
    bytes.iter().position(|byte| !allows(form, *byte))
}

impl<F: FormOf> fmt::Debug for Id<F> {
    fn fmt<W: fmt::Write>(&self, f: &mut fmt::Formatter<W>) -> fmt::Result {
        fmt::Debug::fmt(&self.as_str(), f)
    }
}

impl<F: FormOf> PartialEq for Id<F> {
    ghost use Rattle.std.specs.Prelude.{nat_eq};
    ghost use Rattle.std.specs.Cmp.{partial_equiv_from_equiv};
    ghost use Rattle.std.specs.Cmp.Lexicographic.{nat_list_eq_equiv, pointwise};

    ghost eq = { λ a b. pointwise nat_eq a b };

    ghost laws = { partial_equiv_from_equiv nat_list_eq_equiv };

    fn eq(&self, other: &Id<F>) -> bool {
        self.as_str() == other.as_str()
    }
}

impl<F: FormOf> Eq for Id<F> {
    ghost use Rattle.std.specs.Cmp.Lexicographic.{nat_list_eq_equiv};

    ghost laws = { nat_list_eq_equiv };
}

impl<F: FormOf> PartialOrd for Id<F> {
    ghost use Rattle.std.specs.Prelude.{Some};
    ghost use Rattle.std.specs.Ordering.{nat_cmp};
    ghost use Rattle.std.specs.Cmp.Lexicographic.{slice_cmp, texts_po};

    ghost partial_cmp = { λ a b. Some (slice_cmp nat_cmp a b) };

    ghost laws = { texts_po };

    fn partial_cmp(&self, other: &Id<F>) -> Option<Ordering> {
        Some(self.cmp(other))
    }
}

impl<F: FormOf> Ord for Id<F> {
    ghost use Rattle.std.specs.Prelude.{refl};
    ghost use Rattle.std.specs.Ordering.{nat_cmp};
    ghost use Rattle.std.specs.Cmp.Lexicographic.{nat_list_cmp_total, slice_cmp, texts_ties};

    ghost cmp = { slice_cmp nat_cmp };

    ghost total = { nat_list_cmp_total };

    ghost matches_partial_cmp = { λ a b. refl };

    ghost matches_eq = { texts_ties };

    fn cmp(&self, other: &Id<F>) -> Ordering {
        self.as_str().cmp(other.as_str())
    }
}
