//! The readers of single operands. Each takes the word's value, or refuses the word by its place.
ghost use Rattle.std.specs.Prelude.{◌≡◌, ◌<◌, IfOk, length};
ghost use Rattle.u1_base.specs.Ids.{id_in};
ghost use Rattle.cli_words.specs.Operands.{address, each, end, number, revision, taken, texts};
ghost use Rattle.cli_words.specs.Table.{port};
ghost use Rattle.cli_words.specs.Word.{word_at};

use crate::ends::end_in;
use crate::fault::Refused;
use crate::limits::GREATEST_PORT;
use crate::numbers::number_in;
use crate::word::Word;
use std::alloc::Global;
use sync_http::{Address, AddressFault, read_address};
use u1_base::{FormOf, Id, IdFault, Key, Memory, Text, Texts};
use vector_rev::{Clock, ClockFault, Clocks};

/// The operand at this place among the operands.
pub fn operand<'w, 'a>(operands: &'w [Word<'a>], index: usize) -> &'w Word<'a>
    requires { index < length operands.now }
    ensures { result.now ≡ word_at operands.entry.now index }
{
    &operands[index]
}

/// An id of the kind that is wanted.
pub fn id<F: FormOf>(alloc: Global, word: &Word) -> Result<Result<Id<F>, Refused>, Memory>
    ensures { IfOk result (λ found. found ≡ taken (id_in F.form) word.now) }
{
    match Id::read(alloc, word.text()) {
        Ok(id) => Ok(Ok(id)),
        Err(IdFault::Memory) => Err(Memory),
        Err(_) => Ok(Err(word.refused())),
    }
}

pub fn revision(alloc: Global, word: &Word) -> Result<Result<Clock, Refused>, Memory>
    ensures { IfOk result (λ found. found ≡ revision word.now) }
{
    match Clock::read(alloc, word.text()) {
        Ok(rev) => Ok(Ok(rev)),
        Err(ClockFault::Memory) => Err(Memory),
        Err(_) => Ok(Err(word.refused())),
    }
}

/// One or more revisions, in the order of the words.
pub fn revisions(alloc: Global, words: &[Word]) -> Result<Result<Clocks, Refused>, Memory>
    ensures { IfOk result (λ found. found ≡ each revision words.now) }
{
    let mut revs = Clocks::new(alloc);
    for word in words {
        match revision(alloc, word)? {
            Ok(rev) => revs.push(rev)?,
            Err(refused) => return Ok(Err(refused)),
        }
    }
    Ok(Ok(revs))
}

pub fn address(alloc: Global, word: &Word) -> Result<Result<Address, Refused>, Memory>
    ensures { IfOk result (λ found. found ≡ address word.now) }
{
    match read_address(alloc, word.text()) {
        Ok(address) => Ok(Ok(address)),
        Err(AddressFault::Memory) => Err(Memory),
        Err(AddressFault::Bad) => Ok(Err(word.refused())),
    }
}

/// An end of a range; None stands for `open`.
pub fn end(alloc: Global, word: &Word) -> Result<Result<Option<Key>, Refused>, Memory>
    ensures { IfOk result (λ found. found ≡ end word.now) }
{
    match end_in(alloc, word.text())? {
        Some(end) => Ok(Ok(end)),
        None => Ok(Err(word.refused())),
    }
}

/// A number from `least` to `greatest`.
pub fn number(word: &Word, least: u64, greatest: u64) -> Result<u64, Refused>
    ensures { result ≡ number least greatest word.now }
{
    match number_in(word.text(), least, greatest) {
        Some(number) => Ok(number),
        None => Err(word.refused()),
    }
}

pub fn port(word: &Word) -> Result<u16, Refused>
    ensures { result ≡ port word.now }
{
    match number_in(word.text(), 1, GREATEST_PORT) {
        Some(port) => Ok(port as u16),
        None => Err(word.refused()),
    }
}

/// The words as they stand: expressions and query values are not read here.
pub fn texts(alloc: Global, words: &[Word]) -> Result<Texts, Memory>
    ensures { IfOk result (λ found. found ≡ texts words.now) }
{
    let mut texts = Texts::new(alloc);
    for word in words {
        texts.push(Text::copy(alloc, word.text())?)?;
    }
    Ok(texts)
}
