//! Patterns.
ghost use Rattle.std.specs.Prelude.{◌≡◌, IfOk};
ghost use Rattle.query_range.specs.inner.Floor.{floor_of};
ghost use Rattle.query_range.specs.Patterns.{before_star, is_any, is_open, meets, part_meets};
ghost use Rattle.query_range.specs.Patterns.{part_of};

use crate::PatternFault;
use std::alloc::Global;
use std::marker::Model;
use u1_base::{Items, Key, Memory, Text, Texts};

/// What one value of a query asks of a text.
#[derive(Drop)]
pub enum Part {
    /// This text.
    Exact(Text),
    /// A text that begins so, or is this one: the value without its star.
    Prefix(Text),
    /// Any text: the value is `*`.
    Any,
}

impl Part {
    fn is_any(&self) -> bool
        ensures { result ≡ is_any self.now }
    {
        match self {
            Part::Any => true,
            Part::Exact(_) | Part::Prefix(_) => false,
        }
    }

    fn is_open(&self) -> bool
        ensures { result ≡ is_open self.now }
    {
        match self {
            Part::Exact(_) => false,
            Part::Prefix(_) | Part::Any => true,
        }
    }

    fn meets(&self, text: &Text) -> bool
        ensures { result ≡ part_meets self.now text.now }
    {
        match self {
            Part::Exact(exact) => text == exact,
            Part::Prefix(prefix) => {
                let bytes = text.as_str().as_bytes();
                bytes.starts_with(prefix.as_str().as_bytes())
            }
            Part::Any => true,
        }
    }
}

// The part of one value.
fn read_part(alloc: Global, value: &Text) -> Result<Part, Memory>
    ensures { IfOk result (λ part. part ≡ part_of value.now) }
{
    match value.as_str().strip_suffix('*') {
        None => Ok(Part::Exact(value.duplicate()?)),
        Some(begin) => starred_part(alloc, begin),
    }
}

// The part of a value that has this before its last star.
fn starred_part(alloc: Global, begin: &str) -> Result<Part, Memory>
    ensures { IfOk result (λ part. part ≡ before_star begin.now) }
{
    if begin.len() == 0 {
        return Ok(Part::Any);
    }
    Ok(Part::Prefix(Text::copy(alloc, begin)?))
}

/// The parts of a query, one for each expression of the index. After a prefix or any, all parts are
/// any.
#[derive(Drop)]
pub struct Pattern {
    parts: Items<Part>,
}

impl Model for Pattern {
    ghost use Rattle.std.specs.Prelude.{List};
    ghost use Rattle.query_range.specs.declared.pattern.Part.{Part};

    ghost Value = { List Part };

    ghost use Rattle.query_range.specs.Patterns.{IsPattern};

    ghost view = { λ s. s.parts };

    ghost invariant = { λ s. IsPattern s.parts };
}

impl Pattern {
    ghost use Rattle.query_range.specs.Patterns.{IsPattern, ReadsPattern};

    /// Reads the values of a query of an index of so many expressions.
    pub fn read(alloc: Global, values: &[Text], width: u64) -> Result<Pattern, PatternFault>
        ensures { ReadsPattern values.now width result }
    {
        if values.len() as u64 != width {
            return Err(PatternFault::WrongWidth);
        }
        let mut parts = Items::new(alloc);
        let mut opened = false;
        for (place, value) in values.iter().enumerate() {
            let part = read_part(alloc, value)?;
            if opened && !part.is_any() {
                return Err(PatternFault::BadGlob(place as u64));
            }
            opened = opened || part.is_open();
            parts.push(part)?;
        }
        Ok(Pattern { parts })
    }

    /// The parts, one for each expression of the index.
    pub fn parts(&self) -> &[Part]
        ensures value { result.now ≡ self.now }
        ensures pattern { IsPattern self.now }
    {
        self.parts.as_slice()
    }

    /// Whether the key has as many texts as the pattern has parts, and each is what its part asks
    /// for. It takes no memory.
    pub fn meets(&self, key: &Key) -> bool
        ensures { result ≡ meets self.now key.now }
    {
        meets_all(self.parts.as_slice(), key.texts())
    }

    // The exact texts, and the prefix after them.
    pub(crate) fn floor(&self, alloc: Global) -> Result<Texts, Memory>
        ensures texts { IfOk result (λ texts. texts ≡ floor_of self.now) }
        ensures pattern { IsPattern self.now }
    {
        floor_texts(alloc, self.parts.as_slice())
    }
}

// Whether each text is what the part at its place asks for.
fn meets_all(parts: &[Part], texts: &[Text]) -> bool
    ensures { result ≡ meets parts.now texts.now }
{
    if parts.len() != texts.len() {
        return false;
    }
    for at in 0..parts.len() {
        if !parts[at].meets(&texts[at]) {
            return false;
        }
    }
    true
}

// The exact texts, and the prefix after them.
fn floor_texts(alloc: Global, parts: &[Part]) -> Result<Texts, Memory>
    ensures { IfOk result (λ texts. texts ≡ floor_of parts.now) }
{
    let mut texts = Texts::new(alloc);
    for part in parts {
        match part {
            Part::Exact(exact) => texts.push(exact.duplicate()?)?,
            Part::Prefix(prefix) => {
                texts.push(prefix.duplicate()?)?;
                return Ok(texts);
            }
            Part::Any => return Ok(texts),
        }
    }
    Ok(texts)
}
