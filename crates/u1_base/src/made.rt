//! Ids that the program makes.
ghost use Rattle.std.specs.Prelude.{◌≡◌, ◌≤◌, IfOk, length};
ghost use Rattle.u1_base.specs.NewId.{identifier_text, new_id_text, prefix_of, word_of};

use crate::{FormOf, Id, Memory, Text};
use std::alloc::Global;
use uuid::Uuid;

/// What a made id is for.
#[derive(Clone, Copy, PartialEq, Eq)]
pub enum IdKind {
    /// A document. Its number is the generation plus 1.
    Doc,
    /// A transaction. Its number is the generation of its entry.
    Trans,
    /// A replica. Its number is 0.
    Replica,
}

/// The id of this kind and number under the seed: `D-`, `T-` or `R-` and 32 lower hexadecimal
/// digits.
///
/// The digits are those of the name-based identifier (UUID version 5, RFC 9562) of the text
/// `WORD:NUMBER` in the namespace of the seed's 16 bytes, the highest first. One seed, kind and
/// number always give one id.
#[tactic(auto, unfolding(crate::specs::NewId::new_id_text))]
pub fn new_id(alloc: Global, seed: u128, kind: IdKind, number: u64) -> Result<Text, Memory>
    ensures { IfOk result (λ text. text ≡ new_id_text seed kind number) }
{
    let name = format!(in alloc; "{}:{number}", word(kind))?;
    let mut buffer = [0; 36];
    let digits = identifier(seed, name.as_bytes(), &mut buffer);
    let mut text = String::from_str(alloc, prefix(kind))?;
    text.push_str(digits)?;
    Text::from_string(text)
}

impl<F: FormOf> Id<F> {
    /// The made id as an id of this type: what `new_id` gives is an id of every form.
    pub fn made(alloc: Global, seed: u128, kind: IdKind, number: u64) -> Result<Id<F>, Memory>
        ensures { IfOk result (λ id. id ≡ new_id_text seed kind number) }
    {
        let text = new_id(alloc, seed, kind, number)?;
        Ok(Id::of_text(text))
    }
}

fn prefix(kind: IdKind) -> &'static str
    ensures { result.now ≡ prefix_of kind }
{
    match kind {
        IdKind::Doc => "D-",
        IdKind::Trans => "T-",
        IdKind::Replica => "R-",
    }
}

fn word(kind: IdKind) -> &'static str
    ensures { result.now ≡ word_of kind }
{
    match kind {
        IdKind::Doc => "doc",
        IdKind::Trans => "trans",
        IdKind::Replica => "replica",
    }
}

fn identifier<'b>(seed: u128, name: &[u8], buffer: &'b mut [u8]) -> &'b str
    requires { 36 ≤ length buffer.old }
    ensures { result.now ≡ identifier_text seed name.now }
{
    Uuid::new_v5(&Uuid::from_u128(seed), name)
        .simple()
        .encode_lower(buffer)
}
