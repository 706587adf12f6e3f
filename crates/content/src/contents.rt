//! A content: a checked JSON object, kept as its canonical text.
//!
//! Most contents are read as they were written: one pass tells so, and the text is copied.
ghost use Rattle.std.specs.Prelude.{◌≡◌, ◌≢◌, ◌≤◌, ◌↔◌, IsTrue, IsUtf8, IfOk, IfErr, Some, None};
ghost use Rattle.std.specs.Prelude.{length};
ghost use Rattle.content.specs.Canonical.{canonical, data_of};
ghost use Rattle.content.specs.Contents.{IsContent, most_bytes};
ghost use Rattle.content.specs.Faults.{Reads, fault_of, fault_of_value, value_of};
ghost use Rattle.content.specs.Reading.{content_in};
ghost use Rattle.content.specs.Spelled.{IsSpelled, spelled_tree};
ghost use Rattle.content.specs.TreeOf.{tree_of};
ghost use Rattle.serde_json.specs.View.{view};

use crate::check::fault_in;
use crate::convert::convert;
use crate::made::made_root;
use crate::parts::{cut_to, made_part};
use crate::plain::{Stop, plain_root};
use crate::spelled::is_spelled;
use crate::write::written;
use crate::{ContentFault, Json};
use json::Scratch;
use serde_json::Value;
use std::alloc::Global;
use std::marker::Model;
use u1_base::limits::MOST_CONTENT_BYTES;
use u1_base::{Bytes, Memory, Text};

/// The content of a document, seen as the tree of its root: an object, nested at most
/// `u1_base::limits::MOST_CONTENT_DEPTH` deep, whose canonical text has at most
/// `u1_base::limits::MOST_CONTENT_BYTES` bytes.
#[derive(Drop)]
pub struct Content {
    text: Text,
    alloc: Global,
}

impl Model for Content {
    ghost use Rattle.content.specs.Tree.{Tree};
    ghost use Rattle.content.specs.TreeCode.{tree_code};

    ghost Value = { Tree };

    ghost coded = { tree_code };

    ghost use Rattle.content.specs.Spelled.{IsSpelled, spelled_tree};

    ghost view = { λ c. spelled_tree c.text };

    ghost invariant = { λ c. IsSpelled c.text };
}

impl Content {
    ghost use Rattle.content.specs.Parts.{part_of};
    ghost use Rattle.content.specs.TreeOf.{tree_of};

    /// Reads a content from the whole of the bytes (JSON by RFC 8259, as `serde_json` reads it).
    ///
    /// Of a name that is repeated in one object the last value counts.
    pub fn read(alloc: Global, bytes: &[u8]) -> Result<Content, ContentFault>
        ensures reads { IfOk result (λ c. content_in bytes.now ≡ Some c) }
        ensures value { IfOk result (λ c. value_of bytes.now ≡ Some (data_of c)) }
        ensures no_fault { IfOk result (λ _. fault_of bytes.now ≡ None) }
        ensures shorter { IfOk result (λ c. length (canonical c) ≤ length bytes.now) }
        ensures fault { IfErr result (λ e. e ≢ ContentFault.Memory → fault_of bytes.now ≡ Some e) }
        ensures refused { IfErr result
            (λ e. e ≢ ContentFault.Memory → content_in bytes.now ≡ None) }
    {
        let mut scratch = Scratch::new(alloc);
        Content::read_with(alloc, &mut scratch, bytes)
    }

    /// `read` for who reads many: texts with escapes are written out in the scratch, which keeps
    /// its memory.
    #[tactic(auto, using(crate::proofs::Reading::refused))]
    pub fn read_with(
        alloc: Global,
        scratch: &mut Scratch<Global>,
        bytes: &[u8],
    ) -> Result<Content, ContentFault>
        ensures reads { IfOk result (λ c. content_in bytes.now ≡ Some c) }
        ensures value { IfOk result (λ c. value_of bytes.now ≡ Some (data_of c)) }
        ensures no_fault { IfOk result (λ _. fault_of bytes.now ≡ None) }
        ensures shorter { IfOk result (λ c. length (canonical c) ≤ length bytes.now) }
        ensures fault { IfErr result (λ e. e ≢ ContentFault.Memory → fault_of bytes.now ≡ Some e) }
        ensures refused { IfErr result
            (λ e. e ≢ ContentFault.Memory → content_in bytes.now ≡ None) }
    {
        let content = content_of(alloc, scratch, bytes)?;
        Ok(content)
    }

    // The content whose canonical text this is.
    fn of_text(alloc: Global, bytes: &[u8]) -> Result<Content, Memory>
        requires { IsSpelled bytes.now }
        ensures { IfOk result (λ c. c ≡ spelled_tree bytes.now) }
    {
        match str::from_utf8(bytes) {
            Ok(text) => Ok(Content {
                text: Text::copy(alloc, text)?,
                alloc,
            }),
            Err(_) => unreachable!(),
        }
    }

    // The content of this root.
    fn of_root(alloc: Global, root: &Json) -> Result<Content, Memory>
        requires { IsContent (tree_of root.now) }
        ensures { IfOk result (λ c. c ≡ tree_of root.now) }
    {
        let text = written(alloc, root)?;
        Content::of_text(alloc, text.as_slice())
    }

    /// The root of the tree, an object, made from the text.
    pub fn root(&self) -> Result<Json, Memory>
        ensures root { IfOk result (λ root. tree_of root ≡ self.now) }
        ensures content { IsContent self.now }
    {
        let bytes = self.text.as_str().as_bytes();
        match made_root(self.alloc, bytes) {
            Ok(root) => Ok(root),
            Err(Stop::NotPlain) => self.read_root(),
            Err(Stop::Memory) => Err(Memory),
        }
    }

    /// The part of the root that has just the fields of these names. Of the others nothing is made.
    pub fn part(&self, names: &[Text]) -> Result<Json, Memory>
        ensures { IfOk result (λ root. tree_of root ≡ part_of names.now self.now) }
    {
        let bytes = self.text.as_str().as_bytes();
        match made_part(self.alloc, bytes, names) {
            Ok(root) => Ok(root),
            Err(Stop::NotPlain) => Ok(cut_to(self.read_root()?, names)),
            Err(Stop::Memory) => Err(Memory),
        }
    }

    // The root, made from each canonical text.
    fn read_root(&self) -> Result<Json, Memory>
        ensures root { IfOk result (λ root. tree_of root ≡ self.now) }
        ensures content { IsContent self.now }
    {
        let bytes = self.text.as_str().as_bytes();
        let mut scratch = Scratch::new(self.alloc);
        match root_in(self.alloc, &mut scratch, bytes) {
            Ok(root) => Ok(root),
            // The text has no fault.
            Err(_) => Err(Memory),
        }
    }

    /// The canonical text: compact, names in their order, texts and numbers as `serde_json` spells
    /// them. It reads as this content.
    pub fn as_str(&self) -> &str
        ensures text { result.now ≡ canonical self.now }
        ensures content { IsContent self.now }
        ensures reads_back { content_in result.now ≡ Some self.now }
    {
        self.text.as_str()
    }

    /// A copy of the canonical text.
    pub fn text(&self) -> Result<Bytes, Memory>
        ensures text { IfOk result (λ bytes. bytes ≡ canonical self.now) }
        ensures utf8 { IfOk result (λ bytes. IsUtf8 bytes) }
        ensures short { IfOk result (λ bytes. length bytes ≤ most_bytes) }
        ensures reads_back { IfOk result (λ bytes. content_in bytes ≡ Some self.now) }
    {
        let text = self.as_str().as_bytes();
        Ok(Bytes::from_vec(Vec::from_slice(self.alloc, text)?))
    }

    /// Whether the trees are equal.
    pub fn same(&self, other: &Content) -> bool
        ensures { IsTrue result ↔ (self.now ≡ other.now) }
    {
        self.as_str() == other.as_str()
    }

    /// A second content with the same tree. The two share their text.
    pub fn copy(&self) -> Result<Content, Memory>
        ensures { IfOk result (λ c. c ≡ self.now) }
    {
        Ok(Content {
            text: self.text.duplicate()?,
            alloc: self.alloc,
        })
    }
}

// The content that the bytes are.
fn content_of(
    alloc: Global,
    scratch: &mut Scratch<Global>,
    bytes: &[u8],
) -> Result<Content, ContentFault>
    ensures reads { IfOk result (λ c. Reads bytes.now c) }
    ensures fault { IfErr result (λ e. e ≢ ContentFault.Memory → fault_of bytes.now ≡ Some e) }
{
    if is_spelled(bytes) {
        let content = Content::of_text(alloc, bytes)?;
        return Ok(content);
    }
    let root = root_in(alloc, scratch, bytes)?;
    let content = Content::of_root(alloc, &root)?;
    Ok(content)
}

// The root of the content that the bytes are.
fn root_in(alloc: Global, scratch: &mut Scratch<Global>, bytes: &[u8]) -> Result<Json, ContentFault>
    ensures reads { IfOk result (λ root. Reads bytes.now (tree_of root)) }
    ensures fault { IfErr result (λ e. e ≢ ContentFault.Memory → fault_of bytes.now ≡ Some e) }
{
    match plain_root(alloc, scratch, bytes) {
        Ok(root) => Ok(root),
        Err(Stop::NotPlain) => valued_root(alloc, bytes),
        Err(Stop::Memory) => Err(ContentFault::Memory),
    }
}

// The same by way of a value of `serde_json`, which decides every fault.
pub(crate) fn valued_root(alloc: Global, bytes: &[u8]) -> Result<Json, ContentFault>
    ensures reads { IfOk result (λ root. Reads bytes.now (tree_of root)) }
    ensures fault { IfErr result (λ e. e ≢ ContentFault.Memory → fault_of bytes.now ≡ Some e) }
{
    let value = whole_value(alloc, bytes)?;
    Ok(convert(alloc, value)?)
}

// Reads the value of a text that has no fault.
fn whole_value(alloc: Global, bytes: &[u8]) -> Result<Value, ContentFault>
    ensures value { IfOk result (λ v. value_of bytes.now ≡ Some (view v)) }
    ensures sound { IfOk result (λ v. fault_of_value (view v) ≡ None) }
    ensures short { IfOk result (λ _. length bytes.now ≤ most_bytes) }
    ensures no_fault { IfOk result (λ _. fault_of bytes.now ≡ None) }
    ensures fault { IfErr result (λ e. e ≢ ContentFault.Memory → fault_of bytes.now ≡ Some e) }
{
    if bytes.len() as u64 > MOST_CONTENT_BYTES {
        return Err(ContentFault::TooBig(bytes.len() as u64));
    }
    let value = value_in(alloc, bytes)?;
    match fault_in(&value) {
        Some(fault) => Err(fault),
        None => Ok(value),
    }
}

fn value_in(alloc: Global, bytes: &[u8]) -> Result<Value, ContentFault>
    ensures value { IfOk result (λ v. value_of bytes.now ≡ Some (view v)) }
    ensures fault { IfErr result (λ e. e ≢ ContentFault.Memory → (e ≡ ContentFault.NotJson)
        × (value_of bytes.now ≡ None)) }
{
    match Value::from_slice(alloc, bytes) {
        Ok(value) => Ok(value),
        Err(error) => if error.is_memory() {
            Err(ContentFault::Memory)
        } else {
            Err(ContentFault::NotJson)
        },
    }
}
