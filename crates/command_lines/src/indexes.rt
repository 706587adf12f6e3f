//! The lines of indexes and of their keys.
ghost use Rattle.std.specs.Prelude.{◌≡◌, ◌++◌, IfOk, OnOk, codes, string_bytes};
ghost use Rattle.command_lines.specs.Lines.{blank_each, json_list, line_text};
ghost use Rattle.command_lines.specs.Puts.{Puts};
ghost use Rattle.replica_core.specs.Commands.Effects.{Index, IndexDeleted, IndexMade, Keyed};

use crate::put::{PrintFault, put_all};
use expr_parser::law_index_texts;
use json::Writer;
use link::Sink;
use replica_state::IndexExprs;
use std::alloc::Global;
use u1_base::{Bytes, IndexName, Key, Memory, Text};

/// An index that is there: `index NAME`.
pub fn print_index_made<K: Sink>(out: &mut K, name: &IndexName) -> Result<(), PrintFault>
    ensures { Puts (line_text (IndexMade name.now)) (K.known out.old) (K.known out.new) result }
{
    put_all(out, &[b"index ", name.as_str().as_bytes(), b"\n"])
}

/// An index that was deleted: `deleted NAME`.
pub fn print_index_deleted<K: Sink>(out: &mut K, name: &IndexName) -> Result<(), PrintFault>
    ensures { Puts (line_text (IndexDeleted name.now)) (K.known out.old) (K.known out.new) result }
{
    put_all(out, &[b"deleted ", name.as_str().as_bytes(), b"\n"])
}

/// An index with the canonical texts of its expressions: `NAME EXPR ..`.
pub fn print_index<K: Sink>(
    alloc: Global,
    out: &mut K,
    name: &IndexName,
    exprs: &IndexExprs,
) -> Result<(), PrintFault>
    ensures { Puts (line_text (Index name.now exprs.now.texts))
        (K.known out.old) (K.known out.new) result }
{
    let exprs = spelled_exprs(alloc, exprs)?;
    put_all(out, &[name.as_str().as_bytes(), exprs.as_slice(), b"\n"])
}

/// A key: a compact JSON list of its texts.
pub fn print_key<K: Sink>(alloc: Global, out: &mut K, key: &Key) -> Result<(), PrintFault>
    ensures { Puts (line_text (Keyed key.now)) (K.known out.old) (K.known out.new) result }
{
    let list = spelled_list(alloc, key.texts())?;
    put_all(out, &[list.as_slice(), b"\n"])
}

// The texts of the expressions, each after a blank.
fn spelled_exprs(alloc: Global, exprs: &IndexExprs) -> Result<Bytes, Memory>
    ensures { IfOk result (λ text. text ≡ blank_each exprs.now.texts) }
{
    law_index_texts();
    let mut text = Bytes::new(alloc);
    for expr in exprs.as_slice() {
        let spelled = expr.text(alloc)?;
        text.extend(b" ")?;
        text.extend(spelled.as_str().as_bytes())?;
    }
    Ok(text)
}

fn spelled_list(alloc: Global, texts: &[Text]) -> Result<Bytes, Memory>
    ensures { IfOk result (λ list. list ≡ json_list texts.now) }
{
    let mut out = Writer::new(Vec::new(alloc));
    out.begin_array()?;
    for text in texts {
        out.string(text.as_str())?;
    }
    out.end_array()?;
    Ok(Bytes::from_vec(out.into_inner()))
}
