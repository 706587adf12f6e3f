//! A stream is written in pieces, each in one spelling.
ghost use Rattle.std.specs.Prelude.{◌≡◌, ◌++◌, ◌≤◌, [], ◌∷◌, IfOk, OnOk};
ghost use Rattle.json.specs.Tree.{json_tokens};
ghost use Rattle.serde_json.specs.Written.{outline};
ghost use Rattle.content.specs.Canonical.{data_of};
ghost use Rattle.sync_stream.specs.declared.line.HeadKind.TheVariants.{Reply, Request};
ghost use Rattle.sync_stream.specs.Written.{content_tree, doc_piece, doc_tree, end_piece};
ghost use Rattle.sync_stream.specs.Written.{head_piece, head_tree};

use crate::{HeadKind, SyncDoc};
use content::Content;
use json::Writer;
use std::alloc::Global;
use std::str;
use sync_http::parts::{generation, trans_text};
use u1_base::{Bytes, Memory, Position};

/// What begins a stream: the line `[`, and the head without its line end.
pub fn write_head(alloc: Global, kind: HeadKind, at: &Position) -> Result<Bytes, Memory>
    ensures { IfOk result (λ bytes. bytes ≡ head_piece kind at.now) }
{
    let mut start = Vec::new(alloc);
    start.extend_from_slice(b"[\r\n")?;
    let mut out = Writer::new(start);
    write_head_object(kind, at, &mut out)?;
    Ok(Bytes::from_vec(out.into_inner()))
}

fn write_head_object(kind: HeadKind, at: &Position, out: &mut Writer) -> Result<(), Memory>
    ensures tokens { OnOk result
        (out.new.tokens ≡ out.old.tokens
        ++ json_tokens (outline (data_of (head_tree kind at.now)))) }
    ensures before { out.new.before ≡ out.old.before }
{
    match kind {
        HeadKind::Request => write_request_head(at, out),
        HeadKind::Reply => write_reply_head(at, out),
    }
}

fn write_request_head(at: &Position, out: &mut Writer) -> Result<(), Memory>
    ensures tokens { OnOk result
        (out.new.tokens ≡ out.old.tokens
        ++ json_tokens (outline (data_of (head_tree Request at.now)))) }
    ensures before { out.new.before ≡ out.old.before }
{
    out.begin_object()?;
    out.key("ensure")?;
    out.boolean(false)?;
    out.key("last_known_generation")?;
    out.u64(generation(at))?;
    out.key("last_known_trans_id")?;
    out.string(trans_text(at))?;
    out.end_object()?;
    Ok(())
}

fn write_reply_head(at: &Position, out: &mut Writer) -> Result<(), Memory>
    ensures tokens { OnOk result
        (out.new.tokens ≡ out.old.tokens
        ++ json_tokens (outline (data_of (head_tree Reply at.now)))) }
    ensures before { out.new.before ≡ out.old.before }
{
    out.begin_object()?;
    out.key("new_generation")?;
    out.u64(generation(at))?;
    out.key("new_transaction_id")?;
    out.string(trans_text(at))?;
    out.end_object()?;
    Ok(())
}

/// A document: the comma and the CR LF that part it from the line before, and its line without the
/// line end.
pub fn write_doc(alloc: Global, doc: &SyncDoc) -> Result<Bytes, Memory>
    requires { 1 ≤ doc.now.at.generation }
    ensures { IfOk result (λ bytes. bytes ≡ doc_piece doc.now) }
{
    let mut start = Vec::new(alloc);
    start.extend_from_slice(b",\r\n")?;
    let mut out = Writer::new(start);
    write_object(doc, &mut out)?;
    Ok(Bytes::from_vec(out.into_inner()))
}

fn write_object(doc: &SyncDoc, out: &mut Writer) -> Result<(), Memory>
    ensures tokens { OnOk result
        (out.new.tokens ≡ out.old.tokens ++ json_tokens (outline (data_of (doc_tree doc.now)))) }
    ensures before { out.new.before ≡ out.old.before }
{
    let rev = doc.member.rev.text()?;
    out.begin_object()?;
    out.key("content")?;
    write_content(&doc.member.content, out)?;
    out.key("gen")?;
    out.u64(generation(&doc.at))?;
    out.key("id")?;
    out.string(doc.id.as_str())?;
    out.key("rev")?;
    out.string(rev.as_str())?;
    out.key("trans_id")?;
    out.string(trans_text(&doc.at))?;
    out.end_object()?;
    Ok(())
}

fn write_content(content: &Option<Content>, out: &mut Writer) -> Result<(), Memory>
    ensures tokens { OnOk result
        (out.new.tokens ≡ out.old.tokens
        ++ json_tokens (outline (data_of (content_tree content.now)))) }
    ensures before { out.new.before ≡ out.old.before }
{
    match content {
        None => out.null()?,
        Some(content) => out.string(content.as_str())?,
    }
    Ok(())
}

/// The end of a stream: the last object's line end, and the line `]`.
pub fn write_end(alloc: Global) -> Result<Bytes, Memory>
    ensures { IfOk result (λ bytes. bytes ≡ end_piece) }
{
    let mut out = Bytes::new(alloc);
    out.extend(b"\r\n]\r\n")?;
    Ok(out)
}
