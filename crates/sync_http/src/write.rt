//! Heads are written in one spelling.
ghost use Rattle.std.specs.Prelude.{◌≡◌, ◌≤◌, [], ◌∷◌, ◌++◌, IfOk, IsSome, OnOk, decimal};
ghost use Rattle.std.specs.Prelude.{string_bytes, unwrap_or};
ghost use Rattle.std.specs.List.{flat_map};
ghost use Rattle.http.specs.StatusCode.{IsStatusCode, reason_phrase};
ghost use Rattle.httparse.specs.Grammar.{print_field, print_request, print_response, print_version};
ghost use Rattle.u1_base.specs.declared.limits.TheConstants.{GREATEST_COUNT};
ghost use Rattle.sync_http.specs.Written.{field, host_text, length_field, reply_written};
ghost use Rattle.sync_http.specs.Written.{request_body_fields, request_written, target_text};
ghost use Rattle.sync_http.specs.Written.{type_field, type_of, verb_text};
ghost use Rattle.sync_http.specs.declared.heads.Verb.TheVariants.{Get};

use crate::{Address, ReplyHead, RequestHead, Verb};
use http::StatusCode;
use std::alloc::Global;
use u1_base::{Bytes, Memory};

const JSON_TYPE: &str = "application/json";

const STREAM_TYPE: &str = "application/x-u1db-sync-stream";

/// The head of a request to this address.
#[tactic(auto, unfolding(httparse::specs::Grammar::print_request))]
pub fn write_request(alloc: Global, to: &Address, head: &RequestHead) -> Result<Bytes, Memory>
    requires db { to.now.db ≡ head.now.db }
    requires body { head.now.body ≤ GREATEST_COUNT }
    requires none { head.now.verb ≡ Get → head.now.body ≡ 0 }
    ensures { IfOk result (λ bytes. bytes ≡ print_request (request_written to.now head.now)) }
{
    let target = target_text(alloc, head.db.as_str(), head.source.as_str())?;
    let host = host_text(alloc, to.host.as_str(), to.port)?;
    let mut out = Bytes::new(alloc);
    push_start(&mut out, verb_text(head.verb), target.as_str())?;
    push_field(&mut out, "Host", host.as_str())?;
    push_field(&mut out, "Connection", "close")?;
    push_request_body(alloc, &mut out, head.verb, head.body)?;
    out.extend(b"\r\n")?;
    Ok(out)
}

fn verb_text(verb: Verb) -> &'static str
    ensures { result.now ≡ verb_text verb }
{
    match verb {
        Verb::Get => "GET",
        Verb::Put => "PUT",
        Verb::Post => "POST",
    }
}

fn target_text(alloc: Global, db: &str, source: &str) -> Result<String, Memory>
    ensures { IfOk result (λ text. string_bytes text ≡ target_text db.now source.now) }
{
    let mut text = String::from_str(alloc, "/")?;
    text.push_str(db)?;
    text.push_str("/sync-from/")?;
    text.push_str(source)?;
    Ok(text)
}

fn host_text(alloc: Global, host: &str, port: u16) -> Result<String, Memory>
    ensures { IfOk result (λ text. string_bytes text ≡ host_text host.now port) }
{
    Ok(format!(in alloc; "{host}:{port}")?)
}

// The line `METHOD TARGET HTTP/1.1`.
fn push_start(out: &mut Bytes, method: &str, target: &str) -> Result<(), Memory>
    ensures { OnOk result (out.new ≡ out.old ++ method.now ++ (32 ∷ target.now)
        ++ (32 ∷ print_version 1) ++ 13 ∷ 10 ∷ []) }
{
    out.extend(method.as_bytes())?;
    out.extend(b" ")?;
    out.extend(target.as_bytes())?;
    out.extend(b" HTTP/1.1\r\n")
}

fn push_field(out: &mut Bytes, name: &str, value: &str) -> Result<(), Memory>
    ensures { OnOk result (out.new ≡ out.old ++ print_field (field name.now value.now)) }
{
    out.extend(name.as_bytes())?;
    out.extend(b": ")?;
    out.extend(value.as_bytes())?;
    out.extend(b"\r\n")
}

fn push_request_body(alloc: Global, out: &mut Bytes, verb: Verb, length: u64) -> Result<(), Memory>
    ensures { OnOk result (out.new ≡ out.old
        ++ flat_map print_field (request_body_fields verb length)) }
{
    match verb {
        Verb::Get => Ok(()),
        Verb::Put => {
            push_body(alloc, out, JSON_TYPE, length)?;
            Ok(())
        }
        Verb::Post => {
            push_body(alloc, out, STREAM_TYPE, length)?;
            Ok(())
        }
    }
}

// The type and the length of a body.
fn push_body(alloc: Global, out: &mut Bytes, kind: &str, length: u64) -> Result<(), Memory>
    ensures { OnOk result (out.new ≡ out.old ++ print_field (type_field kind.now)
        ++ print_field (length_field length)) }
{
    let number = format!(in alloc; "{length}")?;
    push_field(out, "Content-Type", kind)?;
    push_field(out, "Content-Length", number.as_str())?;
    Ok(())
}

/// The head of a reply. Its body is a stream of documents, or a small JSON object.
#[tactic(auto, unfolding(httparse::specs::Grammar::print_response))]
pub fn write_reply(alloc: Global, head: &ReplyHead, stream: bool) -> Result<Bytes, Memory>
    requires body { head.now.body ≤ GREATEST_COUNT }
    requires code { IsStatusCode head.now.status }
    requires phrase { IsSome (reason_phrase head.now.status) }
    ensures { IfOk result (λ bytes. bytes ≡ print_response (reply_written head.now stream)) }
{
    let mut out = Bytes::new(alloc);
    push_status(alloc, &mut out, head.status)?;
    push_body(alloc, &mut out, type_of(stream), head.body)?;
    push_field(&mut out, "Connection", "close")?;
    out.extend(b"\r\n")?;
    Ok(out)
}

fn type_of(stream: bool) -> &'static str
    ensures { result.now ≡ type_of stream }
{
    if stream { STREAM_TYPE } else { JSON_TYPE }
}

// The line `HTTP/1.1 STATUS PHRASE`.
fn push_status(alloc: Global, out: &mut Bytes, status: u16) -> Result<(), Memory>
    requires code { IsStatusCode status }
    requires phrase { IsSome (reason_phrase status) }
    ensures { OnOk result (out.new ≡ out.old ++ print_version 1 ++ (32 ∷ decimal status)
        ++ (32 ∷ unwrap_or (reason_phrase status) []) ++ 13 ∷ 10 ∷ []) }
{
    let number = format!(in alloc; "{status}")?;
    out.extend(b"HTTP/1.1 ")?;
    out.extend(number.as_bytes())?;
    out.extend(b" ")?;
    out.extend(phrase_of(status).as_bytes())?;
    out.extend(b"\r\n")
}

fn phrase_of(status: u16) -> &'static str
    requires code { IsStatusCode status }
    requires phrase { IsSome (reason_phrase status) }
    ensures { result.now ≡ unwrap_or (reason_phrase status) [] }
{
    match StatusCode::from_u16(status) {
        Ok(code) => code.canonical_reason().unwrap_or(""),
        Err(_) => "",
    }
}
