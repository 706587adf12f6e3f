//! Heads are read with `httparse`, in the first 16,384 bytes.
ghost use Rattle.std.specs.Prelude.{◌≡◌, ◌⊎◌, ℕ, Err, IfErr, IsUtf8, map, take};
ghost use Rattle.httparse.specs.Spans.{IsRequestWithin, IsResponseWithin, header_bytes, span_bytes};
ghost use Rattle.sync_http.specs.Heads.{body_after, reply_said, request_said, verb_in};
ghost use Rattle.sync_http.specs.Hearing.{HearsReply, HearsRequest, IsReplyFault, Said, SaysReply};
ghost use Rattle.sync_http.specs.Hearing.{SaysRequest, front, heard};
ghost use Rattle.sync_http.specs.inner.Hearing.{unfinished};
ghost use Rattle.sync_http.specs.inner.Parts.{Answers};
ghost use Rattle.sync_http.specs.declared.fault.WireFault.TheVariants.{Memory};
ghost use Rattle.sync_http.specs.declared.heads.ReplyHead.{ReplyHead as ReplyHeadValue};
ghost use Rattle.sync_http.specs.declared.heads.RequestHead.{RequestHead as RequestHeadValue};

use crate::fields::{content_length, is_encoded};
use crate::target::target_at;
use crate::{Heard, ReplyHead, RequestHead, Verb, WireFault};
use httparse::Status;
use httparse::spans::{
    EMPTY_HEADER_SPAN, HeaderSpan, RequestSpans, ResponseSpans, parse_request, parse_response,
};
use std::alloc::Global;
use u1_base::limits::{MOST_HEAD_BYTES, MOST_HEADERS};

/// Reads the head of a request from the first bytes of a connection (RFC 9112). Only the method,
/// the target, Content-Length and Transfer-Encoding matter.
pub fn read_request(alloc: Global, bytes: &[u8]) -> Result<Heard<RequestHead>, WireFault>
    ensures hears { HearsRequest bytes.now result }
    ensures whole { (said : Said RequestHeadValue) (n : ℕ) → SaysRequest bytes.now said n
        → (result ≡ heard said n) ⊎ (result ≡ Err Memory) }
{
    let front = head_in(bytes);
    let mut headers = [EMPTY_HEADER_SPAN; MOST_HEADERS];
    match parse_request(front, &mut headers) {
        Ok(Status::Complete(spans)) => {
            let said = request_at(alloc, front, &headers, spans);
            heard(said, spans.len as u64)
        }
        Ok(Status::Partial) => unfinished(bytes),
        Err(_) => Err(WireFault::BadHead),
    }
}

// What is answered to a whole head that says this.
fn heard<T>(said: Result<T, WireFault>, length: u64) -> Result<Heard<T>, WireFault>
    ensures { result ≡ heard said length }
{
    match said {
        Ok(head) => Ok(Heard::Head { head, length }),
        Err(fault) => Err(fault),
    }
}

// What is answered where more bytes may make a head.
fn unfinished<T>(bytes: &[u8]) -> Result<Heard<T>, WireFault>
    ensures { result ≡ unfinished bytes.now }
{
    if bytes.len() < MOST_HEAD_BYTES {
        Ok(Heard::NotYet)
    } else {
        Err(WireFault::TooLarge)
    }
}

// The part in which a head is looked for.
fn head_in(bytes: &[u8]) -> &[u8]
    ensures { result.now ≡ front bytes.now }
{
    &bytes[..bytes.len().min(MOST_HEAD_BYTES)]
}

// The request whose parts lie at these places.
fn request_at(
    alloc: Global,
    bytes: &[u8],
    headers: &[HeaderSpan],
    spans: RequestSpans,
) -> Result<RequestHead, WireFault>
    requires within { IsRequestWithin bytes.now headers.now spans }
    requires text { IsUtf8 (span_bytes bytes.now spans.path) }
    ensures { Answers (request_said (map (header_bytes bytes.now) (take spans.headers headers.now))
        (span_bytes bytes.now spans.path) (span_bytes bytes.now spans.method)) result }
{
    let fields = &headers[..spans.headers];
    let Some(length) = content_length(bytes, fields) else {
        return Err(WireFault::BadHead);
    };
    let Some(target) = target_at(alloc, spans.path.of(bytes))? else {
        return Err(WireFault::BadPath);
    };
    let Some(verb) = verb_at(spans.method.of(bytes)) else {
        return Err(WireFault::BadMethod);
    };
    if is_encoded(bytes, fields) {
        return Err(WireFault::Chunked);
    }
    let Some(body) = body_after(verb, length) else {
        return Err(WireFault::NoLength);
    };
    Ok(RequestHead {
        verb,
        db: target.db,
        source: target.source,
        body,
    })
}

fn verb_at(method: &[u8]) -> Option<Verb>
    ensures { result ≡ verb_in method.now }
{
    if method == b"GET".as_slice() {
        return Some(Verb::Get);
    }
    if method == b"PUT".as_slice() {
        return Some(Verb::Put);
    }
    if method == b"POST".as_slice() {
        return Some(Verb::Post);
    }
    None
}

fn body_after(verb: Verb, length: Option<u64>) -> Option<u64>
    ensures { result ≡ body_after verb length }
{
    match verb {
        Verb::Get => Some(0),
        Verb::Put => length,
        Verb::Post => length,
    }
}

/// Reads the head of a reply from the first bytes that came back. It takes no memory.
pub fn read_reply(bytes: &[u8]) -> Result<Heard<ReplyHead>, WireFault>
    ensures hears { HearsReply bytes.now result }
    ensures whole { (said : Said ReplyHeadValue) (n : ℕ) → SaysReply bytes.now said n
        → result ≡ heard said n }
    ensures kinds { IfErr result IsReplyFault }
{
    let front = head_in(bytes);
    let mut headers = [EMPTY_HEADER_SPAN; MOST_HEADERS];
    match parse_response(front, &mut headers) {
        Ok(Status::Complete(spans)) => {
            let said = reply_at(front, &headers, spans);
            heard(said, spans.len as u64)
        }
        Ok(Status::Partial) => unfinished(bytes),
        Err(_) => Err(WireFault::BadHead),
    }
}

// The reply whose parts lie at these places.
fn reply_at(
    bytes: &[u8],
    headers: &[HeaderSpan],
    spans: ResponseSpans,
) -> Result<ReplyHead, WireFault>
    requires { IsResponseWithin bytes.now headers.now spans }
    ensures says { Answers (reply_said
        (map (header_bytes bytes.now) (take spans.headers headers.now)) spans.code) result }
    ensures kinds { IfErr result IsReplyFault }
{
    let fields = &headers[..spans.headers];
    let Some(length) = content_length(bytes, fields) else {
        return Err(WireFault::BadHead);
    };
    if is_encoded(bytes, fields) {
        return Err(WireFault::Chunked);
    }
    let Some(body) = length else {
        return Err(WireFault::NoLength);
    };
    Ok(ReplyHead {
        status: spans.code,
        body,
    })
}
