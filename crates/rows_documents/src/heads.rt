//! `head`: the heads of requests and replies, and addresses.
//!
//! - `request BYTES`, `reply BYTES`: what the first bytes of a connection say.
//! - `fronts request BYTES`, `fronts reply BYTES`: of how many shorter fronts more is awaited.
//! - `ask METHOD LENGTH`, `answer STATUS LENGTH`: the head that is written, and what it says; the
//!   request goes from `a` to the database `db` at `h:8080`, and a reply of status 200 is a stream.
//! - `address TEXT`: its host, port and database.
ghost use Rattle.std.specs.Prelude.{◌≡◌, ◌≤◌};
ghost use Rattle.u1_base.specs.declared.limits.TheConstants.{GREATEST_COUNT};
ghost use Rattle.sync_http.specs.declared.heads.Verb.TheVariants.{Get};

use crate::meant::{say_bad, say_text_line};
use rows::{Said, number_of};
use std::alloc::Global;
use sync_http::{
    Address, Heard, ReplyHead, RequestHead, Verb, read_address, read_reply, read_request,
    write_reply, write_request,
};
use u1_base::limits::GREATEST_COUNT;
use u1_base::{Bytes, ReplicaUid};

pub(crate) fn answer(alloc: Global, call: &str, meant: &[u8], said: &mut Said) -> Option<()> {
    match call {
        "request" => request(alloc, meant, said),
        "reply" => reply(alloc, meant, said),
        _ => written(alloc, call, str::from_utf8(meant).ok()?, said),
    }
}

fn written(alloc: Global, call: &str, row: &str, said: &mut Said) -> Option<()> {
    match call {
        "address" => address(alloc, row, said),
        "fronts" => fronts(alloc, row, said),
        "ask" => ask(alloc, row, said),
        "answer" => answer_head(alloc, row, said),
        _ => None,
    }
}

fn request(alloc: Global, bytes: &[u8], said: &mut Said) -> Option<()> {
    match read_request(alloc, bytes) {
        Ok(Heard::NotYet) => said.line("more").ok(),
        Ok(Heard::Head { head, length }) => {
            let told = say_request(&head, length, said);
            drop(head);
            told
        }
        Err(fault) => say_bad(alloc, &fault, said),
    }
}

fn say_request(head: &RequestHead, length: u64, said: &mut Said) -> Option<()> {
    said.word(match head.verb {
        Verb::Get => "get",
        Verb::Put => "put",
        Verb::Post => "post",
    })
    .ok()?;
    said.word(head.db.as_str()).ok()?;
    said.word(head.source.as_str()).ok()?;
    said.number(head.body).ok()?;
    say_length(length, said)
}

fn say_length(length: u64, said: &mut Said) -> Option<()> {
    said.word("in").ok()?;
    said.number(length).ok()?;
    said.end().ok()
}

fn reply(alloc: Global, bytes: &[u8], said: &mut Said) -> Option<()> {
    match read_reply(bytes) {
        Ok(Heard::NotYet) => said.line("more").ok(),
        Ok(Heard::Head { head, length }) => {
            said.number(u64::from(head.status)).ok()?;
            said.number(head.body).ok()?;
            say_length(length, said)
        }
        Err(fault) => say_bad(alloc, &fault, said),
    }
}

fn fronts(alloc: Global, row: &str, said: &mut Said) -> Option<()> {
    let (kind, head) = row.split_once(' ')?;
    let head = head.as_bytes();
    let mut count = 0u64;
    for length in 0..head.len() {
        let (front, _) = head.split_at(length);
        if awaits(alloc, kind, front) {
            count = count.saturating_add(1);
        }
    }
    said.number(count).ok()?;
    said.end().ok()
}

fn awaits(alloc: Global, kind: &str, front: &[u8]) -> bool {
    if kind == "reply" {
        matches!(&read_reply(front), Ok(Heard::NotYet))
    } else {
        matches!(&read_request(alloc, front), Ok(Heard::NotYet))
    }
}

fn ask(alloc: Global, row: &str, said: &mut Said) -> Option<()> {
    let (method, length) = row.split_once(' ')?;
    let body = number_of(length)?;
    if body > GREATEST_COUNT {
        return None;
    }
    let bytes = match method {
        "GET" => request_of(alloc, Verb::Get, 0)?,
        "PUT" => request_of(alloc, Verb::Put, body)?,
        "POST" => request_of(alloc, Verb::Post, body)?,
        _ => return None,
    };
    say_text_line(alloc, bytes.as_slice(), said)?;
    request(alloc, bytes.as_slice(), said)
}

/// The database to which requests go.
pub(crate) fn target(alloc: Global) -> Option<Address> {
    read_address(alloc, "http://h:8080/db").ok()
}

fn request_of(alloc: Global, verb: Verb, body: u64) -> Option<Bytes>
    requires short { body ≤ GREATEST_COUNT }
    requires none { verb ≡ Get → body ≡ 0 }
{
    let to = target(alloc)?;
    let source = ReplicaUid::read(alloc, "a").ok()?;
    let head = RequestHead {
        verb,
        db: to.db.copy().ok()?,
        source,
        body,
    };
    write_request(alloc, &to, &head).ok()
}

fn answer_head(alloc: Global, row: &str, said: &mut Said) -> Option<()> {
    let (status, length) = row.split_once(' ')?;
    let body = number_of(length)?;
    if body > GREATEST_COUNT {
        return None;
    }
    let bytes = match status {
        "200" => write_reply(alloc, &ReplyHead { status: 200, body }, true).ok()?,
        "507" => write_reply(alloc, &ReplyHead { status: 507, body }, false).ok()?,
        _ => return None,
    };
    say_text_line(alloc, bytes.as_slice(), said)?;
    reply(alloc, bytes.as_slice(), said)
}

fn address(alloc: Global, text: &str, said: &mut Said) -> Option<()> {
    match read_address(alloc, text) {
        Ok(address) => say_address(&address, said),
        Err(fault) => say_bad(alloc, &fault, said),
    }
}

fn say_address(address: &Address, said: &mut Said) -> Option<()> {
    said.word(address.host.as_str()).ok()?;
    said.number(u64::from(address.port)).ok()?;
    said.line(address.db.as_str()).ok()
}
