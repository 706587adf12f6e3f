//! Worked images, spelled by hand from the rules of entries: transaction ids are those of a seed
//! whose bits are all 0, as Python's `uuid` makes them.
use std::alloc::Global;
use u1_base::{Bytes, Memory};

/// An image in pieces: the header, entries and the closed gate.
pub type Pieces = &'static [&'static [u8]];

// The image of database `db`, replica `a` and the greatest limit, up to its first gate.
const HEADER: &[u8] = b"U1DBVOL\x02\0\x02db\0\x01a\0\0\x01\0\0\0\0\0";
// The entry of `create d1` with the content `{"a":"x","b":1}`.
const CREATED: &[u8] =
    b"\x01\0\0\0Q\x01\0\x02d1\x01\0\0\0\0\0\0\0\0\0\0\0\x01\0\0\0\0\0\x01\x01\0\0\0\x0f{\"a\":\
    \"x\",\"b\":1}\0\"T-a12aa9bff3485ffcbd67876eea76a865\0";
// `create d2` with `{"t":"b"}`.
const SECOND: &[u8] =
    b"\x01\0\0\0K\x01\0\x02d2\x01\0\0\0\0\0\0\0\0\0\0\0\x01\0\0\0\0\0\x01\x01\0\0\0\x09{\"t\":\
    \"b\"}\0\"T-98057cb70a845067a81e0635ab0cbc89\0";
// `create d3` with `{"v":"a"}`.
const THIRD: &[u8] =
    b"\x01\0\0\0K\x01\0\x02d3\x01\0\0\0\0\0\0\0\0\0\0\0\x01\0\0\0\0\0\x01\x01\0\0\0\x09{\"v\":\
    \"a\"}\0\"T-4a2f05bda87d5e5da1aec07f076e0982\0";
// `d3` at `b:1` with `{"v":"b"}`, as the first entry of `b` is received: a conflict.
const RECEIVED: &[u8] =
    b"\x01\0\0\0~\x01\0\x02d3\x01\0\0\0\x01\0\x01b\0\0\0\0\0\0\0\x01\x03\0\0\0\0\x01\x01\0\0\0\
    \x09{\"v\":\"b\"}\0\"T-bab20aaca9315ef39202d7e5eb9bdc33\x01\0\0\0\x01\0\0\0\0\0\0\0\x01\
    \0\"T-a12aa9bff3485ffcbd67876eea76a865";
// `index-create i t`.
const INDEX: &[u8] = b"\x01\0\0\0\x08\x04\0\x01i\x01\0\x01t";
// `put d2 a:1` with `{"t":"bc"}`, after these.
const CHANGED: &[u8] =
    b"\x01\0\0\0Y\x01\0\x02d2\x01\0\0\0\0\0\0\0\0\0\0\0\x02\0\0\0\0\x01\x01\0\0\0\0\0\0\0\0\0\0\0\
    \x01\x01\x01\0\0\0\x0a{\"t\":\"bc\"}\0\"T-5a58563efd525018a50d31c0d3f37e93\0";
// `d2` at `a:1|b:1` with `{"t":"bc"}`, as the first entry of `c` is received, after these.
const NEWER: &[u8] =
    b"\x01\0\0\0l\x01\0\x02d2\x02\0\0\0\0\0\0\0\0\0\0\0\x01\0\0\0\x01\0\0\0\0\0\0\0\x01\x03\0\0\0\0\
    \x01\x01\0\0\0\x0a{\"t\":\"bc\"}\0\"T-5a58563efd525018a50d31c0d3f37e93\x01\0\0\0\x02\0\x01c\
    \0\0\0\0\0\0\0\x01\0\x03T-1";

const CLOSED_GATE: &[u8] = b"\0";

/// A store with three documents, of which one is in conflict, and an index. Its log has four
/// entries, and no peer has told it of a place.
pub const PREPARED: Pieces = &[HEADER, CREATED, SECOND, THIRD, RECEIVED, INDEX, CLOSED_GATE];

/// The same, in which `d2` was put.
pub const PUT: Pieces = &[
    HEADER,
    CREATED,
    SECOND,
    THIRD,
    RECEIVED,
    INDEX,
    CHANGED,
    CLOSED_GATE,
];

/// The same as `PREPARED`, in which `d2` was received.
pub const NEWER_RECEIVED: Pieces = &[
    HEADER,
    CREATED,
    SECOND,
    THIRD,
    RECEIVED,
    INDEX,
    NEWER,
    CLOSED_GATE,
];

/// The bytes of an image.
pub fn image_of(alloc: Global, pieces: Pieces) -> Result<Bytes, Memory> {
    let mut image = Bytes::new(alloc);
    for piece in pieces {
        image.extend(piece)?;
    }
    Ok(image)
}

/// Whether these bytes are such an image.
pub fn is_image(bytes: &[u8], pieces: Pieces) -> bool {
    let mut rest = bytes;
    for piece in pieces {
        match rest.strip_prefix(*piece) {
            Some(behind) => rest = behind,
            None => return false,
        }
    }
    rest.is_empty()
}
