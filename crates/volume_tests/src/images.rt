//! The images of the tests, of the database `db` at the replica `a`.

/// The empty image with the greatest limit: 24 bytes.
pub(crate) const EMPTY: &[u8] = b"U1DBVOL\x02\0\x02db\0\x01a\0\0\x01\0\0\0\0\0\0";

/// The image in which `{"a":"x","b":1}` was created as `d1`: 110 bytes.
pub(crate) const CREATED: &[u8] =
    b"U1DBVOL\x02\0\x02db\0\x01a\0\0\x01\0\0\0\0\0\x01\0\0\0\x51\x01\0\x02d1\x01\0\0\0\0\0\0\0\0\0\
      \0\0\x01\0\0\0\0\0\x01\x01\0\0\0\x0f{\"a\":\"x\",\"b\":1}\0\x22T-a12aa9bff3485ffcbd67876eea76\
      a865\0\0";

/// The empty image in format 1.
pub(crate) const EMPTY_FIRST: &[u8] = b"U1DBVOL\x01\0\x02db\0\x01a\0\0\x01\0\0\0\0\0\0";

/// The image of the document in format 1: 102 bytes.
pub(crate) const CREATED_FIRST: &[u8] =
    b"U1DBVOL\x01\0\x02db\0\x01a\0\0\x01\0\0\0\0\0\x01\0\0\0\x49\x01\0\x02d1\0\x03a:1\0\0\0\0\0\x01\
      \x01\0\0\0\x0f{\"a\":\"x\",\"b\":1}\0\x22T-a12aa9bff3485ffcbd67876eea76a865\0\0";

/// Format 1, where a gate is closed before what looks like a body.
pub(crate) const CLOSED_FIRST: &[u8] =
    b"U1DBVOL\x01\0\x02db\0\x01a\0\0\x01\0\0\0\0\0\x02\0\0\0\x49\x01\0\x02d1";

/// The document was created and then replaced by `{}`: 196 bytes.
pub(crate) const REPLACED: &[u8] =
    b"U1DBVOL\x02\0\x02db\0\x01a\0\0\x01\0\0\0\0\0\x01\0\0\0\x51\x01\0\x02d1\x01\0\0\0\0\0\0\0\0\0\
      \0\0\x01\0\0\0\0\0\x01\x01\0\0\0\x0f{\"a\":\"x\",\"b\":1}\0\x22T-a12aa9bff3485ffcbd67876eea76\
      a865\0\x01\0\0\0\x51\x01\0\x02d1\x01\0\0\0\0\0\0\0\0\0\0\0\x02\0\0\0\0\x01\x01\0\0\0\0\0\0\0\
      \0\0\0\0\x01\x01\x01\0\0\0\x02{}\0\x22T-b12aa9bff3485ffcbd67876eea76a865\0\0";

/// What a compaction leaves of it. Of the first revision only its place in the log is left: 157
/// bytes.
pub(crate) const COMPACTED: &[u8] =
    b"U1DBVOL\x02\0\x02db\0\x01a\0\0\x01\0\0\0\0\0\x01\0\0\0\x2a\x02\0\x02d1\0\x22T-a12aa9bff3485ff\
      cbd67876eea76a865\0\x01\0\0\0\x51\x01\0\x02d1\x01\0\0\0\0\0\0\0\0\0\0\0\x02\0\0\0\0\x01\x01\0\
      \0\0\0\0\0\0\0\0\0\0\x01\x01\x01\0\0\0\x02{}\0\x22T-b12aa9bff3485ffcbd67876eea76a865\0\0";

/// One entry of b was taken, whose place a knows then, and then a second one: the first body gives
/// b the number 1, and the second one names it by its number alone. 148 and 269 bytes.
pub(crate) const TAKEN: &[u8] = b"U1DBVOL\x02\0\x02db\0\x01a\0\0\x01\0\0\0\0\0\
      \x01\0\0\0\x77\x01\0\x02d1\x01\0\0\0\x01\0\x01b\0\0\0\0\0\0\0\x01\x03\0\0\0\0\x01\x01\0\0\0\
      \x02{}\0\x22T-a12aa9bff3485ffcbd67876eea76a865\x01\0\0\0\x01\0\0\0\0\0\0\0\x01\0\x22T-a12aa9b\
      ff3485ffcbd67876eea76a865\0";

pub(crate) const TAKEN_TWO: &[u8] = b"U1DBVOL\x02\0\x02db\0\x01a\0\0\x01\0\0\0\0\0\
      \x01\0\0\0\x77\x01\0\x02d1\x01\0\0\0\x01\0\x01b\0\0\0\0\0\0\0\x01\x03\0\0\0\0\x01\x01\0\0\0\
      \x02{}\0\x22T-a12aa9bff3485ffcbd67876eea76a865\x01\0\0\0\x01\0\0\0\0\0\0\0\x01\0\x22T-a12aa9b\
      ff3485ffcbd67876eea76a865\
      \x01\0\0\0\x74\x01\0\x02d2\x01\0\0\0\x01\0\0\0\0\0\0\0\x01\x03\0\0\0\0\x01\x01\0\0\0\
      \x02{}\0\x22T-98057cb70a845067a81e0635ab0cbc89\x01\0\0\0\x01\0\0\0\0\0\0\0\x02\0\x22T-98057cb\
      70a845067a81e0635ab0cbc89\0";

/// A revision of b is accepted with the move of a place that b knows, and the known place of b
/// moves to its second entry. The first body gives b its number: 170 bytes.
pub(crate) const NUMBERED: &[u8] = b"U1DBVOL\x02\0\x02db\0\x01a\0\0\x01\0\0\0\0\0\
      \x01\0\0\0\x77\x01\0\x02d1\x01\0\0\0\x01\0\x01b\0\0\0\0\0\0\0\x01\x03\0\0\0\0\x01\x01\0\0\0\
      \x02{}\0\x22T-a12aa9bff3485ffcbd67876eea76a865\x02\0\0\0\x01\0\0\0\0\0\0\0\x01\0\x22T-a12aa9b\
      ff3485ffcbd67876eea76a865\x01\0\0\0\x11\x03\x01\0\0\0\x01\0\0\0\0\0\0\0\x02\0\x01T\0";

/// The same in format 1, where the uid stands in each body as its text.
pub(crate) const NUMBERED_FIRST: &[u8] =
    b"U1DBVOL\x01\0\x02db\0\x01a\0\0\x01\0\0\0\0\0\x01\0\0\0\x6b\x01\0\x02d1\0\x03b:1\x03\0\0\0\0\
      \x01\x01\0\0\0\x02{}\0\x22T-a12aa9bff3485ffcbd67876eea76a865\x02\0\x01b\0\0\0\0\0\0\0\x01\0\
      \x22T-a12aa9bff3485ffcbd67876eea76a865\x01\0\0\0\x10\x03\x01\0\x01b\0\0\0\0\0\0\0\x02\0\x01T\
      \0";

/// The known place of b moves before that too, so another body gives b its number: 192 bytes. Of
/// the two moves of the known place a compaction leaves the last one.
pub(crate) const NUMBERED_BEFORE: &[u8] =
    b"U1DBVOL\x02\0\x02db\0\x01a\0\0\x01\0\0\0\0\0\x01\0\0\0\x14\x03\x01\0\0\0\x01\0\x01b\0\0\0\0\0\
      \0\0\x01\0\x01S\x01\0\0\0\x74\x01\0\x02d1\x01\0\0\0\x01\0\0\0\0\0\0\0\x01\x03\0\0\0\0\x01\x01\
      \0\0\0\x02{}\0\x22T-a12aa9bff3485ffcbd67876eea76a865\x02\0\0\0\x01\0\0\0\0\0\0\0\x01\0\x22T-a\
      12aa9bff3485ffcbd67876eea76a865\x01\0\0\0\x11\x03\x01\0\0\0\x01\0\0\0\0\0\0\0\x02\0\x01T\0";

/// An image with each kind of body: 216 bytes. The first body names two replicas and a parent, and
/// moves a position. The second is of another document, and has no content.
pub(crate) const EACH_KIND: &[u8] = b"U1DBVOL\x02\0\x02db\0\x01a\0\0\x01\0\0\0\0\0\
    \x01\0\0\0\x4d\x01\0\x01d\x02\0\0\0\0\0\0\0\0\0\0\0\x01\0\0\0\x01\0\x01b\0\0\0\0\0\0\0\x01\x03\
    \0\0\0\x01\x01\0\0\0\0\0\0\0\0\0\0\0\x01\x01\x01\0\0\0\x02{}\0\x01T\x02\0\0\0\x01\
    \0\0\0\0\0\0\0\x01\0\x01T\
    \x01\0\0\0\x1c\x01\0\x01e\x01\0\0\0\0\0\0\0\0\0\0\0\x02\0\0\0\0\0\0\0\0\x01U\0\
    \x01\0\0\0\x16\x02\0\x01d\0\x01V\x01\0\0\0\x01\0\0\0\0\0\0\0\0\0\0\
    \x01\0\0\0\x14\x03\x01\0\0\0\x02\0\x01c\0\0\0\0\0\0\0\x02\0\x01T\
    \x01\0\0\0\x0b\x04\0\x01i\x02\0\x01a\0\x01b\
    \x01\0\0\0\x04\x05\0\x01i\
    \0";

/// The same in format 1: 175 bytes.
pub(crate) const EACH_KIND_FIRST: &[u8] = b"U1DBVOL\x01\0\x02db\0\x01a\0\0\x01\0\0\0\0\0\
    \x01\0\0\0\x31\x01\0\x01d\0\x07a:1|b:1\x03\0\0\0\x01\0\x03a:1\x01\x01\0\0\0\x02{}\0\x01T\
    \x02\0\x01b\0\0\0\0\0\0\0\x01\0\x01T\
    \x01\0\0\0\x14\x01\0\x01e\0\x03a:2\0\0\0\0\0\0\0\0\x01U\0\
    \x01\0\0\0\x15\x02\0\x01d\0\x01V\x01\0\x01b\0\0\0\0\0\0\0\0\0\0\
    \x01\0\0\0\x10\x03\x01\0\x01c\0\0\0\0\0\0\0\x02\0\x01T\
    \x01\0\0\0\x0b\x04\0\x01i\x02\0\x01a\0\x01b\
    \x01\0\0\0\x04\x05\0\x01i\
    \0";

/// What a compaction leaves of it: the index that was deleted is gone, and the only revision of the
/// second document is marked current. 191 bytes.
pub(crate) const EACH_KIND_COMPACTED: &[u8] = b"U1DBVOL\x02\0\x02db\0\x01a\0\0\x01\0\0\0\0\0\
    \x01\0\0\0\x4d\x01\0\x01d\x02\0\0\0\0\0\0\0\0\0\0\0\x01\0\0\0\x01\0\x01b\0\0\0\0\0\0\0\x01\x03\
    \0\0\0\x01\x01\0\0\0\0\0\0\0\0\0\0\0\x01\x01\x01\0\0\0\x02{}\0\x01T\x02\0\0\0\x01\
    \0\0\0\0\0\0\0\x01\0\x01T\
    \x01\0\0\0\x1c\x01\0\x01e\x01\0\0\0\0\0\0\0\0\0\0\0\x02\0\0\0\0\0\x01\0\0\x01U\0\
    \x01\0\0\0\x16\x02\0\x01d\0\x01V\x01\0\0\0\x01\0\0\0\0\0\0\0\0\0\0\
    \x01\0\0\0\x14\x03\x01\0\0\0\x02\0\x01c\0\0\0\0\0\0\0\x02\0\x01T\
    \0";

/// Of a document `a:1` is accepted and marked current, then `b:1`, and then `a:2`, which covers
/// `a:1`. The last two are not marked. 126 bytes.
pub(crate) const MARKED: &[u8] = b"U1DBVOL\x02\0\x02db\0\x01a\0\0\x01\0\0\0\0\0\
    \x01\0\0\0\x1c\x01\0\x01d\x01\0\0\0\0\0\0\0\0\0\0\0\x01\x03\0\0\0\0\x01\0\0\x01T\0\
    \x01\0\0\0\x1f\x01\0\x01d\x01\0\0\0\x01\0\x01b\0\0\0\0\0\0\0\x01\x03\0\0\0\0\0\0\0\x01T\0\
    \x01\0\0\0\x1c\x01\0\x01d\x01\0\0\0\0\0\0\0\0\0\0\0\x02\x03\0\0\0\0\0\0\0\x01T\0\
    \0";

/// The third one is marked anew, and of the first one its place in the log is left: 106 bytes.
pub(crate) const MARKED_ANEW: &[u8] = b"U1DBVOL\x02\0\x02db\0\x01a\0\0\x01\0\0\0\0\0\
    \x01\0\0\0\x08\x02\0\x01d\0\x01T\0\
    \x01\0\0\0\x1f\x01\0\x01d\x01\0\0\0\x01\0\x01b\0\0\0\0\0\0\0\x01\x03\0\0\0\0\0\0\0\x01T\0\
    \x01\0\0\0\x1c\x01\0\x01d\x01\0\0\0\0\0\0\0\0\0\0\0\x02\x03\0\0\0\0\x01\0\0\x01T\0\
    \0";
