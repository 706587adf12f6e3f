//! The limits that several crates share, each in one place.

/// The longest content that is read, in bytes.
pub const MOST_CONTENT_BYTES: u64 = 4_194_304;

/// How deep the lists and objects of a content may be nested; the root counts as 1.
pub const MOST_CONTENT_DEPTH: u64 = 64;

/// The most entries of a clock.
pub const MOST_CLOCK_ENTRIES: usize = 64;

/// The greatest generation of a log, counter of a clock, and length of a body of HTTP.
pub const GREATEST_COUNT: u64 = 9_223_372_036_854_775_807;

/// The most texts of a key, and the most expressions of an index.
pub const MOST_KEY_TEXTS: usize = 8;

/// The longest index expression, in bytes.
pub const MOST_EXPRESSION_BYTES: usize = 512;

/// The most keys that one document has in one index.
pub const MOST_DOCUMENT_KEYS: usize = 4096;

/// The longest text that becomes a part of a key, in bytes.
pub const MOST_KEY_TEXT_BYTES: usize = 1024;

/// The longest document id, in bytes.
pub const MOST_DOCUMENT_ID_BYTES: usize = 128;

/// The longest replica uid, transaction id, index name or database name, in bytes.
pub const MOST_NAME_BYTES: usize = 64;

/// The longest head of an HTTP message, in bytes.
pub const MOST_HEAD_BYTES: usize = 16_384;

/// The most headers of an HTTP message.
pub const MOST_HEADERS: usize = 64;

/// The longest body of a message about positions, in bytes.
pub const MOST_POSITION_BODY_BYTES: u64 = 65_536;

/// The longest line of a sync stream, in bytes without its line end.
pub const MOST_LINE_BYTES: usize = 33_554_432;

/// The least limit that an image may have, in bytes.
pub const LEAST_IMAGE_LIMIT: u64 = 1024;

/// The greatest limit that an image may have, in bytes; a new one has it where none is given.
pub const GREATEST_IMAGE_LIMIT: u64 = 1_099_511_627_776;
