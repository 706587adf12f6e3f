//! The bytes of an image that have names, and how many bytes its fields take.

/// The letters with which every image begins. The byte of its format stands after them.
pub(crate) const LETTERS: &str = "U1DBVOL";

/// The first of them.
pub(crate) const FIRST_BYTE: u8 = b'U';

/// The format in whose bodies each uid stands as its text. It is read, and not written.
pub const FIRST_FORMAT: u8 = 1;

/// The format that is written: a uid stands as its number, and as its text where it gets that.
pub const SECOND_FORMAT: u8 = 2;

/// The gate of an entry that counts. Every other gate is closed.
pub(crate) const OPEN_GATE: u8 = 1;

/// The closed gate that is written.
pub(crate) const CLOSED_GATE: u8 = 0;

/// The bytes of the letters.
pub(crate) const LETTERS_BYTES: usize = LETTERS.len();

/// The bytes of the first field: the letters, and the format.
pub(crate) const FIRST_FIELD_BYTES: usize = LETTERS_BYTES + 1;

/// The bytes of a text's length.
pub(crate) const TEXT_LENGTH_BYTES: usize = 2;

/// The bytes of the limit.
pub(crate) const LIMIT_BYTES: usize = 8;

/// The bytes of a body's length.
pub(crate) const BODY_LENGTH_BYTES: usize = 4;

/// The bytes of an entry before its body: the gate, and the body's length.
pub(crate) const BEFORE_BODY_BYTES: usize = 1 + BODY_LENGTH_BYTES;
