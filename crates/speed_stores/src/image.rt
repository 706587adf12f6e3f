//! The image of a store, read plainly: after a header its entries stand one after the other, each a
//! gate, a length in four bytes, and a body.

// The header: the format and three counts, the two names after their lengths, and the limit.
const HEADER_BYTES: usize = 8 + (2 + 5) + (2 + 34) + 8;

/// What stands after the header.
pub fn behind_header(image: &[u8]) -> &[u8] {
    image.get(HEADER_BYTES..).unwrap_or(b"")
}

/// The length and the body of the first entry, and what stands after it, if its gate is open.
pub fn first_entry(entries: &[u8]) -> Option<(&[u8], &[u8])> {
    let [1, rest @ ..] = entries else {
        return None;
    };
    let [a, b, c, d, ..] = rest else {
        return None;
    };
    let length = (u32::from_be_bytes([*a, *b, *c, *d]) as usize).saturating_add(4);
    if length > rest.len() {
        return None;
    }
    Some(rest.split_at(length))
}

/// The id of the document, if the entry is that of a revision.
pub fn id_in(entry: &[u8]) -> Option<&str> {
    let [_, _, _, _, 1, high, low, rest @ ..] = entry else {
        return None;
    };
    let id = rest.get(..usize::from(u16::from_be_bytes([*high, *low])))?;
    str::from_utf8(id).ok()
}
