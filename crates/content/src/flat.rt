//! Values that hold no others, at the front of a text: texts, whole numbers, `null`, `true` and
//! `false`.
ghost use Rattle.std.specs.Prelude.{◌≡◌, ◌<◌, ◌+◌, ◌^◌, ◌++◌, ◌∷◌, IfSome, IsUtf8, ℕ};
ghost use Rattle.std.specs.Prelude.{length, not, position};
ghost use Rattle.std.specs.Char.{is_ascii_digit};
ghost use Rattle.std.specs.Fmt.{decimal};
ghost use Rattle.json.specs.Print.{quoted};
ghost use Rattle.json.specs.Run.{is_stop};
ghost use Rattle.content.specs.inner.Fronts.{IsValueBefore};

use crate::scan::plain_end;

// Numbers of so many digits are within every limit.
const MOST_PLAIN_DIGITS: usize = 18;

/// What stands behind the value, which is no list and no object.
pub(crate) fn behind_flat(bytes: &[u8]) -> Option<&[u8]>
    ensures value { IfSome result (λ rest. IsValueBefore 0 bytes.now rest.now) }
    ensures shorter { IfSome result (λ rest. length rest.now < length bytes.now) }
{
    match bytes {
        [b'"', text @ ..] => behind_text(text),
        [b'-', digits @ ..] => behind_negative(digits),
        [b'n', ..] => behind_word(bytes, b"null"),
        [b't', ..] => behind_word(bytes, b"true"),
        [b'f', ..] => behind_word(bytes, b"false"),
        _ => behind_number(bytes),
    }
}

fn behind_text(bytes: &[u8]) -> Option<&[u8]>
    ensures value { IfSome result (λ rest. IsValueBefore 0 (34 ∷ bytes.now) rest.now) }
    ensures shorter { IfSome result (λ rest. length rest.now < length bytes.now) }
{
    let (_, rest) = plain_text(bytes)?;
    Some(rest)
}

/// The text up to its closing quote, without an escape, and what stands behind it.
pub(crate) fn plain_text(bytes: &[u8]) -> Option<(&[u8], &[u8])>
    ensures text { IfSome result (λ r. 34 ∷ bytes.now ≡ quoted r.0.now ++ r.1.now) }
    ensures utf8 { IfSome result (λ r. IsUtf8 r.0.now) }
    ensures shorter { IfSome result (λ r. length r.1.now < length bytes.now) }
{
    let end = plain_end(bytes);
    if end == bytes.len() {
        return None;
    }
    match bytes[end] {
        b'"' => Some((&bytes[..end], &bytes[end + 1..])),
        128.. => wide_text(bytes),
        _ => None,
    }
}

// The same of a text that has other bytes than those of ASCII.
#[inline(never)]
fn wide_text(bytes: &[u8]) -> Option<(&[u8], &[u8])>
    ensures text { IfSome result (λ r. 34 ∷ bytes.now ≡ quoted r.0.now ++ r.1.now) }
    ensures utf8 { IfSome result (λ r. IsUtf8 r.0.now) }
    ensures shorter { IfSome result (λ r. length r.1.now < length bytes.now) }
{
    let end = first_stop(bytes)?;
    if bytes[end] != b'"' {
        return None;
    }
    let text = &bytes[..end];
    match str::from_utf8(text) {
        Ok(_) => Some((text, &bytes[end + 1..])),
        Err(_) => None,
    }
}

// The place of the first byte that a text does not have as it is.
fn first_stop(bytes: &[u8]) -> Option<usize>
    ensures { result ≡ position is_stop bytes.now }
{
    bytes.iter().position(|byte| stops(*byte))
}

fn stops(byte: u8) -> bool
    ensures { result ≡ is_stop byte }
{
    byte == b'"' || byte == b'\\' || byte < 32
}

/// What stands behind the digits of a number above zero, after its sign.
pub(crate) fn behind_negative(bytes: &[u8]) -> Option<&[u8]>
    ensures number { IfSome result
        (λ rest. (n : ℕ) × (0 < n) × (n < 10 ^ 18) × (bytes.now ≡ decimal n ++ rest.now)) }
    ensures shorter { IfSome result (λ rest. length rest.now < length bytes.now) }
{
    match bytes {
        [b'1'..=b'9', ..] => behind_number(bytes),
        _ => None,
    }
}

/// What stands behind the digits of a number.
pub(crate) fn behind_number(bytes: &[u8]) -> Option<&[u8]>
    ensures number { IfSome result
        (λ rest. (n : ℕ) × (n < 10 ^ 18) × (bytes.now ≡ decimal n ++ rest.now)) }
    ensures shorter { IfSome result (λ rest. length rest.now < length bytes.now) }
{
    let end = first_behind_digits(bytes)?;
    if end == 0 || end > MOST_PLAIN_DIGITS || bytes[0] == b'0' && end > 1 {
        return None;
    }
    Some(&bytes[end..])
}

fn first_behind_digits(bytes: &[u8]) -> Option<usize>
    ensures { result ≡ position (λ b. not (is_ascii_digit b)) bytes.now }
{
    bytes.iter().position(|byte| !byte.is_ascii_digit())
}

/// What stands behind the word, if the bytes begin with it.
pub(crate) fn behind_word<'a>(bytes: &'a [u8], word: &[u8]) -> Option<&'a [u8]>
    ensures word { IfSome result (λ rest. bytes.now ≡ word.now ++ rest.now) }
    ensures shorter { IfSome result (λ rest. length rest.now + length word.now ≡ length bytes.now) }
{
    bytes.strip_prefix(word)
}
