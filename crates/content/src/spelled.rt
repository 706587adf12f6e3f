//! Whether a text is canonical, told in one pass that makes no tree.
//!
//! Most contents are read as they were written. Their texts need only be copied.
ghost use Rattle.std.specs.Prelude.{◌≡◌, ◌<◌, ◌++◌, ◌∷◌, IfSome, IsTrue, IsUtf8};
ghost use Rattle.std.specs.Prelude.{length, option_map};
ghost use Rattle.json.specs.Print.{quoted};
ghost use Rattle.content.specs.Plain.{comes_after as comes_behind};
ghost use Rattle.content.specs.inner.Fronts.{AreFieldsBefore, AreItemsBefore, IsNamed};
ghost use Rattle.content.specs.inner.Fronts.{IsValueBefore};
ghost use Rattle.content.specs.Spelled.{IsSpelled};

use crate::flat::{behind_flat, plain_text};
use u1_base::limits::{MOST_CONTENT_BYTES, MOST_CONTENT_DEPTH};

/// Whether the bytes are the canonical text of a content. At an escape, and at a number of more
/// than 18 digits, the answer is `false` too.
pub(crate) fn is_spelled(bytes: &[u8]) -> bool
    ensures { IsTrue result → IsSpelled bytes.now }
{
    if bytes.len() as u64 > MOST_CONTENT_BYTES {
        return false;
    }
    let [b'{', fields @ ..] = bytes else {
        return false;
    };
    match behind_fields(fields, MOST_CONTENT_DEPTH - 1) {
        Some(rest) => rest.is_empty(),
        None => false,
    }
}

// What stands behind the value, in which lists and objects nest at most so many deep.
#[cycle(spelled)]
pub(crate) fn behind_value(bytes: &[u8], levels: u64) -> Option<&[u8]>
    ensures value { IfSome result (λ rest. IsValueBefore levels bytes.now rest.now) }
    ensures shorter { IfSome result (λ rest. length rest.now < length bytes.now) }
{
    match bytes {
        [b'{', fields @ ..] if levels > 0 => behind_fields(fields, levels - 1),
        [b'[', items @ ..] if levels > 0 => behind_items(items, levels - 1),
        _ => behind_flat(bytes),
    }
}

// What stands behind the items after an opening bracket.
#[cycle(spelled)]
#[inline(never)]
fn behind_items(bytes: &[u8], levels: u64) -> Option<&[u8]>
    ensures items { IfSome result (λ rest. AreItemsBefore levels bytes.now rest.now) }
    ensures shorter { IfSome result (λ rest. length rest.now < length bytes.now) }
{
    if let [b']', rest @ ..] = bytes {
        return Some(rest);
    }
    let mut left = bytes;
    'items: loop {
        let behind = behind_value(left, levels)?;
        match behind {
            [b',', more @ ..] => left = more,
            [b']', rest @ ..] => return Some(rest),
            _ => return None,
        }
    }
}

// What stands behind the fields after an opening brace.
#[cycle(spelled)]
#[inline(never)]
fn behind_fields(bytes: &[u8], levels: u64) -> Option<&[u8]>
    ensures fields { IfSome result (λ rest. AreFieldsBefore levels bytes.now rest.now) }
    ensures shorter { IfSome result (λ rest. length rest.now < length bytes.now) }
{
    if let [b'}', rest @ ..] = bytes {
        return Some(rest);
    }
    let mut left = bytes;
    let mut last = None;
    'fields: loop {
        let (name, value) = next_name(last, left)?;
        let behind = behind_value(value, levels)?;
        match behind {
            [b',', more @ ..] => {
                left = more;
                last = Some(name);
            }
            [b'}', rest @ ..] => return Some(rest),
            _ => return None,
        }
    }
}

/// The name of a field, which comes after the last one, and what stands behind its colon.
pub(crate) fn next_name<'a>(last: Option<&[u8]>, bytes: &'a [u8]) -> Option<(&'a [u8], &'a [u8])>
    ensures named { IfSome result
        (λ r. IsNamed (option_map (λ s. s.now) last.entry) bytes.now r.0.now r.1.now) }
    ensures shorter { IfSome result (λ r. length r.1.now < length bytes.now) }
{
    let (name, value) = named(bytes)?;
    if comes_after(last, name) {
        Some((name, value))
    } else {
        None
    }
}

// The name of a field, and what stands behind its colon.
fn named(bytes: &[u8]) -> Option<(&[u8], &[u8])>
    ensures text { IfSome result (λ r. bytes.now ≡ quoted r.0.now ++ 58 ∷ r.1.now) }
    ensures utf8 { IfSome result (λ r. IsUtf8 r.0.now) }
    ensures shorter { IfSome result (λ r. length r.1.now < length bytes.now) }
{
    let text = behind_byte(bytes, b'"')?;
    let (name, rest) = plain_text(text)?;
    let value = behind_byte(rest, b':')?;
    Some((name, value))
}

// What stands behind the byte, if it is the first.
fn behind_byte(bytes: &[u8], first: u8) -> Option<&[u8]>
    ensures { IfSome result (λ rest. bytes.now ≡ first ∷ rest.now) }
{
    match bytes {
        [byte, rest @ ..] if *byte == first => Some(rest),
        _ => None,
    }
}

// Whether the name comes after the last one.
fn comes_after(last: Option<&[u8]>, name: &[u8]) -> bool
    ensures { result ≡ comes_behind (option_map (λ s. s.now) last.entry) name.now }
{
    match last {
        Some(last) => last.cmp(name).is_lt(),
        None => true,
    }
}
