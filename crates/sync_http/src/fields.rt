//! What the header fields of a message say.
ghost use Rattle.std.specs.Prelude.{◌≡◌, ◌+◌, ◌≤◌, length, map, All, MatchOption, false};
ghost use Rattle.std.specs.Str.{str_eq_ignore_ascii_case};
ghost use Rattle.std.specs.List.{list_all};
ghost use Rattle.std.specs.Char.{is_ascii_digit};
ghost use Rattle.std.specs.Str.Parse.{digits_value};
ghost use Rattle.httparse.specs.Spans.{IsHeaderWithin, header_bytes, span_bytes};
ghost use Rattle.sync_http.specs.Fields.{content_length, is_encoded, is_length, is_numeral};
ghost use Rattle.sync_http.specs.Fields.{length_of, number_in, values_named};
ghost use Rattle.sync_http.specs.inner.Occurrence.{AreFound, one_more};

use httparse::spans::{HeaderSpan, Span};
use std::str;
use u1_base::limits::GREATEST_COUNT;

// As many digits as `GREATEST_COUNT` has.
const MOST_DIGITS: usize = 19;

/// The fields of one name: where the value of a single one lies.
#[derive(Clone, Copy, PartialEq, Eq)]
pub enum Occurrence {
    Missing,
    Once(Span),
    Often,
}

/// The number that Content-Length says. The inner None is a missing field; the outer one a field
/// that stands twice or is no number.
pub(crate) fn content_length(bytes: &[u8], headers: &[HeaderSpan]) -> Option<Option<u64>>
    requires { All (IsHeaderWithin (length bytes.now)) headers.now }
    ensures { result ≡ content_length (map (header_bytes bytes.now) headers.now) }
{
    match find_named(bytes, headers, b"Content-Length") {
        Occurrence::Missing => Some(None),
        Occurrence::Once(value) => match number_of(value.of(bytes)) {
            Some(number) => Some(Some(number)),
            None => None,
        },
        Occurrence::Often => None,
    }
}

/// Whether a Transfer-Encoding stands.
pub(crate) fn is_encoded(bytes: &[u8], headers: &[HeaderSpan]) -> bool
    requires { All (IsHeaderWithin (length bytes.now)) headers.now }
    ensures { result ≡ is_encoded (map (header_bytes bytes.now) headers.now) }
{
    match find_named(bytes, headers, b"Transfer-Encoding") {
        Occurrence::Missing => false,
        Occurrence::Once(_) => true,
        Occurrence::Often => true,
    }
}

fn find_named(bytes: &[u8], headers: &[HeaderSpan], name: &[u8]) -> Occurrence
    requires { All (IsHeaderWithin (length bytes.now)) headers.now }
    ensures { AreFound bytes.now
        (values_named name.now (map (header_bytes bytes.now) headers.now)) result }
{
    let mut found = Occurrence::Missing;
    for header in headers {
        if is_named(bytes, *header, name) {
            found = one_more(found, header.value);
        }
    }
    found
}

fn one_more(found: Occurrence, value: Span) -> Occurrence
    ensures { result ≡ one_more found value }
{
    match found {
        Occurrence::Missing => Occurrence::Once(value),
        Occurrence::Once(_) => Occurrence::Often,
        Occurrence::Often => Occurrence::Often,
    }
}

fn is_named(bytes: &[u8], header: HeaderSpan, name: &[u8]) -> bool
    requires { IsHeaderWithin (length bytes.now) header }
    ensures { result ≡ str_eq_ignore_ascii_case (span_bytes bytes.now header.name) name.now }
{
    header.name.of(bytes).eq_ignore_ascii_case(name)
}

fn number_of(text: &[u8]) -> Option<u64>
    ensures { result ≡ number_in text.now }
{
    if !is_numeral(text) {
        return None;
    }
    let Ok(digits) = str::from_utf8(text) else {
        return None;
    };
    match digits.parse::<u64>() {
        Ok(number) => {
            if number <= GREATEST_COUNT {
                Some(number)
            } else {
                None
            }
        }
        Err(_) => None,
    }
}

fn is_numeral(text: &[u8]) -> bool
    ensures { result ≡ is_numeral text.now }
{
    !text.is_empty() && text.len() <= MOST_DIGITS && all_digits(text)
}

fn all_digits(text: &[u8]) -> bool
    ensures { result ≡ list_all is_ascii_digit text.now }
{
    text.iter().all(|byte| byte.is_ascii_digit())
}
