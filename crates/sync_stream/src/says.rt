//! What one whole line says at its place.
ghost use Rattle.std.specs.Prelude.{◌≡◌, [], ◌∷◌, IfOk};
ghost use Rattle.std.specs.Str.{bytes_eq};
ghost use Rattle.sync_stream.specs.Says.{is_blank, object_part, says, trim_end, trim_start};

use crate::HeadKind;
use crate::line::{Line, Next, Passed};
use crate::objects::{doc_in, head_in};
use crate::scratches::Scratches;
use std::alloc::Global;
use u1_base::Memory;

/// What the line says, and which line comes after it; None if it is not as it must be at its place.
#[tactic(auto, unfolding(crate::specs::Says::says))]
pub(crate) fn says(
    alloc: Global,
    scratch: &mut Scratches,
    kind: HeadKind,
    place: Next,
    line: &[u8],
) -> Result<Option<Passed>, Memory>
    ensures { IfOk result (λ passed. passed ≡ says kind place line.now) }
{
    match place {
        Next::Opening => Ok(if is_mark(line, b'[') {
            Some(Passed {
                line: None,
                place: Next::Heading,
            })
        } else {
            None
        }),
        Next::Heading => {
            let (bytes, comma) = object_part(line);
            match head_in(alloc, kind, bytes)? {
                Some(head) => Ok(Some(Passed {
                    line: Some(Line::Head(head)),
                    place: Next::After(comma),
                })),
                None => Ok(None),
            }
        }
        Next::After(true) => {
            let (bytes, comma) = object_part(line);
            match doc_in(alloc, scratch, bytes)? {
                Some(doc) => Ok(Some(Passed {
                    line: Some(Line::Doc(doc)),
                    place: Next::After(comma),
                })),
                None => Ok(None),
            }
        }
        Next::After(false) => Ok(if is_mark(line, b']') {
            Some(Passed {
                line: Some(Line::End),
                place: Next::Closed,
            })
        } else {
            None
        }),
        Next::Closed => Ok(None),
    }
}

// The object of a line, and whether a comma stands after it.
fn object_part(line: &[u8]) -> (&[u8], bool)
    ensures { (result.0.now, result.1) ≡ object_part line.now }
{
    let line = trim_end(line);
    let len = line.len();
    if len > 0 && line[len - 1] == b',' {
        (&line[..len - 1], true)
    } else {
        (line, false)
    }
}

// Whether this byte is all that the line has but blanks.
fn is_mark(line: &[u8], mark: u8) -> bool
    ensures { result ≡ bytes_eq (trim_start (trim_end line.now)) (mark ∷ []) }
{
    let line = trim_start(trim_end(line));
    line.len() == 1 && line[0] == mark
}

fn is_blank(byte: u8) -> bool
    ensures { result ≡ is_blank byte }
{
    byte == b' ' || byte == b'\t'
}

fn trim_start(bytes: &[u8]) -> &[u8]
    ensures { result.now ≡ trim_start bytes.now }
{
    let mut start = 0;
    while start < bytes.len() && is_blank(bytes[start]) {
        start += 1;
    }
    &bytes[start..]
}

fn trim_end(bytes: &[u8]) -> &[u8]
    ensures { result.now ≡ trim_end bytes.now }
{
    let mut end = bytes.len();
    while end > 0 && is_blank(bytes[end - 1]) {
        end -= 1;
    }
    &bytes[..end]
}
