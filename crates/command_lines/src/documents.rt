//! The lines of documents.
ghost use Rattle.std.specs.Prelude.{◌≡◌, ◌++◌, codes};
ghost use Rattle.command_lines.specs.Lines.{content_text, line_text};
ghost use Rattle.command_lines.specs.Puts.{Puts};
ghost use Rattle.replica_core.specs.Commands.Effects.{Conflict, Document, Made, NoDocument};

use crate::put::{PrintFault, put_all};
use conflicts::Member;
use content::Content;
use link::Sink;
use u1_base::DocId;
use vector_rev::Clock;

/// A document and the revision that was made of it: `ID REV`.
pub fn print_made<K: Sink>(out: &mut K, id: &DocId, rev: &Clock) -> Result<(), PrintFault>
    ensures { Puts (line_text (Made id.now rev.now)) (K.known out.old) (K.known out.new) result }
{
    let rev = rev.text()?;
    put_all(
        out,
        &[id.as_str().as_bytes(), b" ", rev.as_str().as_bytes(), b"\n"],
    )
}

/// A document with its current member: `ID REV MARK CONTENT`.
pub fn print_document<K: Sink>(
    out: &mut K,
    id: &DocId,
    member: &Member,
    conflicted: bool,
) -> Result<(), PrintFault>
    ensures { Puts (line_text (Document id.now member.now conflicted))
        (K.known out.old) (K.known out.new) result }
{
    let rev = member.rev.text()?;
    let content = spelled(&member.content);
    let mark = if conflicted { "conflicted" } else { "-" };
    put_document(out, id, rev.as_str(), mark, content)
}

fn put_document<K: Sink>(
    out: &mut K,
    id: &DocId,
    rev: &str,
    mark: &str,
    content: &[u8],
) -> Result<(), PrintFault>
    ensures { Puts (id.now ++
        (codes " " ++ (rev.now ++
        (codes " " ++ (mark.now ++ (codes " " ++ (content.now ++ codes "\n")))))))
        (K.known out.old) (K.known out.new) result }
{
    put_all(
        out,
        &[
            id.as_str().as_bytes(),
            b" ",
            rev.as_bytes(),
            b" ",
            mark.as_bytes(),
            b" ",
            content,
            b"\n",
        ],
    )
}

/// There is no such document: `none`.
pub fn print_no_document<K: Sink>(out: &mut K) -> Result<(), PrintFault>
    ensures { Puts (line_text NoDocument) (K.known out.old) (K.known out.new) result }
{
    put_all(out, &[b"none\n"])
}

/// A member of a document in conflict: `REV CONTENT`.
pub fn print_conflict<K: Sink>(out: &mut K, member: &Member) -> Result<(), PrintFault>
    ensures { Puts (line_text (Conflict member.now)) (K.known out.old) (K.known out.new) result }
{
    let rev = member.rev.text()?;
    let content = spelled(&member.content);
    put_all(out, &[rev.as_str().as_bytes(), b" ", content, b"\n"])
}

// The canonical text of a content, or the word for none.
fn spelled(content: &Option<Content>) -> &[u8]
    ensures { result.now ≡ content_text content.now }
{
    match content {
        Some(content) => content.as_str().as_bytes(),
        None => b"deleted",
    }
}
