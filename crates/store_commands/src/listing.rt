//! Document lines.
ghost use Rattle.std.specs.Prelude.{◌≡◌};
ghost use Rattle.command_lines.specs.Lines.{line_text, lines_text};
ghost use Rattle.command_lines.specs.Puts.{Puts};
ghost use Rattle.conflicts.specs.Document.{is_conflicted};
ghost use Rattle.replica_core.specs.Commands.Documents.{document_line, document_lines};
ghost use Rattle.replica_core.specs.Commands.Documents.{line_or_none};
ghost use Rattle.replica_state.specs.Held.{meaning};
ghost use Rattle.store_commands.specs.inner.Shown.{line_if};

use command_lines::{PrintFault, print_document, print_no_document, put_all};
use link::Sink;
use replica_core::get_doc;
use replica_state::State;
use u1_base::DocId;

/// The line of a document, or that there is none.
pub fn print_found<K: Sink>(
    state: &State,
    deleted: bool,
    id: &DocId,
    out: &mut K,
) -> Result<(), PrintFault>
    ensures { Puts (line_text (line_or_none (document_line (meaning state.now) deleted id.now)))
        (K.known out.old) (K.known out.new) result }
{
    match get_doc(state, id, deleted) {
        Some(member) => print_document(out, id, member, is_in_conflict(state, id)),
        None => print_no_document(out),
    }
}

/// The lines of the documents with these ids, as far as they are listed.
pub fn print_documents<K: Sink>(
    state: &State,
    deleted: bool,
    ids: &[DocId],
    out: &mut K,
) -> Result<(), PrintFault>
    ensures { Puts (lines_text (document_lines (meaning state.now) deleted ids.now))
        (K.known out.old) (K.known out.new) result }
{
    for id in ids {
        print_listed(state, deleted, id, out)?;
    }
    Ok(())
}

// The line of a document, if it is listed.
fn print_listed<K: Sink>(
    state: &State,
    deleted: bool,
    id: &DocId,
    out: &mut K,
) -> Result<(), PrintFault>
    ensures { Puts (line_if (document_line (meaning state.now) deleted id.now))
        (K.known out.old) (K.known out.new) result }
{
    match get_doc(state, id, deleted) {
        Some(member) => print_document(out, id, member, is_in_conflict(state, id)),
        None => put_all(out, &[]),
    }
}

fn is_in_conflict(state: &State, id: &DocId) -> bool
    ensures { result ≡ is_conflicted ((meaning state.now).document id.now) }
{
    match state.docs().get(id) {
        Some(set) => set.length() > 1,
        None => false,
    }
}
