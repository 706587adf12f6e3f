//! A document after an acceptance, which may not fit.
ghost use Rattle.std.specs.Prelude.{◌≡◌, false, IfOk, OnOk, option_copied};
ghost use Rattle.std.specs.List.{list_any};
ghost use Rattle.vector_rev.specs.Clock.{dominates};
ghost use Rattle.conflicts.specs.Document.{FitsDocument, document_after};
ghost use Rattle.conflicts.specs.Kept.{document};
ghost use Rattle.replica_state.specs.inner.Accepted.{HaveAccepted};
ghost use Rattle.replica_state.specs.inner.Sets.{IsSetAfter};

use conflicts::{Accept, DocSet};
use doc_table::Table;
use std::alloc::Global;
use u1_base::{DocId, Document, Memory};
use vector_rev::Clock;

/// Applies the acceptance to its document.
pub(crate) fn accept_into(
    alloc: Global,
    docs: &mut Table<Document, DocSet>,
    doc: DocId,
    accept: Accept,
) -> Result<(), Memory>
    ensures { OnOk result (HaveAccepted docs.old.pairs doc accept docs.new.pairs) }
{
    docs.reserve()?;
    let old = docs.get(&doc);
    match set_after(alloc, old, accept)? {
        Some(set) => {
            docs.put(doc, set);
        }
        None => {}
    }
    Ok(())
}

/// The set after the acceptance. None where a member is newer than the accepted revision, so that
/// nothing changes.
pub(crate) fn set_after(
    alloc: Global,
    set: Option<&DocSet>,
    mut accept: Accept,
) -> Result<Option<DocSet>, Memory>
    ensures { IfOk result (IsSetAfter (document (option_copied set.entry)) accept) }
{
    if has_newer(set, &accept.rev) {
        return Ok(None);
    }
    make_fit(set, &mut accept);
    Ok(Some(DocSet::after(alloc, set, accept)?))
}

fn has_newer(set: Option<&DocSet>, rev: &Clock) -> bool
    ensures { result ≡ list_any (λ m. dominates m.rev rev.now)
        (document (option_copied set.entry)).members }
{
    match set {
        Some(set) => set.has_newer(rev),
        None => false,
    }
}

// Marks the acceptance current where it does not fit without the mark.
fn make_fit(set: Option<&DocSet>, accept: &mut Accept)
    requires { list_any (λ m. dominates m.rev accept.old.rev)
        (document (option_copied set)).members ≡ false }
    ensures fits { FitsDocument (document (option_copied set.entry)) accept.new }
    ensures same { document_after (document (option_copied set.entry)) accept.new
        ≡ document_after (document (option_copied set.entry)) accept.old }
{
    if !DocSet::fits(set, accept) {
        accept.current = true;
    }
}
