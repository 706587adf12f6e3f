//! The documents of a state.
ghost use Rattle.std.specs.Prelude.{◌≡◌, [], ◌∷◌, ◌++◌, IfOk, OnOk, cond, option_copied};
ghost use Rattle.conflicts.specs.Kept.{document};
ghost use Rattle.replica_state.specs.Held.{lists_of, meaning};
ghost use Rattle.replica_reads.specs.Documents.{IsInConflict, got, ids_of, is_listed};

use conflicts::{DocSet, Member};
use doc_table::Table;
use replica_state::State;
use std::alloc::Global;
use u1_base::{DocId, Document, Ids, Memory};

/// The current member of a document. None exactly where there is no document, or where it is
/// deleted and deleted ones are not asked for.
pub fn get_doc<'a>(state: &'a State, id: &DocId, deleted: bool) -> Option<&'a Member>
    ensures { option_copied result ≡ got deleted ((meaning state.now).document id.now) }
{
    match state.docs().get(id) {
        Some(set) => listed_member(set, deleted),
        None => None,
    }
}

// The current member, if the document is live or deleted ones are asked for.
fn listed_member(set: &DocSet, deleted: bool) -> Option<&Member>
    ensures { option_copied result ≡ got deleted (document (Some set.now)) }
{
    if !is_listed(set, deleted) {
        return None;
    }
    Some(set.current())
}

fn is_listed(set: &DocSet, deleted: bool) -> bool
    ensures { result ≡ is_listed deleted (document (Some set.now)) }
{
    deleted || set.current().content.is_some()
}

/// The ids of the documents in their order; those of deleted ones where they are asked for.
pub fn all_docs(alloc: Global, state: &State, deleted: bool) -> Result<Ids, Memory>
    ensures { IfOk result (λ ids. ids ≡ ids_of deleted (lists_of state.now).docs) }
{
    listed_ids(alloc, state.docs(), deleted)
}

fn listed_ids(alloc: Global, docs: &Table<Document, DocSet>, deleted: bool) -> Result<Ids, Memory>
    ensures { IfOk result (λ ids. ids ≡ ids_of deleted docs.now.pairs) }
{
    let mut ids = Ids::new(alloc);
    let mut walk = docs.walk();
    for place in 0..docs.length() {
        let Some((id, set)) = walk.pair(place) else {
            break;
        };
        push_if(&mut ids, id, is_listed(set, deleted))?;
    }
    Ok(ids)
}

fn push_if(ids: &mut Ids, id: &DocId, wanted: bool) -> Result<(), Memory>
    ensures { OnOk result (ids.new ≡ ids.old ++ cond wanted (id.now ∷ []) []) }
{
    if !wanted {
        return Ok(());
    }
    ids.push(id.copy()?)?;
    Ok(())
}

/// The members of a document in conflict. None exactly where it has fewer than two.
pub fn doc_conflicts<'a>(state: &'a State, id: &DocId) -> Option<&'a DocSet>
    ensures { IsInConflict ((meaning state.now).document id.now) (option_copied result) }
{
    let Some(set) = state.docs().get(id) else {
        return None;
    };
    if set.length() < 2 {
        return None;
    }
    Some(set)
}
