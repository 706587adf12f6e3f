//! What the state at the end has of a revision, and of an index.
ghost use Rattle.std.specs.Prelude.{◌≡◌, Some, is_some, option_copied};
ghost use Rattle.std.specs.Option.{option_to_list};
ghost use Rattle.conflicts.specs.Document.{has_rev};
ghost use Rattle.replica_state.specs.Held.{meaning};
ghost use Rattle.compaction.specs.Compaction.{is_at};

use conflicts::{DocSet, Member};
use replica_state::State;
use u1_base::{DocId, IndexName};
use vector_rev::Clock;

// Whether the revision is that of a member of the document.
pub(crate) fn is_member(state: &State, doc: &DocId, rev: &Clock) -> bool
    ensures { result ≡ has_rev ((meaning state.now).document doc.now).members rev.now }
{
    match state.docs().get(doc) {
        Some(set) => has_member(set, rev),
        None => false,
    }
}

// Whether it is that of the current member.
pub(crate) fn is_current(state: &State, doc: &DocId, rev: &Clock) -> bool
    ensures { result ≡ is_at ((meaning state.now).document doc.now).current rev.now }
{
    match state.docs().get(doc) {
        Some(set) => *rev == set.current().rev,
        None => false,
    }
}

fn has_member(set: &DocSet, rev: &Clock) -> bool
    ensures { result ≡ has_rev set.now.members rev.now }
{
    for place in 0..set.length() {
        if is_that(set.member(place), rev) {
            return true;
        }
    }
    false
}

fn is_that(member: Option<&Member>, rev: &Clock) -> bool
    ensures { result ≡ has_rev (option_to_list (option_copied member.entry)) rev.now }
{
    match member {
        Some(member) => member.rev == *rev,
        None => false,
    }
}

// Whether there is an index of the name.
pub(crate) fn has_index(state: &State, name: &IndexName) -> bool
    ensures { result ≡ is_some ((meaning state.now).index name.now) }
{
    state.index_table(name).is_some()
}
