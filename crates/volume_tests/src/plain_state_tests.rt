//! What the plain reading keeps of an image, and its comparison with the state that was opened.
//!
//! The limit of the header is not kept: the images of the tests have the greatest one, and with
//! another byte it is out of its limits.
use conflicts::{DocSet, Member, PosTable};
use content::Content;
use crash_harness::are;
use doc_table::Table;
use expr_parser::Expr;
use replica_state::{Index, State};
use std::alloc::Global;
use translog::{Entry, Log};
use u1_base::{Document, Position};
use vector_rev::ClockEntry;

/// An entry of a clock.
#[derive(Clone, Copy)]
pub(crate) struct Counter<'a> {
    pub(crate) uid: &'a [u8],
    pub(crate) counter: usize,
}

/// A revision that a body accepts.
#[derive(Clone, Copy)]
pub(crate) struct Accepted<'a> {
    pub(crate) doc: &'a [u8],
    /// Where the entries of its clock begin and end in the list of all.
    pub(crate) clock: (usize, usize),
    pub(crate) is_current: bool,
    pub(crate) content: Option<&'a [u8]>,
}

/// An entry of the log.
#[derive(Clone, Copy)]
pub(crate) struct Logged<'a> {
    pub(crate) doc: &'a [u8],
    pub(crate) trans: &'a [u8],
}

/// The position of a peer. Its transaction id is empty at generation 0.
#[derive(Clone, Copy)]
pub(crate) struct Place<'a> {
    pub(crate) table: PosTable,
    pub(crate) uid: &'a [u8],
    pub(crate) generation: usize,
    pub(crate) trans: &'a [u8],
}

/// An index that is there.
#[derive(Clone, Copy)]
pub(crate) struct Named<'a> {
    pub(crate) name: &'a [u8],
    /// Where its expressions begin and end in the list of all.
    pub(crate) expressions: (usize, usize),
}

/// What the steps of an image leave.
#[derive(Drop)]
pub(crate) struct PlainState<'a> {
    pub(crate) name: &'a [u8],
    pub(crate) uid: &'a [u8],
    pub(crate) entries: Vec<Logged<'a>>,
    pub(crate) accepted: Vec<Accepted<'a>>,
    /// The entries of all clocks.
    pub(crate) counters: Vec<Counter<'a>>,
    /// The last position of each peer in each table.
    pub(crate) places: Vec<Place<'a>>,
    pub(crate) indexes: Vec<Named<'a>>,
    pub(crate) expressions: Vec<&'a [u8]>,
}

fn same_table(one: PosTable, other: PosTable) -> bool {
    one == other
}

impl<'a> PlainState<'a> {
    /// The state of an image whose header is not read yet.
    pub(crate) fn new(alloc: Global) -> PlainState<'a> {
        PlainState {
            name: b"",
            uid: b"",
            entries: Vec::new(alloc),
            accepted: Vec::new(alloc),
            counters: Vec::new(alloc),
            places: Vec::new(alloc),
            indexes: Vec::new(alloc),
            expressions: Vec::new(alloc),
        }
    }

    /// Moves a position, and tells whether there was memory for it.
    pub(crate) fn place(&mut self, place: Place<'a>) -> bool {
        self.places.retain(|other| !(same_table(other.table, place.table)
            && are(other.uid, place.uid)));
        self.places.push(place).is_ok()
    }

    pub(crate) fn drop_index(&mut self, name: &[u8]) {
        self.indexes.retain(|index| !are(index.name, name));
    }

    /// Creates an index in the place of one of its name, and tells whether there was memory for it.
    pub(crate) fn create_index(&mut self, index: Named<'a>) -> bool {
        self.drop_index(index.name);
        self.indexes.push(index).is_ok()
    }

    /// Whether this is all of a state.
    pub(crate) fn is_of(&self, alloc: Global, state: &State) -> bool {
        are(state.name().as_str().as_bytes(), self.name)
            && are(state.uid().as_str().as_bytes(), self.uid)
            && self.has_log(state.log())
            && self.has_documents(state.docs())
            && self.has_all_places(state)
            && self.has_indexes(alloc, state.indexes())
    }

    // ---- the log

    fn has_log(&self, log: &Log) -> bool {
        let entries = log.entries();
        for (entry, want) in entries.iter().zip(self.entries.iter()) {
            if !want.is_of(entry) {
                return false;
            }
        }
        entries.len() == self.entries.len()
    }

    // ---- the documents

    // Whether each member is a revision that was accepted, and as many are there. In the images of
    // the tests no revision is newer than another one of its document, so all stay members.
    fn has_documents(&self, docs: &Table<Document, DocSet>) -> bool {
        let mut walk = docs.walk();
        let mut members = 0u64;
        for place in 0..docs.length() {
            let Some((id, set)) = walk.pair(place) else {
                return false;
            };
            if !self.has_document(id.as_str().as_bytes(), set) {
                return false;
            }
            members = members.saturating_add(set.length());
        }
        members == self.accepted.len() as u64
    }

    fn has_document(&self, id: &[u8], set: &DocSet) -> bool {
        for place in 0..set.length() {
            match set.member(place) {
                Some(member) if self.has_member(id, member) => {}
                _ => return false,
            }
        }
        self.has_current(id, set.current())
    }

    fn has_member(&self, id: &[u8], member: &Member) -> bool {
        for revision in &self.accepted {
            if are(revision.doc, id) && self.is_member(revision, member) {
                return true;
            }
        }
        false
    }

    // Whether it is the last revision of the document that was marked current. Where none was, it
    // is just a member.
    fn has_current(&self, id: &[u8], member: &Member) -> bool {
        let mut is_current = true;
        for revision in &self.accepted {
            if revision.is_current && are(revision.doc, id) {
                is_current = self.is_member(revision, member);
            }
        }
        is_current
    }

    fn is_member(&self, revision: &Accepted, member: &Member) -> bool {
        let (from, end) = revision.clock;
        match self.counters.as_slice().get(from..end) {
            Some(counters) => {
                is_clock(counters, member.rev.entries())
                    && has_content(revision.content, &member.content)
            }
            None => false,
        }
    }

    // ---- the positions

    // Whether each position is one of these, and as many are there.
    fn has_all_places(&self, state: &State) -> bool {
        let count = state
            .positions(PosTable::Known)
            .length()
            .saturating_add(state.positions(PosTable::Told).length());
        self.has_places(state, PosTable::Known)
            && self.has_places(state, PosTable::Told)
            && count == self.places.len() as u64
    }

    fn has_places(&self, state: &State, table: PosTable) -> bool {
        let positions = state.positions(table);
        let mut walk = positions.walk();
        for place in 0..positions.length() {
            let Some((uid, at)) = walk.pair(place) else {
                return false;
            };
            if !self.has_place(table, uid.as_str().as_bytes(), at) {
                return false;
            }
        }
        true
    }

    fn has_place(&self, table: PosTable, uid: &[u8], at: &Position) -> bool {
        for place in &self.places {
            if same_table(place.table, table) && are(place.uid, uid) {
                return place.is_at(at);
            }
        }
        false
    }

    // ---- the indexes

    fn has_indexes(&self, alloc: Global, indexes: &[Index]) -> bool {
        for index in indexes {
            let name = index.name().as_str().as_bytes();
            if !self.has_index(alloc, name, index.exprs().as_slice()) {
                return false;
            }
        }
        indexes.len() == self.indexes.len()
    }

    fn has_index(&self, alloc: Global, name: &[u8], exprs: &[Expr]) -> bool {
        for index in &self.indexes {
            if are(index.name, name) {
                let (from, end) = index.expressions;
                let texts = self.expressions.as_slice().get(from..end);
                return are_spelled(alloc, exprs, texts.unwrap_or(&[]));
            }
        }
        false
    }
}

impl Logged<'_> {
    fn is_of(&self, entry: &Entry) -> bool {
        are(entry.doc.as_str().as_bytes(), self.doc)
            && are(entry.trans.as_str().as_bytes(), self.trans)
    }
}

impl Place<'_> {
    fn is_at(&self, at: &Position) -> bool {
        let is_named = match &at.trans {
            Some(trans) => are(trans.as_str().as_bytes(), self.trans),
            None => self.trans.is_empty(),
        };
        is_named && at.generation == self.generation as u64
    }
}

fn is_clock(counters: &[Counter], entries: &[ClockEntry]) -> bool {
    for (entry, want) in entries.iter().zip(counters.iter()) {
        let is_same = are(entry.uid().as_str().as_bytes(), want.uid)
            && entry.counter() == want.counter as u64;
        if !is_same {
            return false;
        }
    }
    entries.len() == counters.len()
}

fn has_content(text: Option<&[u8]>, content: &Option<Content>) -> bool {
    match (text, content) {
        (Some(text), Some(content)) => are(content.as_str().as_bytes(), text),
        (None, None) => true,
        _ => false,
    }
}

fn are_spelled(alloc: Global, exprs: &[Expr], texts: &[&[u8]]) -> bool {
    for (expr, text) in exprs.iter().zip(texts.iter()) {
        if !is_spelled(alloc, expr, *text) {
            return false;
        }
    }
    exprs.len() == texts.len()
}

fn is_spelled(alloc: Global, expr: &Expr, text: &[u8]) -> bool {
    match expr.text(alloc) {
        Ok(spelling) => are(spelling.as_str().as_bytes(), text),
        Err(_) => false,
    }
}
