//! Documents and the indexes over them.
ghost use Rattle.replica_state.specs.Keyed.{AreTables};
ghost use Rattle.replica_state.specs.Named.{AreNamed};

use crate::accepting::accept_into;
use crate::exprs::IndexExprs;
use crate::index::Index;
use crate::prepared::Replacement;
use crate::replace::{new_document, new_index, replace};
use conflicts::{Accept, DocSet};
use doc_table::Table;
use std::alloc::Global;
use std::marker::Model;
use u1_base::{DocId, Document, IndexName, Memory};

/// Documents and the indexes over them, in the order of their names. The table of each index holds
/// just the pairs of a key and the id of a document with this key.
#[derive(Drop)]
pub(crate) struct Collection {
    docs: Table<Document, DocSet>,
    indexes: Vec<Index>,
    ghost named: { AreNamed indexes.items },
    ghost tied: { AreTables docs.pairs indexes.items },
}

impl Model for Collection {
    ghost use Rattle.replica_state.specs.Held.{Collected, collected_code};

    ghost Value = { Collected };

    ghost coded = { collected_code };

    ghost use Rattle.std.specs.Prelude.{map, ◌-◌, vec_capacity, vec_len};
    ghost use Rattle.replica_state.specs.Named.{heading};

    ghost view = { λ s. record {
      docs = s.docs;
      indexes = map heading s.indexes.items;
      sorted =
          s.named;
      vacant = vec_capacity s.indexes - vec_len s.indexes;
    } };
}

impl Collection {
    ghost use Rattle.std.specs.Prelude.{◌≡◌, [], map};
    ghost use Rattle.replica_state.specs.Named.{heading};

    pub(crate) fn new(alloc: Global) -> Collection
        ensures docs { result.docs.pairs ≡ [] }
        ensures indexes { result.indexes ≡ [] }
    {
        Collection {
            docs: Table::new(alloc),
            indexes: Vec::new(alloc),
        }
    }

    pub(crate) fn docs(&self) -> &Table<Document, DocSet>
        ensures { result.now ≡ self.now.docs }
    {
        &self.docs
    }

    pub(crate) fn allocator(&self) -> Global {
        *self.indexes.allocator()
    }

    pub(crate) fn indexes(&self) -> &[Index]
        ensures value { map heading result.now ≡ self.now.indexes }
        ensures tied { AreTables self.now.docs.pairs result.now }
    {
        self.indexes.as_slice()
    }
}

impl Collection {
    ghost use Rattle.std.specs.Prelude.{◌≡◌, [], IfOk, OnOk};
    ghost use Rattle.replica_state.specs.inner.Accepted.{HaveAccepted, IsDocumentAfter};
    ghost use Rattle.replica_state.specs.inner.Accepted.{IsIndexAfter};
    ghost use Rattle.replica_state.specs.Held.{named};
    ghost use Rattle.replica_state.specs.Prepared.{Takes, docs_with, names_with};

    /// Makes room for a document.
    pub(crate) fn make_room(&mut self) -> Result<(), Memory>
        ensures docs { self.new.docs.pairs ≡ self.old.docs.pairs }
        ensures indexes { named self.new.indexes ≡ named self.old.indexes }
    {
        self.docs.reserve()
    }

    /// What an acceptance replaces, and the room for it.
    pub(crate) fn accept(&mut self, doc: &DocId, accept: Accept) -> Result<Replacement, Memory>
        ensures docs { self.new.docs.pairs ≡ self.old.docs.pairs }
        ensures indexes { named self.new.indexes ≡ named self.old.indexes }
        ensures after { IfOk result (IsDocumentAfter self.new.docs.pairs doc.now accept) }
        ensures ready { IfOk result (Takes self.new.docs self.new.indexes self.new.vacant) }
    {
        let alloc = self.allocator();
        new_document(alloc, &mut self.docs, &mut self.indexes, doc, accept)
    }

    /// Applies the acceptance to its document, where there is no index.
    pub(crate) fn accept_alone(&mut self, doc: DocId, accept: Accept) -> Result<(), Memory>
        requires { self.old.indexes ≡ [] }
        ensures docs { OnOk result
            (HaveAccepted self.old.docs.pairs doc accept self.new.docs.pairs) }
        ensures indexes { self.new.indexes ≡ [] }
    {
        let alloc = self.allocator();
        accept_into(alloc, &mut self.docs, doc, accept)
    }

    /// A new index, and the room for it.
    pub(crate) fn create_index(
        &mut self,
        name: IndexName,
        exprs: IndexExprs,
    ) -> Result<Replacement, Memory>
        ensures docs { self.new.docs.pairs ≡ self.old.docs.pairs }
        ensures indexes { named self.new.indexes ≡ named self.old.indexes }
        ensures after { IfOk result (IsIndexAfter name exprs.texts) }
        ensures ready { IfOk result (Takes self.new.docs self.new.indexes self.new.vacant) }
    {
        let alloc = self.allocator();
        new_index(alloc, &self.docs, &mut self.indexes, name, exprs)
    }

    /// Puts the replacement in.
    pub(crate) fn replace(&mut self, replacement: Replacement)
        requires { Takes self.old.docs self.old.indexes self.old.vacant replacement }
        ensures docs { self.new.docs.pairs ≡ docs_with replacement self.old.docs.pairs }
        ensures indexes { named self.new.indexes ≡ names_with replacement (named self.old.indexes) }
    {
        replace(&mut self.docs, &mut self.indexes, replacement);
    }
}
