//! The commands, each with its operands and its option as they were read.
use sync_http::Address;
use u1_base::{DbName, DocId, IndexName, Key, ReplicaUid, Texts};
use vector_rev::{Clock, Clocks};

/// One command. Expressions and query values stand as they were given; whoever runs the command
/// reads them.
#[derive(Drop)]
pub enum Command {
    /// Makes a store. The limit is the greatest length of its image, in bytes.
    Init {
        name: DbName,
        uid: Option<ReplicaUid>,
        limit: Option<u64>,
    },
    /// Shows something of the store, and leaves it as it is.
    Show(Show),
    /// Makes a step in the store.
    Edit(Edit),
    /// Writes the image anew, with what a compaction leaves of its steps.
    Compact,
    /// Meets other replicas, or clients.
    Online(Online),
    /// Makes that many documents by a seed.
    Work {
        seed: u64,
        count: u64,
    },
    /// Works with a view: a stored query.
    View(View),
}

/// A command that shows something.
#[derive(Drop)]
pub enum Show {
    /// A document; a deleted one too, if that is asked.
    Get {
        id: DocId,
        deleted: bool,
    },
    /// The revisions of a document that are in conflict.
    Conflicts {
        id: DocId,
    },
    /// The indexes.
    IndexList,
    /// The documents that have a key which meets the values.
    Query {
        name: IndexName,
        values: Texts,
    },
    /// The documents that have a key from start to end. An end that is None is open.
    Range {
        name: IndexName,
        start: Option<Key>,
        end: Option<Key>,
    },
    /// The keys of an index.
    Keys {
        name: IndexName,
    },
    /// All documents; deleted ones too, if that is asked.
    All {
        deleted: bool,
    },
    /// What changed after a generation.
    Changes {
        after: u64,
    },
    /// What the store knows of itself and of others.
    Info,
}

/// A command that makes a step.
#[derive(Drop)]
pub enum Edit {
    /// Creates a document from the input.
    Create { id: Option<DocId> },
    /// Puts the content of the input over a revision, or where there is none.
    Put { id: DocId, rev: Option<Clock> },
    /// Deletes a document.
    Delete { id: DocId, rev: Clock },
    /// Resolves revisions to the content of the input.
    Resolve { id: DocId, revs: Clocks },
    /// Resolves revisions to a deleted document.
    ResolveDeleted { id: DocId, revs: Clocks },
    /// Makes an index of 1 to 8 expressions.
    IndexCreate { name: IndexName, exprs: Texts },
    /// Drops an index.
    IndexDelete { name: IndexName },
}

/// A command that meets other replicas, or clients.
#[derive(Drop)]
pub enum Online {
    /// Synchronises with the database at an address.
    Sync {
        with: Address,
    },
    /// Serves that many connections of other replicas.
    Serve {
        port: u16,
        count: u64,
    },
    /// Serves that many connections of clients that ask for documents.
    ServeDocs {
        port: u16,
        count: u64,
    },
    /// Serves and synchronises in turn: the rounds, and how many connections are served at each of
    /// the five places of a round.
    Node {
        port: u16,
        with: Address,
        rounds: u64,
        between: u64,
    },
}

/// A command on a view.
#[derive(Drop)]
pub enum View {
    /// Makes it.
    Create {
        name: IndexName,
        index: IndexName,
        values: Texts,
    },
    /// Shows it.
    Show {
        name: IndexName,
    },
    /// Drops it.
    Delete {
        name: IndexName,
    },
}
