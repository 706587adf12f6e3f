//! What is accepted of a document, and how it was made.
ghost use Rattle.std.specs.Prelude.{◌≡◌, IfOk};

use crate::member::copied;
use content::Content;
use std::alloc::Global;
use u1_base::Memory;
use vector_rev::{Clock, Clocks};

/// How an accepted revision came to be.
#[derive(Clone, Copy, PartialEq, Eq)]
pub enum Making {
    /// An edit or a deletion at this replica.
    Edit,
    /// A resolution of a conflict at this replica.
    Resolve,
    /// A merge, at this replica, of a revision that was handed over with members of the same
    /// content.
    Merge,
    /// Another replica made it.
    Received,
}

/// A revision that a replica accepts.
#[derive(Drop)]
pub struct Accept {
    pub rev: Clock,
    /// None for a deletion.
    pub content: Option<Content>,
    pub making: Making,
    /// The revisions of which this one was made. A received revision has none here.
    pub parents: Clocks,
    /// Whether the revision becomes the current one.
    pub current: bool,
}

impl Accept {
    pub fn copy(&self, alloc: Global) -> Result<Accept, Memory>
        ensures { IfOk result (λ a. a ≡ self.now) }
    {
        Ok(Accept {
            rev: self.rev.copy()?,
            content: copied(&self.content)?,
            making: self.making,
            parents: clocks_copied(alloc, &self.parents)?,
            current: self.current,
        })
    }
}

fn clocks_copied(alloc: Global, clocks: &Clocks) -> Result<Clocks, Memory>
    ensures { IfOk result (λ copies. copies ≡ clocks.now) }
{
    let mut copies = Vec::with_capacity(alloc, clocks.len())?;
    for clock in clocks.as_slice() {
        copies.push(clock.copy()?)?;
    }
    Ok(Clocks::from_vec(copies))
}
