//! Receipts of revisions that are apart from all members of a document, beside a plain comparison
//! of the same clocks.
use conflicts::{Accept, DocSet, Making, Member, Outcome4, receive};
use speed_common::{Fault, Workload, content_of, done};
use std::alloc::Global;
use std::cmp::Ordering;
use u1_base::ReplicaUid;
use vector_rev::{Clock, Clocks};

// How many members the document has.
const MEMBERS: u32 = 50;

// How many replicas each clock counts, and the number of the last one.
const REPLICAS: u32 = 8;

const LAST: u32 = REPLICAS - 1;

// The entries of a clock as a user would compare them plainly.
type Plain = Vec<(String, u64)>;

/// A document of 50 members, and so many revisions that are handed over to it. The result is the
/// number of conflicts that are answered: those that are apart from all members.
#[derive(Drop)]
pub struct Receipts {
    own: ReplicaUid,
    set: Option<DocSet>,
    incoming: Vec<Member>,
    members: Vec<Plain>,
    plain: Vec<Plain>,
}

impl Workload for Receipts {
    fn make(alloc: Global, size: u32) -> Result<Receipts, Fault> {
        let mut receipts = Receipts {
            own: done(ReplicaUid::read(alloc, "R-00000000000000000000000000000000"))?,
            set: None,
            incoming: Vec::new(alloc),
            members: Vec::new(alloc),
            plain: Vec::new(alloc),
        };
        for number in 0..MEMBERS {
            receipts.add_member(alloc, number)?;
        }
        for number in 0..size {
            receipts.add_incoming(alloc, number)?;
        }
        Ok(receipts)
    }

    fn ours(&mut self, alloc: Global) -> Result<u64, Fault> {
        let mut conflicts = 0u64;
        for one in &self.incoming {
            let taken = receive(alloc, self.set.as_ref(), one, false, &self.own)?;
            if taken.outcome == Outcome4::Conflicted {
                conflicts = conflicts.saturating_add(1);
            }
        }
        Ok(conflicts)
    }

    fn peer(&mut self, _alloc: Global) -> Result<u64, Fault> {
        let mut conflicts = 0u64;
        for one in &self.plain {
            if count_apart(self.members.as_slice(), one.as_slice()) == u64::from(MEMBERS) {
                conflicts = conflicts.saturating_add(1);
            }
        }
        Ok(conflicts)
    }
}

// ---- what is handed over, and to what

impl Receipts {
    // A member more, apart from the others.
    fn add_member(&mut self, alloc: Global, number: u32) -> Result<(), Fault> {
        let rev = clock(
            alloc,
            number.saturating_add(1),
            MEMBERS.saturating_sub(number),
            7,
        )?;
        self.members.push(plain_of(alloc, &rev)?)?;
        let accept = Accept {
            rev,
            content: Some(content_of(alloc, number)?),
            making: Making::Received,
            parents: Clocks::new(alloc),
            current: true,
        };
        self.set = after(alloc, self.set.take(), accept)?;
        Ok(())
    }

    // A revision that is apart from all members, with another content.
    fn add_incoming(&mut self, alloc: Global, number: u32) -> Result<(), Fault> {
        let rev = clock(alloc, 1, 1, number.saturating_add(8))?;
        self.plain.push(plain_of(alloc, &rev)?)?;
        let content = content_of(alloc, number.saturating_add(1000))?;
        self.incoming.push(Member {
            rev,
            content: Some(content),
        })?;
        Ok(())
    }
}

// A clock that counts the first, the second and the last replica so, and the others alike.
fn clock(alloc: Global, first: u32, second: u32, last: u32) -> Result<Clock, Fault> {
    let mut text = String::new(alloc);
    for number in 0..REPLICAS {
        let (mark, counter) = match number {
            0 => ("", first),
            1 => ("|", second),
            LAST => ("|", last),
            _ => ("|", 7),
        };
        let entry = format!(in alloc; "{mark}R-{number:032x}:{counter}")?;
        text.push_str(entry.as_str())?;
    }
    done(Clock::read(alloc, text.as_str()))
}

fn after(alloc: Global, set: Option<DocSet>, accept: Accept) -> Result<Option<DocSet>, Fault> {
    if !DocSet::fits(set.as_ref(), &accept) {
        return Err(Fault::Run);
    }
    Ok(Some(DocSet::apply(alloc, set, accept)?))
}

fn plain_of(alloc: Global, rev: &Clock) -> Result<Plain, Fault> {
    let mut entries = Vec::new(alloc);
    for entry in rev.entries() {
        let uid = String::from_str(alloc, entry.uid().as_str())?;
        entries.push((uid, entry.counter()))?;
    }
    Ok(entries)
}

// ---- the plain comparison

// From how many clocks one is apart.
fn count_apart(others: &[Plain], one: &[(String, u64)]) -> u64 {
    let mut apart = 0u64;
    for other in others {
        if are_apart(other.as_slice(), one) {
            apart = apart.saturating_add(1);
        }
    }
    apart
}

// Whether each of two clocks counts some replica further than the other.
fn are_apart(left: &[(String, u64)], right: &[(String, u64)]) -> bool {
    let (mut i, mut j) = (0, 0);
    let (mut more, mut less) = (false, false);
    while i < left.len() && j < right.len() {
        let (x, y) = (&left[i], &right[j]);
        match x.0.as_str().cmp(y.0.as_str()) {
            Ordering::Less => {
                more = true;
                i += 1;
            }
            Ordering::Greater => {
                less = true;
                j += 1;
            }
            Ordering::Equal => {
                more = more | (x.1 > y.1);
                less = less | (x.1 < y.1);
                i += 1;
                j += 1;
            }
        }
    }
    (more | (i < left.len())) & (less | (j < right.len()))
}
