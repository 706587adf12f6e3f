//! The revisions that a resolution names, kept so that one is found among many.
ghost use Rattle.std.specs.Prelude.{◌≡◌, ◌<◌, IfOk, IsSortedBy, length, map};
ghost use Rattle.std.specs.List.{list_any};
ghost use Rattle.std.specs.Cmp.Lexicographic.{slice_cmp};
ghost use Rattle.vector_rev.specs.Compare.{same};
ghost use Rattle.conflicts.specs.Names.{clock_cmp, entry_cmp, is_before, NamesThese};

use std::alloc::Global;
use std::cmp::Ordering;
use u1_base::Memory;
use vector_rev::{Clock, ClockEntry};

// So many names are looked through one after the other. Beyond that they are sorted.
const FEW_NAMES: usize = 8;

// The named revisions. Many stand in the order of their clocks besides; of a few that list is
// empty.
#[derive(Drop)]
pub(crate) struct Names<'a> {
    all: &'a [Clock],
    sorted: Vec<&'a Clock>,
    ghost rising: { IsSortedBy is_before sorted.items },
    ghost these: { NamesThese sorted.items all.now },
}

impl<'a> Names<'a> {
    pub(crate) fn of(alloc: Global, all: &'a [Clock]) -> Result<Names<'a>, Memory>
        ensures { IfOk result (λ names. names.all.now ≡ all.now) }
    {
        if all.len() <= FEW_NAMES {
            return Ok(Names {
                all,
                sorted: Vec::new(alloc),
            });
        }
        let sorted = sorted_names(alloc, all)?;
        Ok(Names { all, sorted })
    }

    // Whether the revision is named.
    pub(crate) fn has(&self, rev: &Clock) -> bool
        ensures { result ≡ list_any (λ c. same c rev.now) self.now.all.now }
    {
        if self.sorted.is_empty() {
            stands_in(rev, self.all)
        } else {
            is_found(rev, self.sorted.as_slice())
        }
    }
}

// The names in the order of their clocks.
fn sorted_names<'a>(alloc: Global, all: &'a [Clock]) -> Result<Vec<&'a Clock>, Memory>
    ensures rising { IfOk result (λ v. IsSortedBy is_before v.items) }
    ensures these { IfOk result (λ v. NamesThese v.items all.now) }
{
    let mut sorted = references(alloc, all)?;
    sorted.sort_unstable_by(|one, other| clock_cmp(one, other));
    Ok(sorted)
}

fn references<'a>(alloc: Global, all: &'a [Clock]) -> Result<Vec<&'a Clock>, Memory>
    ensures { IfOk result (λ v. map (λ name. name.now) v.items ≡ all.now) }
{
    let mut names = Vec::with_capacity(alloc, all.len())?;
    for clock in all {
        names.push(clock)?;
    }
    Ok(names)
}

// Whether the clock stands in the list, by a binary search.
fn is_found(rev: &Clock, sorted: &[&Clock]) -> bool
    requires { IsSortedBy is_before sorted.now }
    ensures { result ≡ list_any (λ name. same name.now rev.now) sorted.now }
{
    sorted.binary_search_by(|name| clock_cmp(name, rev)).is_ok()
}

// Whether the clock stands in the list, by a look at each.
pub(crate) fn stands_in(rev: &Clock, clocks: &[Clock]) -> bool
    ensures { result ≡ list_any (λ c. same c rev.now) clocks.now }
{
    clocks.iter().any(|clock| *clock == *rev)
}

// Clocks in the order of their entries, one after the other.
fn clock_cmp(one: &Clock, other: &Clock) -> Ordering
    ensures { result ≡ clock_cmp one.now other.now }
{
    entries_cmp(one.entries(), other.entries())
}

fn entries_cmp(left: &[ClockEntry], right: &[ClockEntry]) -> Ordering
    ensures { result ≡ slice_cmp entry_cmp left.now right.now }
{
    let mut place = 0;
    while place < left.len() && place < right.len() {
        let order = entry_cmp(&left[place], &right[place]);
        if order.is_ne() {
            return order;
        }
        place += 1;
    }
    left.len().cmp(&right.len())
}

fn entry_cmp(one: &ClockEntry, other: &ClockEntry) -> Ordering
    ensures { result ≡ entry_cmp one.now other.now }
{
    match one.uid().cmp(other.uid()) {
        Ordering::Less => Ordering::Less,
        Ordering::Equal => one.counter().cmp(&other.counter()),
        Ordering::Greater => Ordering::Greater,
    }
}
