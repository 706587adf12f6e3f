//! Vector clocks: read, compared, joined and raised.
use crate::{Asked, say_fault};
use rows::{Said, number_of};
use u1_base::{Memory, ReplicaUid, Text};
use vector_rev::{Clock, ClockEntries, ClockEntry, ClockFault, JoinFault, NextFault, Order};

/// Answers the calls of clocks, and tells whether it is one of them.
pub(crate) fn answer(asked: &Asked<'_>, said: &mut Said) -> Result<bool, Memory> {
    match (asked.call, asked.arguments) {
        ("clock", _) => say_read(Clock::read(said.alloc(), asked.text), said)?,
        ("entries", list) => say_entries(list, said)?,
        ("order" | "join" | "join-into", [one, other]) => say_two(asked.call, one, other, said)?,
        ("count", [clock, uids @ ..]) => say_counts(clock, uids, said)?,
        ("first", [own]) => say_own(asked.call, None, own, said)?,
        ("next" | "raise", [clock, own]) => say_own(asked.call, Some(clock), own, said)?,
        _ => return Ok(false),
    }
    Ok(true)
}

fn say_read(read: Result<Clock, ClockFault>, said: &mut Said) -> Result<(), Memory> {
    match read {
        Ok(clock) => say_clock(&clock, said),
        Err(fault) => say_fault(fault, said),
    }
}

fn say_clock(clock: &Clock, said: &mut Said) -> Result<(), Memory> {
    said.line(clock.text()?.as_str())
}

// The clock of a list of UID COUNTER.
fn say_entries(list: &[Text], said: &mut Said) -> Result<(), Memory> {
    let mut entries = ClockEntries::new(said.alloc());
    for pair in list.chunks(2) {
        match pair {
            [uid, counter] => push_entry(&mut entries, uid, counter, said)?,
            _ => said.line("a uid without a counter")?,
        }
    }
    say_read(Clock::of_entries(entries), said)
}

fn push_entry(
    entries: &mut ClockEntries,
    uid: &Text,
    counter: &Text,
    said: &mut Said,
) -> Result<(), Memory> {
    match (
        ReplicaUid::read(said.alloc(), uid.as_str()),
        number_of(counter.as_str()),
    ) {
        (Ok(uid), Some(counter)) => entries.push(ClockEntry::new(uid, counter)),
        _ => said.line("no entry"),
    }
}

fn say_two(call: &str, one: &Text, other: &Text, said: &mut Said) -> Result<(), Memory> {
    let alloc = said.alloc();
    match (
        Clock::read(alloc, one.as_str()),
        Clock::read(alloc, other.as_str()),
    ) {
        (Ok(one), Ok(other)) => match call {
            "order" => say_order(&one, &other, said),
            "join" => say_joined(one.join(&other), said),
            _ => say_joined(one.join_into(other), said),
        },
        _ => said.line("no clock"),
    }
}

fn say_order(one: &Clock, other: &Clock, said: &mut Said) -> Result<(), Memory> {
    said.word(match one.order(other) {
        Order::Equal => "equal",
        Order::Newer => "newer",
        Order::Older => "older",
        Order::Apart => "apart",
    })?;
    if one.covers(other) {
        said.word("covers")?;
    }
    if one == other {
        said.word("same")?;
    }
    said.end()
}

fn say_joined(joined: Result<Clock, JoinFault>, said: &mut Said) -> Result<(), Memory> {
    match joined {
        Ok(clock) => say_clock(&clock, said),
        Err(fault) => say_fault(fault, said),
    }
}

// What the clock counts of each uid.
fn say_counts(clock: &Text, uids: &[Text], said: &mut Said) -> Result<(), Memory> {
    match Clock::read(said.alloc(), clock.as_str()) {
        Ok(clock) => {
            for uid in uids {
                say_count(&clock, uid, said)?;
            }
            said.end()
        }
        Err(fault) => say_fault(fault, said),
    }
}

fn say_count(clock: &Clock, uid: &Text, said: &mut Said) -> Result<(), Memory> {
    match ReplicaUid::read(said.alloc(), uid.as_str()) {
        Ok(uid) => said.number(clock.count(&uid)),
        Err(_) => said.word("no-uid"),
    }
}

fn say_own(call: &str, clock: Option<&Text>, own: &Text, said: &mut Said) -> Result<(), Memory> {
    let alloc = said.alloc();
    let Ok(own) = ReplicaUid::read(alloc, own.as_str()) else {
        return said.line("no uid");
    };
    match clock {
        Some(clock) => match Clock::read(alloc, clock.as_str()) {
            Ok(clock) if call == "next" => say_raised(clock.next(&own), said),
            Ok(clock) => say_raised(clock.raise(&own), said),
            Err(fault) => say_fault(fault, said),
        },
        None => say_clock(&Clock::first(alloc, &own)?, said),
    }
}

fn say_raised(raised: Result<Clock, NextFault>, said: &mut Said) -> Result<(), Memory> {
    match raised {
        Ok(clock) => say_clock(&clock, said),
        Err(fault) => say_fault(fault, said),
    }
}
