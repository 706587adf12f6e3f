//! Transaction logs: what changed, and positions that fit and that do not.
use crate::Asked;
use rows::{Said, number_of};
use std::alloc::Global;
use translog::{Change, Check, Entry, Log, goes_on};
use u1_base::{DocId, Memory, Position, Text, TransId};

/// Answers the calls of logs, and tells whether it is one of them.
pub(crate) fn answer(log: &Log, asked: &Asked<'_>, said: &mut Said) -> Result<bool, Memory> {
    match (asked.call, asked.arguments) {
        ("log", _) => say_position(&log.position()?, said)?,
        ("at", _) => say_at(log.at(number(asked.text)), said)?,
        ("changes", _) => {
            let changes = log.changed_since(number(asked.text))?;
            say_changes(changes.as_slice(), said)?;
        }
        ("check", [generation, trans]) => match position(said.alloc(), generation, trans) {
            Some(at) => say_check(log.check(&at), said)?,
            None => said.line("no position")?,
        },
        ("goes-on", [generation, trans, to, to_trans]) => {
            let kept = position(said.alloc(), generation, trans);
            say_goes_on(kept, position(said.alloc(), to, to_trans), said)?;
        }
        _ => return Ok(false),
    }
    Ok(true)
}

fn number(text: &str) -> u64 {
    number_of(text).unwrap_or(0)
}

/// The log of a list of DOCUMENT TRANSACTION, up to what is none.
pub(crate) fn log_of(alloc: Global, list: &[Text]) -> Result<Log, Memory> {
    let mut log = Log::new(alloc);
    for pair in list.chunks(2) {
        if let [doc, trans] = pair
            && let Some(entry) = entry(alloc, doc, trans)
        {
            log.reserve()?;
            log.push(entry);
        }
    }
    Ok(log)
}

fn entry(alloc: Global, doc: &Text, trans: &Text) -> Option<Entry> {
    Some(Entry {
        doc: DocId::read(alloc, doc.as_str()).ok()?,
        trans: TransId::read(alloc, trans.as_str()).ok()?,
    })
}

// The position of a generation below 2^32; generation 0 has no transaction.
fn position(alloc: Global, generation: &Text, trans: &Text) -> Option<Position> {
    let generation = generation.as_str().parse::<u32>().ok()?;
    if generation == 0 {
        return Some(Position::start());
    }
    Some(Position {
        generation: u64::from(generation),
        trans: Some(TransId::read(alloc, trans.as_str()).ok()?),
    })
}

fn say_position(at: &Position, said: &mut Said) -> Result<(), Memory> {
    said.number(at.generation)?;
    if let Some(trans) = &at.trans {
        said.word(trans.as_str())?;
    }
    said.end()
}

fn say_at(trans: Option<&TransId>, said: &mut Said) -> Result<(), Memory> {
    match trans {
        Some(trans) => said.line(trans.as_str()),
        None => said.line("none"),
    }
}

fn say_changes(changes: &[Change], said: &mut Said) -> Result<(), Memory> {
    for change in changes {
        said.word(change.doc.as_str())?;
        said.number(change.generation)?;
        said.word(change.trans.as_str())?;
        said.end()?;
    }
    Ok(())
}

fn say_check(check: Check<'_>, said: &mut Said) -> Result<(), Memory> {
    match check {
        Check::Fits => said.word("fits")?,
        Check::NotReached(end) => {
            said.word("ends at")?;
            said.number(end)?;
        }
        Check::OtherId(trans) => {
            said.word("has")?;
            said.word(trans.as_str())?;
        }
    }
    said.end()
}

fn say_goes_on(
    kept: Option<Position>,
    to: Option<Position>,
    said: &mut Said,
) -> Result<(), Memory> {
    match (kept, to) {
        (Some(kept), Some(to)) => said.line(goes(&kept, &to)),
        _ => said.line("no position"),
    }
}

fn goes(kept: &Position, to: &Position) -> &'static str {
    if goes_on(kept, to) {
        "goes on"
    } else {
        "goes back"
    }
}
