//! Tables of made ids, whose order is not the one in which they were made.
use doc_table::Table;
use std::alloc::Global;
use u1_base::{DocId, Document, IdKind, Memory};

type Numbers = Table<Document, u64>;

fn made(alloc: Global, number: u64) -> Result<DocId, Memory> {
    DocId::made(alloc, 7, IdKind::Doc, number)
}

fn put(table: &mut Numbers, alloc: Global, number: u64) -> Result<bool, Memory> {
    let id = made(alloc, number)?;
    table.reserve()?;
    Ok(table.put(id, number).is_none())
}

fn has(table: &Numbers, alloc: Global, number: u64, is_there: bool) -> Result<bool, Memory> {
    let id = made(alloc, number)?;
    Ok(table.get(&id) == if is_there { Some(&number) } else { None })
}

fn take(table: &mut Numbers, alloc: Global, number: u64) -> Result<bool, Memory> {
    let id = made(alloc, number)?;
    Ok(table.take(&id) == Some(number))
}

// Whether the ids rise from place to place.
fn is_in_order(table: &Numbers) -> bool {
    let mut pairs = table.walk();
    let mut last = "";
    for place in 0..table.length() {
        let Some((id, _)) = pairs.pair(place) else {
            return false;
        };
        if id.as_str() <= last {
            return false;
        }
        last = id.as_str();
    }
    pairs.pair(table.length()).is_none()
}

fn puts_all(table: &mut Numbers, alloc: Global) -> Result<bool, Memory> {
    for number in 0..3000 {
        if !put(table, alloc, number)? || !has(table, alloc, number / 2, true)? {
            return Ok(false);
        }
    }
    Ok(table.length() == 3000 && is_in_order(table))
}

// Takes every second one out.
fn takes_half(table: &mut Numbers, alloc: Global) -> Result<bool, Memory> {
    for number in 0..1500 {
        let gone = number * 2;
        if !take(table, alloc, gone)?
            || !has(table, alloc, gone, false)?
            || !has(table, alloc, gone + 1, true)?
        {
            return Ok(false);
        }
    }
    Ok(table.length() == 1500 && is_in_order(table))
}

#[test]
fn keeps_made_ids(rt: HostRuntime) {
    let alloc = rt.alloc();
    let mut table = Numbers::new(alloc);
    assert!(rt; puts_all(&mut table, alloc) == Ok(true));
    assert!(rt; takes_half(&mut table, alloc) == Ok(true));
}
