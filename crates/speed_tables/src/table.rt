//! Documents under made ids, put into the table in random order and then each looked up, beside
//! std's `BTreeMap`.
use doc_table::Table;
use speed_common::{Fault, Workload, id_of};
use std::alloc::Global;
use std::collections::BTreeMap;
use u1_base::DocId;

/// The ids of so many documents. The result is the sum of the values that were found.
#[derive(Drop)]
pub struct Documents {
    ids: Vec<DocId>,
}

impl Workload for Documents {
    fn make(alloc: Global, size: u32) -> Result<Documents, Fault> {
        let mut ids = Vec::new(alloc);
        for number in 0..size {
            ids.push(id_of(alloc, number)?)?;
        }
        Ok(Documents { ids })
    }

    fn ours(&mut self, alloc: Global) -> Result<u64, Fault> {
        in_table(alloc, self.ids.as_slice())
    }

    fn peer(&mut self, alloc: Global) -> Result<u64, Fault> {
        in_map(alloc, self.ids.as_slice())
    }
}

fn in_table(alloc: Global, ids: &[DocId]) -> Result<u64, Fault> {
    let mut table = Table::new(alloc);
    let mut number = 0u64;
    for id in ids {
        table.reserve()?;
        let _ = table.put(id.copy()?, number);
        number = number.saturating_add(1);
    }
    let mut sum = 0u64;
    for id in ids {
        if let Some(value) = table.get(id) {
            sum = sum.saturating_add(*value);
        }
    }
    Ok(sum)
}

// A function of the built program, so that `.ci/growth` can count it.
#[inline(never)]
fn in_map(alloc: Global, ids: &[DocId]) -> Result<u64, Fault> {
    let mut map = BTreeMap::new(alloc);
    let mut number = 0u64;
    for id in ids {
        map.insert(String::from_str(alloc, id.as_str())?, number)?;
        number = number.saturating_add(1);
    }
    let mut sum = 0u64;
    for id in ids {
        if let Some(value) = map.get(id.as_str()) {
            sum = sum.saturating_add(*value);
        }
    }
    Ok(sum)
}
