//! The changes since ten entries before the end of a log, beside one pass over the whole log.
use speed_common::{Fault, Workload, id_of, trans_of};
use std::alloc::Global;
use std::collections::BTreeMap;
use translog::{Entry, Log};

// How many entries stand after the given generation.
const AFTER: u64 = 10;

/// A log of so many entries, over a thousand documents. The result is the number of changes.
#[derive(Drop)]
pub struct Changes {
    since: u64,
    log: Log,
}

impl Workload for Changes {
    fn make(alloc: Global, size: u32) -> Result<Changes, Fault> {
        let mut log = Log::new(alloc);
        for number in 0..size {
            let entry = entry_of(alloc, number)?;
            log.reserve()?;
            log.push(entry);
        }
        Ok(Changes {
            since: u64::from(size).saturating_sub(AFTER),
            log,
        })
    }

    fn ours(&mut self, _alloc: Global) -> Result<u64, Fault> {
        Ok(self.log.changed_since(self.since)?.len() as u64)
    }

    // The last entry of each document, and how many of these stand after the generation.
    fn peer(&mut self, alloc: Global) -> Result<u64, Fault> {
        let mut last = BTreeMap::new(alloc);
        let mut generation = 0u64;
        for entry in self.log.entries() {
            generation = generation.saturating_add(1);
            last.insert(entry.doc.as_str(), generation)?;
        }
        let mut count = 0u64;
        for generation in last.values() {
            if *generation > self.since {
                count = count.saturating_add(1);
            }
        }
        Ok(count)
    }
}

fn entry_of(alloc: Global, number: u32) -> Result<Entry, Fault> {
    Ok(Entry {
        doc: id_of(alloc, number % 1000)?,
        trans: trans_of(alloc, number)?,
    })
}
