//! A document of as many keys as one may have, put into the table of an index of many pairs, beside
//! std's `BTreeMap` of the same pairs. Its memory is counted by `.ci/room`; its peer also fills the
//! map, so its time is no measure.
use crate::pairs::{Round, change_of, documents, insert_all, plain_pairs, put};
use index_tables::IndexTable;
use speed_common::{Fault, Workload};
use std::alloc::Global;
use std::collections::BTreeMap;

/// The table of about so many pairs. The result is the number of all pairs.
#[derive(Drop)]
pub struct Large {
    size: u32,
    table: IndexTable,
}

impl Workload for Large {
    fn make(alloc: Global, size: u32) -> Result<Large, Fault> {
        let mut table = IndexTable::new(alloc);
        for number in 0..documents(size) {
            put(
                &mut table,
                change_of(alloc, Round::none(number), Round::first(number))?,
            )?;
        }
        Ok(Large { size, table })
    }

    fn ours(&mut self, alloc: Global) -> Result<u64, Fault> {
        let large = Round::large();
        put(&mut self.table, change_of(alloc, Round::none(0), large)?)?;
        Ok(self.table.length())
    }

    fn peer(&mut self, alloc: Global) -> Result<u64, Fault> {
        let mut map = BTreeMap::new(alloc);
        for number in 0..documents(self.size) {
            insert_all(&mut map, plain_pairs(alloc, Round::first(number))?)?;
        }
        insert_all(&mut map, plain_pairs(alloc, Round::large())?)?;
        Ok(map.len() as u64)
    }
}
