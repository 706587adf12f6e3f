//! An index: its name, its expressions and its table.
ghost use Rattle.std.specs.Prelude.{◌≡◌, length};
ghost use Rattle.index_tables.specs.Entries.{HaveWidth};

use crate::exprs::IndexExprs;
use index_tables::IndexTable;
use u1_base::IndexName;

/// An index over the documents of a state, seen as its name, its expressions and its table. Each
/// key of the table has as many texts as there are expressions. Only a state makes one.
#[derive(Drop)]
pub struct Index {
    pub(crate) name: IndexName,
    pub(crate) exprs: IndexExprs,
    pub(crate) table: IndexTable,
    pub ghost wide: { HaveWidth (length exprs.texts) table.pairs },
}

impl Index {
    pub fn name(&self) -> &IndexName
        ensures { result.now ≡ self.now.name }
    {
        &self.name
    }

    pub fn exprs(&self) -> &IndexExprs
        ensures { result.now ≡ self.now.exprs }
    {
        &self.exprs
    }

    pub fn table(&self) -> &IndexTable
        ensures value { result.now ≡ self.now.table }
        ensures wide { HaveWidth (length self.now.exprs.texts) result.now.pairs }
    {
        &self.table
    }
}
