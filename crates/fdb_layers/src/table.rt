ghost use Rattle.fdb_layers.specs.Table.{IsOfTable, AreIndexed};

use fdb_roles::Layer;

/// A table with an index. The record of an ID holds a value of four bytes, and the index has an entry for each record,
/// which finds its ID by its value. A transaction puts a record, removes one, or only reads. Index and records agree
/// between any two of them.
pub struct IndexedTable;

impl Layer for IndexedTable {
    ghost allows = { IsOfTable };

    ghost holds = { AreIndexed };

    fn starts() {}

    fn keeps() {}
}
