use crate::snapshot::Snapshot;
use bytes::Bytes;
use fdb_keys::{Key, KeyRange, Refusal};
use fdb_mutations::{Page, PlainMap, copied};

/// A plain map, read at a version. It is refused nothing but memory.
#[derive(Clone, Copy)]
pub struct PlainSnapshot<'a> {
    /// The version that it is read at.
    pub version: u64,
    /// The map.
    pub map: &'a PlainMap,
}

impl<'a> Snapshot for PlainSnapshot<'a> {
    ghost use Rattle.std.specs.Prelude.{None, refl};

    ghost at = { λ snapshot. snapshot.version };

    ghost map = { λ snapshot. snapshot.map.now };

    ghost key_fault = { λ snapshot key. None };

    ghost range_fault = { λ snapshot range. None };

    ghost serves_parts = { λ snapshot part range inside served. refl };

    fn version(&self) -> u64 {
        self.version
    }

    fn get(&self, key: &Key) -> Result<Option<Bytes>, Refusal> {
        let value = copied(self.map.get(key))?;
        Ok(value)
    }

    fn page(&self, range: &KeyRange, limit: u32, reverse: bool) -> Result<Page, Refusal> {
        let (pairs, more) = self.map.page(range, limit, reverse)?;
        Ok(Page { pairs, more })
    }
}
