ghost use Rattle.std.specs.Prelude.{◌≡◌, ◌≤◌, false, nat_eq};

use bytes::Bytes;
use fdb_client::{Page, PlainSnapshot, Snapshot};
use fdb_keys::{Key, KeyRange, Refusal};
use fdb_mutations::PlainMap;

// A plain map, read at a version, whose pages have no more pairs than the cut, or as many as asked for where it is 0.
// Where there is a fault, each read is refused by it.
#[derive(Clone, Copy)]
pub(super) struct CutSnapshot<'a> {
    pub(super) version: u64,
    pub(super) map: &'a PlainMap,
    pub(super) cut: u32,
    pub(super) fault: Option<Refusal>,
}

impl<'a> Snapshot for CutSnapshot<'a> {
    ghost at = { λ snapshot. snapshot.version };

    ghost map = { λ snapshot. snapshot.map.now };

    ghost key_fault = { λ snapshot key. snapshot.fault };

    ghost range_fault = { λ snapshot range. snapshot.fault };

    ghost serves_parts = { λ snapshot part range inside served. served };

    fn version(&self) -> u64 {
        self.version
    }

    fn get(&self, key: &Key) -> Result<Option<Bytes>, Refusal> {
        match self.fault {
            Some(why) => Err(why),
            None => whole(self).get(key),
        }
    }

    fn page(&self, range: &KeyRange, limit: u32, reverse: bool) -> Result<Page, Refusal> {
        match self.fault {
            Some(why) => Err(why),
            None => whole(self).page(range, lesser(limit, self.cut), reverse),
        }
    }
}

// The same map with whole pages.
fn whole<'a>(snapshot: &CutSnapshot<'a>) -> PlainSnapshot<'a>
    ensures version { result.version ≡ snapshot.now.version }
    ensures map { result.map.now ≡ snapshot.now.map.now }
{
    PlainSnapshot {
        version: snapshot.version,
        map: snapshot.map,
    }
}

// The lesser of two limits, of which 0 is none.
fn lesser(limit: u32, cut: u32) -> u32
    ensures { nat_eq limit 0 ≡ false → (nat_eq result 0 ≡ false) × (result ≤ limit) }
{
    if limit == 0 || (cut != 0 && cut < limit) {
        cut
    } else {
        limit
    }
}
