// Pages of pairs, cut out of one pair more.
ghost use Rattle.std.specs.Prelude.{◌≡◌, ℕ, List, length, nat_lt};
ghost use Rattle.fdb_keys.specs.Points.{Point};
ghost use Rattle.fdb_mutations.specs.Pairs.{first_of, wanted};

use bytes::Bytes;
use fdb_keys::{Items, Key};

/// How many pairs to ask for, to tell whether there are more than the limit says: one more than the limit. It is 0,
/// which asks for all, where there is no limit, and for 2^32 - 1.
pub fn one_more(limit: u32) -> u32
    ensures { result ≡ wanted limit }
{
    match limit {
        0 => 0,
        limit => limit.checked_add(1).unwrap_or(0),
    }
}

/// The page, of so many pairs at most unless the limit is 0, of pairs that were read with a limit of one more, and
/// whether there is a further pair. It takes no memory, and O(1) time beside the drop of a pair.
pub fn page_of(pairs: Items<(Key, Bytes)>, limit: u32) -> (Items<(Key, Bytes)>, bool)
    ensures { (all : List (Point × List ℕ)) → pairs ≡ first_of (wanted limit) all
        → (result.0 ≡ first_of limit all) × (result.1 ≡ nat_lt (length result.0) (length all)) }
{
    let mut page = pairs;
    let more = limit != 0 && page.len() > limit as usize;
    if more {
        page.truncate(limit as usize);
    }
    (page, more)
}
