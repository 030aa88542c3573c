// What is known of values by their types, for proofs that need it: these calls do nothing else, and take O(1) time.
ghost use Rattle.std.specs.Prelude.{IsTrue};
ghost use Rattle.fdb_keys.specs.Texts.{is_bound};
ghost use Rattle.fdb_interval.specs.Breakpoints.{AreRising};

use crate::history::History;
use fdb_interval::PointKey;
use fdb_keys::KeyRange;
use std::collections::BTreeMap;

/// A range's bounds are legal.
pub(crate) fn know_bounds(range: &KeyRange)
    ensures begin { IsTrue (is_bound range.now.begin) }
    ensures end { IsTrue (is_bound range.now.end) }
{
    let _begin = range.begin();
    let _end = range.end();
}

/// The keys of a map rise.
pub(crate) fn know_rising(breaks: &BTreeMap<PointKey, History>)
    ensures { AreRising breaks.now.entries }
{
    let _count = breaks.len();
}
