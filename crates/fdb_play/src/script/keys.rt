// Keys and ranges that are the last words of a line. All words are read before a key or a range is made.
ghost use Rattle.fdb_keys.specs.Texts.{key_fault};
ghost use Rattle.fdb_play.specs.script.Faults.{Reads};
ghost use Rattle.fdb_play.specs.script.Grammar.{WritesBounds, WritesOneText, WritesRangeRead, WritesTarget};
ghost use Rattle.fdb_play.specs.script.Grammar.{bounds_fault};

use crate::script::fault::Fault;
use crate::script::texts::{make_key, make_range};
use crate::script::words::Words;
use fdb_keys::{Key, KeyRange};
use std::alloc::Global;

/// How a range is read: which pairs, how many of them at most, where 0 is no limit, and from which end.
#[derive(Drop)]
pub struct RangeRead {
    pub range: KeyRange,
    pub limit: u32,
    pub reverse: bool,
}

/// A range that goes over to a resolver.
#[derive(Drop)]
pub struct RangeTarget {
    pub range: KeyRange,
    pub to: u32,
}

/// The key that the last word gives. Bad where it is no byte text, and where words are left. Refused as `make_key`
/// refuses it.
pub fn last_key(alloc: Global, words: &mut Words<'_>) -> Result<Key, Fault>
    ensures { Reads result (WritesOneText words.old) key_fault }
{
    let text = words.last_text(alloc)?;
    let key = make_key(alloc, text.as_slice())?;
    Ok(key)
}

/// The range that the last two words give by its bounds. Bad where one is no byte text, and where words are left.
/// Refused as `make_range` refuses it.
pub fn last_range(alloc: Global, words: &mut Words<'_>) -> Result<KeyRange, Fault>
    ensures { Reads result (WritesBounds words.old) bounds_fault }
{
    let begin = words.text(alloc)?;
    let end = words.last_text(alloc)?;
    let range = make_range(alloc, begin.as_slice(), end.as_slice())?;
    Ok(range)
}

/// The read of a range that the last words give: its bounds, the limit, and `reverse` where it is read from its end.
/// Bad where they give none, and where words are left. Refused as `make_range` refuses the range.
pub fn last_range_read(alloc: Global, words: &mut Words<'_>) -> Result<RangeRead, Fault>
    ensures { Reads result (WritesRangeRead words.old) (λ read. bounds_fault read.range) }
{
    let begin = words.text(alloc)?;
    let end = words.text(alloc)?;
    let limit = words.small_number()?;
    let reverse = words.last_order()?;
    let range = make_range(alloc, begin.as_slice(), end.as_slice())?;
    Ok(RangeRead {
        range,
        limit,
        reverse,
    })
}

/// The range that the last three words give by its bounds, with the number of the resolver to which it goes over. Bad
/// where they give none, and where words are left. Refused as `make_range` refuses the range.
pub fn last_target(alloc: Global, words: &mut Words<'_>) -> Result<RangeTarget, Fault>
    ensures { Reads result (WritesTarget words.old) (λ target. bounds_fault target.range) }
{
    let begin = words.text(alloc)?;
    let end = words.text(alloc)?;
    let to = words.last_number()?;
    let range = make_range(alloc, begin.as_slice(), end.as_slice())?;
    Ok(RangeTarget { range, to })
}
