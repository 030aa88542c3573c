// What becomes of the places of all entries of a book.
ghost use Rattle.std.specs.Prelude.{◌≡◌, suc, [], length, None};
ghost use Rattle.fdb_keys.specs.Answers.{Answers};
ghost use Rattle.fdb_txn.specs.Limits.{resolver_limit};
ghost use Rattle.fdb_txn.specs.rules.Splits.{splits_fault};
ghost use Rattle.fdb_owners.specs.Ownership.{resolvers_of};
ghost use Rattle.fdb_check.specs.Judged.{AreJudged, FollowOn};
ghost use Rattle.fdb_check.specs.Judging.{IsJudgeAt};

use crate::judge::Judge;
use fdb_keys::{Items, Key, Refusal};
use fdb_proxy::Outcome;
use fdb_txn::Entry;
use std::alloc::Global;

// The judge takes all entries, from the first one on.
fn judge_entries(
    alloc: Global,
    judge: &mut Judge,
    book: &[Entry],
) -> Result<Items<Items<Outcome>>, Refusal>
    requires entries { FollowOn (resolvers_of judge.old.owners) 0 0 book.now }
    requires first { IsJudgeAt judge.old.owners.splits [] judge.old }
    ensures { Answers result None (AreJudged judge.old.owners.splits book.now) }
{
    let mut judged = Items::new(alloc);
    for entry in book {
        let outcomes = judge.take(entry)?;
        judged.push(outcomes)?;
    }
    Ok(judged)
}

/// What becomes of the places of each entry, by the entry's number. Refused only as `NoMemory`.
pub(crate) fn judge_book(
    alloc: Global,
    splits: &[Key],
    book: &[Entry],
) -> Result<Items<Items<Outcome>>, Refusal>
    requires splits { splits_fault resolver_limit splits.now ≡ None }
    requires entries { FollowOn (suc (length splits.now)) 0 0 book.now }
    ensures { Answers result None (AreJudged splits.now book.now) }
{
    let mut judge = Judge::new(alloc, splits)?;
    let judged = judge_entries(alloc, &mut judge, book)?;
    Ok(judged)
}
