// The rule over all resolvers, entry by entry.
ghost use Rattle.std.specs.Prelude.{◌≡◌, ◌<◌, ◌≤◌, ◌++◌, min, length, List, [], ◌∷◌, None};
ghost use Rattle.std.specs.Prelude.{IfOk, IfErr, All};
ghost use Rattle.fdb_keys.specs.Answers.{Answers};
ghost use Rattle.fdb_keys.specs.declared.refusal.Refusal.TheVariants.{NoMemory};
ghost use Rattle.fdb_txn.specs.declared.entry.Entry.{Entry};
ghost use Rattle.fdb_txn.specs.book.Book.{DatedMove, seen_of, add_moves};
ghost use Rattle.fdb_owners.specs.Ownership.{resolvers_of};
ghost use Rattle.fdb_owners.specs.OwnersLaws.{AgreesWith};
ghost use Rattle.fdb_resolver.specs.Parts.{IsPart};
ghost use Rattle.fdb_resolver.specs.Resolvers.{IsNew};
ghost use Rattle.fdb_proxy.specs.Verdicts.{moves_through, outcomes_on};
ghost use Rattle.fdb_roles.specs.Lists.{Each};
ghost use Rattle.fdb_check.specs.Judged.{FollowOn};
ghost use Rattle.fdb_check.specs.Judging.{HaveMoves, MayTake, HaveSaid};
ghost use Rattle.fdb_roles.specs.AtBook.{IsResolverAt};

use fdb_keys::{Items, Key, Refusal};
use fdb_owners::Owners;
use fdb_proxy::{Outcome, Position, outcomes_of, parts_of};
use fdb_resolver::{Part, ResolverCore, Verdict};
use fdb_txn::{Entry, Move, RESOLVER_LIMIT, Splits};
use std::alloc::{AllocError, Global};
use std::marker::Model;

/// It takes the entries of a book, one after another, and says what becomes of their places by the rule over all
/// resolvers.
#[derive(Drop)]
pub(crate) struct Judge {
    alloc: Global,
    owners: Owners,
    // the version of the last entry
    last: u64,
    resolvers: Vec<ResolverCore>,
}

impl Model for Judge {
    ghost use Rattle.fdb_check.specs.Judging.{Judge, IsJudge};

    ghost Value = { Judge };

    ghost view = { λ judge. record { owners = judge.owners; last = judge.last; resolvers = judge.resolvers.items } };

    ghost invariant = { λ judge. IsJudge (record {
      owners = judge.owners;
      last = judge.last;
      resolvers = judge.resolvers.items;
    }) };
}

impl Judge {
    ghost use Rattle.std.specs.Prelude.{◌≡◌, ◌++◌, suc, length, List, [], ◌∷◌, None, IfOk};
    ghost use Rattle.fdb_keys.specs.Answers.{Answers};
    ghost use Rattle.fdb_keys.specs.Points.{Point};
    ghost use Rattle.fdb_txn.specs.declared.entry.Entry.{Entry};
    ghost use Rattle.fdb_txn.specs.Limits.{resolver_limit};
    ghost use Rattle.fdb_txn.specs.book.Book.{seen_of};
    ghost use Rattle.fdb_txn.specs.rules.Splits.{splits_fault};
    ghost use Rattle.fdb_proxy.specs.Verdicts.{outcomes_on};
    ghost use Rattle.fdb_owners.specs.Ownership.{resolvers_of};
    ghost use Rattle.fdb_check.specs.Judged.{FollowOn};
    ghost use Rattle.fdb_check.specs.Judging.{IsJudgeAt};
    ghost use Rattle.fdb_roles.specs.Judging.{MayFollow};

    /// The judge before the first entry, for one resolver more than there are splits. Refused as `BadConfig` where
    /// these are no splits into at most 64 pieces, and as `NoMemory`.
    pub(crate) fn new(alloc: Global, splits: &[Key]) -> Result<Self, Refusal>
        ensures { Answers result (splits_fault resolver_limit splits.now) (IsJudgeAt splits.now []) }
    {
        Splits::check(splits, RESOLVER_LIMIT as usize)?;
        let count = splits.len() as u32 + 1;
        let owners = Owners::new(alloc, splits, count)?;
        let resolvers = new_cores(alloc, count)?;
        Ok(Judge {
            alloc,
            owners,
            last: 0,
            resolvers,
        })
    }

    /// Takes the next entry, and says what becomes of each of its places. Refused only as `NoMemory`, where the entry
    /// is the next one of a book.
    pub(crate) fn take(&mut self, entry: &Entry) -> Result<Items<Outcome>, Refusal>
        requires { MayFollow self.old.last self.old.owners.floor (resolvers_of self.old.owners) entry.now }
        ensures count { IfOk result (λ outcomes. length outcomes ≡ length entry.now.batch) }
        ensures outcomes { (splits : List Point) (before : List Entry) → IsJudgeAt splits before self.old
            → FollowOn (suc (length splits)) 0 0 (before ++ entry.now ∷ [])
            → Answers result None (λ outcomes. (outcomes ≡ outcomes_on splits (seen_of before) entry.now)
            × IsJudgeAt splits (before ++ entry.now ∷ []) self.new) }
    {
        self.last = entry.version;
        learn(&mut self.owners, entry)?;
        let outcomes = judge_entry(self.alloc, &self.owners, &mut self.resolvers, entry)?;
        Ok(outcomes)
    }
}

// So many resolvers, which took nothing.
fn new_cores(alloc: Global, count: u32) -> Result<Vec<ResolverCore>, AllocError>
    ensures count { IfOk result (λ resolvers. length resolvers.items ≡ count) }
    ensures each { IfOk result (λ resolvers. Each IsNew resolvers.items) }
{
    let mut resolvers = Vec::new(alloc);
    for index in 0..count {
        resolvers.push(ResolverCore::new(alloc, index))?;
    }
    Ok(resolvers)
}

// Learns the moves, if there are any.
fn learn_some(owners: &mut Owners, version: u64, moves: &[Move]) -> Result<(), Refusal>
    requires later { owners.old.last < version }
    requires targets { All (λ move. move.to < resolvers_of owners.old) moves.now }
    ensures answers { Answers result None (λ _. (older : List DatedMove) → AgreesWith owners.old older
        → AgreesWith owners.new (add_moves version moves.now older)) }
    ensures known { HaveMoves owners.old → HaveMoves owners.new }
    ensures splits { owners.new.splits ≡ owners.old.splits }
    ensures last { owners.new.last ≤ version }
    ensures floor { owners.new.floor ≡ owners.old.floor }
{
    if moves.is_empty() {
        return Ok(());
    }
    owners.learn(version, moves)
}

// Learns the entry's moves, and forgets who owned what below its horizon.
fn learn(owners: &mut Owners, entry: &Entry) -> Result<(), Refusal>
    requires later { owners.old.last < entry.now.version }
    requires targets { All (λ move. move.to < resolvers_of owners.old) entry.now.moves }
    requires kept { owners.old.floor ≤ entry.now.horizon }
    ensures answers { Answers result None (λ _. (older : List DatedMove) → AgreesWith owners.old older
        → AgreesWith owners.new (add_moves entry.now.version entry.now.moves older)) }
    ensures known { HaveMoves owners.old → HaveMoves owners.new }
    ensures splits { owners.new.splits ≡ owners.old.splits }
    ensures last { owners.new.last ≤ entry.now.version }
    ensures floor { owners.new.floor ≤ entry.now.horizon }
{
    learn_some(owners, entry.version, entry.moves.as_slice())?;
    owners.expire(entry.horizon);
    Ok(())
}

// Each resolver takes its part. Answers what each one said, in their order.
fn take_parts(
    alloc: Global,
    resolvers: &mut Vec<ResolverCore>,
    parts: &[Part],
) -> Result<Items<Option<Items<(u32, Verdict)>>>, Refusal>
    requires count { length resolvers.old.items ≡ length parts.now }
    requires parts { All IsPart parts.now }
    ensures count { length resolvers.new.items ≡ length resolvers.old.items }
    ensures said { IfOk result
        (λ said. HaveSaid (length parts.now) resolvers.old.items parts.now resolvers.new.items said) }
    ensures err { MayTake resolvers.old.items parts.now → IfErr result (λ why. why ≡ NoMemory) }
{
    let mut said = Items::new(alloc);
    for (number, part) in parts.iter().enumerate() {
        let verdicts = resolvers[number].take(part)?;
        said.push(Some(verdicts.answers))?;
    }
    Ok(said)
}

// What becomes of the places of the entry, by owners that learnt its moves and resolvers that took the entries before.
fn judge_entry(
    alloc: Global,
    owners: &Owners,
    resolvers: &mut Vec<ResolverCore>,
    entry: &Entry,
) -> Result<Items<Outcome>, Refusal>
    requires count { length resolvers.old.items ≡ resolvers_of owners.now }
    requires known { HaveMoves owners.now }
    requires later { entry.now.prev < entry.now.version }
    requires learnt { owners.now.last ≤ entry.now.version }
    requires kept { owners.now.floor ≤ min entry.now.horizon entry.now.version }
    ensures count { IfOk result (λ outcomes. length outcomes ≡ length entry.now.batch) }
    ensures resolvers { length resolvers.new.items ≡ length resolvers.old.items }
    ensures outcomes { (before : List Entry) → AgreesWith owners.now (moves_through (seen_of before) entry.now)
        → Each (IsResolverAt owners.now.splits before) resolvers.old.items
        → FollowOn (resolvers_of owners.now) 0 0 (before ++ entry.now ∷ [])
        → Answers result None (λ outcomes. (outcomes ≡ outcomes_on owners.now.splits (seen_of before) entry.now)
        × Each (IsResolverAt owners.now.splits (before ++ entry.now ∷ [])) resolvers.new.items) }
{
    // The verdicts don't hang on the entry's number.
    let position = Position {
        index: 0,
        version: entry.version,
        prev: entry.prev,
        horizon: entry.horizon,
    };
    let batch = entry.batch.as_slice();
    let parts = parts_of(alloc, owners, position, batch)?;
    let verdicts = take_parts(alloc, resolvers, parts.as_slice())?;
    let outcomes = outcomes_of(alloc, entry.version, verdicts.as_slice(), batch.len())?;
    Ok(outcomes)
}
