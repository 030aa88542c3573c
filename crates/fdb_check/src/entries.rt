// Which entries follow on one another, as those of a book do.
ghost use Rattle.std.specs.Prelude.{◌<◌, ◌↔◌, All, IsTrue, MatchResult};
ghost use Rattle.std.specs.List.{AllByRecursion};
ghost use Rattle.fdb_txn.specs.book.History.{IsSealed};
ghost use Rattle.fdb_check.specs.Judged.{FollowOn, IsToJudge, IsNoBook};
ghost use Rattle.fdb_roles.specs.Judging.{MayFollow};

use fdb_keys::{Key, Refusal};
use fdb_txn::{Entry, Move, RESOLVER_LIMIT, Sealed, Splits};

fn do_targets_exist(moves: &[Move], resolvers: u32) -> bool
    ensures { IsTrue result ↔ All (λ move. move.to < resolvers) moves.now }
{
    moves.iter().all(|one_move| one_move.to < resolvers)
}

fn are_reads_below(batch: &[Sealed], version: u64) -> bool
    ensures { IsTrue result ↔ All (λ t. t.read < version) batch.now }
{
    batch.iter().all(|txn| txn.read_version() < version)
}

// Whether the entry may stand after one of the version and horizon, where there are so many resolvers.
fn may_follow(last: u64, horizon: u64, resolvers: u32, entry: &Entry) -> bool
    ensures { IsTrue result ↔ MayFollow last horizon resolvers entry.now }
{
    last < entry.version
        && entry.prev == last
        && horizon <= entry.horizon
        && entry.horizon < entry.version
        && do_targets_exist(entry.moves.as_slice(), resolvers)
        && are_reads_below(entry.batch.as_slice(), entry.version)
}

// What a transaction's mutations name is in its write set, as of every sealed one, for all of the entries.
fn know_sealed(book: &[Entry])
    ensures { AllByRecursion IsSealed book.now }
{
    for entry in book {
        let _batch = entry.batch.as_slice();
    }
}

// Whether the entries follow on one another from version and horizon 0 on, where there are so many resolvers.
fn are_entries(resolvers: u32, book: &[Entry]) -> bool
    ensures { IsTrue result ↔ FollowOn resolvers 0 0 book.now }
{
    know_sealed(book);
    let mut last = 0;
    let mut horizon = 0;
    for entry in book {
        if !may_follow(last, horizon, resolvers, entry) {
            return false;
        }
        last = entry.version;
        horizon = entry.horizon;
    }
    true
}

/// Whether the keys are splits into at most 64 pieces, and the entries follow on one another as those of a book do,
/// with a resolver for each piece. It takes no memory. Refused as `BadConfig` where the keys are no splits, and as
/// `Chain` where they are and the entries don't follow.
pub(crate) fn check_book(splits: &[Key], book: &[Entry]) -> Result<(), Refusal>
    ensures { MatchResult result
        (λ _. IsToJudge splits.now book.now) (IsNoBook splits.now book.now) }
{
    Splits::check(splits, RESOLVER_LIMIT as usize)?;
    if !are_entries(splits.len() as u32 + 1, book) {
        return Err(Refusal::Chain);
    }
    Ok(())
}
