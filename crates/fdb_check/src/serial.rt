// The comparison of transcripts with the run of one transaction at a time.
ghost use Rattle.std.specs.Prelude.{◌≡◌, ◌⊎◌, suc, length, None, MatchResult};
ghost use Rattle.std.specs.List.{AllByRecursion};
ghost use Rattle.fdb_txn.specs.book.History.{IsBook};
ghost use Rattle.fdb_proxy.specs.Configs.{config_fault};
ghost use Rattle.fdb_check.specs.Spots.{IsFirstOther};
ghost use Rattle.fdb_roles.specs.Spots.{IsSerialized};

use crate::fault::CheckFault;
use crate::judged_book::JudgedBook;
use fdb_proxy::Config;
use fdb_roles::Placed;
use fdb_txn::Entry;
use std::alloc::Global;

/// Compares transcripts with the run of one transaction at a time: the committed transactions of the book's entries
/// run from the empty map, by version and by place in the batch. Answers the number of transcripts exactly where each
/// is serialized at its spot. At a spot in an entry the transaction stands at that place, under the spot's version,
/// with the transcript's id, read version, sets and mutations; it commits there, and each ordinary operation was
/// answered as on the map right before the place. At a read-only spot, whose version is the transcript's read version,
/// the transcript has no mutation and an empty write set, and was answered as on the map after all entries up to that
/// version; after the last one, where the book hasn't come to it.
///
/// A fault `Txn` names the first one that isn't, in the order of the run: by entry and place, and a read-only spot
/// after the entries of version at most its own. Else it fails only as `NoMemory`.
///
/// The configuration is a legal one. The entries are a book: versions rise from 0, and each previous version is that of
/// the entry before; horizons never fall, and each lies below its entry's version; each transaction reads below its
/// entry's version; moves go to resolvers that exist; no id is that of two places. It takes the logarithm of how many
/// transcripts and entries there are for each transcript, and what it takes to judge and to run the book.
pub fn serial_check(
    alloc: Global,
    config: &Config,
    book: &[Entry],
    placed: &[Placed],
) -> Result<u64, CheckFault>
    requires legal { config_fault config.now ≡ None }
    requires book { IsBook (suc (length config.now.resolver_splits)) book.now }
    ensures { MatchResult result
        (λ count. (count ≡ length placed.now)
        × AllByRecursion (IsSerialized config.now.resolver_splits book.now) placed.now)
        (λ fault. (fault ≡ CheckFault.NoMemory)
        ⊎ IsFirstOther book.now (IsSerialized config.now.resolver_splits book.now) placed.now fault) }
{
    let judged = match JudgedBook::new(alloc, config.resolver_splits.as_slice(), book) {
        Ok(judged) => judged,
        Err(_) => return Err(CheckFault::NoMemory),
    };
    judged.check(alloc, placed)
}
