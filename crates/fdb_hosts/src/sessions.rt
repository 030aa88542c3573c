// What sessions of tests do and are asked.
ghost use Rattle.std.specs.Prelude.{◌≡◌, suc, length};
ghost use Rattle.fdb_txn.specs.book.History.{IsBook};

use crate::host::Named;
use fdb_check::{CheckFault, serial_check};
use fdb_keys::{Key, KeyRange, RangeSet, Refusal, Refused};
use fdb_making::{are_pairs, are_ranges, both, made_of};
use fdb_mutations::Mutation;
use fdb_runtime::{
    ClusterName, Config, Database, Entry, Placed, ReadOptions, Receipt, Record, Session, Spot,
    Transcript,
};
use std::alloc::Global;
use std::sync::Wait;

/// The next two sessions. What is told to both has them lent, so that no exit on the way drops any. No closure takes
/// them: the prover doesn't state a bound that names what runs over a database's name.
pub fn two_sessions<B: Named>(
    alloc: Global,
    database: &mut Database<B>,
) -> Result<(Session<B>, Session<B>), Refusal> {
    both(database.session(alloc), database.session(alloc))
}

/// Hands the keys from `begin` up to but not including `end` over to the resolver.
pub fn move_keys<B: Named, R: Wait>(
    rt: &R,
    alloc: Global,
    database: &Database<B>,
    begin: &[u8],
    end: &[u8],
    to: u32,
) -> Result<(), Refusal> {
    let range = KeyRange::new(alloc, begin, end)?;
    database.move_range(rt, &range, to)
}

/// How many entries the record has.
pub fn length_of<B: ClusterName>(record: Result<Record<B>, Refusal>) -> Result<usize, Refusal> {
    Ok(record?.front().len())
}

/// Commits the write of one byte to the key, and gives its spot.
pub fn put<B: ClusterName, R: Wait>(
    rt: &R,
    alloc: Global,
    session: &mut Session<B>,
    key: &[u8],
    value: u8,
) -> Result<Spot, Refusal> {
    session.begin(rt, alloc)?;
    write(session, Mutation::set(alloc, key, &[value]))?;
    let receipt = receipt_of(session.commit(rt, alloc))?;
    let spot = receipt.spot();
    drop(receipt);
    Ok(spot)
}

/// The session writes the key, to the mutation that is made.
pub fn write<B: ClusterName>(
    session: &mut Session<B>,
    mutation: Result<Mutation, Refusal>,
) -> Result<(), Refusal> {
    made_of(mutation, |mutation| session.write(mutation))
}

/// The code of the session's commit, 0 where there is a receipt, and whether its transcript is handed back.
pub fn commit_code<B: ClusterName, R: Wait>(
    rt: &R,
    alloc: Global,
    session: &mut Session<B>,
) -> (u32, bool) {
    refusal_code(session.commit(rt, alloc))
}

// The code of the refusal, 0 where there is none, and whether something is handed back.
fn refusal_code<T: Drop>(
    answer: Result<T, Refused<Option<(Transcript, RangeSet)>>>,
) -> (u32, bool) {
    match answer {
        Ok(_given) => (0, false),
        Err(refused) => (refused.why.code(), is_handed_back(&refused)),
    }
}

// Whether the transcript is handed back, and with it some points just where it conflicts.
fn is_handed_back(refused: &Refused<Option<(Transcript, RangeSet)>>) -> bool {
    match &refused.back {
        Some((_transcript, conflict)) => {
            conflict.is_empty() == (refused.why != Refusal::NotCommitted)
        }
        None => false,
    }
}

/// Commits the transaction. Answers the code of the refusal, and whether just the points of these ranges come with it.
pub fn refused_at<B: ClusterName, R: Wait>(
    rt: &R,
    alloc: Global,
    session: &mut Session<B>,
    ranges: &[(&[u8], &[u8])],
) -> (u32, bool) {
    match session.commit(rt, alloc) {
        Ok(_receipt) => (0, false),
        Err(refused) => match &refused.back {
            Some((_transcript, conflict)) => (
                refused.why.code(),
                are_ranges(conflict.iter().as_slice(), ranges),
            ),
            None => (refused.why.code(), false),
        },
    }
}

/// The receipt, or why there is none.
pub fn receipt_of<T, U: Drop>(answer: Result<T, Refused<U>>) -> Result<T, Refusal> {
    match answer {
        Ok(given) => Ok(given),
        Err(refused) => Err(refused.why),
    }
}

/// The value of a key as one byte, in a transaction.
pub fn byte_of<B: ClusterName, R: Wait>(
    rt: &R,
    alloc: Global,
    session: &mut Session<B>,
    key: &[u8],
) -> Result<Option<u8>, Refusal> {
    byte_by(rt, alloc, session, key, false)
}

/// The same by a snapshot read.
pub fn snapshot_of<B: ClusterName, R: Wait>(
    rt: &R,
    alloc: Global,
    session: &mut Session<B>,
    key: &[u8],
) -> Result<Option<u8>, Refusal> {
    byte_by(rt, alloc, session, key, true)
}

fn byte_by<B: ClusterName, R: Wait>(
    rt: &R,
    alloc: Global,
    session: &mut Session<B>,
    key: &[u8],
    is_snapshot: bool,
) -> Result<Option<u8>, Refusal> {
    let key = Key::new(alloc, key)?;
    match session.get(rt, alloc, &key, is_snapshot)? {
        Some(value) => Ok(value.as_slice().first().copied()),
        None => Ok(None),
    }
}

/// Where a range begins and ends, how many pairs are asked for, whether from its end; its pairs then.
pub type Asked = (&'static [u8], &'static [u8], u32, bool, &'static [(u8, u8)]);

/// Whether the session reads just these pairs.
pub fn reads_just<B: ClusterName, R: Wait>(
    rt: &R,
    alloc: Global,
    session: &mut Session<B>,
    asked: &Asked,
    is_snapshot: bool,
) -> Result<bool, Refusal> {
    let (begin, end, limit, reverse, wanted) = *asked;
    let range = KeyRange::new(alloc, begin, end)?;
    let options = ReadOptions {
        limit,
        reverse,
        snapshot: is_snapshot,
    };
    match session.get_range(rt, alloc, &range, options) {
        Ok(pairs) => Ok(are_pairs(pairs.as_slice(), wanted)),
        Err(why) => Err(why),
    }
}

/// The session adds the keys from a to y to what its transaction reads.
pub fn add_read<B: ClusterName>(alloc: Global, session: &mut Session<B>) -> Result<(), Refusal> {
    made_of(
        KeyRange::new(alloc, b"a", b"z"),
        |range| session.add_read(range),
    )
}

/// The same of what it writes.
pub fn add_write<B: ClusterName>(alloc: Global, session: &mut Session<B>) -> Result<(), Refusal> {
    made_of(
        KeyRange::new(alloc, b"a", b"z"),
        |range| session.add_write(range),
    )
}

/// How many transactions there are, if all are serialized in the book of the entries where they say.
pub fn serial_in(
    alloc: Global,
    config: &Config,
    entries: &[Entry],
    placed: &[Placed],
) -> Result<Option<u64>, Refusal>
    requires { IsBook (suc (length config.now.resolver_splits)) entries.now }
{
    config.check()?;
    match serial_check(alloc, config, entries, placed) {
        Ok(count) => Ok(Some(count)),
        Err(CheckFault::NoMemory) => Err(Refusal::NoMemory),
        Err(_fault) => Ok(None),
    }
}

/// Whether the receipt's transaction is serialized where it says on the receipt's front.
pub fn is_serial<B: ClusterName>(
    alloc: Global,
    config: &Config,
    receipt: Receipt<B>,
) -> Result<bool, Refusal>
    requires { config.now ≡ B.config }
{
    let entries = receipt.front().entries()?;
    let placed = [receipt.into_placed()];
    Ok(serial_in(alloc, config, entries.as_slice(), &placed)? == Some(1))
}
