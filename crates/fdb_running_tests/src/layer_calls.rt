// The calls that who writes a layer looks for.
ghost use Rattle.std.specs.Prelude.{◌≡◌, ⊤, ℕ, OnOk, IfSome};
ghost use Rattle.fdb_keys.specs.declared.refusal.Refusal.{Refusal as ARefusal};
ghost use Rattle.fdb_runtime.specs.Works.{IsSameSession, IsStillOpen, IsUntouched};

use crate::asserting::same;
use fdb_hosts::{Done, Host, Named, byte_of, put, receipt_of, two_sessions};
use fdb_keys::{Key, KeyRange, Refusal};
use fdb_making::{coded, count_config};
use fdb_runtime::{
    Blank, ClusterName, Config, Database, Everything, NoGate, Pages, ReadOptions, Receipt, Session,
    Status, Tries, Work,
};
use std::alloc::Global;
use std::marker::Brand;
use std::process::Abort;
use std::sync::{Arc, Wait};
use std::test::Fail;

// The session's number, the number of its next transaction, and its open transaction's and its read version.
fn numbers_of<B: ClusterName>(session: &Session<B>) -> (u32, u64, Option<u64>, Option<u64>) {
    let open = match session.open_id() {
        Some(id) => Some(id.number),
        None => None,
    };
    (
        session.number(),
        session.next_number(),
        open,
        session.read_version(),
    )
}

// How many bytes the session's transaction has that sets one key of one byte to one byte: both, and both bounds of the
// key's range.
fn size_of_one<B: ClusterName>(alloc: Global, session: &mut Session<B>) -> Result<u64, Refusal> {
    let key = Key::new(alloc, b"a")?;
    session.set(alloc, &key, &[7])?;
    session.size()
}

// A transaction is given up.
fn give_up<B: ClusterName, R: Wait + Abort>(
    rt: &R,
    alloc: Global,
    session: &mut Session<B>,
) -> Done {
    same(rt, numbers_of(session), (1, 0, None, None));
    session.begin(rt, alloc)?;
    same(rt, numbers_of(session), (1, 1, Some(0), Some(0)));
    same(rt, coded(size_of_one(alloc, session)), Ok(5));
    session.abandon();
    same(rt, coded(session.size()), Err(9015));
    same(rt, numbers_of(session), (1, 1, None, None));
    let refused = receipt_of(session.commit(rt, alloc)).is_err();
    same(rt, refused, true);
    Ok(())
}

// Writes by each call that makes its mutation.
fn write_all<B: ClusterName>(alloc: Global, session: &mut Session<B>) -> Done {
    let one = Key::new(alloc, b"a")?;
    session.set(alloc, &one, &[7])?;
    session.add(alloc, &one, &[1])?;
    let two = Key::new(alloc, b"b")?;
    session.set(alloc, &two, &[9])?;
    session.clear(&two)
}

// The same of a range and of a stamp.
fn write_more<B: ClusterName>(alloc: Global, session: &mut Session<B>) -> Done {
    let key = Key::new(alloc, b"c")?;
    session.set(alloc, &key, &[5])?;
    let range = KeyRange::new(alloc, b"c", b"d")?;
    session.clear_range(&range)?;
    let stamped = Key::new(alloc, b"s")?;
    session.stamped(alloc, &stamped, &[1; 11], 1)
}

// What is read of the keys that were written.
fn written<B: ClusterName, R: Wait>(
    rt: &R,
    alloc: Global,
    session: &mut Session<B>,
) -> Result<[Option<u8>; 4], Refusal> {
    session.begin(rt, alloc)?;
    write_all(alloc, session)?;
    write_more(alloc, session)?;
    drop(receipt_of(session.commit(rt, alloc))?);
    session.begin(rt, alloc)?;
    Ok([
        byte_of(rt, alloc, session, b"a")?,
        byte_of(rt, alloc, session, b"b")?,
        byte_of(rt, alloc, session, b"c")?,
        byte_of(rt, alloc, session, b"s")?,
    ])
}

// How many pairs the next page has, 0 at the end.
fn page_size<B: ClusterName, R: Wait>(
    rt: &R,
    alloc: Global,
    session: &mut Session<B>,
    pages: &mut Pages,
) -> Result<usize, Refusal> {
    match pages.next_page(rt, alloc, session)? {
        Some(page) => Ok(page.len()),
        None => Ok(0),
    }
}

// How many pairs the first four pages of the keys from k to l have.
fn page_sizes<B: ClusterName, R: Wait>(
    rt: &R,
    alloc: Global,
    session: &mut Session<B>,
    limit: u32,
) -> Result<[usize; 4], Refusal> {
    session.begin(rt, alloc)?;
    let range = KeyRange::new(alloc, b"k", b"l")?;
    let mut pages = Pages::new(range, limit).on_snapshot();
    let mut sizes = [0; 4];
    for size in &mut sizes {
        *size = page_size(rt, alloc, session, &mut pages)?;
    }
    Ok(sizes)
}

// Five keys are walked over, by pages of some sizes.
fn walk<B: ClusterName, R: Wait + Abort>(rt: &R, alloc: Global, session: &mut Session<B>) -> Done {
    for key in 0..5 {
        let _spot = put(rt, alloc, session, &[b'k', key], key)?;
    }
    same(
        rt,
        coded(page_sizes(rt, alloc, session, 2)),
        Ok([2, 2, 1, 0]),
    );
    same(
        rt,
        coded(page_sizes(rt, alloc, session, 5)),
        Ok([5, 0, 0, 0]),
    );
    same(
        rt,
        coded(page_sizes(rt, alloc, session, 0)),
        Ok([5, 0, 0, 0]),
    );
    Ok(())
}

// The first key of the range from its end, by a snapshot read.
fn last_key<B: ClusterName, R: Wait>(
    rt: &R,
    alloc: Global,
    session: &mut Session<B>,
) -> Result<Option<u8>, Refusal> {
    session.begin(rt, alloc)?;
    let range = KeyRange::new(alloc, b"k", b"l")?;
    let options = ReadOptions::all().first(1).reversed().on_snapshot();
    let pairs = session.get_range(rt, alloc, &range, options)?;
    match pairs.as_slice().first() {
        Some((key, _value)) => Ok(key.bytes().last().copied()),
        None => Ok(None),
    }
}

// Adds one to a key by reading it. At the first tries another session writes the key in between.
#[derive(Drop)]
struct Clash<B: ClusterName> {
    other: Session<B>,
    tries: u32,
    clashes: u32,
}

// The first byte of the key n, as the session's open transaction reads it.
fn count_read<B: ClusterName, R: Wait>(
    rt: &R,
    alloc: Global,
    session: &mut Session<B>,
) -> Result<u8, Refusal>
    requires begun { IsUntouched session.old.current }
    ensures same { IsSameSession session.old session.new }
    ensures open { OnOk result (IsStillOpen session.old.current session.new.current) }
{
    let key = Key::new(alloc, b"n")?;
    let value = session.get(rt, alloc, &key, false)?;
    match value {
        Some(value) => Ok(value.as_slice().first().copied().unwrap_or(0)),
        None => Ok(0),
    }
}

// Sets it.
fn count_written<B: ClusterName>(
    alloc: Global,
    session: &mut Session<B>,
    value: u8,
) -> Result<(), Refusal>
    requires open { IsStillOpen session.old.current session.old.current }
    ensures same { IsSameSession session.old session.new }
    ensures open { OnOk result (IsStillOpen session.old.current session.new.current) }
{
    let key = Key::new(alloc, b"n")?;
    session.set(alloc, &key, &[value])
}

impl<B: ClusterName> Work<B, Everything> for Clash<B> {
    ghost Task = { ℕ };

    ghost task = { λ clash. clash.clashes };

    ghost does = { λ clash transcript. ⊤ };

    fn run<R: Wait>(
        &mut self,
        rt: &R,
        alloc: Global,
        session: &mut Session<B>,
    ) -> Result<(), Refusal> {
        self.tries = self.tries.saturating_add(1);
        let value = count_read(rt, alloc, session)?;
        if self.tries <= self.clashes {
            let _spot = put(rt, alloc, &mut self.other, b"n", value.saturating_add(10))?;
        }
        count_written(alloc, session, value.saturating_add(1))
    }
}

// Work that is turned down at each run.
#[derive(Drop)]
struct Turned {
    why: Refusal,
    runs: u32,
}

impl<B: ClusterName> Work<B, Everything> for Turned {
    ghost Task = { ARefusal };

    ghost task = { λ turned. turned.why };

    ghost does = { λ turned transcript. ⊤ };

    fn run<R: Wait>(
        &mut self,
        _rt: &R,
        _alloc: Global,
        _session: &mut Session<B>,
    ) -> Result<(), Refusal> {
        self.runs = self.runs.saturating_add(1);
        Err(self.why)
    }
}

// The session's and the transaction's number of the receipt, or the code of the refusal.
fn told_of<B: ClusterName>(answer: Result<Receipt<B>, Refusal>) -> Result<(u32, u64), u32> {
    match answer {
        Ok(receipt) => {
            let id = receipt.transcript().id;
            drop(receipt);
            Ok((id.session, id.number))
        }
        Err(why) => Err(why.code()),
    }
}

// Work that clashes twice is committed at the third try, and isn't at the second one.
fn clash_some<B: ClusterName, R: Wait + Abort>(
    rt: &R,
    alloc: Global,
    session: &mut Session<B>,
    other: Session<B>,
) -> Done {
    let next = session.next_number();
    let mut work = Clash {
        other,
        tries: 0,
        clashes: 2,
    };
    let told = told_of(session.transact(rt, alloc, Tries::at_most(2), &mut work));
    same(rt, (told, work.tries), (Err(1020), 2));
    work.clashes = 3;
    let told = told_of(session.transact(rt, alloc, Tries::at_most(5), &mut work));
    drop(work);
    same(rt, told, Ok((0, next.saturating_add(3))));
    session.begin(rt, alloc)?;
    same(rt, coded(byte_of(rt, alloc, session, b"n")), Ok(Some(31)));
    Ok(())
}

// What refuses the work is told: at once, where it isn't tried anew, and else once it was tried so often.
fn refuse_some<B: ClusterName, R: Wait + Abort>(
    rt: &R,
    alloc: Global,
    session: &mut Session<B>,
    why: Refusal,
) -> (Result<(u32, u64), u32>, u32) {
    let mut work = Turned { why, runs: 0 };
    let told = told_of(session.transact(rt, alloc, Tries::at_most(3), &mut work));
    (told, work.runs)
}

// How many entries are left, and how many logs and shards there are, none of which failed.
fn shown_by(status: Result<Status, Refusal>) -> Result<(u32, usize, usize, bool), Refusal> {
    let status = status?;
    let is_sound = status.failed_logs.iter().all(|failed| !*failed)
        && status.shards.iter().all(|shard| shard.ended.is_none());
    Ok((
        status.entries_left,
        status.failed_logs.len(),
        status.shards.len(),
        is_sound,
    ))
}

fn play<B: Named, R: Host>(rt: &R, alloc: Global, database: &mut Database<B>) -> Done {
    let (mut one, mut other) = two_sessions(alloc, database)?;
    let empty = coded(shown_by(database.status(rt)));
    let given_up = give_up(rt, alloc, &mut other);
    let read = coded(written(rt, alloc, &mut one));
    let walked = walk(rt, alloc, &mut one);
    let last = coded(last_key(rt, alloc, &mut one));
    let clashed = clash_some(rt, alloc, &mut one, other);
    let refused = refuse_some(rt, alloc, &mut one, Refusal::BadOperand);
    let tried_anew = refuse_some(rt, alloc, &mut one, Refusal::TransactionTooOld);
    drop(one);
    same(rt, (refused, tried_anew), ((Err(9008), 1), (Err(1007), 3)));
    same(rt, empty, Ok((100, 1, 1, true)));
    same(rt, read, Ok([Some(8), None, None, Some(1)]));
    same(rt, last, Ok(Some(4)));
    given_up?;
    walked?;
    clashed
}

fn use_calls<B: Named, R: Host>(rt: &R, alloc: Global, blank: Blank, config: &Config) -> Done
    requires cells { blank ≡ B.cells }
    requires config { config.now ≡ B.config }
{
    let gate = Arc::new(alloc, NoGate)?;
    let mut database: Database<B> = Database::start(rt, alloc, blank, config, 100, &gate)?;
    let played = play(rt, alloc, &mut database);
    let record = database.close(rt);
    same(rt, (coded(played), record.is_ok()), (Ok(()), true));
    drop(record);
    Ok(())
}

#[test]
fn layers_find_their_calls(rt: HostRuntime) -> Result<(), Fail> {
    let alloc = rt.alloc();
    let config = count_config(alloc, 2, 1, 100);
    let blank = Blank::new(alloc, 100)?;
    use_calls::<Brand, HostRuntime>(&rt, alloc, blank, &config)?;
    Ok(())
}
