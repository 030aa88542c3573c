//! What a closed database held, carried over to the next one.
ghost use Rattle.std.specs.Prelude.{◌≡◌, ◌≤◌, ◌<◌, ◌⊎◌, ◌↔◌, true, false, length, map, take, drop, sum_by, suc, None};
ghost use Rattle.std.specs.Prelude.{[], ◌∷◌, ℕ, List, Some, IfErr, IfOk, OnOk};
ghost use Rattle.std.specs.Option.{unwrap_or};
ghost use Rattle.fdb_keys.specs.Answers.{Answers};
ghost use Rattle.fdb_keys.specs.Points.{Point};
ghost use Rattle.fdb_keys.specs.declared.refusal.Refusal.TheVariants.{NotCommitted};
ghost use Rattle.fdb_mutations.specs.Pairs.{pairs_in};
ghost use Rattle.fdb_txn.specs.book.Book.{last_version};
ghost use Rattle.fdb_layers.specs.Operations.{DoesMore, HasDone};
ghost use Rattle.fdb_layers.specs.Reads.{count_left, pairs_left, run_read, HasOnlyRead, HasWrittenNone};
ghost use Rattle.fdb_layers.specs.Rolling.{pair_size, setting, AreSet, AreSetAtOnce, BeginWith, ComparesPage, GoesOn};
ghost use Rattle.fdb_layers.specs.Rolling.{is_of_carrying, is_of_commit, is_of_set, HasOthers, IsCarriedOver};
ghost use Rattle.fdb_runtime.specs.Works.{IsSameSession, IsUntouched};
ghost use Rattle.fdb_sections.specs.Records.{every_key};
ghost use Rattle.fdb_sections.specs.Refusals.{is_of_begin, is_of_read};
ghost use Rattle.fdb_sections.specs.Sessions.{with_current};
ghost use Rattle.fdb_sections.specs.ShardViews.{run_of};

use crate::reads::next_page;
use fdb_keys::{Items, Key, KeyRange, Refusal};
use fdb_roles::Layer;
use fdb_runtime::{Bytes, ClusterName, Pages, Record, Session};
use std::alloc::Global;
use std::sync::Wait;

// How many bytes of pairs one transaction sets at the most, unless it sets one pair alone.
const ROOM: u64 = 1_000_000;

// How many pairs are read at once.
const PAGE: u32 = 1_000;

// No less than what the pair adds to the size of a transaction that sets it.
fn pair_size(pair: &(Key, Bytes)) -> u64
    ensures value { result ≡ pair_size pair.now }
    ensures bound { result ≤ 9_223_372_036_854_900_000 }
{
    (3 * pair.0.bytes().len() + 1 + pair.1.len()) as u64
}

// The count, or one where that is 0.
fn one_at_least(count: usize) -> usize
    ensures some { 0 < result }
    ensures least { count ≤ result }
    ensures same { (result ≡ count) ⊎ (result ≡ 1) }
{
    if count == 0 {
        return 1;
    }
    count
}

// How many of the first pairs go into one transaction: one, or as many as have no more bytes together than there is
// room for, of which the next pair would have more.
fn count_fitting(pairs: &[(Key, Bytes)]) -> usize
    requires { 0 < length pairs.now }
    ensures some { 0 < result }
    ensures within { result ≤ length pairs.now }
    ensures fits { (result ≡ 1) ⊎ (sum_by pair_size (take result pairs.now) ≤ 1_000_000) }
    ensures full { (result ≡ length pairs.now) ⊎ (1_000_000 < sum_by pair_size (take (suc result) pairs.now)) }
{
    let mut count = 0;
    let mut size = 0;
    for pair in pairs {
        size += pair_size(pair);
        if size > ROOM {
            return one_at_least(count);
        }
        count += 1;
    }
    count
}

// The open transaction sets the pair.
fn set_pair<C: ClusterName>(
    alloc: Global,
    session: &mut Session<C>,
    pair: &(Key, Bytes),
) -> Result<(), Refusal>
    ensures kept { session.new ≡ with_current session.old session.new.current }
    ensures sets { OnOk result (DoesMore session.old.current (setting pair.now ∷ []) session.new.current) }
    ensures refusals { IfErr result (λ why. is_of_set why ≡ true) }
{
    session.set(alloc, &pair.0, pair.1.as_slice())
}

// The open transaction, which did nothing before, sets all pairs.
fn set_all<C: ClusterName>(
    alloc: Global,
    session: &mut Session<C>,
    pairs: &[(Key, Bytes)],
) -> Result<(), Refusal>
    requires begun { IsUntouched session.old.current }
    ensures kept { session.new ≡ with_current session.old session.new.current }
    ensures sets { OnOk result (HasDone session.new.current (map setting pairs.now)) }
    ensures refusals { IfErr result (λ why. is_of_set why ≡ true) }
{
    for pair in pairs {
        set_pair(alloc, session, pair)?;
    }
    Ok(())
}

// Commits the open transaction.
fn commit_all<C: ClusterName, R: Wait>(
    rt: &R,
    alloc: Global,
    session: &mut Session<C>,
) -> Result<(), Refusal>
    ensures goes_on { GoesOn session.old session.new }
    ensures set { OnOk result ((pairs : List (Point × List ℕ)) → HasDone session.old.current (map setting pairs)
        → AreSetAtOnce C.config.resolver_splits session.new.front pairs) }
    ensures refusals { IfErr result (λ why. is_of_commit why ≡ true) }
    ensures unread { IfErr result (λ why. (pairs : List (Point × List ℕ))
        → HasDone session.old.current (map setting pairs) → why ≡ NotCommitted → ⊥) }
{
    let receipt = session.commit(rt, alloc)?;
    let _spot = receipt.spot();
    drop(receipt);
    Ok(())
}

// Sets the pairs in one transaction, and commits that.
fn copy_part<C: ClusterName, R: Wait>(
    rt: &R,
    alloc: Global,
    session: &mut Session<C>,
    pairs: &[(Key, Bytes)],
) -> Result<(), Refusal>
    ensures goes_on { GoesOn session.old session.new }
    ensures set { OnOk result (AreSetAtOnce C.config.resolver_splits session.new.front pairs.now) }
    ensures refusals { IfErr result (λ why. is_of_carrying why ≡ true) }
    ensures unread { IfErr result (λ why. why ≡ NotCommitted → ⊥) }
{
    session.begin(rt, alloc)?;
    set_all(alloc, session, pairs)?;
    commit_all(rt, alloc, session)
}

// Sets all pairs, by transactions that each have as many as fit.
fn copy_all<C: ClusterName, R: Wait>(
    rt: &R,
    alloc: Global,
    session: &mut Session<C>,
    pairs: &[(Key, Bytes)],
) -> Result<(), Refusal>
    ensures goes_on { GoesOn session.old session.new }
    ensures set { OnOk result (AreSet C.config.resolver_splits session.new.front pairs.now) }
    ensures refusals { IfErr result (λ why. is_of_carrying why ≡ true) }
    ensures unread { IfErr result (λ why. why ≡ NotCommitted → ⊥) }
{
    let mut rest = pairs;
    while !rest.is_empty() {
        let (part, others) = rest.split_at(count_fitting(rest));
        copy_part(rt, alloc, session, part)?;
        rest = others;
    }
    Ok(())
}

// How many pairs the page has, if the pairs begin with them.
fn count_same(page: &[(Key, Bytes)], pairs: &[(Key, Bytes)]) -> Option<usize>
    ensures { BeginWith pairs.now page.now result }
{
    if pairs.starts_with(page) {
        return Some(page.len());
    }
    None
}

// The same of a page that there may be.
fn count_of_page(page: &Option<Items<(Key, Bytes)>>, pairs: &[(Key, Bytes)]) -> Option<usize>
    ensures { BeginWith pairs.now (unwrap_or page.now []) result }
{
    match page {
        Some(page) => count_same(page.as_slice(), pairs),
        None => Some(0),
    }
}

// Reads the next page of a walk that hasn't ended, and tells how many pairs it has, if the pairs begin with them.
fn compare_page<C: ClusterName, R: Wait>(
    rt: &R,
    alloc: Global,
    session: &mut Session<C>,
    pages: &mut Pages,
    pairs: &[(Key, Bytes)],
) -> Result<Option<usize>, Refusal>
    requires unwritten { HasWrittenNone session.old.current }
    requires some { pages.old.rest ≡ None → ⊥ }
    ensures same { IsSameSession session.old session.new }
    ensures seen { session.new.front ≡ session.old.front }
    ensures reads { OnOk result (HasOnlyRead session.old session.new) }
    ensures compares { IfOk result (λ count.
        ComparesPage (pairs_left (run_read C.config.resolver_splits session.old) pages.old.rest)
        (pairs_left (run_read C.config.resolver_splits session.old) pages.new.rest) pairs.now count) }
    ensures fewer { OnOk result (count_left (run_read C.config.resolver_splits session.old) pages.new.rest
        < count_left (run_read C.config.resolver_splits session.old) pages.old.rest) }
    ensures refusals { IfErr result (λ why. is_of_read why ≡ true) }
{
    let page = next_page(rt, alloc, session, pages)?;
    let count = count_of_page(&page, pairs);
    drop(page);
    Ok(count)
}

// The pairs behind so many of them.
fn behind(pairs: &[(Key, Bytes)], count: usize) -> &[(Key, Bytes)]
    requires { count ≤ length pairs.now }
    ensures { result.now ≡ drop count pairs.now }
{
    let (_first, others) = pairs.split_at(count);
    others
}

// Whether a walk over every key reads just the pairs.
fn reads_just<C: ClusterName, R: Wait>(
    rt: &R,
    alloc: Global,
    session: &mut Session<C>,
    pages: &mut Pages,
    pairs: &[(Key, Bytes)],
) -> Result<bool, Refusal>
    requires unwritten { HasWrittenNone session.old.current }
    requires begun { pages.old.rest ≡ Some every_key }
    ensures same { IsSameSession session.old session.new }
    ensures seen { session.new.front ≡ session.old.front }
    ensures just { IfOk result (λ just. (just ≡ true)
        ↔ (pairs.now ≡ pairs_in (run_read C.config.resolver_splits session.old) every_key false)) }
    ensures refusals { IfErr result (λ why. is_of_read why ≡ true) }
{
    let mut rest = pairs;
    while pages.rest.is_some() {
        match compare_page(rt, alloc, session, pages, rest)? {
            Some(count) => rest = behind(rest, count),
            None => return Ok(false),
        }
    }
    Ok(rest.is_empty())
}

// The range that has every key. Refused only as `NoMemory`.
#[tactic(auto, unfolding(fdb_keys::specs::Points::point_lt))]
fn every_key(alloc: Global) -> Result<KeyRange, Refusal>
    ensures { Answers result None (λ range. range ≡ every_key) }
{
    KeyRange::new(alloc, &[], &[0xff])
}

// Whether the database has just the pairs at the version of the open transaction, which did nothing before.
fn has_just<C: ClusterName, R: Wait>(
    rt: &R,
    alloc: Global,
    session: &mut Session<C>,
    pairs: &[(Key, Bytes)],
) -> Result<bool, Refusal>
    requires begun { IsUntouched session.old.current }
    ensures same { IsSameSession session.old session.new }
    ensures seen { session.new.front ≡ session.old.front }
    ensures just { IfOk result (λ just. (just ≡ true)
        ↔ (pairs.now ≡ pairs_in (run_read C.config.resolver_splits session.old) every_key false)) }
    ensures refusals { IfErr result (λ why. is_of_read why ≡ true) }
{
    let mut pages = Pages::new(every_key(alloc)?, PAGE);
    reads_just(rt, alloc, session, &mut pages, pairs)
}

// A version at which the database has just the pairs. Refused as `NotCommitted` where it has others.
fn confirm<C: ClusterName, R: Wait>(
    rt: &R,
    alloc: Global,
    session: &mut Session<C>,
    pairs: &[(Key, Bytes)],
) -> Result<u64, Refusal>
    ensures goes_on { GoesOn session.old session.new }
    ensures reached { IfOk result (λ version. version ≤ last_version session.new.front) }
    ensures just { IfOk result (λ version.
        pairs_in (run_of C.config version session.new.front) every_key false ≡ pairs.now) }
    ensures others { IfErr result (λ why. why ≡ NotCommitted → HasOthers C.config session.new.front pairs.now) }
    ensures refusals { IfErr result (λ why. is_of_carrying why ≡ true) }
{
    let version = session.begin(rt, alloc)?;
    if has_just(rt, alloc, session, pairs)? {
        return Ok(version);
    }
    Err(Refusal::NotCommitted)
}

// Sets all pairs, and reads them back. The transaction that reads may be left open.
fn copy_and_confirm<C: ClusterName, R: Wait>(
    rt: &R,
    alloc: Global,
    session: &mut Session<C>,
    pairs: &[(Key, Bytes)],
) -> Result<u64, Refusal>
    ensures goes_on { GoesOn session.old session.new }
    ensures set { OnOk result (AreSet C.config.resolver_splits session.new.front pairs.now) }
    ensures reached { IfOk result (λ version. version ≤ last_version session.new.front) }
    ensures just { IfOk result (λ version.
        pairs_in (run_of C.config version session.new.front) every_key false ≡ pairs.now) }
    ensures others { IfErr result (λ why. why ≡ NotCommitted
        → AreSet C.config.resolver_splits session.new.front pairs.now
        × HasOthers C.config session.new.front pairs.now) }
    ensures refusals { IfErr result (λ why. is_of_carrying why ≡ true) }
{
    copy_all(rt, alloc, session, pairs)?;
    confirm(rt, alloc, session, pairs)
}

/// Carries all pairs of a closed database over to the next one, where everybody may write anything, and answers a
/// version at which that has just these pairs: on its serial run there stands what stood on the serial run of the
/// closed one at its committed version. Another transaction that was open is abandoned, and none is open afterwards.
///
/// It sets the pairs by blind transactions, each of no more than 1,000,000 bytes, and then reads all keys by one more
/// transaction, page by page, since other sessions may write meanwhile. Refused as `NotCommitted` exactly where it then
/// reads other pairs, and else as `Session::begin`, `Session::set`, `Session::commit` and `Session::get_range` are;
/// then some of its transactions may have been committed. It takes the time of its transactions, and of one
/// `Session::get_range` for each 1,000 pairs.
pub fn carry_over<B: ClusterName, L: Layer, C: ClusterName, R: Wait>(
    rt: &R,
    alloc: Global,
    record: &Record<B, L>,
    session: &mut Session<C>,
) -> Result<u64, Refusal>
    ensures carried { IfOk result (λ version. IsCarriedOver B.config «record».now C.config version session.new.front) }
    ensures set { OnOk result (AreSet C.config.resolver_splits session.new.front «record».now.pairs) }
    ensures others { IfErr result (λ why. why ≡ NotCommitted
        → AreSet C.config.resolver_splits session.new.front «record».now.pairs
        × HasOthers C.config session.new.front «record».now.pairs) }
    ensures goes_on { GoesOn session.old session.new }
    ensures ended { session.new.current ≡ None }
    ensures refusals { IfErr result (λ why. is_of_carrying why ≡ true) }
{
    session.abandon();
    let answer = copy_and_confirm(rt, alloc, session, record.pairs());
    session.abandon();
    answer
}
