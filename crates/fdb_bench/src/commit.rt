// A commit proxy that commits batches, with nobody at its side: its resolvers say yes to all that they are asked, and
// its log takes all that it is sent.
ghost use Rattle.std.specs.Prelude.{◌≡◌, ◌<◌, ◌≤◌, ◌+◌, ◌-◌, ◌^◌, IfOk, IsTrue};
ghost use Rattle.std.specs.List.{AllByRecursion};
ghost use Rattle.fdb_txn.specs.book.Transactions.{Transaction};
ghost use Rattle.fdb_txn.specs.Limits.{window};
ghost use Rattle.fdb_bench.specs.Tickets.{AreMovesOf, IsOfMoves};

use crate::numbers::{Fault, even_splits, one_range, random_range, shared};
use fdb_keys::{Items, KeyRange, Refusal};
use fdb_log::LogAck;
use fdb_proxy::{CommitCore, Config};
use fdb_resolver::{Part, Verdict, Verdicts};
use fdb_sequencer::{Dated, Ticket};
use fdb_txn::{Move, RESOLVER_LIMIT, Sealed, TxnId, WINDOW};
use rand_pcg::Pcg32;
use std::alloc::Global;
use std::time::{Clock, Duration, Instant};

// How far each entry's version is above that of the one before it.
const ADVANCE: u64 = 1_000;

/// What is measured of a commit proxy.
#[derive(Clone, Copy)]
pub(crate) struct Setting {
    /// How many resolvers it asks, 1 to 64.
    pub(crate) resolvers: u32,
    /// How many transactions a batch has.
    pub(crate) batch: u32,
    /// How many transactions it commits.
    pub(crate) transactions: u32,
    /// How many moves it learnt longer ago than the window.
    pub(crate) moves: u32,
}

/// How long a commit proxy takes for the transactions, from their submission to the answers, each with one read range
/// and one write range. They are made outside of that time.
pub(crate) fn measure<R: Clock>(
    rt: &R,
    alloc: Global,
    setting: &Setting,
) -> Result<Duration, Fault> {
    match proxy_with(alloc, setting.resolvers) {
        Ok(mut core) => commit_all(rt, alloc, &mut core, setting),
        Err(why) => Err(why),
    }
}

// The commit proxy of so many resolvers.
fn proxy_with(alloc: Global, resolvers: u32) -> Result<CommitCore, Fault>
    ensures { IfOk result (λ core. core.proxy.owners.floor ≡ 0) }
{
    let config = config_of(alloc, resolvers)?;
    let core = CommitCore::new(alloc, 0, &config)?;
    Ok(core)
}

// How long it takes for the transactions.
fn commit_all<R: Clock>(
    rt: &R,
    alloc: Global,
    core: &mut CommitCore,
    setting: &Setting,
) -> Result<Duration, Fault>
    requires { core.old.proxy.owners.floor ≡ 0 }
{
    let mut random = Pcg32::new(1, 1);
    let begin = learn_moves(alloc, core, &mut random, setting.moves)?;
    let batches = setting.transactions.checked_div(setting.batch).unwrap_or(0);
    let mut took = Duration::ZERO;
    for batch in 0..batches {
        let prev = begin + u64::from(batch) * ADVANCE;
        let requests = requests(alloc, &mut random, batch, setting.batch, prev)?;
        took = took.saturating_add(commit_timed(rt, alloc, core, requests, prev)?);
    }
    Ok(took)
}

// So many resolvers with equally many keys, one log and one shard.
fn config_of(alloc: Global, resolvers: u32) -> Result<Config, Fault> {
    if resolvers == 0 || resolvers > RESOLVER_LIMIT {
        return Err(Fault::BadNumber);
    }
    let resolver_splits = even_splits(alloc, resolvers)?;
    Ok(Config {
        proxies: 1,
        logs: 1,
        resolver_splits,
        shard_splits: Items::new(alloc),
        book: 1,
    })
}

// Has the proxy learn moves of random ranges to the first resolver, each with an empty batch of its own, and gives a
// version that is a window above theirs.
fn learn_moves(
    alloc: Global,
    core: &mut CommitCore,
    random: &mut Pcg32,
    moves: u32,
) -> Result<u64, Refusal>
    requires { core.old.proxy.owners.floor ≡ 0 }
    ensures version { IfOk result (λ version. version ≤ 2 ^ 33) }
    ensures floor { IfOk result (λ version. core.new.proxy.owners.floor ≤ version - window) }
{
    for number in 0..moves {
        let version = u64::from(number) + 1;
        let range = random_range(alloc, random)?;
        let ticket = ticket(alloc, version, Some(range))?;
        commit(alloc, core, Vec::new(alloc), &ticket)?;
    }
    Ok(u64::from(moves) + WINDOW)
}

// A transaction with one read range and one write range.
fn request(
    alloc: Global,
    random: &mut Pcg32,
    id: TxnId,
    read_version: u64,
) -> Result<Sealed, Refusal> {
    let reads = one_range(alloc, random)?;
    let writes = one_range(alloc, random)?;
    let none = shared(alloc, Items::new(alloc))?;
    match Sealed::new(alloc, id, read_version, reads, writes, none) {
        Ok(sealed) => Ok(sealed),
        Err(refused) => Err(refused.why),
    }
}

// The transactions of a batch, which read at the version before it.
fn requests(
    alloc: Global,
    random: &mut Pcg32,
    batch: u32,
    count: u32,
    prev: u64,
) -> Result<Vec<Sealed>, Refusal> {
    let mut requests = Vec::new(alloc);
    for place in 0..count {
        let id = TxnId {
            session: place,
            number: u64::from(batch),
        };
        requests.push(request(alloc, random, id, prev)?)?;
    }
    Ok(requests)
}

// How long the proxy takes for the batch at the version after this one.
fn commit_timed<R: Clock>(
    rt: &R,
    alloc: Global,
    core: &mut CommitCore,
    requests: Vec<Sealed>,
    prev: u64,
) -> Result<Duration, Fault>
    requires few { prev < 2 ^ 63 }
    requires floor { core.old.proxy.owners.floor ≤ prev - window }
    ensures { IfOk result (λ _. core.new.proxy.owners.floor ≤ (prev + 1000) - window) }
{
    let ticket = ticket(alloc, prev + ADVANCE, None)?;
    let begin = Instant::now(rt)?;
    commit(alloc, core, requests, &ticket)?;
    let took = begin.elapsed(rt)?;
    Ok(took)
}

// The move to the first resolver at the version, if there is one.
fn moves_of(alloc: Global, version: u64, range: Option<KeyRange>) -> Result<Items<Dated>, Refusal>
    ensures { IfOk result (AreMovesOf version) }
{
    let mut dated = Items::new(alloc);
    if let Some(range) = range {
        let mut moves = Items::new(alloc);
        moves.push(Move { range, to: 0 })?;
        let moves = shared(alloc, moves)?;
        dated.push(Dated { version, moves })?;
    }
    Ok(dated)
}

// The ticket of the version, with a move of the range to the first resolver, if there is one.
fn ticket(alloc: Global, version: u64, range: Option<KeyRange>) -> Result<Ticket, Refusal>
    requires { 0 < version }
    ensures version { IfOk result (λ ticket. ticket.version ≡ version) }
    ensures moves { IfOk result IsOfMoves }
{
    let moves = moves_of(alloc, version, range)?;
    let pending = shared(alloc, Items::new(alloc))?;
    Ok(Ticket {
        proxy: 0,
        index: 0,
        version,
        prev: version.saturating_sub(1),
        horizon: version.saturating_sub(WINDOW),
        moves,
        pending,
    })
}

// Submits the requests, and has them be a batch that commits.
fn commit(
    alloc: Global,
    core: &mut CommitCore,
    requests: Vec<Sealed>,
    ticket: &Ticket,
) -> Result<(), Refusal>
    requires moves { IsOfMoves ticket.now }
    requires floor { core.old.proxy.owners.floor ≤ ticket.now.horizon }
    ensures { IfOk result (λ _. core.new.proxy.owners.floor ≤ ticket.now.horizon) }
{
    submit_all(core, requests)?;
    let _batch = core.seal()?;
    learn(core, ticket)?;
    ask(alloc, core)?;
    let _decision = core.decide()?;
    log(core)?;
    let _answers = core.done()?;
    Ok(())
}

fn submit_all(core: &mut CommitCore, requests: Vec<Sealed>) -> Result<(), Refusal>
    ensures { IfOk result (λ _. core.new.proxy.owners.floor ≡ core.old.proxy.owners.floor) }
{
    for request in requests {
        if let Err(refused) = core.submit(request) {
            return Err(refused.why);
        }
    }
    Ok(())
}

// Has the proxy learn the ticket. Refused as `Chain` where the batch didn't read below its version.
fn learn(core: &mut CommitCore, ticket: &Ticket) -> Result<(), Refusal>
    requires moves { IsOfMoves ticket.now }
    requires floor { core.old.proxy.owners.floor ≤ ticket.now.horizon }
    ensures { IfOk result (λ _. core.new.proxy.owners.floor ≤ ticket.now.horizon) }
{
    if !reads_below(core.batch(), ticket.version) {
        return Err(Refusal::Chain);
    }
    core.learn(ticket)
}

// Whether all of them read below the version.
fn reads_below(batch: &[Sealed], version: u64) -> bool
    ensures { IsTrue result → AllByRecursion (λ (t : Transaction). t.read < version) batch.now }
{
    match batch {
        [] => true,
        [first, others @ ..] => first.read_version() < version && reads_below(others, version),
    }
}

// All resolvers say yes to all that they are asked.
fn ask(alloc: Global, core: &mut CommitCore) -> Result<(), Refusal>
    ensures { IfOk result (λ _. core.new.proxy.owners.floor ≡ core.old.proxy.owners.floor) }
{
    for part in core.parts()?.as_slice() {
        core.verdict(agree(alloc, part)?)?;
    }
    Ok(())
}

fn agree(alloc: Global, part: &Part) -> Result<Verdicts, Refusal> {
    let mut answers = Items::new(alloc);
    for item in part.items.as_slice() {
        answers.push((item.place, Verdict::Yes))?;
    }
    Ok(Verdicts {
        resolver: part.resolver,
        index: part.index,
        answers,
        conflicts: Items::new(alloc),
    })
}

// All logs take what they are sent.
fn log(core: &mut CommitCore) -> Result<(), Refusal>
    ensures { IfOk result (λ _. core.new.proxy.owners.floor ≡ core.old.proxy.owners.floor) }
{
    for message in core.messages()?.as_slice() {
        core.logged(LogAck {
            log: message.log,
            index: message.index,
        })?;
    }
    Ok(())
}
