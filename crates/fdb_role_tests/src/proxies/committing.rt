// A commit proxy with two logs: the second resolver owns the keys from m on, the second shard has those from a on.
ghost use Rattle.std.specs.Prelude.{◌≡◌, ◌<◌, ◌≤◌, [], length, IfOk};
ghost use Rattle.std.specs.List.{AllByRecursion};
ghost use Rattle.fdb_txn.specs.book.Transactions.{Transaction};
ghost use Rattle.fdb_proxy.specs.CommitProxies.{CommitProxy, IsTicketFor};

use crate::asserting::same;
use fdb_keys::{Items, RangeSet, Refusal};
use fdb_log::{LogAck, LogMsg, Tagged};
use fdb_making::{
    are_ranges, ask_mut, is_done, keys_of, numbers_of, one_key, one_set, placed, seal, shared,
    split_config,
};
use fdb_mutations::Mutation;
use fdb_proxy::{CommitCore, Decision, Outcome};
use fdb_resolver::{Part, Verdict, Verdicts};
use fdb_sequencer::Ticket;
use fdb_txn::{Batch, Sealed, TxnId};
use std::alloc::Global;
use std::process::Abort;

// The version and the place of a commit, or the code of why there is none.
type Placed = Result<(u64, u32), u32>;

// What is asked of a proxy, with what it is to give.
enum Act {
    Reserve,
    // The first transaction of the session.
    Submit(u32),
    // The batch has the transactions of these sessions.
    Seal(&'static [u32]),
    Unseal,
    IsIdle,
    // The batch that is sealed or in flight has the transactions of these sessions.
    Has(&'static [u32]),
    Waits,
    // So many resolvers are asked.
    Resolvers(u32),
    HasFailed,
    Fail,
    // They are the transactions of these sessions.
    RefuseAll(&'static [u32]),
    // The first resolver is asked about the write of a, and the second one about the read of z.
    Parts,
    // The resolver's verdict on place 0 of the entry with the index.
    Say(u32, u32, Verdict),
    // The resolver's verdict on place 0 of the first entry is that it conflicts, at the key alone.
    Find(u32, &'static [u8]),
    // What becomes of the one transaction.
    Decide(Placed),
    // It conflicts, at the points of these ranges.
    DecideConflict(&'static [(&'static [u8], &'static [u8])]),
    // How many mutations each log is sent, each of which gives a the value 1.
    Messages([usize; 2]),
    // Both in one.
    DecideWithMessages(Placed, [usize; 2]),
    // The log has its message of the first entry.
    Acknowledge(u32),
    AllLogged,
    // The session of the one transaction, and what became of it.
    Done(u32, Placed),
}

// Whether it gives what it is to give, or the code of the refusal and the number that it names.
type Told = Result<bool, (u32, u64)>;

const YES: Told = Ok(true);

const NO: Told = Ok(false);

// Each of a new proxy.
const NEW: &[&[(Act, Told)]] = &[
    // An idle proxy seals an empty batch.
    &[
        (Act::Decide(Err(0)), Err((9014, 0))),
        (Act::Done(0, Err(0)), Err((9014, 0))),
        (Act::Waits, NO),
        (Act::Resolvers(2), YES),
        (Act::Seal(&[]), YES),
    ],
    // An id waits once.
    &[
        (Act::Reserve, YES),
        (Act::Submit(4), YES),
        (Act::Submit(4), Err((9007, 0))),
    ],
    // Nothing is submitted after a failure.
    &[
        (Act::HasFailed, NO),
        (Act::Fail, YES),
        (Act::HasFailed, YES),
        (Act::Submit(4), Err((9004, 0))),
    ],
    // A batch that was given up is sealed again.
    &[
        (Act::Submit(4), YES),
        (Act::Submit(2), YES),
        (Act::Waits, YES),
        (Act::Has(&[]), YES),
        (Act::Seal(&[4, 2]), YES),
        (Act::IsIdle, NO),
        (Act::Waits, NO),
        (Act::Has(&[4, 2]), YES),
        (Act::Submit(5), YES),
        (Act::Waits, YES),
        (Act::Unseal, YES),
        (Act::IsIdle, YES),
        (Act::Has(&[]), YES),
        (Act::Waits, YES),
        (Act::RefuseAll(&[4, 2, 5]), YES),
        (Act::Waits, NO),
        (Act::Submit(4), YES),
        (Act::Submit(2), YES),
        (Act::Seal(&[4, 2]), YES),
    ],
    // All that wait are refused by id.
    &[
        (Act::Submit(4), YES),
        (Act::Submit(2), YES),
        (Act::RefuseAll(&[4, 2]), YES),
    ],
];

// Each of a proxy whose batch, of the transaction of session 4 alone, waits for verdicts.
const ASKING: &[&[(Act, Told)]] = &[
    // Verdicts are taken once, and of their entry alone.
    &[
        (Act::Say(0, 1, Verdict::Yes), Err((9003, 0))),
        (Act::Say(0, 0, Verdict::Yes), YES),
        (Act::Say(0, 0, Verdict::Yes), Err((9003, 0))),
    ],
    // All that are asked are heard before a decision.
    &[
        (Act::Parts, YES),
        (Act::Decide(Err(0)), Err((9002, 0))),
        (Act::Say(0, 0, Verdict::Yes), YES),
        (Act::Decide(Err(0)), Err((9002, 1))),
    ],
    // A conflict is sent to no log, and is answered once all logs have their message.
    &[
        (Act::Say(0, 0, Verdict::Yes), YES),
        (Act::Say(1, 0, Verdict::Conflict), YES),
        (Act::Decide(Err(1020)), YES),
        (Act::Messages([0, 0]), YES),
        (Act::Done(0, Err(0)), Err((9014, 0))),
        (Act::AllLogged, Err((9002, 0))),
        (Act::Acknowledge(0), YES),
        (Act::Acknowledge(0), Err((9003, 0))),
        (Act::Acknowledge(1), YES),
        (Act::AllLogged, YES),
        (Act::Has(&[4]), YES),
        (Act::Done(4, Err(1020)), YES),
        (Act::Has(&[]), YES),
        (Act::Done(0, Err(0)), Err((9014, 0))),
    ],
    // A conflict has what all resolvers found, and nothing where none found any.
    &[
        (Act::Find(1, b"z"), YES),
        (Act::Find(0, b"a"), YES),
        (Act::DecideConflict(&[(b"a", b"a\0"), (b"z", b"z\0")]), YES),
    ],
    &[
        (Act::Say(0, 0, Verdict::Yes), YES),
        (Act::Find(1, b"z"), YES),
        (Act::DecideConflict(&[(b"z", b"z\0")]), YES),
    ],
    &[
        (Act::Say(0, 0, Verdict::Conflict), YES),
        (Act::Say(1, 0, Verdict::Yes), YES),
        (Act::DecideConflict(&[]), YES),
    ],
    // A commit is sent to the log of its shard.
    &[
        (Act::Say(0, 0, Verdict::Yes), YES),
        (Act::Say(1, 0, Verdict::Yes), YES),
        (Act::Decide(Ok((100, 0))), YES),
        (Act::Messages([0, 1]), YES),
    ],
    // So it is where the messages come with the decision, which is made once.
    &[
        (Act::DecideWithMessages(Err(0), [0, 0]), Err((9002, 0))),
        (Act::Say(0, 0, Verdict::Yes), YES),
        (Act::Say(1, 0, Verdict::Yes), YES),
        (Act::DecideWithMessages(Ok((100, 0)), [0, 1]), YES),
        (Act::DecideWithMessages(Err(0), [0, 0]), Err((9014, 0))),
        (Act::Messages([0, 1]), YES),
    ],
];

fn new_core(alloc: Global) -> Result<CommitCore, Refusal>
    ensures batch { IfOk result (λ core. core.proxy.batch ≡ []) }
    ensures waiting { IfOk result (λ core. core.proxy.waiting ≡ []) }
    ensures floor { IfOk result (λ core. core.proxy.owners.floor ≡ 0) }
{
    match split_config(keys_of(alloc, &[b"m"]), keys_of(alloc, &[b"a"])) {
        Ok(mut config) => {
            config.logs = 2;
            let core = CommitCore::new(alloc, 0, &config)?;
            Ok(core)
        }
        Err(why) => Err(why),
    }
}

// The session's first transaction, which reads z at version 0 and gives a the value 1.
fn sealed(alloc: Global, session: u32) -> Result<Sealed, Refusal>
    ensures { IfOk result (λ sealed. sealed.read ≡ 0) }
{
    let reads = one_key(alloc, b"z")?;
    let mutations = one_set(alloc, b"a", b"1")?;
    let id = TxnId { session, number: 0 };
    seal(alloc, id, 0, reads, RangeSet::new(alloc), mutations)
}

// One more waits, which read at a version below 100.
fn submit(core: &mut CommitCore, alloc: Global, session: u32) -> Result<(), Refusal>
    ensures one { IfOk result (λ _. core.old.proxy.waiting ≡ [] → length core.new.proxy.waiting ≡ 1) }
    ensures early { IfOk result (λ _. core.old.proxy.waiting ≡ []
        → AllByRecursion (λ (t : Transaction). t.read < 100) core.new.proxy.waiting) }
    ensures floor { IfOk result (λ _. core.new.proxy.owners.floor ≡ core.old.proxy.owners.floor) }
{
    let sealed = sealed(alloc, session)?;
    match core.submit(sealed) {
        Ok(()) => Ok(()),
        Err(refused) => Err(refused.why),
    }
}

// Seals the one transaction that waits.
#[tactic(auto, using(std::proofs::lemmas::List::take_all))]
fn seal_one(core: &mut CommitCore) -> Result<(), Refusal>
    requires { length core.old.proxy.waiting ≡ 1 }
    ensures batch { IfOk result (λ _. core.new.proxy.batch ≡ core.old.proxy.waiting) }
    ensures floor { IfOk result (λ _. core.new.proxy.owners.floor ≡ core.old.proxy.owners.floor) }
{
    let _batch = core.seal()?;
    Ok(())
}

/// What is learnt of the first entry, at version 100.
pub fn ticket(alloc: Global) -> Result<Ticket, Refusal>
    ensures { IfOk result (λ ticket. (p : CommitProxy)
        → AllByRecursion (λ (t : Transaction). t.read < 100) p.batch → p.owners.floor ≤ ticket.horizon
        → IsTicketFor p ticket) }
{
    let pending = shared(alloc, Items::new(alloc))?;
    Ok(Ticket {
        proxy: 0,
        index: 0,
        version: 100,
        prev: 0,
        horizon: 0,
        moves: Items::new(alloc),
        pending,
    })
}

// The transaction of session 4 alone is the batch.
fn seal_four(core: &mut CommitCore, alloc: Global) -> Result<(), Refusal>
    requires { core.old.proxy.waiting ≡ [] }
    ensures batch { IfOk result (λ _. AllByRecursion (λ (t : Transaction). t.read < 100) core.new.proxy.batch) }
    ensures floor { IfOk result (λ _. core.new.proxy.owners.floor ≡ core.old.proxy.owners.floor) }
{
    submit(core, alloc, 4)?;
    seal_one(core)?;
    Ok(())
}

// It waits for verdicts then.
fn learn_one(core: &mut CommitCore, alloc: Global) -> Result<(), Refusal>
    requires waiting { core.old.proxy.waiting ≡ [] }
    requires floor { core.old.proxy.owners.floor ≡ 0 }
{
    let ticket = ticket(alloc)?;
    seal_four(core, alloc)?;
    core.learn(&ticket)
}

// Whether the parts are those that are asked for then.
fn learns_with_parts(core: &mut CommitCore, alloc: Global) -> Result<bool, Refusal>
    requires waiting { core.old.proxy.waiting ≡ [] }
    requires floor { core.old.proxy.owners.floor ≡ 0 }
{
    let ticket = ticket(alloc)?;
    seal_four(core, alloc)?;
    are_write_and_read(core.learn_with_parts(&ticket))
}

/// A proxy whose batch, of the transaction of session 4 alone, waits for its ticket.
pub fn sealed_core(alloc: Global) -> Result<CommitCore, Refusal>
    ensures batch { IfOk result (λ core. AllByRecursion (λ (t : Transaction). t.read < 100) core.proxy.batch) }
    ensures floor { IfOk result (λ core. core.proxy.owners.floor ≡ 0) }
{
    match new_core(alloc) {
        Ok(mut core) => match seal_four(&mut core, alloc) {
            Ok(()) => Ok(core),
            Err(why) => Err(why),
        },
        Err(why) => Err(why),
    }
}

/// The same, but it waits for verdicts.
pub fn asking(alloc: Global) -> Result<CommitCore, Refusal> {
    match new_core(alloc) {
        Ok(mut core) => match learn_one(&mut core, alloc) {
            Ok(()) => Ok(core),
            Err(why) => Err(why),
        },
        Err(why) => Err(why),
    }
}

fn asks_at_once(alloc: Global) -> Result<bool, Refusal> {
    match new_core(alloc) {
        Ok(mut core) => learns_with_parts(&mut core, alloc),
        Err(why) => Err(why),
    }
}

fn has_sessions(batch: &[Sealed], sessions: &[u32]) -> bool {
    batch.len() == sessions.len()
        && batch
            .iter()
            .zip(sessions)
            .all(|(sealed, session)| sealed.id().session == *session)
}

fn is_of_sessions(batch: Result<Batch, Refusal>, sessions: &[u32]) -> Result<bool, Refusal> {
    let batch = batch?;
    Ok(has_sessions(batch.as_slice(), sessions))
}

fn are_of_sessions(ids: Items<TxnId>, sessions: &[u32]) -> bool {
    ids.len() == sessions.len()
        && ids
            .as_slice()
            .iter()
            .zip(sessions)
            .all(|(id, session)| id.session == *session && id.number == 0)
}

// Whether the part is of one place, which reads and writes the ranges.
fn is_part(part: &Part, reads: &[(&[u8], &[u8])], writes: &[(&[u8], &[u8])]) -> bool {
    match part.items.as_slice() {
        [item] => are_ranges(item.reads.iter().as_slice(), reads)
            && are_ranges(item.writes.iter().as_slice(), writes),
        _ => false,
    }
}

fn are_write_and_read(parts: Result<Items<Part>, Refusal>) -> Result<bool, Refusal> {
    let parts = parts?;
    match parts.as_slice() {
        [first, second] => Ok(
            is_part(first, &[], &[(b"a", b"a\0")]) && is_part(second, &[(b"z", b"z\0")], &[]),
        ),
        _ => Ok(false),
    }
}

/// The resolver's verdict on place 0 of the entry.
pub fn verdicts_of(
    alloc: Global,
    resolver: u32,
    index: u32,
    verdict: Verdict,
) -> Result<Verdicts, Refusal> {
    let answers = Items::from_vec(Vec::from_slice(alloc, &[(0, verdict)])?);
    Ok(Verdicts {
        resolver,
        index,
        answers,
        conflicts: Items::new(alloc),
    })
}

// The resolver says that place 0 of the first entry conflicts, at the key.
fn find(core: &mut CommitCore, alloc: Global, resolver: u32, key: &[u8]) -> Result<(), Refusal> {
    let mut verdicts = verdicts_of(alloc, resolver, 0, Verdict::Conflict)?;
    let found = one_key(alloc, key)?;
    verdicts.conflicts.push((0, found))?;
    core.verdict(verdicts)
}

// Takes that verdict.
fn say(
    core: &mut CommitCore,
    alloc: Global,
    resolver: u32,
    index: u32,
    verdict: Verdict,
) -> Result<(), Refusal> {
    let verdicts = verdicts_of(alloc, resolver, index, verdict)?;
    core.verdict(verdicts)
}

fn is_outcome(decision: Result<Decision, Refusal>, wanted: Placed) -> Result<bool, Refusal> {
    let decision = decision?;
    match decision.outcomes.as_slice() {
        [outcome] => Ok(placed(*outcome) == wanted),
        _ => Ok(false),
    }
}

// Whether it gives a the value 1, at place 0 and for shard 1.
fn is_sent(sent: &Tagged) -> bool {
    match &sent.mutation {
        Mutation::Set { key, value } => (sent.place, sent.tags.as_slice()) == (0, [1].as_slice())
            && key.bytes() == b"a".as_slice()
            && value.as_slice() == b"1".as_slice(),
        _ => false,
    }
}

// Whether so many are sent that do, and as of the first entry.
fn is_message(message: &LogMsg, count: usize) -> bool {
    let numbers = (
        message.index,
        message.version,
        message.prev,
        message.body.len(),
    );
    numbers == (0, 100, 0, count) && message.body.as_slice().iter().all(|sent| is_sent(sent))
}

fn are_messages(
    messages: Result<Items<LogMsg>, Refusal>,
    counts: [usize; 2],
) -> Result<bool, Refusal> {
    let messages = messages?;
    match messages.as_slice() {
        [first, second] => Ok(is_message(first, counts[0]) && is_message(second, counts[1])),
        _ => Ok(false),
    }
}

// Whether the one transaction conflicts, at just the points of the ranges.
fn is_conflict(
    decision: Result<Decision, Refusal>,
    ranges: &[(&[u8], &[u8])],
) -> Result<bool, Refusal> {
    let decision = decision?;
    let are_same = match decision.conflict(0) {
        Some(set) => are_ranges(set.iter().as_slice(), ranges),
        None => ranges.is_empty(),
    };
    Ok(are_same && is_outcome(Ok(decision), Err(1020))?)
}

fn is_decided(
    decided: Result<(Decision, Items<LogMsg>), Refusal>,
    wanted: Placed,
    counts: [usize; 2],
) -> Result<bool, Refusal> {
    let (decision, messages) = decided?;
    let is_sent = are_messages(Ok(messages), counts)?;
    Ok(is_sent && is_outcome(Ok(decision), wanted)?)
}

fn is_answer(
    answers: Result<Items<(TxnId, Outcome)>, Refusal>,
    session: u32,
    wanted: Placed,
) -> Result<bool, Refusal> {
    let answers = answers?;
    match answers.as_slice() {
        [(id, outcome)] => Ok((id.session, placed(*outcome)) == (session, wanted)),
        _ => Ok(false),
    }
}

// The acts that give nothing.
fn change(core: &mut CommitCore, alloc: Global, act: &Act) -> Result<(), Refusal> {
    match *act {
        Act::Reserve => core.reserve(),
        Act::Submit(session) => submit(core, alloc, session),
        Act::Say(resolver, index, verdict) => say(core, alloc, resolver, index, verdict),
        Act::Find(resolver, key) => find(core, alloc, resolver, key),
        Act::Acknowledge(log) => core.logged(LogAck { log, index: 0 }),
        Act::AllLogged => core.all_logged(),
        Act::Unseal => {
            core.unseal();
            Ok(())
        }
        Act::Fail => {
            core.fail();
            Ok(())
        }
        _ => Err(Refusal::Unknown),
    }
}

// Whether the act gives what it is to give.
fn act_on(core: &mut CommitCore, alloc: Global, act: &Act) -> Result<bool, Refusal> {
    match *act {
        Act::IsIdle => Ok(core.is_idle()),
        Act::Has(sessions) => Ok(has_sessions(core.batch(), sessions)),
        Act::Waits => Ok(core.waits()),
        Act::Resolvers(count) => Ok(core.resolvers() == count),
        Act::HasFailed => Ok(core.is_failed()),
        Act::Seal(sessions) => is_of_sessions(core.seal(), sessions),
        Act::RefuseAll(sessions) => Ok(are_of_sessions(core.refuse_all(), sessions)),
        Act::Parts => are_write_and_read(core.parts()),
        Act::Decide(wanted) => is_outcome(core.decide(), wanted),
        Act::DecideConflict(ranges) => is_conflict(core.decide(), ranges),
        Act::Messages(counts) => are_messages(core.messages(), counts),
        Act::DecideWithMessages(wanted, counts) => {
            is_decided(core.decide_with_messages(), wanted, counts)
        }
        Act::Done(session, wanted) => is_answer(core.done(), session, wanted),
        _ => is_done(change(core, alloc, act)),
    }
}

fn told(gives: Result<bool, Refusal>) -> Told {
    match gives {
        Ok(gives) => Ok(gives),
        Err(why) => Err(numbers_of(why)),
    }
}

fn go_through(rt: &impl Abort, alloc: Global, core: &mut CommitCore, acts: &[(Act, Told)]) {
    for (act, wanted) in acts {
        same(rt, told(act_on(core, alloc, act)), *wanted);
    }
}

fn play(rt: &impl Abort, alloc: Global, core: Result<CommitCore, Refusal>, acts: &[(Act, Told)]) {
    let played = ask_mut(core, |core| go_through(rt, alloc, core, acts));
    same(rt, played, Ok(()));
}

#[test]
fn a_proxy_commits(rt: HostRuntime) {
    let alloc = rt.alloc();
    for acts in NEW {
        play(&rt, alloc, new_core(alloc), acts);
    }
    for acts in ASKING {
        play(&rt, alloc, asking(alloc), acts);
    }
}

#[test]
fn a_proxy_learns_with_its_parts(rt: HostRuntime) {
    same(&rt, told(asks_at_once(rt.alloc())), YES);
}
