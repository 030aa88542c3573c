// Calls where memory runs out: the value has failed then, and refuses the next such call. Each test prints how its call
// ended, for runs in which one growth of memory is refused, each time another one.
ghost use Rattle.std.specs.Prelude.{◌<◌, ◌≤◌};
ghost use Rattle.std.specs.List.{AllByRecursion};
ghost use Rattle.fdb_log.specs.Peeks.{IsPeek};
ghost use Rattle.fdb_proxy.specs.CommitProxies.{CommitProxy, IsTicketFor};
ghost use Rattle.fdb_resolver.specs.Parts.{IsPart};
ghost use Rattle.fdb_txn.specs.book.Transactions.{Transaction};

use crate::asserting::same;
use crate::logs::{self, Clears, body_of};
use crate::proxies::committing::{asking, sealed_core, ticket, verdicts_of};
use crate::resolving::{Row, part};
use crate::storage::{new_shard, peek_of_two};
use fdb_keys::{Refusal, SharedList};
use fdb_log::{LogCore, Peek, Tagged};
use fdb_making::{ask_mut, both, code_of};
use fdb_proxy::CommitCore;
use fdb_resolver::{Part, ResolverCore, Verdict, Verdicts};
use fdb_sequencer::Ticket;
use fdb_storage::Shard;
use std::alloc::Global;
use std::process::Abort;
use std::test::Fail;

// How a call ended.
#[derive(Clone, Copy, PartialEq, Debug)]
enum End {
    // Memory ran out before it.
    NotMade,
    // It was done, the value works on, and the next one is out of turn.
    Taken,
    // Memory ran out in it, and the next one is refused as after a failure.
    Failed,
    // None of these.
    Wrong,
}

// How a call ended, by the code of its answer, or 0, by whether the value has failed since, and by the code of the
// answer to the next one.
fn end_of(first: u32, has_failed: bool, next: u32) -> End {
    match (first, has_failed, next) {
        (0, false, 9003 | 9014) => End::Taken,
        (9001, true, 9004) => End::Failed,
        _ => End::Wrong,
    }
}

// How it ended where the value or what it is to take can't be made, by the code of the refusal.
fn unmade(code: u32) -> End {
    match code {
        9001 => End::NotMade,
        _ => End::Wrong,
    }
}

fn made(end: Result<End, u32>) -> End {
    match end {
        Ok(end) => end,
        Err(code) => unmade(code),
    }
}

// A read and a write.
static READ_AND_WRITE: Row = (0, [100, 0, 0], &[(0, Some(b"a"), b"z")], &[], Ok(true));

fn take_twice(core: &mut ResolverCore, part: &Part) -> End
    requires { IsPart part.now }
{
    let first = code_of(core.take(part));
    let has_failed = core.is_failed();
    end_of(first, has_failed, code_of(core.take(part)))
}

fn resolver_end(alloc: Global) -> End {
    let mut core = ResolverCore::new(alloc, 0);
    match part(alloc, &READ_AND_WRITE) {
        Ok(part) => take_twice(&mut core, &part),
        Err(why) => unmade(why.code()),
    }
}

const CLEARS: Clears = &[(0, b"a", &[0]), (0, b"b", &[0, 1]), (1, b"c", &[1])];

// The log is sent the body, and then another one at the same version.
fn push_twice(core: &mut LogCore, body: SharedList<Tagged>, other: SharedList<Tagged>) -> End {
    let first = code_of(logs::take(core, 0, 100, 0, body));
    let has_failed = core.is_failed();
    let next = code_of(logs::take(core, 0, 100, 0, other));
    end_of(first, has_failed, next)
}

fn push_clears(core: &mut LogCore, alloc: Global) -> End {
    match both(body_of(alloc, CLEARS), body_of(alloc, &[])) {
        Ok((body, none)) => push_twice(core, body, none),
        Err(why) => unmade(why.code()),
    }
}

fn log_end(alloc: Global) -> End {
    made(ask_mut(
        LogCore::new(alloc, 0, 1, 2),
        |core| push_clears(core, alloc),
    ))
}

fn apply_twice(shard: &mut Shard, peek: &Peek) -> End
    requires { IsPeek peek.now }
{
    let first = code_of(shard.apply(peek));
    let has_failed = shard.is_failed();
    end_of(first, has_failed, code_of(shard.apply(peek)))
}

fn apply_two(shard: &mut Shard, alloc: Global) -> End {
    match peek_of_two(alloc) {
        Ok(peek) => apply_twice(shard, &peek),
        Err(why) => unmade(why.code()),
    }
}

fn shard_end(alloc: Global) -> End {
    made(ask_mut(new_shard(alloc, b"", b"m"), |shard| apply_two(shard, alloc)))
}

// The code of the answer to the ticket. The batch stays, and no owner is forgotten from the ticket's horizon on.
fn learn(core: &mut CommitCore, ticket: &Ticket) -> u32
    requires ticket { (p : CommitProxy) → AllByRecursion (λ (t : Transaction). t.read < 100) p.batch
        → p.owners.floor ≤ ticket.now.horizon → IsTicketFor p ticket.now }
    requires batch { AllByRecursion (λ (t : Transaction). t.read < 100) core.old.proxy.batch }
    requires floor { core.old.proxy.owners.floor ≤ ticket.now.horizon }
    ensures batch { AllByRecursion (λ (t : Transaction). t.read < 100) core.new.proxy.batch }
    ensures floor { core.new.proxy.owners.floor ≤ ticket.now.horizon }
{
    code_of(core.learn(ticket))
}

fn learn_twice(core: &mut CommitCore, ticket: &Ticket) -> End
    requires ticket { (p : CommitProxy) → AllByRecursion (λ (t : Transaction). t.read < 100) p.batch
        → p.owners.floor ≤ ticket.now.horizon → IsTicketFor p ticket.now }
    requires batch { AllByRecursion (λ (t : Transaction). t.read < 100) core.old.proxy.batch }
    requires floor { core.old.proxy.owners.floor ≤ ticket.now.horizon }
{
    let first = learn(core, ticket);
    let has_failed = core.is_failed();
    end_of(first, has_failed, learn(core, ticket))
}

fn learner_end(alloc: Global) -> End {
    match sealed_core(alloc) {
        Ok(mut core) => match ticket(alloc) {
            Ok(ticket) => learn_twice(&mut core, &ticket),
            Err(why) => unmade(why.code()),
        },
        Err(why) => unmade(why.code()),
    }
}

fn say_twice(core: &mut CommitCore, first: Verdicts, next: Verdicts) -> End {
    let first = code_of(core.verdict(first));
    let has_failed = core.is_failed();
    end_of(first, has_failed, code_of(core.verdict(next)))
}

fn yes(alloc: Global) -> Result<Verdicts, Refusal> {
    verdicts_of(alloc, 0, 0, Verdict::Yes)
}

fn say_yes(core: &mut CommitCore, alloc: Global) -> End {
    match both(yes(alloc), yes(alloc)) {
        Ok((first, next)) => say_twice(core, first, next),
        Err(why) => unmade(why.code()),
    }
}

fn asker_end(alloc: Global) -> End {
    made(ask_mut(asking(alloc), |core| say_yes(core, alloc)))
}

// How the call ended, in a word. The test fails where that is wrong. One growth is refused at the most, so where the
// call or what comes before it lacked memory, all goes well when it is done again.
fn told<F: Fn() -> End + Drop>(rt: &impl Abort, run: F) -> &'static str
    requires { F.IsAlwaysCallable run }
{
    let end = run();
    match end {
        End::Taken => "taken",
        End::NotMade => {
            same(rt, run(), End::Taken);
            "not made"
        }
        End::Failed => {
            same(rt, run(), End::Taken);
            "failed"
        }
        End::Wrong => {
            same(rt, end, End::Taken);
            "wrong"
        }
    }
}

#[test]
fn a_resolver_that_lacked_memory_has_failed(rt: HostRuntime) -> Result<(), Fail> {
    let end = told(&rt, || resolver_end(rt.alloc()));
    println!(&rt; "{end}")?;
    Ok(())
}

#[test]
fn a_log_that_lacked_memory_has_failed(rt: HostRuntime) -> Result<(), Fail> {
    let end = told(&rt, || log_end(rt.alloc()));
    println!(&rt; "{end}")?;
    Ok(())
}

#[test]
fn a_shard_that_lacked_memory_has_failed(rt: HostRuntime) -> Result<(), Fail> {
    let end = told(&rt, || shard_end(rt.alloc()));
    println!(&rt; "{end}")?;
    Ok(())
}

#[test]
fn a_proxy_that_lacked_memory_for_its_ticket_has_failed(rt: HostRuntime) -> Result<(), Fail> {
    let end = told(&rt, || learner_end(rt.alloc()));
    println!(&rt; "{end}")?;
    Ok(())
}

// Each growth that is refused here comes before the call, which is never refused for want of memory.
#[test]
fn verdicts_take_no_memory(rt: HostRuntime) -> Result<(), Fail> {
    let end = told(&rt, || asker_end(rt.alloc()));
    same(&rt, end == "failed", false);
    println!(&rt; "{end}")?;
    Ok(())
}
