// A bank: sessions in two threads pay to and fro, at times more than there is, while a third one audits page by page.
ghost use Rattle.std.specs.Prelude.{◌≡◌};

use crate::asserting::same;
use fdb_hosts::{Done, Host, Named, thread_of};
use fdb_keys::{Key, Refusal};
use fdb_layers::{Account, Pay, Transfers, audit};
use fdb_making::{both, coded, count_config};
use fdb_runtime::{Blank, ClusterName, Config, Database, NoGate, Session, Tries};
use std::alloc::Global;
use std::marker::Brand;
use std::sync::{Arc, Wait};
use std::test::Fail;
use std::thread;

// How often each session pays.
const TIMES: u32 = 10;

// Pays the amount, if the payer has as much, and says whether it did.
fn pay<B: ClusterName, R: Wait>(
    rt: &R,
    alloc: Global,
    session: &mut Session<B, Transfers>,
    payer: Account,
    payee: Account,
    amount: u64,
) -> Result<bool, Refusal> {
    let mut work = Pay {
        payer,
        payee,
        amount,
        paid: false,
    };
    drop(session.transact(rt, alloc, Tries::at_most(1_000), &mut work)?);
    Ok(work.paid)
}

// Pays so many times, and each time asks for more than all accounts have.
fn pay_often<B: ClusterName, R: Wait>(
    rt: &R,
    alloc: Global,
    session: &mut Session<B, Transfers>,
    payer: Account,
    payee: Account,
) -> Result<bool, Refusal> {
    let mut overdrawn = false;
    for _time in 0..TIMES {
        let _paid = pay(rt, alloc, session, payer, payee, 30)?;
        overdrawn = overdrawn || pay(rt, alloc, session, payee, payer, 301)?;
    }
    Ok(overdrawn)
}

// The same, after which the session is dropped.
fn pay_and_end<B: ClusterName, R: Wait>(
    rt: &R,
    alloc: Global,
    session: Session<B, Transfers>,
    payer: Account,
    payee: Account,
) -> Result<bool, Refusal> {
    let mut session = session;
    let paid = pay_often(rt, alloc, &mut session, payer, payee);
    drop(session);
    paid
}

// The sum of all accounts, by pages of so many pairs.
fn audit_once<B: ClusterName, R: Wait>(
    rt: &R,
    alloc: Global,
    session: &mut Session<B, Transfers>,
    page: u32,
) -> Result<u64, Refusal> {
    session.begin(rt, alloc)?;
    audit(rt, alloc, session, page)
}

// Whether each audit finds what all accounts had from the start.
fn audit_often<B: ClusterName, R: Wait>(
    rt: &R,
    alloc: Global,
    session: &mut Session<B, Transfers>,
) -> Result<bool, Refusal> {
    let mut balanced = true;
    for _time in 0..TIMES {
        for page in [1, 2, 0] {
            balanced = audit_once(rt, alloc, session, page)? == 300 && balanced;
        }
    }
    Ok(balanced)
}

// What stands at the account of the name.
fn amount_at<B: ClusterName, R: Wait>(
    rt: &R,
    alloc: Global,
    session: &mut Session<B, Transfers>,
    text: &[u8],
) -> Result<Option<u64>, Refusal> {
    let key = Key::new(alloc, text)?;
    match session.get(rt, alloc, &key, false)? {
        Some(value) => Ok(
            value
                .as_slice()
                .first_chunk::<8>()
                .map(|it| u64::from_le_bytes(*it)),
        ),
        None => Ok(None),
    }
}

// What stands at all accounts, by one transaction.
fn amounts<B: ClusterName, R: Wait>(
    rt: &R,
    alloc: Global,
    session: &mut Session<B, Transfers>,
) -> Result<[Option<u64>; 3], Refusal> {
    session.begin(rt, alloc)?;
    let ann = amount_at(rt, alloc, session, b"bank/ann")?;
    let bob = amount_at(rt, alloc, session, b"bank/bob")?;
    let cid = amount_at(rt, alloc, session, b"bank/cid")?;
    Ok([ann, bob, cid])
}

// Ann pays 40 to Cid before anybody else pays: of the 100 that each has from the start she has 60 then, and Cid 140.
fn play<B: Named, R: Host>(rt: &R, alloc: Global, database: &mut Database<B, Transfers>) -> Done {
    let (mut auditor, (one, other)) = both(
        database.session(alloc),
        both(database.session(alloc), database.session(alloc)),
    )?;
    let first = coded(pay(rt, alloc, &mut auditor, Account::Ann, Account::Cid, 40));
    let amounts = coded(amounts(rt, alloc, &mut auditor));
    let handle = *rt;
    let one = thread_of(thread::spawn(
        rt,
        move || pay_and_end(&handle, alloc, one, Account::Ann, Account::Bob),
    ))?;
    let other = thread_of(thread::spawn(
        rt,
        move || pay_and_end(&handle, alloc, other, Account::Bob, Account::Cid),
    ))?;
    let audited = coded(audit_often(rt, alloc, &mut auditor));
    let paid = (coded(one.join(rt)), coded(other.join(rt)));
    let last = coded(audit_once(rt, alloc, &mut auditor, 1));
    drop(auditor);
    same(
        rt,
        (first, amounts),
        (Ok(true), Ok([Some(60), None, Some(140)])),
    );
    same(rt, paid, (Ok(false), Ok(false)));
    same(rt, (audited, last), (Ok(true), Ok(300)));
    Ok(())
}

fn use_bank<B: Named, R: Host>(rt: &R, alloc: Global, blank: Blank, config: &Config) -> Done
    requires cells { blank ≡ B.cells }
    requires config { config.now ≡ B.config }
{
    let gate = Arc::new(alloc, NoGate)?;
    let mut database: Database<B, Transfers> = Database::start(
        rt, alloc, blank, config, 100, &gate,
    )?;
    let played = play(rt, alloc, &mut database);
    let record = database.close(rt)?;
    record.know_layer();
    drop(record);
    same(rt, coded(played), Ok(()));
    Ok(())
}

#[test]
fn no_audit_misses_what_is_on_its_way(rt: HostRuntime) -> Result<(), Fail> {
    let alloc = rt.alloc();
    let config = count_config(alloc, 2, 1, 1_000);
    let blank = Blank::new(alloc, 1_000)?;
    use_bank::<Brand, HostRuntime>(&rt, alloc, blank, &config)?;
    Ok(())
}
