//! The bank's auditor: the sum of all accounts, read page by page.
ghost use Rattle.std.specs.Prelude.{◌≡◌, ◌*◌, ◌+◌, ◌^◌, ◌<◌, true, [], length, codes, None, Some, IfOk, IfErr};
ghost use Rattle.std.specs.Prelude.{IfSome, OnOk};
ghost use Rattle.std.specs.Option.{unwrap_or};
ghost use Rattle.fdb_keys.specs.Prefixes.{prefix_range};
ghost use Rattle.fdb_layers.specs.Auditing.{all_noted, noted, AreBut};
ghost use Rattle.fdb_layers.specs.Bank.{accounts, opening, total, IsOfBank};
ghost use Rattle.fdb_layers.specs.Reads.{count_left, pairs_left, run_read, HasOnlyRead, HasWrittenNone};
ghost use Rattle.fdb_layers.specs.declared.accounts.Account.TheVariants.{Ann, Bob, Cid};
ghost use Rattle.fdb_runtime.specs.Works.{IsSameSession, IsStillOpen, IsUntouched};
ghost use Rattle.fdb_sections.specs.Refusals.{is_of_read};
ghost use Rattle.fdb_sections.specs.ShardViews.{run_of};

use crate::accounts::{Account, OPENING, amount_of};
use crate::bank::Transfers;
use crate::reads::next_page;
use fdb_keys::{Items, Key, KeyRange, Refusal};
use fdb_runtime::{Bytes, ClusterName, Pages, Session};
use std::alloc::Global;
use std::sync::Wait;

// What each account has, as far as it is noted.
#[derive(Clone, Copy)]
pub(crate) struct Amounts {
    pub(crate) ann: u64,
    pub(crate) bob: u64,
    pub(crate) cid: u64,
}

// What the account has once the pair is noted.
fn after_pair(account: Account, had: u64, pair: &(Key, Bytes)) -> u64
    ensures { result ≡ noted account had pair.now }
{
    if account.text() == pair.0.bytes() {
        return amount_of(pair.1.as_slice());
    }
    had
}

// What it has once the pairs are.
fn after_pairs(account: Account, had: u64, pairs: &[(Key, Bytes)]) -> u64
    ensures { result ≡ all_noted account had pairs.now }
{
    let mut amount = had;
    for pair in pairs {
        amount = after_pair(account, amount, pair);
    }
    amount
}

impl Amounts {
    // What they have from the start.
    fn opening() -> Self
        ensures { result ≡ record { ann = opening; bob = opening; cid = opening } }
    {
        Amounts {
            ann: OPENING,
            bob: OPENING,
            cid: OPENING,
        }
    }

    // What they have once the pairs of a page are noted, if there is one.
    fn after(&self, page: &Option<Items<(Key, Bytes)>>) -> Self
        ensures { result ≡ record {
          ann = all_noted Ann self.now.ann (unwrap_or page.now []);
          bob = all_noted Bob self.now.bob (unwrap_or page.now []);
          cid = all_noted Cid self.now.cid (unwrap_or page.now []);
        } }
    {
        match page {
            Some(pairs) => self.after_pairs(pairs.as_slice()),
            None => *self,
        }
    }

    fn after_pairs(&self, pairs: &[(Key, Bytes)]) -> Self
        ensures { result ≡ record {
          ann = all_noted Ann self.now.ann pairs.now;
          bob = all_noted Bob self.now.bob pairs.now;
          cid = all_noted Cid self.now.cid pairs.now;
        } }
    {
        Amounts {
            ann: after_pairs(Account::Ann, self.ann, pairs),
            bob: after_pairs(Account::Bob, self.bob, pairs),
            cid: after_pairs(Account::Cid, self.cid, pairs),
        }
    }

    // What they have together.
    fn sum(&self) -> u64
        requires { self.now.ann + self.now.bob + self.now.cid < 2 ^ 64 }
        ensures { result ≡ self.now.ann + self.now.bob + self.now.cid }
    {
        self.ann + self.bob + self.cid
    }
}

// The range of all accounts.
fn all_accounts(alloc: Global) -> Result<KeyRange, Refusal>
    ensures range { IfOk result (λ range. range ≡ prefix_range (codes "bank/")) }
    ensures refusals { IfErr result (λ why. is_of_read why ≡ true) }
{
    let prefix = Key::new(alloc, b"bank/")?;
    let range = KeyRange::prefix(alloc, &prefix)?;
    Ok(range)
}

// Notes the next page of a walk that hasn't ended.
fn note_page<B: ClusterName, R: Wait>(
    rt: &R,
    alloc: Global,
    session: &mut Session<B, Transfers>,
    pages: &mut Pages,
    amounts: &mut Amounts,
) -> Result<(), Refusal>
    requires unwritten { HasWrittenNone session.old.current }
    requires some { pages.old.rest ≡ None → ⊥ }
    requires before { AreBut (run_read B.config.resolver_splits session.old)
        (pairs_left (run_read B.config.resolver_splits session.old) pages.old.rest) amounts.old }
    ensures same { IsSameSession session.old session.new }
    ensures reads { OnOk result (HasOnlyRead session.old session.new) }
    ensures after { OnOk result (AreBut (run_read B.config.resolver_splits session.old)
        (pairs_left (run_read B.config.resolver_splits session.old) pages.new.rest) amounts.new) }
    ensures fewer { OnOk result (count_left (run_read B.config.resolver_splits session.old) pages.new.rest
        < count_left (run_read B.config.resolver_splits session.old) pages.old.rest) }
    ensures refusals { IfErr result (λ why. is_of_read why ≡ true) }
{
    let page = next_page(rt, alloc, session, pages)?;
    *amounts = amounts.after(&page);
    drop(page);
    Ok(())
}

// What each account has, by a walk over all of them.
fn walk<B: ClusterName, R: Wait>(
    rt: &R,
    alloc: Global,
    session: &mut Session<B, Transfers>,
    pages: &mut Pages,
) -> Result<Amounts, Refusal>
    requires unwritten { HasWrittenNone session.old.current }
    requires begun { pages.old.rest ≡ Some (prefix_range (codes "bank/")) }
    ensures same { IsSameSession session.old session.new }
    ensures reads { OnOk result (HasOnlyRead session.old session.new) }
    ensures amounts { IfOk result (λ amounts.
        AreBut (run_read B.config.resolver_splits session.old) [] amounts) }
    ensures refusals { IfErr result (λ why. is_of_read why ≡ true) }
{
    let mut amounts = Amounts::opening();
    while pages.rest.is_some() {
        note_page(rt, alloc, session, pages, &mut amounts)?;
    }
    Ok(amounts)
}

/// The sum of all accounts at the open transaction's read version, which did nothing before. It is what they had from
/// the start, whatever other sessions do. It reads page by page, at most `page` pairs each, and all at once where that
/// is 0. Refused as `Session::get_range` is, and as `NoMemory`; then the transaction may have read some pages. It takes
/// the time of one `Session::get_range` for each page.
pub fn audit<B: ClusterName, R: Wait>(
    rt: &R,
    alloc: Global,
    session: &mut Session<B, Transfers>,
    page: u32,
) -> Result<u64, Refusal>
    requires begun { IsUntouched session.old.current }
    ensures same { IsSameSession session.old session.new }
    ensures open { OnOk result (IsStillOpen session.old.current session.new.current) }
    ensures sum { IfOk result (λ sum. IfSome session.old.current (λ transcript.
        sum ≡ total (run_of B.config transcript.read_version session.old.front))) }
    ensures stays { IfOk result (λ sum. sum ≡ length accounts * opening) }
    ensures allowed { OnOk result (IfSome session.new.current IsOfBank) }
    ensures refusals { IfErr result (λ why. is_of_read why ≡ true) }
{
    let mut pages = Pages::new(all_accounts(alloc)?, page);
    let amounts = walk(rt, alloc, session, &mut pages)?;
    session.know_layer();
    Ok(amounts.sum())
}
