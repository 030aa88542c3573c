//! The payments of a running database's bank.
ghost use Rattle.std.specs.Prelude.{◌≡◌, ◌+◌, ◌^◌, ◌<◌, ◌≤◌, ℕ, [], ◌∷◌, IfOk, OnOk};
ghost use Rattle.std.specs.FinMap.{get};
ghost use Rattle.fdb_layers.specs.Accounts.{account_key};
ghost use Rattle.fdb_layers.specs.Bank.{amount};
ghost use Rattle.fdb_layers.specs.Operations.{DoesMore, reading};
ghost use Rattle.fdb_layers.specs.Paying.{setting, DoesPay, Settles};
ghost use Rattle.fdb_layers.specs.Reads.{run_read, HasOnlyRead, HasWrittenNone};
ghost use Rattle.fdb_layers.specs.declared.accounts.Account.{Account as AnAccount};
ghost use Rattle.fdb_runtime.specs.Works.{IsSameSession, IsStillOpen};

use crate::accounts::{Account, amount_at};
use crate::bank::Transfers;
use crate::operations::set;
use crate::reads::look_up;
use fdb_keys::Refusal;
use fdb_runtime::{ClusterName, Session, Work};
use std::alloc::Global;
use std::sync::Wait;

// What the account has.
fn had_by<B: ClusterName, R: Wait>(
    rt: &R,
    alloc: Global,
    session: &mut Session<B, Transfers>,
    account: Account,
) -> Result<u64, Refusal>
    requires unwritten { HasWrittenNone session.old.current }
    ensures same { IsSameSession session.old session.new }
    ensures reads { OnOk result (HasOnlyRead session.old session.new) }
    ensures had { IfOk result (λ had.
        had ≡ amount (get (run_read B.config.resolver_splits session.old) (account_key account))) }
    ensures more { OnOk result (DoesMore session.old.current
        (reading (account_key account) (get (run_read B.config.resolver_splits session.old) (account_key account)) ∷ [])
        session.new.current) }
{
    let key = account.key(alloc)?;
    let had = look_up(rt, alloc, session, &key)?;
    Ok(amount_at(&had))
}

// What both have. Together that fits into eight bytes, since all accounts have no more than from the start.
fn had_by_both<B: ClusterName, R: Wait>(
    rt: &R,
    alloc: Global,
    session: &mut Session<B, Transfers>,
    payer: Account,
    payee: Account,
) -> Result<(u64, u64), Refusal>
    requires unwritten { HasWrittenNone session.old.current }
    ensures same { IsSameSession session.old session.new }
    ensures reads { OnOk result (HasOnlyRead session.old session.new) }
    ensures had { IfOk result (λ had.
        (had.0 ≡ amount (get (run_read B.config.resolver_splits session.old) (account_key payer)))
        × (had.1 ≡ amount (get (run_read B.config.resolver_splits session.old) (account_key payee)))) }
    ensures fits { IfOk result (λ had. (payer ≡ payee → ⊥) → had.0 + had.1 < 2 ^ 64) }
    ensures more { OnOk result (DoesMore session.old.current
        (reading (account_key payer) (get (run_read B.config.resolver_splits session.old) (account_key payer))
        ∷ reading (account_key payee) (get (run_read B.config.resolver_splits session.old) (account_key payee)) ∷ [])
        session.new.current) }
{
    let payer_had = had_by(rt, alloc, session, payer)?;
    let payee_had = had_by(rt, alloc, session, payee)?;
    session.know_layer();
    Ok((payer_had, payee_had))
}

// Sets the account to the amount.
fn set_amount<B: ClusterName>(
    alloc: Global,
    session: &mut Session<B, Transfers>,
    account: Account,
    amount: u64,
) -> Result<(), Refusal>
    ensures same { IsSameSession session.old session.new }
    ensures open { OnOk result (IsStillOpen session.old.current session.new.current) }
    ensures sets { OnOk result (DoesMore session.old.current (setting account amount ∷ []) session.new.current) }
{
    let key = account.key(alloc)?;
    set(alloc, session, &key, &amount.to_le_bytes())
}

// Sets both accounts by what they had, where the payer is another one than the payee and had as much. Says whether it
// did.
fn settle<B: ClusterName>(
    alloc: Global,
    session: &mut Session<B, Transfers>,
    asked: &Pay,
    had: (u64, u64),
) -> Result<bool, Refusal>
    requires fits { (asked.now.payer ≡ asked.now.payee → ⊥) → had.0 + had.1 < 2 ^ 64 }
    requires open { IsStillOpen session.old.current session.old.current }
    ensures same { IsSameSession session.old session.new }
    ensures open { OnOk result (IsStillOpen session.old.current session.new.current) }
    ensures settles { IfOk result (λ paid. Settles asked.now.payer asked.now.payee asked.now.amount had.0 had.1
        session.old.current paid session.new.current) }
{
    let (payer_had, payee_had) = had;
    if asked.payer == asked.payee || payer_had < asked.amount {
        return Ok(false);
    }
    set_amount(alloc, session, asked.payer, payer_had - asked.amount)?;
    set_amount(alloc, session, asked.payee, payee_had + asked.amount)?;
    Ok(true)
}

/// Pays an amount from one account to another one, if the payer has as much.
#[derive(Drop)]
pub struct Pay {
    /// Who pays.
    pub payer: Account,
    /// Who is paid.
    pub payee: Account,
    /// How much.
    pub amount: u64,
    /// Whether it was paid, once the work has run. It isn't where the payer is the payee, or had less.
    pub paid: bool,
}

impl<B: ClusterName> Work<B, Transfers> for Pay {
    ghost Task = { AnAccount × AnAccount × ℕ };

    ghost task = { λ pay. (pay.payer, pay.payee, pay.amount) };

    ghost does = { λ pay transcript. DoesPay pay.payer pay.payee pay.amount pay.paid transcript };

    fn run<R: Wait>(
        &mut self,
        rt: &R,
        alloc: Global,
        session: &mut Session<B, Transfers>,
    ) -> Result<(), Refusal> {
        let had = had_by_both(rt, alloc, session, self.payer, self.payee)?;
        self.paid = settle(alloc, session, self, had)?;
        Ok(())
    }
}
