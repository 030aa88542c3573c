ghost use Rattle.std.specs.Prelude.{⊤, ℕ, List, OnOk};
ghost use Rattle.fdb_runtime.specs.Works.{IsSameSession, IsStillOpen, IsUntouched};

use fdb_runtime::{ClusterName, Everything, Key, Refusal, Session, Work};
use std::alloc::Global;
use std::sync::Wait;

/// Pays one unit from one account to another one, if the payer has any.
#[derive(Drop)]
pub(crate) struct Payment {
    pub(crate) payer: Key,
    pub(crate) payee: Key,
}

/// The amount of an account, one byte, 0 where it has none.
fn amount_of<B: ClusterName, R: Wait>(
    rt: &R,
    alloc: Global,
    session: &mut Session<B>,
    account: &Key,
) -> Result<u8, Refusal>
    ensures same { IsSameSession session.old session.new }
    ensures open { OnOk result (IsStillOpen session.old.current session.new.current) }
{
    match session.get(rt, alloc, account, false)? {
        Some(value) => Ok(value.as_slice().first().copied().unwrap_or(0)),
        None => Ok(0),
    }
}

/// Sets the amounts of both accounts.
fn set_both<B: ClusterName>(
    alloc: Global,
    session: &mut Session<B>,
    payment: &Payment,
    amounts: (u8, u8),
) -> Result<(), Refusal>
    ensures same { IsSameSession session.old session.new }
    ensures open { OnOk result (IsStillOpen session.old.current session.new.current) }
{
    session.set(alloc, &payment.payer, &[amounts.0])?;
    session.set(alloc, &payment.payee, &[amounts.1])
}

impl<B: ClusterName> Work<B, Everything> for Payment {
    ghost Task = { List ℕ × List ℕ };

    ghost task = { λ payment. (payment.payer, payment.payee) };

    ghost does = { λ payment transcript. ⊤ };

    fn run<R: Wait>(
        &mut self,
        rt: &R,
        alloc: Global,
        session: &mut Session<B>,
    ) -> Result<(), Refusal> {
        let payer_had = amount_of(rt, alloc, session, &self.payer)?;
        let payee_had = amount_of(rt, alloc, session, &self.payee)?;
        if payer_had == 0 || payee_had == u8::MAX {
            return Ok(());
        }
        set_both(alloc, session, self, (payer_had - 1, payee_had + 1))
    }
}

/// Gives an account its first amount.
#[derive(Drop)]
pub(crate) struct Opening {
    pub(crate) account: Key,
    pub(crate) amount: u8,
}

impl<B: ClusterName> Work<B, Everything> for Opening {
    ghost Task = { List ℕ × ℕ };

    ghost task = { λ opening. (opening.account, opening.amount) };

    ghost does = { λ opening transcript. ⊤ };

    fn run<R: Wait>(
        &mut self,
        _rt: &R,
        alloc: Global,
        session: &mut Session<B>,
    ) -> Result<(), Refusal> {
        session.set(alloc, &self.account, &[self.amount])
    }
}
