ghost use Rattle.std.specs.Prelude.{◌≡◌, ◌↔◌, ◌⊎◌, None, Some, IsTrue, IfOk, IfErr};
ghost use Rattle.fdb_keys.specs.declared.refusal.Refusal.TheVariants.{NoMemory};
ghost use Rattle.fdb_client.specs.Programs.{commit_request_of};
ghost use Rattle.fdb_txn.specs.book.Size.{size_fault};

use fdb_client::{Transcript, Txn};
use fdb_keys::{Refusal, Refused};
use fdb_txn::Sealed;

/// What a session submitted: the transaction as it was open, and the request that its proxy is sent, with which what
/// the proxy tells is compared.
#[derive(Drop)]
pub(crate) struct Submitted {
    /// The transaction.
    pub(crate) transaction: Txn,
    /// The request that it made.
    pub(crate) request: Sealed,
    ghost asked: { request ≡ commit_request_of transaction },
}

// What the transaction asks to commit, twice.
fn requests_of(transaction: &Txn) -> Result<(Sealed, Sealed), Refusal>
    ensures asked { IfOk result (λ requests. (requests.0 ≡ commit_request_of transaction.now)
        × (requests.1 ≡ commit_request_of transaction.now)
        × (size_fault (commit_request_of transaction.now) ≡ None)) }
    ensures why { IfErr result
        (λ why. (why ≡ NoMemory) ⊎ (size_fault (commit_request_of transaction.now) ≡ Some why)) }
{
    let sent = transaction.request()?;
    let kept = sent.clone()?;
    Ok((sent, kept))
}

impl Submitted {
    /// The transaction with its request, beside the request that is to be sent. Refused as `Txn::request` is, and then
    /// the transaction is handed back. It takes the time of `Txn::request`, and O(n) for n ranges of a set that copies
    /// don't share, since there was no memory for that.
    pub(crate) fn of(transaction: Txn) -> Result<(Sealed, Self), Refused<Txn>>
        ensures asked { IfOk result (λ given. (given.0 ≡ commit_request_of transaction)
            × (given.1.transaction ≡ transaction) × (size_fault (commit_request_of transaction) ≡ None)) }
        ensures back { IfErr result (λ refused. (refused.back ≡ transaction)
            × ((refused.why ≡ NoMemory) ⊎ (size_fault (commit_request_of transaction) ≡ Some refused.why))) }
    {
        match requests_of(&transaction) {
            Ok((sent, kept)) => Ok((
                sent,
                Submitted {
                    transaction,
                    request: kept,
                },
            )),
            Err(why) => Err(Refused {
                why,
                back: transaction,
            }),
        }
    }

    /// Whether the transaction is the request.
    pub(crate) fn is_request(&self, transaction: &Sealed) -> bool
        ensures { IsTrue result ↔ (transaction.now ≡ commit_request_of self.now.transaction) }
    {
        *transaction == self.request
    }

    /// The transaction alone.
    pub(crate) fn into_transaction(self) -> Txn
        ensures { result ≡ self.transaction }
    {
        let Submitted {
            transaction,
            request,
        } = self;
        drop(request);
        transaction
    }

    /// The transaction's transcript alone.
    pub(crate) fn into_transcript(self) -> Transcript
        ensures { result ≡ self.transaction }
    {
        self.into_transaction().into_transcript()
    }
}
