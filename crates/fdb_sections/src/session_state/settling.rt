// How a session's transaction ends: it is finished, submitted if it wrote anything, and settled by what became of it.
ghost use Rattle.std.specs.Prelude.{◌≡◌, ◌<◌, ◌≤◌, ◌↔◌, ◌⊎◌, ◌^◌, true, None, Some, IsTrue, IfOk, IfErr, OnOk};
ghost use Rattle.std.specs.Prelude.{OnErr, length};
ghost use Rattle.std.specs.Option.{option_copied};
ghost use Rattle.fdb_keys.specs.Answers.{Answers, AnswersExactly};
ghost use Rattle.fdb_keys.specs.declared.refusal.Refusal.TheVariants.{CommitUnknownResult, NoMemory};
ghost use Rattle.fdb_txn.specs.book.Book.{last_version};
ghost use Rattle.fdb_book.specs.Fronts.{IsPrefix};
ghost use Rattle.fdb_roles.specs.Spots.{spot_version};
ghost use Rattle.fdb_client.specs.Programs.{is_read_only};
ghost use Rattle.fdb_roles.specs.Sessions.{OfOpen, submit_fault};
ghost use Rattle.fdb_sections.specs.Endings.{Ends, IsEnded, MaySettle};
ghost use Rattle.fdb_sections.specs.Receipts.{IsOutcome, IsReceipt, IsToldOf, IsTurnedDown};
ghost use Rattle.fdb_sections.specs.Receipts.{read_only_receipt, spot_told, settle_fault, transaction_told};
ghost use Rattle.fdb_sections.specs.declared.session_state.settling.Ended.TheVariants.{Acknowledged};
ghost use Rattle.fdb_sections.specs.Sessions.{longer, seeing, with_current, IsOpenAt, Settles, TakesOutcome};

use crate::known_front::KnownFront;
use crate::messages::outcome_message::OutcomeMessage;
use crate::name::DatabaseName;
use crate::receipt::Receipt;
use crate::session_state::submitted::Submitted;
use crate::session_state::{SessionState, share_longer};
use fdb_client::{Transcript, Txn};
use fdb_keys::{Refusal, Refused};
use fdb_proxy::Outcome;
use fdb_txn::{Sealed, Spot};
use std::mem;

/// What a session's transaction comes to that is to commit.
#[derive(Drop)]
pub(crate) enum Ended<B: DatabaseName> {
    /// It wrote nothing, and has its receipt.
    Acknowledged(Receipt<B>),
    /// It is submitted, as this request.
    ToCommit(Sealed, Submitted),
}

// What the transaction comes to on the front, on which it has its receipt if it wrote nothing. A refusal hands it back.
fn end_on<B: DatabaseName>(
    front: &KnownFront<B>,
    transaction: Txn,
) -> Result<Ended<B>, Refused<Txn>>
    requires { is_read_only transaction ≡ true
        → IsReceipt B.config.resolver_splits (read_only_receipt front.now transaction) }
    ensures ended { IfOk result (λ ended. IsEnded front.now transaction ended × (submit_fault transaction ≡ None)) }
    ensures back { IfErr result (λ refused. (refused.back ≡ transaction)
        × ((refused.why ≡ NoMemory) ⊎ (submit_fault transaction ≡ Some refused.why))) }
{
    if transaction.is_read_only() {
        return acknowledge_on(front, transaction);
    }
    match Submitted::of(transaction) {
        Ok((request, submitted)) => Ok(Ended::ToCommit(request, submitted)),
        Err(refused) => Err(refused),
    }
}

// The receipt of a transaction that wrote nothing, at its read version on the front.
fn acknowledge_on<B: DatabaseName>(
    front: &KnownFront<B>,
    transaction: Txn,
) -> Result<Ended<B>, Refused<Txn>>
    requires { IsReceipt B.config.resolver_splits (read_only_receipt front.now transaction) }
    ensures ended { IfOk result (λ ended. ended ≡ Acknowledged (read_only_receipt front.now transaction)) }
    ensures back { IfErr result (λ refused. (refused.back ≡ transaction) × (refused.why ≡ NoMemory)) }
{
    match front.share() {
        Ok(front) => {
            let version = transaction.read_version();
            let transcript = transaction.into_transcript();
            Ok(Ended::Acknowledged(Receipt::new(front, Spot::ReadOnly { version }, transcript)))
        }
        Err(why) => Err(Refused {
            why,
            back: transaction,
        }),
    }
}

// What stands at the place that the message tells of, if there is any.
fn transaction_told<B: DatabaseName>(message: &OutcomeMessage<B>) -> Option<&Sealed>
    ensures { option_copied result ≡ transaction_told message.now }
{
    let count = message.front.len();
    if count == 0 {
        return None;
    }
    match message.front.entry(count - 1) {
        Some(entry) => entry.batch.as_slice().get(message.place as usize),
        None => None,
    }
}

// Whether the message is of what was submitted. It takes no memory.
fn is_told_of<B: DatabaseName>(message: &OutcomeMessage<B>, submitted: &Submitted) -> bool
    ensures { IsTrue result ↔ IsToldOf message.now submitted.now.transaction }
{
    // A spot has 32 bits for the number of the entry.
    if message.front.len() > 4_294_967_296 {
        return false;
    }
    match transaction_told(message) {
        Some(sealed) => submitted.is_request(sealed),
        None => false,
    }
}

// The longer of both fronts twice, where the message is of the transaction. Refused as `CommitUnknownResult` where it
// isn't, and as `NoMemory`.
fn fronts_with<B: DatabaseName>(
    own: &KnownFront<B>,
    message: &OutcomeMessage<B>,
    submitted: &Submitted,
) -> Result<(KnownFront<B>, KnownFront<B>), Refusal>
    ensures told { OnOk result (IsToldOf message.now submitted.now.transaction) }
    ensures longer { IfOk result (λ fronts. (fronts.0 ≡ longer own.now message.now.front) × (fronts.1 ≡ fronts.0)) }
    ensures begins { IfOk result (λ fronts. IsPrefix own.now fronts.0 × IsPrefix message.now.front fronts.0) }
    ensures reaches { IfOk result (λ fronts. (last_version own.now ≤ last_version fronts.0)
        × (last_version message.now.front ≤ last_version fronts.0)) }
{
    if !is_told_of(message, submitted) {
        return Err(Refusal::CommitUnknownResult);
    }
    let front = share_longer(own, &message.front)?;
    let share = front.share()?;
    Ok((front, share))
}

// The spot that the message tells of where it is committed, else why it isn't.
fn spot_told<B: DatabaseName>(message: &OutcomeMessage<B>) -> Result<Spot, Refusal>
    requires { length message.now.front ≤ 2 ^ 32 }
    ensures answers { AnswersExactly result (settle_fault message.now.outcome) (λ spot. spot ≡ spot_told message.now) }
    ensures told { IsOutcome B.config.resolver_splits message.now }
{
    match message.outcome {
        Outcome::Commit { .. } => {
            let index = (message.front.len() - 1) as u32;
            let place = message.place;
            let version = message.front.version();
            Ok(Spot::Entry {
                index,
                place,
                version,
            })
        }
        Outcome::Conflict => Err(Refusal::NotCommitted),
        Outcome::Old => Err(Refusal::TransactionTooOld),
    }
}

impl<B: DatabaseName> SessionState<B> {
    /// Sees a front of the database: the front becomes the longer of both. Refused only as `NoMemory`, and then nothing
    /// changes. It takes O(1) time.
    pub(crate) fn see(&mut self, front: &KnownFront<B>) -> Result<(), Refusal>
        ensures answers { Answers result None (λ _. self.new ≡ seeing self.old front.now) }
        ensures begins { IsPrefix self.old.front self.new.front }
        ensures sees { OnOk result (IsPrefix front.now self.new.front) }
        ensures refused { OnErr result (self.new ≡ self.old) }
    {
        let front = share_longer(&self.front, front)?;
        front.know_entries();
        self.front = front;
        Ok(())
    }

    /// Ends the open transaction; none is open then. What wrote nothing has its receipt, at its read version on the
    /// front, and anything else is submitted, and may be settled. Refused as `NoTransaction` where none is open, as
    /// `TransactionTooLarge` where what is to be committed has more than 10,000,000 bytes, and as `NoMemory`; then
    /// nothing changes. It takes the time of `Txn::request`.
    pub(crate) fn submit(&mut self) -> Result<Ended<B>, Refusal>
        ensures answers { OfOpen self.old.current result (Ends self.old.front result) }
        ensures settled { IfOk result (MaySettle B.config.resolver_splits self.new) }
        ensures ended { OnOk result (self.new ≡ with_current self.old None) }
        ensures refused { OnErr result (self.new ≡ self.old) }
    {
        let Some(transaction) = mem::replace(&mut self.current, None) else {
            return Err(Refusal::NoTransaction);
        };
        match end_on(&self.front, transaction) {
            Ok(ended) => Ok(ended),
            Err(refused) => {
                drop(mem::replace(&mut self.current, Some(refused.back)));
                Err(refused.why)
            }
        }
    }

    /// The transaction that was submitted is open again. It takes no memory.
    pub(crate) fn reopen(&mut self, submitted: Submitted)
        requires { IsOpenAt B.config.resolver_splits self.old.number self.old.next_number self.old.front
            submitted.transaction }
        ensures { self.new ≡ with_current self.old (Some submitted.transaction) }
    {
        let transaction = submitted.into_transaction();
        drop(mem::replace(&mut self.current, Some(transaction)));
    }

    // Takes what became of the transaction. Refused as `settle` is.
    fn take_outcome(
        &mut self,
        submitted: &Submitted,
        message: &OutcomeMessage<B>,
    ) -> Result<(KnownFront<B>, Spot), Refusal>
        requires { IsOpenAt B.config.resolver_splits self.old.number self.old.next_number self.old.front
            submitted.now.transaction }
        ensures answers { TakesOutcome self.old message.now submitted.now.transaction result self.new }
        ensures begins { IsPrefix self.old.front self.new.front }
        ensures given { IfOk result (λ given. IsReceipt B.config.resolver_splits
            (record { front = given.0; spot = given.1; transcript = submitted.now.transaction })) }
        ensures turned { IfErr result (λ why. (why ≡ CommitUnknownResult)
            ⊎ IsTurnedDown B.config.resolver_splits self.new.front submitted.now.transaction why
            message.now.conflict) }
    {
        let Ok((front, share)) = fronts_with(&self.front, message, submitted) else {
            return Err(Refusal::CommitUnknownResult);
        };
        let told = spot_told(message);
        front.know_entries();
        front.know_book();
        self.front = front;
        match told {
            Ok(spot) => {
                self.mark = u64::max(self.mark, message.front.version());
                Ok((share, spot))
            }
            Err(why) => Err(why),
        }
    }

    /// Settles a transaction of the session by what a proxy tells of it. Where that is committed, it gives its receipt
    /// on the longer of both fronts, at its place of the message's last entry, which is above its read version; the
    /// front becomes the longer one, and the mark is no less than the entry's version. A refusal hands the transcript
    /// back: as `NotCommitted` where it had a conflict, and as `TransactionTooOld` where it was too old, and then the
    /// front becomes the longer one; as `CommitUnknownResult` where the message isn't of the transaction, and where
    /// memory runs out, and then nothing changes. It takes O(n) time for the n bytes of the request, however long the
    /// fronts are.
    pub(crate) fn settle(
        &mut self,
        submitted: Submitted,
        message: &OutcomeMessage<B>,
    ) -> Result<Receipt<B>, Refused<Transcript>>
        requires { IsOpenAt B.config.resolver_splits self.old.number self.old.next_number self.old.front
            submitted.transaction }
        ensures answers { Settles self.old message.now submitted.transaction result self.new }
        ensures begins { IsPrefix self.old.front self.new.front }
        ensures receipt { IfOk result (IsReceipt B.config.resolver_splits) }
        ensures goes_on { IfOk result (λ receipt. IsPrefix self.old.front receipt.front) }
        ensures after { IfOk result (λ receipt. submitted.transaction.read_version < spot_version receipt.spot) }
        ensures marked { IfOk result (λ receipt. spot_version receipt.spot ≤ self.new.mark) }
        ensures turned { IfErr result (λ refused. (refused.why ≡ CommitUnknownResult)
            ⊎ IsTurnedDown B.config.resolver_splits self.new.front submitted.transaction refused.why
            message.now.conflict) }
    {
        let taken = self.take_outcome(&submitted, message);
        let transcript = submitted.into_transcript();
        match taken {
            Ok((front, spot)) => Ok(Receipt::new(front, spot, transcript)),
            Err(why) => Err(Refused {
                why,
                back: transcript,
            }),
        }
    }
}
