// How a session's transaction ends by what its commit proxy tells.
ghost use Rattle.std.specs.Prelude.{◌≡◌, ◌⊎◌, max, true, false, [], length, None};
ghost use Rattle.fdb_keys.specs.declared.refusal.Refusal.TheVariants.{BookFull, CommitUnknownResult, NotCommitted};
ghost use Rattle.fdb_book.specs.Fronts.{IsPrefix};
ghost use Rattle.fdb_roles.specs.Spots.{spot_version};
ghost use Rattle.fdb_client.specs.Programs.{commit_request_of, is_read_only};
ghost use Rattle.fdb_sections.specs.Absent.{IsNowhere};
ghost use Rattle.fdb_sections.specs.Commits.{CommitEnds, IsByFull, IsByOutcome, IsByReason, IsToldSo, IsUnlessShown};
ghost use Rattle.fdb_sections.specs.Commits.{is_handed_back, is_shown, is_untaken, is_without_place, plain_reason};
ghost use Rattle.fdb_sections.specs.Sessions.{IsOpenAt};

use crate::known_front::KnownFront;
use crate::messages::outcome_message::OutcomeMessage;
use crate::messages::reply::CommitReply;
use crate::name::DatabaseName;
use crate::receipt::Receipt;
use crate::session_state::SessionState;
use crate::session_state::absent::shows;
use crate::session_state::submitted::Submitted;
use fdb_client::Transcript;
use fdb_keys::{RangeSet, Refusal, Refused};
use std::alloc::Global;

// Whether a request that is refused so was never taken, since memory ran out for that.
fn is_untaken(why: Refusal) -> bool
    ensures { result ≡ is_untaken why }
{
    matches!(why, Refusal::NoMemory)
}

// Whether a refusal says that the transaction has no place in the book.
fn is_without_place(why: Refusal) -> bool
    ensures { result ≡ is_without_place why }
{
    matches!(
        why,
        Refusal::Failed
            | Refusal::Exhausted
            | Refusal::BookFull
            | Refusal::Repeated(_)
            | Refusal::Chain
            | Refusal::Closed
    )
}

// What a session is told that is refused with no front to show why. A reason that a front would show, and what no
// commit is refused for, leave open what became of the transaction.
fn plain_reason(why: Refusal) -> Refusal
    ensures reason { result ≡ plain_reason why }
    ensures plain { is_shown result ≡ false }
    ensures listed { is_handed_back result ≡ true }
{
    match why {
        Refusal::Failed
        | Refusal::Exhausted
        | Refusal::Repeated(_)
        | Refusal::Chain
        | Refusal::Closed => why,
        _ => Refusal::CommitUnknownResult,
    }
}

// The points at which the transaction conflicts that the message is of, and none where it isn't refused for that. It
// takes no memory.
fn conflict_of<B: DatabaseName>(alloc: Global, message: OutcomeMessage<B>, why: Refusal) -> RangeSet
    ensures conflicts { why ≡ NotCommitted → result ≡ message.conflict }
    ensures nowhere { (why ≡ NotCommitted → ⊥) → result ≡ [] }
{
    match why {
        Refusal::NotCommitted => {
            let OutcomeMessage { conflict, .. } = message;
            conflict
        }
        _ => RangeSet::new(alloc),
    }
}

impl<B: DatabaseName> SessionState<B> {
    /// Has the receipt of a transaction that it finished, which wrote nothing: the mark is no less than the version
    /// that it read at. It takes no memory.
    pub(crate) fn acknowledge(&mut self, receipt: Receipt<B>) -> Receipt<B>
        requires { receipt.front ≡ self.old.front }
        ensures same { result ≡ receipt }
        ensures mark { self.new ≡ record self.old { mark = max self.old.mark (spot_version receipt.spot) } }
    {
        self.front.know_entries();
        self.mark = u64::max(self.mark, receipt.version());
        receipt
    }

    // Why the transaction has no receipt, which isn't known where it is to have no place and the front shows it.
    fn unless_shown(&self, submitted: &Submitted, why: Refusal) -> Refusal
        ensures told { IsUnlessShown self.now.front submitted.now.transaction why result }
        ensures absent { is_without_place result ≡ true
            → IsNowhere (commit_request_of submitted.now.transaction) self.now.front }
    {
        if is_without_place(why) && shows(&self.front, submitted) {
            return Refusal::CommitUnknownResult;
        }
        why
    }

    // Sees the front of a book that is full, and says why the transaction has no receipt.
    fn see_full(&mut self, book: u32, submitted: &Submitted, front: &KnownFront<B>) -> Refusal
        requires { book ≡ B.config.book }
        ensures told { IsByFull B.config self.old submitted.now.transaction front.now result self.new }
        ensures absent { is_without_place result ≡ true
            → IsNowhere (commit_request_of submitted.now.transaction) self.new.front }
        ensures why { (result ≡ BookFull) ⊎ (result ≡ CommitUnknownResult) }
        ensures listed { is_handed_back result ≡ true }
        ensures full { result ≡ BookFull → length self.new.front ≡ B.config.book }
        ensures begins { IsPrefix self.old.front self.new.front }
        ensures left { self.new ≡ record self.old { front = self.new.front } }
    {
        match self.see(front) {
            Ok(()) if self.front.len() == book as usize => {
                self.unless_shown(submitted, Refusal::BookFull)
            }
            _ => Refusal::CommitUnknownResult,
        }
    }

    // Settles the transaction, which is handed back where it has no receipt, with the points at which it conflicts.
    fn settle_or_back(
        &mut self,
        alloc: Global,
        submitted: Submitted,
        message: OutcomeMessage<B>,
    ) -> Result<Receipt<B>, Refused<Option<(Transcript, RangeSet)>>>
        requires wrote { is_read_only submitted.transaction ≡ false }
        requires opened { IsOpenAt B.config.resolver_splits self.old.number self.old.next_number self.old.front
            submitted.transaction }
        requires none { self.old.current ≡ None }
        ensures ends { CommitEnds B.config self.old submitted.transaction result self.new }
        ensures told { IsByOutcome self.old message submitted.transaction result self.new }
    {
        match self.settle(submitted, &message) {
            Ok(receipt) => Ok(receipt),
            Err(refused) => Err(Refused {
                why: refused.why,
                back: Some((refused.back, conflict_of(alloc, message, refused.why))),
            }),
        }
    }

    // The request is refused with no front to show why: the transaction is open again where the request was never
    // taken, and ends else.
    fn end_refused(
        &mut self,
        alloc: Global,
        submitted: Submitted,
        why: Refusal,
    ) -> Result<Receipt<B>, Refused<Option<(Transcript, RangeSet)>>>
        requires opened { IsOpenAt B.config.resolver_splits self.old.number self.old.next_number self.old.front
            submitted.transaction }
        requires none { self.old.current ≡ None }
        ensures ends { CommitEnds B.config self.old submitted.transaction result self.new }
        ensures told { IsByReason self.old submitted.transaction why result self.new }
    {
        if is_untaken(why) {
            self.reopen(submitted);
            return Err(Refused { why, back: None });
        }
        Err(Refused {
            why: self.unless_shown(&submitted, plain_reason(why)),
            back: Some((submitted.into_transcript(), RangeSet::new(alloc))),
        })
    }

    /// Ends a transaction of the session, none of which is open any more, by what its commit proxy tells. It is open
    /// again where the proxy never took the request, since memory ran out.
    pub(crate) fn end(
        &mut self,
        alloc: Global,
        book: u32,
        submitted: Submitted,
        told: CommitReply<B>,
    ) -> Result<Receipt<B>, Refused<Option<(Transcript, RangeSet)>>>
        requires book { book ≡ B.config.book }
        requires wrote { is_read_only submitted.transaction ≡ false }
        requires opened { IsOpenAt B.config.resolver_splits self.old.number self.old.next_number self.old.front
            submitted.transaction }
        requires none { self.old.current ≡ None }
        ensures ends { CommitEnds B.config self.old submitted.transaction result self.new }
        ensures told { IsToldSo B.config self.old submitted.transaction told result self.new }
    {
        match told {
            CommitReply::Outcome(message) => self.settle_or_back(alloc, submitted, message),
            CommitReply::Full(front) => Err(Refused {
                why: self.see_full(book, &submitted, &front),
                back: Some((submitted.into_transcript(), RangeSet::new(alloc))),
            }),
            CommitReply::Refused(why) => self.end_refused(alloc, submitted, why),
        }
    }
}
