ghost use Rattle.std.specs.Prelude.{◌≡◌, ◌<◌, ◌≤◌, ◌++◌, [], ◌∷◌, suc, length, None, IfOk, OnErr};
ghost use Rattle.std.specs.List.{AllByRecursion};
ghost use Rattle.fdb_keys.specs.Answers.{Answers, AnswersExactly};
ghost use Rattle.fdb_txn.specs.book.Book.{last_version};
ghost use Rattle.fdb_txn.specs.book.Transactions.{Transaction};
ghost use Rattle.fdb_book.specs.Appending.{append_fault};
ghost use Rattle.fdb_sequencer.specs.Sequencer.{new_fault, fresh, plan_fault, planned, accept_fault, accepting};
ghost use Rattle.fdb_sequencer.specs.Sequencer.{report_fault, reporting, move_fault, moving};
ghost use Rattle.fdb_sequencer.specs.Sequencer.{set_window_fault, windowing};
ghost use Rattle.fdb_roles.specs.AtBook.{AreLastOf};
ghost use Rattle.fdb_roles.specs.Entries.{dated_moves, entry_of};
ghost use Rattle.fdb_sections.specs.Issuing.{AnswersIssue};

use crate::known_front::KnownFront;
use crate::messages::batch_message::BatchMessage;
use crate::name::DatabaseName;
use crate::roles::commit_proxy::LoggedFront;
use fdb_book::Book;
use fdb_keys::Refusal;
use fdb_sequencer::{SequencerCore, Ticket};
use fdb_txn::{Batch, Entry, Move};
use std::alloc::Global;
use std::marker::Model;

/// What a commit proxy is given for a batch: its ticket, with the front that has the ticket's entry last.
#[derive(Drop)]
pub struct Issued<B: DatabaseName> {
    pub ticket: Ticket,
    pub front: KnownFront<B>,
}

/// What says that the front's last entry was reported to the sequencer as committed, which `SequencerAt::report` alone
/// makes. Contracts see the front.
#[derive(Drop)]
pub struct Reported<B: DatabaseName> {
    front: KnownFront<B>,
}

impl<B: DatabaseName> Model for Reported<B> {
    ghost use Rattle.std.specs.Prelude.{List};
    ghost use Rattle.fdb_txn.specs.declared.entry.Entry.{Entry as AnEntry};

    ghost Value = { List AnEntry };

    ghost view = { λ reported. reported.front };
}

impl<B: DatabaseName> Reported<B> {
    /// The front, lent. It takes no memory, and O(1) time.
    pub(crate) fn front(&self) -> &KnownFront<B>
        ensures { result.now ≡ self.now }
    {
        &self.front
    }

    /// A share of the front. Refused only as `NoMemory`. It takes O(1) time.
    pub(crate) fn share_front(&self) -> Result<KnownFront<B>, Refusal>
        ensures { Answers result None (λ front. front ≡ self.now) }
    {
        self.front.share()
    }
}

/// What a session is told when it begins: a version that was reported as committed, with a front that reaches it.
/// `SequencerAt::granted` alone makes the first one.
#[derive(Drop)]
pub struct GrantMessage<B: DatabaseName> {
    front: KnownFront<B>,
    committed: u64,
}

impl<B: DatabaseName> Model for GrantMessage<B> {
    ghost use Rattle.std.specs.Prelude.{◌≤◌};
    ghost use Rattle.fdb_txn.specs.book.Book.{last_version};
    ghost use Rattle.fdb_sections.specs.Receipts.{GrantAtFront};

    ghost Value = { GrantAtFront };

    ghost view = { λ granted. record { front = granted.front; committed = granted.committed } };

    ghost invariant = { λ granted. granted.committed ≤ last_version granted.front };
}

impl<B: DatabaseName> GrantMessage<B> {
    /// The committed version. It takes no memory, and O(1) time.
    pub fn committed(&self) -> u64
        ensures value { result ≡ self.now.committed }
        ensures reached { result ≤ last_version self.now.front }
    {
        self.committed
    }

    /// The front, lent. It takes no memory, and O(1) time.
    pub(crate) fn front(&self) -> &KnownFront<B>
        ensures { result.now ≡ self.now.front }
    {
        &self.front
    }

    /// The same once more, for one more who asked. Refused only as `NoMemory`. It takes O(1) time.
    pub fn share(&self) -> Result<Self, Refusal>
        ensures { Answers result None (λ granted. granted ≡ self.now) }
    {
        let front = self.front.share()?;
        Ok(GrantMessage {
            front,
            committed: self.committed,
        })
    }

    /// The front alone. It takes no memory, and O(1) time.
    pub fn into_front(self) -> KnownFront<B>
        ensures { result ≡ self.front }
    {
        let GrantMessage {
            front,
            committed: _,
        } = self;
        front
    }
}

/// The sequencer, which accepted the tickets of its front's entries. It alone appends to the book.
#[derive(Drop)]
pub struct SequencerAt<B: DatabaseName> {
    front: KnownFront<B>,
    state: SequencerCore,
}

impl<B: DatabaseName> Model for SequencerAt<B> {
    ghost use Rattle.std.specs.Prelude.{◌≡◌, suc, length};
    ghost use Rattle.fdb_roles.specs.AtBook.{IsSequencerAt};
    ghost use Rattle.fdb_sections.specs.RolesAtFronts.{SequencerAtFront};

    ghost Value = { SequencerAtFront };

    ghost view = { λ at. record { front = at.front; state = at.state } };

    ghost invariant = { λ at. IsSequencerAt at.front at.state × (at.state.proxies ≡ B.config.proxies)
        × (at.state.resolvers ≡ suc (length B.config.resolver_splits)) };
}

impl<B: DatabaseName> SequencerAt<B> {
    /// The sequencer of so many commit proxies and resolvers, as the configuration says, before its first ticket.
    /// Refused as `BadConfig` where these numbers aren't legal, and as `NoMemory`.
    pub fn new(alloc: Global, book: &Book<B>, proxies: u32, resolvers: u32) -> Result<Self, Refusal>
        requires proxies { proxies ≡ B.config.proxies }
        requires resolvers { resolvers ≡ suc (length B.config.resolver_splits) }
        ensures { Answers result (new_fault proxies resolvers 0)
            (λ at. at ≡ record { front = []; state = fresh proxies resolvers 0 }) }
    {
        let state = SequencerCore::new(alloc, proxies, resolvers, 0)?;
        let front = KnownFront::empty(alloc, book)?;
        Ok(SequencerAt { front, state })
    }

    /// Gives the batch that a proxy asks for its entry: plans a ticket, appends the ticket's entry to the book, and
    /// accepts the ticket. It answers the ticket with the front that has the entry last, which the sequencer keeps too.
    ///
    /// Refused as `SequencerCore::plan` refuses; then as `Chain` where a transaction of the batch read at the ticket's
    /// version or above it, as `Repeated` where an id stands in the book or earlier in the batch, as `BookFull`, as
    /// `NoMemory`, and as `Taken`, where someone else appended to the book. Then nothing changes, and the batch is
    /// dropped. It takes O(m + b log s) for m moves that the proxy hasn't had, which it compares and doesn't copy, b
    /// transactions of the batch and s sessions with a transaction in the book.
    pub fn issue(
        &mut self,
        alloc: Global,
        book: &Book<B>,
        proxy: u32,
        advance: u64,
        asked: BatchMessage<B>,
    ) -> Result<Issued<B>, Refusal>
        ensures answers { AnswersIssue result (plan_fault self.old.state proxy advance)
            (append_fault (length B.cells) self.old.front (entry_of (planned self.old.state proxy advance) asked.batch))
            (λ issued. (issued.ticket ≡ planned self.old.state proxy advance)
            × (issued.front ≡ self.old.front ++ entry_of (planned self.old.state proxy advance) asked.batch ∷ [])) }
        ensures accepted { IfOk result (λ issued.
            self.new ≡ record { front = issued.front; state = accepting self.old.state issued.ticket }) }
        ensures reads { IfOk result (λ issued. (last_version issued.front ≡ issued.ticket.version)
            × AllByRecursion (λ (t : Transaction). t.read < issued.ticket.version) asked.batch) }
        ensures moves { IfOk result (λ issued. AreLastOf issued.ticket.moves (dated_moves issued.front)) }
        ensures refused { OnErr result (self.new ≡ self.old) }
    {
        let ticket = self.state.plan(proxy, advance)?;
        let BatchMessage { front: seen, batch } = asked;
        let entry = entry_for(&ticket, batch)?;
        let front = self.front.append(alloc, book, entry, &seen)?;
        accept(&mut self.state, &ticket);
        Ok(Issued { ticket, front })
    }

    /// The greatest version that was reported. It takes no memory, and O(1) time.
    pub fn committed(&self) -> u64
        ensures { result ≡ self.now.state.committed }
    {
        self.state.committed()
    }

    /// The greatest version that was reported, with a front that reaches it. Refused only as `NoMemory`.
    pub fn granted(&self) -> Result<GrantMessage<B>, Refusal>
        ensures { Answers result None (λ granted. (granted.committed ≡ self.now.state.committed)
            × (granted.front ≡ self.now.front) × (granted.committed ≤ last_version granted.front)) }
    {
        let front = self.front.share()?;
        let committed = self.state.committed();
        Ok(GrantMessage { front, committed })
    }

    /// Takes the report that all logs have the front's last entry: the entries through it are committed. It takes no
    /// memory, and O(1) time. Refused as `BadConfig` where its version is above the last one that was issued, and then
    /// nothing changes.
    pub fn report(&mut self, logged: LoggedFront<B>) -> Result<Reported<B>, Refusal>
        ensures answers { AnswersExactly result (report_fault self.old.state (last_version logged))
            (λ reported. (reported ≡ logged) × (self.new
            ≡ record { front = self.old.front; state = reporting self.old.state (last_version logged) })) }
        ensures refused { OnErr result (self.new ≡ self.old) }
    {
        self.state.report(logged.version())?;
        Ok(Reported {
            front: logged.into_front(),
        })
    }

    /// Makes a move, which takes effect at the next entry's version. Refused as `BadConfig` where there is no such
    /// resolver or the range is empty, as `MovesFull` after 65,536 moves, and as `NoMemory`. Then nothing changes.
    pub fn move_to(&mut self, one_move: Move) -> Result<(), Refusal>
        ensures answers { Answers result (move_fault self.old.state one_move)
            (λ _. self.new ≡ record { front = self.old.front; state = moving self.old.state one_move }) }
        ensures resolvers { self.old.state.resolvers ≡ suc (length B.config.resolver_splits) }
        ensures refused { OnErr result (self.new ≡ self.old) }
    {
        self.state.move_to(one_move)
    }

    /// Sets the window, by which the horizons of the next entry and of later ones are made. It takes no memory, and
    /// O(1) time. Refused as `BadConfig` unless the window is 1 to 5,000,000, and then nothing changes.
    pub fn set_window(&mut self, window: u64) -> Result<(), Refusal>
        ensures answers { AnswersExactly result (set_window_fault window)
            (λ _. self.new ≡ record { front = self.old.front; state = windowing self.old.state window }) }
        ensures refused { OnErr result (self.new ≡ self.old) }
    {
        self.state.set_window(window)
    }
}

// The entry that the ticket gives the batch. Refused only as `NoMemory`.
fn entry_for(ticket: &Ticket, batch: Batch) -> Result<Entry, Refusal>
    ensures { Answers result None (λ entry. entry ≡ entry_of ticket.now batch) }
{
    let moves = ticket.pending.clone()?;
    Ok(Entry {
        version: ticket.version,
        prev: ticket.prev,
        horizon: ticket.horizon,
        moves,
        batch,
    })
}

// Accepts the ticket, which was planned just before.
fn accept(state: &mut SequencerCore, ticket: &Ticket)
    requires { accept_fault state.old ticket.now ≡ None }
    ensures { state.new ≡ accepting state.old ticket.now }
{
    match state.accept(ticket) {
        Ok(()) => (),
        Err(_) => unreachable!(),
    }
}
