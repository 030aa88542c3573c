use crate::moves::Moves;
use crate::ticket::Ticket;
use fdb_keys::Refusal;
use fdb_txn::{
    GREATEST_ADVANCE, MOVE_LIMIT, Move, PROXY_LIMIT, RESOLVER_LIMIT, TICKET_LIMIT, VERSION_LIMIT,
    WINDOW,
};
use std::alloc::Global;
use std::marker::Model;

/// Gives each batch its version and its place in the book, tells each proxy of the moves of keys between resolvers, and
/// keeps the greatest version that was reported.
///
/// A ticket is planned first, which changes nothing, and then accepted. Of the tickets that were planned in
/// between two that are accepted, one is accepted, and the others are stale from then on. So are those that were
/// planned before a move, or before the window was set anew where that makes another horizon.
#[derive(Drop)]
pub struct SequencerCore {
    proxies: u32,
    resolvers: u32,
    accepted: u64,
    last: u64,
    committed: u64,
    // the window of the tickets to come
    window: u64,
    // the horizon of the last ticket that was accepted
    horizon: u64,
    moves: Moves,
    // how many moves were made
    made: u32,
}

impl Model for SequencerCore {
    ghost use Rattle.fdb_sequencer.specs.Sequencer.{Sequencer, IsSequencer};

    ghost Value = { Sequencer };

    ghost use Rattle.fdb_sequencer.specs.Cores.{sequencer_of};

    ghost view = { sequencer_of };

    ghost invariant = { λ core. IsSequencer (sequencer_of core) };
}

impl SequencerCore {
    ghost use Rattle.std.specs.Prelude.{◌≡◌, OnErr};
    ghost use Rattle.fdb_keys.specs.Answers.{Answers, AnswersExactly};
    ghost use Rattle.fdb_sequencer.specs.Sequencer.{IsSequencer, new_fault, fresh, plan_fault, planned, is_planned};
    ghost use Rattle.fdb_sequencer.specs.Sequencer.{accept_fault, accepting, move_fault, moving, report_fault};
    ghost use Rattle.fdb_sequencer.specs.Sequencer.{set_window_fault, windowing, reporting};
    ghost use Rattle.fdb_txn.specs.book.Book.{next_horizon};

    /// The sequencer of a database whose last version is `last`, which is 0 at first. No ticket was accepted,
    /// no version reported, no move made and no window set yet. The window is 5,000,000 at first, the greatest one.
    ///
    /// Refused as `BadConfig` unless there are 1 to 16 commit proxies and 1 to 64 resolvers, and the last
    /// version is at most 2^62, and as `NoMemory`.
    pub fn new(alloc: Global, proxies: u32, resolvers: u32, last: u64) -> Result<Self, Refusal>
        ensures { Answers result (new_fault proxies resolvers last)
            (λ core. core ≡ fresh proxies resolvers last) }
    {
        let is_legal = (1..=PROXY_LIMIT).contains(&proxies)
            && (1..=RESOLVER_LIMIT).contains(&resolvers)
            && last <= VERSION_LIMIT;
        if !is_legal {
            return Err(Refusal::BadConfig);
        }
        Ok(SequencerCore {
            proxies,
            resolvers,
            accepted: 0,
            last,
            committed: 0,
            window: WINDOW,
            horizon: 0,
            moves: Moves::new(alloc, proxies)?,
            made: 0,
        })
    }

    /// The ticket that the proxy's next batch would get now. Its index is the number of tickets that were
    /// accepted, its previous version is the last one, and its version is `advance` above that, but at least 1
    /// and at most 5,000,000. Its horizon is the version less the window, or the horizon of the last ticket that was
    /// accepted where that is greater. The moves since that ticket take effect at the version, and the proxy gets them
    /// after all others that it hasn't had. It changes nothing. It takes O(1) for each version
    /// whose moves the proxy hasn't had: no move is copied.
    ///
    /// Refused as `BadConfig` where no proxy has the number, and then as `Exhausted` where the version would
    /// exceed 2^62 or 2^32 tickets were accepted, and as `NoMemory`.
    pub fn plan(&self, proxy: u32, advance: u64) -> Result<Ticket, Refusal>
        ensures { Answers result (plan_fault self.now proxy advance)
            (λ ticket. ticket ≡ planned self.now proxy advance) }
    {
        if proxy >= self.proxies {
            return Err(Refusal::BadConfig);
        }
        let version = self.last + advance.clamp(1, GREATEST_ADVANCE);
        if version > VERSION_LIMIT || self.accepted >= TICKET_LIMIT {
            return Err(Refusal::Exhausted);
        }
        Ok(Ticket {
            proxy,
            index: self.accepted as u32,
            version,
            prev: self.last,
            horizon: self.next_horizon(version),
            moves: self.moves.moves_at(proxy, version)?,
            pending: self.moves.share_pending()?,
        })
    }

    // The horizon of a next ticket of the version.
    fn next_horizon(&self, version: u64) -> u64
        ensures { result ≡ next_horizon self.now.horizon self.now.window version }
    {
        self.horizon.max(version.saturating_sub(self.window))
    }

    /// Accepts a ticket: its version is the last one from then on, its pending moves take effect at it, and its proxy
    /// has had all moves. It takes no memory.
    ///
    /// Refused as `Stale` unless the ticket is what `plan` answers now for some proxy and advance, and then
    /// nothing changes.
    pub fn accept(&mut self, ticket: &Ticket) -> Result<(), Refusal>
        ensures answers { AnswersExactly result (accept_fault self.old ticket.now)
            (λ _. self.new ≡ accepting self.old ticket.now) }
        ensures err { OnErr result (self.new ≡ self.old) }
    {
        if !self.is_planned(ticket) {
            return Err(Refusal::Stale);
        }
        self.accepted += 1;
        self.last = ticket.version;
        self.horizon = ticket.horizon;
        self.moves.hand_out(ticket.proxy, ticket.version);
        Ok(())
    }

    // Whether `plan` answers the ticket for some proxy and advance.
    fn is_planned(&self, ticket: &Ticket) -> bool
        ensures { result ≡ is_planned self.now ticket.now }
    {
        ticket.proxy < self.proxies
            && u64::from(ticket.index) == self.accepted
            && ticket.prev == self.last
            && ticket.version > self.last
            && ticket.version <= self.last + GREATEST_ADVANCE
            && ticket.version <= VERSION_LIMIT
            && ticket.horizon == self.next_horizon(ticket.version)
            && self
                .moves
                .are_moves_at(ticket.moves.as_slice(), ticket.proxy, ticket.version)
            && ticket.pending.as_slice() == self.moves.pending()
    }

    /// Makes a move: from the version of the next ticket that is accepted on, the keys of its range go to the resolver
    /// with its number, counted from 0.
    ///
    /// Refused as `BadConfig` where there is no such resolver or the range is empty, then as `MovesFull` where 65,536
    /// moves were made, and as `NoMemory`. Then nothing changes.
    pub fn move_to(&mut self, one_move: Move) -> Result<(), Refusal>
        ensures answers { Answers result (move_fault self.old one_move) (λ _. self.new ≡ moving self.old one_move) }
        ensures err { OnErr result (self.new ≡ self.old) }
    {
        if one_move.to >= self.resolvers || one_move.range.is_empty() {
            return Err(Refusal::BadConfig);
        }
        if self.made >= MOVE_LIMIT {
            return Err(Refusal::MovesFull);
        }
        self.moves.add(one_move)?;
        self.made += 1;
        Ok(())
    }

    /// Sets the window, by which the horizon of the next ticket and of later ones is made. A horizon never falls, also
    /// where the window grows. It takes no memory.
    ///
    /// Refused as `BadConfig` unless the window is 1 to 5,000,000, and then nothing changes.
    pub fn set_window(&mut self, window: u64) -> Result<(), Refusal>
        ensures answers { AnswersExactly result (set_window_fault window) (λ _. self.new ≡ windowing self.old window) }
        ensures err { OnErr result (self.new ≡ self.old) }
    {
        if !(1..=WINDOW).contains(&window) {
            return Err(Refusal::BadConfig);
        }
        self.window = window;
        Ok(())
    }

    /// Takes the report that the entries up to the version are committed. A report of a version that isn't
    /// above an earlier one is taken and changes nothing. It takes no memory.
    ///
    /// Refused as `BadConfig` where the version is above the last one that was issued, and then nothing changes.
    pub fn report(&mut self, version: u64) -> Result<(), Refusal>
        ensures answers { AnswersExactly result (report_fault self.old version)
            (λ _. self.new ≡ reporting self.old version) }
        ensures err { OnErr result (self.new ≡ self.old) }
    {
        if version > self.last {
            return Err(Refusal::BadConfig);
        }
        self.committed = self.committed.max(version);
        Ok(())
    }

    /// The greatest version that was reported, 0 at first.
    pub fn committed(&self) -> u64
        ensures value { result ≡ self.now.committed }
        ensures legal { IsSequencer self.now }
    {
        self.committed
    }
}
