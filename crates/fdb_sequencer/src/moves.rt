// The moves of a sequencer, and which of them each proxy has had.
ghost use Rattle.std.specs.Prelude.{◌≡◌, ◌++◌, ◌∷◌, [], IfOk, OnOk, OnErr};
ghost use Rattle.std.specs.Cmp.Lexicographic.{pointwise};
ghost use Rattle.fdb_sequencer.specs.Equality.{dated_eq};
ghost use Rattle.fdb_sequencer.specs.Moves.{dated};

use crate::dated::Dated;
use fdb_keys::{Items, SharedList};
use fdb_txn::Move;
use std::alloc::{AllocError, Global};
use std::marker::Model;

/// The moves that were made, and which of them each proxy has had.
///
/// Who accepts a ticket must not need memory for that. So there is always room for the pending moves among those that
/// took effect. Each move stands once for all proxies and tickets, which share the list that it is in.
#[derive(Drop)]
pub(crate) struct Moves {
    // those that took effect, by version
    issued: Vec<Dated>,
    // those that take effect with the next ticket, if there are some
    pending: Option<SharedList<Move>>,
    // for each proxy how many of `issued` it has had
    had: Vec<usize>,
}

impl Model for Moves {
    ghost use Rattle.fdb_sequencer.specs.Moves.{Moves};
    ghost use Rattle.fdb_sequencer.specs.MoveFields.{moves_of, AreMoves};

    ghost Value = { Moves };

    ghost view = { moves_of };

    ghost invariant = { AreMoves };
}

impl Moves {
    ghost use Rattle.std.specs.Prelude.{◌≡◌, ◌<◌, length, IfOk, OnOk, OnErr};
    ghost use Rattle.std.specs.Cmp.Lexicographic.{pointwise};
    ghost use Rattle.fdb_sequencer.specs.Equality.{dated_eq};
    ghost use Rattle.fdb_sequencer.specs.Moves.{no_moves, with_move, unlearnt_of, moves_at, in_effect, handed_out};

    /// No move was made, and there are so many proxies.
    pub(crate) fn new(alloc: Global, proxies: u32) -> Result<Self, AllocError>
        ensures { IfOk result (λ moves. moves ≡ no_moves proxies) }
    {
        Ok(Moves {
            issued: Vec::new(alloc),
            pending: None,
            had: vec![in alloc; 0; proxies as usize]?,
        })
    }

    /// One more move is pending. Where memory runs out, nothing changes.
    pub(crate) fn add(&mut self, one_move: Move) -> Result<(), AllocError>
        ensures ok { OnOk result (self.new ≡ with_move self.old one_move) }
        ensures err { OnErr result (self.new ≡ self.old) }
    {
        self.issued.reserve(1)?;
        let alloc = *self.issued.allocator();
        if let Some(pending) = &mut self.pending {
            return add_to(alloc, pending, one_move);
        }
        self.pending = Some(list_of(alloc, one_move)?);
        Ok(())
    }

    /// The moves that take effect with the next ticket, the earliest one first.
    pub(crate) fn pending(&self) -> &[Move]
        ensures { result.now ≡ self.now.pending }
    {
        match &self.pending {
            Some(pending) => pending.as_slice(),
            None => &[],
        }
    }

    // The moves that the proxy hasn't had, but for the pending ones.
    fn unlearnt(&self, proxy: u32) -> &[Dated]
        requires { proxy < length self.now.unlearnt }
        ensures { result.now ≡ unlearnt_of self.now proxy }
    {
        &self.issued[self.had[proxy as usize]..]
    }

    /// The moves that the proxy hasn't had, once the pending ones take effect at the version. No move is copied: it
    /// takes O(1) for each list of them.
    pub(crate) fn moves_at(&self, proxy: u32, version: u64) -> Result<Items<Dated>, AllocError>
        requires { proxy < length self.now.unlearnt }
        ensures { IfOk result (λ moves. moves ≡ moves_at self.now proxy version) }
    {
        let mut moves = shares_of(*self.issued.allocator(), self.unlearnt(proxy))?;
        if let Some(pending) = &self.pending {
            let pending = pending.clone()?;
            moves.push(Dated {
                version,
                moves: pending,
            })?;
        }
        Ok(moves)
    }

    /// A share of the pending moves.
    pub(crate) fn share_pending(&self) -> Result<SharedList<Move>, AllocError>
        ensures { IfOk result (λ moves. moves ≡ self.now.pending) }
    {
        match &self.pending {
            Some(pending) => pending.clone(),
            None => no_moves(*self.issued.allocator()),
        }
    }

    /// Whether the list is that of the moves that the proxy hasn't had, once the pending ones take effect at the
    /// version.
    pub(crate) fn are_moves_at(&self, moves: &[Dated], proxy: u32, version: u64) -> bool
        requires { proxy < length self.now.unlearnt }
        ensures { result ≡ pointwise dated_eq moves.now (moves_at self.now proxy version) }
    {
        let unlearnt = self.unlearnt(proxy);
        if moves.len() < unlearnt.len() {
            return false;
        }
        let (first, rest) = moves.split_at(unlearnt.len());
        first == unlearnt && are_dated(rest, version, self.pending())
    }

    // The pending moves take effect at the version. It takes no memory.
    fn issue(&mut self, version: u64)
        ensures { self.new ≡ in_effect self.old version }
    {
        if let Some(moves) = self.pending.take() {
            self.issued.push_reserved(Dated { version, moves });
        }
    }

    /// The pending moves take effect at the version, with a ticket of the proxy, which has had all moves then. It takes
    /// no memory.
    pub(crate) fn hand_out(&mut self, proxy: u32, version: u64)
        requires { proxy < length self.old.unlearnt }
        ensures { self.new ≡ handed_out self.old proxy version }
    {
        self.issue(version);
        self.had[proxy as usize] = self.issued.len();
    }
}

// Puts the move behind the others where no ticket shares them, and else behind a copy of them.
fn add_to(alloc: Global, pending: &mut SharedList<Move>, one_move: Move) -> Result<(), AllocError>
    ensures ok { OnOk result (pending.new ≡ pending.old ++ one_move ∷ []) }
    ensures err { OnErr result (pending.new ≡ pending.old) }
{
    let Some(one_move) = pending.push_alone(one_move)? else {
        return Ok(());
    };
    let mut copies = Move::copies(alloc, pending.as_slice())?;
    copies.push(one_move)?;
    *pending = SharedList::new(alloc, copies)?;
    Ok(())
}

// The list of the one move.
fn list_of(alloc: Global, one_move: Move) -> Result<SharedList<Move>, AllocError>
    ensures { IfOk result (λ moves. moves ≡ one_move ∷ []) }
{
    let mut moves = Items::new(alloc);
    moves.push(one_move)?;
    Ok(SharedList::new(alloc, moves)?)
}

// The list of no move.
fn no_moves(alloc: Global) -> Result<SharedList<Move>, AllocError>
    ensures { IfOk result (λ moves. moves ≡ []) }
{
    Ok(SharedList::new(alloc, Items::new(alloc))?)
}

// Whether the list has just the moves of the version, and is empty where it moves nothing.
fn are_dated(list: &[Dated], version: u64, moves: &[Move]) -> bool
    ensures { result ≡ pointwise dated_eq list.now (dated version moves.now) }
{
    match list {
        [] => moves.is_empty(),
        [one] => !moves.is_empty() && one.version == version && one.moves.as_slice() == moves,
        _ => false,
    }
}

// Shares of the lists of moves.
fn shares_of(alloc: Global, dated: &[Dated]) -> Result<Items<Dated>, AllocError>
    ensures { IfOk result (λ shares. shares ≡ dated.now) }
{
    let mut shares = Items::new(alloc);
    for one in dated {
        let moves = one.moves.clone()?;
        shares.push(Dated {
            version: one.version,
            moves,
        })?;
    }
    Ok(shares)
}
