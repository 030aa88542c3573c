use crate::batch::Batch;
use fdb_keys::{Items, KeyRange, SharedList};
use std::alloc::{AllocError, Global};

/// A range of keys goes over to another resolver.
#[derive(Drop, PartialEq, Eq)]
pub struct Move {
    /// The keys that go over.
    pub range: KeyRange,
    /// The number of the resolver that owns them from then on.
    pub to: u32,
}

impl Move {
    ghost use Rattle.std.specs.Prelude.{◌≡◌, IfOk};

    /// Copies of the moves, in O(n) for n of them.
    pub fn copies(alloc: Global, moves: &[Move]) -> Result<Items<Move>, AllocError>
        ensures { IfOk result (λ copies. copies ≡ moves.now) }
    {
        let mut copies = Items::new(alloc);
        for one_move in moves {
            let range = one_move.range.clone()?;
            let to = one_move.to;
            copies.push(Move { range, to })?;
        }
        Ok(copies)
    }
}

/// An entry of the book: a batch of transactions at a version.
#[derive(Clone, Drop, PartialEq, Eq)]
pub struct Entry {
    /// The version of the entry, which is the commit version of its transactions.
    pub version: u64,
    /// The version of the entry before it, 0 where it is the first.
    pub prev: u64,
    /// The horizon of the entry: its transactions that read below it are old. It never falls from entry to entry, and
    /// lies below the entry's version.
    pub horizon: u64,
    /// The moves that take effect at the entry's version, the earliest one first. Copies of the entry share them.
    pub moves: SharedList<Move>,
    /// The transactions, at places counted from 0.
    pub batch: Batch,
}
