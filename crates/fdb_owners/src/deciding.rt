// Which of several moves decides where a key goes.
ghost use Rattle.std.specs.Prelude.{◌≡◌, ◌++◌, ◌∷◌, None, List, OnOk};
ghost use Rattle.fdb_keys.specs.Answers.{Answers};
ghost use Rattle.fdb_txn.specs.declared.entry.Move.{Move};
ghost use Rattle.fdb_owners.specs.Learning.{Decide, DecideSoFar, moves_to};

use fdb_keys::{Items, RangeSet, Refusal, TreeRangeSet};
use fdb_txn::Move;
use std::alloc::{AllocError, Global};

/// Moves whose ranges share no key, and that do what these moves do one after another: each key goes where the last
/// move that holds it takes it. There are at most twice as many. Refused only as `NoMemory`. It takes O(n log n)
/// comparisons for n moves, and O(n) memory.
pub(crate) fn decisive_moves(alloc: Global, moves: &[Move]) -> Result<Items<Move>, Refusal>
    ensures { Answers result None (Decide moves.now) }
{
    let mut covered = TreeRangeSet::new(alloc);
    let mut decisive = Items::new(alloc);
    let mut left = moves.len();
    while left > 0 {
        left -= 1;
        add_decisive(alloc, &moves[left], &mut covered, &mut decisive)?;
    }
    Ok(decisive)
}

// Adds what of the move the ranges of the later ones don't cover. The covered ranges that it goes over are one range
// with its own from then on, so all moves together go over no more of them than there are moves.
fn add_decisive(
    alloc: Global,
    one_move: &Move,
    covered: &mut TreeRangeSet,
    decisive: &mut Items<Move>,
) -> Result<(), Refusal>
    ensures { Answers result None (λ _. (later : List Move) → DecideSoFar later covered.old decisive.old
        → DecideSoFar (one_move.now ∷ later) covered.new decisive.new) }
{
    let ranges = covered.outside(alloc, &one_move.range)?;
    push_moves(&ranges, one_move.to, decisive)?;
    covered.add(&one_move.range)
}

// Adds a move of each range to the owner.
fn push_moves(ranges: &RangeSet, to: u32, moves: &mut Items<Move>) -> Result<(), AllocError>
    ensures { OnOk result (moves.new ≡ moves.old ++ moves_to to ranges.now) }
{
    for range in ranges.iter() {
        let range = range.clone()?;
        moves.push(Move { range, to })?;
    }
    Ok(())
}
