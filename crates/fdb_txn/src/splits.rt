ghost use Rattle.std.specs.Prelude.{◌≡◌, ◌≤◌, ⊤, ℕ, true, not, length, None, IsTrue, IfOk};
ghost use Rattle.fdb_keys.specs.Answers.{Answers, AnswersExactly};
ghost use Rattle.fdb_keys.specs.Points.{point_lt};
ghost use Rattle.fdb_keys.specs.Ranges.{in_range};
ghost use Rattle.fdb_keys.specs.Texts.{is_bound};
ghost use Rattle.fdb_txn.specs.rules.Splits.{rise_after, are_splits, end_of_keys, splits_fault, piece_fault, piece};
ghost use Rattle.fdb_txn.specs.rules.Owners.{first_owner};

use fdb_keys::{Items, Key, KeyRange, Refusal, is_before};
use std::alloc::{AllocError, Global};
use std::marker::Model;

/// Splits of the keys into pieces: non-empty keys that rise. Each key that is a split begins a piece.
#[derive(Drop)]
pub struct Splits {
    keys: Items<Key>,
}

impl Model for Splits {
    ghost use Rattle.std.specs.Prelude.{List, IsTrue};
    ghost use Rattle.fdb_keys.specs.Points.{Point};
    ghost use Rattle.fdb_txn.specs.rules.Splits.{are_splits};

    ghost Value = { List Point };

    ghost view = { λ splits. splits.keys };

    ghost invariant = { λ splits. IsTrue (are_splits splits.keys) };
}

impl Splits {
    /// The splits into one piece more than there are keys. Refused as `BadConfig` where that is more than `most`
    /// pieces, where a key is empty and where one doesn't come after the one before it, and as `NoMemory`.
    pub fn new(alloc: Global, keys: &[Key], most: usize) -> Result<Self, Refusal>
        ensures { Answers result (splits_fault most keys.now) (λ splits. splits ≡ keys.now) }
    {
        Splits::check(keys, most)?;
        let keys = copies(alloc, keys)?;
        Ok(Splits { keys })
    }

    /// Whether there are splits at these keys into at most `most` pieces, one more than there are keys. It takes no
    /// memory. Refused as `BadConfig` where that is more than `most`, where a key is empty and where one doesn't come
    /// after the one before it.
    pub fn check(keys: &[Key], most: usize) -> Result<(), Refusal>
        ensures { AnswersExactly result (splits_fault most keys.now) (λ _. ⊤) }
    {
        if keys.len() >= most || !rise_after(&[], keys) {
            return Err(Refusal::BadConfig);
        }
        Ok(())
    }

    /// The keys, in their order.
    pub fn as_slice(&self) -> &[Key]
        ensures { result.now ≡ self.now }
    {
        self.keys.as_slice()
    }

    /// The number of the piece that the key lies in, counted from 0, in O(log n) comparisons for n splits. It takes no
    /// memory.
    pub fn piece_of(&self, key: &Key) -> usize
        ensures number { result ≡ first_owner self.now key.now }
        ensures within { result ≤ length self.now }
        ensures held { IsTrue (in_range (piece self.now result) key.now) }
        ensures alone { (other : ℕ) → other ≤ length self.now → IsTrue (in_range (piece self.now other) key.now)
            → other ≡ result }
    {
        first_owner(self.keys.as_slice(), key.bytes())
    }

    /// The number of the piece that the text lies in, as a range's begin, which need be no key: counted from 0, in
    /// O(log n) comparisons for n splits. A text that no key comes after counts to the last piece. It takes no memory.
    pub fn piece_of_text(&self, text: &[u8]) -> usize
        ensures number { result ≡ first_owner self.now text.now }
        ensures within { result ≤ length self.now }
        ensures held { point_lt text.now end_of_keys ≡ true → IsTrue (in_range (piece self.now result) text.now) }
        ensures alone { point_lt text.now end_of_keys ≡ true → (other : ℕ) → other ≤ length self.now
            → IsTrue (in_range (piece self.now other) text.now) → other ≡ result }
    {
        first_owner(self.keys.as_slice(), text)
    }

    /// The range of a piece, in O(1) time beside the copies of its two bounds. Refused as `BadConfig` where there is
    /// no piece with the number, and as `NoMemory`.
    pub fn piece(&self, alloc: Global, number: usize) -> Result<KeyRange, Refusal>
        ensures { Answers result (piece_fault self.now number) (λ range. range ≡ piece self.now number) }
    {
        let keys = self.keys.as_slice();
        if number > keys.len() {
            return Err(Refusal::BadConfig);
        }
        range_of(alloc, keys, number)
    }
}

// How many of the splits don't come after the text.
fn first_owner(splits: &[Key], text: &[u8]) -> usize
    requires { IsTrue (are_splits splits.now) }
    ensures number { result ≡ first_owner splits.now text.now }
    ensures within { result ≤ length splits.now }
{
    splits.partition_point(
        |split: &Key| -> bool
            ensures { result ≡ not (point_lt text.entry.now split.now) }
        { !is_before(text, split.bytes()) },
    )
}

// The range of the piece with the number.
fn range_of(alloc: Global, splits: &[Key], number: usize) -> Result<KeyRange, Refusal>
    requires rising { IsTrue (are_splits splits.now) }
    requires exists { number ≤ length splits.now }
    ensures { Answers result None (λ range. range ≡ piece splits.now number) }
{
    KeyRange::new(
        alloc,
        piece_begin(splits, number),
        piece_end(splits, number),
    )
}

// Where the piece with the number begins.
fn piece_begin(splits: &[Key], number: usize) -> &[u8]
    requires { number ≤ length splits.now }
    ensures value { result.now ≡ (piece splits.now number).begin }
    ensures legal { IsTrue (is_bound result.now) }
{
    if number == 0 {
        return &[];
    }
    splits[number - 1].bytes()
}

// Where it ends.
fn piece_end(splits: &[Key], number: usize) -> &[u8]
    requires { number ≤ length splits.now }
    ensures value { result.now ≡ (piece splits.now number).end }
    ensures legal { IsTrue (is_bound result.now) }
{
    if number == splits.len() {
        return &[0xff];
    }
    splits[number].bytes()
}

// Whether each key comes after the one before it, and the first after the text.
fn rise_after(before: &[u8], keys: &[Key]) -> bool
    ensures { result ≡ rise_after before.now keys.now }
{
    match keys {
        [] => true,
        [first, others @ ..] => {
            is_before(before, first.bytes()) && rise_after(first.bytes(), others)
        }
    }
}

fn copies(alloc: Global, keys: &[Key]) -> Result<Items<Key>, AllocError>
    ensures { IfOk result (λ copies. copies ≡ keys.now) }
{
    let mut copies = Items::new(alloc);
    for key in keys {
        copies.push(key.clone()?)?;
    }
    Ok(copies)
}
