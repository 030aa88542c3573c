// Who owned the keys of a piece when.
ghost use Rattle.std.specs.Prelude.{◌≡◌, ◌++◌, nat_lt};
ghost use Rattle.fdb_owners.specs.Histories.{AreFalling, AreAbove, AreUpTo, latest_of, differing};

use fdb_keys::Items;
use std::alloc::Global;

/// The resolver that owned the keys from a version on.
#[derive(Clone, Copy, PartialEq, Eq)]
pub(crate) struct Change {
    pub(crate) version: u64,
    pub(crate) owner: u32,
}

/// The first owner, and the changes since, the latest first.
#[derive(Drop)]
pub(crate) struct History {
    pub(crate) first: u32,
    pub(crate) changes: Items<Change>,
}

impl History {
    ghost use Rattle.std.specs.Prelude.{◌≡◌, ◌≤◌, ◌<◌, ◌∷◌, ◌++◌, [], ℕ, IsTrue, nat_lt};
    ghost use Rattle.fdb_owners.specs.Histories.{AreFalling, AreAbove, AreUpTo, IsHistory, owner_in};
    ghost use Rattle.fdb_txn.specs.Versions.{count_between};
    ghost use Rattle.fdb_owners.specs.Histories.{changes_at};

    /// Nothing changed since the first owner.
    pub(crate) fn new(alloc: Global, first: u32) -> Self
        ensures { result ≡ record { first = first; changes = [] } }
    {
        History {
            first,
            changes: Items::new(alloc),
        }
    }

    /// The owner at the version, in O(log n) comparisons for n changes.
    pub(crate) fn owner_at(&self, version: u64) -> u32
        requires { AreFalling self.now.changes }
        ensures { result ≡ owner_in self.now version }
    {
        let (_above, through) = split_by(self.changes.as_slice(), version);
        latest_of(self.first, through)
    }

    /// The owner at the last version.
    pub(crate) fn owner_now(&self) -> u32
        ensures { (last : ℕ) → AreUpTo last self.now.changes → result ≡ owner_in self.now last }
    {
        latest_of(self.first, self.changes.as_slice())
    }

    /// Leaves out who owned the keys below the version. It takes no memory.
    pub(crate) fn cut(&mut self, floor: u64)
        requires { AreFalling self.old.changes }
        ensures kept { (v : ℕ) → floor ≤ v → owner_in self.new v ≡ owner_in self.old v }
        ensures history { (resolvers last : ℕ) → IsHistory resolvers last self.old → IsHistory resolvers last self.new }
    {
        let (above, through) = split_by(self.changes.as_slice(), floor);
        let first = latest_of(self.first, through);
        let count = above.len();
        self.first = first;
        self.changes.truncate(count);
    }

    /// Whether both have the same owners from the version on, as far as their changes tell. It takes O(n) for n
    /// changes.
    pub(crate) fn is_same_from(&self, other: &History, floor: u64) -> bool
        requires this { AreFalling self.now.changes }
        requires others { AreFalling other.now.changes }
        ensures { IsTrue result → (v : ℕ) → floor ≤ v → owner_in self.now v ≡ owner_in other.now v }
    {
        let (above, through) = split_by(self.changes.as_slice(), floor);
        let (other_above, other_through) = split_by(other.changes.as_slice(), floor);
        latest_of(self.first, through) == latest_of(other.first, other_through)
            && above == other_above
    }

    /// How many versions above the floor and up to the last one gave the keys another owner. It takes O(n) for n
    /// changes.
    pub(crate) fn changes_above(&self, floor: u64) -> usize
        requires { AreFalling self.now.changes }
        ensures { (last : ℕ) → AreUpTo last self.now.changes
            → result ≡ count_between (changes_at (owner_in self.now)) floor last }
    {
        let (above, through) = split_by(self.changes.as_slice(), floor);
        count_differing(latest_of(self.first, through), above)
    }
}

/// The changes, which are the latest first, above the version, and those up to it, in O(log n) comparisons for n
/// changes.
pub(crate) fn split_by(changes: &[Change], version: u64) -> (&[Change], &[Change])
    requires { AreFalling changes.now }
    ensures parts { changes.now ≡ result.0.now ++ result.1.now }
    ensures above { AreAbove version result.0.now }
    ensures through { AreUpTo version result.1.now }
{
    let count = changes.partition_point(
        |change: &Change| -> bool
            ensures { result ≡ nat_lt version change.now.version }
        { version < change.version },
    );
    changes.split_at(count)
}

// The owner after the changes, the latest first.
fn latest_of(first: u32, changes: &[Change]) -> u32
    ensures { result ≡ latest_of first changes.now }
{
    match changes.first() {
        Some(change) => change.owner,
        None => first,
    }
}

// How many of the changes, the latest first, are to another owner than the one before.
fn count_differing(first: u32, changes: &[Change]) -> usize
    ensures { result ≡ differing first changes.now }
{
    let mut rest = changes;
    let mut count = 0;
    while let Some((change, older)) = rest.split_first() {
        if change.owner != latest_of(first, older) {
            count += 1;
        }
        rest = older;
    }
    count
}
