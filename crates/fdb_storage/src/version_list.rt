// The versions of one key.
ghost use Rattle.std.specs.Prelude.{◌≡◌, ◌++◌, ◌≤◌, ◌<◌, ℕ, nat_le, length, drop, is_some, if◌then◌else◌, OnOk, IsTrue};
ghost use Rattle.std.specs.Option.{option_copied};
ghost use Rattle.fdb_storage.specs.VersionLists.{AreAbove, AreBelow, AreRising, AreUpTo, IsVersionList};
ghost use Rattle.fdb_storage.specs.VersionLists.{ends_at, is_last_up_to, newest_of, same_value, value_up_to};

use bytes::Bytes;
use smallvec::SmallVec;
use std::alloc::{AllocError, Global};
use std::marker::Model;

/// What stands at a key from a version on: a value, or none where the key was cleared.
#[derive(Drop, Default)]
pub(crate) struct VersionedValue {
    pub(crate) version: u64,
    pub(crate) value: Option<Bytes>,
}

/// What stood at a key, the newest last. Each value is another one than the one before it, and the first one is there.
pub(crate) struct VersionList {
    values: SmallVec<VersionedValue, 1>,
    // Whether the key is among those that are noted as having versions to drop.
    is_due: bool,
}

impl Model for VersionList {
    ghost use Rattle.std.specs.Prelude.{List};
    ghost use Rattle.fdb_storage.specs.declared.version_list.VersionedValue.{VersionedValue as Versioned};
    ghost use Rattle.fdb_storage.specs.VersionLists.{IsVersionList};

    ghost Value = { List Versioned };

    ghost view = { λ list. list.values.items };

    ghost invariant = { λ list. IsVersionList list.values.items };
}

impl VersionList {
    ghost use Rattle.std.specs.Prelude.{◌≡◌, ◌↔◌, ◌≤◌, ◌<◌, ℕ, [], length, IsTrue, OnOk};
    ghost use Rattle.std.specs.Option.{option_copied};
    ghost use Rattle.fdb_storage.specs.VersionLists.{value_up_to, newest_of, AreUpTo, kept_from};

    /// Nothing ever stood at the key. It takes no memory.
    pub(crate) fn new(alloc: Global) -> Self
        ensures { result ≡ [] }
    {
        VersionList {
            values: SmallVec::new(alloc),
            is_due: false,
        }
    }

    /// What stands at the key at the version, in O(log n) comparisons for n versions, and in one from the newest on.
    pub(crate) fn value_at(&self, version: u64) -> Option<&Bytes>
        ensures { option_copied result ≡ value_up_to version self.now }
    {
        if are_up_to(self.values.as_slice(), version) {
            return self.newest();
        }
        let (through, _above) = split_by(self.values.as_slice(), version);
        newest_of(through)
    }

    /// What stands at the key from its newest version on.
    pub(crate) fn newest(&self) -> Option<&Bytes>
        ensures { option_copied result ≡ newest_of self.now }
    {
        newest_of(self.values.as_slice())
    }

    /// Lets the value stand at the key from the version on, which no version of the key is above. Where that is what
    /// stood there before, nothing more is kept. Where memory runs out, nothing is promised of what stands at the key.
    /// It takes O(1) amortised, and O(m) to compare values of m bytes.
    pub(crate) fn put(&mut self, version: u64, value: Option<Bytes>) -> Result<(), AllocError>
        requires { AreUpTo version self.old }
        ensures before { OnOk result ((v : ℕ) → v < version → value_up_to v self.new ≡ value_up_to v self.old) }
        ensures after { OnOk result ((v : ℕ) → version ≤ v → value_up_to v self.new ≡ value) }
        ensures newest { OnOk result (newest_of self.new ≡ value) }
        ensures up_to { OnOk result (AreUpTo version self.new) }
    {
        take_version(&mut self.values, version);
        add_change(&mut self.values, version, value)
    }

    /// Leaves out what no version from the floor on shows. It takes no memory, and O(n) for n versions.
    pub(crate) fn trim(&mut self, floor: u64)
        ensures kept { (v : ℕ) → floor ≤ v → value_up_to v self.new ≡ value_up_to v self.old }
        ensures up_to { (v : ℕ) → AreUpTo v self.old → AreUpTo v self.new }
        ensures fewest { (through : ℕ) → floor ≤ through → AreUpTo through self.old
            → length self.new ≡ kept_from (λ (v : ℕ). value_up_to v self.old) floor through }
    {
        let (through, _above) = split_by(self.values.as_slice(), floor);
        let count = through.len() - count_newest(through);
        drop_first(&mut self.values, count);
    }

    /// Whether the key is among those that are noted as having versions to drop.
    pub(crate) fn is_due(&self) -> bool {
        self.is_due
    }

    /// Notes whether it is.
    pub(crate) fn set_due(&mut self, is_due: bool)
        ensures { self.new ≡ self.old }
    {
        self.is_due = is_due;
    }

    /// Whether nothing ever stood at the key, as far as is kept.
    pub(crate) fn is_empty(&self) -> bool
        ensures { IsTrue result ↔ (self.now ≡ []) }
    {
        self.values.is_empty()
    }

    /// The version in the middle, which half of them come before, if there are several.
    pub(crate) fn middle(&self) -> Option<u64> {
        let values = self.values.as_slice();
        if values.len() < 2 {
            return None;
        }
        Some(values[values.len() / 2].version)
    }

    /// How many versions are kept.
    pub(crate) fn len(&self) -> usize
        ensures { result ≡ length self.now }
    {
        self.values.len()
    }

    /// The number of versions above the floor at which another value stands than at the version before, and one more
    /// where a value stands at the floor. It takes O(log n) comparisons for n versions, and no memory.
    pub(crate) fn kept_from(&self, floor: u64) -> usize
        ensures { (through : ℕ) → floor ≤ through → AreUpTo through self.now
            → result ≡ kept_from (λ (v : ℕ). value_up_to v self.now) floor through }
    {
        let (through, above) = split_by(self.values.as_slice(), floor);
        above.len() + count_newest(through)
    }
}

// Written out, so that what drops the cells of the values is proved here, and not anew wherever a list is dropped.
impl Drop for VersionList {
    fn drop(self) {
        let VersionList { values, is_due: _ } = self;
        drop(values);
    }
}

// The values of the versions up to this one, and of those above it, in O(log n) comparisons for n versions.
fn split_by(values: &[VersionedValue], version: u64) -> (&[VersionedValue], &[VersionedValue])
    requires { AreRising values.now }
    ensures parts { values.now ≡ result.0.now ++ result.1.now }
    ensures through { AreUpTo version result.0.now }
    ensures above { AreAbove version result.1.now }
{
    let count = values.partition_point(
        |next: &VersionedValue| -> bool
            ensures { result ≡ nat_le next.now.version version }
        { next.version <= version },
    );
    values.split_at(count)
}

// The value of the last version.
fn newest_of(values: &[VersionedValue]) -> Option<&Bytes>
    ensures { option_copied result ≡ newest_of values.now }
{
    match values.last() {
        Some(last) => last.value.as_ref(),
        None => None,
    }
}

// Whether the last version is this one.
fn ends_at(values: &[VersionedValue], version: u64) -> bool
    ensures { result ≡ ends_at version values.now }
{
    match values.last() {
        Some(last) => last.version == version,
        None => false,
    }
}

// Whether no version is above this one.
fn are_up_to(values: &[VersionedValue], version: u64) -> bool
    requires { AreRising values.now }
    ensures { IsTrue result → AreUpTo version values.now }
{
    is_last_up_to(values, version)
}

// Whether the last version, if there is one, isn't above this one.
fn is_last_up_to(values: &[VersionedValue], version: u64) -> bool
    ensures { result ≡ is_last_up_to version values.now }
{
    match values.last() {
        Some(last) => last.version <= version,
        None => true,
    }
}

// Leaves out the value of this very version, which is the last one if it is there.
fn take_version(values: &mut SmallVec<VersionedValue, 1>, version: u64)
    requires list { IsVersionList values.old.items }
    requires up_to { AreUpTo version values.old.items }
    ensures list { IsVersionList values.new.items }
    ensures below { AreBelow version values.new.items }
    ensures before { (v : ℕ) → v < version → value_up_to v values.new.items ≡ value_up_to v values.old.items }
{
    if ends_at(values.as_slice(), version) {
        let count = values.len() - 1;
        values.truncate(count);
    }
}

// Puts the value at the version, if another one stood there before.
fn add_change(
    values: &mut SmallVec<VersionedValue, 1>,
    version: u64,
    value: Option<Bytes>,
) -> Result<(), AllocError>
    requires list { IsVersionList values.old.items }
    requires below { AreBelow version values.old.items }
    ensures list { IsVersionList values.new.items }
    ensures before { OnOk result
        ((v : ℕ) → v < version → value_up_to v values.new.items ≡ value_up_to v values.old.items) }
    ensures after { OnOk result ((v : ℕ) → version ≤ v → value_up_to v values.new.items ≡ value) }
    ensures newest { OnOk result (newest_of values.new.items ≡ value) }
    ensures up_to { OnOk result (AreUpTo version values.new.items) }
{
    if is_newest(values.as_slice(), &value) {
        return Ok(());
    }
    values.push(VersionedValue { version, value })?;
    Ok(())
}

// Whether the value is that of the last version.
fn is_newest(values: &[VersionedValue], value: &Option<Bytes>) -> bool
    ensures { result ≡ same_value (newest_of values.now) value.now }
{
    newest_of(values) == value.as_ref()
}

// 1 where the last version has a value.
fn count_newest(values: &[VersionedValue]) -> usize
    ensures value { result ≡ (if is_some (newest_of values.now) then 1 else 0) }
    ensures within { result ≤ length values.now }
{
    match newest_of(values) {
        Some(_value) => 1,
        None => 0,
    }
}

// Leaves out the first values.
fn drop_first(values: &mut SmallVec<VersionedValue, 1>, count: usize)
    requires { count ≤ length values.old.items }
    ensures { values.new.items ≡ drop count values.old.items }
{
    drop(values.drain(..count));
}
