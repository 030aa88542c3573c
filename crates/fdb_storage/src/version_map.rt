// Keys in their order, each with its versions.
ghost use Rattle.std.specs.Prelude.{◌≡◌, ◌≤◌, [], ℕ, None, IfSome, OnOk, is_some};
ghost use Rattle.fdb_keys.specs.Answers.{Answers};
ghost use Rattle.fdb_mutations.specs.Mutations.{new_value};
ghost use Rattle.fdb_storage.specs.VersionLists.{newest_of, value_up_to, AreUpTo};
ghost use Rattle.fdb_storage.specs.VersionMaps.{HaveNoted};
ghost use Rattle.fdb_storage.specs.Changes.{HavePut};

use crate::due_keys::DueKeys;
use crate::version_list::VersionList;
use bytes::Bytes;
use fdb_interval::{KeyedRange, PointKey};
use fdb_keys::{Key, KeyRange, Refusal};
use fdb_mutations::Mutation;
use std::alloc::{AllocError, Global};
use std::collections::{BTreeMap, BTreeSet};

#[derive(Drop)]
pub(crate) struct VersionMap {
    pub(crate) keys: BTreeMap<PointKey, VersionList>,
    // The keys at which something stands from their newest version on. What clears a range goes by these, and so meets
    // none of those that were cleared before and aren't forgotten yet.
    pub(crate) live: BTreeSet<PointKey>,
    // The keys that have versions to drop. Each is there once, and not for each of its versions: at the version at
    // which half of those that it had can go. So it is looked up once for several versions, and has at most about twice
    // as many as are needed.
    due: DueKeys,
}

impl VersionMap {
    ghost use Rattle.std.specs.Prelude.{◌≡◌, ◌≤◌, ◌&&◌, [], ℕ, min, None, is_some, IfOk, IfSome, OnOk, IsTrue};
    ghost use Rattle.std.specs.List.{list_any};
    ghost use Rattle.std.specs.Option.{option_copied};
    ghost use Rattle.fdb_keys.specs.Points.{Point, point_eq};
    ghost use Rattle.fdb_keys.specs.Ranges.{in_range};
    ghost use Rattle.fdb_keys.specs.Answers.{Answers};
    ghost use Rattle.fdb_keys.specs.Texts.{is_key};
    ghost use Rattle.fdb_storage.specs.VersionLists.{newest_of, kept_from};
    ghost use Rattle.fdb_storage.specs.VersionMaps.{versions_at};
    ghost use Rattle.fdb_storage.specs.Changes.{HaveChanged, new_at};
    ghost use Rattle.fdb_storage.specs.VersionMaps.{found, versions_of, value_of, EndBy, HaveLegalKeys, HaveLive};
    ghost use Rattle.fdb_storage.specs.Changes.{put_at};
    ghost use Rattle.fdb_storage.specs.VersionMaps.{HaveForgotten};

    /// The map of no keys. It takes no memory.
    pub(crate) fn new(alloc: Global) -> Self
        ensures empty { result.keys.entries ≡ [] }
        ensures live { HaveLive result.keys.entries result.live.keys }
    {
        VersionMap {
            keys: BTreeMap::new(alloc),
            live: BTreeSet::new(alloc),
            due: DueKeys::new(alloc),
        }
    }

    /// What stands at the key at the version, in O(log n) comparisons for n keys and as many for its versions.
    pub(crate) fn value_at(&self, key: &Key, version: u64) -> Option<&Bytes>
        ensures { option_copied result ≡ value_of self.now.keys.entries version key.now }
    {
        match self.versions_of_key(key) {
            Some(versions) => versions.value_at(version),
            None => None,
        }
    }

    /// How many versions of the key have to be kept for who reads from the floor on. It takes no memory, and O(log n)
    /// comparisons for n keys and as many for its versions.
    pub(crate) fn kept_from(&self, alloc: Global, key: &Key, floor: u64) -> usize
        ensures { (through : ℕ) → floor ≤ through → EndBy through self.now.keys.entries
            → result ≡ kept_from (λ (v : ℕ). value_of self.now.keys.entries v key.now) floor through }
    {
        match self.versions_of_key(key) {
            Some(versions) => versions.kept_from(floor),
            None => VersionList::new(alloc).kept_from(floor),
        }
    }

    // The versions of the key, if it is there, in O(log n) comparisons for n keys. Where its text can't be shared once
    // more, all keys are gone through, so that this is never refused.
    fn versions_of_key(&self, key: &Key) -> Option<&VersionList>
        ensures { option_copied result ≡ found self.now.keys.entries key.now }
    {
        match PointKey::at(key) {
            Ok(point) => self.keys.get(&point),
            Err(_) => self.look_through(key),
        }
    }

    // The same by the texts alone, in O(n) comparisons.
    fn look_through(&self, key: &Key) -> Option<&VersionList>
        ensures { option_copied result ≡ found self.now.keys.entries key.now }
    {
        for (point, versions) in &self.keys {
            if point.text() == key.text() {
                return Some(versions);
            }
        }
        None
    }

    /// How many versions of all keys are kept, or the greatest number where they are more. It takes no memory, and O(n)
    /// for n keys.
    pub(crate) fn versions(&self) -> usize
        ensures { result ≡ min usize.MAX (versions_of self.now.keys.entries) }
    {
        let mut count = 0usize;
        for versions in self.keys.values() {
            count = count.saturating_add(versions.len());
        }
        count
    }

    /// Applies a mutation of the key from the version on, in O(log n) comparisons for n keys and versions: a key that
    /// is there is looked up once, and once more where something begins or ceases to stand there. Refused only as
    /// `NoMemory`.
    pub(crate) fn change(
        &mut self,
        alloc: Global,
        version: u64,
        key: &Key,
        mutation: &Mutation,
    ) -> Result<(), Refusal>
        requires ended { EndBy version self.old.keys.entries }
        requires legal_keys { HaveLegalKeys self.old.keys.entries }
        requires live { HaveLive self.old.keys.entries self.old.live.keys }
        ensures changed { Answers result None (λ _. HaveChanged version (new_at key.now mutation.now)
            self.old.keys.entries self.new.keys.entries) }
        ensures live { OnOk result (HaveLive self.new.keys.entries self.new.live.keys) }
    {
        let point = PointKey::at(key)?;
        if let Some(versions) = self.keys.get_mut(&point) {
            return change_in(
                alloc,
                versions,
                &mut self.live,
                &mut self.due,
                version,
                point,
                mutation,
            );
        }
        let value = mutation.apply_value(alloc, None)?;
        self.put_first(alloc, version, point, value)?;
        Ok(())
    }

    // Lets the value, if there is one, stand from the version on at the key, which isn't there.
    fn put_first(
        &mut self,
        alloc: Global,
        version: u64,
        key: PointKey,
        value: Option<Bytes>,
    ) -> Result<(), AllocError>
        requires ended { EndBy version self.old.keys.entries }
        requires legal_keys { HaveLegalKeys self.old.keys.entries }
        requires live { HaveLive self.old.keys.entries self.old.live.keys }
        requires legal { IsTrue (is_key key) }
        requires absent { found self.old.keys.entries key ≡ None }
        ensures changed { OnOk result (HaveChanged version (put_at key value)
            self.old.keys.entries self.new.keys.entries) }
        ensures live { OnOk result (HaveLive self.new.keys.entries self.new.live.keys) }
    {
        if value.is_some() {
            self.live.insert(key.clone()?)?;
            let mut versions = VersionList::new(alloc);
            versions.put(version, value)?;
            self.keys.insert(key, versions)?;
        }
        Ok(())
    }

    /// Lets nothing stand at the key from the version on, if it is there, in O(log n) comparisons for n keys and
    /// versions: it is looked up once, and once more where something stood there.
    pub(crate) fn clear(&mut self, version: u64, key: &PointKey) -> Result<(), AllocError>
        requires ended { EndBy version self.old.keys.entries }
        requires legal_keys { HaveLegalKeys self.old.keys.entries }
        requires live { HaveLive self.old.keys.entries self.old.live.keys }
        ensures changed { OnOk result (HaveChanged version (put_at key.now None)
            self.old.keys.entries self.new.keys.entries) }
        ensures live { OnOk result (HaveLive self.new.keys.entries self.new.live.keys) }
    {
        if let Some(versions) = self.keys.get_mut(key) {
            let key = key.clone()?;
            return put_in(versions, &mut self.live, &mut self.due, version, key, None);
        }
        Ok(())
    }

    /// The keys of the range at which something stands from their newest version on, in O(log n) comparisons for n keys
    /// and O(1) for each of these. No other key of the range is met.
    pub(crate) fn live_in(
        &self,
        alloc: Global,
        range: &KeyRange,
    ) -> Result<Vec<PointKey>, AllocError>
        requires { HaveLive self.now.keys.entries self.now.live.keys }
        ensures { IfOk result (λ keys. (x : Point) → list_any (point_eq x) keys.items
            ≡ (in_range range.now x && is_some (newest_of (versions_at self.now.keys.entries x)))) }
    {
        let keyed = KeyedRange::new(range)?;
        let mut keys = Vec::new(alloc);
        for key in self.live.range(keyed.begin()..keyed.end()) {
            keys.push(key.clone()?)?;
        }
        Ok(keys)
    }

    /// Drops what no version from the floor on shows of each key of which that is at least about half. It takes no
    /// memory, O(log n) comparisons for n keys and versions and each such key, and O(1) amortised for each version.
    pub(crate) fn forget(&mut self, floor: u64)
        ensures forgotten { HaveForgotten floor self.old.keys.entries self.new.keys.entries }
        ensures live { self.new.live ≡ self.old.live }
    {
        for _count in 0..self.due.len() {
            match self.due.next(floor) {
                Some(keys) => self.trim_all(keys, floor),
                None => return,
            }
        }
    }

    // The same of these keys, which were taken off those that are due.
    fn trim_all(&mut self, keys: Vec<PointKey>, floor: u64)
        ensures forgotten { HaveForgotten floor self.old.keys.entries self.new.keys.entries }
        ensures live { self.new.live ≡ self.old.live }
    {
        for key in keys {
            self.trim(key, floor);
        }
    }

    // Drops what no version from the floor on shows of the key, and the key where nothing is left of it.
    fn trim(&mut self, key: PointKey, floor: u64)
        ensures forgotten { HaveForgotten floor self.old.keys.entries self.new.keys.entries }
        ensures live { self.new.live ≡ self.old.live }
    {
        if let Some(emptied) = self.trim_versions(key, floor) {
            self.keys.remove(&emptied);
        }
    }

    // Drops the versions of the key that no version from the floor on shows. The key comes back if none is left.
    fn trim_versions(&mut self, key: PointKey, floor: u64) -> Option<PointKey>
        ensures forgotten { HaveForgotten floor self.old.keys.entries self.new.keys.entries }
        ensures none { IfSome result (λ emptied. versions_at self.new.keys.entries emptied ≡ []) }
        ensures live { self.new.live ≡ self.old.live }
    {
        match self.keys.get_mut(&key) {
            Some(versions) => trim_in(versions, &mut self.due, key, floor),
            None => None,
        }
    }
}

// Applies a mutation of the key, whose versions these are, from the version on.
fn change_in(
    alloc: Global,
    versions: &mut VersionList,
    live: &mut BTreeSet<PointKey>,
    due: &mut DueKeys,
    version: u64,
    key: PointKey,
    mutation: &Mutation,
) -> Result<(), Refusal>
    requires { AreUpTo version versions.old }
    ensures put { Answers result None (λ _. HavePut version (new_value mutation.now (newest_of versions.old))
        versions.old versions.new) }
    ensures live { OnOk result (HaveNoted key (is_some (newest_of versions.old))
        (is_some (new_value mutation.now (newest_of versions.old))) live.old.keys live.new.keys) }
{
    let value = mutation.apply_value(alloc, versions.newest())?;
    put_in(versions, live, due, version, key, value)?;
    Ok(())
}

// Lets the value stand at the key, whose versions these are, from the version on.
fn put_in(
    versions: &mut VersionList,
    live: &mut BTreeSet<PointKey>,
    due: &mut DueKeys,
    version: u64,
    key: PointKey,
    value: Option<Bytes>,
) -> Result<(), AllocError>
    requires { AreUpTo version versions.old }
    ensures put { OnOk result (HavePut version value versions.old versions.new) }
    ensures live { OnOk result (HaveNoted key (is_some (newest_of versions.old)) (is_some value)
        live.old.keys live.new.keys) }
{
    note_live(live, &key, versions, &value)?;
    versions.put(version, value)?;
    due.make_room(version)?;
    if versions.len() != 1 && !versions.is_due() {
        note_due(versions, due, version, key);
    }
    Ok(())
}

// Notes whether something stands at the key, whose versions these are, once the value does. Where that was so before,
// nothing is looked up.
fn note_live(
    live: &mut BTreeSet<PointKey>,
    key: &PointKey,
    versions: &VersionList,
    value: &Option<Bytes>,
) -> Result<(), AllocError>
    ensures { OnOk result (HaveNoted key.now (is_some (newest_of versions.now)) (is_some value.now)
        live.old.keys live.new.keys) }
{
    let stood = versions.newest().is_some();
    if stood == value.is_some() {
        return Ok(());
    }
    if stood {
        live.remove(key);
        return Ok(());
    }
    live.insert(key.clone()?)?;
    Ok(())
}

// Drops the versions that no version from the floor on shows of the key, whose versions these are and which was taken
// off those that are due. The key comes back if none is left, and is noted anew if several are.
fn trim_in(
    versions: &mut VersionList,
    due: &mut DueKeys,
    key: PointKey,
    floor: u64,
) -> Option<PointKey>
    ensures kept { (v : ℕ) → floor ≤ v → value_up_to v versions.new ≡ value_up_to v versions.old }
    ensures up_to { (v : ℕ) → AreUpTo v versions.old → AreUpTo v versions.new }
    ensures none { IfSome result (λ emptied. (emptied ≡ key) × (versions.new ≡ [])) }
{
    versions.trim(floor);
    versions.set_due(false);
    if versions.is_empty() {
        return Some(key);
    }
    note_anew(versions, due, key);
    None
}

// Notes the key, whose versions these are, at the one in the middle, if there are several.
fn note_anew(versions: &mut VersionList, due: &mut DueKeys, key: PointKey)
    ensures { versions.new ≡ versions.old }
{
    if let Some(middle) = versions.middle() {
        note_due(versions, due, middle, key);
    }
}

// Notes that the key, whose versions these are, has versions to drop once the floor reaches the version.
fn note_due(versions: &mut VersionList, due: &mut DueKeys, version: u64, key: PointKey)
    ensures { versions.new ≡ versions.old }
{
    versions.set_due(due.note(version, key));
}
