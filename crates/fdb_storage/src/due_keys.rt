// Which keys have versions to drop once a floor reaches a version.
use fdb_interval::PointKey;
use std::alloc::{AllocError, Global};
use std::collections::VecDeque;

/// The keys that have versions to drop, by the version that the floor has to reach. Nothing is said of them by any
/// clause, since any key may be cut at the floor at any time.
#[derive(Drop)]
pub(crate) struct DueKeys {
    alloc: Global,
    // The least version first.
    by_version: VecDeque<DueAt>,
}

// The keys of one version, with room for each put at it: so a key that has a version there is noted without memory.
#[derive(Drop)]
struct DueAt {
    version: u64,
    keys: Vec<PointKey>,
    puts: usize,
}

impl DueKeys {
    /// No keys. It takes no memory.
    pub(crate) fn new(alloc: Global) -> Self {
        DueKeys {
            alloc,
            by_version: VecDeque::new(alloc),
        }
    }

    /// Makes room for one key more at the version, which no version here is above, in O(1) amortised.
    pub(crate) fn make_room(&mut self, version: u64) -> Result<(), AllocError> {
        if !self.ends_at(version) {
            self.by_version.push_back(DueAt {
                version,
                keys: Vec::new(self.alloc),
                puts: 0,
            })?;
        }
        match self.by_version.back_mut() {
            Some(due) => make_room_at(due),
            None => Ok(()),
        }
    }

    // Whether the greatest version here is this one.
    fn ends_at(&self, version: u64) -> bool {
        match self.by_version.back() {
            Some(due) => due.version == version,
            None => false,
        }
    }

    /// Notes the key at the version, at which there is room for it: then it takes no memory, and O(log n) comparisons
    /// for n versions. Whether it is noted.
    pub(crate) fn note(&mut self, version: u64, key: PointKey) -> bool {
        let place = self
            .by_version
            .partition_point(|due: &DueAt| -> bool { due.version < version });
        match self.by_version.get_mut(place) {
            Some(due) => note_at(due, version, key),
            None => false,
        }
    }

    /// The keys of the first version, where that is up to the floor. They are taken off.
    pub(crate) fn next(&mut self, floor: u64) -> Option<Vec<PointKey>> {
        match self.by_version.front() {
            Some(due) if due.version <= floor => {}
            _ => return None,
        }
        match self.by_version.pop_front() {
            Some(due) => Some(due.keys),
            None => None,
        }
    }

    /// How many versions have keys, or room for some.
    pub(crate) fn len(&self) -> usize {
        self.by_version.len()
    }
}

// Makes room for one key more.
fn make_room_at(due: &mut DueAt) -> Result<(), AllocError> {
    due.puts = due.puts.saturating_add(1);
    let missing = due.puts.saturating_sub(due.keys.len());
    due.keys.reserve(missing)
}

// Notes the key, if these are those of the version. Whether it is noted.
fn note_at(due: &mut DueAt, version: u64, key: PointKey) -> bool {
    due.version == version && due.keys.push(key).is_ok()
}
