ghost use Rattle.std.specs.Prelude.{◌≡◌, OnErr};
ghost use Rattle.std.specs.FinMap.{empty, get, insert, remove};
ghost use Rattle.fdb_keys.specs.Answers.{AnswersOrHandsBack};
ghost use Rattle.fdb_txn.specs.Room.{room_fault};

use fdb_keys::{Refusal, Refused};
use std::alloc::Global;
use std::collections::BTreeMap;
use std::marker::Model;

/// Items that wait for the one before theirs, each under its previous version: the version after which it comes. It is
/// for a role that gets messages out of order, and takes them in the order of their versions, each right after the one
/// whose version is its previous one.
#[derive(Drop)]
pub struct Room<T> {
    waiting: BTreeMap<u64, T>,
}

impl<T> Model for Room<T> {
    ghost use Rattle.std.specs.Coded.{coded_ℕ};
    ghost use Rattle.std.specs.FinMap.{FinMap, code, from_entries};
    ghost use Rattle.std.specs.Ordering.{nat_cmp};

    ghost Value = { FinMap nat_cmp T };

    ghost coded = { code coded_ℕ T.code };

    ghost view = { λ room. from_entries room.waiting.entries };
}

impl<T: Drop> Room<T> {
    /// The room in which nothing waits. It takes no memory.
    pub fn new(alloc: Global) -> Self
        ensures { result ≡ empty }
    {
        Room {
            waiting: BTreeMap::new(alloc),
        }
    }

    /// Lets the item wait for its previous version, `prev`. Refused as `Stale` where an item with that previous version
    /// waits already, and as `NoMemory`; then the item is handed back, and nothing changes.
    pub fn put(&mut self, prev: u64, item: T) -> Result<(), Refused<T>>
        ensures answers { AnswersOrHandsBack result item (room_fault (get self.old prev))
            (λ _. self.new ≡ insert self.old prev item) }
        ensures err { OnErr result (self.new ≡ self.old) }
    {
        if self.waiting.contains_key(&prev) {
            return Err(Refused {
                why: Refusal::Stale,
                back: item,
            });
        }
        match self.waiting.insert(prev, item) {
            Ok(_nothing) => Ok(()),
            Err(failed) => Err(Refused {
                why: Refusal::NoMemory,
                back: failed.value.1,
            }),
        }
    }

    /// Gives the item whose previous version is `last`, the last version that the role took, and which waits no longer;
    /// none where none waits for it. All others go on waiting. It takes no memory.
    pub fn ready(&mut self, last: u64) -> Option<T>
        ensures given { result ≡ get self.old last }
        ensures others { self.new ≡ remove self.old last }
    {
        self.waiting.remove(&last)
    }
}
