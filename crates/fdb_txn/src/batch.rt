ghost use Rattle.std.specs.List.{AllByRecursion};
ghost use Rattle.fdb_txn.specs.book.Transactions.{NamesWrites};

use crate::sealed::Sealed;
use fdb_keys::SharedList;
use std::marker::Model;

/// The transactions of one entry, in the order of their places. Its copies share them: a copy takes O(1) time and no
/// memory.
#[derive(Clone, Drop, PartialEq, Eq)]
pub struct Batch {
    places: SharedList<Sealed>,
}

impl Model for Batch {
    ghost use Rattle.std.specs.Prelude.{◌≤◌, List, length};
    ghost use Rattle.std.specs.List.{AllByRecursion};
    ghost use Rattle.fdb_txn.specs.book.Transactions.{Transaction, NamesWrites};
    ghost use Rattle.fdb_txn.specs.Limits.{place_limit};

    ghost Value = { List Transaction };

    ghost view = { λ batch. batch.places };

    ghost invariant = { λ batch. (length batch.places ≤ place_limit) × AllByRecursion NamesWrites batch.places };

    ghost inverse = { λ places. record { places = places } };
}

impl Batch {
    ghost use Rattle.std.specs.Prelude.{◌≡◌, ◌≤◌, length};
    ghost use Rattle.std.specs.List.{AllByRecursion};
    ghost use Rattle.fdb_txn.specs.Limits.{place_limit};
    ghost use Rattle.fdb_txn.specs.book.Transactions.{NamesWrites};

    /// The batch of these transactions, of which there are at most 4,096. It takes no memory, and O(n) time for n of
    /// them.
    pub fn new(places: SharedList<Sealed>) -> Self
        requires { length places ≤ place_limit }
        ensures { result ≡ places }
    {
        know_named(places.as_slice());
        Batch { places }
    }

    /// The transactions, in the order of their places. Each is a sealed one, whose write set has what its mutations
    /// name. It takes no memory, and O(1) time.
    pub fn as_slice(&self) -> &[Sealed]
        ensures places { result.now ≡ self.now }
        ensures within { length self.now ≤ place_limit }
        ensures sealed { AllByRecursion NamesWrites self.now }
    {
        self.places.as_slice()
    }
}

// What a transaction's mutations name is in its write set, as of every sealed one.
fn know_named(places: &[Sealed])
    ensures { AllByRecursion NamesWrites places.now }
{
    for sealed in places {
        let _writes = sealed.writes();
    }
}
