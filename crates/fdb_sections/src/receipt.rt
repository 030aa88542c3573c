ghost use Rattle.std.specs.Prelude.{◌≡◌, ◌≤◌, suc, length};
ghost use Rattle.fdb_txn.specs.book.Book.{last_version};
ghost use Rattle.fdb_roles.specs.Spots.{spot_version};
ghost use Rattle.fdb_txn.specs.book.History.{IsBook, AreEntries};
ghost use Rattle.fdb_roles.specs.Layers.{IsBookOf};
ghost use Rattle.fdb_sections.specs.Asking.{HoldsOnRun};
ghost use Rattle.fdb_sections.specs.Receipts.{IsReceipt};

use crate::known_front::KnownFront;
use crate::name::{ClusterName, DatabaseName, Layered};
use fdb_book::Front;
use fdb_client::Transcript;
use fdb_roles::{Layer, Placed};
use fdb_txn::Spot;
use std::marker::Model;

/// What a session gets for a commit: where the transaction stands in the book, what it did and was answered, and a
/// front of the book that shows it there.
#[derive(Drop)]
pub struct Receipt<B: DatabaseName> {
    front: KnownFront<B>,
    spot: Spot,
    transcript: Transcript,
}

impl<B: DatabaseName> Model for Receipt<B> {
    ghost use Rattle.fdb_sections.specs.Receipts.{ReceiptAtFront, IsReceipt};

    ghost Value = { ReceiptAtFront };

    ghost view = { λ receipt. record {
      front = receipt.front;
      spot = receipt.spot;
      transcript = receipt.transcript;
    } };

    ghost invariant = { λ receipt. IsReceipt B.config.resolver_splits (record {
      front = receipt.front;
      spot = receipt.spot;
      transcript = receipt.transcript;
    }) };
}

impl<B: DatabaseName> Receipt<B> {
    /// The receipt of a transaction that stands at the spot. It takes no memory.
    pub(crate) fn new(front: KnownFront<B>, spot: Spot, transcript: Transcript) -> Self
        requires { IsReceipt B.config.resolver_splits
            (record { front = front; spot = spot; transcript = transcript }) }
        ensures { result ≡ record { front = front; spot = spot; transcript = transcript } }
    {
        Receipt {
            front,
            spot,
            transcript,
        }
    }

    /// What the session had seen of the book: a book, on which `serial_check` may be called. It takes no memory.
    pub fn front(&self) -> &Front<B>
        ensures value { result.now ≡ self.now.front }
        ensures book { IsBook (suc (length B.config.resolver_splits)) result.now }
        ensures entries { AreEntries (suc (length B.config.resolver_splits)) 0 result.now }
    {
        self.front.know_book();
        self.front.front()
    }

    // The same with what is known of its entries.
    pub(crate) fn known_front(&self) -> &KnownFront<B>
        ensures value { result.now ≡ self.now.front }
        ensures receipt { IsReceipt B.config.resolver_splits self.now }
    {
        &self.front
    }

    /// Where the transaction stands: it is serialized there. It takes no memory.
    pub fn spot(&self) -> Spot
        ensures value { result ≡ self.now.spot }
        ensures receipt { IsReceipt B.config.resolver_splits self.now }
    {
        self.spot
    }

    // The version of the spot, which the front has come to.
    pub(crate) fn version(&self) -> u64
        ensures value { result ≡ spot_version self.now.spot }
        ensures reached { result ≤ last_version self.now.front }
    {
        match self.spot {
            Spot::Entry { version, .. } => version,
            Spot::ReadOnly { version } => version,
        }
    }

    /// The transaction's id, its read version, and its operations with their replies. It takes no memory.
    pub fn transcript(&self) -> &Transcript
        ensures { result.now ≡ self.now.transcript }
    {
        &self.transcript
    }

    /// Says that the front is a book of transactions that the database allows, each answered as on the serial map at
    /// its read version, and does nothing else. It takes no memory, and O(1) time.
    pub fn know_allowed(&self)
        ensures { ∥ IsBookOf B.allows B.config.resolver_splits self.now.front ∥₁ }
    {
        self.front.know_allowed();
    }

    /// The spot and the transcript, as `serial_check` takes them.
    pub fn into_placed(self) -> Placed
        ensures spot { result.spot ≡ self.spot }
        ensures transcript { result.transcript ≡ self.transcript }
    {
        let Receipt {
            front: _,
            spot,
            transcript,
        } = self;
        Placed { spot, transcript }
    }
}

impl<B: ClusterName, L: Layer> Receipt<Layered<B, L>> {
    /// Says that what each transaction of the layer keeps holds of the serial map of what the session had seen, at
    /// every version, and does nothing else. It takes no memory, and O(1) time.
    pub fn know_layer(&self)
        ensures { HoldsOnRun L.holds B.config.resolver_splits self.now.front }
    {
        self.front.know_layer();
    }
}
