ghost use Rattle.std.specs.Prelude.{◌≡◌, [], None};

use crate::halt::Halt;
use crate::hot_keys::HotKeys;
use fdb_keys::{RangeSet, Refusal, Refused};
use fdb_roles::Placed;
use fdb_runtime::{ClusterName, Receipt, Transcript};
use std::alloc::Global;

/// What came of clients' tries.
#[derive(Drop)]
pub struct Played {
    /// What each receipt says: where the transaction stands, and what it did.
    pub placed: Vec<Placed>,
    /// How many tries had no effect, since another transaction wrote what they read, or they read at too old a version.
    pub aborted: u64,
    /// The transactions of which it isn't known whether they were committed.
    pub doubtful: Vec<Transcript>,
    /// Why the first client ended that ended by a refusal.
    pub refused: Option<Refusal>,
    /// At which keys tries conflicted.
    pub hot: HotKeys,
}

impl Played {
    /// Nothing was tried. It takes no memory and O(1) time.
    pub fn new(alloc: Global) -> Self
        ensures placed { result.placed.items ≡ [] }
        ensures aborted { result.aborted ≡ 0 }
        ensures doubtful { result.doubtful.items ≡ [] }
        ensures refused { result.refused ≡ None }
    {
        Played {
            placed: Vec::new(alloc),
            aborted: 0,
            doubtful: Vec::new(alloc),
            refused: None,
            hot: HotKeys::new(alloc),
        }
    }

    /// Makes room for what one more try may leave.
    pub(crate) fn reserve(&mut self) -> Result<(), Refusal> {
        self.placed.reserve(1)?;
        self.doubtful.reserve(1)?;
        Ok(())
    }

    /// Notes how a transaction was answered that was committed or not, and says whether it was. A refusal that tells
    /// neither ends the client.
    pub(crate) fn note<B: ClusterName>(
        &mut self,
        answer: Result<Receipt<B>, Refused<Option<(Transcript, RangeSet)>>>,
    ) -> Result<bool, Halt> {
        match answer {
            Ok(receipt) => self.note_placed(receipt.into_placed()),
            Err(refused) => self.note_refused(refused.why, refused.back),
        }
    }

    fn note_placed(&mut self, placed: Placed) -> Result<bool, Halt> {
        match self.placed.push(placed) {
            Ok(()) => Ok(true),
            Err(_failed) => Err(Halt::Refused(Refusal::NoMemory)),
        }
    }

    fn note_refused(
        &mut self,
        why: Refusal,
        back: Option<(Transcript, RangeSet)>,
    ) -> Result<bool, Halt> {
        match (why, back) {
            (Refusal::CommitUnknownResult, Some((transcript, _conflict))) => {
                self.note_doubtful(transcript)
            }
            (why, Some((_transcript, conflict))) => {
                self.hot.note(&conflict)?;
                self.note_aborted(why)
            }
            (why, None) => self.note_aborted(why),
        }
    }

    fn note_doubtful(&mut self, transcript: Transcript) -> Result<bool, Halt> {
        match self.doubtful.push(transcript) {
            Ok(()) => Ok(false),
            Err(_failed) => Err(Halt::Refused(Refusal::NoMemory)),
        }
    }

    /// Notes that a try had no effect, if that is what the refusal says.
    pub(crate) fn note_aborted(&mut self, why: Refusal) -> Result<bool, Halt> {
        match why {
            Refusal::NotCommitted | Refusal::TransactionTooOld => {
                self.aborted = self.aborted.saturating_add(1);
                Ok(false)
            }
            _ => Err(Halt::Refused(why)),
        }
    }

    /// Notes that a client ended.
    pub(crate) fn note_halt(&mut self, halt: Halt) {
        match halt {
            Halt::Refused(why) => self.note_ended(why),
            Halt::Broken => {}
        }
    }

    /// Notes that a client ended by the refusal.
    pub(crate) fn note_ended(&mut self, why: Refusal) {
        if self.refused.is_none() {
            self.refused = Some(why);
        }
    }

    /// Adds what came of another client's tries. Where memory runs out, some of it is missing.
    pub(crate) fn join(&mut self, other: Played) {
        let Played {
            placed,
            aborted,
            doubtful,
            refused,
            hot,
        } = other;
        self.aborted = self.aborted.saturating_add(aborted);
        if let Some(why) = refused {
            self.note_ended(why);
        }
        if let Err(why) = self.hot.join(&hot) {
            self.note_ended(why);
        }
        self.take_placed(placed);
        self.take_doubtful(doubtful);
    }

    fn take_placed(&mut self, placed: Vec<Placed>) {
        let mut placed = placed;
        if self.placed.append(&mut placed).is_err() {
            self.note_ended(Refusal::NoMemory);
        }
    }

    fn take_doubtful(&mut self, doubtful: Vec<Transcript>) {
        let mut doubtful = doubtful;
        if self.doubtful.append(&mut doubtful).is_err() {
            self.note_ended(Refusal::NoMemory);
        }
    }
}
