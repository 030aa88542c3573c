ghost use Rattle.std.specs.Prelude.{◌≡◌};
ghost use Rattle.fdb_keys.specs.declared.refusal.Refusal.TheVariants.{NoMemory};
ghost use Rattle.fdb_keys.specs.Refusals.{code_of, name_of};
ghost use Rattle.fdb_keys.specs.Retries.{is_maybe_committed, is_retryable};

use std::alloc::{AllocError, AllocFailed};
use std::fmt;
use thiserror::Error;

/// Why a call was refused. Where several refusals fit, a call answers the first in its own documented order.
#[derive(Clone, Copy, Debug, PartialEq, Eq, Error)]
pub enum Refusal {
    TransactionTooOld,
    FutureVersion,
    NotCommitted,
    CommitUnknownResult,
    AccessedUnreadable,
    KeyOutsideLegalRange,
    InvertedRange,
    TransactionTooLarge,
    KeyTooLarge,
    ValueTooLarge,
    NoMemory,
    NotYet(u64),
    Stale,
    Failed,
    Exhausted,
    BookFull,
    Repeated(u32),
    BadOperand,
    BadConfig,
    Chain,
    Taken,
    MovesFull,
    Closed,
    WrongState,
    NoTransaction,
    Unknown,
}

impl Refusal {
    /// The number of the refusal, which stays the same in every release.
    pub fn code(&self) -> u32
        ensures { result ≡ code_of self.now }
    {
        match self {
            Refusal::TransactionTooOld => 1007,
            Refusal::FutureVersion => 1009,
            Refusal::NotCommitted => 1020,
            Refusal::CommitUnknownResult => 1021,
            Refusal::AccessedUnreadable => 1036,
            Refusal::KeyOutsideLegalRange => 2004,
            Refusal::InvertedRange => 2005,
            Refusal::TransactionTooLarge => 2101,
            Refusal::KeyTooLarge => 2102,
            Refusal::ValueTooLarge => 2103,
            Refusal::NoMemory => 9001,
            Refusal::NotYet(_) => 9002,
            Refusal::Stale => 9003,
            Refusal::Failed => 9004,
            Refusal::Exhausted => 9005,
            Refusal::BookFull => 9006,
            Refusal::Repeated(_) => 9007,
            Refusal::BadOperand => 9008,
            Refusal::BadConfig => 9009,
            Refusal::Chain => 9010,
            Refusal::Taken => 9011,
            Refusal::MovesFull => 9012,
            Refusal::Closed => 9013,
            Refusal::WrongState => 9014,
            Refusal::NoTransaction => 9015,
            Refusal::Unknown => 9016,
        }
    }

    /// The name of the refusal, which stays the same in every release.
    pub fn name(&self) -> &'static str
        ensures { result.now ≡ name_of self.now }
    {
        match self {
            Refusal::TransactionTooOld => "TransactionTooOld",
            Refusal::FutureVersion => "FutureVersion",
            Refusal::NotCommitted => "NotCommitted",
            Refusal::CommitUnknownResult => "CommitUnknownResult",
            Refusal::AccessedUnreadable => "AccessedUnreadable",
            Refusal::KeyOutsideLegalRange => "KeyOutsideLegalRange",
            Refusal::InvertedRange => "InvertedRange",
            Refusal::TransactionTooLarge => "TransactionTooLarge",
            Refusal::KeyTooLarge => "KeyTooLarge",
            Refusal::ValueTooLarge => "ValueTooLarge",
            Refusal::NoMemory => "NoMemory",
            Refusal::NotYet(_) => "NotYet",
            Refusal::Stale => "Stale",
            Refusal::Failed => "Failed",
            Refusal::Exhausted => "Exhausted",
            Refusal::BookFull => "BookFull",
            Refusal::Repeated(_) => "Repeated",
            Refusal::BadOperand => "BadOperand",
            Refusal::BadConfig => "BadConfig",
            Refusal::Chain => "Chain",
            Refusal::Taken => "Taken",
            Refusal::MovesFull => "MovesFull",
            Refusal::Closed => "Closed",
            Refusal::WrongState => "WrongState",
            Refusal::NoTransaction => "NoTransaction",
            Refusal::Unknown => "Unknown",
        }
    }

    /// Whether the transaction that was refused so isn't committed, and may be once all of it is tried anew, at a newer
    /// read version: at `TransactionTooOld`, `FutureVersion` and `NotCommitted`. O(1), no memory.
    pub fn is_retryable(&self) -> bool
        ensures { result ≡ is_retryable self.now }
    {
        matches!(
            self,
            Refusal::TransactionTooOld | Refusal::FutureVersion | Refusal::NotCommitted
        )
    }

    /// Whether the transaction that was refused so may have been committed or not, as at `CommitUnknownResult` alone.
    /// O(1), no memory.
    pub fn is_maybe_committed(&self) -> bool
        ensures { result ≡ is_maybe_committed self.now }
    {
        matches!(self, Refusal::CommitUnknownResult)
    }
}

impl fmt::Display for Refusal {
    fn fmt<W: fmt::Write>(&self, f: &mut fmt::Formatter<W>) -> fmt::Result {
        let sentence = match self {
            Refusal::NotYet(number) => {
                return write!(
                    f,
                    "something that comes before this, numbered {number}, has not come yet"
                );
            }
            Refusal::Repeated(place) => {
                return write!(f, "the transaction at place {place} was submitted before");
            }
            Refusal::TransactionTooOld => "the read version is older than what is still served",
            Refusal::FutureVersion => "the version has not been reached yet",
            Refusal::NotCommitted => "another transaction wrote what this one had read",
            Refusal::CommitUnknownResult => "it is not known whether the transaction was committed",
            Refusal::AccessedUnreadable => "a versionstamped key is read before its commit",
            Refusal::KeyOutsideLegalRange =>
                "the key or bound lies outside the legal range of keys",
            Refusal::InvertedRange => "the range ends before it begins",
            Refusal::TransactionTooLarge => "the transaction exceeds its limit of bytes",
            Refusal::KeyTooLarge => "the key or bound exceeds its limit of bytes",
            Refusal::ValueTooLarge => "the value exceeds its limit of bytes",
            Refusal::NoMemory => "memory ran out",
            Refusal::Stale => "this came already, or came too late",
            Refusal::Failed => "an earlier call failed, and nothing can be done with this any more",
            Refusal::Exhausted => "the numbers of their kind are used up",
            Refusal::BookFull => "the book is full",
            Refusal::BadOperand => "the operand has a length that the mutation does not take",
            Refusal::BadConfig => "the number or configuration is not a legal one",
            Refusal::Chain => "the entry does not follow on the one before it",
            Refusal::Taken => "another entry stands in this place already",
            Refusal::MovesFull => "too many moves were made",
            Refusal::Closed => "the database is closed",
            Refusal::WrongState => "the call does not fit the state that its role is in",
            Refusal::NoTransaction => "the session has no open transaction",
            Refusal::Unknown => "no role, entry or message has this number",
        };
        f.write_str(sentence)
    }
}

impl From<AllocError> for Refusal {
    ghost from_gives = { λ _ refusal. refusal ≡ NoMemory };

    fn from(_error: AllocError) -> Refusal {
        Refusal::NoMemory
    }
}

impl<T: Drop> From<AllocFailed<T>> for Refusal {
    ghost from_gives = { λ _ refusal. refusal ≡ NoMemory };

    fn from(_error: AllocFailed<T>) -> Refusal {
        Refusal::NoMemory
    }
}

/// A refusal that hands back what the call was given.
#[derive(Debug, Drop)]
pub struct Refused<T> {
    /// Why the call was refused.
    pub why: Refusal,
    /// What the call was given.
    pub back: T,
}

// What was given back is dropped.
impl<T: Drop> From<Refused<T>> for Refusal {
    ghost from_gives = { λ refused refusal. refusal ≡ refused.why };

    fn from(refused: Refused<T>) -> Refusal {
        refused.why
    }
}

impl<T> fmt::Display for Refused<T> {
    fn fmt<W: fmt::Write>(&self, f: &mut fmt::Formatter<W>) -> fmt::Result {
        write!(f, "{}", self.why)
    }
}

impl<T: Drop + fmt::Debug> std::error::Error for Refused<T> {}
