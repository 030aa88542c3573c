use crate::history::History;
use crate::learning::learn_moves;
use crate::parts::{Owned, Span, parts_of};
use crate::pieces::{Pieces, first_pieces};
use crate::spreading::spread;
use crate::sweeping::sweep;
use fdb_interval::PointKey;
use fdb_keys::{Items, Key, KeyRange, RangeSet, Refusal};
use fdb_txn::{Move, RESOLVER_LIMIT, Splits};
use std::alloc::Global;
use std::marker::Model;

// How many breakpoints an expiry looks at for each one that was touched since the last expiry, and how many more.
const LOOKS_FOR_A_CHANGE: u64 = 4;

const LOOKS: u64 = 4;

// How often the last breakpoint is come to once all that was learnt has expired: since the first time may end a round
// that began before, nothing is left to be taken out after the second one.
const ROUNDS: u32 = 2;

/// Which resolver owns which keys at which version.
///
/// At first each resolver owns one piece of the keys, at every version. What is learnt changes that: moves of a
/// version change the owners of their keys from that version on.
#[derive(Drop)]
pub struct Owners {
    alloc: Global,
    splits: Splits,
    pieces: Pieces,
    last: u64,
    floor: u64,
    // How many breakpoints were touched since the last expiry, each once a version, the one that it saw last, how many
    // rounds are left, and the first version that they are for: before that expires there is nothing to take out.
    touched: u64,
    cursor: Option<PointKey>,
    rounds: u32,
    due: u64,
}

impl Model for Owners {
    ghost use Rattle.std.specs.Prelude.{suc, length};
    ghost use Rattle.fdb_interval.specs.Breakpoints.{AreRising};
    ghost use Rattle.fdb_owners.specs.Ownership.{Ownership, IsOwnership};
    ghost use Rattle.fdb_owners.specs.Pieces.{IsPieces, joined};

    ghost Value = { Ownership };

    ghost view = { λ owners. record {
      splits = owners.splits;
      lowest = owners.pieces.lowest;
      breaks = joined owners.pieces;
      last = owners.last;
      floor = owners.floor;
    } };

    ghost invariant = { λ owners. IsOwnership owners.splits
        × IsPieces (suc (length owners.splits)) owners.last owners.pieces
        × AreRising owners.pieces.breaks.entries };
}

impl Owners {
    ghost use Rattle.std.specs.Prelude.{◌≡◌, ◌<◌, ◌≤◌, ◌&&◌, ◌==◌, ℕ, None, All, OnErr, IfOk, length};
    ghost use Rattle.fdb_keys.specs.Answers.{Answers};
    ghost use Rattle.fdb_keys.specs.Points.{Point};
    ghost use Rattle.fdb_keys.specs.Ranges.{in_range, in_set};
    ghost use Rattle.fdb_owners.specs.Ownership.{owner_at, resolvers_of, owned_between, changes_of, owners_fault};
    ghost use Rattle.fdb_owners.specs.Ownership.{learn_fault, IsNew, HasLearnt, HasExpired};
    ghost use Rattle.fdb_owners.specs.Parts.{ArePartsOf};

    /// The owners at first, of so many resolvers: the first one owns the keys before the first split, and each
    /// further one those from a split on. Refused as `BadConfig` unless there is one split less than there are
    /// resolvers, at most 64 resolvers, and the splits rise from a first one that isn't empty, and as `NoMemory`.
    pub fn new(alloc: Global, splits: &[Key], resolvers: u32) -> Result<Self, Refusal>
        ensures { Answers result (owners_fault resolvers splits.now) (IsNew splits.now) }
    {
        if splits.len() + 1 != resolvers as usize || resolvers > RESOLVER_LIMIT {
            return Err(Refusal::BadConfig);
        }
        let splits = Splits::new(alloc, splits, RESOLVER_LIMIT as usize)?;
        let pieces = first_pieces(alloc, splits.as_slice())?;
        Ok(Owners {
            alloc,
            splits,
            pieces,
            last: 0,
            floor: 0,
            touched: 0,
            cursor: None,
            rounds: 0,
            due: 0,
        })
    }

    /// Learns the moves that take effect at a version, the earliest one first: from that version on the keys of each
    /// move's range belong to its target, where no later move of them says otherwise. The targets exist. Refused as
    /// `Stale` where the version isn't above the last one learnt, which is 0 at first, and as `NoMemory`. Where it is
    /// refused, nothing changes. For m moves it takes O(m log m), and O(log n) for each of them and for each of the n
    /// breakpoints that lies in a range of theirs. There the history is copied once, however many moves hold it, and
    /// besides it takes O(m) memory.
    pub fn learn(&mut self, version: u64, moves: &[Move]) -> Result<(), Refusal>
        requires { All (λ move. move.to < resolvers_of self.old) moves.now }
        ensures answers { Answers result (learn_fault self.old version)
            (λ _. HasLearnt self.old version moves.now self.new) }
        ensures refused { OnErr result (self.new ≡ self.old) }
    {
        if version <= self.last {
            return Err(Refusal::Stale);
        }
        let touched = learn_moves(self.alloc, &mut self.pieces, version, moves)?;
        self.last = version;
        self.touched = self.touched.saturating_add(touched);
        self.due = first_due(self.rounds, self.due, version);
        self.rounds = ROUNDS;
        Ok(())
    }

    /// The number of the resolver that owns the key at the last version learnt, in O(log n) for the n breakpoints, but
    /// in O(n) where the key's text has as many owners as can be counted. It takes no memory.
    pub fn owner(&self, key: &Key) -> u32
        ensures value { result ≡ owner_at self.now key.now self.now.last }
        ensures within { result < resolvers_of self.now }
    {
        self.pieces.history_of(key).owner_now()
    }

    /// The number of versions learnt, above the greatest one that expired, at which the key got another owner than it
    /// had before. It takes O(log n) for the n breakpoints, but O(n) where the key's text has as many owners as can be
    /// counted, and O(m) for the m changes of the key's piece that are kept. It takes no memory.
    pub fn changes(&self, key: &Key) -> usize
        ensures { result ≡ changes_of self.now key.now }
    {
        self.pieces.history_of(key).changes_above(self.floor)
    }

    /// Each resolver that owns keys of the range at the last version learnt, and so from that version on, with those
    /// keys, by the resolvers' numbers. Refused only as `NoMemory`. It takes O(log n) for the n breakpoints, and
    /// for each piece that the range meets O(log k) for the k parts and what it takes to add a range to a part's set.
    pub fn writers(&self, range: &KeyRange) -> Result<Items<Owned>, Refusal>
        ensures settled { (x : Point) (v : ℕ) → self.now.last ≤ v
            → owner_at self.now x v ≡ owner_at self.now x self.now.last }
        ensures parts { Answers result None (ArePartsOf (resolvers_of self.now)
            (λ i x. in_range range.now x && (owner_at self.now x self.now.last == i))) }
    {
        let span = Span {
            since: self.last,
            through: self.last,
        };
        parts_of(self.alloc, &self.pieces, range, span)
    }

    /// Each resolver that owned keys of the range at some version above `from` and at most `version`, with those
    /// keys, by the resolvers' numbers. `from` lies below `version`, and not below a version that expired. Refused
    /// only as `NoMemory`. It takes as long as `writers`, where each piece counts once for each owner that it had.
    pub fn readers(
        &self,
        range: &KeyRange,
        from: u64,
        version: u64,
    ) -> Result<Items<Owned>, Refusal>
        requires order { from < version }
        requires floor { self.now.floor ≤ from }
        ensures { Answers result None (ArePartsOf (resolvers_of self.now)
            (λ i x. in_range range.now x && owned_between self.now i x from version)) }
    {
        let span = Span {
            since: from + 1,
            through: version,
        };
        parts_of(self.alloc, &self.pieces, range, span)
    }

    /// Each resolver that owns keys of the set at the last version learnt, and so from that version on, with those keys,
    /// by the resolvers' numbers. Mostly one look finds one owner of all keys: no breakpoint lies between the set's
    /// first begin and its last end. Then there is one part, a copy of the whole set, which is O(1) where the set is
    /// shared. Refused only as `NoMemory`. It takes O(log n) for the n breakpoints where one look finds the owner, else
    /// what `writers` takes for each range.
    pub fn writers_of(&self, set: &RangeSet) -> Result<Items<Owned>, Refusal>
        ensures { Answers result None (λ parts. (version : ℕ) → self.now.last ≤ version
            → ArePartsOf (resolvers_of self.now)
            (λ i x. in_set set.now x && (owner_at self.now x version == i)) parts) }
    {
        let span = Span {
            since: self.last,
            through: self.last,
        };
        spread(self.alloc, &self.pieces, set, span)
    }

    /// Each resolver that owned keys of the set at some version above `from` and at most `version`, with those keys, by
    /// the resolvers' numbers. `from` lies below `version`, and not below a version that expired. Mostly one look finds
    /// one owner of all keys, as for `writers_of`: besides, nothing changed there at those versions. Then there is one
    /// part, a copy of the whole set, which is O(1) where the set is shared. Refused only as `NoMemory`. It takes
    /// O(log n) for the n breakpoints where one look finds the owner, else what `readers` takes for each range.
    pub fn readers_of(
        &self,
        set: &RangeSet,
        from: u64,
        version: u64,
    ) -> Result<Items<Owned>, Refusal>
        requires order { from < version }
        requires floor { self.now.floor ≤ from }
        ensures { Answers result None (ArePartsOf (resolvers_of self.now)
            (λ i x. in_set set.now x && owned_between self.now i x from version)) }
    {
        let span = Span {
            since: from + 1,
            through: version,
        };
        spread(self.alloc, &self.pieces, set, span)
    }

    /// Says that no reader will ask for a span that begins below the version. What is answered of the last version
    /// learnt, and of spans that begin at the version or above it, stays. It takes O(m log n) for the n breakpoints and
    /// the m that were touched since the last expiry, each counted once for each version that was learnt there, and
    /// O(1) before anything that was learnt has expired, and once all that was has been looked at. It takes no memory.
    pub fn expire(&mut self, version: u64)
        ensures { HasExpired self.old version self.new }
    {
        self.floor = self.floor.max(version);
        let looks = looks_for(self.touched, self.rounds, self.due <= self.floor);
        sweep(&mut self.pieces, &mut self.cursor, self.floor, looks);
        let is_at_end = self.cursor.is_none();
        self.touched = 0;
        self.rounds = rounds_left(self.rounds, is_at_end, self.last <= self.floor);
    }

    /// The number of breakpoints that are kept. Besides those at which another history begins there are such as no
    /// expiry has come to yet, and such as a refused call of `learn` has put in. It takes O(1), and no memory.
    pub fn breakpoints(&self) -> usize
        ensures { length self.now.breaks ≤ result }
    {
        self.pieces.breaks.len()
    }

    /// How many resolvers there are.
    pub fn resolvers(&self) -> u32
        ensures { result ≡ resolvers_of self.now }
    {
        self.splits.as_slice().len() as u32 + 1
    }

    /// The last version learnt, 0 at first.
    pub fn version(&self) -> u64
        ensures { result ≡ self.now.last }
    {
        self.last
    }
}

// The first version that the rounds are for, once one more version was learnt.
fn first_due(rounds: u32, due: u64, version: u64) -> u64 {
    if rounds == 0 { version } else { due }
}

// How many breakpoints an expiry looks at.
fn looks_for(touched: u64, rounds: u32, is_due: bool) -> u64 {
    if rounds == 0 || !is_due {
        return 0;
    }
    touched
        .saturating_mul(LOOKS_FOR_A_CHANGE)
        .saturating_add(LOOKS)
}

// How many rounds are left, by whether the last breakpoint was come to and all that was learnt has expired.
fn rounds_left(rounds: u32, is_at_end: bool, is_expired: bool) -> u32 {
    if is_at_end && is_expired {
        return rounds.saturating_sub(1);
    }
    rounds
}
