ghost use Rattle.std.specs.Prelude.{◌≡◌};
ghost use Rattle.fdb_simulate.specs.Tallies.{is_right};

/// What came of a simulated run.
#[derive(Clone, Copy)]
pub struct Tally {
    /// How many transactions were acknowledged.
    pub acknowledged: u64,
    /// How many were turned down, as another one wrote what they read, or as they read at too old a version.
    pub turned_down: u64,
    /// Of how many nothing is known.
    pub unknown: u64,
    /// How many were refused otherwise, before they were submitted or without an entry.
    pub refused: u64,
    /// How many of these read at a version that its shard doesn't serve any more, as it is too old.
    pub forgotten: u64,
    /// How many of these no proxy took, as if memory had run out, so that they are committed once more.
    pub untaken: u64,
    /// How many reads were refused as they read a stamp that is known only once it is committed.
    pub unreadable: u64,
    /// How many answers nothing in the plan explains: 0 where all is well. Where no role fails, nobody is told that
    /// nothing is known of a transaction; where the database isn't closed either, and its book isn't full, none is
    /// refused but for a conflict or its age, or as no proxy took it, and then it is open again; a version that is read
    /// at is forgotten only where it is too old; and no own stamp is read.
    pub unexplained: u64,
    /// How many of those that were refused as having no effect stand in the book: 0 where all is well.
    pub found: u64,
    /// How many read versions lay below what was acknowledged before they were asked for: 0 where all is well.
    pub early: u64,
    /// How many clients wait though nothing is on its way: 0 where all is well.
    pub waiting: u64,
    /// How many messages are left on their way in the end.
    pub left: u64,
    /// How many acts changed anything.
    pub acts: u64,
    /// How many entries the book has.
    pub entries: u64,
    /// How many acknowledged transactions are serialized where their receipts say: all of them where all is well.
    pub checked: u64,
    /// Whether the shards give a record of the committed version, or one of them has failed.
    pub is_recorded: bool,
}

impl Tally {
    /// Nothing came of it yet.
    pub(crate) fn new() -> Self {
        Tally {
            acknowledged: 0,
            turned_down: 0,
            unknown: 0,
            refused: 0,
            forgotten: 0,
            untaken: 0,
            unreadable: 0,
            unexplained: 0,
            found: 0,
            early: 0,
            waiting: 0,
            left: 0,
            acts: 0,
            entries: 0,
            checked: 0,
            is_recorded: false,
        }
    }

    /// Whether nobody waits in the end, no read version is early, nothing that was refused as having no effect has one,
    /// each answer is explained, each receipt's transaction is serialized where it says, and there is a record. It
    /// takes O(1) time.
    pub fn is_right(&self) -> bool
        ensures { result ≡ is_right self.now }
    {
        self.waiting == 0
            && self.early == 0
            && self.found == 0
            && self.unexplained == 0
            && self.checked == self.acknowledged
            && self.is_recorded
    }

    // One more of those that are counted there.
    pub(crate) fn add(count: &mut u64) {
        *count = count.saturating_add(1);
    }
}
