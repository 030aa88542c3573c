use crate::judging::judge_items;
use crate::part::Part;
use crate::verdict::Verdicts;
use fdb_interval::LastCommit;
use fdb_keys::Refusal;
use fdb_txn::check_turn;
use std::alloc::Global;
use std::marker::Model;

/// A resolver with what it keeps of the parts that it took: the versions at which it admitted writes.
#[derive(Drop)]
pub struct ResolverCore {
    alloc: Global,
    index: u32,
    last: u64,
    is_failed: bool,
    versions: LastCommit,
}

impl Model for ResolverCore {
    ghost use Rattle.std.specs.Prelude.{◌≡◌, ◌≤◌, false};
    ghost use Rattle.fdb_keys.specs.Points.{Point};
    ghost use Rattle.fdb_interval.specs.Versions.{version_at};
    ghost use Rattle.fdb_resolver.specs.Resolvers.{Resolver};

    ghost Value = { Resolver };

    ghost view = { λ core. record {
      index = core.index;
      last = core.last;
      is_failed = core.is_failed;
      versions = core.versions;
    } };

    ghost invariant = { λ core. core.is_failed ≡ false → (x : Point) → version_at core.versions x ≤ core.last };
}

impl ResolverCore {
    ghost use Rattle.std.specs.Prelude.{◌≡◌, ⊤, IsSome, IsNone, IfOk, OnErr};
    ghost use Rattle.fdb_keys.specs.Answers.{Answers, AnswersExactly};
    ghost use Rattle.fdb_resolver.specs.Parts.{IsPart};
    ghost use Rattle.fdb_resolver.specs.Resolvers.{part_fault, IsNew, IsAnswer, HasTaken, HasFailed};

    /// The resolver with this number, which has taken nothing yet. It takes no memory.
    pub fn new(alloc: Global, index: u32) -> Self
        ensures { IsNew index result }
    {
        ResolverCore {
            alloc,
            index,
            last: 0,
            is_failed: false,
            versions: LastCommit::new(alloc),
        }
    }

    /// Takes the resolver's part of an entry, and says of each place, as the places before it left the
    /// versions, whether it is old, conflicts, or may commit. It is old where it has reads, and read below the
    /// part's horizon. Of a place that conflicts it hands over the points of the part's reads that have a version above
    /// the read version. Places that may commit give the points that they write the part's version. For n pieces it
    /// takes O(log n) for each range, and O(1) for each piece that a range meets, up to the first newer one; of a place
    /// that conflicts it goes over its pieces once more. Refused as
    /// `Unknown` where the part is another resolver's, as `Failed` once memory ran out in an earlier call, as
    /// `Stale` where the entry before the part's lies before the last one taken, as `NotYet` with that entry's
    /// version where it hasn't been taken, and as `NoMemory`. The resolver stays as it was where it is refused,
    /// but for `NoMemory`, after which it has failed. A part's version is above that of the entry before it, its
    /// places rise, and of a transaction without reads it has none. Versions that aren't above the part's horizon
    /// are forgotten: a point with such a version has 0 from then on, and every greater version is kept.
    pub fn take(&mut self, part: &Part) -> Result<Verdicts, Refusal>
        requires { IsPart part.now }
        ensures answers { Answers result (part_fault self.old part.now)
            (λ verdicts. IsAnswer self.old part.now verdicts) }
        ensures taken { IfOk result (λ verdicts. HasTaken self.old part.now verdicts self.new) }
        ensures refused { IsSome (part_fault self.old part.now) → self.new ≡ self.old }
        ensures failed { IsNone (part_fault self.old part.now) → OnErr result (HasFailed self.old self.new) }
    {
        self.check(part)?;
        let judged = judge_items(
            self.alloc,
            &mut self.versions,
            part.version,
            part.horizon,
            part.items.as_slice(),
        );
        match judged {
            Ok((answers, conflicts)) => {
                self.versions.expire(part.horizon);
                self.last = part.version;
                Ok(Verdicts {
                    resolver: self.index,
                    index: part.index,
                    answers,
                    conflicts,
                })
            }
            Err(why) => {
                self.is_failed = true;
                Err(why)
            }
        }
    }

    /// Whether memory ran out in `take`: then every part is refused as `Failed`, but one of another resolver. It takes
    /// no memory, and O(1) time.
    pub fn is_failed(&self) -> bool
        ensures { result ≡ self.now.is_failed }
    {
        self.is_failed
    }

    fn check(&self, part: &Part) -> Result<(), Refusal>
        ensures { AnswersExactly result (part_fault self.now part.now) (λ _. ⊤) }
    {
        if part.resolver != self.index {
            return Err(Refusal::Unknown);
        }
        if self.is_failed {
            return Err(Refusal::Failed);
        }
        check_turn(self.last, part.prev)
    }
}
