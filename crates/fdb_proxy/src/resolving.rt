// A batch that waits for verdicts.
ghost use Rattle.std.specs.Prelude.{◌≡◌, ◌<◌, ◌^◌, ◌&&◌, None, Some, List, [], ℕ, length, replicate, slice_get};
ghost use Rattle.std.specs.Prelude.{slice_set, IfOk, OnErr, IsTrue, if◌then◌else◌};
ghost use Rattle.fdb_keys.specs.Answers.{Answers, AnswersExactly};
ghost use Rattle.fdb_keys.specs.declared.refusal.Refusal.TheVariants.{Stale};
ghost use Rattle.fdb_resolver.specs.declared.verdict.Verdict.{Verdict};
ghost use Rattle.fdb_proxy.specs.Conflicts.{conflicts_by};
ghost use Rattle.fdb_proxy.specs.Deciding.{Said, outcomes_by};
ghost use Rattle.fdb_proxy.specs.Resolving.{are_on, are_on_part, is_awaited, with_verdicts, asks, has_not_come};
ghost use Rattle.fdb_proxy.specs.Resolving.{first_missing};

use crate::conflicts::conflicts_of;
use crate::deciding::outcomes_of;
use crate::outcome::Outcome;
use crate::position::Position;
use fdb_keys::{Items, RangeSet, Refusal};
use fdb_resolver::{Item, Part, Verdict, Verdicts};
use std::alloc::{AllocError, Global};

/// A batch with its position, the part of each resolver, what came of each one's verdicts, and what each one found of
/// places in conflict.
#[derive(Drop)]
pub(crate) struct Resolving {
    pub(crate) position: Position,
    pub(crate) parts: Items<Part>,
    pub(crate) verdicts: Items<Option<Items<(u32, Verdict)>>>,
    pub(crate) conflicts: Items<Items<(u32, RangeSet)>>,
}

impl Resolving {
    /// The batch with its parts, before any verdicts came.
    pub(crate) fn new(
        alloc: Global,
        position: Position,
        parts: Items<Part>,
    ) -> Result<Self, AllocError>
        ensures { IfOk result (λ batch.
            batch ≡ record {
              position = position;
              parts = parts;
              verdicts = replicate (length parts) None;
              conflicts = replicate (length parts) [];
            }) }
    {
        let verdicts = no_verdicts(alloc, parts.len())?;
        let conflicts = no_conflicts(alloc, parts.len())?;
        Ok(Resolving {
            position,
            parts,
            verdicts,
            conflicts,
        })
    }

    /// A copy of the parts.
    pub(crate) fn copy_parts(&self) -> Result<Items<Part>, AllocError>
        ensures { IfOk result (λ parts. parts ≡ self.now.parts) }
    {
        let parts = self.parts.clone()?;
        Ok(parts)
    }

    /// Whether the batch waits for these verdicts.
    pub(crate) fn is_awaited(&self, verdicts: &Verdicts) -> bool
        ensures { result ≡ is_awaited self.now verdicts.now }
    {
        let resolver = verdicts.resolver as usize;
        verdicts.index == self.position.index
            && are_on_part(self.parts.as_slice(), resolver, verdicts.answers.as_slice())
            && has_not_come(self.verdicts.as_slice(), resolver)
    }

    /// The verdicts came, for which the batch waits.
    pub(crate) fn verdict(&mut self, verdicts: Verdicts)
        requires { IsTrue (is_awaited self.old verdicts) }
        ensures { self.new ≡ with_verdicts self.old verdicts }
    {
        let resolver = verdicts.resolver as usize;
        let Verdicts {
            answers,
            conflicts,
            ..
        } = verdicts;
        self.verdicts.set(resolver, Some(answers));
        put(&mut self.conflicts, resolver, conflicts);
    }

    /// The least resolver that is asked about some place and whose verdicts haven't come.
    pub(crate) fn first_missing(&self) -> Option<usize>
        ensures { result ≡ first_missing 0 self.now.parts self.now.verdicts }
    {
        first_missing(self.parts.as_slice(), self.verdicts.as_slice())
    }

    /// What becomes of as many places, by the verdicts that came.
    pub(crate) fn outcomes(&self, alloc: Global, count: usize) -> Result<Items<Outcome>, AllocError>
        requires { count < 2 ^ 32 }
        ensures outcomes { IfOk result
            (λ outcomes. outcomes ≡ outcomes_by self.now.position.version self.now.verdicts count) }
        ensures each { IfOk result (λ outcomes. length outcomes ≡ count) }
    {
        let outcomes = outcomes_of(
            alloc,
            self.position.version,
            self.verdicts.as_slice(),
            count,
        )?;
        Ok(outcomes)
    }

    /// The conflict set of each of as many places, by what the resolvers found; no place at all where none found any.
    pub(crate) fn conflicts(&self, alloc: Global, count: usize) -> Result<Items<RangeSet>, Refusal>
        ensures { Answers result None (λ conflicts. conflicts ≡ conflicts_by self.now.conflicts count) }
    {
        conflicts_of(alloc, self.conflicts.as_slice(), count)
    }
}

// Of so many resolvers no verdicts came.
fn no_verdicts(
    alloc: Global,
    count: usize,
) -> Result<Items<Option<Items<(u32, Verdict)>>>, AllocError>
    ensures { IfOk result (λ verdicts. verdicts ≡ replicate count None) }
{
    let mut verdicts = Items::new(alloc);
    for _resolver in 0..count {
        verdicts.push(None)?;
    }
    Ok(verdicts)
}

// And none found anything.
fn no_conflicts(alloc: Global, count: usize) -> Result<Items<Items<(u32, RangeSet)>>, AllocError>
    ensures { IfOk result (λ conflicts. conflicts ≡ replicate count []) }
{
    let mut conflicts = Items::new(alloc);
    for _resolver in 0..count {
        conflicts.push(Items::new(alloc))?;
    }
    Ok(conflicts)
}

// Puts what the resolver found, if there is such a resolver.
fn put(
    conflicts: &mut Items<Items<(u32, RangeSet)>>,
    resolver: usize,
    found: Items<(u32, RangeSet)>,
)
    ensures { conflicts.new ≡ slice_set conflicts.old resolver found }
{
    if resolver < conflicts.len() {
        conflicts.set(resolver, found);
    }
}

/// Takes verdicts, where the batch waits for them.
pub(crate) fn verdict(batch: &mut Resolving, verdicts: Verdicts) -> Result<(), Refusal>
    ensures answers { AnswersExactly result (if is_awaited batch.old verdicts then None else Some Stale)
        (λ _. batch.new ≡ with_verdicts batch.old verdicts) }
    ensures refused { OnErr result (batch.new ≡ batch.old) }
{
    if !batch.is_awaited(&verdicts) {
        return Err(Refusal::Stale);
    }
    batch.verdict(verdicts);
    Ok(())
}

// Whether the verdicts are on just these places, in their order.
fn are_on(items: &[Item], said: &[(u32, Verdict)]) -> bool
    ensures { result ≡ are_on items.now said.now }
{
    if items.len() != said.len() {
        return false;
    }
    for (at, item) in items.iter().enumerate() {
        if item.place != said[at].0 {
            return false;
        }
    }
    true
}

// Whether the verdicts are on just the places of the resolver's part.
fn are_on_part(parts: &[Part], resolver: usize, said: &[(u32, Verdict)]) -> bool
    ensures { result ≡ are_on_part (slice_get parts.now resolver) said.now }
{
    resolver < parts.len() && are_on(parts[resolver].items.as_slice(), said)
}

// Whether there is such a resolver, and its verdicts haven't come.
fn has_not_come(verdicts: &[Option<Items<(u32, Verdict)>>], resolver: usize) -> bool
    ensures { result ≡ has_not_come (slice_get verdicts.now resolver) }
{
    resolver < verdicts.len() && verdicts[resolver].is_none()
}

// Whether the resolver is asked about some place, and its verdicts haven't come.
fn is_missing(part: &Part, verdicts: &[Option<Items<(u32, Verdict)>>], resolver: usize) -> bool
    ensures { result ≡ (asks part.now && has_not_come (slice_get verdicts.now resolver)) }
{
    !part.items.is_empty() && has_not_come(verdicts, resolver)
}

fn first_missing(parts: &[Part], verdicts: &[Option<Items<(u32, Verdict)>>]) -> Option<usize>
    ensures { result ≡ first_missing 0 parts.now verdicts.now }
{
    for (resolver, part) in parts.iter().enumerate() {
        if is_missing(part, verdicts, resolver) {
            return Some(resolver);
        }
    }
    None
}
