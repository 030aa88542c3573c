// A resolver of the world.
ghost use Rattle.std.specs.Prelude.{◌≡◌, ◌<◌, ◌≤◌, ◌+◌, ◌++◌, length, slice_get, IfOk};
ghost use Rattle.std.specs.Vec.{vec_len, vec_capacity};
ghost use Rattle.fdb_roles.specs.Lists.{Each};
ghost use Rattle.fdb_core.specs.refinement.Starts.{IsNewResolver};

use fdb_keys::{Items, Refusal};
use fdb_resolver::{Part, ResolverCore, Verdict, Verdicts};
use std::alloc::{AllocError, Global};

/// A resolver with how many entries it took, and what it sent of each.
#[derive(Drop)]
pub(crate) struct ResolverRole {
    pub(crate) state: ResolverCore,
    pub(crate) taken: u32,
    pub(crate) sent: Vec<Verdicts>,
}

impl ResolverRole {
    ghost use Rattle.std.specs.Prelude.{◌≡◌, ◌<◌, ◌≤◌, ◌-◌, ◌+◌, ◌^◌, ◌++◌, suc, [], ◌∷◌, ℕ, List, length, None, Some};
    ghost use Rattle.std.specs.Prelude.{IfOk, OnErr};
    ghost use Rattle.std.specs.Prelude.{slice_get};
    ghost use Rattle.fdb_keys.specs.Answers.{Answers};
    ghost use Rattle.fdb_keys.specs.Points.{Point};
    ghost use Rattle.fdb_txn.specs.declared.entry.Entry.{Entry};
    ghost use Rattle.fdb_txn.specs.book.Book.{seen_of, last_horizon};
    ghost use Rattle.fdb_txn.specs.book.History.{AreEntries};
    ghost use Rattle.fdb_proxy.specs.Parting.{IsPartOf};
    ghost use Rattle.fdb_proxy.specs.Verdicts.{moves_through};
    ghost use Rattle.fdb_resolver.specs.Parts.{IsPart};
    ghost use Rattle.fdb_core.specs.refinement.resolver.Resolving.{ResolverRefines, TakesNext, IsLeftBy};
    ghost use Rattle.fdb_roles.specs.AtBook.{IsResolverAt};
    ghost use Rattle.fdb_roles.specs.ProxyStages.{position_in};

    /// The resolver with the number, which took nothing.
    pub(crate) fn new(alloc: Global, index: u32) -> Self
        ensures refines { (splits : List Point) → ResolverRefines splits [] index result }
        ensures taken { result.taken ≡ 0 }
    {
        ResolverRole {
            state: ResolverCore::new(alloc, index),
            taken: 0,
            sent: Vec::new(alloc),
        }
    }

    /// Takes its part of the next entry, and answers what the rule says of each place that it is asked about. Refused
    /// only as `NoMemory` where it works: then it has taken and sent nothing, and its state is as it was or has failed.
    pub(crate) fn take(
        &mut self,
        alloc: Global,
        part: &Part,
    ) -> Result<Items<(u32, Verdict)>, Refusal>
        requires part { IsPart part.now }
        requires few { self.old.taken < 2 ^ 32 - 1 }
        ensures takes { (splits : List Point) (before : List Entry) (entry : Entry) (i index : ℕ)
            → IsResolverAt splits before i self.old.state
            → AreEntries (suc (length splits)) 0 (before ++ entry ∷ []) → last_horizon before ≤ entry.horizon
            → IsPartOf splits (moves_through (seen_of before) entry) (position_in index entry) entry.batch i part.now
            → Answers result None (λ answer. TakesNext splits before entry i index self.old answer self.new) }
        ensures left { OnErr result (IsLeftBy self.old self.new) }
    {
        // What is sent and answered has room before the state changes.
        self.sent.reserve(1)?;
        let mut answer = Vec::with_capacity(alloc, part.items.as_slice().len())?;
        let verdicts = self.state.take(part)?;
        copy_all(&mut answer, verdicts.answers.as_slice());
        self.sent.push_reserved(verdicts);
        self.taken += 1;
        Ok(Items::from_vec(answer))
    }

    /// What it sent of the entry, which it took.
    pub(crate) fn sent_on(&self, alloc: Global, entry: usize) -> Result<Verdicts, AllocError>
        requires { entry < length self.now.sent.items }
        ensures { IfOk result (λ verdicts. slice_get self.now.sent.items entry ≡ Some verdicts) }
    {
        let sent = &self.sent[entry];
        let answers = Items::from_vec(Vec::from_slice(alloc, sent.answers.as_slice())?);
        let conflicts = sent.conflicts.clone()?;
        Ok(Verdicts {
            resolver: sent.resolver,
            index: sent.index,
            answers,
            conflicts,
        })
    }
}

// Adds copies of the verdicts, for which there is room.
fn copy_all(answer: &mut Vec<(u32, Verdict)>, verdicts: &[(u32, Verdict)])
    requires { vec_len answer.old + length verdicts.now ≤ vec_capacity answer.old }
    ensures { answer.new.items ≡ answer.old.items ++ verdicts.now }
{
    for verdict in verdicts {
        answer.push_reserved(*verdict);
    }
}

/// So many resolvers, which took nothing.
pub(crate) fn new_resolvers(alloc: Global, count: u32) -> Result<Vec<ResolverRole>, AllocError>
    ensures count { IfOk result (λ list. length list.items ≡ count) }
    ensures each { IfOk result (λ list. Each IsNewResolver list.items) }
{
    let mut list = Vec::new(alloc);
    for index in 0..count {
        list.push(ResolverRole::new(alloc, index))?;
    }
    Ok(list)
}
