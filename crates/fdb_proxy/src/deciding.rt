// What becomes of the places of a batch, by the verdicts that came.
ghost use Rattle.std.specs.Prelude.{◌≡◌, ◌<◌, ◌^◌, ◌++◌, ℕ, List, Option, Some, [], ◌∷◌, IfOk};
ghost use Rattle.fdb_proxy.specs.Deciding.{Said, worse, outcomes_by};

use crate::outcome::Outcome;
use fdb_keys::Items;
use fdb_resolver::Verdict;
use std::alloc::{AllocError, Global};

// What becomes of a place once one more verdict on it came.
fn worse(outcome: Outcome, verdict: Verdict) -> Outcome
    ensures { result ≡ worse outcome verdict }
{
    match verdict {
        Verdict::Yes => outcome,
        Verdict::Old => Outcome::Old,
        Verdict::Conflict => match outcome {
            Outcome::Old => Outcome::Old,
            _ => Outcome::Conflict,
        },
    }
}

// Takes one more of the verdicts that a resolver said into account.
fn take_one(outcomes: &mut Items<Outcome>, place: u32, verdict: Verdict)
    ensures { (version count : ℕ) (verdicts : List (Option Said)) (said : Said)
        → outcomes.old ≡ outcomes_by version (verdicts ++ Some said ∷ []) count
        → outcomes.new ≡ outcomes_by version (verdicts ++ Some (said ++ (place, verdict) ∷ []) ∷ []) count }
{
    let at = place as usize;
    if at < outcomes.len() {
        let outcome = worse(outcomes.as_slice()[at], verdict);
        outcomes.set(at, outcome);
    }
}

// Takes what one more resolver said into account.
fn take_in(outcomes: &mut Items<Outcome>, said: &[(u32, Verdict)])
    ensures { (version count : ℕ) (verdicts : List (Option Said))
        → outcomes.old ≡ outcomes_by version verdicts count
        → outcomes.new ≡ outcomes_by version (verdicts ++ Some said.now ∷ []) count }
{
    for (place, verdict) in said {
        take_one(outcomes, *place, *verdict);
    }
}

// Takes into account what one more resolver said, if its verdicts came.
fn take_if_come(outcomes: &mut Items<Outcome>, of: &Option<Items<(u32, Verdict)>>)
    ensures { (version count : ℕ) (verdicts : List (Option Said))
        → outcomes.old ≡ outcomes_by version verdicts count
        → outcomes.new ≡ outcomes_by version (verdicts ++ of.now ∷ []) count }
{
    if let Some(said) = of {
        take_in(outcomes, said.as_slice());
    }
}

// Every place commits.
fn all_committed(alloc: Global, version: u64, count: usize) -> Result<Items<Outcome>, AllocError>
    requires { count < 2 ^ 32 }
    ensures { IfOk result (λ outcomes. outcomes ≡ outcomes_by version [] count) }
{
    let mut outcomes = Items::new(alloc);
    for place in 0..count as u32 {
        outcomes.push(Outcome::Commit { version, place })?;
    }
    Ok(outcomes)
}

/// What becomes of as many places of the entry with the version, by the verdicts that came: those of each resolver in
/// order, by place. A place is old where some resolver says so, else a conflict where some says so, and else it
/// commits; what is said of other places means nothing. There are fewer than 2^32 places. Refused only where memory
/// runs out.
pub fn outcomes_of(
    alloc: Global,
    version: u64,
    verdicts: &[Option<Items<(u32, Verdict)>>],
    count: usize,
) -> Result<Items<Outcome>, AllocError>
    requires { count < 2 ^ 32 }
    ensures { IfOk result (λ outcomes. outcomes ≡ outcomes_by version verdicts.now count) }
{
    let mut outcomes = all_committed(alloc, version, count)?;
    for of in verdicts {
        take_if_come(&mut outcomes, of);
    }
    Ok(outcomes)
}
