// What each log is sent of a batch: the mutations of which it keeps a tag, handed out in one pass.
ghost use Rattle.std.specs.Prelude.{◌≡◌, ◌≢◌, ◌<◌, ◌∷◌, ◌++◌, ℕ, [], filter, length, replicate, slice_get, slice_set};
ghost use Rattle.std.specs.Prelude.{IfOk, OnOk, MatchOption};
ghost use Rattle.std.specs.Option.{unwrap_or};
ghost use Rattle.fdb_storage.specs.LogMessages.{is_for_log};
ghost use Rattle.fdb_proxy.specs.Bodies.{AreGiven};

use fdb_keys::Items;
use fdb_log::Tagged;
use std::alloc::{AllocError, Global};

// Whether the log, of so many, keeps one of its tags.
fn is_for_log(logs: u32, log: u32, sent: &Tagged) -> bool
    requires { 0 < logs }
    ensures { result ≡ is_for_log logs log sent.now }
{
    sent.tags.as_slice().iter().any(|tag| *tag % logs == log)
}

// The one tag of the mutation, where it has just one.
fn sole_tag(sent: &Tagged) -> Option<u32>
    ensures { MatchOption result (length sent.now.tags ≢ 1) (λ tag. sent.now.tags ≡ tag ∷ []) }
{
    match sent.tags.as_slice() {
        [tag] => Some(*tag),
        _ => None,
    }
}

// Adds a copy of the mutation to the list of each log, of so many, that keeps one of its tags.
fn copy_out(
    alloc: Global,
    bodies: &mut Vec<Items<Tagged>>,
    logs: u32,
    sent: &Tagged,
) -> Result<(), AllocError>
    requires some { 0 < logs }
    requires long { length bodies.old.items ≡ logs }
    ensures long { OnOk result (length bodies.new.items ≡ logs) }
    ensures given { OnOk result (AreGiven logs sent.now bodies.old.items bodies.new.items) }
{
    for log in 0..logs {
        if is_for_log(logs, log, sent) {
            let body = &mut bodies[log as usize];
            body.push(sent.copy(alloc)?)?;
        }
    }
    Ok(())
}

// Adds the mutation to the list of the log.
fn move_to(bodies: &mut Vec<Items<Tagged>>, log: u32, sent: Tagged) -> Result<(), AllocError>
    requires { log < length bodies.old.items }
    ensures { OnOk result (bodies.new.items
        ≡ slice_set bodies.old.items log (unwrap_or (slice_get bodies.old.items log) [] ++ sent ∷ [])) }
{
    let body = &mut bodies[log as usize];
    body.push(sent)?;
    Ok(())
}

// Adds the mutation to the list of each log, of so many, that keeps one of its tags. With one tag it is for just one
// log, and moves there without a copy.
fn hand_out(
    alloc: Global,
    bodies: &mut Vec<Items<Tagged>>,
    logs: u32,
    sent: Tagged,
) -> Result<(), AllocError>
    requires some { 0 < logs }
    requires long { length bodies.old.items ≡ logs }
    ensures long { OnOk result (length bodies.new.items ≡ logs) }
    ensures given { OnOk result (AreGiven logs sent bodies.old.items bodies.new.items) }
{
    match sole_tag(&sent) {
        Some(tag) => move_to(bodies, tag % logs, sent),
        None => {
            let answer = copy_out(alloc, bodies, logs, &sent);
            // Each arm uses the mutation up: the prover goes over every kind of one at each place where it is dropped.
            drop(sent);
            answer
        }
    }
}

// An empty list for each log, of so many.
fn empty_bodies(alloc: Global, logs: u32) -> Result<Vec<Items<Tagged>>, AllocError>
    ensures { IfOk result (λ bodies. bodies.items ≡ replicate logs []) }
{
    let mut bodies = Vec::new(alloc);
    for _log in 0..logs {
        bodies.push(Items::new(alloc))?;
    }
    Ok(bodies)
}

/// For each log, of so many, those of the mutations of which it keeps a tag. It takes O(m + l) time for m mutations of
/// one tag each and l logs, and O(l t) more for each mutation of t tags.
pub(crate) fn spread(
    alloc: Global,
    logs: u32,
    body: Items<Tagged>,
) -> Result<Vec<Items<Tagged>>, AllocError>
    requires { 0 < logs }
    ensures long { IfOk result (λ bodies. length bodies.items ≡ logs) }
    ensures bodies { IfOk result (λ bodies. (log : ℕ) → log < logs
        → unwrap_or (slice_get bodies.items log) [] ≡ filter (is_for_log logs log) body) }
{
    let mut bodies = empty_bodies(alloc, logs)?;
    for sent in body.into_vec() {
        hand_out(alloc, &mut bodies, logs, sent)?;
    }
    Ok(bodies)
}
