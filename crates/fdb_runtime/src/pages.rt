//! A walk over a range, page by page.
ghost use Rattle.std.specs.Prelude.{◌≡◌, ◌⊎◌, ℕ, List, None, Some, IfOk, IfErr, IfSome, OnErr, true, false};
ghost use Rattle.fdb_keys.specs.Answers.{Answers};
ghost use Rattle.fdb_keys.specs.Points.{Point};
ghost use Rattle.fdb_keys.specs.declared.refusal.Refusal.TheVariants.{NoMemory};
ghost use Rattle.fdb_mutations.specs.Maps.{Map};
ghost use Rattle.fdb_mutations.specs.PairLaws.{given_of};
ghost use Rattle.fdb_runtime.specs.Walks.{HasReadPage, ReadsPage, WalksOn, rest_of, some_page};
ghost use Rattle.fdb_sections.specs.Refusals.{is_of_read};

use crate::options::ReadOptions;
use crate::session::Session;
use bytes::Bytes;
use fdb_keys::{Items, Key, KeyRange, Refusal};
use fdb_sections::DatabaseName;
use std::alloc::Global;
use std::sync::Wait;

/// A walk over a range in the order of its keys, page by page, by a session's open transaction. No page is empty.
#[derive(Drop)]
pub struct Pages {
    /// What of the range no page has come to yet: nothing once the walk has ended.
    pub rest: Option<KeyRange>,
    /// How many pairs a page has at the most, and all that are left where it is 0.
    pub limit: u32,
    /// Whether the reads are snapshot reads, which conflict with nobody.
    pub snapshot: bool,
}

// What is left of the range behind the pairs that a read of it was given: what lies behind the last one, where the
// limit ended the read.
fn rest_behind(
    alloc: Global,
    range: &KeyRange,
    limit: u32,
    pairs: &[(Key, Bytes)],
) -> Result<Option<KeyRange>, Refusal>
    requires { (map : Map) × (pairs.now ≡ given_of map range.now limit false) }
    ensures { Answers result None (λ rest. rest ≡ rest_of range.now limit pairs.now) }
{
    match pairs.last() {
        Some((key, _value)) if limit != 0 && pairs.len() == limit as usize => {
            let rest = range.behind(alloc, false, key)?;
            Ok(Some(rest))
        }
        _ => Ok(None),
    }
}

// The page, unless it has no pair.
#[tactic(auto, using(crate::proofs::PagesLemmas::empty_is_none, crate::proofs::PagesLemmas::some_is_page))]
fn unless_empty(page: Items<(Key, Bytes)>) -> Option<Items<(Key, Bytes)>>
    ensures { result ≡ some_page page }
{
    if page.is_empty() {
        return None;
    }
    Some(page)
}

// Reads a page of the range, and gives it with what is left of the range behind it.
fn page_of<B: DatabaseName, R: Wait>(
    rt: &R,
    alloc: Global,
    session: &mut Session<B>,
    range: &KeyRange,
    options: ReadOptions,
) -> Result<(Option<Items<(Key, Bytes)>>, Option<KeyRange>), Refusal>
    requires { options.reverse ≡ false }
    ensures page { IfOk result (λ given. ReadsPage B.config.resolver_splits range.now options.limit options.snapshot
        session.old given.0 session.new given.1) }
    ensures session { IfErr result (λ why. (session.new ≡ session.old) ⊎ ((why ≡ NoMemory)
        × ((pairs : List (Point × List ℕ)) × HasReadPage B.config.resolver_splits range.now options.limit
        options.snapshot session.old pairs session.new))) }
    ensures refusals { IfErr result (λ why. is_of_read why ≡ true) }
{
    let page = session.get_range(rt, alloc, range, options)?;
    let rest = rest_behind(alloc, range, options.limit, page.as_slice())?;
    Ok((unless_empty(page), rest))
}

impl Pages {
    /// A walk over the range, by pages of at most `limit` pairs, and by one page of all where it is 0. Its reads are
    /// ordinary ones. It takes no memory.
    pub fn new(range: KeyRange, limit: u32) -> Self
        ensures { result ≡ record { rest = Some range; limit = limit; snapshot = false } }
    {
        Pages {
            rest: Some(range),
            limit,
            snapshot: false,
        }
    }

    /// The same walk by snapshot reads, which conflict with nobody. It takes no memory.
    pub fn on_snapshot(self) -> Self
        ensures { result ≡ record self { snapshot = true } }
    {
        Pages {
            snapshot: true,
            ..self
        }
    }

    /// The next page, which the session's open transaction reads: the first pairs of what is left of the range, at most
    /// as many as the limit says. The walk goes on right behind its last key, and has ended where it has fewer pairs.
    /// Once it has ended it gives `None`, and reads nothing. Where the last page has just as many pairs as the limit
    /// says, that is known only after one more read.
    ///
    /// Refused as `Session::get_range` is; then the walk stays where it was. So does the session, but where memory runs
    /// out behind the read, which is noted then: the same page may be asked for once more. A page takes the time of one
    /// `Session::get_range`.
    pub fn next_page<B: DatabaseName, R: Wait>(
        &mut self,
        rt: &R,
        alloc: Global,
        session: &mut Session<B>,
    ) -> Result<Option<Items<(Key, Bytes)>>, Refusal>
        ensures page { IfOk result (λ page. WalksOn B.config.resolver_splits self.old self.old.rest session.old page
            session.new self.new) }
        ensures session { IfErr result (λ why. (session.new ≡ session.old) ⊎ ((why ≡ NoMemory)
            × IfSome self.old.rest (λ rest. (pairs : List (Point × List ℕ)) × HasReadPage B.config.resolver_splits rest
            self.old.limit self.old.snapshot session.old pairs session.new))) }
        ensures refusals { IfErr result (λ why. is_of_read why ≡ true) }
        ensures refused { OnErr result (self.new ≡ self.old) }
    {
        let options = ReadOptions {
            limit: self.limit,
            reverse: false,
            snapshot: self.snapshot,
        };
        let Some(range) = &self.rest else {
            return Ok(None);
        };
        match page_of(rt, alloc, session, range, options) {
            Ok((page, rest)) => {
                self.rest = rest;
                Ok(page)
            }
            Err(why) => Err(why),
        }
    }
}
