//! What the steps of a run are drawn as, each by what those before it told.

use crate::lanes::{Party, splits};
use crate::steps::{Allocated, Step, number, word};
use std::alloc::Global;
use std::collections::{BTreeMap, BTreeSet};

/// What the steps so far have told.
#[derive(Drop)]
pub struct Story<'a> {
    alloc: Global,
    /// The first step's line.
    pub config: &'a str,
    /// The steps that sealed the entries, by their numbers.
    seals: BTreeMap<Option<usize>, Step<'a>>,
    /// What each resolver said of each entry, by their numbers.
    verdicts: BTreeMap<(Option<usize>, Option<usize>), &'a str>,
    /// The sessions that were granted a read version and not answered since, in order.
    pub open: BTreeSet<Party>,
}

impl<'a> Story<'a> {
    /// Of the steps nothing is told yet but the configuration.
    pub fn new(alloc: Global, steps: &[Step<'a>]) -> Story<'a> {
        Story {
            alloc,
            config: steps.first().map_or("", |step| step.line),
            seals: BTreeMap::new(alloc),
            verdicts: BTreeMap::new(alloc),
            open: BTreeSet::new(alloc),
        }
    }

    /// Keeps what the step answered for the steps after it.
    pub fn note(&mut self, step: Step<'a>) -> Allocated<()> {
        let (first, second) = (number(step.line, 1), number(step.line, 2));
        match (step.verb(), word(step.answer, 0)) {
            ("seal", "entry") => drop(self.seals.insert(number(step.answer, 1), step)?),
            ("resolve", "verdict") => drop(self.verdicts.insert((first, second), step.answer)?),
            ("ask", "ok") | ("submit", "readonly") => {
                if let Some(session) = first {
                    self.open.remove(&Party::Session(session));
                }
            }
            _ => {}
        }
        for word in step.answer.split_ascii_whitespace() {
            match step.told(word) {
                Some(session) if step.verb() == "grant" => drop(self.open.insert(session)?),
                Some(session) => drop(self.open.remove(&session)),
                None => {}
            }
        }
        Ok(())
    }

    /// The words of the step, the version of the entry that it names, and what it answered or the verdicts that it
    /// brings, unless that is told to sessions.
    pub fn label(&self, step: Step<'a>) -> Allocated<String> {
        let (entry, resolver) = (number(step.line, 1), number(step.line, 2));
        let verdict = self.verdicts.get(&(entry, resolver));
        let seal = self.seals.get(&entry);
        let mut label = String::from_str(self.alloc, step.line)?;
        if let ("resolve" | "verdict" | "push" | "logged", Some(seal)) = (step.verb(), seal) {
            let version = word(seal.answer, 3);
            write!(label, " at {version}")?;
        }
        let told = match (step.verb(), word(step.answer, 0), verdict) {
            ("verdict", "ok", Some(verdict)) => verdict.strip_prefix("verdict ").unwrap_or(""),
            (_, "ok" | "grant" | "answer", _) => "",
            _ => step.answer,
        };
        if !told.is_empty() {
            write!(label, " > {told}")?;
        }
        Ok(label)
    }

    /// Who sends and who takes what the step sends, where it can be told, but for the sessions that its answer names.
    pub fn ends(&self, step: Step<'a>) -> (Option<Party>, Option<Party>) {
        let (first, second) = (number(step.line, 1), number(step.line, 2));
        let (session, proxy) = (first.map(Party::Session), first.map(Party::CommitProxy));
        let (resolver, log) = (second.map(Party::Resolver), second.map(Party::Log));
        let shard = first.map(Party::Shard);
        let source = first.and_then(|shard| shard.checked_rem(number(self.config, 4)?));
        let sealer = self.seals.get(&first).and_then(|seal| number(seal.line, 1));
        let (source, sealer) = (source.map(Party::Log), sealer.map(Party::CommitProxy));
        match step.verb() {
            "ask" => (session, second.map(Party::ReadProxy)),
            "grant" => (first.map(Party::ReadProxy), None),
            "get" | "sget" | "range" | "srange" => (session, self.owner(step.line)),
            "write" | "addread" | "addwrite" | "show" | "conflict" => (session, None),
            "submit" => (session, second.map(Party::CommitProxy)),
            "seal" | "report" => (proxy, Some(Party::Sequencer)),
            "decide" | "answer" | "drive" => (proxy, None),
            "resolve" => (resolver, None),
            "verdict" => (resolver, sealer),
            "push" => (sealer, log),
            "logged" => (log, sealer),
            "pull" => (source, shard),
            "move" => (number(step.line, 3).map(Party::Resolver), None),
            "forget" => (shard, None),
            "pop" => (shard, source),
            _ => (None, None),
        }
    }

    // The shard that owns all keys that a read names, where that is one, and no key has escaped bytes.
    fn owner(&self, read: &str) -> Option<Party> {
        let (begin, end) = (word(read, 2), word(read, 3));
        let is_known = splits(self.config, 8).all(|split| {
            !split.contains('%') && !read.contains('%') && (split <= begin || end <= split)
        });
        let before = splits(self.config, 8).filter(|split| *split <= begin);
        is_known.then_some(Party::Shard(before.count()))
    }
}
