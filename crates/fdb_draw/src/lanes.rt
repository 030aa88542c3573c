//! Who takes part in a run, from left to right.

use crate::steps::{Allocated, Step, number, word};
use std::alloc::Global;
use std::collections::BTreeSet;
use std::fmt::{self, Write};
use std::str::SplitTerminator;

/// One who takes part, by its number among those of its kind. They are in the order of their lanes.
#[derive(Clone, Copy, PartialEq, Eq, PartialOrd, Ord)]
pub enum Party {
    Session(usize),
    ReadProxy(usize),
    CommitProxy(usize),
    Sequencer,
    Resolver(usize),
    Log(usize),
    Shard(usize),
}

impl fmt::Display for Party {
    fn fmt<W: Write>(&self, f: &mut fmt::Formatter<W>) -> fmt::Result {
        match self {
            Party::Session(number) => write!(f, "session {number}"),
            Party::ReadProxy(number) => write!(f, "read proxy {number}"),
            Party::CommitProxy(number) => write!(f, "commit proxy {number}"),
            Party::Sequencer => write!(f, "sequencer"),
            Party::Resolver(number) => write!(f, "resolver {number}"),
            Party::Log(number) => write!(f, "log {number}"),
            Party::Shard(number) => write!(f, "shard {number}"),
        }
    }
}

/// Those who have a lane: the sessions that ask for a transaction, and all others that the configuration has, which is
/// the first step, where it was taken.
pub fn lanes_of(alloc: Global, steps: &[Step<'_>]) -> Allocated<BTreeSet<Party>> {
    let mut lanes = BTreeSet::new(alloc);
    let asks = steps.iter().filter(|step| step.verb() == "ask");
    let sessions = asks.filter_map(|ask| number(ask.line, 1));
    lanes.extend(sessions.map(Party::Session))?;
    if let Some(Step { line, answer: "ok" }) = steps.first() {
        let proxies = number(line, 2).unwrap_or(0);
        lanes.extend((0..proxies).map(Party::ReadProxy))?;
        lanes.extend((0..proxies).map(Party::CommitProxy))?;
        lanes.insert(Party::Sequencer)?;
        lanes.extend((0..=splits(line, 6).count()).map(Party::Resolver))?;
        lanes.extend((0..number(line, 4).unwrap_or(0)).map(Party::Log))?;
        lanes.extend((0..=splits(line, 8).count()).map(Party::Shard))?;
    }
    Ok(lanes)
}

/// The key from which on the party owns keys at first, where it owns but a piece and not the first one.
pub fn begin_of(party: Party, config: &str) -> Option<&str> {
    match party {
        Party::Resolver(number) => splits(config, 6).nth(number.checked_sub(1)?),
        Party::Shard(number) => splits(config, 8).nth(number.checked_sub(1)?),
        _ => None,
    }
}

/// The splits that are the word at the place of a configuration: where the pieces of its keys begin, but the first one.
pub fn splits(config: &str, place: usize) -> SplitTerminator<'_, char> {
    let text = word(config, place);
    let splits = text.strip_prefix('-').unwrap_or(text);
    splits.split_terminator(',')
}
