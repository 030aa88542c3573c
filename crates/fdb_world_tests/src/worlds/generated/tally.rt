// How often steps are answered this or that.
use fdb_core::{Answered, Outcome};
use fdb_keys::Refusal;

/// The transactions by what became of them, and the steps that were refused as repeated or as out of range.
#[derive(Clone, Copy)]
pub(super) struct Tally {
    committed: u64,
    conflicting: u64,
    old: u64,
    read_only: u64,
    stale: u64,
    unknown: u64,
}

impl Tally {
    pub(super) fn new() -> Self {
        Tally {
            committed: 0,
            conflicting: 0,
            old: 0,
            read_only: 0,
            stale: 0,
            unknown: 0,
        }
    }

    fn note_outcome(&mut self, outcome: Outcome) {
        match outcome {
            Outcome::Commit { .. } => self.committed = self.committed.saturating_add(1),
            Outcome::Conflict => self.conflicting = self.conflicting.saturating_add(1),
            Outcome::Old => self.old = self.old.saturating_add(1),
        }
    }

    pub(super) fn note(&mut self, answer: &Result<Answered, Refusal>) {
        match answer {
            Ok(Answered::ReadOnly(_)) => self.read_only = self.read_only.saturating_add(1),
            Ok(Answered::Answers(answers)) => {
                for (_, outcome) in answers.as_slice() {
                    self.note_outcome(*outcome);
                }
            }
            Err(Refusal::Stale) => self.stale = self.stale.saturating_add(1),
            Err(Refusal::Unknown) => self.unknown = self.unknown.saturating_add(1),
            _ => (),
        }
    }

    pub(super) fn acknowledged(&self) -> u64 {
        self.committed.saturating_add(self.read_only)
    }

    /// Whether there is some of each.
    pub(super) fn has_each(&self) -> bool {
        self.committed > 0
            && self.conflicting > 0
            && self.old > 0
            && self.read_only > 0
            && self.stale > 0
            && self.unknown > 0
    }
}
