// What the steps of a run were answered, in numbers. No count of a run is above the number of its steps.
ghost use Rattle.std.specs.Prelude.{◌≡◌};
ghost use Rattle.fdb_keys.specs.Refusals.{code_of};
ghost use Rattle.fdb_play.specs.random.Tallies.{kind_of, no_tally, noting, noting_answer, noting_outcome};
ghost use Rattle.fdb_play.specs.random.Tallies.{noting_outcomes, place_of, raised, raised_at};

use crate::random::acts::{Act, KINDS, kind_of};
use fdb_core::{Answered, Outcome};
use fdb_keys::Refusal;

/// How many refusals there are.
const REFUSALS: usize = 26;

/// The codes of all refusals.
pub const CODES: [u32; REFUSALS] = [
    1007, 1009, 1020, 1021, 1036, 2004, 2005, 2101, 2102, 2103, 9001, 9002, 9003, 9004, 9005, 9006,
    9007, 9008, 9009, 9010, 9011, 9012, 9013, 9014, 9015, 9016,
];

/// How often steps were answered this or that.
#[derive(Clone, Copy)]
pub struct Tally {
    /// How many steps were refused.
    pub refused: u32,
    /// How many transactions were answered with their spot in a batch.
    pub committed: u32,
    /// How many transactions wrote nothing, and were answered with their read version.
    pub read_only: u32,
    /// How many were answered that something which they read was written since.
    pub conflicting: u32,
    /// How many were answered that they are too old.
    pub too_old: u32,
    /// How many steps of each kind were accepted, where `kind_of` gives the kinds.
    pub accepted: [u32; KINDS],
    /// How many steps were refused with each code, in the order of `CODES`.
    pub refusals: [u32; REFUSALS],
    /// How many steps of each kind were refused.
    pub refused_kinds: [u32; KINDS],
}

impl Tally {
    /// Of no step.
    pub(crate) fn new() -> Self
        ensures { result ≡ no_tally }
    {
        Tally {
            refused: 0,
            committed: 0,
            read_only: 0,
            conflicting: 0,
            too_old: 0,
            accepted: [0; KINDS],
            refusals: [0; REFUSALS],
            refused_kinds: [0; KINDS],
        }
    }

    /// A step was answered so. It takes no memory.
    pub(crate) fn note(&mut self, act: Act, answer: &Result<Answered, Refusal>)
        ensures { self.new ≡ noting self.old (kind_of act) answer.now }
    {
        match answer {
            Ok(answered) => {
                raise_at(self.accepted.as_mut_slice(), kind_of(act));
                self.note_answered(answered);
            }
            Err(why) => self.note_refusal(kind_of(act), *why),
        }
    }

    fn note_refusal(&mut self, kind: usize, why: Refusal)
        ensures { self.new ≡ record self.old {
          refused = raised self.old.refused;
          refusals = raised_at self.old.refusals (place_of (code_of why));
          refused_kinds = raised_at self.old.refused_kinds kind;
        } }
    {
        raise(&mut self.refused);
        raise_at(self.refusals.as_mut_slice(), place_of(why.code()));
        raise_at(self.refused_kinds.as_mut_slice(), kind);
    }

    fn note_answered(&mut self, answered: &Answered)
        ensures { self.new ≡ noting_answer self.old answered.now }
    {
        match answered {
            Answered::ReadOnly(_) => raise(&mut self.read_only),
            Answered::Answers(answers) => self.note_outcomes(answers.as_slice()),
            _ => (),
        }
    }

    fn note_outcomes(&mut self, answers: &[(u32, Outcome)])
        ensures { self.new ≡ noting_outcomes self.old answers.now }
    {
        for told in answers {
            self.note_outcome(told.1);
        }
    }

    fn note_outcome(&mut self, outcome: Outcome)
        ensures { self.new ≡ noting_outcome self.old outcome }
    {
        match outcome {
            Outcome::Commit { .. } => raise(&mut self.committed),
            Outcome::Conflict => raise(&mut self.conflicting),
            Outcome::Old => raise(&mut self.too_old),
        }
    }
}

// The place of the code among all codes, and behind them where it is none.
fn place_of(code: u32) -> usize
    ensures { result ≡ place_of code }
{
    for place in 0..REFUSALS {
        if CODES[place] == code {
            return place;
        }
    }
    REFUSALS
}

fn raise(count: &mut u32)
    ensures { count.new ≡ raised count.old }
{
    *count = count.saturating_add(1);
}

// The count at the place, if there is one, goes up by 1.
fn raise_at(counts: &mut [u32], place: usize)
    ensures { counts.new ≡ raised_at counts.old place }
{
    if place < counts.len() {
        counts[place] = counts[place].saturating_add(1);
    }
}
