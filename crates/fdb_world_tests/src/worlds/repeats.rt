// Messages that come again: beside a world to which one does goes another one, to which it doesn't.
use super::acts::{Act, Call, take};
use super::{TWO_PROXIES, new_world};
use crate::asserting::same;
use fdb_core::World;
use fdb_keys::Refusal;
use fdb_making::refusal_of;
use std::alloc::Global;

#[derive(Drop)]
struct Pair {
    world: World,
    other: World,
}

// What happens in two worlds.
#[derive(Clone, Copy)]
enum Line {
    // Both worlds answer the steps alike.
    Both(&'static [Act]),
    // The first world refuses the step as stale, which the second one doesn't take.
    Again(Act),
    // Both find no difference in so many acknowledged transactions.
    Check(u64),
}

fn are_alike<T: PartialEq + Drop>(answer: T, other: T) -> bool {
    answer == other
}

impl Pair {
    fn new(alloc: Global) -> Result<Self, Refusal> {
        let world = new_world(alloc, TWO_PROXIES)?;
        let other = new_world(alloc, TWO_PROXIES)?;
        Ok(Pair { world, other })
    }

    fn both(&mut self, alloc: Global, acts: &[Act]) -> bool {
        for act in acts {
            if !are_alike(
                take(&mut self.world, alloc, *act),
                take(&mut self.other, alloc, *act),
            ) {
                return false;
            }
        }
        true
    }

    fn holds(&mut self, alloc: Global, line: Line) -> bool {
        match line {
            Line::Both(acts) => self.both(alloc, acts),
            Line::Again(act) => {
                refusal_of(take(&mut self.world, alloc, act)) == Some(Refusal::Stale)
            }
            Line::Check(count) => self.world.check() == Ok(count)
                && self.other.check() == Ok(count),
        }
    }

    // The place of the first line that doesn't hold.
    fn first_wrong(&mut self, alloc: Global, lines: &[Line]) -> Option<usize> {
        for (place, line) in lines.iter().enumerate() {
            if !self.holds(alloc, *line) {
                return Some(place);
            }
        }
        None
    }
}

// Session 0 reads a key of the second resolver and writes one of the first.
const SEALED: [Act; 6] = [
    Act::Ask(0, 0),
    Act::Grant(0),
    Act::Call(0, Call::Get(b'z')),
    Act::Call(0, Call::Set(b'a', 1)),
    Act::Submit(0, 0),
    Act::Seal(0, 100),
];

const JUDGED_BY_THE_FIRST: [Act; 3] = [Act::Resolve(0, 0), Act::Resolve(0, 1), Act::Verdict(0, 0)];

// The decision is refused until the second resolver's verdicts come.
const DONE: [Act; 10] = [
    Act::Decide(0),
    Act::Verdict(0, 1),
    Act::Decide(0),
    Act::Push(0, 0),
    Act::Push(0, 1),
    Act::Logged(0, 0),
    Act::Logged(0, 1),
    Act::Report(0),
    Act::Answer(0),
    Act::Pull(0, 1),
];

// Entry 1 is decided once both resolvers of its transaction are heard.
const SECOND_DECIDED: [Act; 7] = [
    Act::Decide(0),
    Act::Resolve(1, 0),
    Act::Resolve(1, 1),
    Act::Verdict(1, 1),
    Act::Decide(0),
    Act::Verdict(1, 0),
    Act::Decide(0),
];

const SECOND_DONE: [Act; 7] = [
    Act::Report(0),
    Act::Push(1, 0),
    Act::Push(1, 1),
    Act::Logged(1, 0),
    Act::Logged(1, 1),
    Act::Report(0),
    Act::Answer(0),
];

// A verdict that comes again changes nothing.
const A_VERDICT_AGAIN: [Line; 7] = [
    Line::Both(&SEALED),
    Line::Both(&JUDGED_BY_THE_FIRST),
    Line::Again(Act::Verdict(0, 0)),
    Line::Both(&DONE),
    Line::Again(Act::Verdict(0, 1)),
    Line::Both(&SEALED),
    Line::Check(1),
];

// A verdict and an acknowledgement of another entry change nothing.
const A_VERDICT_OF_ANOTHER_ENTRY: [Line; 10] = [
    Line::Both(&SEALED),
    Line::Both(&JUDGED_BY_THE_FIRST),
    Line::Both(&DONE),
    Line::Both(&SEALED),
    Line::Again(Act::Verdict(0, 0)),
    Line::Again(Act::Verdict(0, 1)),
    Line::Both(&SECOND_DECIDED),
    Line::Again(Act::Logged(0, 0)),
    Line::Both(&SECOND_DONE),
    Line::Check(2),
];

fn played(alloc: Global, lines: &[Line]) -> Result<Option<usize>, Refusal> {
    let mut pair = Pair::new(alloc)?;
    Ok(pair.first_wrong(alloc, lines))
}

#[test]
fn what_comes_again_changes_nothing(rt: HostRuntime) {
    let alloc = rt.alloc();
    let found = (
        played(alloc, A_VERDICT_AGAIN.as_slice()),
        played(alloc, A_VERDICT_OF_ANOTHER_ENTRY.as_slice()),
    );
    same(&rt, found, (Ok(None), Ok(None)));
}
