// Steps that are made from a seed, over three proxies of each kind, three resolvers, two logs and three shards.
mod drawing;
mod tally;

use self::drawing::Drawing;
use self::tally::Tally;
use super::acts::{Act, take};
use super::{Sizes, new_world};
use fdb_core::World;
use fdb_keys::Refusal;
use fdb_making::Splits;
use std::alloc::Global;

// Takes the step, and notes what it answers.
fn take_one(world: &mut World, drawing: &mut Drawing, tally: &mut Tally, alloc: Global, act: Act) {
    let answer = take(world, alloc, act);
    if answer.is_ok() {
        drawing.note(act);
    }
    tally.note(&answer);
    drop(answer);
}

// Takes so many steps, each fourth of them twice.
fn take_steps(world: &mut World, alloc: Global, seed: u64, steps: u32) -> Tally {
    let mut drawing = Drawing::new(seed);
    let mut tally = Tally::new();
    for number in 0..steps {
        let act = drawing.act(world);
        take_one(world, &mut drawing, &mut tally, alloc, act);
        if number % 4 == 0 {
            take_one(world, &mut drawing, &mut tally, alloc, act);
        }
    }
    tally
}

// The resolvers part the keys elsewhere than the shards.
const SIZES: Sizes = Sizes {
    proxies: 3,
    logs: 2,
    resolver_splits: Splits::Keys(&[b"d", b"g"]),
    shard_splits: Splits::Keys(&[b"c", b"f"]),
    book: 4_096,
};

// Whether the check finds no difference after steps of every outcome.
fn agrees(alloc: Global, seed: u64) -> Result<bool, Refusal> {
    let mut world = new_world(alloc, SIZES)?;
    let tally = take_steps(&mut world, alloc, seed, 8_000);
    Ok(tally.has_each() && world.check() == Ok(tally.acknowledged()))
}

#[test]
fn generated_steps_are_checked(rt: HostRuntime) {
    for seed in 0..3 {
        assert!(rt; agrees(rt.alloc(), seed) == Ok(true), "at {seed}");
    }
}
