// A world whose steps go on where memory runs out in one of them. `tools/refused_growths` runs this where one growth
// of memory is refused, each time another one.
use super::acts::{Act, Call, take};
use super::checks::{AFTER, BEFORE};
use super::{TWO_LOGS, new_world};
use crate::asserting::same;
use fdb_core::World;
use fdb_keys::Refusal;
use fdb_making::ask_mut;
use std::alloc::Global;
use std::test::Fail;

// The session sets a.
const WRITE: [Act; 1] = [Act::Call(0, Call::Set(b'a', b'x'))];

// Takes each step, whatever it is answered.
fn go_on(world: &mut World, alloc: Global, acts: &[Act]) {
    for act in acts {
        drop(take(world, alloc, *act));
    }
}

// Whether the check answers how many transactions were acknowledged. Where one growth is refused in all, one of two
// checks has all that it asks for.
fn is_counted(world: &World) -> bool {
    let count = world.acknowledged().len() as u64;
    let (first, again) = (world.check(), world.check());
    first == Ok(count) || again == Ok(count)
}

// Whether the shard has failed, and whether the world's transactions are counted then.
fn played(world: &mut World, alloc: Global) -> (bool, bool) {
    go_on(world, alloc, BEFORE.as_slice());
    go_on(world, alloc, WRITE.as_slice());
    go_on(world, alloc, AFTER.as_slice());
    let forgotten = take(world, alloc, Act::Forget(0, 0));
    let has_failed = matches!(forgotten, Err(Refusal::Failed));
    drop(forgotten);
    (has_failed, is_counted(world))
}

// The same of a new world, where there was memory for it.
fn play(alloc: Global) -> (bool, bool) {
    match ask_mut(
        new_world(alloc, TWO_LOGS),
        |world: &mut World| played(world, alloc),
    ) {
        Ok(told) => told,
        Err(_code) => (false, true),
    }
}

#[test]
fn transactions_are_counted_where_a_growth_is_refused(rt: HostRuntime) -> Result<(), Fail> {
    let (has_failed, is_counted) = play(rt.alloc());
    same(&rt, is_counted, true);
    if has_failed {
        println!(&rt; "the shard has failed")?;
    }
    Ok(())
}
