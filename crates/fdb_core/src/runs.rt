ghost use Rattle.fdb_keys.specs.Answers.{Answers};
ghost use Rattle.fdb_machine.specs.headline.Headline.{IsStrictlySerializable};
ghost use Rattle.fdb_machine.specs.headline.Serving.{RolesKeep};
ghost use Rattle.fdb_proxy.specs.Configs.{config_fault};

use crate::world::World;
use fdb_keys::{Items, Refusal};
use fdb_machine::{Answered, Step};
use fdb_proxy::Config;
use std::alloc::Global;

/// Takes the steps one after another from the configuration's first world, and gives the last world with
/// the answer to each step. Refused as `BadConfig` as `World::new` is. The world stands for these steps with
/// these answers: for every list of steps, each acknowledged transaction is serialized at its spot, every shard answers
/// from the serial map, and each role keeps what the book says, as `World::step` says.
pub fn run(
    alloc: Global,
    config: Config,
    steps: &[Step],
) -> Result<(World, Items<Result<Answered, Refusal>>), Refusal>
    ensures { Answers result (config_fault config)
        (λ ran. IsStrictlySerializable config steps.now ran.1 ran.0 × RolesKeep ran.0) }
{
    let mut world = World::new(alloc, config)?;
    let mut answers = Items::new(alloc);
    for step in steps {
        let answer = world.take(step);
        answers.push(answer)?;
    }
    Ok((world, answers))
}
