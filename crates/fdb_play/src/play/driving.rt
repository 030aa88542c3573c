// A batch in flight, driven through the steps that it still has before it.
ghost use Rattle.fdb_machine.specs.machine.InFlight.{in_flight};
ghost use Rattle.fdb_play.specs.play.Driving.{AreTried, Drives, DrivesWhole, for_each, log_steps, resolver_steps};

use fdb_core::{Answered, InFlight, Step, World};
use fdb_keys::Refusal;

/// Takes the steps of the batch that the commit proxy has in flight: `Resolve` and `Verdict` for each resolver
/// from 0, `Decide`, `Push` and `Logged` for each log from 0, `Report` and `Answer`. Answers what the last step
/// answers. The first step that is refused ends it with that refusal, and the steps before it stay. It is meant
/// for a batch none of whose steps was taken.
///
/// Refused as `World::in_flight` is where the proxy has no batch, and no step is taken then.
pub fn drive(world: &mut World, proxy: u32) -> Result<Answered, Refusal>
    ensures { Drives proxy world.old.state result world.new.state }
{
    let flight = world.in_flight(proxy)?;
    drive_whole(world, proxy, flight)
}

fn drive_whole(world: &mut World, proxy: u32, flight: InFlight) -> Result<Answered, Refusal>
    ensures { DrivesWhole proxy flight world.old.state result world.new.state }
{
    resolve_everywhere(world, flight)?;
    world.step(Step::Decide { proxy })?;
    log_everywhere(world, flight)?;
    world.step(Step::Report { proxy })?;
    world.step(Step::Answer { proxy })
}

fn resolve_everywhere(world: &mut World, flight: InFlight) -> Result<(), Refusal>
    ensures { AreTried world.old.state (for_each (resolver_steps flight.entry) flight.resolvers) result
        world.new.state }
{
    for resolver in 0..flight.resolvers {
        resolve_at(world, flight.entry, resolver)?;
    }
    Ok(())
}

fn resolve_at(world: &mut World, entry: u32, resolver: u32) -> Result<(), Refusal>
    ensures { AreTried world.old.state (resolver_steps entry resolver) result world.new.state }
{
    world.step(Step::Resolve { entry, resolver })?;
    world.step(Step::Verdict { entry, resolver })?;
    Ok(())
}

fn log_everywhere(world: &mut World, flight: InFlight) -> Result<(), Refusal>
    ensures { AreTried world.old.state (for_each (log_steps flight.entry) flight.logs) result world.new.state }
{
    for log in 0..flight.logs {
        log_at(world, flight.entry, log)?;
    }
    Ok(())
}

fn log_at(world: &mut World, entry: u32, log: u32) -> Result<(), Refusal>
    ensures { AreTried world.old.state (log_steps entry log) result world.new.state }
{
    world.step(Step::Push { entry, log })?;
    world.step(Step::Logged { entry, log })?;
    Ok(())
}
