// Each step by its kind.
mod client;
mod commit_proxy;
mod grv_proxy;
mod log;
mod resolver;
mod sequencer;
mod shard;

ghost use Rattle.fdb_machine.specs.invariant.Invariant.{Invariant};
ghost use Rattle.fdb_core.specs.refinement.Cluster.{machine_of};
ghost use Rattle.fdb_core.specs.refinement.Restoring.{Tied};
ghost use Rattle.fdb_core.specs.refinement.Steps.{Takes};

use crate::cluster::Cluster;
use crate::roles::client::note::Note;
use crate::roles::client::read::Read;
use fdb_keys::Refusal;
use fdb_machine::{Answered, Step};

impl Cluster {
    /// Takes the step.
    pub(crate) fn step(&mut self, step: &Step) -> Result<Answered, Refusal>
        requires tied { Tied self.old }
        requires named { Invariant (machine_of self.old) }
        ensures { Takes self.old step.now result self.new }
    {
        match step {
            Step::Ask { session, proxy } => self.ask(*session, *proxy),
            Step::Grant { proxy } => self.grant(*proxy),
            Step::Get {
                session,
                key,
                snapshot,
            } => self.read(*session, Read::Key(key), *snapshot),
            Step::GetRange {
                session,
                range,
                limit,
                reverse,
                snapshot,
            } => {
                let read = Read::Range {
                    range,
                    limit: *limit,
                    reverse: *reverse,
                };
                self.read(*session, read, *snapshot)
            }
            Step::Write { session, mutation } => self.note(*session, Note::Write(mutation)),
            Step::AddRead { session, range } => self.note(*session, Note::AddRead(range)),
            Step::AddWrite { session, range } => self.note(*session, Note::AddWrite(range)),
            Step::Submit { session, proxy } => self.submit(*session, *proxy),
            Step::Seal { proxy, advance } => self.seal(*proxy, *advance),
            Step::Resolve { entry, resolver } => self.resolve(*entry, *resolver),
            Step::Verdict { entry, resolver } => self.verdict(*entry, *resolver),
            Step::Decide { proxy } => self.decide(*proxy),
            Step::Push { entry, log } => self.push(*entry, *log),
            Step::Logged { entry, log } => self.logged(*entry, *log),
            Step::Report { proxy } => self.report(*proxy),
            Step::Answer { proxy } => self.answer(*proxy),
            Step::Pull { shard, limit } => self.pull(*shard, *limit),
            Step::Forget { shard, version } => self.forget(*shard, *version),
            Step::Pop { shard } => self.pop(*shard),
            Step::Move { range, to } => self.move_to(range, *to),
            Step::Window { window } => self.set_window(*window),
        }
    }
}
