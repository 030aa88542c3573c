// The steps of clients.
ghost use Rattle.std.specs.Prelude.{◌≡◌, ◌+◌, ◌≤◌, ◌++◌, [], ◌∷◌, ℕ, true, Some, slice_get, vec_len, vec_capacity};
ghost use Rattle.fdb_txn.specs.declared.spot.Spot.TheVariants as spot;
ghost use Rattle.fdb_core.specs.declared.roles.commit_proxy.CommitProxyRole.{CommitProxyRole};
ghost use Rattle.fdb_machine.specs.declared.step.Answered.TheVariants as answered;
ghost use Rattle.fdb_machine.specs.invariant.Invariant.{Invariant};
ghost use Rattle.fdb_machine.specs.declared.step.AnyStep.TheVariants as step;
ghost use Rattle.fdb_core.specs.refinement.Cluster.{machine_of};
ghost use Rattle.fdb_core.specs.refinement.Restoring.{Tied, proxy_failed};
ghost use Rattle.fdb_core.specs.refinement.client.Noting.{step_with};
ghost use Rattle.fdb_core.specs.refinement.client.Reading.{step_of};
ghost use Rattle.fdb_core.specs.refinement.Steps.{Takes};

use crate::cluster::Cluster;
use crate::roles::client::note::Note;
use crate::roles::client::read::Read;
use crate::roles::shard_reads::ShardReads;
use fdb_client::{Finished, Transcript};
use fdb_keys::Refusal;
use fdb_machine::Answered;
use fdb_roles::Placed;
use fdb_txn::Spot;

impl Cluster {
    #[tactic(auto, unfolding(fdb_machine::specs::machine::ClientSteps::reads))]
    pub(crate) fn read(
        &mut self,
        session: u32,
        read: Read<'_>,
        snapshot: bool,
    ) -> Result<Answered, Refusal>
        requires { Tied self.old }
        ensures { Takes self.old (step_of session read.entry snapshot) result self.new }
    {
        let Some(txn) = self.sessions.open(session) else {
            return Err(Refusal::NoTransaction);
        };
        let reads = ShardReads {
            alloc: self.alloc,
            version: txn.transcript().read_version,
            config: &self.config,
            book: &self.book,
            shard_map: &self.shard_map,
            shards: &self.shards,
        };
        self.sessions.read(session, &reads, read, snapshot)
    }

    pub(crate) fn note(&mut self, session: u32, note: Note<'_>) -> Result<Answered, Refusal>
        requires { Tied self.old }
        ensures { Takes self.old (step_with session note.entry) result self.new }
    {
        self.sessions.note(session, note)?;
        Ok(Answered::Done)
    }

    #[tactic(auto, unfolding(fdb_machine::specs::machine::ClientSteps::submits))]
    pub(crate) fn submit(&mut self, session: u32, proxy: u32) -> Result<Answered, Refusal>
        requires tied { Tied self.old }
        requires named { Invariant (machine_of self.old) }
        ensures { Takes self.old (step.Submit session proxy) result self.new }
    {
        let at = proxy as usize;
        if at >= self.commit_proxies.len() {
            return Err(Refusal::Unknown);
        }
        if self.commit_proxies[at].state.is_failed() {
            return self.submit_past(session);
        }
        self.acknowledged.reserve(1)?;
        let commit_proxy = &mut self.commit_proxies[at];
        match commit_proxy.submit(self.alloc, &mut self.sessions, session)? {
            None => Ok(Answered::Done),
            Some(transcript) => Ok(acknowledge(&mut self.acknowledged, transcript)),
        }
    }

    // The session submits at a commit proxy that has failed. A transaction that wrote nothing uses no proxy, so it is
    // acknowledged all the same.
    #[tactic(auto, unfolding(fdb_machine::specs::machine::ClientSteps::submits))]
    fn submit_past(&mut self, session: u32) -> Result<Answered, Refusal>
        requires { Tied self.old }
        ensures { (proxy : ℕ) (role : CommitProxyRole) → slice_get self.old.commit_proxies.items proxy ≡ Some role
            → proxy_failed role ≡ true → Takes self.old (step.Submit session proxy) result self.new }
    {
        let Some(txn) = self.sessions.open(session) else {
            return Err(Refusal::NoTransaction);
        };
        if !txn.is_read_only() {
            return Err(Refusal::Failed);
        }
        // Room comes first: once the transaction is finished, it can't be left open.
        self.acknowledged.reserve(1)?;
        match self.sessions.finish(session)? {
            Finished::ReadOnly(transcript) => Ok(acknowledge(&mut self.acknowledged, transcript)),
            // It wrote nothing, so it isn't one to commit.
            Finished::ToCommit(..) => Err(Refusal::Failed),
        }
    }
}

// The transaction, which wrote nothing, is acknowledged at its read version. There is room for it.
fn acknowledge(acknowledged: &mut Vec<Placed>, transcript: Transcript) -> Answered
    requires { vec_len acknowledged.old + 1 ≤ vec_capacity acknowledged.old }
    ensures answer { result ≡ answered.ReadOnly transcript.read_version }
    ensures items { acknowledged.new.items ≡ acknowledged.old.items
        ++ record { spot = spot.ReadOnly transcript.read_version; transcript = transcript } ∷ [] }
{
    let version = transcript.read_version;
    let spot = Spot::ReadOnly { version };
    acknowledged.push_reserved(Placed { spot, transcript });
    Answered::ReadOnly(version)
}
