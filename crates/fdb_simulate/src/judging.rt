// Whether what the clients were told agrees with the record.
use crate::delivering::id_of;
use crate::plan::Plan;
use crate::sim::Sim;
use crate::tally::Tally;
use fdb_check::{CheckFault, JudgedBook};
use fdb_keys::Refusal;
use fdb_proxy::Config;
use fdb_sections::{ClusterName, DatabaseName, GrantMessage, Open, Record, ShardAt};
use fdb_txn::Entry;
use std::alloc::Global;

// How many of the transactions of the entries have one of the ids, which are sorted. It takes O(n log m) time for n
// transactions and m ids.
fn count_found(entries: &[Entry], ids: &[u128]) -> u64 {
    let mut found = 0;
    for entry in entries {
        for sealed in entry.batch.as_slice() {
            if ids.binary_search(&id_of(sealed.id())).is_ok() {
                Tally::add(&mut found);
            }
        }
    }
    found
}

// The entries of the front that was granted. Refused only as `NoMemory`.
fn entries_of<B: DatabaseName>(granted: GrantMessage<B>) -> Result<Vec<Entry>, Refusal> {
    let front = granted.into_front();
    let entries = front.front().entries();
    drop(front);
    entries
}

// Whether the shards gave a record. Refused only as `NoMemory`.
fn is_given<B: DatabaseName>(record: Result<Record<B>, Refusal>) -> Result<bool, Refusal> {
    match record {
        Ok(record) => {
            drop(record);
            Ok(true)
        }
        Err(Refusal::NoMemory) => Err(Refusal::NoMemory),
        Err(_why) => Ok(false),
    }
}

// How many answers the plan doesn't explain, but for the reads that were noted.
fn count_unexplained(plan: &Plan, tally: &Tally, is_full: bool) -> u64 {
    if plan.fails_at.is_some() {
        return 0;
    }
    if plan.closes_at.is_some() || is_full {
        return tally.unknown;
    }
    let explained = tally.forgotten.saturating_add(tally.untaken);
    let refused = tally.refused.saturating_sub(explained);
    tally.unknown.saturating_add(refused)
}

impl<B: ClusterName> Sim<Open<B>> {
    /// What came of the run, with its receipts and refusals compared with the book. It fails only where memory runs
    /// out.
    pub(crate) fn judge(&mut self, config: &Config, plan: &Plan) -> Result<Tally, Refusal> {
        if self.told.lacks_memory {
            return Err(Refusal::NoMemory);
        }
        self.told.absent.sort_unstable();
        let granted = self.roles.sequencer.granted()?;
        let is_recorded = self.lacks_shard || is_given(self.record_at(&granted))?;
        let entries = entries_of(granted)?;
        let judged = self.judge_by(config, plan, entries.as_slice(), is_recorded);
        drop(entries);
        judged
    }

    // The same with the book's entries, and whether there is a record.
    fn judge_by(
        &self,
        config: &Config,
        plan: &Plan,
        entries: &[Entry],
        is_recorded: bool,
    ) -> Result<Tally, Refusal> {
        let checked = self.count_checked(config, entries)?;
        let mut tally = self.told.tally;
        let is_full = entries.len() == self.cells.limit as usize;
        let unexplained = count_unexplained(plan, &tally, is_full);
        tally.unexplained = tally.unexplained.saturating_add(unexplained);
        tally.is_recorded = is_recorded;
        for player in &self.players {
            if player.waits() {
                Tally::add(&mut tally.waiting);
            }
        }
        tally.left = self.pools.count() as u64;
        tally.entries = entries.len() as u64;
        tally.found = count_found(entries, self.told.absent.as_slice());
        tally.checked = checked;
        Ok(tally)
    }

    // What the shards have at the version that was granted.
    fn record_at(&self, granted: &GrantMessage<Open<B>>) -> Result<Record<Open<B>>, Refusal> {
        let mut shards: Vec<&ShardAt<Open<B>>> = Vec::new(self.alloc);
        for shard in &self.roles.shards {
            shards.push(&shard.at)?;
        }
        Record::at(self.alloc, granted, shards.as_slice())
    }

    // How many of those that were acknowledged are serialized where their receipts say, 0 where one isn't.
    fn count_checked(&self, config: &Config, entries: &[Entry]) -> Result<u64, Refusal> {
        let splits = config.resolver_splits.as_slice();
        match JudgedBook::new(self.alloc, splits, entries) {
            Ok(judged) => match judged.check(self.alloc, self.told.placed.as_slice()) {
                Ok(count) => Ok(count),
                Err(CheckFault::NoMemory) => Err(Refusal::NoMemory),
                Err(_fault) => Ok(0),
            },
            Err(Refusal::NoMemory) => Err(Refusal::NoMemory),
            Err(_why) => Ok(0),
        }
    }
}
