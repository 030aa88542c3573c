// What was begun is played to its end: everybody acts, and everything that is on its way comes, until nothing changes.
use crate::sim::{Sim, count_of};
use fdb_sections::{ClusterName, Next, Open};
use std::alloc::AllocError;

// How many rounds there are at most. What is left then waits.
const ROUNDS: u32 = 1_000_000;

// After so many rounds for each message that is on its way, and so many more, in which nothing changed nothing will: in
// a round a message of each kind is drawn, and of many that wait for others only one may be one whose turn it is.
const IDLE_ROUNDS: usize = 64;

impl<B: ClusterName> Sim<Open<B>> {
    /// Goes round until nothing changes any more. It fails only where memory runs out.
    pub(crate) fn drain(&mut self) -> Result<(), AllocError> {
        let mut idle: usize = 0;
        for _round in 0..ROUNDS {
            let before = self.told.tally.acts;
            self.go_round()?;
            idle = if self.told.tally.acts == before {
                idle.saturating_add(1)
            } else {
                0
            };
            let most = self
                .pools
                .count()
                .saturating_add(1)
                .saturating_mul(IDLE_ROUNDS);
            if idle >= most && !self.fail_without_verdicts() {
                return Ok(());
            }
        }
        Ok(())
    }

    // Everybody acts once, and one message of each kind comes for each who is there.
    fn go_round(&mut self) -> Result<(), AllocError> {
        for number in 0..count_of(self.players.len()) {
            self.act_player(number);
        }
        for number in 0..count_of(self.roles.commits.len()) {
            self.act_commit(number)?;
            self.act_begin(number)?;
        }
        for number in 0..count_of(self.roles.resolvers.len()) {
            self.act_resolver(number)?;
        }
        for tag in 0..count_of(self.roles.shards.len()) {
            self.act_shard(tag);
        }
        for kind in 0..10 {
            self.deliver_one(kind)?;
        }
        Ok(())
    }

    // Once a proxy has failed whose batch has an entry, no verdicts come any more: who waits for some fails too.
    fn fail_without_verdicts(&mut self) -> bool {
        let mut has_failed = false;
        if self.has_hole && self.pools.verdicts.len() == 0 {
            for number in 0..count_of(self.roles.commits.len()) {
                has_failed = self.fail_waiting(number) || has_failed;
            }
        }
        has_failed
    }

    fn fail_waiting(&mut self, number: u32) -> bool {
        let waits = match self.roles.commits.get(number as usize) {
            Some(proxy) => matches!(proxy.next(), Next::Verdicts(_)),
            None => false,
        };
        if waits {
            self.fail(number);
        }
        waits
    }
}
