// Acts of clients and roles, each of which sends what it has to send.
use crate::player::Wish;
use crate::sim::{Sim, count_of};
use crate::tally::Tally;
use bytes::Bytes;
use fdb_keys::{Key, KeyRange, Refusal, Refused};
use fdb_mutations::{Mutation, STAMP_SIZE};
use fdb_sections::{
    Asked, Client, ClusterName, CommitMessage, CommitReply, DatabaseName, LogState, Next, Open,
    PullMachine, PullNext, ShardAt, ShardState,
};
use fdb_txn::{Move, WINDOW};
use std::alloc::{AllocError, Global};

// A small window has the versions of so many entries at most.
const FEW_ENTRIES: u32 = 4;

// The key has the number from now on. Refused as `NoMemory`.
fn set_to(alloc: Global, key: &Key, number: u64) -> Result<Mutation, Refusal> {
    let value = Bytes::copy_from_slice(alloc, &number.to_le_bytes())?;
    let key = Key::new(alloc, key.bytes())?;
    Ok(Mutation::Set { key, value })
}

// The client's open transaction sets the key to the number.
fn write_number<B: DatabaseName>(
    client: &mut Client<B>,
    alloc: Global,
    key: &Key,
    number: u64,
) -> Result<(), Refusal> {
    let mutation = set_to(alloc, key, number)?;
    let written = client.write(&mutation);
    drop(mutation);
    written
}

// The client's open transaction sets the key to the stamp of its commit, and reads it. Answers whether that read is
// refused, since the stamp isn't known yet.
fn write_stamp<B: DatabaseName>(
    client: &mut Client<B>,
    alloc: Global,
    key: &Key,
) -> Result<bool, Refusal> {
    let mutation = Mutation::stamped(alloc, key.bytes(), &[0; STAMP_SIZE], 0)?;
    let written = client.write(&mutation);
    drop(mutation);
    written?;
    match client.get_decided(alloc, key, false) {
        Ok(value) => {
            drop(value);
            Ok(false)
        }
        Err(Refusal::AccessedUnreadable) => Ok(true),
        Err(why) => Err(why),
    }
}

// The client's open transaction reads the key at its shard, which has come to its read version.
fn read_key<B: DatabaseName>(
    client: &mut Client<B>,
    shard: &ShardState<B>,
    version: u64,
    key: &Key,
) -> Result<(), Refusal> {
    shard.check(version)?;
    drop(client.get_at(&shard.at, key, false)?);
    Ok(())
}

// The client's open transaction reads some pairs of the range at the shards from that number on, which have come to its
// read version.
fn read_range<B: DatabaseName>(
    client: &mut Client<B>,
    alloc: Global,
    shards: &[ShardState<B>],
    first: usize,
    range: &KeyRange,
    limit: u32,
    reverse: bool,
) -> Result<(), Refusal> {
    let mut lent: Vec<&ShardAt<B>> = Vec::with_capacity(alloc, shards.len())?;
    for shard in shards.iter().skip(first) {
        lent.push(&shard.at)?;
    }
    drop(client.get_range_at(alloc, lent.as_slice(), range, limit, reverse, false)?);
    Ok(())
}

// Whether a reader at the version waits on for one of the shards from that number on.
fn are_behind<B: DatabaseName>(shards: &[ShardState<B>], first: usize, version: u64) -> bool {
    shards
        .iter()
        .skip(first)
        .any(|shard| shard.is_behind(version))
}

// A shard's pull does what it wants next, if it can, until the shard ends. Answers whether anything changed.
fn go_on<B: DatabaseName>(
    pull: &mut PullMachine<B>,
    log: &mut LogState<B>,
    shard: &mut ShardState<B>,
    committed: u64,
) -> bool {
    if shard.ended.is_some() {
        return false;
    }
    match pull.next() {
        PullNext::Messages(after) => {
            if log.is_behind(after) {
                return false;
            }
            pull.peek_at(log);
        }
        PullNext::Apply => pull.apply_to(shard),
        PullNext::Drop => pull.drop_at(log),
        PullNext::Forget => pull.forget_in(shard, committed),
        PullNext::End(why) => shard.end(why),
    }
    true
}

// The log that the draw is for takes nothing any more.
fn fail_log<B: DatabaseName>(logs: &mut Vec<LogState<B>>, drawn: usize) {
    let count = logs.len();
    if count == 0 {
        return;
    }
    if let Some(log) = logs.get_mut(drawn % count) {
        log.end(Refusal::Failed);
    }
}

// The shard that the draw is for pulls nothing any more. Answers whether there is one.
fn fail_shard<B: DatabaseName>(shards: &mut Vec<ShardState<B>>, drawn: usize) -> bool {
    let count = shards.len();
    if count == 0 {
        return false;
    }
    match shards.get_mut(drawn % count) {
        Some(shard) => {
            shard.end(Refusal::Failed);
            true
        }
        None => false,
    }
}

impl<B: ClusterName> Sim<Open<B>> {
    /// Draws an act, and does it. It fails only where memory runs out.
    pub(crate) fn act(&mut self) -> Result<(), AllocError> {
        match self.draw(16) {
            0 | 1 | 2 => {
                let count = count_of(self.players.len());
                let number = self.draw(count);
                self.act_player(number);
                Ok(())
            }
            3 | 4 => {
                let count = count_of(self.roles.commits.len());
                let number = self.draw(count);
                self.act_commit(number)
            }
            5 => {
                let count = count_of(self.roles.begins.len());
                let number = self.draw(count);
                self.act_begin(number)
            }
            6 => {
                let count = count_of(self.roles.resolvers.len());
                let number = self.draw(count);
                self.act_resolver(number)
            }
            7 => {
                let count = count_of(self.roles.shards.len());
                let number = self.draw(count);
                self.act_shard(number);
                Ok(())
            }
            8 => {
                self.act_sequencer();
                Ok(())
            }
            _ => self.deliver(),
        }
    }

    // The sequencer makes a move, or gets another window, now and then.
    fn act_sequencer(&mut self) {
        match self.draw(16) {
            0 | 1 => self.move_keys(),
            2 => self.set_window(),
            _ => {}
        }
    }

    // The keys between two that are drawn go over to a resolver that is drawn.
    fn move_keys(&mut self) {
        let count = count_of(self.keys.len());
        let first = self.draw(count);
        let count = count_of(self.keys.len());
        let last = self.draw(count);
        let count = count_of(self.roles.resolvers.len());
        let to = self.draw(count);
        let (Some(begin), Some(end)) = (self.keys.get(first as usize), self.keys.get(last as usize))
        else {
            return;
        };
        if let Ok(range) = KeyRange::new(self.alloc, begin.bytes(), end.bytes()) {
            let _ = self.roles.sequencer.move_to(Move { range, to });
        }
    }

    // The window has few entries from the next one on, or is the greatest one.
    fn set_window(&mut self) {
        let is_greatest = self.draw(2) == 0;
        let entries = self.draw(FEW_ENTRIES).saturating_add(1);
        let small = self.advance.saturating_mul(u64::from(entries));
        let window = if is_greatest {
            WINDOW
        } else {
            small.min(WINDOW)
        };
        let _ = self.roles.sequencer.set_window(window);
    }

    /// A client does what it does next.
    pub(crate) fn act_player(&mut self, number: u32) {
        let Some(player) = self.players.get(number as usize) else {
            return;
        };
        match player.wish {
            Wish::Begin => self.ask(number),
            Wish::Read => self.read(number),
            Wish::Write => self.write(number),
            Wish::Commit => self.commit(number),
            Wish::Grant | Wish::Outcome => {}
        }
    }

    // The client wishes something else now, which changes what is going on.
    pub(crate) fn wish(&mut self, number: u32, wish: Wish) {
        self.count_act();
        if let Some(player) = self.players.get_mut(number as usize) {
            player.wish = wish;
        }
    }

    // It asks for a read version, unless the play is over or the database is closed. Now and then it is another session
    // from then on, which knows nothing.
    fn ask(&mut self, number: u32) {
        if self.is_over || self.is_closed {
            return;
        }
        if self.draw(64) == 0 {
            self.replace(number);
        }
        let greatest = self.told.greatest;
        let count = self.roles.begins.len();
        let Some(player) = self.players.get_mut(number as usize) else {
            return;
        };
        player.seen = greatest;
        if count == 0 {
            return;
        }
        let Some(proxy) = self.roles.begins.get_mut(number as usize % count) else {
            return;
        };
        if proxy.ask(number, player.client.mark(), number).is_ok() {
            self.wish(number, Wish::Grant);
        }
    }

    // A new session takes the client's place, if there is memory for it.
    fn replace(&mut self, number: u32) {
        let fresh = self.next_session;
        let made = Client::new(self.alloc, &self.cells.book, fresh);
        if let (Ok(client), Some(player)) = (made, self.players.get_mut(number as usize)) {
            player.client = client;
            self.next_session = fresh.saturating_add(1);
        }
    }

    // It reads a key or a range that is drawn, once their shards have come to its read version.
    fn read(&mut self, number: u32) {
        if self.draw(4) == 0 {
            self.read_pairs(number);
        } else {
            self.read_value(number);
        }
    }

    fn read_value(&mut self, number: u32) {
        let count = count_of(self.keys.len());
        let drawn = self.draw(count);
        let Some(key) = self.keys.get(drawn as usize) else {
            return;
        };
        let Some(player) = self.players.get_mut(number as usize) else {
            return;
        };
        let version = player.client.read_version().unwrap_or(0);
        let tag = self.roles.shard_map.shard_of(key);
        let Some(shard) = self.roles.shards.get(tag as usize) else {
            return;
        };
        if shard.is_behind(version) {
            return;
        }
        let read = read_key(&mut player.client, shard, version, key);
        self.end_read(number, version, read);
    }

    fn read_pairs(&mut self, number: u32) {
        let count = count_of(self.keys.len());
        let (first, last) = (self.draw(count), self.draw(count));
        let (limit, reverse) = (self.draw(4), self.draw(2) == 0);
        let (Some(begin), Some(end)) = (self.keys.get(first as usize), self.keys.get(last as usize))
        else {
            return;
        };
        let Ok(range) = KeyRange::new(self.alloc, begin.bytes(), end.bytes()) else {
            return;
        };
        let first_met = self.roles.shard_map.first_met(&range) as usize;
        let Some(player) = self.players.get_mut(number as usize) else {
            return;
        };
        let version = player.client.read_version().unwrap_or(0);
        if are_behind(self.roles.shards.as_slice(), first_met, version) {
            return;
        }
        let read = read_range(
            &mut player.client,
            self.alloc,
            self.roles.shards.as_slice(),
            first_met,
            &range,
            limit,
            reverse,
        );
        self.end_read(number, version, read);
    }

    // It goes on to write, or begins anew where it was refused. A version that lies in the greatest window
    // isn't forgotten.
    fn end_read(&mut self, number: u32, version: u64, read: Result<(), Refusal>) {
        match read {
            Ok(()) => self.wish(number, Wish::Write),
            Err(Refusal::TransactionTooOld) => {
                Tally::add(&mut self.told.tally.forgotten);
                if version >= self.roles.sequencer.committed().saturating_sub(WINDOW) {
                    Tally::add(&mut self.told.tally.unexplained);
                }
                self.refuse(number);
            }
            Err(_why) => self.refuse(number),
        }
    }

    // It writes a key that is drawn: a number, or now and then the stamp of its commit.
    fn write(&mut self, number: u32) {
        if self.draw(4) == 0 {
            self.stamp(number);
        } else {
            self.set(number);
        }
    }

    fn stamp(&mut self, number: u32) {
        let count = count_of(self.keys.len());
        let drawn = self.draw(count);
        let Some(key) = self.keys.get(drawn as usize) else {
            return;
        };
        let Some(player) = self.players.get_mut(number as usize) else {
            return;
        };
        match write_stamp(&mut player.client, self.alloc, key) {
            Ok(is_hidden) => {
                self.note_stamp(is_hidden);
                self.wish(number, Wish::Commit);
            }
            Err(_why) => self.refuse(number),
        }
    }

    // Its own stamp was hidden from it, or it wasn't.
    fn note_stamp(&mut self, is_hidden: bool) {
        if is_hidden {
            Tally::add(&mut self.told.tally.unreadable);
        } else {
            Tally::add(&mut self.told.tally.unexplained);
        }
    }

    fn set(&mut self, number: u32) {
        let count = count_of(self.keys.len());
        let drawn = self.draw(count);
        let Some(key) = self.keys.get(drawn as usize) else {
            return;
        };
        let Some(player) = self.players.get_mut(number as usize) else {
            return;
        };
        match write_number(&mut player.client, self.alloc, key, self.told.tally.acts) {
            Ok(()) => self.wish(number, Wish::Commit),
            Err(_why) => self.refuse(number),
        }
    }

    // It is refused before it submitted anything, and begins anew.
    fn refuse(&mut self, number: u32) {
        Tally::add(&mut self.told.tally.refused);
        self.wish(number, Wish::Begin);
    }

    // It asks for a commit.
    fn commit(&mut self, number: u32) {
        let Some(player) = self.players.get_mut(number as usize) else {
            return;
        };
        match player.client.commit() {
            Ok(Asked::Acknowledged(receipt)) => self.note_receipt(number, receipt),
            Ok(Asked::ToCommit(asked)) => self.submit(number, asked),
            Err(why) => self.note_refused(number, Refused { why, back: None }),
        }
    }

    // Its commit proxy takes the request, or refuses it. Now and then no proxy takes it, as if memory had run out.
    fn submit(&mut self, number: u32, asked: CommitMessage<Open<B>>) {
        let is_lost = self.draw(32) == 0;
        let count = self.roles.commits.len();
        if count == 0 || self.is_closed {
            drop(asked);
            return self.settle(number, CommitReply::Refused(Refusal::Closed));
        }
        if is_lost {
            drop(asked);
            return self.lose_request(number);
        }
        let Some(proxy) = self.roles.commits.get_mut(number as usize % count) else {
            return drop(asked);
        };
        match proxy.submit(asked, number) {
            Ok(()) => self.wish(number, Wish::Outcome),
            Err(refused) => self.settle(number, CommitReply::Refused(refused.why)),
        }
    }

    // No proxy takes the request. Its transaction is open again then.
    fn lose_request(&mut self, number: u32) {
        Tally::add(&mut self.told.tally.untaken);
        self.settle(number, CommitReply::Refused(Refusal::NoMemory));
        if !self.is_open(number) {
            Tally::add(&mut self.told.tally.unexplained);
        }
    }

    /// A commit proxy does what it wants next, if that is something that it can do by itself.
    pub(crate) fn act_commit(&mut self, number: u32) -> Result<(), AllocError> {
        let Some(proxy) = self.roles.commits.get(number as usize) else {
            return Ok(());
        };
        match proxy.next() {
            Next::Seal if self.is_closed => {
                self.close(number);
                Ok(())
            }
            Next::Seal => self.seal(number),
            Next::Part => self.send_part(number),
            Next::Message => self.send_message(number),
            Next::Report => self.send_logged(number),
            Next::Answer => self.send_outcome(number),
            Next::Request
            | Next::Entry
            | Next::Verdicts(_)
            | Next::Acknowledgement(_)
            | Next::Reported
            | Next::End => Ok(()),
        }
    }

    // All who wait for a proxy of a database that is closed are refused.
    fn close(&mut self, number: u32) {
        self.count_act();
        let Some(proxy) = self.roles.commits.get_mut(number as usize) else {
            return;
        };
        if proxy.refuse_all(Refusal::Closed, None).is_err() {
            self.fail(number);
        }
    }

    fn seal(&mut self, number: u32) -> Result<(), AllocError> {
        let Some(proxy) = self.roles.commits.get_mut(number as usize) else {
            return Ok(());
        };
        Tally::add(&mut self.told.tally.acts);
        match proxy.seal() {
            Ok(asked) => self.pools.batches.put(number, asked),
            Err(_why) => {
                self.fail(number);
                Ok(())
            }
        }
    }

    fn send_part(&mut self, number: u32) -> Result<(), AllocError> {
        let Some(proxy) = self.roles.commits.get_mut(number as usize) else {
            return Ok(());
        };
        match proxy.ready_part() {
            Some(message) => {
                Tally::add(&mut self.told.tally.acts);
                self.pools.parts.put(number, message)
            }
            None => Ok(()),
        }
    }

    fn send_message(&mut self, number: u32) -> Result<(), AllocError> {
        let Some(proxy) = self.roles.commits.get_mut(number as usize) else {
            return Ok(());
        };
        match proxy.ready_message() {
            Some(message) => {
                Tally::add(&mut self.told.tally.acts);
                self.pools.messages.put(number, message)
            }
            None => Ok(()),
        }
    }

    // It tells the sequencer that all logs have its batch.
    fn send_logged(&mut self, number: u32) -> Result<(), AllocError> {
        let Some(proxy) = self.roles.commits.get_mut(number as usize) else {
            return Ok(());
        };
        match proxy.logged_front() {
            Ok(logged) => {
                Tally::add(&mut self.told.tally.acts);
                self.pools.logged.put(number, logged)
            }
            Err(_why) => {
                self.fail(number);
                Ok(())
            }
        }
    }

    fn send_outcome(&mut self, number: u32) -> Result<(), AllocError> {
        let Some(proxy) = self.roles.commits.get_mut(number as usize) else {
            return Ok(());
        };
        match proxy.ready_answer() {
            Some((who, told)) => {
                Tally::add(&mut self.told.tally.acts);
                self.pools.outcomes.put(who, told)
            }
            None => Ok(()),
        }
    }

    /// A role that is drawn fails, as it does where memory runs out in it.
    pub(crate) fn fail_drawn(&mut self) {
        let kind = self.draw(4);
        let drawn = self.draw(u32::MAX) as usize;
        match kind {
            0 => self.has_hole = true,
            1 => fail_log(&mut self.roles.logs, drawn),
            2 => self.lacks_shard = fail_shard(&mut self.roles.shards, drawn),
            _ => {
                let count = count_of(self.roles.commits.len());
                let proxy = self.draw(count);
                self.fail(proxy);
            }
        }
    }

    /// A commit proxy has failed. Where its batch has an entry, logs and resolvers take nothing any more.
    pub(crate) fn fail(&mut self, number: u32) {
        self.count_act();
        let Some(proxy) = self.roles.commits.get_mut(number as usize) else {
            return;
        };
        if proxy.fail() {
            self.has_hole = true;
            for log in &mut self.roles.logs {
                log.end(Refusal::Failed);
            }
        }
    }

    /// A read-version proxy asks the sequencer where somebody waits, and then answers one of those who asked.
    pub(crate) fn act_begin(&mut self, number: u32) -> Result<(), AllocError> {
        let Some(proxy) = self.roles.begins.get_mut(number as usize) else {
            return Ok(());
        };
        if let Some((who, told)) = proxy.ready() {
            Tally::add(&mut self.told.tally.acts);
            return self.pools.grants.put(who, told);
        }
        if proxy.waits() {
            Tally::add(&mut self.told.tally.acts);
            proxy.granted(self.roles.sequencer.granted());
        }
        Ok(())
    }

    /// A resolver takes the part whose turn it is, unless a proxy failed.
    pub(crate) fn act_resolver(&mut self, number: u32) -> Result<(), AllocError> {
        if self.has_hole {
            return Ok(());
        }
        let Some(resolver) = self.roles.resolvers.get_mut(number as usize) else {
            return Ok(());
        };
        match resolver.ready() {
            Ok(Some(sent)) => {
                Tally::add(&mut self.told.tally.acts);
                self.pools.verdicts.put(sent.proxy, sent.message)
            }
            Ok(None) => Ok(()),
            Err(_why) => {
                self.has_hole = true;
                Ok(())
            }
        }
    }

    /// A shard's pull does what it wants next, with its log or the shard.
    pub(crate) fn act_shard(&mut self, tag: u32) {
        let count = self.roles.logs.len();
        let committed = self.roles.sequencer.committed();
        if count == 0 {
            return;
        }
        let log = self.roles.logs.get_mut(tag as usize % count);
        let shard = self.roles.shards.get_mut(tag as usize);
        let pull = self.roles.pulls.get_mut(tag as usize);
        let (Some(log), Some(shard), Some(pull)) = (log, shard, pull) else {
            return;
        };
        if go_on(pull, log, shard, committed) {
            self.count_act();
        }
    }
}
