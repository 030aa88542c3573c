// What is on its way comes: each kind of message, and what becomes of it.
use crate::player::Wish;
use crate::sim::{Sim, count_of};
use crate::tally::Tally;
use fdb_client::Transcript;
use fdb_keys::{RangeSet, Refusal, Refused};
use fdb_sections::{
    BatchMessage, ClusterName, CommitReply, GrantMessage, GrantReply, Open, Receipt, SentPart,
};
use fdb_txn::{Spot, TxnId};
use std::alloc::AllocError;

/// The id as one number.
pub(crate) fn id_of(id: TxnId) -> u128 {
    (u128::from(id.session) << 64) | u128::from(id.number)
}

// The version of a spot.
fn version_of(spot: Spot) -> u64 {
    match spot {
        Spot::Entry { version, .. } => version,
        Spot::ReadOnly { version } => version,
    }
}

impl<B: ClusterName> Sim<Open<B>> {
    /// Draws a kind of message, and delivers one of them, if there is any. It fails only where memory runs out.
    pub(crate) fn deliver(&mut self) -> Result<(), AllocError> {
        let kind = self.draw(10);
        self.deliver_one(kind)
    }

    /// Delivers one message of the kind, if there is any.
    pub(crate) fn deliver_one(&mut self, kind: u32) -> Result<(), AllocError> {
        match kind {
            0 => self.give_entry(),
            1 => {
                self.take_issued();
                Ok(())
            }
            2 => {
                self.take_part();
                Ok(())
            }
            3 => {
                self.take_verdict();
                Ok(())
            }
            4 => self.push_message(),
            5 => self.take_acknowledgement(),
            6 => self.report(),
            7 => {
                self.take_reported();
                Ok(())
            }
            8 => {
                self.take_grant();
                Ok(())
            }
            _ => {
                self.take_outcome();
                Ok(())
            }
        }
    }

    // The sequencer gives a batch its entry, or refuses that.
    fn give_entry(&mut self) -> Result<(), AllocError> {
        let drawn = self.draw(u32::MAX);
        let Some(sent) = self.pools.batches.take(drawn) else {
            return Ok(());
        };
        self.count_act();
        let number = sent.number;
        self.issue(number, sent.message)
    }

    fn issue(&mut self, number: u32, asked: BatchMessage<Open<B>>) -> Result<(), AllocError> {
        let issued = self
            .roles
            .sequencer
            .issue(self.alloc, &self.cells.book, number, self.advance, asked);
        match issued {
            Ok(issued) => self.pools.issued.put(number, issued),
            Err(why) => {
                self.give_up(number, why);
                Ok(())
            }
        }
    }

    // The batch got no entry. Where that is for good, all who wait are told so, else the proxy fails.
    fn give_up(&mut self, number: u32, why: Refusal) {
        let Some(proxy) = self.roles.commits.get_mut(number as usize) else {
            return;
        };
        proxy.unissued();
        let done = match why {
            Refusal::NoMemory | Refusal::Taken => Err(why),
            Refusal::BookFull => match self.roles.sequencer.granted() {
                Ok(granted) => proxy.refuse_all(Refusal::BookFull, Some(granted)),
                Err(why) => proxy.refuse_all(why, None),
            },
            why => proxy.refuse_all(why, None),
        };
        if done.is_err() {
            self.fail(number);
        }
    }

    // A proxy learns its batch's entry.
    fn take_issued(&mut self) {
        let drawn = self.draw(u32::MAX);
        let Some(sent) = self.pools.issued.take(drawn) else {
            return;
        };
        self.count_act();
        let number = sent.number;
        let Some(proxy) = self.roles.commits.get_mut(number as usize) else {
            return;
        };
        if proxy.issued(sent.message).is_err() {
            self.fail(number);
        }
    }

    // A part comes to its resolver, unless a proxy failed.
    fn take_part(&mut self) {
        let drawn = self.draw(u32::MAX);
        if self.has_hole {
            return;
        }
        let Some(sent) = self.pools.parts.take(drawn) else {
            return;
        };
        self.count_act();
        let proxy = sent.number;
        let message = sent.message;
        let number = message.resolver();
        let Some(resolver) = self.roles.resolvers.get_mut(number as usize) else {
            return;
        };
        if resolver.take(SentPart { proxy, message }).is_err() {
            self.has_hole = true;
        }
    }

    // A resolver's verdicts come to their proxy.
    fn take_verdict(&mut self) {
        let drawn = self.draw(u32::MAX);
        let Some(sent) = self.pools.verdicts.take(drawn) else {
            return;
        };
        self.count_act();
        let number = sent.number;
        let Some(proxy) = self.roles.commits.get_mut(number as usize) else {
            return;
        };
        match proxy.verdict(sent.message) {
            Ok(()) | Err(Refusal::Stale) => {}
            Err(_why) => self.fail(number),
        }
    }

    // A log takes a message, in its turn.
    fn push_message(&mut self) -> Result<(), AllocError> {
        let drawn = self.draw(u32::MAX);
        let Some(sent) = self.pools.messages.take(drawn) else {
            return Ok(());
        };
        let number = sent.number;
        let message = sent.message;
        let Some(log) = self.roles.logs.get_mut(message.log() as usize) else {
            return Ok(());
        };
        if log.is_before(message.prev()) {
            return self.pools.messages.put(number, message);
        }
        Tally::add(&mut self.told.tally.acts);
        let pushed = log.push(&message);
        if self.comes_again() {
            self.pools.messages.put(number, message)?;
        } else {
            drop(message);
        }
        match pushed {
            Ok(acknowledgement) => self.pools.acknowledgements.put(number, acknowledgement),
            Err(Refusal::Stale) => Ok(()),
            Err(_why) => {
                self.fail(number);
                Ok(())
            }
        }
    }

    // Whether a message that may be sent again is: now and then, until the play is over.
    fn comes_again(&mut self) -> bool {
        let is_due = self.draw(16) == 0;
        is_due && !self.is_over
    }

    // A log's acknowledgement comes to its proxy.
    fn take_acknowledgement(&mut self) -> Result<(), AllocError> {
        let drawn = self.draw(u32::MAX);
        let Some(sent) = self.pools.acknowledgements.take(drawn) else {
            return Ok(());
        };
        self.count_act();
        let number = sent.number;
        let Some(proxy) = self.roles.commits.get_mut(number as usize) else {
            return Ok(());
        };
        match proxy.logged(&sent.message) {
            Ok(()) | Err(Refusal::Stale) => {}
            Err(_why) => self.fail(number),
        }
        if self.comes_again() {
            return self.pools.acknowledgements.put(number, sent.message);
        }
        Ok(())
    }

    // The sequencer takes a report.
    fn report(&mut self) -> Result<(), AllocError> {
        let drawn = self.draw(u32::MAX);
        let Some(sent) = self.pools.logged.take(drawn) else {
            return Ok(());
        };
        self.count_act();
        let number = sent.number;
        match self.roles.sequencer.report(sent.message) {
            Ok(reported) => self.pools.reported.put(number, reported),
            Err(_why) => {
                self.fail(number);
                Ok(())
            }
        }
    }

    // A proxy comes to know that its batch is reported.
    fn take_reported(&mut self) {
        let drawn = self.draw(u32::MAX);
        let Some(sent) = self.pools.reported.take(drawn) else {
            return;
        };
        self.count_act();
        let number = sent.number;
        let Some(proxy) = self.roles.commits.get_mut(number as usize) else {
            return;
        };
        if proxy.reported(&sent.message).is_err() {
            self.fail(number);
        }
    }

    // A client is told its read version.
    fn take_grant(&mut self) {
        let drawn = self.draw(u32::MAX);
        let Some(sent) = self.pools.grants.take(drawn) else {
            return;
        };
        let number = sent.number;
        match sent.message {
            GrantReply::Granted(granted) => self.begin(number, granted),
            GrantReply::Refused(_why) => {
                Tally::add(&mut self.told.tally.refused);
                self.wish(number, Wish::Begin);
            }
        }
    }

    // It begins, and reads first, or only writes.
    fn begin(&mut self, number: u32, granted: GrantMessage<Open<B>>) {
        let reads = self.draw(4) > 0;
        let Some(player) = self.players.get_mut(number as usize) else {
            return drop(granted);
        };
        let seen = player.seen;
        let begun = player.client.begin(self.alloc, &granted);
        drop(granted);
        match begun {
            Ok(version) => {
                if version < seen {
                    Tally::add(&mut self.told.tally.early);
                }
                self.wish(number, if reads { Wish::Read } else { Wish::Write });
            }
            Err(_why) => {
                Tally::add(&mut self.told.tally.refused);
                self.wish(number, Wish::Begin);
            }
        }
    }

    // A client is told what became of its transaction.
    fn take_outcome(&mut self) {
        let drawn = self.draw(u32::MAX);
        let Some(sent) = self.pools.outcomes.take(drawn) else {
            return;
        };
        let number = sent.number;
        self.settle(number, sent.message);
    }

    /// A client's transaction ends by what it is told.
    pub(crate) fn settle(&mut self, number: u32, told: CommitReply<Open<B>>) {
        let Some(player) = self.players.get_mut(number as usize) else {
            return drop(told);
        };
        match player.client.settle(self.alloc, self.cells.limit, told) {
            Ok(receipt) => self.note_receipt(number, receipt),
            Err(refused) => self.note_refused(number, refused),
        }
    }

    /// A client's transaction is acknowledged, of which another client may learn.
    pub(crate) fn note_receipt(&mut self, number: u32, receipt: Receipt<Open<B>>) {
        self.tell_another(&receipt);
        let version = version_of(receipt.spot());
        self.told.greatest = self.told.greatest.max(version);
        Tally::add(&mut self.told.tally.acknowledged);
        let kept = self.told.placed.push(receipt.into_placed());
        self.told.lacks_memory = self.told.lacks_memory || kept.is_err();
        self.wish(number, Wish::Begin);
    }

    // A client that is drawn learns of the receipt, now and then, unless it waits for an answer.
    fn tell_another(&mut self, receipt: &Receipt<Open<B>>) {
        let is_due = self.draw(8) == 0;
        let count = count_of(self.players.len());
        let drawn = self.draw(count);
        if !is_due {
            return;
        }
        if let Some(player) = self.players.get_mut(drawn as usize) {
            let _ = player.client.learn(receipt);
        }
    }

    /// A client's transaction is refused.
    pub(crate) fn note_refused(
        &mut self,
        number: u32,
        refused: Refused<Option<(Transcript, RangeSet)>>,
    ) {
        let Refused { why, back } = refused;
        let id = back.as_ref().map(|(transcript, _)| id_of(transcript.id));
        drop(back);
        match why {
            Refusal::NotCommitted | Refusal::TransactionTooOld => {
                Tally::add(&mut self.told.tally.turned_down);
            }
            Refusal::CommitUnknownResult => Tally::add(&mut self.told.tally.unknown),
            _ => self.note_absent(id),
        }
        self.wish_after_refusal(number);
    }

    /// Whether the client has an open transaction.
    pub(crate) fn is_open(&self, number: u32) -> bool {
        match self.players.get(number as usize) {
            Some(player) => player.client.read_version().is_some(),
            None => false,
        }
    }

    // A client whose transaction is open again commits it once more, and any other begins another one.
    fn wish_after_refusal(&mut self, number: u32) {
        let wish = if self.is_open(number) {
            Wish::Commit
        } else {
            Wish::Begin
        };
        self.wish(number, wish);
    }

    // A transaction is refused as having no effect, of which that is the id if it was finished.
    fn note_absent(&mut self, id: Option<u128>) {
        Tally::add(&mut self.told.tally.refused);
        if let Some(id) = id {
            let kept = self.told.absent.push(id);
            self.told.lacks_memory = self.told.lacks_memory || kept.is_err();
        }
    }
}
