// A read-version proxy that runs: who waits for a version, and the answers that are ready.
ghost use Rattle.std.specs.Prelude.{◌≡◌, ◌⊎◌, ◌-◌, ◌++◌, [], ◌∷◌, nat_lt, length, drop, None, OnOk, OnErr, OnSome};
ghost use Rattle.std.specs.Prelude.{IfErr};
ghost use Rattle.std.specs.Prelude.{IfOk, IfSome, IfNone};
ghost use Rattle.fdb_keys.specs.declared.refusal.Refusal.TheVariants.{NoMemory};
ghost use Rattle.fdb_sections.specs.declared.messages.reply.GrantReply.TheVariants as reply;
ghost use Rattle.fdb_sections.specs.ReadVersionMachines.{granting, IsTold};

use crate::messages::reply::GrantReply;
use crate::name::DatabaseName;
use crate::roles::sequencer::GrantMessage;
use fdb_keys::{Refusal, Refused};
use fdb_proxy::GrvCore;
use std::alloc::Global;
use std::collections::VecDeque;
use std::marker::Model;

/// A read-version proxy beside who waits for its answers, in the order of asking.
#[derive(Drop)]
pub struct ReadVersionMachine<B: DatabaseName, W> {
    state: GrvCore,
    waiting: VecDeque<W>,
    // What the first who wait are told, and how many they are. Who asked later waits for another grant, since a version
    // may have been reported in between.
    answer: Option<GrantReply<B>>,
    granted: usize,
}

impl<B: DatabaseName, W> Model for ReadVersionMachine<B, W> {
    ghost use Rattle.fdb_sections.specs.ReadVersionMachines.{ReadVersionMachine as Seen};

    ghost Value = { Seen B W };

    ghost view = { λ it. record { waiting = it.waiting.items; answer = it.answer; granted = it.granted } };
}

impl<B: DatabaseName, W: Drop> ReadVersionMachine<B, W> {
    /// A proxy that nobody has asked. It takes no memory, and O(1) time.
    pub fn new(alloc: Global) -> Self
        ensures { result ≡ record { waiting = []; answer = None; granted = 0 } }
    {
        ReadVersionMachine {
            state: GrvCore::new(alloc),
            waiting: VecDeque::new(alloc),
            answer: None,
            granted: 0,
        }
    }

    /// Takes a session's request for a read version that isn't below its mark, of who waits for its answer after all
    /// others. Refused only as `NoMemory`; then who asks is handed back, and nobody else waits than before. It takes
    /// O(1) time but for growth.
    pub fn ask(&mut self, session: u32, mark: u64, who: W) -> Result<(), Refused<W>>
        ensures taken { OnOk result (self.new
            ≡ record self.old { waiting = self.old.waiting ++ who ∷ [] }) }
        ensures refused { OnErr result (self.new ≡ self.old) }
        ensures back { IfErr result (λ refused. (refused.back ≡ who) × (refused.why ≡ NoMemory)) }
    {
        if self.waiting.reserve(1).is_err() || self.state.ask(session, mark).is_err() {
            return Err(Refused {
                why: Refusal::NoMemory,
                back: who,
            });
        }
        match self.waiting.push_back(who) {
            Ok(()) => Ok(()),
            Err(_full) => unreachable!(),
        }
    }

    /// Takes what the sequencer granted, or why it didn't: the answers of all who wait are ready. It takes no memory,
    /// and O(n) time for the n who wait.
    pub fn granted(&mut self, granted: Result<GrantMessage<B>, Refusal>)
        ensures version { IfOk granted (λ granted. self.new ≡ granting self.old (reply.Granted granted)) }
        ensures refused { IfErr granted (λ why. self.new ≡ granting self.old (reply.Refused why)) }
    {
        self.granted = self.waiting.len();
        self.answer = Some(match granted {
            Ok(granted) => {
                drop(self.state.grant(granted.committed()));
                GrantReply::Granted(granted)
            }
            Err(why) => {
                drop(self.state.grant(0));
                GrantReply::Refused(why)
            }
        });
    }

    /// Whether somebody waits for whom no version was granted yet. It takes no memory, and O(1) time.
    pub fn waits(&self) -> bool
        ensures { result ≡ nat_lt self.now.granted (length self.now.waiting) }
    {
        self.granted < self.waiting.len()
    }

    /// Who waits first with the answer, if one is ready. It takes O(1) time, and no memory but for a share of a front;
    /// where that lacks memory, who waits is told of that.
    pub fn ready(&mut self) -> Option<(W, GrantReply<B>)>
        ensures first { IfSome result (λ told. self.old.waiting ≡ told.0 ∷ self.new.waiting) }
        ensures answer { IfSome result (λ told. IsTold self.old.answer told.1) }
        ensures counted { OnSome result (self.new
            ≡ record self.old { waiting = drop 1 self.old.waiting; granted = self.old.granted - 1 }) }
        ensures none { IfNone result ((self.new ≡ self.old) × ((self.old.granted ≡ 0) ⊎ (self.old.waiting ≡ []))) }
    {
        if self.granted == 0 {
            return None;
        }
        let who = self.waiting.pop_front()?;
        self.granted -= 1;
        Some((who, self.reply()))
    }

    // What who waits first is told.
    fn reply(&self) -> GrantReply<B>
        ensures { IsTold self.now.answer result }
    {
        match &self.answer {
            Some(GrantReply::Granted(granted)) => match granted.share() {
                Ok(granted) => GrantReply::Granted(granted),
                Err(why) => GrantReply::Refused(why),
            },
            Some(GrantReply::Refused(why)) => GrantReply::Refused(*why),
            None => GrantReply::Refused(Refusal::Failed),
        }
    }
}
