// A resolver that runs: parts that wait for those before them, and the verdicts that are ready.
ghost use Rattle.std.specs.Prelude.{◌≡◌, None, Ok, IfErr, IfSome, OnOk};
ghost use Rattle.std.specs.FinMap.{empty};
ghost use Rattle.std.specs.Option.{option_map};
ghost use Rattle.fdb_keys.specs.declared.refusal.Refusal.TheVariants.{NoMemory};
ghost use Rattle.fdb_txn.specs.book.Book.{last_version};
ghost use Rattle.fdb_sections.specs.declared.machines.resolver.SentPart.{SentPart as ASentPart};
ghost use Rattle.fdb_sections.specs.ResolverMachines.{keeping, finding, TakesTurn};

use crate::messages::part_message::PartMessage;
use crate::messages::verdict_message::VerdictMessage;
use crate::name::DatabaseName;
use crate::roles::resolver::ResolverAt;
use fdb_keys::Refusal;
use fdb_txn::Room;
use std::alloc::Global;

/// A part, with the number of the commit proxy that sends it.
#[derive(Drop)]
pub struct SentPart<B: DatabaseName> {
    /// The number of the commit proxy.
    pub proxy: u32,
    /// The part.
    pub message: PartMessage<B>,
}

/// Verdicts, with the number of the commit proxy that they are for.
#[derive(Drop)]
pub struct SentVerdicts<B: DatabaseName> {
    /// The number of the commit proxy.
    pub proxy: u32,
    /// The verdicts.
    pub message: VerdictMessage<B>,
}

/// A resolver beside the parts that came, of which the one whose turn it is stands by itself.
#[derive(Drop)]
pub struct ResolverMachine<B: DatabaseName> {
    at: ResolverAt<B>,
    early: Room<SentPart<B>>,
    turn: Option<SentPart<B>>,
}

impl<B: DatabaseName> ResolverMachine<B> {
    /// The resolver, to which no part came. It takes no memory, and O(1) time.
    pub fn new(alloc: Global, at: ResolverAt<B>) -> Self
        ensures { result ≡ record { at = at; early = empty; turn = None } }
    {
        ResolverMachine {
            at,
            early: Room::new(alloc),
            turn: None,
        }
    }

    /// Takes a part, which waits until its turn comes. One that comes again is dropped. Refused only as `NoMemory`, and
    /// then the resolver can't go on, as the part is lost. It takes O(log n) time for n parts that wait, and no memory
    /// where its turn has come.
    pub fn take(&mut self, sent: SentPart<B>) -> Result<(), Refusal>
        ensures taken { OnOk result (self.new ≡ finding (keeping self.old sent)) }
        ensures refused { IfErr result (λ why. why ≡ NoMemory) }
    {
        if self.turn.is_none() && sent.message.prev() == self.at.version() {
            self.begin_turn(sent);
            return Ok(());
        }
        self.keep(sent)?;
        self.find_turn();
        Ok(())
    }

    // It is the turn of the part, and no other turn was found: so it isn't put where parts wait, but is dropped if one
    // with the same number waits there.
    fn begin_turn(&mut self, sent: SentPart<B>)
        requires none { self.old.turn ≡ None }
        requires comes { sent.message.part.prev ≡ last_version self.old.at.front }
        ensures { self.new ≡ finding (keeping self.old sent) }
    {
        let first = self.early.ready(self.at.version()).unwrap_or(sent);
        self.turn = Some(first);
    }

    // Keeps the part until its turn comes. One that comes again is dropped.
    fn keep(&mut self, sent: SentPart<B>) -> Result<(), Refusal>
        ensures kept { OnOk result (self.new ≡ keeping self.old sent) }
        ensures refused { IfErr result (λ why. why ≡ NoMemory) }
    {
        let prev = sent.message.prev();
        let Err(refused) = self.early.put(prev, sent) else {
            return Ok(());
        };
        match Refusal::from(refused) {
            Refusal::Stale => Ok(()),
            why => Err(why),
        }
    }

    // Finds the part whose turn it is, where none is found already.
    fn find_turn(&mut self)
        ensures { self.new ≡ finding self.old }
    {
        if self.turn.is_none() {
            self.turn = self.early.ready(self.at.version());
        }
    }

    /// The number of the entry whose part's turn it is, if that came. It takes no memory, and O(1) time.
    pub fn next(&self) -> Option<u32>
        ensures { result ≡ option_map (λ (sent : ASentPart B). sent.message.part.index) self.now.turn }
    {
        match &self.turn {
            Some(sent) => Some(sent.message.entry()),
            None => None,
        }
    }

    /// Takes the part whose turn it is into account, and gives the verdicts on it, if it came. Refused as
    /// `ResolverAt::take` refuses it; then the resolver can't go on. It takes what that takes, and O(log n) for n parts
    /// that wait.
    pub fn ready(&mut self) -> Result<Option<SentVerdicts<B>>, Refusal>
        ensures none { self.old.turn ≡ None → (result ≡ Ok None) × (self.new ≡ self.old) }
        ensures turn { IfSome self.old.turn (λ sent. TakesTurn self.old sent result self.new) }
    {
        let Some(sent) = self.turn.take() else {
            return Ok(None);
        };
        let verdicts = self.at.take(&sent.message);
        let proxy = sent.proxy;
        drop(sent);
        let message = verdicts?;
        self.find_turn();
        Ok(Some(SentVerdicts { proxy, message }))
    }
}
