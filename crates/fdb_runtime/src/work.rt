//! Work that a session runs as a transaction, and tries anew.
ghost use Rattle.std.specs.Prelude.{◌≡◌, ◌⊎◌, ⊤, suc, max, true, false, None, IfOk, IfErr, IfSome, OnOk};
ghost use Rattle.fdb_client.specs.declared.program.Transcript.{Transcript as ATranscript};
ghost use Rattle.fdb_sections.specs.Refusals.{is_of_begin};
ghost use Rattle.fdb_sections.specs.Sessions.{with_current};
ghost use Rattle.fdb_runtime.specs.Works.{HasCommitted, HasGivenUp, HasTried, IsSameSession, IsStillOpen, IsUntouched};
ghost use Rattle.fdb_runtime.specs.Works.{is_tried_anew};

use crate::session::Session;
use fdb_keys::Refusal;
use fdb_roles::Layer;
use fdb_sections::{ClusterName, Layered, Receipt};
use std::alloc::Global;
use std::sync::Wait;

/// What one transaction does.
pub trait Work<B: ClusterName, L: Layer> {
    /// What the work is asked to do, as against what its runs find out.
    ghost Task: { Type 0 };

    /// What it is asked to do, which no run changes.
    ghost task: { Self → Task };

    /// What the transcript of a run that isn't refused is like, said of the work as the run leaves it.
    ghost does: { Self → ATranscript → Type 0 };

    /// Reads and writes in the session's open transaction, which has done nothing yet, as the layer allows, and leaves
    /// that one open. It is run once more where that is tried anew, from its beginning. What it is refused ends the
    /// transaction, which then has no effect.
    fn run<R: Wait>(
        &mut self,
        rt: &R,
        alloc: Global,
        session: &mut Session<Layered<B, L>>,
    ) -> Result<(), Refusal>
        requires begun { IsUntouched session.old.current }
        ensures kept { task self.new ≡ task self.old }
        ensures same { IsSameSession session.old session.new }
        ensures open { OnOk result (IsStillOpen session.old.current session.new.current) }
        ensures allowed { OnOk result (IfSome session.new.current L.allows) }
        ensures done { OnOk result (IfSome session.new.current (does self.new)) };
}

/// How often work is tried.
#[derive(Clone, Copy, Debug, PartialEq, Eq)]
pub struct Tries {
    /// How often at the most. It is tried once at least.
    pub most: u32,
    /// Whether the work finds out by itself that an earlier try was committed, as by a key that each try reads first
    /// and then sets. Then it is tried anew also where it isn't known whether a try was committed.
    pub finds_out: bool,
}

impl Tries {
    /// So often at the most, by work that doesn't find out whether an earlier try was committed.
    pub fn at_most(most: u32) -> Self
        ensures { result ≡ record { most = most; finds_out = false } }
    {
        Tries {
            most,
            finds_out: false,
        }
    }

    /// The same by work that does.
    pub fn finding_out(self) -> Self
        ensures { result ≡ record self { finds_out = true } }
    {
        Tries {
            finds_out: true,
            ..self
        }
    }

    // Whether what is refused so is tried anew.
    fn goes_on(&self, why: Refusal) -> bool
        ensures { result ≡ is_tried_anew self.now.finds_out why }
    {
        why.is_retryable() || self.finds_out && why.is_maybe_committed()
    }
}

impl<B: ClusterName, L: Layer> Session<Layered<B, L>> {
    /// Runs the work in a transaction of its own, commits that, and gives its receipt. Where it is refused as
    /// `NotCommitted`, `TransactionTooOld` or `FutureVersion`, be it at the commit or in the work, it is tried anew in
    /// another one, as long as it wasn't tried so often as `tries` says. One that was open is abandoned, and none is
    /// open afterwards.
    ///
    /// A receipt is that of the last try's transaction, whose transcript is such as the work says of itself; no other
    /// try has any effect, but for those of which that isn't known. Whatever comes of it, the work is asked to do what
    /// it was.
    ///
    /// Refused as the work is, and as `begin` and as `commit` are. After `CommitUnknownResult` the last try may have
    /// been committed or not: it is handed out at once, or tried anew by work that finds out by itself. After every
    /// other refusal no try has any effect, but for those. It takes the time of its tries.
    pub fn transact<W: Work<B, L>, R: Wait>(
        &mut self,
        rt: &R,
        alloc: Global,
        tries: Tries,
        work: &mut W,
    ) -> Result<Receipt<Layered<B, L>>, Refusal>
        ensures kept { W.task work.new ≡ W.task work.old }
        ensures tried { HasTried (max 1 tries.most) self.old self.new }
        ensures receipt { IfOk result (λ receipt. HasCommitted (W.does work.new) self.old receipt self.new) }
        ensures refused { IfErr result (λ why.
            HasGivenUp (max 1 tries.most) tries.finds_out self.old why self.new) }
    {
        for _tried in 1..tries.most {
            match self.run_once(rt, alloc, work) {
                Err(why) if tries.goes_on(why) => {}
                answer => return answer,
            }
        }
        self.run_once(rt, alloc, work)
    }

    // Runs the work once, and leaves nothing open.
    fn run_once<W: Work<B, L>, R: Wait>(
        &mut self,
        rt: &R,
        alloc: Global,
        work: &mut W,
    ) -> Result<Receipt<Layered<B, L>>, Refusal>
        ensures kept { W.task work.new ≡ W.task work.old }
        ensures tried { HasTried 1 self.old self.new }
        ensures receipt { IfOk result (λ receipt. HasCommitted (W.does work.new) self.old receipt self.new) }
        ensures refused { IfErr result (λ why.
            ((self.new.next_number ≡ self.old.next_number) × (is_of_begin why ≡ true))
            ⊎ (self.new.next_number ≡ suc self.old.next_number)) }
    {
        self.abandon();
        self.begin(rt, alloc)?;
        let answer = self.run_and_commit(rt, alloc, work);
        self.abandon();
        answer
    }

    // Runs the work in the open transaction, and commits that, where what is refused may be left open.
    fn run_and_commit<W: Work<B, L>, R: Wait>(
        &mut self,
        rt: &R,
        alloc: Global,
        work: &mut W,
    ) -> Result<Receipt<Layered<B, L>>, Refusal>
        requires begun { IsUntouched self.old.current }
        ensures kept { W.task work.new ≡ W.task work.old }
        ensures same { IsSameSession self.old self.new }
        ensures receipt { IfOk result (λ receipt. (IfSome self.old.current (λ transcript.
            receipt.transcript.id ≡ transcript.id)) × (W.does work.new receipt.transcript)
            × (self.new.front ≡ receipt.front)) }
    {
        work.run(rt, alloc, self)?;
        let receipt = self.commit(rt, alloc)?;
        Ok(receipt)
    }
}
