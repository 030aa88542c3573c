// What the clients of a batch are told.
ghost use Rattle.std.specs.Prelude.{◌≡◌, ◌+◌, ◌<◌, ◌≤◌, true, [], ◌∷◌, ◌++◌, length, map, vec_len, vec_capacity};
ghost use Rattle.fdb_txn.specs.declared.txn_id.TxnId.{TxnId};
ghost use Rattle.fdb_proxy.specs.declared.outcome.Outcome.{Outcome};
ghost use Rattle.fdb_machine.specs.machine.CommitProxySteps.{placed_from};
ghost use Rattle.fdb_machine.specs.machine.Sessions.{tell_all};
ghost use Rattle.fdb_machine.specs.machine.Acting.{HaveActed};

use crate::roles::client::sessions::Sessions;
use fdb_client::Transcript;
use fdb_keys::Items;
use fdb_proxy::Outcome;
use fdb_roles::Placed;
use fdb_txn::{Spot, TxnId};

/// What each client is told, with its session. There is room for all of it.
pub(crate) fn reply_all(told: &mut Vec<(u32, Outcome)>, answers: &[(TxnId, Outcome)])
    requires { vec_len told.old + length answers.now ≤ vec_capacity told.old }
    ensures { told.new.items
        ≡ told.old.items ++ map (λ (of : TxnId × Outcome). (of.0.session, of.1)) answers.now }
{
    for (id, outcome) in answers {
        told.push_reserved((id.session, *outcome));
    }
}

fn place(placed: &mut Vec<Placed>, index: u32, transcript: Transcript, outcome: Outcome)
    requires { vec_len placed.old < vec_capacity placed.old }
    ensures items { placed.new.items
        ≡ placed.old.items ++ placed_from index (transcript ∷ []) (outcome ∷ []) }
    ensures len { vec_len placed.new ≤ vec_len placed.old + 1 }
    ensures capacity { vec_capacity placed.new ≡ vec_capacity placed.old }
{
    if let Outcome::Commit { version, place } = outcome {
        let spot = Spot::Entry {
            index,
            place,
            version,
        };
        placed.push_reserved(Placed { spot, transcript });
    }
}

/// Acknowledges those of the batch that are committed, each at its spot. There is room for all of the batch.
pub(crate) fn place_all(
    placed: &mut Vec<Placed>,
    index: u32,
    transcripts: Items<Transcript>,
    answers: &[(TxnId, Outcome)],
)
    requires each { length transcripts ≡ length answers.now }
    requires room { vec_len placed.old + length transcripts ≤ vec_capacity placed.old }
    ensures { placed.new.items ≡ placed.old.items
        ++ placed_from index transcripts (map (λ (of : TxnId × Outcome). of.1) answers.now) }
{
    for (at, transcript) in transcripts.into_vec().into_iter().enumerate() {
        place(placed, index, transcript, answers[at].1);
    }
}

/// The sessions of the batch have no transaction any more. Each of them did something before.
pub(crate) fn tell_all(sessions: &mut Sessions, transcripts: &[Transcript])
    requires { HaveActed sessions.old transcripts.now }
    ensures { sessions.new ≡ tell_all transcripts.now sessions.old }
{
    for transcript in transcripts {
        sessions.tell(transcript);
    }
}
