// Whether a message is in its turn.
ghost use Rattle.std.specs.Prelude.{◌≡◌, ⊤};
ghost use Rattle.fdb_keys.specs.Answers.{AnswersExactly};
ghost use Rattle.fdb_txn.specs.Turn.{turn_fault};

use fdb_keys::Refusal;

/// Whether a message that comes after the version `prev` is in its turn for a role whose last version is `last`.
/// Refused as `Stale` where `prev` lies below `last`, and as `NotYet` with `prev` where it lies above.
pub fn check_turn(last: u64, prev: u64) -> Result<(), Refusal>
    ensures { AnswersExactly result (turn_fault last prev) (λ _. ⊤) }
{
    if prev < last {
        return Err(Refusal::Stale);
    }
    if last < prev {
        return Err(Refusal::NotYet(prev));
    }
    Ok(())
}
