// What a session's open transaction reads.
ghost use Rattle.std.specs.Prelude.{◌≡◌, OnErr};
ghost use Rattle.fdb_keys.specs.Answers.{Answers};
ghost use Rattle.fdb_client.specs.TxnState.{with_op};
ghost use Rattle.fdb_client.specs.Programs.{program, copy, reply_on};
ghost use Rattle.fdb_machine.specs.machine.ClientSteps.{answered_by};
ghost use Rattle.fdb_core.specs.refinement.client.Reading.{operation_of, call_fault};

use fdb_client::{Snapshot, Txn};
use fdb_keys::{Key, KeyRange, Refusal};
use fdb_machine::Answered;

/// What is read: a key, or the first pairs of a range, or the last ones from its end, at most as many as the limit
/// where that isn't 0.
#[derive(Clone, Copy)]
pub(crate) enum Read<'a> {
    Key(&'a Key),
    Range {
        range: &'a KeyRange,
        limit: u32,
        reverse: bool,
    },
}

/// The transaction reads, as `Txn::get` and `Txn::get_range` do, and is refused as they are. A refused read changes
/// nothing.
pub(crate) fn read_by<S: Snapshot>(
    txn: &mut Txn,
    snapshot: &S,
    read: Read<'_>,
    is_snapshot: bool,
) -> Result<Answered, Refusal>
    requires { S.at snapshot.now ≡ txn.old.read_version }
    ensures answers { let earlier = program txn.old.ops in let operation = operation_of read.entry is_snapshot in
        let reply = reply_on (copy (S.map snapshot.now) earlier) operation in
        Answers result
        (call_fault result (S.key_fault snapshot.now) (S.range_fault snapshot.now) (S.map snapshot.now) earlier
        operation)
        (λ given. (given ≡ answered_by reply) × (txn.new ≡ with_op txn.old operation reply)) }
    ensures err { OnErr result (txn.new ≡ txn.old) }
{
    match read {
        Read::Key(key) => {
            let value = txn.get(snapshot, key, is_snapshot)?;
            Ok(Answered::Value(value))
        }
        Read::Range {
            range,
            limit,
            reverse,
        } => {
            let pairs = txn.get_range(snapshot, range, limit, reverse, is_snapshot)?;
            Ok(Answered::Pairs(pairs))
        }
    }
}
