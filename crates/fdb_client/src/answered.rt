// What a transcript was answered, beside a map.
ghost use Rattle.std.specs.Prelude.{◌≡◌, ◌↔◌, true, List, IsTrue, None};
ghost use Rattle.std.specs.Option.{option_copied};
ghost use Rattle.fdb_keys.specs.Answers.{Answers};
ghost use Rattle.fdb_client.specs.ProgramLaws.{is_ordinary, AgreeWhereOrdinary};
ghost use Rattle.fdb_client.specs.Programs.{program, replies_of, exec, copy, reply_on};
ghost use Rattle.fdb_client.specs.TxnState.{AreWritesOf};
ghost use Rattle.fdb_client.specs.declared.program.Op.{Op as Operation};

use crate::buffering::buffer;
use crate::conflict_set::ConflictSet;
use crate::own_writes::OwnWrites;
use crate::plain_snapshot::PlainSnapshot;
use crate::program::{Op, Reply, Transcript, is_ordinary_read};
use crate::range_read::pairs_of;
use crate::reading::value_of;
use bytes::Bytes;
use fdb_keys::{Items, Key, Refusal};
use fdb_mutations::PlainMap;
use std::alloc::Global;

// What the first operations write, so that a later read is answered without going over them again.
#[derive(Drop)]
struct Written {
    alloc: Global,
    own: OwnWrites,
    writes: ConflictSet,
}

impl Written {
    ghost use Rattle.std.specs.Prelude.{◌≡◌, ◌↔◌, true, List, [], ◌∷◌, ◌++◌, IsTrue, None};
    ghost use Rattle.fdb_keys.specs.Answers.{Answers};
    ghost use Rattle.fdb_client.specs.ProgramLaws.{is_ordinary};
    ghost use Rattle.fdb_client.specs.Programs.{program, copy, reply_on};
    ghost use Rattle.fdb_client.specs.TxnState.{AreWritesOf};
    ghost use Rattle.fdb_client.specs.declared.program.Op.{Op as Operation};
    ghost use Rattle.fdb_client.specs.declared.program.Reply.{Reply as Answer};

    // No operation yet.
    fn new(alloc: Global) -> Self
        ensures { AreWritesOf [] result.own result.writes }
    {
        Written {
            alloc,
            own: OwnWrites::new(alloc),
            writes: ConflictSet::new(alloc),
        }
    }

    // One operation more.
    fn add(&mut self, op: &Op) -> Result<(), Refusal>
        requires { (earlier : List Operation) × AreWritesOf earlier self.old.own self.old.writes }
        ensures { (earlier : List Operation) → AreWritesOf earlier self.old.own self.old.writes
            → Answers result None (λ _. AreWritesOf (op.now ∷ earlier) self.new.own self.new.writes) }
    {
        match op {
            Op::Write(mutation) => { buffer(self.alloc, &mut self.own, &mut self.writes, mutation) }
            Op::AddWrite(range) => self.writes.add(range),
            Op::Get { .. } | Op::Range { .. } | Op::AddRead(_) => Ok(()),
        }
    }

    // The operations that follow.
    fn add_all(&mut self, ops: &[(Op, Reply)]) -> Result<(), Refusal>
        requires { (earlier : List (Operation × Answer)) × AreWritesOf (program earlier) self.old.own self.old.writes }
        ensures { (earlier : List (Operation × Answer)) → AreWritesOf (program earlier) self.old.own self.old.writes
            → Answers result None (λ _. AreWritesOf (program (earlier ++ ops.now)) self.new.own self.new.writes) }
    {
        for (op, _) in ops {
            self.add(op)?;
        }
        Ok(())
    }

    // Whether the operation, if it is an ordinary one, was answered as on the map after those so far.
    fn is_answered(&self, snapshot: &PlainSnapshot, op: &Op, reply: &Reply) -> Result<bool, Refusal>
        requires { (earlier : List Operation) × AreWritesOf earlier self.now.own self.now.writes }
        ensures { (earlier : List Operation) → AreWritesOf earlier self.now.own self.now.writes
            → Answers result None (λ answered. IsTrue answered ↔ (is_ordinary op.now ≡ true
            → reply.now ≡ reply_on (copy snapshot.now.map.now earlier) op.now)) }
    {
        match op {
            Op::Get {
                key,
                snapshot: false,
            } => {
                let (value, _is_decided) = value_of(self.alloc, &self.own, snapshot, key)?;
                Ok(is_value(reply, value.as_ref()))
            }
            Op::Range {
                range,
                limit,
                reverse,
                snapshot: false,
            } => {
                let pairs = pairs_of(self.alloc, &self.own, snapshot, range, *limit, *reverse)?;
                Ok(is_pairs(reply, &pairs))
            }
            Op::Get { .. } | Op::Range { .. } => Ok(true),
            Op::Write(_) | Op::AddRead(_) | Op::AddWrite(_) => Ok(matches!(reply, Reply::Done)),
        }
    }
}

fn is_value(reply: &Reply, value: Option<&Bytes>) -> bool
    ensures { IsTrue result ↔ (reply.now ≡ Reply.Value (option_copied value.entry)) }
{
    match reply {
        Reply::Value(told) => told.as_ref() == value,
        Reply::Pairs(_) | Reply::Done => false,
    }
}

fn is_pairs(reply: &Reply, pairs: &Items<(Key, Bytes)>) -> bool
    ensures { IsTrue result ↔ (reply.now ≡ Reply.Pairs pairs.now) }
{
    match reply {
        Reply::Pairs(told) => told == pairs,
        Reply::Value(_) | Reply::Done => false,
    }
}

/// Whether each ordinary operation of the transcript was answered as its program, run from its first operation on a
/// copy of the map, answers it there. What snapshot reads were answered doesn't matter. Refused only as `NoMemory`. It
/// takes at most what a transaction takes for the same operations: for each O(log n) comparisons of keys for n
/// operations and as many for the map, and what a read of a range gives and skips. An operation after the last ordinary
/// read takes O(1) time.
pub fn is_answered_on(
    alloc: Global,
    map: &PlainMap,
    transcript: &Transcript,
) -> Result<bool, Refusal>
    ensures { Answers result None (λ answered. IsTrue answered
        ↔ (AgreeWhereOrdinary (program transcript.now.ops) (replies_of transcript.now.ops)
        (exec map.now (program transcript.now.ops)))) }
{
    let snapshot = PlainSnapshot {
        version: transcript.read_version,
        map,
    };
    let ops = transcript.ops.as_slice();
    let mut written = Written::new(alloc);
    // Only a read asks what was written, so the operations before it are added once it comes.
    let mut added = 0;
    for (number, (op, reply)) in ops.iter().enumerate() {
        if is_ordinary_read(op) {
            written.add_all(&ops[added..number])?;
            added = number;
        }
        if !written.is_answered(&snapshot, op, reply)? {
            return Ok(false);
        }
    }
    Ok(true)
}
