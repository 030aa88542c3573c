// What a session's open transaction notes without a reply.
ghost use Rattle.std.specs.Prelude.{◌≡◌, OnErr};
ghost use Rattle.fdb_keys.specs.Answers.{Answers};
ghost use Rattle.fdb_client.specs.TxnState.{with_op};
ghost use Rattle.fdb_client.specs.declared.program.Reply.TheVariants as answer;
ghost use Rattle.fdb_core.specs.refinement.client.Noting.{noted_as, note_fault};

use fdb_client::Txn;
use fdb_keys::{KeyRange, Refusal};
use fdb_mutations::Mutation;

/// What is noted: a mutation, or a range that joins the read set or the write set, whole.
#[derive(Clone, Copy)]
pub(crate) enum Note<'a> {
    Write(&'a Mutation),
    AddRead(&'a KeyRange),
    AddWrite(&'a KeyRange),
}

/// The transaction notes it, as `Txn::write_copy`, `Txn::add_read` and `Txn::add_write` do.
pub(crate) fn note_by(txn: &mut Txn, note: Note<'_>) -> Result<(), Refusal>
    ensures answers { Answers result (note_fault note.entry)
        (λ _. txn.new ≡ with_op txn.old (noted_as note.entry) answer.Done) }
    ensures err { OnErr result (txn.new ≡ txn.old) }
{
    match note {
        Note::Write(mutation) => txn.write_copy(mutation),
        Note::AddRead(range) => txn.add_read(range),
        Note::AddWrite(range) => txn.add_write(range),
    }
}
