// The mutation of a line that writes.
ghost use Rattle.std.specs.Prelude.{◌∷◌, codes};
ghost use Rattle.fdb_play.specs.script.Faults.{Reads};
ghost use Rattle.fdb_play.specs.script.Grammar.{WritesMutation, mutation_fault};
ghost use Rattle.fdb_play.specs.script.Operations.{operation_name};

use crate::script::fault::Fault;
use crate::script::keys::{last_key, last_range};
use crate::script::operation::{Operation, operation_named};
use crate::script::texts::make_key;
use crate::script::words::Words;
use bytes::Bytes;
use fdb_mutations::Mutation;
use std::alloc::Global;

/// The mutation that the words give. Words of another form are bad, also where a key would be refused. Refused as
/// `make_key` and `make_range` refuse its key or its range.
pub fn read_mutation(alloc: Global, words: &mut Words<'_>) -> Result<Mutation, Fault>
    ensures { Reads result (WritesMutation words.old) mutation_fault }
{
    let word = words.word()?;
    if word == b"clear".as_slice() {
        return read_clear(alloc, words);
    }
    if word == b"clearrange".as_slice() {
        return read_clear_range(alloc, words);
    }
    if word == b"stamped".as_slice() {
        return read_stamped(alloc, words);
    }
    let operation = operation_named(word)?;
    read_operation(alloc, operation, words)
}

fn read_clear(alloc: Global, words: &mut Words<'_>) -> Result<Mutation, Fault>
    ensures { Reads result (WritesMutation (codes "clear" ∷ words.old)) mutation_fault }
{
    let key = last_key(alloc, words)?;
    Ok(Mutation::Clear { key })
}

fn read_clear_range(alloc: Global, words: &mut Words<'_>) -> Result<Mutation, Fault>
    ensures { Reads result (WritesMutation (codes "clearrange" ∷ words.old)) mutation_fault }
{
    let range = last_range(alloc, words)?;
    Ok(Mutation::ClearRange { range })
}

fn read_operation(
    alloc: Global,
    operation: Operation,
    words: &mut Words<'_>,
) -> Result<Mutation, Fault>
    ensures { Reads result (WritesMutation (operation_name operation ∷ words.old)) mutation_fault }
{
    let text = words.text(alloc)?;
    let operand = words.last_text(alloc)?;
    let key = make_key(alloc, text.as_slice())?;
    let operand = Bytes::from_vec(operand)?;
    Ok(operation.on(key, operand))
}

fn read_stamped(alloc: Global, words: &mut Words<'_>) -> Result<Mutation, Fault>
    ensures { Reads result (WritesMutation (codes "stamped" ∷ words.old)) mutation_fault }
{
    let text = words.text(alloc)?;
    let operand = words.text(alloc)?;
    let offset = words.last_number()?;
    let key = make_key(alloc, text.as_slice())?;
    let operand = Bytes::from_vec(operand)?;
    Ok(Mutation::Stamped {
        key,
        operand,
        offset,
    })
}
