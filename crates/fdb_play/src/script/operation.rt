ghost use Rattle.std.specs.Prelude.{◌≡◌, ◌≢◌, MatchResult};
ghost use Rattle.fdb_play.specs.script.Operations.{operation_name, operation_on};

use crate::script::fault::Fault;
use bytes::Bytes;
use fdb_keys::Key;
use fdb_mutations::Mutation;

/// The kinds of mutations that a key and one more byte text make, each named as the word before its key is.
#[derive(Clone, Copy)]
pub enum Operation {
    Set,
    Add,
    And,
    Or,
    Xor,
    Max,
    Min,
    ByteMin,
    ByteMax,
    CompareAndClear,
}

/// All such kinds.
pub(crate) const OPERATIONS: [Operation; 10] = [
    Operation::Set,
    Operation::Add,
    Operation::And,
    Operation::Or,
    Operation::Xor,
    Operation::Max,
    Operation::Min,
    Operation::ByteMin,
    Operation::ByteMax,
    Operation::CompareAndClear,
];

impl Operation {
    // The word that names the kind.
    fn name(self) -> &'static [u8]
        ensures { result.now ≡ operation_name self }
    {
        match self {
            Operation::Set => b"set",
            Operation::Add => b"add",
            Operation::And => b"and",
            Operation::Or => b"or",
            Operation::Xor => b"xor",
            Operation::Max => b"max",
            Operation::Min => b"min",
            Operation::ByteMin => b"bytemin",
            Operation::ByteMax => b"bytemax",
            Operation::CompareAndClear => b"cac",
        }
    }

    /// The mutation of the key with this value or operand.
    pub fn on(self, key: Key, operand: Bytes) -> Mutation
        ensures { result ≡ operation_on self key operand }
    {
        match self {
            Operation::Set => Mutation::Set {
                key,
                value: operand,
            },
            Operation::Add => Mutation::Add { key, operand },
            Operation::And => Mutation::And { key, operand },
            Operation::Or => Mutation::Or { key, operand },
            Operation::Xor => Mutation::Xor { key, operand },
            Operation::Max => Mutation::Max { key, operand },
            Operation::Min => Mutation::Min { key, operand },
            Operation::ByteMin => Mutation::ByteMin { key, operand },
            Operation::ByteMax => Mutation::ByteMax { key, operand },
            Operation::CompareAndClear => Mutation::CompareAndClear { key, operand },
        }
    }
}

/// The kind that the word names. Refused as bad where it names none.
pub fn operation_named(word: &[u8]) -> Result<Operation, Fault>
    ensures { MatchResult result (λ operation. word.now ≡ operation_name operation)
        (λ fault. (fault ≡ Fault.Bad) × ((operation : Operation) → word.now ≢ operation_name operation)) }
{
    for operation in OPERATIONS {
        if word == operation.name() {
            return Ok(operation);
        }
    }
    Err(Fault::Bad)
}
