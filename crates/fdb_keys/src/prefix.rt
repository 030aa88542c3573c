// Where the keys that begin with a prefix end.
ghost use Rattle.std.specs.Prelude.{◌≡◌, [], ◌∷◌, ◌++◌, IfOk};
ghost use Rattle.fdb_keys.specs.Prefixes.{after_prefix};

use crate::key::Key;
use bytes::Bytes;
use std::alloc::{AllocError, Global};

// The least text after all that begin with the prefix.
pub(crate) fn after_prefix(alloc: Global, prefix: &Key) -> Result<Bytes, AllocError>
    ensures { IfOk result (λ text. text ≡ after_prefix prefix.now) }
{
    let mut kept = prefix.bytes();
    while let [front @ .., last] = kept {
        if *last != 0xff {
            return ending_with(alloc, front, *last + 1);
        }
        kept = front;
    }
    ending_with(alloc, &[], 0xff)
}

// The text with one more byte at its end.
fn ending_with(alloc: Global, front: &[u8], last: u8) -> Result<Bytes, AllocError>
    ensures { IfOk result (λ text. text ≡ front.now ++ last ∷ []) }
{
    let mut text = Vec::with_capacity(alloc, front.len().saturating_add(1))?;
    text.extend_from_slice(front)?;
    text.push(last)?;
    Ok(Bytes::from_vec(text)?)
}
