// The names of a workload's keys: a letter, `/` and two digits. So their order is that of their numbers.
ghost use Rattle.std.specs.Prelude.{◌≡◌, ◌<◌, ◌+◌, ◌/◌, ◌%◌, ◌∷◌, ◌-◌, [], length, IfOk, IfErr};
ghost use Rattle.fdb_keys.specs.declared.refusal.Refusal.TheVariants.{NoMemory};
ghost use Rattle.fdb_load.specs.Rings.{name_in};

use crate::workload::Workload;
use fdb_keys::{Items, Key, KeyRange, Refusal};
use std::alloc::Global;

/// The name of a key.
pub type Name = [u8; 4];

/// The name of the key with the letter and the number, of which the last two digits are in it. It takes O(1) time.
pub fn name_of(letter: u8, number: u8) -> Name
    ensures { result ≡ letter ∷ 47 ∷ (48 + number / 10 % 10) ∷ (48 + number % 10) ∷ [] }
{
    [letter, b'/', b'0' + number / 10 % 10, b'0' + number % 10]
}

/// The name that the value is, if it has the length of one.
pub(crate) fn name_in(value: &[u8]) -> Option<Name>
    ensures { result ≡ name_in value.now }
{
    match value {
        [letter, slash, ten, one] => Some([*letter, *slash, *ten, *one]),
        _ => None,
    }
}

/// The keys that divide those of the workload into so many pieces, at most 64. They rise, and each piece has a key of
/// the workload where there are enough of them; where there are more pieces than keys, some lie between two keys.
/// Refused only as `NoMemory`.
pub(crate) fn even_splits(
    alloc: Global,
    workload: Workload,
    pieces: u32,
) -> Result<Items<Key>, Refusal>
    ensures count { IfOk result (λ splits. length splits ≡ pieces - 1) }
    ensures refused { IfErr result (λ why. why ≡ NoMemory) }
{
    let mut splits = Items::new(alloc);
    for piece in 1..pieces {
        splits.push(split_of(alloc, workload, piece, pieces)?)?;
    }
    Ok(splits)
}

// Where the piece begins: at a key, or a part in 256 of the way from a key to the next one.
fn split_of(alloc: Global, workload: Workload, piece: u32, pieces: u32) -> Result<Key, Refusal>
    requires { 0 < pieces }
    ensures { IfErr result (λ why. why ≡ NoMemory) }
{
    let parts = u64::from(workload.keys()) * 256;
    let at = u64::from(piece).saturating_mul(parts) / u64::from(pieces);
    let number = (at / 256 % 100) as u8;
    between(alloc, workload.letter(), number, (at % 256) as u8)
}

// The key of the letter and the number, or one behind it and before the next name.
fn between(alloc: Global, letter: u8, number: u8, part: u8) -> Result<Key, Refusal>
    requires { letter < 255 }
    ensures { IfErr result (λ why. why ≡ NoMemory) }
{
    let mut text = Vec::new(alloc);
    text.extend_from_slice(&name_of(letter, number))?;
    if part > 0 {
        text.push(part)?;
    }
    Key::new(alloc, text.as_slice())
}

/// The keys from that with the one number up to but not including that with the other one.
pub(crate) fn range_of(
    alloc: Global,
    workload: Workload,
    begin: u8,
    end: u8,
) -> Result<KeyRange, Refusal> {
    let letter = workload.letter();
    KeyRange::new(alloc, &name_of(letter, begin), &name_of(letter, end))
}
