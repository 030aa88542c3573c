// Byte texts: letters, digits, '.', '_' and '/' write themselves, and every byte may be written as '%'
// and two hexadecimal digits. The word '%' alone is the empty text.
ghost use Rattle.std.specs.Prelude.{◌≡◌, ◌<◌, length, Some, None, IfOk, IfErr, IfSome, MatchOption};
ghost use Rattle.std.specs.Char.{digit_value};
ghost use Rattle.std.specs.Option.{SomeIff, option_map};
ghost use Rattle.fdb_keys.specs.Texts.{key_fault, range_fault};
ghost use Rattle.fdb_play.specs.script.Faults.{MatchFault};
ghost use Rattle.fdb_play.specs.script.Texts.{is_plain, put_before, bytes_of, value_of};

use crate::script::fault::Fault;
use fdb_keys::{Key, KeyRange};
use std::alloc::{AllocError, Global};

/// The bytes that the word writes, if it is a byte text.
pub fn read_text(alloc: Global, word: &[u8]) -> Result<Option<Vec<u8>>, AllocError>
    ensures { IfOk result (λ read. option_map (λ bytes. bytes.items) read ≡ value_of word.now) }
{
    if let [b'%'] = word {
        return Ok(Some(Vec::new(alloc)));
    }
    if word.is_empty() {
        return Ok(None);
    }
    read_bytes(alloc, word)
}

fn read_bytes(alloc: Global, word: &[u8]) -> Result<Option<Vec<u8>>, AllocError>
    ensures { IfOk result (λ read. option_map (λ bytes. bytes.items) read ≡ bytes_of word.now) }
{
    let mut bytes = Vec::with_capacity(alloc, word.len())?;
    let mut rest = word;
    while !rest.is_empty() {
        match first_byte(rest) {
            Some((byte, after)) => {
                bytes.push(byte)?;
                rest = after;
            }
            None => return Ok(None),
        }
    }
    Ok(Some(bytes))
}

// The first byte that the text writes, with the rest of the text.
fn first_byte(text: &[u8]) -> Option<(u8, &[u8])>
    requires { 0 < length text.now }
    ensures value { MatchOption result (bytes_of text.now ≡ None)
        (λ found. bytes_of text.now ≡ put_before found.0 (bytes_of found.1.now)) }
    ensures shorter { IfSome result (λ found. length found.1.now < length text.now) }
{
    match text {
        [plain, rest @ ..] if is_plain(*plain) => Some((*plain, rest)),
        [b'%', high, low, rest @ ..] => {
            let high = hex_value(*high)?;
            let low = hex_value(*low)?;
            Some((high * 16 + low, rest))
        }
        _ => None,
    }
}

fn hex_value(digit: u8) -> Option<u8>
    ensures { SomeIff result (digit_value digit < 16) (digit_value digit) }
{
    let value = (digit as char).to_digit(16)?;
    Some(value as u8)
}

/// Whether the byte writes itself.
pub fn is_plain(byte: u8) -> bool
    ensures { result ≡ is_plain byte }
{
    byte.is_ascii_alphanumeric() || byte == b'.' || byte == b'_' || byte == b'/'
}

/// The key of these bytes. Refused as `Key::new` refuses it.
pub fn make_key(alloc: Global, text: &[u8]) -> Result<Key, Fault>
    ensures ok { IfOk result (λ key. (key ≡ text.now) × (key_fault text.now ≡ None)) }
    ensures refused { IfErr result (λ fault. MatchFault fault ⊥ (λ why. key_fault text.now ≡ Some why)) }
{
    let key = Key::new(alloc, text)?;
    Ok(key)
}

/// The range of these bounds. Refused as `KeyRange::new` refuses it.
pub fn make_range(alloc: Global, begin: &[u8], end: &[u8]) -> Result<KeyRange, Fault>
    ensures ok { IfOk result (λ range. (range ≡ record { begin = begin.now; end = end.now })
        × (range_fault begin.now end.now ≡ None)) }
    ensures refused { IfErr result (λ fault. MatchFault fault ⊥ (λ why. range_fault begin.now end.now ≡ Some why)) }
{
    let range = KeyRange::new(alloc, begin, end)?;
    Ok(range)
}
