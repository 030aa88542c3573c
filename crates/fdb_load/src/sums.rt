// The numbers that keys have.
ghost use Rattle.std.specs.Prelude.{◌≡◌, ◌≢◌, IfSome, IfNone, length};
ghost use Rattle.fdb_load.specs.Sums.{number_of, told_sum};

use bytes::Bytes;
use fdb_keys::Key;

/// The number that the value is, eight bytes with the lowest one first, if it has that length.
pub(crate) fn number_in(value: &[u8]) -> Option<u64>
    ensures some { IfSome result (λ number. (length value.now ≡ 8) × (number ≡ number_of value.now)) }
    ensures none { IfNone result (length value.now ≢ 8) }
{
    match value {
        [a, b, c, d, e, f, g, h] => Some(u64::from_le_bytes([*a, *b, *c, *d, *e, *f, *g, *h])),
        _ => None,
    }
}

/// The sum of the numbers that the values are, if each is one and the sum fits.
pub(crate) fn sum_of(pairs: &[(Key, Bytes)]) -> Option<u64>
    ensures { result ≡ told_sum pairs.now }
{
    let mut sum: u64 = 0;
    for pair in pairs {
        sum = sum.checked_add(number_in(pair.1.as_slice())?)?;
    }
    Some(sum)
}
