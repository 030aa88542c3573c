// Bytes as little-endian numbers.
ghost use Rattle.std.specs.Prelude.{◌≡◌, ◌≤◌, ◌+◌, ◌%◌, ◌^◌, nat_lt, length};
ghost use Rattle.std.specs.Int.{w128, to_le_bytes};
ghost use Rattle.fdb_mutations.specs.Numbers.{number_of};

// The number of at most 16 bytes.
fn number(bytes: &[u8]) -> u128
    requires { length bytes.now ≤ 16 }
    ensures { result ≡ number_of bytes.now }
{
    let mut wide = [0; 16];
    wide[..bytes.len()].copy_from_slice(bytes);
    u128::from_le_bytes(wide)
}

// The lowest 16 bytes of the sum of two numbers.
pub(crate) fn sum(a: &[u8], b: &[u8]) -> [u8; 16]
    requires a { length a.now ≤ 16 }
    requires b { length b.now ≤ 16 }
    ensures { result ≡ to_le_bytes w128 ((number_of a.now + number_of b.now) % 2 ^ 128) }
{
    number(a).wrapping_add(number(b)).to_le_bytes()
}

// Whether the first is the smaller number. Both have as many bytes, and the greatest that differs decides.
pub(crate) fn is_below(a: &[u8], b: &[u8]) -> bool
    requires { length a.now ≡ length b.now }
    ensures { result ≡ nat_lt (number_of a.now) (number_of b.now) }
{
    a.iter().rev().cmp(b.iter().rev()).is_lt()
}
