// Numbers as a script writes them: digits alone, of which the first ones may be zeros.
ghost use Rattle.std.specs.Prelude.{◌+◌, ◌*◌, ◌^◌, ◌<◌};
ghost use Rattle.std.specs.Char.{digit_value};
ghost use Rattle.std.specs.Option.{SomeIff};
ghost use Rattle.std.specs.Str.Parse.{IsNumeral, digits_value};

/// The number that the word writes, where it is one below 2^64.
pub fn number(word: &[u8]) -> Option<u64>
    ensures { SomeIff result (IsNumeral 10 word.now × (digits_value 10 word.now < 2 ^ 64)) (digits_value 10 word.now) }
{
    if word.is_empty() {
        return None;
    }
    let mut value = 0;
    for byte in word {
        value = with_digit(value, *byte)?;
    }
    Some(value)
}

/// The number that the word writes, where it is one below 2^32.
pub fn small_number(word: &[u8]) -> Option<u32>
    ensures { SomeIff result (IsNumeral 10 word.now × (digits_value 10 word.now < 2 ^ 32)) (digits_value 10 word.now) }
{
    match number(word) {
        Some(value) if value <= u64::from(u32::MAX) => Some(value as u32),
        _ => None,
    }
}

// The number with one more digit at its end.
fn with_digit(value: u64, byte: u8) -> Option<u64>
    ensures { SomeIff result ((digit_value byte < 10) × (value * 10 + digit_value byte < 2 ^ 64))
        (value * 10 + digit_value byte) }
{
    let digit = (byte as char).to_digit(10)?;
    value.checked_mul(10)?.checked_add(u64::from(digit))
}
