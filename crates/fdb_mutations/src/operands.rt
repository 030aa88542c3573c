// What is made of an old value and an operand.
ghost use Rattle.std.specs.Prelude.{◌≡◌, Some, None, IfOk, IsTrue, length, if◌then◌else◌, bit_and, bit_or, bit_xor};
ghost use Rattle.std.specs.Option.{option_copied};
ghost use Rattle.fdb_keys.specs.Answers.{Answers};
ghost use Rattle.fdb_keys.specs.Insertion.{lesser_point, greater_point};
ghost use Rattle.fdb_mutations.specs.Numbers.{greater_number, lesser_number};
ghost use Rattle.fdb_mutations.specs.Operands.{fit, present, combined, bytewise, sum_of, is_addend, has_value};

use crate::numbers::{is_below, sum};
use bytes::Bytes;
use fdb_keys::Refusal;
use std::alloc::{AllocError, Global};

/// The most bytes that a number to add may have.
const ADDEND_LIMIT: usize = 16;

/// Whether the operand has 1 to 16 bytes, so that it can be added.
pub(crate) fn is_addend(operand: &[u8]) -> bool
    ensures { result ≡ is_addend operand.now }
{
    1 <= operand.len() && operand.len() <= ADDEND_LIMIT
}

// The bytes of the value, and none where there is no value.
fn present<'a>(value: Option<&'a Bytes>) -> &'a [u8]
    ensures { result.now ≡ present (option_copied value.entry) }
{
    match value {
        Some(value) => value.as_slice(),
        None => &[],
    }
}

// The value, cut to as many bytes or extended to them with zero bytes.
fn fitted(alloc: Global, value: &[u8], count: usize) -> Result<Vec<u8>, AllocError>
    ensures { IfOk result (λ bytes. bytes.items ≡ fit count value.now) }
{
    let kept = &value[..value.len().min(count)];
    let mut bytes = Vec::from_slice(alloc, kept)?;
    bytes.resize(count, 0)?;
    Ok(bytes)
}

fn and_bytes(alloc: Global, value: &[u8], operand: &[u8]) -> Result<Vec<u8>, AllocError>
    ensures { IfOk result (λ bytes. bytes.items ≡ bytewise bit_and value.now operand.now) }
{
    let fitted = fitted(alloc, value, operand.len())?;
    fitted
        .iter()
        .zip(operand)
        .map(|(byte, other)| *byte & *other)
        .collect(alloc)
}

fn or_bytes(alloc: Global, value: &[u8], operand: &[u8]) -> Result<Vec<u8>, AllocError>
    ensures { IfOk result (λ bytes. bytes.items ≡ bytewise bit_or value.now operand.now) }
{
    let fitted = fitted(alloc, value, operand.len())?;
    fitted
        .iter()
        .zip(operand)
        .map(|(byte, other)| *byte | *other)
        .collect(alloc)
}

fn xor_bytes(alloc: Global, value: &[u8], operand: &[u8]) -> Result<Vec<u8>, AllocError>
    ensures { IfOk result (λ bytes. bytes.items ≡ bytewise bit_xor value.now operand.now) }
{
    let fitted = fitted(alloc, value, operand.len())?;
    fitted
        .iter()
        .zip(operand)
        .map(|(byte, other)| *byte ^ *other)
        .collect(alloc)
}

fn sum_bytes(alloc: Global, value: &[u8], operand: &[u8]) -> Result<Bytes, Refusal>
    requires { IsTrue (is_addend operand.now) }
    ensures { Answers result None (λ bytes. bytes ≡ sum_of value.now operand.now) }
{
    let fitted = fitted(alloc, value, operand.len())?;
    let sum = sum(fitted.as_slice(), operand);
    let bytes = Bytes::copy_from_slice(alloc, &sum[..operand.len()])?;
    Ok(bytes)
}

/// The sum of the value and the operand, if it can be added, and else the value.
pub(crate) fn added(
    alloc: Global,
    value: Option<&Bytes>,
    operand: &Bytes,
) -> Result<Option<Bytes>, Refusal>
    ensures { Answers result None (λ new. new ≡ (if is_addend operand.now
        then Some (sum_of (present (option_copied value.entry)) operand.now) else option_copied value.entry)) }
{
    if is_addend(operand.as_slice()) {
        let bytes = sum_bytes(alloc, present(value), operand.as_slice())?;
        Ok(Some(bytes))
    } else {
        Ok(copied(value)?)
    }
}

/// The bits that the value and the operand both have.
pub(crate) fn and(alloc: Global, value: Option<&Bytes>, operand: &Bytes) -> Result<Bytes, Refusal>
    ensures { Answers result None
        (λ bytes. bytes ≡ combined (bytewise bit_and) (option_copied value.entry) operand.now) }
{
    match value {
        None => copy(operand),
        Some(value) => {
            let bytes = and_bytes(alloc, value.as_slice(), operand.as_slice())?;
            frozen(bytes)
        }
    }
}

/// The bits that the value or the operand has.
pub(crate) fn or(alloc: Global, value: Option<&Bytes>, operand: &Bytes) -> Result<Bytes, Refusal>
    ensures { Answers result None (λ bytes. bytes ≡ bytewise bit_or (present (option_copied value.entry)) operand.now) }
{
    let bytes = or_bytes(alloc, present(value), operand.as_slice())?;
    frozen(bytes)
}

/// The bits that one of the value and the operand has.
pub(crate) fn xor(alloc: Global, value: Option<&Bytes>, operand: &Bytes) -> Result<Bytes, Refusal>
    ensures { Answers result None
        (λ bytes. bytes ≡ bytewise bit_xor (present (option_copied value.entry)) operand.now) }
{
    let bytes = xor_bytes(alloc, present(value), operand.as_slice())?;
    frozen(bytes)
}

/// The greater of the value and the operand, as numbers.
pub(crate) fn max(alloc: Global, value: Option<&Bytes>, operand: &Bytes) -> Result<Bytes, Refusal>
    ensures { Answers result None (λ bytes. bytes
        ≡ greater_number (fit (length operand.now) (present (option_copied value.entry))) operand.now) }
{
    let fitted = fitted(alloc, present(value), operand.len())?;
    if is_below(operand.as_slice(), fitted.as_slice()) {
        frozen(fitted)
    } else {
        copy(operand)
    }
}

/// The smaller of the value and the operand, as numbers.
pub(crate) fn min(alloc: Global, value: Option<&Bytes>, operand: &Bytes) -> Result<Bytes, Refusal>
    ensures { Answers result None (λ bytes. bytes
        ≡ combined (λ value other. lesser_number (fit (length other) value) other) (option_copied value.entry)
        operand.now) }
{
    let Some(value) = value else {
        return copy(operand);
    };
    let fitted = fitted(alloc, value.as_slice(), operand.len())?;
    if is_below(fitted.as_slice(), operand.as_slice()) {
        frozen(fitted)
    } else {
        copy(operand)
    }
}

/// The smaller of the value and the operand, in the order of bytes.
#[tactic(auto, unfolding(fdb_keys::specs::Points::point_lt))]
pub(crate) fn byte_min(value: Option<&Bytes>, operand: &Bytes) -> Result<Bytes, Refusal>
    ensures { Answers result None (λ bytes. bytes ≡ combined lesser_point (option_copied value.entry) operand.now) }
{
    match value {
        Some(value) if !operand.as_slice().cmp(&value.as_slice()).is_lt() => copy(value),
        _ => copy(operand),
    }
}

/// The greater of the value and the operand, in the order of bytes.
#[tactic(auto, unfolding(fdb_keys::specs::Points::point_lt))]
pub(crate) fn byte_max(value: Option<&Bytes>, operand: &Bytes) -> Result<Bytes, Refusal>
    ensures { Answers result None (λ bytes. bytes ≡ combined greater_point (option_copied value.entry) operand.now) }
{
    match value {
        Some(value) if !value.as_slice().cmp(&operand.as_slice()).is_lt() => copy(value),
        _ => copy(operand),
    }
}

/// No value where it is the operand, and else the value.
pub(crate) fn unless_equal(value: Option<&Bytes>, operand: &Bytes) -> Result<Option<Bytes>, Refusal>
    ensures { Answers result None (λ new. new
        ≡ (if has_value (option_copied value.entry) operand.now then None else option_copied value.entry)) }
{
    match value {
        Some(value) if value == operand => Ok(None),
        _ => Ok(copied(value)?),
    }
}

/// A copy of the bytes.
pub(crate) fn copy(bytes: &Bytes) -> Result<Bytes, Refusal>
    ensures { Answers result None (λ copy. copy ≡ bytes.now) }
{
    let copy = bytes.clone()?;
    Ok(copy)
}

/// A copy of what stands at a key, if anything does. It copies no byte.
pub fn copied(value: Option<&Bytes>) -> Result<Option<Bytes>, AllocError>
    ensures { IfOk result (λ copy. copy ≡ option_copied value.entry) }
{
    match value {
        None => Ok(None),
        Some(value) => {
            let copy = value.clone()?;
            Ok(Some(copy))
        }
    }
}

// The vector's bytes.
fn frozen(bytes: Vec<u8>) -> Result<Bytes, Refusal>
    ensures { Answers result None (λ frozen. frozen ≡ bytes.items) }
{
    let frozen = Bytes::from_vec(bytes)?;
    Ok(frozen)
}
