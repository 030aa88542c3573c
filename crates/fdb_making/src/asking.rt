// What tests ask. Each call takes what it is asked about and drops it, or lends it to a closure, so that the prover
// goes over what it is made of in one place.
use fdb_keys::Refusal;
use std::alloc::AllocError;

/// What is answered of the value that was made, or the code of the refusal.
pub fn ask<T: Drop, A: Drop, F: FnOnce(&T) -> A + Drop>(
    made: Result<T, Refusal>,
    question: F,
) -> Result<A, u32>
    requires { F.IsAlwaysCallable question }
{
    match made {
        Ok(value) => Ok(question(&value)),
        Err(why) => Err(why.code()),
    }
}

/// The same of a value that changes meanwhile.
pub fn ask_mut<T: Drop, A: Drop, F: FnOnce(&mut T) -> A + Drop>(
    made: Result<T, Refusal>,
    question: F,
) -> Result<A, u32>
    requires { F.IsAlwaysCallable question }
{
    match made {
        Ok(mut value) => Ok(question(&mut value)),
        Err(why) => Err(why.code()),
    }
}

/// The same of two values.
pub fn ask_both<T: Drop, U: Drop, A: Drop, F: FnOnce(&T, &U) -> A + Drop>(
    first: Result<T, Refusal>,
    second: Result<U, Refusal>,
    question: F,
) -> Result<A, u32>
    requires { F.IsAlwaysCallable question }
{
    match (first, second) {
        (Ok(first), Ok(second)) => Ok(question(&first, &second)),
        (Err(why), _) | (_, Err(why)) => Err(why.code()),
    }
}

/// Both values. Where several are held, one exit before any is costs the prover less than an exit at each.
pub fn both<T: Drop, U: Drop>(
    first: Result<T, Refusal>,
    second: Result<U, Refusal>,
) -> Result<(T, U), Refusal> {
    match (first, second) {
        (Ok(first), Ok(second)) => Ok((first, second)),
        (Err(why), _) | (_, Err(why)) => Err(why),
    }
}

/// What is made of the value.
pub fn made_of<T: Drop, U, F: FnOnce(&T) -> Result<U, Refusal> + Drop>(
    made: Result<T, Refusal>,
    next: F,
) -> Result<U, Refusal>
    requires { F.IsAlwaysCallable next }
{
    match made {
        Ok(value) => next(&value),
        Err(why) => Err(why),
    }
}

/// The value after the change.
pub fn after<T: Drop, F: FnOnce(&mut T) -> Result<(), Refusal> + Drop>(
    made: Result<T, Refusal>,
    change: F,
) -> Result<T, Refusal>
    requires { F.IsAlwaysCallable change }
{
    match made {
        Ok(mut value) => match change(&mut value) {
            Ok(()) => Ok(value),
            Err(why) => Err(why),
        },
        Err(why) => Err(why),
    }
}

/// The code of the refusal, or 0.
pub fn code_of<T: Drop>(answer: Result<T, Refusal>) -> u32 {
    match answer {
        Ok(_given) => 0,
        Err(why) => why.code(),
    }
}

/// The code of the refusal, and the number that it names, 0 where it names none.
pub fn numbers_of(why: Refusal) -> (u32, u64) {
    match why {
        Refusal::NotYet(number) => (why.code(), number),
        Refusal::Repeated(place) => (why.code(), u64::from(place)),
        _ => (why.code(), 0),
    }
}

/// Whether it is done, where the answer tells no more.
pub fn is_done(answer: Result<(), Refusal>) -> Result<bool, Refusal> {
    match answer {
        Ok(()) => Ok(true),
        Err(why) => Err(why),
    }
}

/// The same answer, with the code of the refusal.
pub fn coded<T: Drop>(answer: Result<T, Refusal>) -> Result<T, u32> {
    match answer {
        Ok(given) => Ok(given),
        Err(why) => Err(why.code()),
    }
}

/// Why it is refused, if it is.
pub fn refusal_of<T: Drop>(answer: Result<T, Refusal>) -> Option<Refusal> {
    match answer {
        Ok(_given) => None,
        Err(why) => Some(why),
    }
}

/// Whether the value equals its copy.
pub fn equals_copy<T: PartialEq + Drop>(value: &T, copy: Result<T, AllocError>) -> bool {
    match copy {
        Ok(copy) => copy == *value,
        Err(_error) => false,
    }
}
