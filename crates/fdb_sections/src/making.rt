// Values that are made one after another, any of which may lack memory. Their types are parameters here, so that where
// one is dropped the loan check doesn't go over what it holds.
ghost use Rattle.std.specs.Prelude.{◌≡◌, ◌⊎◌, ◌++◌, [], ◌∷◌, drop, Ok, Err, IfOk, IfErr, IfNone, IsOk, OnOk};
ghost use Rattle.std.specs.Option.{option_to_list};
ghost use Rattle.fdb_keys.specs.declared.refusal.Refusal.TheVariants.{NoMemory};

use fdb_keys::Refusal;
use std::collections::VecDeque;

/// The value beside what was made after it, if that could be made.
pub(crate) fn beside<S: Drop, T: Drop>(
    value: S,
    made: Result<T, Refusal>,
) -> Result<(S, T), Refusal>
    ensures given { IfOk result (λ both. (both.0 ≡ value) × (made ≡ Ok both.1)) }
    ensures refused { IfErr result (λ why. made ≡ Err why) }
{
    match made {
        Ok(made) => Ok((value, made)),
        Err(why) => Err(why),
    }
}

/// Both values, if both could be made.
pub fn both<S: Drop, T: Drop>(
    one: Result<S, Refusal>,
    other: Result<T, Refusal>,
) -> Result<(S, T), Refusal>
    ensures given { IfOk result (λ both. (one ≡ Ok both.0) × (other ≡ Ok both.1)) }
    ensures refused { IfErr result (λ why. (one ≡ Err why) ⊎ (other ≡ Err why)) }
{
    match (one, other) {
        (Ok(one), Ok(other)) => Ok((one, other)),
        (Err(why), _) | (_, Err(why)) => Err(why),
    }
}

/// Adds the item, if it could be made.
pub fn add<T: Drop>(items: &mut Vec<T>, made: Result<T, Refusal>) -> Result<(), Refusal>
    ensures { IfErr result (λ why. (made ≡ Err why) ⊎ (why ≡ NoMemory)) }
{
    items.push(made?)?;
    Ok(())
}

/// The same of those that are taken out in the order in which they come.
pub(crate) fn add_last<T: Drop>(
    items: &mut VecDeque<T>,
    made: Result<T, Refusal>,
) -> Result<(), Refusal>
    ensures refused { IfErr result (λ why. (made ≡ Err why) ⊎ (why ≡ NoMemory)) }
    ensures added { OnOk result (IfOk made (λ item. items.new.items ≡ items.old.items ++ item ∷ [])) }
    ensures made { OnOk result (IsOk made) }
{
    items.push_back(made?)?;
    Ok(())
}

/// Takes out the first of them, if there is one.
pub(crate) fn take_first<T: Drop>(items: &mut VecDeque<T>) -> Option<T>
    ensures first { items.old.items ≡ option_to_list result ++ items.new.items }
    ensures none { IfNone result (items.old.items ≡ []) }
    ensures rest { items.new.items ≡ drop 1 items.old.items }
{
    items.pop_front()
}
