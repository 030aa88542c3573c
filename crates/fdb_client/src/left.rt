// What a transaction's own writes leave at a key.
ghost use Rattle.std.specs.Prelude.{◌≡◌, None, OnErr};
ghost use Rattle.fdb_keys.specs.Answers.{Answers};
ghost use Rattle.fdb_mutations.specs.Mutations.{new_value};

use bytes::Bytes;
use fdb_keys::{Items, Refusal};
use fdb_mutations::Mutation;
use std::alloc::{AllocError, Global};
use std::marker::Model;

#[derive(Drop)]
pub(crate) enum Left {
    // A value, or none, whatever stood there.
    Value(Option<Bytes>),
    // The bare operand of a Stamped, and what later mutations that aren't blind made of it. The transaction can't read
    // it, since the stamp is known only once it commits.
    Unreadable(Option<Bytes>),
    // What the mutations make of what stands there. None of them decides the key.
    Changes(Items<Mutation>),
}

impl Left {
    ghost use Rattle.std.specs.Prelude.{◌≡◌, [], ◌∷◌, false, None, IfOk, OnErr, if◌then◌else◌};
    ghost use Rattle.fdb_keys.specs.Answers.{Answers};
    ghost use Rattle.fdb_mutations.specs.Mutations.{is_blind, new_value};
    ghost use Rattle.fdb_mutations.specs.Stamping.{is_stamped};
    ghost use Rattle.fdb_client.specs.OwnWrites.{left_after};
    ghost use Rattle.fdb_client.specs.declared.left.Left.TheVariants.{Value, Unreadable, Changes};

    // What a blind mutation leaves at a key that it names.
    pub(crate) fn blind(alloc: Global, mutation: &Mutation) -> Result<Self, Refusal>
        ensures { Answers result None (λ left. left ≡ (if is_stamped mutation.now
            then Unreadable (new_value mutation.now None) else Value (new_value mutation.now None))) }
    {
        let value = mutation.apply_value(alloc, None)?;
        if mutation.is_stamped() {
            Ok(Left::Unreadable(value))
        } else {
            Ok(Left::Value(value))
        }
    }

    // What a first mutation leaves at its key, which was cleared with a range before it or wasn't. The mutation isn't
    // blind.
    pub(crate) fn first(
        alloc: Global,
        is_cleared: bool,
        mutation: &Mutation,
    ) -> Result<Self, Refusal>
        requires { is_blind mutation.now ≡ false }
        ensures { Answers result None
            (λ left. left ≡ left_after (if is_cleared then Value None else Changes []) mutation.now) }
    {
        if is_cleared {
            let value = mutation.apply_value(alloc, None)?;
            return Ok(Left::Value(value));
        }
        let left = Left::of_change(alloc, mutation)?;
        Ok(left)
    }

    // What the mutation alone leaves, where it decides nothing.
    fn of_change(alloc: Global, mutation: &Mutation) -> Result<Self, AllocError>
        ensures { IfOk result (λ left. left ≡ Changes (mutation.now ∷ [])) }
    {
        let copy = mutation.clone()?;
        let mut mutations = Items::new(alloc);
        mutations.push(copy)?;
        Ok(Left::Changes(mutations))
    }

    // One mutation more, which isn't blind. Where memory runs out, nothing changes.
    fn change(&mut self, alloc: Global, mutation: &Mutation) -> Result<(), Refusal>
        requires { is_blind mutation.now ≡ false }
        ensures ok { Answers result None (λ _. self.new ≡ left_after self.old mutation.now) }
        ensures err { OnErr result (self.new ≡ self.old) }
    {
        match self {
            Left::Value(value) => change_value(alloc, value, mutation),
            Left::Unreadable(value) => change_value(alloc, value, mutation),
            Left::Changes(mutations) => {
                mutations.push(mutation.clone()?)?;
                Ok(())
            }
        }
    }
}

// What is left at a key, in memory of its own. So a node of the tree of own writes, which has room for fifteen keys, is
// small enough to be had again from those that were given back just before.
#[derive(Drop)]
pub(crate) struct Kept {
    left: Box<Left>,
}

impl Model for Kept {
    ghost use Rattle.fdb_client.specs.declared.left.Left.{Left};

    ghost Value = { Left };

    ghost view = { λ kept. kept.left.value };
}

impl Kept {
    ghost use Rattle.std.specs.Prelude.{◌≡◌, false, None, IfOk, OnErr};
    ghost use Rattle.fdb_keys.specs.Answers.{Answers};
    ghost use Rattle.fdb_mutations.specs.Mutations.{is_blind};
    ghost use Rattle.fdb_client.specs.OwnWrites.{left_after};

    pub(crate) fn new(alloc: Global, left: Left) -> Result<Self, AllocError>
        ensures { IfOk result (λ kept. kept ≡ left) }
    {
        let left = Box::new(alloc, left)?;
        Ok(Kept { left })
    }

    pub(crate) fn left(&self) -> &Left
        ensures { result.now ≡ self.now }
    {
        self.left.as_ref()
    }

    // One mutation more, which isn't blind. Where memory runs out, nothing changes.
    pub(crate) fn change(&mut self, alloc: Global, mutation: &Mutation) -> Result<(), Refusal>
        requires { is_blind mutation.now ≡ false }
        ensures ok { Answers result None (λ _. self.new ≡ left_after self.old mutation.now) }
        ensures err { OnErr result (self.new ≡ self.old) }
    {
        self.left.change(alloc, mutation)
    }
}

// What the mutation makes of a value. Where memory runs out, nothing changes.
fn change_value(
    alloc: Global,
    value: &mut Option<Bytes>,
    mutation: &Mutation,
) -> Result<(), Refusal>
    ensures ok { Answers result None (λ _. value.new ≡ new_value mutation.now value.old) }
    ensures err { OnErr result (value.new ≡ value.old) }
{
    *value = mutation.apply_value(alloc, value.as_ref())?;
    Ok(())
}
