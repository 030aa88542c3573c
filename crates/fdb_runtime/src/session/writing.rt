// The writes of a session whose mutations it makes.
ghost use Rattle.std.specs.Prelude.{◌≡◌, None, IfSome, OnErr};
ghost use Rattle.fdb_keys.specs.Answers.{Answers};
ghost use Rattle.fdb_keys.specs.declared.refusal.Refusal.TheVariants.{NoTransaction};
ghost use Rattle.fdb_mutations.specs.declared.mutation.Mutation.{Mutation as AMutation};
ghost use Rattle.fdb_mutations.specs.declared.mutation.Mutation.TheVariants.{Set, Clear, ClearRange, Add, Stamped};
ghost use Rattle.fdb_runtime.specs.Writing.{Writes};

use crate::session::Session;
use bytes::Bytes;
use fdb_keys::{Key, KeyRange, Refusal};
use fdb_mutations::Mutation;
use fdb_sections::DatabaseName;
use std::alloc::Global;

// The key once more, and a copy of what the mutation carries.
fn copies(alloc: Global, key: &Key, carried: &[u8]) -> Result<(Key, Bytes), Refusal>
    ensures { Answers result None (λ made. made ≡ (key.now, carried.now)) }
{
    let key = key.clone()?;
    let carried = Bytes::copy_from_slice(alloc, carried)?;
    Ok((key, carried))
}

fn set_of(alloc: Global, key: &Key, value: &[u8]) -> Result<Mutation, Refusal>
    ensures { Answers result None (λ mutation. mutation ≡ Set key.now value.now) }
{
    let (key, value) = copies(alloc, key, value)?;
    Ok(Mutation::Set { key, value })
}

fn clear_of(key: &Key) -> Result<Mutation, Refusal>
    ensures { Answers result None (λ mutation. mutation ≡ Clear key.now) }
{
    let key = key.clone()?;
    Ok(Mutation::Clear { key })
}

fn clear_range_of(range: &KeyRange) -> Result<Mutation, Refusal>
    ensures { Answers result None (λ mutation. mutation ≡ ClearRange range.now) }
{
    let range = range.clone()?;
    Ok(Mutation::ClearRange { range })
}

fn add_of(alloc: Global, key: &Key, operand: &[u8]) -> Result<Mutation, Refusal>
    ensures { Answers result None (λ mutation. mutation ≡ Add key.now operand.now) }
{
    let (key, operand) = copies(alloc, key, operand)?;
    Ok(Mutation::Add { key, operand })
}

fn stamped_of(alloc: Global, key: &Key, operand: &[u8], offset: u32) -> Result<Mutation, Refusal>
    ensures { Answers result None (λ mutation. mutation ≡ Stamped key.now operand.now offset) }
{
    let (key, operand) = copies(alloc, key, operand)?;
    Ok(Mutation::Stamped {
        key,
        operand,
        offset,
    })
}

impl<B: DatabaseName> Session<B> {
    /// The open transaction sets the key to the value. It waits for nobody, and takes O(log n) time for the n keys and
    /// ranges that the transaction holds, and O(b) for the value's b bytes.
    ///
    /// Refused as `NoTransaction` where none is open, as `ValueTooLarge` above 100,000 bytes, and as `NoMemory`, which
    /// may come before; then nothing changes.
    pub fn set(&mut self, alloc: Global, key: &Key, value: &[u8]) -> Result<(), Refusal>
        ensures answers { Writes self.old (Set key.now value.now) result self.new }
        ensures refused { OnErr result (self.new ≡ self.old) }
    {
        self.write_made(set_of(alloc, key, value))
    }

    /// The open transaction clears the key. It waits for nobody, and takes O(log n) time for the n keys and ranges that
    /// the transaction holds. Refused as `NoTransaction` where none is open, and as `NoMemory`; then nothing changes.
    pub fn clear(&mut self, key: &Key) -> Result<(), Refusal>
        ensures answers { Writes self.old (Clear key.now) result self.new }
        ensures refused { OnErr result (self.new ≡ self.old) }
    {
        self.write_made(clear_of(key))
    }

    /// The open transaction clears all keys of the range. It waits for nobody, and takes O(log n) time for the n keys
    /// and ranges that the transaction holds, and as much for each of its own writes in the range. Refused as
    /// `NoTransaction` where none is open, and as `NoMemory`; then nothing changes.
    pub fn clear_range(&mut self, range: &KeyRange) -> Result<(), Refusal>
        ensures answers { Writes self.old (ClearRange range.now) result self.new }
        ensures refused { OnErr result (self.new ≡ self.old) }
    {
        self.write_made(clear_range_of(range))
    }

    /// The open transaction adds the operand to the key's value, as `Mutation::Add` does, and reads nothing. It waits
    /// for nobody, and takes O(log n) time for the n keys and ranges that the transaction holds.
    ///
    /// Refused as `NoTransaction` where none is open, as `BadOperand` unless the operand has 1 to 16 bytes
    /// (`ValueTooLarge` above 100,000), and as `NoMemory`, which may come before; then nothing changes.
    pub fn add(&mut self, alloc: Global, key: &Key, operand: &[u8]) -> Result<(), Refusal>
        ensures answers { Writes self.old (Add key.now operand.now) result self.new }
        ensures refused { OnErr result (self.new ≡ self.old) }
    {
        self.write_made(add_of(alloc, key, operand))
    }

    /// The open transaction sets the key to the operand, whose ten bytes at the offset will be the stamp of its commit.
    /// Until then the key is unreadable for it. It waits for nobody, and takes O(log n) time for the n keys and ranges
    /// that the transaction holds, and O(b) for the operand's b bytes.
    ///
    /// Refused as `NoTransaction` where none is open, as `ValueTooLarge` above 100,000 bytes, as `BadOperand` where the
    /// operand hasn't ten bytes at the offset, and as `NoMemory`, which may come before; then nothing changes.
    pub fn stamped(
        &mut self,
        alloc: Global,
        key: &Key,
        operand: &[u8],
        offset: u32,
    ) -> Result<(), Refusal>
        ensures answers { Writes self.old (Stamped key.now operand.now offset) result self.new }
        ensures refused { OnErr result (self.new ≡ self.old) }
    {
        self.write_made(stamped_of(alloc, key, operand, offset))
    }

    // Writes a mutation, unless memory ran out for that.
    fn write_made(&mut self, made: Result<Mutation, Refusal>) -> Result<(), Refusal>
        ensures answers { (mutation : AMutation) → Answers made None (λ it. it ≡ mutation)
            → Writes self.old mutation result self.new }
        ensures refused { OnErr result (self.new ≡ self.old) }
    {
        match made {
            Ok(mutation) => {
                let answer = self.write(&mutation);
                drop(mutation);
                answer
            }
            Err(why) => Err(self.unless_none(why)),
        }
    }

    // Why nothing is written: none is open, or else for this reason.
    fn unless_none(&self, why: Refusal) -> Refusal
        ensures none { self.now.current ≡ None → result ≡ NoTransaction }
        ensures open { IfSome self.now.current (λ _. result ≡ why) }
    {
        match self.client.read_version() {
            Some(_version) => why,
            None => Refusal::NoTransaction,
        }
    }
}
