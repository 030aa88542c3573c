ghost use Rattle.std.specs.Prelude.{◌≡◌};

use crate::limits::SIZE_LIMIT;
use crate::size::{check_size, least_size, size_of};
use crate::txn_id::TxnId;
use crate::writes::with_named;
use fdb_keys::{RangeSet, Refusal, Refused, SharedList};
use fdb_mutations::Mutation;
use std::alloc::Global;
use std::marker::Model;

/// A transaction that is ready to be judged: what it read and what it will write. Its copies share its mutations, and
/// its sets if there was memory for that when it was sealed; then a copy takes O(1) time.
#[derive(Clone, Drop, PartialEq, Eq)]
pub struct Sealed {
    id: TxnId,
    read_version: u64,
    reads: RangeSet,
    writes: RangeSet,
    mutations: SharedList<Mutation>,
}

/// What a refused `Sealed::new` hands back.
#[derive(Drop)]
pub struct Unsealed {
    /// The read set that was given.
    pub reads: RangeSet,
    /// The write set that was given.
    pub writes: RangeSet,
    /// The mutations that were given.
    pub mutations: SharedList<Mutation>,
}

impl Model for Sealed {
    ghost use Rattle.fdb_txn.specs.book.Size.{MaySeal};
    ghost use Rattle.fdb_txn.specs.book.Transactions.{Transaction};

    ghost Value = { Transaction };

    ghost view = { λ sealed. record {
      id = sealed.id;
      read = sealed.read_version;
      reads = sealed.reads;
      writes = sealed.writes;
      mutations = sealed.mutations;
    } };

    ghost invariant = { λ sealed. MaySeal (record {
      id = sealed.id;
      read = sealed.read_version;
      reads = sealed.reads;
      writes = sealed.writes;
      mutations = sealed.mutations;
    }) };

    ghost inverse = { λ t. record {
      id = t.id;
      read_version = t.read;
      reads = t.reads;
      writes = t.writes;
      mutations = t.mutations;
    } };
}

// The refusal that hands back what was given.
fn refused(
    why: Refusal,
    reads: RangeSet,
    writes: RangeSet,
    mutations: SharedList<Mutation>,
) -> Refused<Unsealed>
    ensures why { result.why ≡ why }
    ensures back { result.back ≡ record { reads = reads; writes = writes; mutations = mutations } }
{
    let back = Unsealed {
        reads,
        writes,
        mutations,
    };
    Refused { why, back }
}

impl Sealed {
    ghost use Rattle.std.specs.Prelude.{◌≡◌, ◌+◌, ◌<◌, ◌≤◌, ◌||◌, All, Some, None, IfOk, sum_by};
    ghost use Rattle.fdb_keys.specs.Answers.{AnswersOrHandsBack, AnswersExactlyOrHandsBack, unless_memory};
    ghost use Rattle.fdb_keys.specs.Points.{Point};
    ghost use Rattle.fdb_keys.specs.Ranges.{in_set};
    ghost use Rattle.fdb_keys.specs.declared.refusal.Refusal.TheVariants.{TransactionTooLarge};
    ghost use Rattle.fdb_mutations.specs.Mutations.{mutation_fault, mutation_size};
    ghost use Rattle.fdb_txn.specs.Limits.{size_limit};
    ghost use Rattle.fdb_txn.specs.book.Size.{bounds_size, size_of, size_fault};
    ghost use Rattle.fdb_txn.specs.book.Transactions.{with_named, some_names, NamesWrites};

    /// Seals a transaction with its read version, its read set, its write set and its mutations, each of
    /// which passes `check`. What the mutations name joins the write set. Refused as `TransactionTooLarge` where the
    /// transaction has more than 10,000,000 bytes: those of both bounds of each range of the joined sets, and of the
    /// mutations; as `NoMemory` where memory runs out before that is known. Where the read set and the mutations alone
    /// have more, it is known without memory. A refusal hands the sets and the mutations back. It takes O(n log n)
    /// comparisons of bounds for n ranges of the write set and mutations together, and O(m) for m ranges of the read
    /// set.
    pub fn new(
        alloc: Global,
        id: TxnId,
        read_version: u64,
        reads: RangeSet,
        writes: RangeSet,
        mutations: SharedList<Mutation>,
    ) -> Result<Self, Refused<Unsealed>>
        requires { All (λ mutation. mutation_fault mutation ≡ None) mutations }
        ensures answers { AnswersOrHandsBack result (record { reads = reads; writes = writes; mutations = mutations })
            (unless_memory result (size_fault (record {
              id = id;
              read = read_version;
              reads = reads;
              writes = with_named writes mutations;
              mutations = mutations;
            })))
            (λ sealed. sealed ≡ record {
              id = id;
              read = read_version;
              reads = reads;
              writes = with_named writes mutations;
              mutations = mutations;
            }) }
        ensures known { size_limit < bounds_size reads + sum_by mutation_size mutations
            → AnswersExactlyOrHandsBack result (record { reads = reads; writes = writes; mutations = mutations })
            (Some TransactionTooLarge) (λ _. ⊥) }
        ensures points { IfOk result
            (λ sealed. (x : Point) → in_set sealed.writes x ≡ (some_names mutations x || in_set writes x)) }
    {
        if least_size(&reads, mutations.as_slice()) > SIZE_LIMIT {
            return Err(refused(Refusal::TransactionTooLarge, reads, writes, mutations));
        }
        let all_writes = match with_named(alloc, &writes, mutations.as_slice()) {
            Ok(all_writes) => all_writes,
            Err(why) => return Err(refused(why, reads, writes, mutations)),
        };
        match Sealed::from_joined(id, read_version, reads, all_writes, mutations) {
            Ok(sealed) => Ok(sealed),
            Err(last) => Err(refused(last.why, last.back.reads, writes, last.back.mutations)),
        }
    }

    /// The same of a write set that has all that the mutations name. It is refused only as `TransactionTooLarge`: what
    /// memory it takes is for copies to share, and it does without where there is none. It takes O(n) time for n ranges
    /// and mutations.
    pub fn from_joined(
        id: TxnId,
        read_version: u64,
        reads: RangeSet,
        writes: RangeSet,
        mutations: SharedList<Mutation>,
    ) -> Result<Self, Refused<Unsealed>>
        requires legal { All (λ mutation. mutation_fault mutation ≡ None) mutations }
        requires named { NamesWrites (record
            { id = id; read = read_version; reads = reads; writes = writes; mutations = mutations }) }
        ensures { AnswersExactlyOrHandsBack result (record { reads = reads; writes = writes; mutations = mutations })
            (size_fault (record
            { id = id; read = read_version; reads = reads; writes = writes; mutations = mutations }))
            (λ sealed. sealed ≡ record
            { id = id; read = read_version; reads = reads; writes = writes; mutations = mutations }) }
    {
        if let Err(why) = check_size(&reads, &writes, mutations.as_slice()) {
            return Err(refused(why, reads, writes, mutations));
        }
        let mut sealed = Sealed {
            id,
            read_version,
            reads,
            writes,
            mutations,
        };
        sealed.share();
        Ok(sealed)
    }

    // From now on copies share the sets, as far as there is memory.
    fn share(&mut self)
        ensures { self.new ≡ self.old }
    {
        self.reads.share();
        self.writes.share();
    }

    /// How many bytes the transaction has: those of both bounds of each range of its read set and of its write set,
    /// and of its mutations. There are at most 10,000,000.
    pub fn size(&self) -> u64
        ensures value { result ≡ size_of self.now }
        ensures within { size_of self.now ≤ size_limit }
    {
        size_of(&self.reads, &self.writes, self.mutations.as_slice())
    }

    /// The id of the transaction.
    pub fn id(&self) -> TxnId
        ensures { result ≡ self.now.id }
    {
        self.id
    }

    /// The version that the transaction read at.
    pub fn read_version(&self) -> u64
        ensures { result ≡ self.now.read }
    {
        self.read_version
    }

    /// The keys that the transaction read.
    pub fn reads(&self) -> &RangeSet
        ensures { result.now ≡ self.now.reads }
    {
        &self.reads
    }

    /// The keys that the transaction writes. Whatever a mutation names is among them.
    pub fn writes(&self) -> &RangeSet
        ensures value { result.now ≡ self.now.writes }
        ensures named { NamesWrites self.now }
    {
        &self.writes
    }

    /// The mutations, in order.
    pub fn mutations(&self) -> &[Mutation]
        ensures { result.now ≡ self.now.mutations }
    {
        self.mutations.as_slice()
    }
}
