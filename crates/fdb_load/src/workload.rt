// What clients do, and what has to hold of it in the end.
ghost use Rattle.std.specs.Prelude.{◌≡◌, ◌<◌, ◌≤◌};
ghost use Rattle.std.specs.Bool.{Decides};
ghost use Rattle.fdb_load.specs.Reports.{workload_name};
ghost use Rattle.fdb_load.specs.Workloads.{AreLeft, keys_of, letter_of};

use crate::halt::Halt;
use crate::{counters, ring, transfers};
use bytes::Bytes;
use fdb_keys::{Key, Refusal};
use fdb_runtime::{ClusterName, Session};
use rand_pcg::Pcg32;
use std::alloc::Global;
use std::sync::Wait;

/// What each transaction of a client does.
#[derive(Clone, Copy, PartialEq, Eq)]
pub enum Workload {
    /// 32 keys, each with the name of the next one, on one cycle. A transaction reads three keys in a row and has the
    /// second one and the third one change places.
    Ring,
    /// 32 accounts with 1,000 each. A transaction moves some of the one to another one.
    Transfers,
    /// 4 keys. A transaction adds 1 to one of them, and reads nothing.
    Counters,
}

impl Workload {
    /// Its name.
    pub(crate) fn name(self) -> &'static str
        ensures { result.now ≡ workload_name self }
    {
        match self {
            Workload::Ring => "ring",
            Workload::Transfers => "transfers",
            Workload::Counters => "counters",
        }
    }

    /// The letter that its keys begin with. It takes O(1) time.
    pub fn letter(self) -> u8
        ensures letter { result ≡ letter_of self }
        ensures bound { result < 255 }
    {
        match self {
            Workload::Ring => ring::LETTER,
            Workload::Transfers => transfers::LETTER,
            Workload::Counters => counters::LETTER,
        }
    }

    /// How many keys it has.
    pub(crate) fn keys(self) -> u8
        ensures keys { result ≡ keys_of self }
        ensures some { 0 < result }
        ensures bound { result ≤ 32 }
    {
        match self {
            Workload::Ring => ring::KEYS,
            Workload::Transfers => transfers::KEYS,
            Workload::Counters => counters::KEYS,
        }
    }

    /// Gives the keys the values that they have at first, in the open transaction.
    pub(crate) fn set_up<B: ClusterName>(
        self,
        alloc: Global,
        session: &mut Session<B>,
    ) -> Result<(), Refusal> {
        match self {
            Workload::Ring => ring::set_up(alloc, session),
            Workload::Transfers => transfers::set_up(alloc, session),
            Workload::Counters => counters::set_up(alloc, session),
        }
    }

    /// The reads and the writes of one transaction, in the open one.
    pub(crate) fn fill<B: ClusterName, R: Wait>(
        self,
        rt: &R,
        alloc: Global,
        session: &mut Session<B>,
        random: &mut Pcg32,
    ) -> Result<(), Halt> {
        match self {
            Workload::Ring => ring::fill(rt, alloc, session, random),
            Workload::Transfers => transfers::fill(rt, alloc, session, random),
            Workload::Counters => counters::fill(alloc, session, random),
        }
    }

    /// Whether the pairs are such as so many committed transactions leave, in whatever order they ran: one cycle of all
    /// keys of the ring, and of the others the sum of all numbers. It takes O(n) time for n pairs.
    pub fn holds(self, pairs: &[(Key, Bytes)], committed: u64) -> bool
        ensures { Decides result (AreLeft self pairs.now committed) }
    {
        match self {
            Workload::Ring => ring::is_whole(pairs),
            Workload::Transfers => transfers::is_whole(pairs),
            Workload::Counters => counters::is_sum(pairs, committed),
        }
    }
}
