// Which step comes next. Most steps name what comes next at their role, and some come too early, again or name a role
// or an entry that isn't there.
ghost use Rattle.std.specs.Prelude.{◌<◌};

use crate::worlds::acts::{Act, Call};
use fdb_core::World;
use fdb_making::Random;

const PROXIES: u8 = 3;

const RESOLVERS: u8 = 3;

const LOGS: u8 = 2;

const SHARDS: u8 = 3;

#[derive(Drop)]
pub(super) struct Drawing {
    random: Random,
    // For each resolver and each log the entry that it takes next.
    resolvers: [u32; 3],
    logs: [u32; 2],
    // The version of the last entry.
    version: u64,
}

// The number at the index, or 0.
fn at(numbers: &[u32], index: u32) -> u32 {
    match numbers.get(index as usize) {
        Some(number) => *number,
        None => 0,
    }
}

// The number at the index, if there is one, goes up by 1.
fn raise(numbers: &mut [u32], index: u32) {
    if let Some(number) = numbers.get_mut(index as usize) {
        *number = number.saturating_add(1);
    }
}

impl Drawing {
    pub(super) fn new(seed: u64) -> Self {
        Drawing {
            random: Random::new(seed),
            resolvers: [0; 3],
            logs: [0; 2],
            version: 0,
        }
    }

    /// The step was accepted.
    pub(super) fn note(&mut self, act: Act) {
        match act {
            Act::Seal(_, advance) => self.version = self.version.saturating_add(advance.max(1)),
            Act::Resolve(_, resolver) => raise(self.resolvers.as_mut_slice(), resolver),
            Act::Push(_, log) => raise(self.logs.as_mut_slice(), log),
            _ => (),
        }
    }

    // The number of one of so many roles, or at times of none.
    fn role(&mut self, count: u8) -> u32
        requires { 0 < count }
    {
        if self.random.below(32) == 0 {
            u32::from(count).saturating_add(u32::from(self.random.below(3)))
        } else {
            u32::from(self.random.below(count))
        }
    }

    fn key(&mut self) -> u8 {
        b'a' + self.random.below(9)
    }

    // At times an inverted range.
    fn call(&mut self) -> Call {
        let (key, other) = (self.key(), self.key());
        match self.random.below(12) {
            0..=2 => Call::Get(key),
            3 => Call::SnapshotGet(key),
            4..=5 => Call::Range(
                key.min(other),
                key.max(other),
                u32::from(self.random.below(3)),
            ),
            6..=7 => Call::Set(key, self.random.below(5)),
            8 => Call::Add(key, self.random.below(5)),
            9 => Call::ClearRange(key.min(other), key.max(other)),
            10 => Call::AddRead(key, other),
            _ => Call::AddWrite(key, other),
        }
    }

    // The entry, or at times one beside it or one that isn't there.
    fn near(&mut self, entry: u32) -> u32 {
        match self.random.below(20) {
            0 => entry.saturating_sub(1),
            1 => entry.saturating_add(1),
            2 => u32::MAX,
            _ => entry,
        }
    }

    // An entry near that of a batch in flight, if there is one at the proxy that is drawn.
    fn in_flight(&mut self, world: &World) -> u32 {
        let proxy = self.role(PROXIES);
        match world.in_flight(proxy) {
            Ok(flight) => self.near(flight.entry),
            Err(_why) => self.near(0),
        }
    }

    // Most versions lie close together, so that few transactions are old.
    fn advance(&mut self) -> u64 {
        if self.random.below(16) == 0 {
            5_000_000
        } else {
            u64::from(self.random.below(100))
        }
    }

    // A step of a session, or of those who serve it. One with an open transaction drops it at times, and some of the
    // steps of one without are refused.
    fn client_act(&mut self, world: &World) -> Act {
        let session = u32::from(self.random.below(8));
        let is_open = world.txn(session).is_some();
        let kind = self.random.below(if is_open { 16 } else { 8 });
        match (is_open, kind) {
            (true, 0) | (false, 0..=2) => Act::Ask(session, self.role(PROXIES)),
            (true, 1..=3) | (false, 7) => Act::Submit(session, self.role(PROXIES)),
            (false, 3..=5) => Act::Grant(self.role(PROXIES)),
            _ => Act::Call(session, self.call()),
        }
    }

    // A step of a commit proxy, which has a batch in flight or has none.
    fn proxy_act(&mut self, world: &World) -> Act {
        let proxy = self.role(PROXIES);
        let is_busy = world.in_flight(proxy).is_ok();
        let kind = self.random.below(if is_busy { 10 } else { 8 });
        match (is_busy, kind) {
            (true, 1..=3) | (false, 0) => Act::Decide(proxy),
            (true, 4..=6) => Act::Report(proxy),
            (true, 7..) | (false, 1) => Act::Answer(proxy),
            _ => Act::Seal(proxy, self.advance()),
        }
    }

    // A resolver takes an entry, or its verdicts on one come to the entry's proxy.
    fn resolver_act(&mut self, world: &World) -> Act {
        let resolver = self.role(RESOLVERS);
        if self.random.below(3) == 0 {
            let next = at(self.resolvers.as_slice(), resolver);
            Act::Resolve(self.near(next), resolver)
        } else {
            Act::Verdict(self.in_flight(world), resolver)
        }
    }

    // A log takes its message of an entry, or its acknowledgement of one comes to the entry's proxy.
    fn log_act(&mut self, world: &World) -> Act {
        let log = self.role(LOGS);
        if self.random.below(3) == 0 {
            let next = at(self.logs.as_slice(), log);
            Act::Push(self.near(next), log)
        } else {
            Act::Logged(self.in_flight(world), log)
        }
    }

    fn shard_act(&mut self) -> Act {
        let shard = self.role(SHARDS);
        match self.random.below(6) {
            0 => {
                let ago = u64::from(self.random.below(250)).saturating_mul(4);
                Act::Forget(shard, self.version.saturating_sub(ago))
            }
            1 => Act::Pop(shard),
            _ => Act::Pull(shard, u32::from(self.random.below(4))),
        }
    }

    pub(super) fn act(&mut self, world: &World) -> Act {
        match self.random.below(20) {
            // At times an empty or an inverted range.
            _ if self.random.below(40) == 0 => Act::Move(
                self.key(),
                self.key(),
                self.role(RESOLVERS),
            ),
            0..=6 => self.client_act(world),
            7..=10 => self.proxy_act(world),
            11..=15 => self.resolver_act(world),
            16..=18 => self.log_act(world),
            _ => self.shard_act(),
        }
    }
}
