// Which step comes next. Most steps go on with what is in flight; some come again or too early, or name a role, an
// entry, a session or a key that isn't there.
ghost use Rattle.std.specs.Prelude.{◌≡◌, ◌<◌, ◌%◌};
ghost use Rattle.rand_pcg.specs.Lcg.{increment_of, started};
ghost use Rattle.rand_pcg.specs.Pcg.{multiplier_64, pcg32};

use crate::random::acts::{Act, Change, Span};
use crate::script::operation::{OPERATIONS, Operation};
use fdb_core::{Answered, InFlight, World};
use fdb_keys::Refusal;
use rand_core::utils::NextWord;
use rand_pcg::Pcg32;

/// How many commit proxies there are, and as many read-version proxies.
pub const PROXIES: u32 = 2;

/// How many logs there are.
pub const LOGS: u32 = 2;

const RESOLVERS: u32 = 2;

const SHARDS: u32 = 2;

const SESSIONS: u32 = 8;

const KEYS: u32 = 8;

#[derive(Drop)]
pub struct Drawing {
    random: Pcg32,
    // The step that was drawn last.
    last: Act,
    // Where the last step was drawn as the next one of a batch: the batch's proxy.
    driven: Option<u32>,
    // For each proxy its batch in flight.
    batches: [Batch; 2],
}

// A batch in flight, as far as it was driven.
#[derive(Clone, Copy)]
struct Batch {
    entry: u32,
    // How many of its steps are behind it.
    behind: u32,
}

// No entry has this number.
const NO_BATCH: Batch = Batch {
    entry: u32::MAX,
    behind: 0,
};

// The step of a batch that has so many behind it.
fn next_of(flight: InFlight, proxy: u32, behind: u32) -> Act {
    let entry = flight.entry;
    match behind {
        0..=1 => Act::Resolve {
            entry,
            resolver: behind,
        },
        2..=3 => Act::Verdict {
            entry,
            resolver: behind - 2,
        },
        4 => Act::Decide { proxy },
        5..=6 => Act::Push {
            entry,
            log: behind - 5,
        },
        7..=8 => Act::Logged {
            entry,
            log: behind - 7,
        },
        9 => Act::Report { proxy },
        _ => Act::Answer { proxy },
    }
}

// The version of the last entry, 0 where there is none.
fn last_version(world: &World) -> u64 {
    match world.book().last() {
        Some(entry) => entry.version,
        None => 0,
    }
}

// Whether the step was taken, now or before.
fn is_behind(answer: &Result<Answered, Refusal>) -> bool {
    matches!(
        answer,
        Ok(_) | Err(Refusal::Stale) | Err(Refusal::WrongState)
    )
}

impl Drawing {
    /// Draws from the seed.
    pub fn new(seed: u64) -> Self
        ensures { result.random ≡ started 64 multiplier_64 seed (increment_of 64 1) }
    {
        Drawing {
            random: Pcg32::new(seed, 1),
            last: Act::Grant { proxy: 0 },
            driven: None,
            batches: [NO_BATCH; 2],
        }
    }

    /// The next step. In one of 16 cases it is the last one again.
    pub fn draw(&mut self, world: &World) -> Act
        ensures again { (pcg32 self.old.random).0 % 16 ≡ 0 → result ≡ self.old.last }
        ensures last { result ≡ self.new.last }
    {
        self.driven = None;
        self.last = match self.below(16) {
            0 => self.last,
            1..=2 => self.stray(world),
            3..=9 => self.client(world),
            10..=14 => self.drive(world),
            _ => self.serve(world),
        };
        self.last
    }

    /// The step that was drawn last is answered so.
    pub fn note(&mut self, answer: &Result<Answered, Refusal>) {
        match self.driven {
            Some(proxy) if is_behind(answer) => self.advance(proxy),
            _ => (),
        }
    }

    fn advance(&mut self, proxy: u32) {
        if let Some(batch) = self.batches.get_mut(proxy as usize) {
            batch.behind = batch.behind.saturating_add(1);
        }
    }

    // How many steps the proxy's batch has behind it.
    fn behind(&mut self, proxy: u32, entry: u32) -> u32 {
        match self.batches.get_mut(proxy as usize) {
            Some(batch) => {
                if batch.entry != entry {
                    *batch = Batch { entry, behind: 0 };
                }
                batch.behind
            }
            None => 0,
        }
    }

    // A number below the count, of the next word.
    fn below(&mut self, count: u32) -> u32
        requires { 0 < count }
        ensures bound { result < count }
        ensures drawn { result ≡ (pcg32 self.old.random).0 % count }
        ensures next { self.new ≡ record self.old { random = (pcg32 self.old.random).1 } }
    {
        self.random.next_word() % count
    }

    // In one of so many cases.
    fn rarely(&mut self, cases: u32) -> bool
        requires { 0 < cases }
    {
        self.below(cases) == 0
    }

    // The number of one of so many, or at times of none.
    fn some_of(&mut self, count: u32) -> u32
        requires { 0 < count }
    {
        if self.rarely(32) {
            return self.below(4).saturating_add(count);
        }
        self.below(count)
    }

    // At times an inverted range, or one that ends after all keys.
    fn span(&mut self) -> Span {
        let (one, other) = (self.some_of(KEYS), self.some_of(KEYS));
        if self.rarely(16) {
            return Span {
                begin: one,
                end: other,
            };
        }
        Span {
            begin: one.min(other),
            end: one.max(other),
        }
    }

    fn change(&mut self) -> Change {
        match self.below(10) {
            0 => Change::Clear {
                key: self.some_of(KEYS),
            },
            1 => Change::ClearRange { span: self.span() },
            2..=4 => self.operate(Operation::Set),
            5..=6 => self.stamped(),
            _ => {
                let place = self.below(10);
                self.operate(OPERATIONS[place as usize])
            }
        }
    }

    fn operate(&mut self, operation: Operation) -> Change {
        Change::Operate {
            operation,
            key: self.some_of(KEYS),
            operand: self.below(8) as u8,
        }
    }

    // Mostly the stamp fits into the operand, and at times it goes one byte too far.
    fn stamped(&mut self) -> Change {
        let besides = self.below(5);
        let offset = if self.rarely(8) {
            besides + 1
        } else {
            self.below(besides + 1)
        };
        Change::Stamped {
            key: self.some_of(KEYS),
            besides,
            offset,
        }
    }

    // What a session does with its open transaction.
    fn call(&mut self, session: u32) -> Act {
        match self.below(8) {
            0..=2 => Act::Get {
                session,
                key: self.some_of(KEYS),
                snapshot: self.rarely(4),
            },
            3 => Act::GetRange {
                session,
                range: self.span(),
                limit: self.below(4),
                reverse: self.rarely(2),
                snapshot: self.rarely(4),
            },
            4 if self.rarely(2) => Act::AddRead {
                session,
                range: self.span(),
            },
            4 => Act::AddWrite {
                session,
                range: self.span(),
            },
            _ => Act::Write {
                session,
                mutation: self.change(),
            },
        }
    }

    // A step of a session that it may well take: it begins a transaction, goes on with it or submits it.
    fn client(&mut self, world: &World) -> Act {
        let session = self.below(SESSIONS);
        if world.txn(session).is_none() {
            return self.begin(world, session);
        }
        if self.rarely(8) {
            return Act::Submit {
                session,
                proxy: self.below(PROXIES),
            };
        }
        self.call(session)
    }

    // A session without an open transaction asks for one, or waits for an answer, which others have to bring about.
    fn begin(&mut self, world: &World, session: u32) -> Act {
        let proxy = self.below(PROXIES);
        match self.below(6) {
            0 => Act::Grant { proxy },
            1..=2 => Act::Ask { session, proxy },
            _ => self.drive(world),
        }
    }

    // Most versions lie close together, so that few transactions are too old.
    fn seal(&mut self, proxy: u32) -> Act {
        let advance = if self.rarely(32) {
            5_000_000
        } else {
            u64::from(self.below(100))
        };
        Act::Seal { proxy, advance }
    }

    // A batch takes the next of its steps. A proxy without one begins it, or gets one more transaction before.
    fn drive(&mut self, world: &World) -> Act {
        let proxy = self.below(PROXIES);
        match world.in_flight(proxy) {
            Ok(flight) => self.go_on(flight, proxy),
            Err(_why) if self.rarely(4) => self.seal(proxy),
            Err(_why) => Act::Submit {
                session: self.below(SESSIONS),
                proxy,
            },
        }
    }

    // The next step of the batch, or at times one too early.
    fn go_on(&mut self, flight: InFlight, proxy: u32) -> Act {
        let behind = self.behind(proxy, flight.entry);
        if self.rarely(16) {
            let early = self.below(4).saturating_add(1);
            return next_of(flight, proxy, behind.saturating_add(early));
        }
        self.driven = Some(proxy);
        next_of(flight, proxy, behind)
    }

    // A shard applies what its log has, forgets what is old, or has its log drop what it applied.
    fn serve(&mut self, world: &World) -> Act {
        let shard = self.some_of(SHARDS);
        match self.below(8) {
            0 => self.forget(world),
            1 => Act::Pop { shard },
            _ => Act::Pull {
                shard,
                limit: self.below(8),
            },
        }
    }

    fn forget(&mut self, world: &World) -> Act {
        let ago = u64::from(self.below(1_000));
        Act::Forget {
            shard: self.some_of(SHARDS),
            version: last_version(world).saturating_sub(ago),
        }
    }

    // One of the last entries, or one that isn't there.
    fn entry(&mut self, world: &World) -> u32 {
        let count = u32::try_from(world.book().len()).unwrap_or(u32::MAX);
        match self.below(8) {
            0 => u32::MAX,
            ago => count.saturating_add(1).saturating_sub(ago),
        }
    }

    // A step of any kind, whatever is in flight.
    fn stray(&mut self, world: &World) -> Act {
        let proxy = self.some_of(PROXIES);
        match self.below(4) {
            0 => self.stray_client(proxy),
            1 => self.stray_proxy(proxy),
            2 => self.stray_message(world),
            _ => self.serve(world),
        }
    }

    fn stray_client(&mut self, proxy: u32) -> Act {
        let session = self.some_of(SESSIONS);
        match self.below(4) {
            0 => Act::Ask {
                session: self.below(SESSIONS),
                proxy,
            },
            1 => Act::Grant { proxy },
            2 => Act::Submit { session, proxy },
            _ => self.call(session),
        }
    }

    fn stray_proxy(&mut self, proxy: u32) -> Act {
        match self.below(6) {
            0 => self.seal(proxy),
            1 => Act::Decide { proxy },
            2 => Act::Report { proxy },
            3 => Act::Answer { proxy },
            4 => self.window(),
            _ => Act::Move {
                range: self.span(),
                to: self.some_of(RESOLVERS),
            },
        }
    }

    // The window is at times one of a few entries, mostly the greatest one, and at times none.
    fn window(&mut self) -> Act {
        let window = match self.below(16) {
            0 => 0,
            1 => 5_000_001,
            2..=7 => u64::from(self.below(300)).saturating_add(1),
            _ => 5_000_000,
        };
        Act::Window { window }
    }

    fn stray_message(&mut self, world: &World) -> Act {
        let entry = self.entry(world);
        let (resolver, log) = (self.some_of(RESOLVERS), self.some_of(LOGS));
        match self.below(4) {
            0 => Act::Resolve { entry, resolver },
            1 => Act::Verdict { entry, resolver },
            2 => Act::Push { entry, log },
            _ => Act::Logged { entry, log },
        }
    }
}
