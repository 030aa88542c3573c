// A simulated database: its roles, its clients, and all messages that are on their way.
ghost use Rattle.std.specs.Prelude.{◌≡◌, ◌⊎◌, IfErr};
ghost use Rattle.fdb_keys.specs.declared.refusal.Refusal.TheVariants.{NoMemory, BadConfig};

use crate::plan::Plan;
use crate::player::Player;
use crate::pool::Pool;
use crate::roles::Roles;
use crate::tally::Tally;
use fdb_book::{Blank, Book};
use fdb_keys::{Key, Refusal};
use fdb_proxy::Config;
use fdb_roles::Placed;
use fdb_sections::{
    AckMessage, BatchMessage, Client, ClusterName, CommitReply, DatabaseName, GrantReply, Issued,
    LogMessage, LoggedFront, Open, PartMessage, Reported, VerdictMessage, both,
};
use rand_core::Rng;
use rand_pcg::Pcg32;
use std::alloc::{AllocError, Global};

/// What is on its way, each kind by itself.
#[derive(Drop)]
pub(crate) struct Pools<B: DatabaseName> {
    pub(crate) batches: Pool<BatchMessage<B>>,
    pub(crate) issued: Pool<Issued<B>>,
    pub(crate) parts: Pool<PartMessage<B>>,
    pub(crate) verdicts: Pool<VerdictMessage<B>>,
    pub(crate) messages: Pool<LogMessage<B>>,
    pub(crate) acknowledgements: Pool<AckMessage<B>>,
    pub(crate) logged: Pool<LoggedFront<B>>,
    pub(crate) reported: Pool<Reported<B>>,
    pub(crate) grants: Pool<GrantReply<B>>,
    pub(crate) outcomes: Pool<CommitReply<B>>,
}

impl<B: DatabaseName> Pools<B> {
    fn new(alloc: Global) -> Self {
        Pools {
            batches: Pool::new(alloc),
            issued: Pool::new(alloc),
            parts: Pool::new(alloc),
            verdicts: Pool::new(alloc),
            messages: Pool::new(alloc),
            acknowledgements: Pool::new(alloc),
            logged: Pool::new(alloc),
            reported: Pool::new(alloc),
            grants: Pool::new(alloc),
            outcomes: Pool::new(alloc),
        }
    }

    /// How many messages there are, but for parts, which nobody takes any more once a proxy has failed.
    pub(crate) fn count(&self) -> usize {
        self.batches
            .len()
            .saturating_add(self.issued.len())
            .saturating_add(self.verdicts.len())
            .saturating_add(self.messages.len())
            .saturating_add(self.acknowledgements.len())
            .saturating_add(self.logged.len())
            .saturating_add(self.reported.len())
            .saturating_add(self.grants.len())
            .saturating_add(self.outcomes.len())
    }
}

/// The book's cells, and how many entries the book may have.
#[derive(Drop)]
pub(crate) struct Cells<B: DatabaseName> {
    pub(crate) book: Book<B>,
    pub(crate) limit: u32,
    ghost limited: { limit ≡ B.config.book },
}

/// What the clients came to.
#[derive(Drop)]
pub(crate) struct Told {
    pub(crate) tally: Tally,
    // The greatest version that was acknowledged.
    pub(crate) greatest: u64,
    // What was acknowledged.
    pub(crate) placed: Vec<Placed>,
    // The ids of what was refused as having no effect, each as one number.
    pub(crate) absent: Vec<u128>,
    // There was no memory to keep one of these.
    pub(crate) lacks_memory: bool,
}

#[derive(Drop)]
pub(crate) struct Sim<B: DatabaseName> {
    pub(crate) alloc: Global,
    pub(crate) cells: Cells<B>,
    pub(crate) roles: Roles<B>,
    pub(crate) pools: Pools<B>,
    pub(crate) players: Vec<Player<B>>,
    pub(crate) keys: Vec<Key>,
    pub(crate) random: Pcg32,
    pub(crate) told: Told,
    // No transaction begins any more.
    pub(crate) is_over: bool,
    // Commit proxies take nothing any more, and refuse what isn't sealed.
    pub(crate) is_closed: bool,
    // A resolver failed, or a proxy whose batch has an entry: no resolver takes anything any more.
    pub(crate) has_hole: bool,
    // A shard failed: there needn't be a record.
    pub(crate) lacks_shard: bool,
    // How far each entry's version is above that of the one before it.
    pub(crate) advance: u64,
    // The number of the next session.
    pub(crate) next_session: u32,
}

/// Plays the plan on a database of the configuration, whose book has the cells, and judges what came of it. Refused as
/// `BadConfig` where the configuration isn't legal or asks for other cells, and as `NoMemory`, also where what was
/// acknowledged can't be checked for lack of it. It takes O(a log a) time for a acts.
pub fn simulate<B: ClusterName>(
    alloc: Global,
    blank: Blank,
    config: &Config,
    plan: &Plan,
) -> Result<Tally, Refusal>
    requires cells { blank ≡ B.cells }
    requires config { config.now ≡ B.config }
    ensures { IfErr result (λ why. (why ≡ NoMemory) ⊎ (why ≡ BadConfig)) }
{
    if blank.capacity() != config.book as usize {
        return Err(Refusal::BadConfig);
    }
    let book: Book<Open<B>> = Book::open(blank);
    let cells = Cells {
        book,
        limit: config.book,
    };
    let roles = Roles::new(alloc, &cells.book, config);
    let players = make_players(alloc, &cells.book, plan.clients);
    let keys = make_keys(alloc, plan.keys);
    match both(roles, both(players, keys)) {
        Ok((roles, (players, keys))) => {
            let sim = Sim {
                alloc,
                cells,
                roles,
                pools: Pools::new(alloc),
                players,
                keys,
                random: Pcg32::new(plan.seed, 1),
                told: Told {
                    tally: Tally::new(),
                    greatest: 0,
                    placed: Vec::new(alloc),
                    absent: Vec::new(alloc),
                    lacks_memory: false,
                },
                is_over: false,
                is_closed: false,
                has_hole: false,
                lacks_shard: false,
                advance: plan.advance,
                next_session: plan.clients,
            };
            play_out(sim, config, plan)
        }
        Err(why) => Err(start_refusal(why)),
    }
}

/// How many there are of a kind, of which no plan or configuration asks for more than a number holds.
pub(crate) fn count_of(len: usize) -> u32 {
    u32::try_from(len).unwrap_or(u32::MAX)
}

// The clients of the first numbers. Refused only as `NoMemory`.
fn make_players<B: DatabaseName>(
    alloc: Global,
    book: &Book<B>,
    count: u32,
) -> Result<Vec<Player<B>>, Refusal>
    ensures { IfErr result (λ why. why ≡ NoMemory) }
{
    let mut made = Vec::with_capacity(alloc, count as usize)?;
    for number in 0..count {
        let client = Client::new(alloc, book, number)?;
        made.push(Player::new(client))?;
    }
    Ok(made)
}

// So many keys. Refused only as `NoMemory`.
fn make_keys(alloc: Global, count: u8) -> Result<Vec<Key>, Refusal>
    ensures { IfErr result (λ why. why ≡ NoMemory) }
{
    let mut made = Vec::with_capacity(alloc, count as usize)?;
    for number in 0..count {
        made.push(key_of(alloc, number)?)?;
    }
    Ok(made)
}

/// The key of the number. Refused only as `NoMemory`.
pub(crate) fn key_of(alloc: Global, number: u8) -> Result<Key, Refusal>
    ensures { IfErr result (λ why. why ≡ NoMemory) }
{
    match Key::new(alloc, &[b'k', number]) {
        Ok(key) => Ok(key),
        Err(_no_memory) => Err(Refusal::NoMemory),
    }
}

// Why nothing is played: unless memory ran out, the configuration isn't legal.
fn start_refusal(why: Refusal) -> Refusal
    ensures { (result ≡ NoMemory) ⊎ (result ≡ BadConfig) }
{
    match why {
        Refusal::NoMemory => why,
        _ => Refusal::BadConfig,
    }
}

// Plays the plan to its end, and judges it.
fn play_out<B: ClusterName>(
    sim: Sim<Open<B>>,
    config: &Config,
    plan: &Plan,
) -> Result<Tally, Refusal>
    ensures { IfErr result (λ why. why ≡ NoMemory) }
{
    let mut sim = sim;
    let told = sim.play_and_judge(config, plan);
    drop(sim);
    told
}

impl<B: ClusterName> Sim<Open<B>> {
    // The same, refused only as `NoMemory`.
    fn play_and_judge(&mut self, config: &Config, plan: &Plan) -> Result<Tally, Refusal>
        ensures { IfErr result (λ why. why ≡ NoMemory) }
    {
        self.play(plan)?;
        match self.judge(config, plan) {
            Ok(tally) => Ok(tally),
            Err(_no_memory) => Err(Refusal::NoMemory),
        }
    }

    // Draws as many acts as the plan says, and then plays what was begun to its end. It fails only where memory runs
    // out.
    fn play(&mut self, plan: &Plan) -> Result<(), AllocError> {
        for step in 0..plan.steps {
            if plan.fails_at == Some(step) {
                self.fail_drawn();
            }
            if plan.closes_at == Some(step) {
                self.is_closed = true;
            }
            self.act()?;
        }
        self.is_over = true;
        self.drain()
    }

    /// A number below the count, 0 where that is 0.
    pub(crate) fn draw(&mut self, count: u32) -> u32 {
        let drawn = self.random.next_u32();
        if count == 0 {
            return 0;
        }
        drawn % count
    }

    /// One more act changed something.
    pub(crate) fn count_act(&mut self) {
        Tally::add(&mut self.told.tally.acts);
    }
}
