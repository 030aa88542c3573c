//! The queue of a running database: work that pushes an item, and work that pops one.
ghost use Rattle.std.specs.Prelude.{◌≡◌, ℕ, List, [], ◌∷◌, Some, ⊤, IfOk, OnOk};
ghost use Rattle.std.specs.Option.{option_copied, option_map};
ghost use Rattle.fdb_keys.specs.Points.{Point};
ghost use Rattle.fdb_keys.specs.Prefixes.{prefix_range};
ghost use Rattle.fdb_client.specs.declared.program.Transcript.{Transcript as ATranscript};
ghost use Rattle.fdb_layers.specs.Operations.{DoesMore, reading_range};
ghost use Rattle.fdb_layers.specs.Queue.{IsOldestIfAny, PopsItem, item_key, item_of, older, pushing, queue, taking};
ghost use Rattle.fdb_layers.specs.Queue.{unstamped};
ghost use Rattle.fdb_runtime.specs.Works.{IsSameSession, IsStillOpen};

use crate::operations::{clear, read_range, stamp};
use crate::queue::StampedQueue;
use fdb_keys::{Items, Key, KeyRange, Refusal, is_before};
use fdb_runtime::{Bytes, ClusterName, Session, TxnId, Work};
use std::alloc::Global;
use std::sync::Wait;

// How many bytes of a value come before its item.
const STAMP_SIZE: usize = 10;

// The key under which the transaction of the id pushes.
fn item_key(alloc: Global, id: TxnId) -> Result<Key, Refusal>
    ensures { IfOk result (λ key. key ≡ item_key id) }
{
    let mut text = Vec::new(alloc);
    text.extend_from_slice(b"queue/")?;
    text.extend_from_slice(&id.session.to_be_bytes())?;
    text.extend_from_slice(&id.number.to_be_bytes())?;
    let key = Key::new(alloc, text.as_slice())?;
    Ok(key)
}

// The item behind the place of its stamp.
fn unstamped(alloc: Global, item: &[u8]) -> Result<Vec<u8>, Refusal>
    ensures { IfOk result (λ operand. operand.items ≡ unstamped item.now) }
{
    let mut operand = Vec::new(alloc);
    operand.extend_from_slice(&[0; STAMP_SIZE])?;
    operand.extend_from_slice(item)?;
    Ok(operand)
}

// The id of the open transaction. Refused as `NoTransaction` where none is open.
fn own_id<B: ClusterName>(session: &Session<B, StampedQueue>) -> Result<TxnId, Refusal>
    ensures { IfOk result (λ id.
        option_map (λ (transcript : ATranscript). transcript.id) session.now.current ≡ Some id) }
{
    match session.open_id() {
        Some(id) => Ok(id),
        None => Err(Refusal::NoTransaction),
    }
}

// The open transaction pushes the item, under the key of the id.
fn push_item<B: ClusterName>(
    alloc: Global,
    session: &mut Session<B, StampedQueue>,
    id: TxnId,
    item: &[u8],
) -> Result<(), Refusal>
    ensures same { IsSameSession session.old session.new }
    ensures open { OnOk result (IsStillOpen session.old.current session.new.current) }
    ensures pushes { OnOk result
        (DoesMore session.old.current (pushing id item.now) session.new.current) }
{
    let key = item_key(alloc, id)?;
    let operand = unstamped(alloc, item)?;
    stamp(alloc, session, &key, operand.as_slice())
}

/// Pushes an item, under a key of its transaction's own. It reads nothing, so nobody turns it down for a conflict. It
/// is refused as `Session::stamped` is: as `ValueTooLarge` where the item has more than 99,990 bytes. It takes the time
/// of one call of that.
#[derive(Drop)]
pub struct Push {
    /// The item.
    pub item: Bytes,
}

impl<B: ClusterName> Work<B, StampedQueue> for Push {
    ghost Task = { List ℕ };

    ghost task = { λ push. push.item };

    ghost does = { λ push transcript. transcript.ops ≡ pushing transcript.id push.item };

    fn run<R: Wait>(
        &mut self,
        _rt: &R,
        alloc: Global,
        session: &mut Session<B, StampedQueue>,
    ) -> Result<(), Refusal> {
        let id = own_id(session)?;
        push_item(alloc, session, id, self.item.as_slice())
    }
}

// All keys of the queue.
fn queue_range(alloc: Global) -> Result<KeyRange, Refusal>
    ensures { IfOk result (λ range. range ≡ prefix_range queue) }
{
    let prefix = Key::new(alloc, b"queue/")?;
    let range = KeyRange::prefix(alloc, &prefix)?;
    Ok(range)
}

// All pairs of the queue, as the open transaction reads them.
fn read_all<B: ClusterName, R: Wait>(
    rt: &R,
    alloc: Global,
    session: &mut Session<B, StampedQueue>,
) -> Result<Items<(Key, Bytes)>, Refusal>
    ensures same { IsSameSession session.old session.new }
    ensures open { OnOk result (IsStillOpen session.old.current session.new.current) }
    ensures reads { IfOk result (λ pairs.
        DoesMore session.old.current (reading_range (prefix_range queue) pairs ∷ []) session.new.current) }
{
    let range = queue_range(alloc)?;
    let pairs = read_range(rt, alloc, session, &range)?;
    Ok(pairs)
}

// Of two pairs the one with the lesser value, and the first one where neither is less.
fn older<'a>(one: &'a (Key, Bytes), other: &'a (Key, Bytes)) -> &'a (Key, Bytes)
    ensures { result.now ≡ older one.now other.now }
{
    if is_before(other.1.as_slice(), one.1.as_slice()) {
        other
    } else {
        one
    }
}

// The pair that was committed first, if there is any.
fn oldest(pairs: &[(Key, Bytes)]) -> Option<&(Key, Bytes)>
    ensures { IsOldestIfAny pairs.now (option_copied result) }
{
    let mut oldest = pairs.first()?;
    for pair in pairs {
        oldest = older(oldest, pair);
    }
    Some(oldest)
}

// The item of a value.
fn item_of(alloc: Global, value: &[u8]) -> Result<Bytes, Refusal>
    ensures { IfOk result (λ item. item ≡ item_of value.now) }
{
    let item = Bytes::copy_from_slice(alloc, value.get(STAMP_SIZE..).unwrap_or(&[]))?;
    Ok(item)
}

// The item of the pair, if there is one.
fn item_if_any(alloc: Global, oldest: Option<&(Key, Bytes)>) -> Result<Option<Bytes>, Refusal>
    ensures { IfOk result (λ item. item
        ≡ option_map (λ (pair : Point × List ℕ). item_of pair.1) (option_copied oldest.entry)) }
{
    match oldest {
        Some(pair) => {
            let item = item_of(alloc, pair.1.as_slice())?;
            Ok(Some(item))
        }
        None => Ok(None),
    }
}

// Takes the pair out of the queue, if there is one.
fn take<B: ClusterName>(
    session: &mut Session<B, StampedQueue>,
    oldest: Option<&(Key, Bytes)>,
) -> Result<(), Refusal>
    requires open { IsStillOpen session.old.current session.old.current }
    ensures same { IsSameSession session.old session.new }
    ensures open { OnOk result (IsStillOpen session.old.current session.new.current) }
    ensures takes { OnOk result
        (DoesMore session.old.current (taking (option_copied oldest.entry)) session.new.current) }
{
    match oldest {
        Some(pair) => clear(session, &pair.0),
        None => Ok(()),
    }
}

/// Pops the item that was committed first, if there is any. It reads all of the queue, so it is turned down where
/// another transaction pushed or popped meanwhile. It is refused as `Session::get_range` is. It takes the time of one
/// call of that, and O(n) comparisons of values for the n items of the queue.
#[derive(Drop)]
pub struct Pop {
    /// The item that was popped, once the work has run: none where the queue was empty.
    pub item: Option<Bytes>,
}

impl<B: ClusterName> Work<B, StampedQueue> for Pop {
    ghost Task = { ⊤ };

    ghost task = { λ pop. tt };

    ghost does = { λ pop transcript. PopsItem transcript pop.item };

    fn run<R: Wait>(
        &mut self,
        rt: &R,
        alloc: Global,
        session: &mut Session<B, StampedQueue>,
    ) -> Result<(), Refusal> {
        let pairs = read_all(rt, alloc, session)?;
        let first = oldest(pairs.as_slice());
        self.item = item_if_any(alloc, first)?;
        take(session, first)
    }
}
