//! What the receipt of a pop says of the item that it hands out.
ghost use Rattle.fdb_layers.specs.Handing.{HandsOutIfAny};
ghost use Rattle.fdb_layers.specs.Queue.{PopsItem};

use crate::queue::StampedQueue;
use crate::queueing::Pop;
use fdb_runtime::{ClusterName, Receipt};

/// Says that the transaction of the receipt hands out the item that the work popped, and does nothing else: the item
/// waited in the queue right before the place where this transaction took it. So nobody else is handed it, as
/// `know_items` says of the record. It takes no memory, and O(1) time.
pub fn know_handed_out<B: ClusterName>(receipt: &Receipt<B, StampedQueue>, pop: &Pop)
    requires popped { PopsItem receipt.now.transcript pop.now.item }
    ensures { HandsOutIfAny B.config.resolver_splits receipt.now pop.now.item }
{
    receipt.know_allowed();
    let _spot = receipt.spot();
}
