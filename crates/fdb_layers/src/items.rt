//! What the record of a queue says of its items.
ghost use Rattle.fdb_layers.specs.QueueBooks.{KeepsItems};

use crate::laws::queue_books_keep_their_items;
use crate::queue::StampedQueue;
use fdb_runtime::{ClusterName, Record};

/// Says that the record's book keeps the items of its queue, and does nothing else. What a transaction popped was
/// pushed before, and nobody popped it in between, so nothing is handed out twice. What was pushed was popped, or
/// stands in the queue at the end of the book, so nothing is lost. It takes no memory, and O(1) time.
pub fn know_items<B: ClusterName>(record: &Record<B, StampedQueue>)
    ensures { ∥ KeepsItems B.config.resolver_splits «record».now.front ∥₁ }
{
    queue_books_keep_their_items();
    record.know_allowed();
}
