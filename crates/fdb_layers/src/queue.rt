ghost use Rattle.fdb_layers.specs.Queue.{IsOfQueue, AreStamped};

use fdb_roles::Layer;

/// A queue whose pushes never conflict. An item stands behind the stamp of its commit, under a key that no other
/// transaction pushes under. A transaction pushes an item and reads nothing, pops the item that was committed first, or
/// only reads. Whatever stands in the queue begins with a stamp.
pub struct StampedQueue;

impl Layer for StampedQueue {
    ghost allows = { IsOfQueue };

    ghost holds = { AreStamped };

    fn starts() {}

    fn keeps() {}
}
