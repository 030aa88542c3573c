// The shards.
ghost use Rattle.std.specs.Prelude.{◌≡◌, ◌<◌, suc, length, None};
ghost use Rattle.fdb_keys.specs.Answers.{Answers};
ghost use Rattle.fdb_core.specs.refinement.Starts.{AreNewShards};

use fdb_keys::Refusal;
use fdb_storage::{Shard, ShardMap};
use std::alloc::Global;

/// A shard, with how many entries it applied and the version through which its log was told to drop its messages.
#[derive(Drop)]
pub(crate) struct ShardRole {
    pub(crate) state: Shard,
    pub(crate) applied: u32,
    pub(crate) popped: u64,
}

/// The shards of the map, which applied nothing. Refused only as `NoMemory`.
pub(crate) fn new_shards(
    alloc: Global,
    shard_map: &ShardMap,
    count: u32,
) -> Result<Vec<ShardRole>, Refusal>
    requires { count ≡ suc (length shard_map.now) }
    ensures { Answers result None (λ list. AreNewShards count shard_map.now list.items) }
{
    let mut list = Vec::new(alloc);
    for tag in 0..count {
        let state = Shard::new(alloc, tag, shard_map.range(tag)?);
        list.push(ShardRole {
            state,
            applied: 0,
            popped: 0,
        })?;
    }
    Ok(list)
}
