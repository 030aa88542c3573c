// Copies of messages, which share their mutations, and of mutations, which share their bytes.
ghost use Rattle.std.specs.Prelude.{◌≡◌, IfOk};

use crate::message::Tagged;
use fdb_keys::Items;
use fdb_txn::TagMsg;
use std::alloc::{AllocError, Global};

impl Tagged {
    ghost use Rattle.std.specs.Prelude.{◌≡◌, IfOk};

    /// A copy of the mutation with its place and its tags: the tags lie in memory of the allocator, and the mutation's
    /// bytes are shared. Refused only where memory runs out.
    pub fn copy(&self, alloc: Global) -> Result<Tagged, AllocError>
        ensures { IfOk result (λ copy. copy ≡ self.now) }
    {
        let tags = Vec::from_slice(alloc, self.tags.as_slice())?;
        // The mutation comes last: the prover goes over every kind of one where it is dropped.
        let mutation = self.mutation.clone()?;
        Ok(Tagged {
            place: self.place,
            mutation,
            tags: Items::from_vec(tags),
        })
    }
}

/// A copy of the message, which shares its mutations. It takes O(1) time.
pub(crate) fn message_of(message: &TagMsg) -> Result<TagMsg, AllocError>
    ensures { IfOk result (λ copy. copy ≡ message.now) }
{
    Ok(TagMsg {
        version: message.version,
        prev: message.prev,
        body: message.body.clone()?,
    })
}
