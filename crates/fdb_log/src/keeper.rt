// Which tags a log keeps.
ghost use Rattle.std.specs.Prelude.{◌≡◌, ◌<◌, ◌≤◌};
ghost use Rattle.fdb_txn.specs.Limits.{tag_limit};
ghost use Rattle.fdb_log.specs.Messages.{is_kept};
ghost use Rattle.fdb_log.specs.Waiting.{kept_among};

use crate::message::Tagged;
use crate::tag_set::TagSet;

/// The number of a log, and how many logs and tags there are.
#[derive(Clone, Copy)]
pub(crate) struct Keeper {
    pub(crate) log: u32,
    pub(crate) logs: u32,
    pub(crate) tags: u32,
}

impl Keeper {
    /// Whether the tag is kept here.
    pub(crate) fn keeps(self, tag: u32) -> bool
        requires { self.log < self.logs }
        ensures { result ≡ is_kept self.log self.logs self.tags tag }
    {
        tag < self.tags && tag % self.logs == self.log
    }
}

/// Those of the mutation's tags that are kept here, in O(t) for t tags.
pub(crate) fn kept_tags(keeper: Keeper, sent: &Tagged) -> TagSet
    requires number { keeper.log < keeper.logs }
    requires few { keeper.tags ≤ tag_limit }
    ensures { result ≡ kept_among (is_kept keeper.log keeper.logs keeper.tags) sent.now.tags }
{
    let mut tags = TagSet::empty();
    for tag in sent.tags.as_slice() {
        if keeper.keeps(*tag) {
            tags.add(*tag);
        }
    }
    tags
}
