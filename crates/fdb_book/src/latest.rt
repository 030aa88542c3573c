// The greatest number known of each session, which tells of most ids at once that they are new.
ghost use Rattle.std.specs.Prelude.{◌≡◌, true, IfOk, Ok};
ghost use Rattle.fdb_book.specs.Ids.{AreNew, AreTaken, Latest};

use fdb_txn::Sealed;
use std::alloc::AllocError;
use std::collections::BTreeMap;

// Takes the ids of a batch, in the order of their places. Says with them whether each was later than all that were
// known of its session; where one wasn't, it may be new all the same.
pub(crate) fn with_ids(
    latest: BTreeMap<u32, u64>,
    batch: &[Sealed],
) -> Result<(BTreeMap<u32, u64>, bool), AllocError>
    ensures taken { IfOk result (λ taken. AreTaken latest batch.now taken.0) }
    ensures new { IfOk result (λ taken. taken.1 ≡ true → AreNew latest batch.now) }
{
    let mut taken = latest;
    let mut are_new = true;
    for sealed in batch {
        let id = sealed.id();
        match taken.get(&id.session) {
            Some(known) if id.number <= *known => are_new = false,
            _ => {
                taken.insert(id.session, id.number)?;
            }
        }
    }
    Ok((taken, are_new))
}

// The same with numbers for which memory may have run out.
pub(crate) fn try_with_ids(
    latest: Result<BTreeMap<u32, u64>, AllocError>,
    batch: &[Sealed],
) -> Result<(BTreeMap<u32, u64>, bool), AllocError>
    ensures { IfOk result (λ taken. (before : Latest) × (latest ≡ Ok before) × AreTaken before batch.now taken.0
        × (taken.1 ≡ true → AreNew before batch.now)) }
{
    let latest = latest?;
    let taken = with_ids(latest, batch)?;
    Ok(taken)
}
