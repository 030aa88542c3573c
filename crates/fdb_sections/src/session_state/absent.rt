// Whether a front shows what a session submitted.
ghost use Rattle.std.specs.Prelude.{◌≡◌, true, false};
ghost use Rattle.fdb_client.specs.Programs.{commit_request_of};
ghost use Rattle.fdb_sections.specs.Absent.{IsNotAmong, IsNowhere};

use crate::known_front::KnownFront;
use crate::name::DatabaseName;
use crate::session_state::submitted::Submitted;
use fdb_txn::Sealed;

// Whether one of the transactions is the request.
fn has_request(batch: &[Sealed], submitted: &Submitted) -> bool
    ensures absent { result ≡ false → IsNotAmong (commit_request_of submitted.now.transaction) batch.now }
    ensures present { result ≡ true → IsNotAmong (commit_request_of submitted.now.transaction) batch.now → ⊥ }
{
    for sealed in batch {
        if submitted.is_request(sealed) {
            return true;
        }
    }
    false
}

/// Whether the request stands at some place of the front. It takes no memory, and O(n) comparisons for the n
/// transactions of the entries above its read version, since it can stand in no other.
pub(crate) fn shows<B: DatabaseName>(front: &KnownFront<B>, submitted: &Submitted) -> bool
    ensures absent { result ≡ false → IsNowhere (commit_request_of submitted.now.transaction) front.now }
    ensures present { result ≡ true → IsNowhere (commit_request_of submitted.now.transaction) front.now → ⊥ }
{
    front.know_entries();
    let read_version = submitted.transaction.read_version();
    let mut left = front.len();
    while left > 0 {
        left -= 1;
        if let Some(entry) = front.entry(left) {
            if entry.version <= read_version {
                return false;
            }
            if has_request(entry.batch.as_slice(), submitted) {
                return true;
            }
        }
    }
    false
}
