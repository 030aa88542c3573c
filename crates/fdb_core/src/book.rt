// The versions of the book.
ghost use Rattle.std.specs.Prelude.{◌≡◌, take};
ghost use Rattle.fdb_txn.specs.book.Book.{last_version};

use fdb_txn::Entry;

/// The version of the last one of the first `count` entries, 0 where there is none.
pub(crate) fn last_version(book: &[Entry], count: usize) -> u64
    ensures { result ≡ last_version (take count book.now) }
{
    match book[..count.min(book.len())].last() {
        None => 0,
        Some(entry) => entry.version,
    }
}
