ghost use Rattle.std.specs.Prelude.{◌≡◌, ◌≤◌, take, length};
ghost use Rattle.std.specs.Ordering.{nat_cmp};
ghost use Rattle.fdb_book.specs.Fronts.{IsPrefix};

use crate::front::Front;
use crate::name::BookName;
use std::cmp::Ordering;

/// Compares two fronts of one book by how many entries they show. The longer one begins with the entries of the
/// shorter one, whoever made them. It takes no memory.
pub fn agree<B: BookName>(front: &Front<B>, other: &Front<B>) -> Ordering
    ensures by_length { result ≡ nat_cmp (length front.now) (length other.now) }
    ensures shorter { length front.now ≤ length other.now → IsPrefix front.now other.now }
    ensures longer { length other.now ≤ length front.now → IsPrefix other.now front.now }
{
    agree_on_first(front, other, usize::min(front.len, other.len));
    front.len.cmp(&other.len)
}

// Fronts of one book show the same first entries.
fn agree_on_first<B: BookName>(front: &Front<B>, other: &Front<B>, count: usize)
    requires within { (count ≤ length front.now) × (count ≤ length other.now) }
    ensures { take count front.now ≡ take count other.now }
{
    for index in 0..count {
        front
            .facts
            .agree_at(&other.facts, index, &front.cells[index]);
    }
}
