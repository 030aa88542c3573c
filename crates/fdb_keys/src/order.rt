// The order of points, as tests over slices.
ghost use Rattle.std.specs.Prelude.{◌≡◌, IfOk};
ghost use Rattle.fdb_keys.specs.Insertion.{lesser_point, greater_point};
ghost use Rattle.fdb_keys.specs.Points.{point_lt};
ghost use Rattle.fdb_keys.specs.Ranges.{Range, is_within, ranges_meet};
ghost use Rattle.fdb_keys.specs.Texts.{begins_with_ff, is_after_ff};

use bytes::Bytes;
use std::alloc::AllocError;

/// Whether the first text comes before the second one: by their bytes, the lesser first, and a text before each longer
/// one that begins with it. It takes O(n) for the n bytes of the shorter one.
#[tactic(auto, unfolding(crate::specs::Points::point_lt))]
pub fn is_before(a: &[u8], b: &[u8]) -> bool
    ensures { result ≡ point_lt a.now b.now }
{
    a.cmp(&b).is_lt()
}

pub(crate) fn begins_with_ff(text: &[u8]) -> bool
    ensures { result ≡ begins_with_ff text.now }
{
    match text {
        [] => false,
        [first, ..] => *first == 0xff,
    }
}

pub(crate) fn is_after_ff(text: &[u8]) -> bool
    ensures { result ≡ is_after_ff text.now }
{
    is_before(&[0xff], text)
}

// Whether the ranges from a begin to an end have a point in common.
pub(crate) fn have_common_point(a_begin: &[u8], a_end: &[u8], b_begin: &[u8], b_end: &[u8]) -> bool
    ensures { result ≡ ranges_meet (record { begin = a_begin.now; end = a_end.now })
        (record { begin = b_begin.now; end = b_end.now }) }
{
    is_before(a_begin, a_end)
        && is_before(a_begin, b_end)
        && is_before(b_begin, a_end)
        && is_before(b_begin, b_end)
}

// Whether every point from a begin to an end lies in the range from another begin to another end.
pub(crate) fn lies_within(begin: &[u8], end: &[u8], whole_begin: &[u8], whole_end: &[u8]) -> bool
    ensures { result ≡ is_within (record { begin = begin.now; end = end.now })
        (record { begin = whole_begin.now; end = whole_end.now }) }
{
    !is_before(begin, end) || !is_before(begin, whole_begin) && !is_before(whole_end, end)
}

pub(crate) fn lesser_bound(a: &Bytes, b: &Bytes) -> Result<Bytes, AllocError>
    ensures { IfOk result (λ bound. bound ≡ lesser_point a.now b.now) }
{
    if is_before(b.as_slice(), a.as_slice()) {
        b.clone()
    } else {
        a.clone()
    }
}

pub(crate) fn greater_bound(a: &Bytes, b: &Bytes) -> Result<Bytes, AllocError>
    ensures { IfOk result (λ bound. bound ≡ greater_point a.now b.now) }
{
    if is_before(a.as_slice(), b.as_slice()) {
        b.clone()
    } else {
        a.clone()
    }
}

// The greater one of both, which takes no memory.
pub(crate) fn greater_of(a: Bytes, b: Bytes) -> Bytes
    ensures { result ≡ greater_point a b }
{
    if is_before(a.as_slice(), b.as_slice()) {
        b
    } else {
        a
    }
}
