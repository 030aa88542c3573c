// The bounds of a range as keys of a map.
ghost use Rattle.std.specs.Prelude.{◌≡◌, IfOk, false};
ghost use Rattle.fdb_keys.specs.Points.{point_lt};

use crate::point_key::PointKey;
use fdb_keys::KeyRange;
use std::alloc::AllocError;
use std::marker::Model;

/// The bounds of a range as keys of a map.
#[derive(Drop)]
pub struct KeyedRange {
    begin: PointKey,
    end: PointKey,
}

impl Model for KeyedRange {
    ghost use Rattle.std.specs.Prelude.{◌≡◌, false};
    ghost use Rattle.fdb_keys.specs.Points.{point_lt};
    ghost use Rattle.fdb_keys.specs.Ranges.{Range};

    ghost Value = { Range };

    ghost view = { λ range. record { begin = range.begin; end = range.end } };

    ghost invariant = { λ range. point_lt range.end range.begin ≡ false };
}

impl KeyedRange {
    /// The bounds of the range, whose texts are shared. It fails only where they can't be shared once more, for want of
    /// memory. It takes O(1) time.
    pub fn new(range: &KeyRange) -> Result<Self, AllocError>
        ensures { IfOk result (λ keyed. keyed ≡ range.now) }
    {
        // It tells that the begin is a legal bound.
        let _begin = range.begin();
        let begin = PointKey::new(range.begin_text())?;
        let end = PointKey::new(range.end_text())?;
        Ok(KeyedRange { begin, end })
    }

    /// The first point of the range, if it has one. It takes no memory, and O(1) time.
    pub fn begin(&self) -> &PointKey
        ensures { result.now ≡ self.now.begin }
    {
        &self.begin
    }

    /// The point behind the range, which doesn't come before the begin. It takes no memory, and O(1) time.
    pub fn end(&self) -> &PointKey
        ensures value { result.now ≡ self.now.end }
        ensures order { point_lt self.now.end self.now.begin ≡ false }
    {
        &self.end
    }

    // Both of them alone.
    pub(crate) fn into_bounds(self) -> (PointKey, PointKey)
        ensures { (result.0 ≡ self.begin) × (result.1 ≡ self.end) }
    {
        let KeyedRange { begin, end } = self;
        (begin, end)
    }
}
