ghost use Rattle.std.specs.Prelude.{◌≡◌, true, false};

/// How a range is read.
#[derive(Clone, Copy, Debug, PartialEq, Eq)]
pub struct ReadOptions {
    /// How many pairs are given at the most, and all where it is 0.
    pub limit: u32,
    /// Whether they are given from the range's end backwards.
    pub reverse: bool,
    /// Whether it is a snapshot read, which conflicts with nobody.
    pub snapshot: bool,
}

impl ReadOptions {
    /// All pairs in the order of their keys, by an ordinary read. The other calls are put behind it, as in
    /// `ReadOptions::all().first(10).reversed()`.
    pub fn all() -> Self
        ensures { result ≡ record { limit = 0; reverse = false; snapshot = false } }
    {
        ReadOptions {
            limit: 0,
            reverse: false,
            snapshot: false,
        }
    }

    /// Only the first so many pairs, in the order in which they are given, and all where it is 0.
    pub fn first(self, limit: u32) -> Self
        ensures { result ≡ record self { limit = limit } }
    {
        ReadOptions { limit, ..self }
    }

    /// From the range's end backwards.
    pub fn reversed(self) -> Self
        ensures { result ≡ record self { reverse = true } }
    {
        ReadOptions {
            reverse: true,
            ..self
        }
    }

    /// By a snapshot read, which conflicts with nobody.
    pub fn on_snapshot(self) -> Self
        ensures { result ≡ record self { snapshot = true } }
    {
        ReadOptions {
            snapshot: true,
            ..self
        }
    }
}
