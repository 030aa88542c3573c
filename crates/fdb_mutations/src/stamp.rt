// The stamp of a commit, and operands that have room for one.
ghost use Rattle.std.specs.Prelude.{◌≡◌};
ghost use Rattle.fdb_mutations.specs.Stamps.{has_room};

/// How many bytes a stamp has.
pub const STAMP_SIZE: usize = 10;

/// What tells a committed transaction from every other one: its commit version, and its place in the batch. The bytes
/// of stamps are in the order of commits.
#[derive(Clone, Copy)]
pub struct Stamp {
    version: u64,
    place: u16,
}

impl Stamp {
    ghost use Rattle.std.specs.Prelude.{◌≡◌};
    ghost use Rattle.fdb_mutations.specs.Stamps.{stamp_bytes};

    /// The stamp of the place of the version. It takes no memory, and O(1) time.
    pub fn new(version: u64, place: u16) -> Self
        ensures { result ≡ record { version = version; place = place } }
    {
        Stamp { version, place }
    }

    /// The stamp of a place that is numbered in four bytes, of which the lower two count: a batch has at most 4,096
    /// places. It takes no memory, and O(1) time.
    pub fn of_place(version: u64, place: u32) -> Self
        ensures { stamp_bytes result.version result.place ≡ stamp_bytes version place }
    {
        Stamp::new(version, (place % (1 << 16)) as u16)
    }

    /// Its ten bytes: the version in eight and the place in two, the highest byte first. It takes no memory, and O(1)
    /// time.
    pub fn bytes(self) -> [u8; STAMP_SIZE]
        ensures { result ≡ stamp_bytes self.version self.place }
    {
        let version = self.version.to_be_bytes();
        let place = self.place.to_be_bytes();
        [
            version[0], version[1], version[2], version[3], version[4], version[5], version[6],
            version[7], place[0], place[1],
        ]
    }
}

/// Whether the operand has the ten bytes of a stamp at the offset.
pub(crate) fn has_room(operand: &[u8], offset: u32) -> bool
    ensures { result ≡ has_room operand.now offset }
{
    offset as usize + STAMP_SIZE <= operand.len()
}
