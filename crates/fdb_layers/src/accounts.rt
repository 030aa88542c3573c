// The bank's accounts, and the amounts that stand there.
ghost use Rattle.std.specs.Prelude.{◌≡◌, IfOk, None};
ghost use Rattle.std.specs.Int.{from_le_bytes, w64};
ghost use Rattle.std.specs.List.{slice_index};
ghost use Rattle.fdb_layers.specs.Accounts.{account_key};
ghost use Rattle.fdb_layers.specs.Bank.{amount, opening};

use fdb_keys::{Key, Refusal};
use fdb_runtime::Bytes;
use std::alloc::Global;

/// An account of the bank.
#[derive(Clone, Copy, Debug, PartialEq, Eq)]
pub enum Account {
    /// Ann's.
    Ann,
    /// Bob's.
    Bob,
    /// Cid's.
    Cid,
}

impl Account {
    // The bytes of its key.
    pub(crate) fn text(self) -> &'static [u8]
        ensures { result.now ≡ account_key self }
    {
        match self {
            Account::Ann => b"bank/ann",
            Account::Bob => b"bank/bob",
            Account::Cid => b"bank/cid",
        }
    }

    // Its key.
    pub(crate) fn key(self, alloc: Global) -> Result<Key, Refusal>
        ensures { IfOk result (λ key. key ≡ account_key self) }
    {
        let key = Key::new(alloc, self.text())?;
        Ok(key)
    }
}

// What an account has from the start.
pub(crate) const OPENING: u64 = 100;

// The byte at the place, and zero where there is none.
fn byte_at(bytes: &[u8], place: usize) -> u8
    ensures { result ≡ slice_index bytes.now place }
{
    bytes.get(place).copied().unwrap_or(0)
}

// The amount of eight bytes, the lowest one first.
pub(crate) fn amount_of(value: &[u8]) -> u64
    ensures { result ≡ from_le_bytes w64 value.now }
{
    u64::from_le_bytes([
        byte_at(value, 0),
        byte_at(value, 1),
        byte_at(value, 2),
        byte_at(value, 3),
        byte_at(value, 4),
        byte_at(value, 5),
        byte_at(value, 6),
        byte_at(value, 7),
    ])
}

// The amount that stands at an account.
pub(crate) fn amount_at(value: &Option<Bytes>) -> u64
    ensures { result ≡ amount value.now }
{
    match value {
        Some(value) => amount_of(value.as_slice()),
        None => OPENING,
    }
}
