ghost use Rattle.std.specs.Prelude.{◌≡◌, IsTrue};
ghost use Rattle.fdb_keys.specs.Answers.{Answers};
ghost use Rattle.fdb_keys.specs.Ranges.{single_range};
ghost use Rattle.fdb_keys.specs.Texts.{is_key, key_fault};

use crate::order::begins_with_ff;
use crate::refusal::Refusal;
use bytes::Bytes;
use std::alloc::Global;
use std::marker::Model;

/// The most bytes that a key may have.
pub const KEY_LIMIT: usize = 10_000;

/// A key: at most 10,000 bytes, of which the first isn't `FF`. Keys are ordered lexicographically by byte.
#[derive(Clone, Drop, PartialEq, Eq, PartialOrd, Ord)]
pub struct Key {
    text: Bytes,
}

impl Model for Key {
    ghost use Rattle.std.specs.Prelude.{ℕ, List, IsTrue};
    ghost use Rattle.fdb_keys.specs.Texts.{is_key};

    ghost Value = { List ℕ };

    ghost view = { λ key. key.text };

    ghost invariant = { λ key. IsTrue (is_key key.text) };

    ghost inverse = { λ text. record { text = text } };
}

impl Key {
    /// The key of these bytes. Refused as `KeyTooLarge` above 10,000 bytes, and as
    /// `KeyOutsideLegalRange` where the first byte is `FF`.
    pub fn new(alloc: Global, text: &[u8]) -> Result<Self, Refusal>
        ensures { Answers result (key_fault text.now) (λ key. key ≡ text.now) }
    {
        if text.len() > KEY_LIMIT {
            return Err(Refusal::KeyTooLarge);
        }
        if begins_with_ff(text) {
            return Err(Refusal::KeyOutsideLegalRange);
        }
        let text = Bytes::copy_from_slice(alloc, text)?;
        Ok(Key { text })
    }

    /// The key right behind this one, which no other key lies before. Refused as `KeyTooLarge` behind a key of 10,000
    /// bytes, which is as long as a key may be, and as `NoMemory`. O(n) for the n bytes, which are copied.
    pub fn next(&self, alloc: Global) -> Result<Self, Refusal>
        ensures { Answers result (key_fault (single_range self.now).end) (λ key. key ≡ (single_range self.now).end) }
    {
        if self.bytes().len() == KEY_LIMIT {
            return Err(Refusal::KeyTooLarge);
        }
        let mut text = Vec::with_capacity(alloc, self.bytes().len() + 1)?;
        text.extend_from_slice(self.bytes())?;
        text.push(0)?;
        let text = Bytes::from_vec(text)?;
        Ok(Key { text })
    }

    /// The key of a text that is known to be a legal one. It takes no memory.
    pub fn from_text(text: Bytes) -> Self
        requires { IsTrue (is_key text) }
        ensures { result ≡ text }
    {
        Key { text }
    }

    /// The text of the key, of which a clone copies no byte.
    pub fn text(&self) -> &Bytes
        ensures value { result.now ≡ self.now }
        ensures legal { IsTrue (is_key self.now) }
    {
        &self.text
    }

    /// The bytes of the key.
    pub fn bytes(&self) -> &[u8]
        ensures value { result.now ≡ self.now }
        ensures legal { IsTrue (is_key self.now) }
    {
        self.text.as_slice()
    }
}
