// What a program decides, reads and writes, as a bit for each key from a to j.
use super::first_byte;
use super::steps::{Asked, Change, KEYS};
use bytes::Bytes;
use fdb_client::Txn;
use fdb_keys::{Key, Refusal};
use std::alloc::Global;

#[derive(Clone, Copy)]
pub(super) struct Marks {
    decided: u16,
    read: u16,
    written: u16,
}

// The bit of the key.
pub(super) fn only(key: &[u8]) -> u16 {
    let place = first_byte(key).wrapping_sub(b'a');
    1u16.wrapping_shl(u32::from(place))
}

// The bits of the keys from the begin up to but not including the end.
pub(super) fn span(begin: &[u8], end: &[u8]) -> u16 {
    only(end).wrapping_sub(1) & !only(begin).wrapping_sub(1)
}

// What a read of a range scans that gives these pairs.
fn scanned(asked: Asked, pairs: &[(Key, Bytes)]) -> u16 {
    let whole = span(asked.begin, asked.end);
    match pairs.last() {
        Some((key, _value)) if asked.limit != 0 && pairs.len() == asked.limit as usize => {
            let last = only(key.bytes());
            let before = last.wrapping_sub(1);
            if asked.reverse {
                whole & !before
            } else {
                whole & (before | last)
            }
        }
        _ => whole,
    }
}

impl Marks {
    pub(super) fn new() -> Self {
        Marks {
            decided: 0,
            read: 0,
            written: 0,
        }
    }

    // An ordinary read of these keys reads those that aren't decided.
    pub(super) fn read(&mut self, keys: u16, is_snapshot: bool) {
        if !is_snapshot {
            self.read |= keys & !self.decided;
        }
    }

    pub(super) fn read_range(&mut self, asked: Asked, pairs: &[(Key, Bytes)]) {
        self.read(scanned(asked, pairs), asked.is_snapshot);
    }

    pub(super) fn add_read(&mut self, keys: u16) {
        self.read |= keys;
    }

    pub(super) fn add_write(&mut self, keys: u16) {
        self.written |= keys;
    }

    // Every mutation writes what it names, and one that doesn't ask what stood there decides it.
    pub(super) fn change(&mut self, change: Change) {
        let (keys, decides) = match change {
            Change::Set(key, _) | Change::Clear(key) => (only(key), true),
            Change::ClearRange(begin, end) => (span(begin, end), true),
            Change::Add(key, _) | Change::CompareAndClear(key, _) => (only(key), false),
        };
        self.written |= keys;
        if decides {
            self.decided |= keys;
        }
    }

    // Whether the transaction reads and writes just the keys that are marked.
    pub(super) fn agree(&self, txn: &Txn, alloc: Global) -> Result<bool, Refusal> {
        for text in KEYS {
            let key = Key::new(alloc, text)?;
            if txn.read_conflicts().contains(&key) != (self.read & only(text) != 0)
                || txn.write_conflicts().contains(&key) != (self.written & only(text) != 0)
            {
                return Ok(false);
            }
        }
        Ok(true)
    }
}
