// Transcripts beside a book.
use super::reader_of;
use crate::asserting::same;
use fdb_core::{CheckFault, Placed, serial_check};
use fdb_keys::Refusal;
use fdb_making::count_config;
use fdb_txn::{Spot, TxnId};
use std::alloc::Global;

const READER: TxnId = TxnId {
    session: 1,
    number: 0,
};

type Found = Result<u64, CheckFault>;

// What is found beside a book without entries.
fn found(alloc: Global, placed: &[Placed]) -> Found {
    let config = count_config(alloc, 1, 1, 10);
    serial_check(alloc, &config, &[], placed)
}

// The same of one that read at the spot, and found nothing or a value.
fn checked(
    alloc: Global,
    spot: Spot,
    version: u64,
    told: Option<&'static [u8]>,
) -> Result<Found, Refusal> {
    let transcript = reader_of(alloc, READER, version, told, false)?;
    Ok(found(alloc, &[Placed { spot, transcript }]))
}

const AT_START: Spot = Spot::ReadOnly { version: 0 };

const LATER: Spot = Spot::ReadOnly { version: 1 };

const NOWHERE: Spot = Spot::Entry {
    index: 0,
    place: 0,
    version: 0,
};

const WRONG: Found = Err(CheckFault::Txn(READER));

// Where a transcript stands, its read version, what it was told, and what is found.
static ROWS: [(Spot, u64, Option<&'static [u8]>, Found); 6] = [
    (AT_START, 0, None, Ok(1)),
    (AT_START, 0, Some(b"x"), WRONG),
    (AT_START, 1, None, WRONG),
    // A version to which no entry has come is after all of them.
    (LATER, 1, None, Ok(1)),
    (LATER, 1, Some(b"x"), WRONG),
    (NOWHERE, 0, None, WRONG),
];

#[test]
fn transcripts_beside_a_book_without_entries(rt: HostRuntime) {
    let alloc = rt.alloc();
    same(&rt, Ok(found(alloc, &[])), Ok::<Found, Refusal>(Ok(0)));
    for (spot, version, told, wanted) in ROWS.as_slice() {
        same(&rt, checked(alloc, *spot, *version, *told), Ok(*wanted));
    }
}
