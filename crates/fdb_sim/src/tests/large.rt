// Scripts with more requests than a batch has places, and with more bytes than a transaction has.
use fdb_play::run_script;
use std::alloc::{AllocError, Global};
use std::test::Fail;

/// One more than the places of a batch.
const CLIENTS: u32 = 4_097;

/// The places of a batch.
const PLACES: u32 = 4_096;

// For each number below the count the two texts with it between.
fn push_each(text: &mut String, count: u32, before: &str, back: &str) -> Result<(), AllocError> {
    for number in 0..count {
        write!(text, "{before}{number}{back}")?;
    }
    Ok(())
}

// What is told to the clients of a full batch.
fn push_answers(text: &mut String) -> Result<(), AllocError> {
    for place in 0..PLACES {
        write!(text, " {place}=100/{place}")?;
    }
    Ok(())
}

fn push_oks(text: &mut String, count: u32) -> Result<(), AllocError> {
    for _ in 0..count {
        text.push_str("ok\n")?;
    }
    Ok(())
}

// Each client writes the one key, and two batches are sealed and driven.
fn push_script(text: &mut String) -> Result<(), AllocError> {
    text.push_str("config proxies 1 logs 1 resolvers - shards - book 100\n")?;
    push_each(text, CLIENTS, "ask ", " 0\n")?;
    text.push_str("grant 0\n")?;
    push_each(text, CLIENTS, "write ", " set k x\n")?;
    push_each(text, CLIENTS, "submit ", " 0\n")?;
    text.push_str("seal 0 100\ndrive 0\nseal 0 100\ndrive 0\n")
}

fn push_output(text: &mut String) -> Result<(), AllocError> {
    push_oks(text, 1 + CLIENTS)?;
    text.push_str("grant")?;
    push_each(text, CLIENTS, " ", "=0")?;
    text.push_str("\n")?;
    push_oks(text, 2 * CLIENTS)?;
    text.push_str("entry 0 version 100 prev 0 places 4096\nanswer")?;
    push_answers(text)?;
    text.push_str("\nentry 1 version 200 prev 100 places 1\nanswer 4096=200/0\nchecked 4097\n")
}

// A hundred sets of keys to 100,000 bytes each, which is more than a transaction may have, with the keys.
fn push_large(alloc: Global, text: &mut String) -> Result<(), AllocError> {
    let mut value = String::new(alloc);
    for _ in 0..10_000 {
        value.push_str("xxxxxxxxxx")?;
    }
    for number in 0..100 {
        write!(text, "write 0 set k{number} {value}\n")?;
    }
    Ok(())
}

fn push_large_script(alloc: Global, text: &mut String) -> Result<(), AllocError> {
    text.push_str("config proxies 1 logs 1 resolvers - shards - book 100\nask 0 0\ngrant 0\n")?;
    push_large(alloc, text)?;
    text.push_str("submit 0 0\nsubmit 0 0\n")
}

fn large_output_of(alloc: Global) -> Result<Vec<u8>, Fail> {
    let mut script = String::new(alloc);
    push_large_script(alloc, &mut script)?;
    output_of(alloc, script.as_bytes())
}

fn batch_output_of(alloc: Global) -> Result<Vec<u8>, Fail> {
    let mut script = String::new(alloc);
    push_script(&mut script)?;
    output_of(alloc, script.as_bytes())
}

fn output_of(alloc: Global, script: &[u8]) -> Result<Vec<u8>, Fail> {
    let mut reader = script;
    let mut out: Vec<u8> = Vec::new(alloc);
    run_script(alloc, &mut reader, &mut out)?;
    Ok(out)
}

#[test]
fn more_requests_than_a_batch_has_places(rt: HostRuntime) -> Result<(), Fail> {
    let mut expected = String::new(rt.alloc());
    push_output(&mut expected)?;
    let out = batch_output_of(rt.alloc())?;
    assert!(rt; out.as_slice() == expected.as_bytes());
    Ok(())
}

#[test]
fn too_large_transaction_stays_open(rt: HostRuntime) -> Result<(), Fail> {
    let mut expected = String::new(rt.alloc());
    expected.push_str("ok\nok\ngrant 0=0\n")?;
    push_oks(&mut expected, 100)?;
    expected.push_str(
        "refused 2101 TransactionTooLarge\nrefused 2101 TransactionTooLarge\nchecked 0\n",
    )?;
    let out = large_output_of(rt.alloc())?;
    assert!(rt; out.as_slice() == expected.as_bytes());
    Ok(())
}
