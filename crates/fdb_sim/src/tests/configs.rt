// The least and the greatest configurations of scripts, and those that are refused.
use crate::tests::playing::check_script;
use std::alloc::{AllocError, Global};
use std::test::Fail;

// Adds so many keys of three digits that rise, parted by commas.
fn push_splits(line: &mut String, count: u32) -> Result<(), AllocError> {
    line.push_str("100")?;
    for split in 1..count {
        let key = split.saturating_add(100);
        write!(line, ",{key}")?;
    }
    Ok(())
}

// A configuration with so many proxies of each kind and logs, and so many splits.
fn config_with(
    alloc: Global,
    proxies: u32,
    logs: u32,
    resolver_splits: u32,
    shard_splits: u32,
) -> Result<String, AllocError> {
    let mut line = format!(in alloc; "config proxies {proxies} logs {logs} resolvers ")?;
    push_splits(&mut line, resolver_splits)?;
    line.push_str(" shards ")?;
    push_splits(&mut line, shard_splits)?;
    line.push_str(" book 1048576\n")?;
    Ok(line)
}

const LAST_OF_EACH: &str = "grant 15\n\
    grant 16\n\
    seal 15 100\n\
    seal 16 100\n\
    drive 15\n\
    resolve 0 63\n\
    resolve 0 64\n\
    push 0 15\n\
    push 0 16\n\
    pull 63 1\n\
    pull 64 1\n";

const LAST_OF_EACH_OUTPUT: &[u8] = b"ok\n\
    grant\n\
    refused 9016 Unknown\n\
    entry 0 version 100 prev 0 places 0\n\
    refused 9016 Unknown\n\
    answer\n\
    refused 9003 Stale\n\
    refused 9016 Unknown\n\
    refused 9003 Stale\n\
    refused 9016 Unknown\n\
    through 100\n\
    refused 9016 Unknown\n\
    checked 0\n";

#[test]
fn most_of_each_role(rt: HostRuntime) -> Result<(), Fail> {
    let mut script = config_with(rt.alloc(), 16, 16, 63, 63)?;
    script.push_str(LAST_OF_EACH)?;
    check_script(&rt, rt.alloc(), script.as_bytes(), 0, LAST_OF_EACH_OUTPUT)
}

const REFUSED: &[u8] = b"refused 9009 BadConfig\n";

#[test]
fn one_too_many_of_a_role(rt: HostRuntime) -> Result<(), Fail> {
    for (proxies, logs, resolver_splits, shard_splits) in [
        (17, 16, 63, 63),
        (16, 17, 63, 63),
        (16, 16, 64, 63),
        (16, 16, 63, 64),
    ] {
        let line = config_with(rt.alloc(), proxies, logs, resolver_splits, shard_splits)?;
        check_script(&rt, rt.alloc(), line.as_bytes(), 2, REFUSED)?;
    }
    Ok(())
}

// The configuration of one of each role with one word changed. No line after a refused configuration is taken.
#[test]
fn configurations_that_are_refused(rt: HostRuntime) -> Result<(), Fail> {
    let lines = [
        "config proxies 0 logs 1 resolvers - shards - book 100\nask 0 0\n",
        "config proxies 1 logs 0 resolvers - shards - book 100",
        "config proxies 1 logs 1 resolvers - shards - book 0",
        "config proxies 1 logs 1 resolvers - shards - book 1048577",
    ];
    for line in lines {
        check_script(&rt, rt.alloc(), line.as_bytes(), 2, REFUSED)?;
    }
    Ok(())
}

// Splits that fall, that are equal and that are empty.
#[test]
fn splits_that_are_refused(rt: HostRuntime) -> Result<(), Fail> {
    for splits in ["b,a", "t,m", "a,a", "a,b,b", "%", "%,a", "a,%"] {
        let resolvers = format!(in rt.alloc();
            "config proxies 1 logs 1 resolvers {splits} shards - book 9"
        )?;
        check_script(&rt, rt.alloc(), resolvers.as_bytes(), 2, REFUSED)?;
        let shards = format!(in rt.alloc();
            "config proxies 1 logs 1 resolvers - shards {splits} book 9"
        )?;
        check_script(&rt, rt.alloc(), shards.as_bytes(), 2, REFUSED)?;
    }
    Ok(())
}
