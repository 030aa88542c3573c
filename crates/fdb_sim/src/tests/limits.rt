// Keys and values of the greatest length, and a script that is cut.
use crate::tests::playing::{check_script, push_long_line};
use std::test::Fail;

const CONFIG: &[u8] = b"config proxies 1 logs 1 resolvers - shards - book 100\n";

#[test]
fn longest_key(rt: HostRuntime) -> Result<(), Fail> {
    let mut script = Vec::from_slice(rt.alloc(), CONFIG)?;
    script.extend_from_slice(b"ask 0 0\ngrant 0\n")?;
    push_long_line(&mut script, b"get 0 ", 10_000)?;
    push_long_line(&mut script, b"get 0 ", 10_001)?;
    script.extend_from_slice(b"get 0 %ff\nsubmit 0 0\n")?;
    let output = b"ok\nok\ngrant 0=0\nnone\nrefused 2102 KeyTooLarge\n\
        refused 2004 KeyOutsideLegalRange\nreadonly 0\nchecked 1\n";
    check_script(&rt, rt.alloc(), script.as_slice(), 0, output)
}

#[test]
fn longest_value(rt: HostRuntime) -> Result<(), Fail> {
    let mut script = Vec::from_slice(rt.alloc(), CONFIG)?;
    script.extend_from_slice(b"ask 0 0\ngrant 0\n")?;
    push_long_line(&mut script, b"write 0 set a ", 100_000)?;
    push_long_line(&mut script, b"write 0 set a ", 100_001)?;
    let output = b"ok\nok\ngrant 0=0\nok\nrefused 2103 ValueTooLarge\nchecked 0\n";
    check_script(&rt, rt.alloc(), script.as_slice(), 0, output)
}

#[test]
fn cut_in_mid_line(rt: HostRuntime) -> Result<(), Fail> {
    let script = b"config proxies 1 logs 1 resolvers - shards - book 100\nask 0 0\ngrant 0\nwri";
    check_script(
        &rt,
        rt.alloc(),
        script,
        2,
        b"ok\nok\ngrant 0=0\nbad line 4\n",
    )
}

// Without a transaction. Each line would be refused by a later refusal of the order too, but the last.
const FIRST_REFUSALS: &[u8] = b"config proxies 1 logs 1 resolvers - shards - book 100\n\
    write 0 add %ff %\n\
    addwrite 0 %ff%00 a\n\
    addread 0 b a\n\
    write 0 add a %\n\
    addwrite 0 a b\n";

const FIRST_REFUSALS_OUTPUT: &[u8] = b"ok\n\
    refused 2004 KeyOutsideLegalRange\n\
    refused 2004 KeyOutsideLegalRange\n\
    refused 2005 InvertedRange\n\
    refused 9015 NoTransaction\n\
    refused 9015 NoTransaction\n\
    refused 2102 KeyTooLarge\n\
    refused 9015 NoTransaction\n\
    ok\n\
    grant 0=0\n\
    refused 2103 ValueTooLarge\n\
    refused 9008 BadOperand\n\
    reads writes\n\
    readonly 0\n\
    checked 1\n";

// With texts too long to be written here, also in an open transaction, which no refused write changes.
#[test]
fn first_refusal_of_the_order(rt: HostRuntime) -> Result<(), Fail> {
    let mut script = Vec::from_slice(rt.alloc(), FIRST_REFUSALS)?;
    push_long_line(&mut script, b"addread 0 %ff%00 ", 10_002)?;
    push_long_line(&mut script, b"write 0 set a ", 100_001)?;
    script.extend_from_slice(b"ask 0 0\ngrant 0\n")?;
    push_long_line(&mut script, b"write 0 add a ", 100_001)?;
    push_long_line(&mut script, b"write 0 add a ", 17)?;
    script.extend_from_slice(b"show 0\nsubmit 0 0\n")?;
    check_script(&rt, rt.alloc(), script.as_slice(), 0, FIRST_REFUSALS_OUTPUT)
}
