// Scripts whose output doesn't depend on what the steps do.
use crate::tests::playing::check_script;
use std::alloc::{AllocError, Global};
use std::process::Abort;
use std::test::Fail;

const CONFIG: &[u8] = b"config proxies 1 logs 1 resolvers - shards - book 100\n";

// The configuration, and then the lines.
fn after_config(alloc: Global, lines: &[u8]) -> Result<Vec<u8>, AllocError> {
    let mut script = Vec::from_slice(alloc, CONFIG)?;
    script.extend_from_slice(lines)?;
    Ok(script)
}

fn check_lines(
    rt: &impl Abort,
    alloc: Global,
    lines: &[u8],
    status: u8,
    output: &[u8],
) -> Result<(), Fail> {
    let script = after_config(alloc, lines)?;
    check_script(rt, alloc, script.as_slice(), status, output)
}

/// Lines with a word too many.
const TOO_MANY: &[u8] = b"ask 0 0 0\n\
    grant 0 0\n\
    get 0 a b\n\
    sget 0 a b\n\
    write 0 set a b c\n\
    write 0 clear a b\n\
    write 0 clearrange a b c\n\
    write 0 cac a b c\n\
    addread 0 b a c\n\
    addwrite 0 a b c\n\
    submit 0 0 0\n\
    seal 0 1 1\n\
    resolve 0 0 0\n\
    verdict 0 0 0\n\
    decide 0 0\n\
    push 0 0 0\n\
    logged 0 0 0\n\
    report 0 0\n\
    answer 0 0\n\
    pull 0 9 9\n\
    forget 0 1 1\n\
    pop 0 0\n\
    show 0 0\n\
    conflict 0 0\n\
    drive 0 0";

/// Lines with a word too few, of spaces alone at last.
const TOO_FEW: &[u8] = b"ask 0\n\
    grant\n\
    get 0\n\
    get\n\
    sget 0\n\
    write 0 set a\n\
    write 0 clear\n\
    write 0 clearrange a\n\
    write 0 add a\n\
    write 0\n\
    write\n\
    addread 0 a\n\
    addwrite 0\n\
    submit 0\n\
    seal 0\n\
    resolve 0\n\
    verdict 0\n\
    decide\n\
    push 0\n\
    logged 0\n\
    report\n\
    answer\n\
    pull 0\n\
    forget 0\n\
    pop\n\
    window\n\
    show\n\
    conflict\n\
    drive\n\
    \x20  ";

/// Lines whose words are none of the grammar.
const NO_WORDS: &[u8] = b"wri\n\
    Ask 0 0\n\
    ask\t0 0\n\
    \x20# 0\n\
    ranges 0 a b 1\n\
    range 0 a b\n\
    range 0 a b 1 forward\n\
    srange 0 a b 1 reverse 2\n\
    write 0 clearranges a b\n\
    write 0 append a b\n\
    addreads 0 a b\n\
    moves a b 0\n\
    move a b\n\
    move a b 0 0\n\
    windows 1\n\
    window 1 2\n\
    Window 1\n\
    forgets 0 1\n\
    pops 0\n\
    shows 0\n\
    conflicts 0\n\
    Drive 0\n\
    drives 0\n\
    get 0 a\xc3\xa9\n\
    g\xc3\xa9t 0 a";

/// Lines with words that are no numbers, or too great ones.
const NO_NUMBERS: &[u8] = b"ask 4294967296 0\n\
    ask 0 4294967296\n\
    ask 18446744073709551616 0\n\
    ask +5 0\n\
    ask -1 0\n\
    ask 0x1 0\n\
    ask 1a 0\n\
    ask %31 0\n\
    seal 4294967296 1\n\
    seal 0 18446744073709551616\n\
    pull 0 4294967296\n\
    pull 4294967296 0\n\
    forget 4294967296 0\n\
    forget 0 18446744073709551616\n\
    pop 4294967296\n\
    move a b 4294967296\n\
    window 18446744073709551616\n\
    window -1\n\
    window a\n\
    sget a a\n\
    addread 4294967296 a b\n\
    addwrite a a b\n\
    show 4294967296\n\
    conflict 4294967296\n\
    drive 4294967296\n\
    drive a\n\
    get 99999999999999999999999999999999999999 a";

/// Lines with words that are no byte texts.
const NO_TEXTS: &[u8] = b"get 0 a%\n\
    get 0 a%4\n\
    get 0 %4\n\
    get 0 %4g\n\
    get 0 %%\n\
    get 0 %g4\n\
    get 0 a-b\n\
    get 0 a,b\n\
    write 0 set a %f\n\
    write 0 set %f a\n\
    write 0 clear %f\n\
    write 0 clearrange c %f\n\
    write 0 xor %f a\n\
    sget 0 %f\n\
    addread 0 %f a\n\
    addwrite 0 %ff%00 %f\n\
    write 0 set %ff b%";

// Each line is bad after a configuration.
fn check_bad(rt: &impl Abort, alloc: Global, lines: &[u8]) -> Result<(), Fail> {
    for line in lines.split(|byte| *byte == b'\n') {
        check_lines(rt, alloc, line, 2, b"ok\nbad line 2\n")?;
    }
    Ok(())
}

#[test]
fn bad_lines(rt: HostRuntime) -> Result<(), Fail> {
    for lines in [TOO_MANY, TOO_FEW, NO_WORDS, NO_NUMBERS, NO_TEXTS] {
        check_bad(&rt, rt.alloc(), lines)?;
    }
    Ok(())
}

// Each line is legal, so that the key is looked at, which is refused before any step.
#[test]
fn legal_forms(rt: HostRuntime) -> Result<(), Fail> {
    let lines = [
        "get 0 %ff",
        "get 0 %FF",
        "get 0 %fFa",
        "  get   0  %ff  ",
        "get 000 %ff",
        "get 4294967295 %ff",
        "sget 0 %ff",
        "write 0 set %ff %",
        "write 0 set %ff a%00Z._/9",
        "write 0 clear %ff",
        "write 0 bytemax %ff %",
        "write 0 clearrange b %ff%00",
        "addread 0 b %ff%00",
        "addwrite 0 %ff%00 %",
        "get 0 %ff\r",
    ];
    for line in lines {
        let text = format!(in rt.alloc(); "# first\n\n{line}\n#last")?;
        let output = b"ok\nrefused 2004 KeyOutsideLegalRange\nchecked 0\n";
        check_lines(&rt, rt.alloc(), text.as_bytes(), 0, output)?;
    }
    Ok(())
}

#[test]
fn a_carriage_return_belongs_to_a_line_feed(rt: HostRuntime) -> Result<(), Fail> {
    check_lines(
        &rt,
        rt.alloc(),
        b"\r\n# a\r\nwri\r\n",
        2,
        b"ok\nbad line 4\n",
    )?;
    check_lines(&rt, rt.alloc(), b"get 0 %ff\r", 2, b"ok\nbad line 2\n")?;
    check_lines(&rt, rt.alloc(), b"get 0 %ff\r\r\n", 2, b"ok\nbad line 2\n")?;
    Ok(())
}

#[test]
fn bytes_beyond_ascii(rt: HostRuntime) -> Result<(), Fail> {
    check_lines(
        &rt,
        rt.alloc(),
        b"# \xff\xfe\x00\nget 0 \xff\n",
        2,
        b"ok\nbad line 3\n",
    )?;
    check_lines(&rt, rt.alloc(), b"\xff\n", 2, b"ok\nbad line 2\n")?;
    Ok(())
}

#[test]
fn no_configuration(rt: HostRuntime) -> Result<(), Fail> {
    check_script(&rt, rt.alloc(), b"", 2, b"bad line 0\n")?;
    check_script(&rt, rt.alloc(), b"\n# a\n\n#", 2, b"bad line 0\n")?;
    check_script(&rt, rt.alloc(), b"\n# a\nask 0 0\n", 2, b"bad line 3\n")?;
    check_script(&rt, rt.alloc(), b" \n", 2, b"bad line 1\n")?;
    Ok(())
}

#[test]
fn a_second_configuration(rt: HostRuntime) -> Result<(), Fail> {
    check_lines(&rt, rt.alloc(), b"", 0, b"ok\nchecked 0\n")?;
    let line = CONFIG;
    check_lines(&rt, rt.alloc(), line, 2, b"ok\nbad line 2\n")?;
    Ok(())
}

#[test]
fn configurations_that_are_none(rt: HostRuntime) -> Result<(), Fail> {
    let lines = [
        "config",
        "config proxies 1 logs 1 resolvers - shards -",
        "config proxies 1 logs 1 resolvers - shards - book",
        "config proxies 1 logs 1 resolvers - shards - book 100 1",
        "config logs 1 proxies 1 resolvers - shards - book 100",
        "config proxies 4294967296 logs 1 resolvers - shards - book 100",
        "config proxies 1 logs 1 resolvers - shards - book 4294967296",
        "config proxies 1 logs 1 resolvers m, shards - book 100",
        "config proxies 1 logs 1 resolvers ,m shards - book 100",
        "config proxies 1 logs 1 resolvers m,,t shards - book 100",
        "config proxies 1 logs 1 resolvers -,m shards - book 100",
        "config proxies 1 logs 1 resolvers - shards %f book 100",
        "config proxies 1 logs 1 resolvers %ff shards - book x",
        "config proxies 1 logs 1 resolvers %ff shards %f book 1",
    ];
    for line in lines {
        check_script(&rt, rt.alloc(), line.as_bytes(), 2, b"bad line 1\n")?;
    }
    Ok(())
}

#[test]
fn a_split_that_is_no_key(rt: HostRuntime) -> Result<(), Fail> {
    let line = b"config proxies 1 logs 1 resolvers - shards m,%ff book 100\nask 0 0\n";
    check_script(
        &rt,
        rt.alloc(),
        line,
        2,
        b"refused 2004 KeyOutsideLegalRange\n",
    )?;
    let mut long = Vec::from_slice(rt.alloc(), b"config proxies 1 logs 1 resolvers %ff,")?;
    long.resize(long.len().saturating_add(10_001), b'k')?;
    long.extend_from_slice(b" shards - book 100")?;
    check_script(
        &rt,
        rt.alloc(),
        long.as_slice(),
        2,
        b"refused 2102 KeyTooLarge\n",
    )
}

#[test]
fn a_key_that_is_too_long(rt: HostRuntime) -> Result<(), Fail> {
    let mut line = Vec::from_slice(rt.alloc(), b"get 0 ")?;
    line.resize(10_007, b'k')?;
    line.extend_from_slice(b"\nget 0 %ff")?;
    let output = b"ok\nrefused 2102 KeyTooLarge\nrefused 2004 KeyOutsideLegalRange\nchecked 0\n";
    check_lines(&rt, rt.alloc(), line.as_slice(), 0, output)
}
