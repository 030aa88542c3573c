// The words of a command line.
use crate::command::run_words;
use std::alloc::Global;
use std::io;
use std::sync::Wait;
use std::test::Fail;
use std::thread::Threads;
use std::time::Clock;

/// What words led to.
#[derive(Drop)]
pub struct Ended {
    pub outcome: Result<u8, io::Error>,
    pub out: Vec<u8>,
    pub err: Vec<u8>,
}

/// Runs the words on the script.
pub fn run_on<R: Threads + Wait + Clock + Copy + Send + Sync + 'static>(
    rt: &R,
    alloc: Global,
    words: &[&str],
    script: &[u8],
) -> Ended {
    let mut reader = script;
    let mut out: Vec<u8> = Vec::new(alloc);
    let mut err: Vec<u8> = Vec::new(alloc);
    let outcome = run_words(rt, alloc, words, &mut reader, &mut out, &mut err);
    Ended { outcome, out, err }
}

/// The words ended with the status.
pub fn has_status(ended: &Ended, status: u8) -> bool {
    match &ended.outcome {
        Ok(found) => *found == status,
        Err(_) => false,
    }
}

/// The part stands in the text.
pub fn has_text(text: &[u8], part: &[u8]) -> bool {
    text.windows(part.len().max(1)).any(|window| window == part)
}

#[test]
fn bad_words(rt: HostRuntime) {
    let none: [&str; 0] = [];
    let ended = run_on(&rt, rt.alloc(), &none, b"");
    assert!(rt; has_status(&ended, 2));
    assert!(rt; ended.out.is_empty());
    assert!(rt; has_text(ended.err.as_slice(), b"Usage: fdb_sim"));
}

const BAD_WORDS: &[&[&str]] = &[
    &["walk", "a"],
    &["run", "a"],
    &["run", "--seed"],
    &["draw", "a"],
    &["random", "1"],
    &["random", "--seed", "18446744073709551616"],
    &["random", "--steps", "0"],
    &["random", "--steps", "1000001"],
    &["threads", "--clients", "65"],
    &["threads", "--clients", "0"],
    &["threads", "--txns", "0"],
    &["threads", "--txns", "10001"],
    &["threads", "--resolvers", "65"],
    &["threads", "--proxies", "17"],
    &["threads", "--workload", "walk"],
    &["simulate", "--steps", "0"],
    &["simulate", "--clients", "65"],
    &["simulate", "--txns", "1"],
];

#[test]
fn unknown_words(rt: HostRuntime) {
    for words in BAD_WORDS {
        let ended = run_on(&rt, rt.alloc(), words, b"");
        assert!(rt; has_status(&ended, 2));
        assert!(rt; ended.out.is_empty());
        assert!(rt; has_text(ended.err.as_slice(), b"error: "));
    }
}

#[test]
fn help(rt: HostRuntime) {
    for word in ["--help", "-h", "help"] {
        let ended = run_on(&rt, rt.alloc(), &[word], b"");
        assert!(rt; has_status(&ended, 0));
        assert!(rt; ended.err.is_empty());
        assert!(rt; has_text(ended.out.as_slice(), b"Runs the script on standard input"));
    }
}

#[test]
fn version(rt: HostRuntime) {
    for word in ["--version", "-V"] {
        let ended = run_on(&rt, rt.alloc(), &[word, "run"], b"");
        assert!(rt; has_status(&ended, 0));
        assert!(rt; ended.err.is_empty());
        assert!(rt; ended.out.as_slice() == b"fdb_sim 0.1.0\n".as_slice());
    }
}

// What the help of a command says.
const HELP: &[(&str, &[u8])] = &[
    ("run", b"write S set K X"),
    ("run", b"Usage: fdb_sim run\n"),
    ("draw", b"as SVG"),
    ("draw", b"Usage: fdb_sim draw\n"),
    ("random", b"acknowledged"),
    ("random", b"--seed"),
    ("threads", b"32 accounts with 1,000 each"),
    ("threads", b"--workload"),
    ("threads", b"Usage: fdb_sim threads [OPTIONS]\n"),
    ("simulate", b"unexplained"),
    ("simulate", b"--resolvers"),
];

#[test]
fn help_of_commands(rt: HostRuntime) {
    for (command, part) in HELP {
        let ended = run_on(&rt, rt.alloc(), &[*command, "--help"], b"");
        assert!(rt; has_status(&ended, 0));
        assert!(rt; ended.err.is_empty());
        assert!(rt; has_text(ended.out.as_slice(), part));
    }
}

// Words of the commands that draw, and a part of what is printed.
const DRAWN: &[(&[&str], &[u8])] = &[
    (
        &["random", "--seed", "3", "--steps", "2"],
        b"\"mode\":\"random\",\"ok\":true,",
    ),
    (&["random", "--steps=2"], b",\"steps\":2}\n"),
    (
        &[
            "threads",
            "--clients",
            "1",
            "--txns=1",
            "--workload",
            "counters",
        ],
        b"\"ok\":true,\"unknown\":0,\"workload\":\"counters\"}\n",
    ),
    (
        &["simulate", "--seed", "3", "--steps", "500"],
        b"\"mode\":\"simulate\",\"ok\":true,",
    ),
    (
        &["simulate", "--seed=4", "--steps=1"],
        b",\"seed\":4,\"steps\":1,\"unexplained\":0,\"unknown\":0,\"waiting\":0}\n",
    ),
];

#[test]
fn runs_what_is_drawn(rt: HostRuntime) {
    for (words, part) in DRAWN {
        let ended = run_on(&rt, rt.alloc(), words, b"");
        assert!(rt; has_status(&ended, 0));
        assert!(rt; ended.err.is_empty());
        assert!(rt; has_text(ended.out.as_slice(), part));
    }
}

#[test]
fn runs_a_script(rt: HostRuntime) {
    let ended = run_on(&rt, rt.alloc(), &["run"], b"# nothing\nask");
    assert!(rt; has_status(&ended, 2));
    assert!(rt; ended.out.as_slice() == b"bad line 2\n".as_slice());
    assert!(rt;
        has_text(
            ended.err.as_slice(),
            b"line 2 is the first one, which has to be:\n  config proxies N"
        )
    );
}

const BEGUN: &[u8] = b"config proxies 1 logs 1 resolvers - shards - book 9\n";

// What the lines of a script print behind the first one, and what is told of the last one.
const HINTS: &[(&[u8], &[u8], &[u8])] = &[
    (b"set 0 a 1", b"bad line 2\n", b"  write S set K X\n"),
    (
        b"ask 0 0\nwrite 0 a 1",
        b"ok\nbad line 3\n",
        b"  write S clear K\n",
    ),
    (b"walk 0", b"bad line 2\n", b"'run --help'"),
];

// A line that is none of the grammar is answered as ever, and what it may be meant for is told beside that.
#[test]
fn bad_lines_are_told_what_they_may_be_meant_for(rt: HostRuntime) -> Result<(), Fail> {
    for (lines, printed, hint) in HINTS {
        let mut script: Vec<u8> = Vec::new(rt.alloc());
        script.extend_from_slice(BEGUN)?;
        script.extend_from_slice(lines)?;
        let ended = run_on(&rt, rt.alloc(), &["run"], script.as_slice());
        assert!(rt; has_status(&ended, 2));
        assert!(rt; ended.out.as_slice().strip_prefix(b"ok\n".as_slice()) == Some(*printed));
        assert!(rt; has_text(ended.err.as_slice(), hint));
    }
    Ok(())
}

const WIDE: &[u8] = b"config proxies 2 logs 2 resolvers m shards - book 9\n";

// What lines of a script print behind the first one, and what is told of the last one.
const WAITS: &[(&[u8], &[u8], &[u8])] = &[
    (
        b"seal 0 100\nseal 1 100\nresolve 1 1",
        b"entry 0 version 100 prev 0 places 0\n\
        entry 1 version 200 prev 100 places 0\n\
        refused 9002 NotYet 100\n\
        checked 0\n",
        b"line 4 waits until the resolver has taken the entry of version 100\n",
    ),
    (
        b"ask 0 0\ngrant 0\nwrite 0 set z 1\nsubmit 0 0\nseal 0 100\n# early\n\ndecide 0",
        b"ok\n\
        grant 0=0\n\
        ok\n\
        ok\n\
        entry 0 version 100 prev 0 places 1\n\
        refused 9002 NotYet 1\n\
        checked 0\n",
        b"line 9 waits for the verdicts of resolver 1\n",
    ),
    (
        b"seal 0 100\nseal 1 100\ndecide 1\npush 1 0",
        b"entry 0 version 100 prev 0 places 0\n\
        entry 1 version 200 prev 100 places 0\n\
        decided\n\
        refused 9002 NotYet 100\n\
        checked 0\n",
        b"line 5 waits until the log has taken the entry of version 100\n",
    ),
    (
        b"seal 0 100\ndecide 0\npush 0 0\nlogged 0 0\nreport 0",
        b"entry 0 version 100 prev 0 places 0\n\
        decided\n\
        ok\n\
        ok\n\
        refused 9002 NotYet 1\n\
        checked 0\n",
        b"line 6 waits for the acknowledgement of log 1\n",
    ),
    (
        b"seal 1 100\nanswer 1",
        b"entry 0 version 100 prev 0 places 0\n\
        refused 9002 NotYet 100\n\
        checked 0\n",
        b"line 3 waits for the report of version 100\n",
    ),
    (
        b"seal 0 100\nseal 1 100\ndrive 1",
        b"entry 0 version 100 prev 0 places 0\n\
        entry 1 version 200 prev 100 places 0\n\
        refused 9002 NotYet 100\n\
        checked 0\n",
        b"line 4 waits until all resolvers and logs have taken the entry of version 100\n",
    ),
    (
        b"drive 0\nseal 0 100\nresolve 0 2",
        b"refused 9014 WrongState\n\
        entry 0 version 100 prev 0 places 0\n\
        refused 9016 Unknown\n\
        checked 0\n",
        b"",
    ),
];

// A step that comes too early is answered as ever, and what it waits for is told beside that. Nothing is told of one
// that is refused otherwise.
#[test]
fn early_steps_are_told_what_they_wait_for(rt: HostRuntime) -> Result<(), Fail> {
    for (lines, printed, hint) in WAITS {
        let mut script: Vec<u8> = Vec::new(rt.alloc());
        script.extend_from_slice(WIDE)?;
        script.extend_from_slice(lines)?;
        let ended = run_on(&rt, rt.alloc(), &["run"], script.as_slice());
        assert!(rt; has_status(&ended, 0));
        assert!(rt; ended.out.as_slice().strip_prefix(b"ok\n".as_slice()) == Some(*printed));
        assert!(rt; ended.err.as_slice() == *hint);
    }
    Ok(())
}
