// Pictures of the runs of scripts.
use crate::tests::words::{Ended, has_status, has_text, run_on};

// Scripts, the status that each ends with, how many lines `run` prints of it, and parts of its picture.
const DRAWN: &[(&[u8], u8, usize, &[&[u8]])] = &[
    (
        b"# one is committed, and reads nothing more\n\
        config proxies 1 logs 2 resolvers m shards - book 9\n\n\
        ask 0 0\ngrant 0\nwrite 0 set a 1\nsubmit 0 0\nseal 0 100\ndrive 0\nget 0 a\n",
        0,
        9,
        &[
            b">session 0<",
            b">read proxy 0<",
            b">commit proxy 0<",
            b">sequencer<",
            b">resolver 1<",
            b">from m<",
            b">log 1<",
            b">shard 0<",
            b"<tspan class='plain'>version </tspan><tspan class='plain'>100 </tspan>",
            b"<tspan class='good'>0=100/0</tspan>",
            b"<tspan class='bad'>get </tspan>",
            b"<title> &gt; checked 1</title>",
        ],
    ),
    (
        b"config proxies 1 logs 1 resolvers - shards - book 9\n\
        ask 0 0\ngrant 0\nsubmit 0 0\n<b> & c\nask 0 0\n",
        2,
        5,
        &[
            b"<tspan class='good'>submit </tspan>",
            b"<title>&lt;b&gt; &amp; c &gt; bad line 5</title>",
            b"<tspan class='bad'>&lt;b&gt; </tspan>",
        ],
    ),
    (
        b"\xff",
        2,
        1,
        &[b"<title>\xef\xbf\xbd &gt; bad line 1</title>"],
    ),
    (b"", 2, 1, &[b"<title> &gt; bad line 0</title>"]),
];

fn count_of(text: &[u8], part: &[u8]) -> usize {
    let windows = text.windows(part.len().max(1));
    windows.filter(|window| *window == part).count()
}

// A row stands for each line that `run` prints.
fn is_picture(text: &[u8], rows: usize, parts: &[&[u8]]) -> bool {
    let is_whole = text.starts_with(b"<svg ") && text.ends_with(b"</svg>\n");
    let has_rows = count_of(text, b"<title>") == rows;
    is_whole && has_rows && parts.iter().all(|part| has_text(text, part))
}

fn is_drawn(ended: &Ended, status: u8, rows: usize, parts: &[&[u8]]) -> bool {
    let is_silent = has_status(ended, status) && ended.err.is_empty();
    is_silent && is_picture(ended.out.as_slice(), rows, parts)
}

#[test]
fn runs_are_drawn(rt: HostRuntime) {
    for (script, status, rows, parts) in DRAWN {
        let ended = run_on(&rt, rt.alloc(), &["draw"], script);
        assert!(rt; is_drawn(&ended, *status, *rows, parts), "{script:?}");
    }
}
