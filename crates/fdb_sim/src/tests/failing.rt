// Readers and writers over memory, of which one call fails.
use crate::command::run_words;
use fdb_play::{Sink, Source, run_script};
use std::alloc::Global;
use std::fmt::Display;
use std::io;
use std::io::{ErrorKind, Write};
use std::sync::Wait;
use std::test::Fail;
use std::thread::Threads;
use std::time::Clock;

const SCRIPT: &[u8] = b"config proxies 1 logs 1 resolvers - shards - book 100\n\
    ask 0 0\ngrant 0\nget 0 a\n# read-only\nsubmit 0 0\nget 0 %ff\n";

/// The error that a failing call answers, which no other call does.
const NUMBER: i32 = 5;

/// Gives its text a few bytes a call. The call of one number fails.
#[derive(Drop)]
struct ChoppyReader<'a> {
    rest: &'a [u8],
    calls: u64,
    bad_call: u64,
    error: io::Error,
}

impl<'a> Source for ChoppyReader<'a> {
    fn read(&mut self, buffer: &mut [u8]) -> io::Result<usize> {
        let call = self.calls;
        self.calls = call.saturating_add(1);
        if call == self.bad_call {
            return Err(self.error);
        }
        let most = buffer.len().min(7);
        self.rest.read(&mut buffer[..most])
    }
}

/// Takes a few bytes a call. The call of one number fails.
#[derive(Drop)]
struct ChoppyWriter {
    written: Vec<u8>,
    calls: u64,
    bad_call: u64,
}

impl Write for ChoppyWriter {
    fn write(&mut self, buffer: &[u8]) -> io::Result<usize> {
        let call = self.calls;
        self.calls = call.saturating_add(1);
        if call == self.bad_call {
            return Err(io::Error::from_raw_os_error(NUMBER));
        }
        let most = buffer.len().min(3);
        self.written.extend_from_slice(&buffer[..most])?;
        Ok(most)
    }

    fn flush(&mut self) -> io::Result<()> {
        Ok(())
    }
}

impl Sink for ChoppyWriter {
    fn write_all(&mut self, bytes: &[u8]) -> io::Result<()> {
        Write::write_all(self, bytes)
    }

    fn write_fmt<D: Display + Drop>(&mut self, text: D) -> io::Result<()> {
        Write::write_fmt(self, text)
    }
}

/// What became of a script.
#[derive(Drop)]
struct Ended {
    outcome: Result<u8, io::Error>,
    written: Vec<u8>,
    reads: u64,
    writes: u64,
}

fn reader_of(bad_call: u64, error: io::Error) -> ChoppyReader<'static> {
    ChoppyReader {
        rest: SCRIPT,
        calls: 0,
        bad_call,
        error,
    }
}

fn writer_of(alloc: Global, bad_call: u64) -> ChoppyWriter {
    ChoppyWriter {
        written: Vec::new(alloc),
        calls: 0,
        bad_call,
    }
}

fn run_choppy(alloc: Global, bad_read: u64, error: io::Error, bad_write: u64) -> Ended {
    let mut reader = reader_of(bad_read, error);
    let mut writer = writer_of(alloc, bad_write);
    let outcome = run_script(alloc, &mut reader, &mut writer);
    Ended {
        outcome,
        written: writer.written,
        reads: reader.calls,
        writes: writer.calls,
    }
}

fn draw_choppy<R: Threads + Wait + Clock + Copy + Send + Sync + 'static>(
    rt: &R,
    alloc: Global,
    bad_read: u64,
    error: io::Error,
    bad_write: u64,
) -> Ended {
    let mut reader = reader_of(bad_read, error);
    let mut writer = writer_of(alloc, bad_write);
    let mut err: Vec<u8> = Vec::new(alloc);
    let outcome = run_words(rt, alloc, &["draw"], &mut reader, &mut writer, &mut err);
    Ended {
        outcome,
        written: writer.written,
        reads: reader.calls,
        writes: writer.calls,
    }
}

fn run_whole(alloc: Global) -> Ended {
    run_choppy(
        alloc,
        u64::MAX,
        io::Error::from_raw_os_error(NUMBER),
        u64::MAX,
    )
}

// The script ended with the one error, and what it had written is a prefix of the whole output.
fn failed_within(ended: &Ended, whole: &[u8]) -> bool {
    let is_the_error = match &ended.outcome {
        Ok(_) => false,
        Err(error) => error.raw_os_error() == Some(NUMBER),
    };
    is_the_error && whole.starts_with(ended.written.as_slice())
}

#[test]
fn each_read_in_turn_fails(rt: HostRuntime) -> Result<(), Fail> {
    let whole = run_whole(rt.alloc());
    assert!(rt; whole.outcome.is_ok());
    assert!(rt; whole.reads > 15);
    for bad_read in 0..whole.reads {
        let error = io::Error::from_raw_os_error(NUMBER);
        let ended = run_choppy(rt.alloc(), bad_read, error, u64::MAX);
        assert!(rt;
            failed_within(&ended, whole.written.as_slice()),
            "read {bad_read}"
        );
    }
    Ok(())
}

#[test]
fn each_write_in_turn_fails(rt: HostRuntime) -> Result<(), Fail> {
    let whole = run_whole(rt.alloc());
    assert!(rt; whole.writes > 15);
    for bad_write in 0..whole.writes {
        let error = io::Error::from_raw_os_error(NUMBER);
        let ended = run_choppy(rt.alloc(), u64::MAX, error, bad_write);
        assert!(rt;
            failed_within(&ended, whole.written.as_slice()),
            "write {bad_write}"
        );
        assert!(rt;
            ended.written.len() < whole.written.len(),
            "write {bad_write}"
        );
    }
    Ok(())
}

#[test]
fn an_interrupted_read_is_made_again(rt: HostRuntime) -> Result<(), Fail> {
    let whole = run_whole(rt.alloc());
    for bad_read in 0..whole.reads {
        let ended = run_choppy(
            rt.alloc(),
            bad_read,
            io::Error::from(ErrorKind::Interrupted),
            u64::MAX,
        );
        assert!(rt; ended.outcome.is_ok(), "read {bad_read}");
        assert!(rt;
            ended.written.as_slice() == whole.written.as_slice(),
            "read {bad_read}"
        );
    }
    Ok(())
}

// Of a script that can't be read whole nothing is drawn. An interrupted read is made again.
#[test]
fn each_read_for_a_picture_in_turn_fails(rt: HostRuntime) {
    let unused = io::Error::from_raw_os_error(NUMBER);
    let whole = draw_choppy(&rt, rt.alloc(), u64::MAX, unused, u64::MAX);
    assert!(rt; whole.outcome.is_ok());
    assert!(rt; whole.reads > 15);
    for bad_read in 0..whole.reads {
        let error = io::Error::from_raw_os_error(NUMBER);
        let ended = draw_choppy(&rt, rt.alloc(), bad_read, error, u64::MAX);
        assert!(rt; failed_within(&ended, b""), "read {bad_read}");
        let error = io::Error::from(ErrorKind::Interrupted);
        let ended = draw_choppy(&rt, rt.alloc(), bad_read, error, u64::MAX);
        assert!(rt;
            ended.written.as_slice() == whole.written.as_slice(),
            "read {bad_read}"
        );
    }
}

#[test]
fn a_write_of_a_picture_fails(rt: HostRuntime) {
    for bad_write in 0..4 {
        let unused = io::Error::from_raw_os_error(NUMBER);
        let ended = draw_choppy(&rt, rt.alloc(), u64::MAX, unused, bad_write);
        assert!(rt; failed_within(&ended, b"<svg xmlns="), "write {bad_write}");
    }
}
