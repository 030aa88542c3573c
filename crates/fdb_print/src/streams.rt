//! Readers and writers with the errors that their calls may answer. Code that is proved for each of them can't
//! make up an error of its own, so that those that it answers are theirs.
ghost use Rattle.std.specs.Prelude.{◌≡◌, ◌<◌, ◌≤◌, ◌+◌, ℕ, List, Option, ⊤, None, Some, IfSome, IfErr, IfOk, OnOk};
ghost use Rattle.std.specs.Io.{ReadsAtMost};
ghost use Rattle.std.specs.Io.KnownBytes.{Appends, ReadConsumes};
ghost use Rattle.std.specs.declared.io.Error.{Error};

use std::fmt::Display;
use std::io;
use std::io::{BufWriter, LineWriter, Read, Stderr, Stdin, Write};

/// A reader of which it is said which errors its reads answer.
pub trait Source {
    // The bytes that reads will give from here on, where they are known.
    ghost remaining: { Self → Option (List ℕ) } = { λ _. None };

    // The errors that a read may answer, which may be all.
    ghost errors: { Error → Type 0 } = { λ _. ⊤ };

    /// Reads as `Read::read` does.
    fn read(&mut self, buffer: &mut [u8]) -> io::Result<usize>
        ensures bound { ReadsAtMost result buffer.new }
        ensures bytes { ReadConsumes (remaining self.old) (remaining self.new) result buffer.new }
        ensures errors { IfErr result errors };
}

impl<R: Source> Source for &mut R {
    ghost remaining = { λ reader. R.remaining reader.now };

    ghost errors = { R.errors };

    fn read(&mut self, buffer: &mut [u8]) -> io::Result<usize> {
        Source::read(&mut **self, buffer)
    }
}

impl Source for &[u8] {
    ghost remaining = { λ bytes. Some bytes.now };

    // A read of memory doesn't fail.
    ghost errors = { λ _. ⊥ };

    fn read(&mut self, buffer: &mut [u8]) -> io::Result<usize> {
        Read::read(self, buffer)
    }
}

impl Source for Stdin {
    fn read(&mut self, buffer: &mut [u8]) -> io::Result<usize> {
        Read::read(self, buffer)
    }
}

/// How many reads an input may take.
const READ_LIMIT: u64 = 1 << 32;

/// A reader that refuses reads beyond 2^32, with an error of `ErrorKind::Other`.
#[derive(Drop)]
pub struct Limited<R> {
    reader: R,
    reads: u64,
}

impl<R> Limited<R> {
    /// Limits what the reader gives from here on.
    pub fn new(reader: R) -> Limited<R>
        ensures { result ≡ record { reader = reader; reads = 0 } }
    {
        Limited { reader, reads: 0 }
    }
}

impl<R: Source> Source for Limited<R> {
    ghost use Rattle.fdb_print.specs.Streams.{IsLimitedError, IsLimitedErrorAfter, read_limit};

    ghost remaining = { λ limited. R.remaining limited.reader };

    ghost errors = { IsLimitedError R.errors };

    // Reads as the reader does and counts the read, as long as there were fewer than the limit; from then on each is
    // refused, and nothing changes.
    fn read(&mut self, buffer: &mut [u8]) -> io::Result<usize>
        ensures bound { ReadsAtMost result buffer.new }
        ensures bytes { ReadConsumes (R.remaining self.old.reader) (R.remaining self.new.reader) result buffer.new }
        ensures counted { self.old.reads < read_limit → self.new.reads ≡ 1 + self.old.reads }
        ensures given_up { read_limit ≤ self.old.reads → self.new ≡ self.old }
        ensures answered { IfOk result (λ _. self.old.reads < read_limit) }
        ensures limited { IfErr result (IsLimitedErrorAfter self.old.reads R.errors) }
    {
        if self.reads >= READ_LIMIT {
            return Err(io::Error::other("the input did not end"));
        }
        self.reads += 1;
        self.reader.read(buffer)
    }
}

/// A writer of which it is said which errors its writes answer.
pub trait Sink {
    // The bytes that the writer holds, where they are known.
    ghost contents: { Self → Option (List ℕ) } = { λ _. None };

    // The errors that a write may answer, which may be all.
    ghost errors: { Error → Type 0 } = { λ _. ⊤ };

    /// Writes as `Write::write_all` does.
    fn write_all(&mut self, bytes: &[u8]) -> io::Result<()>
        ensures bytes { OnOk result (Appends (contents self.old) (contents self.new) bytes.now) }
        ensures errors { IfErr result errors };

    /// Writes as `Write::write_fmt` does.
    fn write_fmt<D: Display + Drop>(&mut self, text: D) -> io::Result<()>
        ensures bytes { OnOk result (IfSome (D.output text) (Appends (contents self.old) (contents self.new))) }
        ensures errors { IfErr result errors };
}

impl Sink for Vec<u8> {
    ghost contents = { λ bytes. Some bytes.items };

    fn write_all(&mut self, bytes: &[u8]) -> io::Result<()> {
        Write::write_all(self, bytes)
    }

    fn write_fmt<D: Display + Drop>(&mut self, text: D) -> io::Result<()> {
        Write::write_fmt(self, text)
    }
}

impl<W: Write + Drop> Sink for BufWriter<W> {
    ghost use Rattle.std.specs.Io.Buffered.{writer_contents};

    ghost contents = { writer_contents W.contents };

    fn write_all(&mut self, bytes: &[u8]) -> io::Result<()> {
        Write::write_all(self, bytes)
    }

    fn write_fmt<D: Display + Drop>(&mut self, text: D) -> io::Result<()> {
        Write::write_fmt(self, text)
    }
}

impl<W: Write + Drop> Sink for LineWriter<W> {
    ghost use Rattle.std.specs.Io.Buffered.{line_writer_contents};

    ghost contents = { line_writer_contents W.contents };

    fn write_all(&mut self, bytes: &[u8]) -> io::Result<()> {
        Write::write_all(self, bytes)
    }

    fn write_fmt<D: Display + Drop>(&mut self, text: D) -> io::Result<()> {
        Write::write_fmt(self, text)
    }
}

impl Sink for Stderr {
    fn write_all(&mut self, bytes: &[u8]) -> io::Result<()> {
        Write::write_all(self, bytes)
    }

    fn write_fmt<D: Display + Drop>(&mut self, text: D) -> io::Result<()> {
        Write::write_fmt(self, text)
    }
}
