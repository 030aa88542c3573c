ghost use Rattle.std.specs.Prelude.{◌≡◌, [], true, false, suc, Ok, IfErr, IfOk, OnOk};
ghost use Rattle.std.specs.Io.KnownBytes.{Keeps, IsAtEnd};
ghost use Rattle.std.specs.Str.Lines.{strip_carriage_return};
ghost use Rattle.fdb_play.specs.script.Lines.{without_line_end};

use fdb_print::{Source, Stop};
use std::alloc::{AllocError, Global};
use std::io;
use std::io::{BufRead, BufReader, Read};
use std::marker::Model;

/// A reader that keeps the error that its last read answered, which tells that error from one line's lack of
/// memory.
#[derive(Drop)]
struct Noting<R: Source> {
    reader: R,
    fault: Option<io::Error>,
}

impl<R: Source> Model for Noting<R> {
    ghost use Rattle.std.specs.Prelude.{IfSome};

    ghost Value = { R };

    ghost view = { λ noting. noting.reader };

    ghost invariant = { λ noting. IfSome noting.fault R.errors };
}

impl<R: Source> Noting<R> {
    ghost use Rattle.std.specs.Prelude.{IfSome};

    fn new(reader: R) -> Noting<R>
        ensures { result ≡ reader }
    {
        Noting {
            reader,
            fault: None,
        }
    }

    // The error that the last read answered.
    fn fault(&self) -> Option<io::Error>
        ensures { IfSome result R.errors }
    {
        self.fault
    }
}

impl<R: Source> Read for Noting<R> {
    ghost remaining = { R.remaining };

    fn read(&mut self, buffer: &mut [u8]) -> io::Result<usize> {
        let result = self.reader.read(buffer);
        self.fault = result.err();
        result
    }
}

/// The lines of an input, of which only the current one is held. A line ends with an `LF`; what stands
/// after the last `LF` is a line where it isn't empty.
#[derive(Drop)]
pub struct Lines<R: Source> {
    reader: BufReader<Noting<R>>,
    line: Vec<u8>,
    number: u64,
}

impl<R: Source + Drop> Lines<R> {
    ghost use Rattle.fdb_play.specs.script.Lines.{IsInputFault, LosesLine, left, line_number, line_text};

    /// The lines of what the reader has left. The current line is empty and has the number 0 until the
    /// first one is gone to. It fails only where memory runs out. It takes O(1) time.
    pub fn new(alloc: Global, reader: R) -> Result<Lines<R>, AllocError>
        ensures left { IfOk result (λ lines. left R.remaining lines ≡ R.remaining reader) }
        ensures text { IfOk result (λ lines. line_text lines ≡ []) }
        ensures number { IfOk result (λ lines. line_number lines ≡ 0) }
    {
        match BufReader::new(alloc, Noting::new(reader)) {
            Ok(reader) => Ok(Lines {
                reader,
                line: Vec::new(alloc),
                number: 0,
            }),
            Err(_) => Err(AllocError),
        }
    }

    /// The current line, without its `LF` and without a `CR` right before that. It takes O(1) time.
    pub fn text(&self) -> &[u8]
        ensures { result.now ≡ line_text self.now }
    {
        self.line.as_slice()
    }

    /// The number of the current line, from 1. It takes O(1) time.
    pub fn number(&self) -> u64
        ensures { result ≡ line_number self.now }
    {
        self.number
    }

    /// Goes to the next line, and answers whether there is one. It fails where a read fails, with that error,
    /// and where memory runs out; the number of a line that would not fit counts as out of memory, since no
    /// input is that long. Nothing is known of the lines after a failure. It takes O(n) time for a line of n bytes.
    pub fn advance(&mut self) -> Result<bool, Stop>
        ensures line { result ≡ Ok true
            → LosesLine (left R.remaining self.old) (left R.remaining self.new) (line_text self.new) }
        ensures end { result ≡ Ok false → IsAtEnd (left R.remaining self.old)
            × Keeps (left R.remaining self.old) (left R.remaining self.new) }
        ensures fault { IfErr result (IsInputFault R.errors) }
        ensures number { OnOk result (line_number self.new ≡ suc (line_number self.old)) }
    {
        self.number = self.number.checked_add(1).ok_or(Stop::NoMemory)?;
        self.line.clear();
        match self.reader.read_until(b'\n', &mut self.line) {
            Ok(0) => Ok(false),
            Ok(_) => {
                drop_line_end(&mut self.line);
                Ok(true)
            }
            Err(_) => Err(self.stop()),
        }
    }

    // Why the next line wasn't read: where no read failed, there was no memory for it.
    fn stop(&self) -> Stop
        ensures { IsInputFault R.errors result }
    {
        match self.reader.get_ref().fault() {
            Some(error) => Stop::Io(error),
            None => Stop::NoMemory,
        }
    }
}

fn drop_line_end(line: &mut Vec<u8>)
    ensures { line.new.items ≡ without_line_end line.old.items }
{
    if line.as_slice().last() == Some(&b'\n') {
        line.pop();
        drop_carriage_return(line);
    }
}

fn drop_carriage_return(line: &mut Vec<u8>)
    ensures { line.new.items ≡ strip_carriage_return line.old.items }
{
    if line.as_slice().last() == Some(&b'\r') {
        line.pop();
    }
}
