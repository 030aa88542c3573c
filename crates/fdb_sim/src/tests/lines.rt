// The lines of readers that give few bytes a call, and many.
use fdb_play::{Lines, Source, Stop};
use std::alloc::{AllocError, Global};
use std::io;
use std::test::Fail;

/// Gives its text at most so many bytes a call.
#[derive(Drop)]
struct PieceReader<'a> {
    rest: &'a [u8],
    most: usize,
}

impl<'a> Source for PieceReader<'a> {
    fn read(&mut self, buffer: &mut [u8]) -> io::Result<usize> {
        let most = buffer.len().min(self.most);
        self.rest.read(&mut buffer[..most])
    }
}

// The lines of the text, each with a `|` after it.
fn marked_lines(alloc: Global, text: &[u8], most: usize) -> Result<Vec<u8>, Stop> {
    let mut reader = PieceReader { rest: text, most };
    let mut lines = Lines::new(alloc, &mut reader)?;
    let mut marked = Vec::new(alloc);
    for _ in 0..u64::MAX {
        if !lines.advance()? {
            break;
        }
        marked.extend_from_slice(lines.text())?;
        marked.push(b'|')?;
    }
    Ok(marked)
}

fn has_lines(alloc: Global, text: &[u8], most: usize, marked: &[u8]) -> bool {
    match marked_lines(alloc, text, most) {
        Ok(found) => found.as_slice() == marked,
        Err(_) => false,
    }
}

// So many bytes, and the end after them.
fn long_text(alloc: Global, length: usize, end: &[u8]) -> Result<Vec<u8>, AllocError> {
    let mut text = vec![in alloc; b'x'; length]?;
    text.extend_from_slice(end)?;
    Ok(text)
}

#[test]
fn lines_end_at_an_lf(rt: HostRuntime) {
    for most in 1..9 {
        assert!(rt;
            has_lines(rt.alloc(), b"a\r\nb\n\nc", most, b"a|b||c|"),
            "{most}"
        );
        assert!(rt; has_lines(rt.alloc(), b"a\n", most, b"a|"), "{most}");
        assert!(rt; has_lines(rt.alloc(), b"", most, b""), "{most}");
        assert!(rt;
            has_lines(rt.alloc(), b"a\rb\r\r\nc\r", most, b"a\rb\r|c\r|"),
            "{most}"
        );
    }
}

#[test]
fn lines_over_many_chunks(rt: HostRuntime) -> Result<(), Fail> {
    for length in 8_190..8_195 {
        let text = long_text(rt.alloc(), length, b"\r\ny")?;
        let marked = long_text(rt.alloc(), length, b"|y|")?;
        assert!(rt;
            has_lines(rt.alloc(), text.as_slice(), 100_000, marked.as_slice()),
            "{length}"
        );
    }
    Ok(())
}
