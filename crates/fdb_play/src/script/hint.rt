//! What who writes a script by hand is told of a line that is none of the grammar, and of one that came too early.
ghost use Rattle.std.specs.Prelude.{IfErr};

use crate::script::step_line::Kind;
use crate::script::words::Words;
use fdb_core::Answered;
use fdb_keys::Refusal;
use fdb_print::Sink;
use std::fmt::Display;
use std::io;

/// Hints that nobody reads, and that take no memory.
#[derive(Clone, Copy)]
pub struct NoHints;

impl Sink for NoHints {
    ghost errors = { λ _. ⊥ };

    fn write_all(&mut self, _bytes: &[u8]) -> io::Result<()> {
        Ok(())
    }

    fn write_fmt<D: Display + Drop>(&mut self, _text: D) -> io::Result<()> {
        Ok(())
    }
}

/// What the first line that says anything is like.
const CONFIG: &str = "config proxies N logs N resolvers SPLITS shards SPLITS book N";

/// What all other lines are like. Words in capitals stand for what the line gives.
static FORMS: [&str; 30] = [
    "ask S P",
    "grant P",
    "get S K",
    "sget S K",
    "range S B E LIMIT",
    "srange S B E LIMIT",
    "write S set K X",
    "write S clear K",
    "write S clearrange B E",
    "write S stamped K X OFFSET",
    "write S OP K X  with OP one of  add and or xor max min bytemin bytemax cac",
    "addread S B E",
    "addwrite S B E",
    "submit S P",
    "seal P A",
    "resolve I R",
    "verdict I R",
    "decide P",
    "push I L",
    "logged I L",
    "report P",
    "answer P",
    "pull H N",
    "forget H V",
    "move B E R",
    "window W",
    "pop H",
    "show S",
    "conflict S",
    "drive P",
];

// The first word of the text, empty where there is none.
fn first_word(text: &[u8]) -> &[u8] {
    Words::new(text).word().unwrap_or(&[])
}

// Whether the form has the word behind its first one.
fn has_later(form: &str, word: &[u8]) -> bool {
    form.split_ascii_whitespace()
        .skip(1)
        .any(|part| part.as_bytes() == word)
}

// Prints the forms that begin with the word, and tells whether there are some.
fn print_begun<E: Sink>(word: &[u8], hints: &mut E) -> Result<bool, io::Error>
    ensures errors { IfErr result E.errors }
{
    let mut found = false;
    for form in &FORMS {
        if first_word(form.as_bytes()) == word {
            writeln!(hints, "  {form}")?;
            found = true;
        }
    }
    Ok(found)
}

// Prints the forms that have the word behind their first one, and tells whether there are some.
fn print_meant<E: Sink>(word: &[u8], hints: &mut E) -> Result<bool, io::Error>
    ensures errors { IfErr result E.errors }
{
    let mut found = false;
    for form in &FORMS {
        if has_later(form, word) {
            writeln!(hints, "  {form}")?;
            found = true;
        }
    }
    Ok(found)
}

/// Tells on `hints` what a line is like that says what this one means to: the forms that begin with its first word, or
/// those that have that word further behind, as `set` in `write S set K X`. It takes O(n) time for the n bytes of the
/// line, and no memory.
pub fn print_line_hint<E: Sink>(number: u64, line: &[u8], hints: &mut E) -> Result<(), io::Error>
    ensures errors { IfErr result E.errors }
{
    let word = first_word(line);
    writeln!(
        hints,
        "line {number} is none of the lines of a script; those that it may be meant for:"
    )?;
    if print_begun(word, hints)? || print_meant(word, hints)? {
        return Ok(());
    }
    writeln!(
        hints,
        "  none begins with its first word, nor has it elsewhere; 'run --help' lists all lines"
    )
}

/// The same of the first line that says anything, or of a script that says nothing, whose number is 0.
pub fn print_config_hint<E: Sink>(number: u64, hints: &mut E) -> Result<(), io::Error>
    ensures errors { IfErr result E.errors }
{
    match number {
        0 => writeln!(
            hints,
            "the script says nothing; its first line is:\n  {CONFIG}"
        ),
        _ => writeln!(
            hints,
            "line {number} is the first one, which has to be:\n  {CONFIG}"
        ),
    }
}

// What a line of the kind waits for that is refused as `NotYet`, up to the number: a step of this kind, or a drive
// where there is none. A drive's decision and what comes after its last acknowledgement never wait.
fn awaited(kind: Option<Kind>) -> &'static str {
    match kind {
        Some(Kind::Resolve) => "until the resolver has taken the entry of version",
        Some(Kind::Decide) => "for the verdicts of resolver",
        Some(Kind::Push) => "until the log has taken the entry of version",
        Some(Kind::Report) => "for the acknowledgement of log",
        Some(Kind::Answer) => "for the report of version",
        None => "until all resolvers and logs have taken the entry of version",
        // No other step is refused so.
        Some(_) => "for number",
    }
}

/// Tells on `hints` what the line of this number waits for, whose outcome it is, where that is the refusal `NotYet`; of
/// any other outcome nothing. The line gave a step of the kind, or drove a batch where there is none. It takes O(1)
/// time, and no memory.
pub fn print_wait_hint<E: Sink>(
    number: u64,
    kind: Option<Kind>,
    outcome: &Result<Answered, Refusal>,
    hints: &mut E,
) -> Result<(), io::Error>
    ensures errors { IfErr result E.errors }
{
    match outcome {
        Err(Refusal::NotYet(missing)) => {
            let awaited = awaited(kind);
            writeln!(hints, "line {number} waits {awaited} {missing}")
        }
        _ => Ok(()),
    }
}
