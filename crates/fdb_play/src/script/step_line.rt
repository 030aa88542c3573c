ghost use Rattle.std.specs.Prelude.{◌≡◌, ◌≢◌, ◌∷◌, MatchResult};
ghost use Rattle.fdb_play.specs.script.Faults.{Reads};
ghost use Rattle.fdb_play.specs.script.Grammar.{WritesGet, WritesRange, WritesRest, WritesStep, step_fault};
ghost use Rattle.fdb_play.specs.script.Kinds.{name_of};

use crate::script::fault::Fault;
use crate::script::keys::{
    RangeRead, RangeTarget, last_key, last_range, last_range_read, last_target,
};
use crate::script::words::Words;
use crate::script::write_line::read_mutation;
use fdb_core::Step;
use std::alloc::Global;

/// The kinds of lines that give a step. A read of a key, or of a range, is of one of two kinds, by whether it is a
/// snapshot read.
#[derive(Clone, Copy)]
pub enum Kind {
    Ask,
    Grant,
    Get,
    SnapshotGet,
    Range,
    SnapshotRange,
    Write,
    AddRead,
    AddWrite,
    Submit,
    Seal,
    Resolve,
    Verdict,
    Decide,
    Push,
    Logged,
    Report,
    Answer,
    Pull,
    Forget,
    Pop,
    Move,
    Window,
}

/// All kinds of lines.
const KINDS: [Kind; 23] = [
    Kind::Ask,
    Kind::Grant,
    Kind::Get,
    Kind::SnapshotGet,
    Kind::Range,
    Kind::SnapshotRange,
    Kind::Write,
    Kind::AddRead,
    Kind::AddWrite,
    Kind::Submit,
    Kind::Seal,
    Kind::Resolve,
    Kind::Verdict,
    Kind::Decide,
    Kind::Push,
    Kind::Logged,
    Kind::Report,
    Kind::Answer,
    Kind::Pull,
    Kind::Forget,
    Kind::Pop,
    Kind::Move,
    Kind::Window,
];

impl Kind {
    // The word that names the kind.
    fn name(self) -> &'static [u8]
        ensures { result.now ≡ name_of self }
    {
        match self {
            Kind::Ask => b"ask",
            Kind::Grant => b"grant",
            Kind::Get => b"get",
            Kind::SnapshotGet => b"sget",
            Kind::Range => b"range",
            Kind::SnapshotRange => b"srange",
            Kind::Write => b"write",
            Kind::AddRead => b"addread",
            Kind::AddWrite => b"addwrite",
            Kind::Submit => b"submit",
            Kind::Seal => b"seal",
            Kind::Resolve => b"resolve",
            Kind::Verdict => b"verdict",
            Kind::Decide => b"decide",
            Kind::Push => b"push",
            Kind::Logged => b"logged",
            Kind::Report => b"report",
            Kind::Answer => b"answer",
            Kind::Pull => b"pull",
            Kind::Forget => b"forget",
            Kind::Pop => b"pop",
            Kind::Move => b"move",
            Kind::Window => b"window",
        }
    }
}

/// The step that a line of this first word and the words after it gives, with the kind of the line. A line of
/// another form is bad, also where its key would be refused. Refused as `make_key` and `make_range` refuse its key
/// or its range.
pub fn read_step(alloc: Global, first: &[u8], words: &mut Words<'_>) -> Result<(Kind, Step), Fault>
    ensures { Reads result (λ read. WritesStep (first.now ∷ words.old) read.0 read.1) (λ read. step_fault read.1) }
{
    let kind = kind_named(first)?;
    let step = read_words(alloc, kind, words)?;
    Ok((kind, step))
}

fn kind_named(word: &[u8]) -> Result<Kind, Fault>
    ensures { MatchResult result (λ kind. word.now ≡ name_of kind)
        (λ fault. (fault ≡ Fault.Bad) × ((kind : Kind) → word.now ≢ name_of kind)) }
{
    for kind in KINDS {
        if word == kind.name() {
            return Ok(kind);
        }
    }
    Err(Fault::Bad)
}

// The step that the words after the first one give.
fn read_words(alloc: Global, kind: Kind, words: &mut Words<'_>) -> Result<Step, Fault>
    ensures { Reads result (WritesRest kind words.old) step_fault }
{
    match kind {
        Kind::Ask => read_ask(words),
        Kind::Grant => read_grant(words),
        Kind::Get => read_get(alloc, false, words),
        Kind::SnapshotGet => read_get(alloc, true, words),
        Kind::Range => read_range(alloc, false, words),
        Kind::SnapshotRange => read_range(alloc, true, words),
        Kind::Write => read_write(alloc, words),
        Kind::AddRead => read_add_read(alloc, words),
        Kind::AddWrite => read_add_write(alloc, words),
        Kind::Submit => read_submit(words),
        Kind::Seal => read_seal(words),
        Kind::Resolve => read_resolve(words),
        Kind::Verdict => read_verdict(words),
        Kind::Decide => read_decide(words),
        Kind::Push => read_push(words),
        Kind::Logged => read_logged(words),
        Kind::Report => read_report(words),
        Kind::Answer => read_answer(words),
        Kind::Pull => read_pull(words),
        Kind::Forget => read_forget(words),
        Kind::Pop => read_pop(words),
        Kind::Move => read_move(alloc, words),
        Kind::Window => read_window(words),
    }
}

fn read_ask(words: &mut Words<'_>) -> Result<Step, Fault>
    ensures { Reads result (WritesRest Kind.Ask words.old) step_fault }
{
    let (session, proxy) = words.last_pair()?;
    Ok(Step::Ask { session, proxy })
}

fn read_grant(words: &mut Words<'_>) -> Result<Step, Fault>
    ensures { Reads result (WritesRest Kind.Grant words.old) step_fault }
{
    let proxy = words.last_number()?;
    Ok(Step::Grant { proxy })
}

fn read_get(alloc: Global, snapshot: bool, words: &mut Words<'_>) -> Result<Step, Fault>
    ensures { Reads result (WritesGet snapshot words.old) step_fault }
{
    let session = words.small_number()?;
    let key = last_key(alloc, words)?;
    Ok(Step::Get {
        session,
        key,
        snapshot,
    })
}

fn read_range(alloc: Global, snapshot: bool, words: &mut Words<'_>) -> Result<Step, Fault>
    ensures { Reads result (WritesRange snapshot words.old) step_fault }
{
    let session = words.small_number()?;
    let RangeRead {
        range,
        limit,
        reverse,
    } = last_range_read(alloc, words)?;
    Ok(Step::GetRange {
        session,
        range,
        limit,
        reverse,
        snapshot,
    })
}

fn read_write(alloc: Global, words: &mut Words<'_>) -> Result<Step, Fault>
    ensures { Reads result (WritesRest Kind.Write words.old) step_fault }
{
    let session = words.small_number()?;
    let mutation = read_mutation(alloc, words)?;
    Ok(Step::Write { session, mutation })
}

fn read_add_read(alloc: Global, words: &mut Words<'_>) -> Result<Step, Fault>
    ensures { Reads result (WritesRest Kind.AddRead words.old) step_fault }
{
    let session = words.small_number()?;
    let range = last_range(alloc, words)?;
    Ok(Step::AddRead { session, range })
}

fn read_add_write(alloc: Global, words: &mut Words<'_>) -> Result<Step, Fault>
    ensures { Reads result (WritesRest Kind.AddWrite words.old) step_fault }
{
    let session = words.small_number()?;
    let range = last_range(alloc, words)?;
    Ok(Step::AddWrite { session, range })
}

fn read_submit(words: &mut Words<'_>) -> Result<Step, Fault>
    ensures { Reads result (WritesRest Kind.Submit words.old) step_fault }
{
    let (session, proxy) = words.last_pair()?;
    Ok(Step::Submit { session, proxy })
}

fn read_seal(words: &mut Words<'_>) -> Result<Step, Fault>
    ensures { Reads result (WritesRest Kind.Seal words.old) step_fault }
{
    let proxy = words.small_number()?;
    let advance = words.number()?;
    words.end()?;
    Ok(Step::Seal { proxy, advance })
}

fn read_resolve(words: &mut Words<'_>) -> Result<Step, Fault>
    ensures { Reads result (WritesRest Kind.Resolve words.old) step_fault }
{
    let (entry, resolver) = words.last_pair()?;
    Ok(Step::Resolve { entry, resolver })
}

fn read_verdict(words: &mut Words<'_>) -> Result<Step, Fault>
    ensures { Reads result (WritesRest Kind.Verdict words.old) step_fault }
{
    let (entry, resolver) = words.last_pair()?;
    Ok(Step::Verdict { entry, resolver })
}

fn read_decide(words: &mut Words<'_>) -> Result<Step, Fault>
    ensures { Reads result (WritesRest Kind.Decide words.old) step_fault }
{
    let proxy = words.last_number()?;
    Ok(Step::Decide { proxy })
}

fn read_push(words: &mut Words<'_>) -> Result<Step, Fault>
    ensures { Reads result (WritesRest Kind.Push words.old) step_fault }
{
    let (entry, log) = words.last_pair()?;
    Ok(Step::Push { entry, log })
}

fn read_logged(words: &mut Words<'_>) -> Result<Step, Fault>
    ensures { Reads result (WritesRest Kind.Logged words.old) step_fault }
{
    let (entry, log) = words.last_pair()?;
    Ok(Step::Logged { entry, log })
}

fn read_report(words: &mut Words<'_>) -> Result<Step, Fault>
    ensures { Reads result (WritesRest Kind.Report words.old) step_fault }
{
    let proxy = words.last_number()?;
    Ok(Step::Report { proxy })
}

fn read_answer(words: &mut Words<'_>) -> Result<Step, Fault>
    ensures { Reads result (WritesRest Kind.Answer words.old) step_fault }
{
    let proxy = words.last_number()?;
    Ok(Step::Answer { proxy })
}

fn read_pull(words: &mut Words<'_>) -> Result<Step, Fault>
    ensures { Reads result (WritesRest Kind.Pull words.old) step_fault }
{
    let (shard, limit) = words.last_pair()?;
    Ok(Step::Pull { shard, limit })
}

fn read_forget(words: &mut Words<'_>) -> Result<Step, Fault>
    ensures { Reads result (WritesRest Kind.Forget words.old) step_fault }
{
    let shard = words.small_number()?;
    let version = words.number()?;
    words.end()?;
    Ok(Step::Forget { shard, version })
}

fn read_pop(words: &mut Words<'_>) -> Result<Step, Fault>
    ensures { Reads result (WritesRest Kind.Pop words.old) step_fault }
{
    let shard = words.last_number()?;
    Ok(Step::Pop { shard })
}

fn read_move(alloc: Global, words: &mut Words<'_>) -> Result<Step, Fault>
    ensures { Reads result (WritesRest Kind.Move words.old) step_fault }
{
    let RangeTarget { range, to } = last_target(alloc, words)?;
    Ok(Step::Move { range, to })
}

fn read_window(words: &mut Words<'_>) -> Result<Step, Fault>
    ensures { Reads result (WritesRest Kind.Window words.old) step_fault }
{
    let window = words.number()?;
    words.end()?;
    Ok(Step::Window { window })
}
