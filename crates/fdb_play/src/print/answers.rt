// What is printed of a step: what it answered, or why it was refused.
ghost use Rattle.std.specs.Prelude.{◌≡◌, ◌++◌, OnOk, string_bytes};
ghost use Rattle.std.specs.Fmt.{decimal};
ghost use Rattle.fdb_keys.specs.Refusals.{code_of};
ghost use Rattle.fdb_play.specs.print.Answers.{granted_text, value_text, pair_text, pairs_text, verdict_name};
ghost use Rattle.fdb_play.specs.print.Answers.{verdicts_text, outcome_name, outcomes_text, version_text, told_text};
ghost use Rattle.fdb_play.specs.print.Answers.{clients_text, answer_text, result_text};
ghost use Rattle.fdb_print.specs.Stops.{printed_line, refused_line};

use crate::print::texts::push_text;
use crate::script::step_line::Kind;
use bytes::Bytes;
use fdb_core::{Answered, Outcome, Verdict};
use fdb_keys::{Key, Refusal};
use fdb_print::RefusalLine;
use std::alloc::AllocError;

/// Appends what a step of this kind prints, as a line.
pub fn push_result(
    text: &mut String,
    kind: Kind,
    outcome: Result<Answered, Refusal>,
) -> Result<(), AllocError>
    ensures { OnOk result (string_bytes text.new ≡ string_bytes text.old ++ printed_line (result_text kind outcome)) }
{
    match outcome {
        Ok(answered) => {
            push_answer(text, kind, &answered)?;
            text.push('\n')
        }
        Err(refusal) => push_refusal(text, refusal),
    }
}

/// Appends what is printed of a refusal, as a line.
pub fn push_refusal(text: &mut String, refusal: Refusal) -> Result<(), AllocError>
    ensures { OnOk result (string_bytes text.new ≡ string_bytes text.old ++ refused_line refusal) }
{
    let line = RefusalLine(refusal);
    writeln!(text, "{line}")
}

/// Appends what a step of this kind answered, as a script prints it. It fails only where memory runs out. It takes O(n)
/// time for n bytes that are appended.
pub fn push_answer(text: &mut String, kind: Kind, answered: &Answered) -> Result<(), AllocError>
    ensures { OnOk result (string_bytes text.new ≡ string_bytes text.old ++ answer_text kind answered.now) }
{
    match answered {
        Answered::Done => text.push_str("ok"),
        Answered::Granted(served) => push_granted(text, served.as_slice()),
        Answered::Value(value) => push_value(text, value),
        Answered::Pairs(pairs) => push_pairs(text, pairs.as_slice()),
        Answered::ReadOnly(version) => write!(text, "readonly {version}"),
        Answered::Issued {
            index,
            version,
            prev,
            places,
        } => write!(
            text,
            "entry {index} version {version} prev {prev} places {places}"
        ),
        Answered::Verdicts(verdicts) => push_verdicts(text, verdicts.as_slice()),
        Answered::Decided(outcomes) => push_decided(text, outcomes.as_slice()),
        Answered::Version(version) => push_version(text, kind, *version),
        Answered::Answers(answers) => push_answers(text, answers.as_slice()),
    }
}

fn push_granted(text: &mut String, served: &[(u32, u64)]) -> Result<(), AllocError>
    ensures { OnOk result (string_bytes text.new ≡ string_bytes text.old ++ granted_text served.now) }
{
    text.push_str("grant")?;
    for (session, version) in served {
        write!(text, " {session}={version}")?;
    }
    Ok(())
}

fn push_value(text: &mut String, value: &Option<Bytes>) -> Result<(), AllocError>
    ensures { OnOk result (string_bytes text.new ≡ string_bytes text.old ++ value_text value.now) }
{
    match value {
        None => text.push_str("none"),
        Some(bytes) => {
            text.push_str("value ")?;
            push_text(text, bytes.as_slice())
        }
    }
}

fn push_pairs(text: &mut String, pairs: &[(Key, Bytes)]) -> Result<(), AllocError>
    ensures { OnOk result (string_bytes text.new ≡ string_bytes text.old ++ pairs_text pairs.now) }
{
    let count = pairs.len();
    write!(text, "pairs {count}")?;
    for (key, value) in pairs {
        push_pair(text, key, value)?;
    }
    Ok(())
}

fn push_pair(text: &mut String, key: &Key, value: &Bytes) -> Result<(), AllocError>
    ensures { OnOk result (string_bytes text.new ≡ string_bytes text.old ++ pair_text (key.now, value.now)) }
{
    text.push(' ')?;
    push_text(text, key.bytes())?;
    text.push('=')?;
    push_text(text, value.as_slice())
}

fn push_verdicts(text: &mut String, verdicts: &[(u32, Verdict)]) -> Result<(), AllocError>
    ensures { OnOk result (string_bytes text.new ≡ string_bytes text.old ++ verdicts_text verdicts.now) }
{
    text.push_str("verdict")?;
    for (place, verdict) in verdicts {
        let verdict = verdict_name(*verdict);
        write!(text, " {place}={verdict}")?;
    }
    Ok(())
}

fn verdict_name(verdict: Verdict) -> &'static str
    ensures { result.now ≡ verdict_name verdict }
{
    match verdict {
        Verdict::Yes => "yes",
        Verdict::Conflict => "conflict",
        Verdict::Old => "old",
    }
}

fn push_decided(text: &mut String, outcomes: &[Outcome]) -> Result<(), AllocError>
    ensures { OnOk result (string_bytes text.new ≡ string_bytes text.old ++ outcomes_text outcomes.now) }
{
    text.push_str("decided")?;
    for (place, outcome) in outcomes.iter().enumerate() {
        let outcome = outcome_name(*outcome);
        write!(text, " {place}={outcome}")?;
    }
    Ok(())
}

fn outcome_name(outcome: Outcome) -> &'static str
    ensures { result.now ≡ outcome_name outcome }
{
    match outcome {
        Outcome::Commit { .. } => "commit",
        Outcome::Conflict => "conflict",
        Outcome::Old => "old",
    }
}

// A report answers the committed version, a pull and a pop the shard's, and a forget its floor.
fn push_version(text: &mut String, kind: Kind, version: u64) -> Result<(), AllocError>
    ensures { OnOk result (string_bytes text.new ≡ string_bytes text.old ++ version_text kind version) }
{
    match kind {
        Kind::Pull => write!(text, "through {version}"),
        Kind::Forget => write!(text, "floor {version}"),
        Kind::Pop => write!(text, "popped {version}"),
        _ => write!(text, "committed {version}"),
    }
}

fn push_answers(text: &mut String, answers: &[(u32, Outcome)]) -> Result<(), AllocError>
    ensures { OnOk result (string_bytes text.new ≡ string_bytes text.old ++ clients_text answers.now) }
{
    text.push_str("answer")?;
    for (session, outcome) in answers {
        write!(text, " {session}=")?;
        push_outcome(text, *outcome)?;
    }
    Ok(())
}

// What a client is told: where its transaction stands, or the refusal's number.
fn push_outcome(text: &mut String, outcome: Outcome) -> Result<(), AllocError>
    ensures { OnOk result (string_bytes text.new ≡ string_bytes text.old ++ told_text outcome) }
{
    match outcome {
        Outcome::Commit { version, place } => write!(text, "{version}/{place}"),
        Outcome::Conflict => push_code(text, Refusal::NotCommitted),
        Outcome::Old => push_code(text, Refusal::TransactionTooOld),
    }
}

fn push_code(text: &mut String, refusal: Refusal) -> Result<(), AllocError>
    ensures { OnOk result (string_bytes text.new ≡ string_bytes text.old ++ decimal (code_of refusal)) }
{
    let code = refusal.code();
    write!(text, "{code}")
}
