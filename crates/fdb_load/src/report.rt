// What a run prints in the end.
ghost use Rattle.std.specs.Prelude.{◌≡◌, ◌≤◌, List, ℕ, IfOk, IfErr, OnOk, string_bytes};
ghost use Rattle.std.specs.Io.KnownBytes.{Appends};
ghost use Rattle.serde_json.specs.Data.{string, no_members, put as with_member};
ghost use Rattle.serde_json.specs.View.{view, members_view};
ghost use Rattle.serde_json.specs.Written.{compact_text};
ghost use Rattle.fdb_load.specs.Reports.{report_data, report_members, ReportPrints};

use crate::workload::Workload;
use fdb_print::{Sink, Stop, print_stop};
use serde_json::{Map, Value, put};
use std::alloc::{AllocError, Global};
use std::io;

/// What came of a run.
#[derive(Clone, Copy)]
pub struct Report {
    /// How many tries had no effect.
    pub aborted: u64,
    /// How many tries were acknowledged.
    pub acknowledged: u64,
    /// How many transcripts are those of the run of one transaction at a time, 0 where one of them isn't.
    pub checked: u64,
    /// How many entries the book has.
    pub entries: u64,
    /// Whether all checks held.
    pub ok: bool,
    /// Of how many tries it isn't known whether they were committed.
    pub unknown: u64,
    /// What the clients did.
    pub workload: Workload,
}

// Puts the name and the value of each number and truth of the report among the members, which it is lent: so no exit
// on the way drops any.
fn put_members(
    alloc: Global,
    members: &mut Map<String, Value>,
    report: &Report,
) -> Result<(), AllocError>
    ensures { members_view members.old.entries ≡ no_members
        → OnOk result (members_view members.new.entries ≡ report_members report.now) }
{
    put(members, alloc, "aborted", Value::from(report.aborted))?;
    put(
        members,
        alloc,
        "acknowledged",
        Value::from(report.acknowledged),
    )?;
    put(members, alloc, "checked", Value::from(report.checked))?;
    put(members, alloc, "entries", Value::from(report.entries))?;
    put_text(alloc, members, "mode", "threads")?;
    put(members, alloc, "ok", Value::from(report.ok))?;
    put(members, alloc, "unknown", Value::from(report.unknown))?;
    put_text(alloc, members, "workload", report.workload.name())
}

fn put_text(
    alloc: Global,
    members: &mut Map<String, Value>,
    key: &str,
    text: &str,
) -> Result<(), AllocError>
    ensures { OnOk result
        (members_view members.new.entries ≡ with_member key.now (string text.now) (members_view members.old.entries)) }
{
    let text = Value::try_from_str(alloc, text)?;
    put(members, alloc, key, text)
}

// The report as a value of JSON.
fn value_of(alloc: Global, report: &Report) -> Result<Value, AllocError>
    ensures { IfOk result (λ value. view value ≡ report_data report.now) }
{
    let mut members = Map::new(alloc);
    put_members(alloc, &mut members, report)?;
    Ok(Value::Object(members))
}

// The same as a line, without its end.
fn line_of(alloc: Global, report: &Report) -> Result<String, AllocError>
    ensures { IfOk result (λ line. string_bytes line ≡ compact_text (report_data report.now)) }
{
    let value = value_of(alloc, report)?;
    value.to_string(alloc)
}

/// Prints the report, and answers the status: 0 where all checks held, and else 1. Where memory runs out, it prints
/// that instead, and answers 2. A write that fails is answered as that error, and no other error is. It takes O(1)
/// time and one write.
pub fn print_report<O: Sink>(alloc: Global, report: &Report, out: &mut O) -> Result<u8, io::Error>
    ensures bound { IfOk result (λ status. status ≤ 2) }
    ensures printed { IfOk result (λ status. (printed : List ℕ) × ReportPrints report.now printed status
        × Appends (O.contents out.old) (O.contents out.new) printed) }
    ensures errors { IfErr result O.errors }
{
    match line_of(alloc, report) {
        Ok(line) => {
            writeln!(out, "{line}")?;
            Ok(u8::from(!report.ok))
        }
        Err(_) => print_stop(Stop::NoMemory, out),
    }
}
