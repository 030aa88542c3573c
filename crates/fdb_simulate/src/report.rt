// What is printed of a simulation: one line of JSON.
ghost use Rattle.std.specs.Prelude.{◌≡◌, ◌≤◌, List, ℕ, IfOk, IfErr, OnOk, string_bytes};
ghost use Rattle.std.specs.Io.KnownBytes.{Appends};
ghost use Rattle.serde_json.specs.Data.{no_members};
ghost use Rattle.serde_json.specs.View.{view, members_view};
ghost use Rattle.serde_json.specs.Written.{compact_text};
ghost use Rattle.fdb_simulate.specs.Reports.{counts, details, faults, report_data, ReportPrints};

use crate::simulation::Simulation;
use crate::tally::Tally;
use fdb_print::{Sink, Stop, print_stop};
use serde_json::{Map, Value, put};
use std::alloc::{AllocError, Global};
use std::io;

/// What came of a simulation.
#[derive(Clone, Copy)]
pub(crate) struct Report {
    pub(crate) asked: Simulation,
    pub(crate) tally: Tally,
}

// Puts how much there was of what into an object that has no member yet.
fn put_counts(
    alloc: Global,
    members: &mut Map<String, Value>,
    tally: &Tally,
) -> Result<(), AllocError>
    requires { members_view members.old.entries ≡ no_members }
    ensures { OnOk result (members_view members.new.entries ≡ counts tally.now no_members) }
{
    put(members, alloc, "aborted", Value::from(tally.turned_down))?;
    put(
        members,
        alloc,
        "acknowledged",
        Value::from(tally.acknowledged),
    )?;
    put(members, alloc, "checked", Value::from(tally.checked))?;
    put(members, alloc, "early", Value::from(tally.early))?;
    put(members, alloc, "entries", Value::from(tally.entries))?;
    put(members, alloc, "found", Value::from(tally.found))
}

// Puts what was asked for, and whether all is right, behind that.
fn put_details(
    alloc: Global,
    members: &mut Map<String, Value>,
    report: &Report,
) -> Result<(), AllocError>
    requires { members_view members.old.entries ≡ counts report.now.tally no_members }
    ensures { OnOk result
        (members_view members.new.entries ≡ counts report.now.tally (details report.now no_members)) }
{
    let mode = Value::try_from_str(alloc, "simulate")?;
    put(members, alloc, "mode", mode)?;
    put(members, alloc, "ok", Value::from(report.tally.is_right()))?;
    put(
        members,
        alloc,
        "recorded",
        Value::from(report.tally.is_recorded),
    )?;
    put(members, alloc, "refused", Value::from(report.tally.refused))?;
    put(members, alloc, "seed", Value::from(report.asked.seed))?;
    put(members, alloc, "steps", Value::from(report.asked.steps))
}

// Puts the rest behind that.
fn put_faults(
    alloc: Global,
    members: &mut Map<String, Value>,
    report: &Report,
) -> Result<(), AllocError>
    requires { members_view members.old.entries ≡ counts report.now.tally (details report.now no_members) }
    ensures { OnOk result (members_view members.new.entries
        ≡ counts report.now.tally (details report.now (faults report.now.tally no_members))) }
{
    put(
        members,
        alloc,
        "unexplained",
        Value::from(report.tally.unexplained),
    )?;
    put(members, alloc, "unknown", Value::from(report.tally.unknown))?;
    put(members, alloc, "waiting", Value::from(report.tally.waiting))
}

// The report as a value of JSON.
fn value_of(alloc: Global, report: &Report) -> Result<Value, AllocError>
    ensures { IfOk result (λ value. view value ≡ report_data report.now) }
{
    let mut members = Map::new(alloc);
    put_counts(alloc, &mut members, &report.tally)?;
    put_details(alloc, &mut members, report)?;
    put_faults(alloc, &mut members, report)?;
    Ok(Value::Object(members))
}

// The same as a line, without its end.
fn line_of(alloc: Global, report: &Report) -> Result<String, AllocError>
    ensures { IfOk result (λ line. string_bytes line ≡ compact_text (report_data report.now)) }
{
    let value = value_of(alloc, report)?;
    value.to_string(alloc)
}

/// Prints the report, and answers the status: 0 where all is right, and else 1. Where memory runs out, it prints that
/// instead, and answers 2. A write that fails is answered as that error, and no other error is. It takes O(1) time and
/// one write.
pub(crate) fn print_report<O: Sink>(
    alloc: Global,
    report: &Report,
    out: &mut O,
) -> Result<u8, io::Error>
    ensures bound { IfOk result (λ status. status ≤ 2) }
    ensures printed { IfOk result (λ status. (printed : List ℕ) × ReportPrints report.now printed status
        × Appends (O.contents out.old) (O.contents out.new) printed) }
    ensures errors { IfErr result O.errors }
{
    match line_of(alloc, report) {
        Ok(line) => {
            writeln!(out, "{line}")?;
            Ok(u8::from(!report.tally.is_right()))
        }
        Err(_) => print_stop(Stop::NoMemory, out),
    }
}
