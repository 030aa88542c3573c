// What is printed of a run: one line of JSON.
ghost use Rattle.std.specs.Prelude.{◌≡◌, IfOk, OnOk, string_bytes};
ghost use Rattle.serde_json.specs.Data.{no_members, object};
ghost use Rattle.serde_json.specs.View.{members_view, view};
ghost use Rattle.serde_json.specs.Written.{compact_text};
ghost use Rattle.fdb_play.specs.random.Reports.{report_members, report_of, report_status};

use crate::random::tally::Tally;
use serde_json::{Map, Value, put};
use std::alloc::{AllocError, Global};

/// The status of a run whose check found no difference.
const CHECKED: u8 = 0;

/// The status of a run whose check found a difference.
const FAILED: u8 = 1;

/// What a run came to.
#[derive(Clone, Copy)]
pub struct Report {
    /// How many transactions were answered that they are not committed.
    pub aborted: u64,
    /// How many transactions were answered with their spot.
    pub acknowledged: u64,
    /// How many transactions the check compared, 0 where it found a difference.
    pub checked: u64,
    /// Whether the check found no difference.
    pub ok: bool,
    /// How many steps were refused.
    pub refused: u32,
    /// How many steps were taken.
    pub steps: u32,
}

impl Report {
    /// The report of so many steps by what they were answered, and by how many transactions the check compared if it
    /// found no difference. It takes O(1) time.
    pub fn new(tally: &Tally, steps: u32, checked: Option<u64>) -> Self
        ensures { result ≡ report_of tally.now steps checked }
    {
        Report {
            aborted: u64::from(tally.conflicting) + u64::from(tally.too_old),
            acknowledged: u64::from(tally.committed) + u64::from(tally.read_only),
            checked: checked.unwrap_or(0),
            ok: checked.is_some(),
            refused: tally.refused,
            steps,
        }
    }

    /// The status of the run: 0 where the check found no difference, else 1. It takes O(1) time.
    pub fn status(self) -> u8
        ensures { result ≡ report_status self.ok }
    {
        if self.ok { CHECKED } else { FAILED }
    }

    // Puts what the report says into an object that has no member yet.
    fn fill(self, alloc: Global, members: &mut Map<String, Value>) -> Result<(), AllocError>
        requires { members_view members.old.entries ≡ no_members }
        ensures { OnOk result (members_view members.new.entries ≡ report_members self) }
    {
        put(members, alloc, "aborted", Value::from(self.aborted))?;
        put(
            members,
            alloc,
            "acknowledged",
            Value::from(self.acknowledged),
        )?;
        put(members, alloc, "checked", Value::from(self.checked))?;
        put(
            members,
            alloc,
            "mode",
            Value::try_from_str(alloc, "random")?,
        )?;
        put(members, alloc, "ok", Value::from(self.ok))?;
        put(members, alloc, "refused", Value::from(self.refused))?;
        put(members, alloc, "steps", Value::from(self.steps))
    }

    // The report as an object of JSON.
    fn value(self, alloc: Global) -> Result<Value, AllocError>
        ensures { IfOk result (λ value. view value ≡ object (report_members self)) }
    {
        let mut members = Map::new(alloc);
        self.fill(alloc, &mut members)?;
        Ok(Value::Object(members))
    }

    /// The text of the report: an object of JSON in its compact form, with the keys in the order of their bytes. It
    /// takes O(1) time. It fails only where memory runs out.
    pub fn text(self, alloc: Global) -> Result<String, AllocError>
        ensures { IfOk result (λ text. string_bytes text ≡ compact_text (object (report_members self))) }
    {
        let value = self.value(alloc)?;
        value.to_string(alloc)
    }
}
