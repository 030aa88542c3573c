ghost use Rattle.std.specs.Prelude.{Some};
ghost use Rattle.fdb_print.specs.Refusals.{refusal_text};

use fdb_keys::Refusal;
use std::fmt;

/// A refusal as a script prints it: its number, its name, and for `NotYet` what has not come.
#[derive(Clone, Copy)]
pub struct RefusalLine(pub Refusal);

impl fmt::Display for RefusalLine {
    ghost output = { λ line. Some (refusal_text line.0) };

    fn fmt<W: fmt::Write>(&self, f: &mut fmt::Formatter<W>) -> fmt::Result {
        let code = self.0.code();
        let name = self.0.name();
        write!(f, "refused {code} {name}")?;
        match self.0 {
            Refusal::NotYet(number) => write!(f, " {number}"),
            _ => Ok(()),
        }
    }
}
