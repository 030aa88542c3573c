// Scripts as tables: each line stands beside what it prints, as `grant 0 > grant 0=0`. A line without ` > ` prints
// `ok`, and an empty one and a comment print nothing. What is printed at the end of the input stands after `end > `; a
// table without it is of a script that ends at its last line, with status 2.
pub mod batches;
mod conflicts;
mod drives;
pub mod moves;
pub mod ranges;
pub mod resolvers;
mod sessions;
mod sets;
pub mod shards;
mod stamps;
mod windows;
mod writes;

use crate::tests::playing::check_script;
use std::alloc::{AllocError, Global};
use std::process::Abort;
use std::test::Fail;

/// What a table says of its script.
#[derive(Drop)]
pub struct Played {
    pub script: String,
    pub output: String,
    pub status: u8,
}

impl Played {
    fn new(alloc: Global) -> Self {
        Played {
            script: String::new(alloc),
            output: String::new(alloc),
            status: 2,
        }
    }

    fn push(&mut self, line: &str) -> Result<(), AllocError> {
        match line.split_once(" > ") {
            Some(("end", answer)) => {
                self.status = 0;
                push_line(&mut self.output, answer)
            }
            Some((step, answer)) => {
                push_line(&mut self.script, step)?;
                push_line(&mut self.output, answer)
            }
            None => {
                push_line(&mut self.script, line)?;
                self.push_ok(line)
            }
        }
    }

    // What a line prints beside which no answer stands.
    fn push_ok(&mut self, line: &str) -> Result<(), AllocError> {
        if line.is_empty() || line.starts_with("#") {
            return Ok(());
        }
        push_line(&mut self.output, "ok")
    }
}

fn push_line(text: &mut String, line: &str) -> Result<(), AllocError> {
    text.push_str(line)?;
    text.push_str("\n")
}

/// What the table says.
pub fn read_table(alloc: Global, table: &str) -> Result<Played, AllocError> {
    let mut played = Played::new(alloc);
    for line in table.lines() {
        played.push(line.trim_start())?;
    }
    Ok(played)
}

fn check_table(rt: &impl Abort, alloc: Global, table: &str) -> Result<(), Fail> {
    let played = read_table(alloc, table)?;
    check_script(
        rt,
        alloc,
        played.script.as_bytes(),
        played.status,
        played.output.as_bytes(),
    )
}

#[test]
fn tables_are_played(rt: HostRuntime) -> Result<(), Fail> {
    for tables in [
        batches::TABLES.as_slice(),
        conflicts::TABLES.as_slice(),
        drives::TABLES.as_slice(),
        moves::TABLES.as_slice(),
        ranges::TABLES.as_slice(),
        resolvers::TABLES.as_slice(),
        sessions::TABLES.as_slice(),
        sets::TABLES.as_slice(),
        shards::TABLES.as_slice(),
        stamps::TABLES.as_slice(),
        windows::TABLES.as_slice(),
        writes::TABLES.as_slice(),
    ] {
        for table in tables {
            check_table(&rt, rt.alloc(), table)?;
        }
    }
    Ok(())
}
