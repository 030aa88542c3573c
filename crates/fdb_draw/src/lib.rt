//! A run as a picture: a script's lines and what they answered, as arrows between those who take part in it.
#![tactic(auto)]

mod lanes;
mod pages;
mod steps;
mod stories;

use crate::lanes::lanes_of;
use crate::pages::Page;
use crate::steps::steps_of;
use crate::stories::Story;
use std::alloc::{AllocError, Global};

/// The picture of a script as SVG. Time runs downward with a row for each answer, and who takes part stands from left
/// to right. The nth line of the answers belongs to the nth line of the script that is neither empty nor a comment;
/// what is none of the steps is written as plain text. It fails only where memory runs out. For each step it looks
/// through the lanes; else its time grows with what it writes.
pub fn draw(alloc: Global, script: &str, answers: &str) -> Result<String, AllocError> {
    let steps = steps_of(alloc, script, answers)?;
    let mut page = Page::new(alloc, lanes_of(alloc, &steps)?, steps.len())?;
    let mut story = Story::new(alloc, &steps);
    for (row, step) in steps.iter().enumerate() {
        page.row(row, *step, &story)?;
        story.note(*step)?;
    }
    page.out.push_str("</svg>\n")?;
    Ok(page.out)
}
