//! The steps of a script, each with what it answered.

use crate::lanes::Party;
use std::alloc::{AllocError, Global};

/// What a call makes that fails only where memory runs out.
pub type Allocated<T> = Result<T, AllocError>;

/// A line of a script and its answer. What was answered beyond the script's end has an empty line.
#[derive(Clone, Copy)]
pub struct Step<'a> {
    pub line: &'a str,
    pub answer: &'a str,
}

impl<'a> Step<'a> {
    /// The line's first word.
    pub fn verb(self) -> &'a str {
        word(self.line, 0)
    }

    /// The session that a word of the answer tells of, where it is granted a read version or answered.
    pub fn told(self, word: &str) -> Option<Party> {
        let is_told = matches!(self.verb(), "grant" | "answer" | "drive");
        let (session, _) = word.split_once('=').filter(|_| is_told)?;
        session.parse().ok().map(Party::Session)
    }

    /// What words of the step and its answer are like: good where they were acknowledged, bad where they were refused.
    pub fn mood(self, words: &str) -> &'static str {
        match self.verb() {
            _ if matches!(word(self.answer, 0), "refused" | "bad") => "bad",
            "conflict" => "bad",
            "resolve" | "verdict" | "decide" if words.contains("=conflict") => "bad",
            "resolve" | "verdict" | "decide" if words.contains("=old") => "bad",
            "answer" | "drive" if words.ends_with("=1020") || words.ends_with("=1007") => "bad",
            "answer" | "drive" if words.contains('/') => "good",
            "report" | "logged" => "good",
            "submit" if self.answer.starts_with("readonly") => "good",
            _ => "plain",
        }
    }
}

/// The word at the place, counted from 0, empty where there is none.
pub fn word(text: &str, place: usize) -> &str {
    text.split_ascii_whitespace().nth(place).unwrap_or("")
}

/// The same as a number, where it is one.
pub fn number(text: &str, place: usize) -> Option<usize> {
    word(text, place).parse().ok()
}

/// The steps that were answered, and what was answered beyond the script's end.
pub fn steps_of<'a>(alloc: Global, script: &'a str, answers: &'a str) -> Allocated<Vec<Step<'a>>> {
    let mut steps = Vec::new(alloc);
    let mut lines = script
        .lines()
        .filter(|line| !line.is_empty() && !line.starts_with('#'));
    for answer in answers.lines() {
        let line = lines.next().unwrap_or("");
        steps.push(Step { line, answer })?;
    }
    Ok(steps)
}
