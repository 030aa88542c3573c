//! Where everything stands in a picture, and how it is written.

use crate::lanes::{Party, begin_of};
use crate::steps::{Allocated, Step};
use crate::stories::Story;
use std::alloc::Global;
use std::collections::BTreeSet;
use std::fmt::{self, Write};

/// Where text stands that is at no lane.
const MARGIN: usize = 36;
/// How wide a picture is at least.
const WIDTH: usize = 700;
/// How high a row is.
const ROW: usize = 22;
/// How many rows stand below the names of the lanes before these come again.
const ROWS: usize = 40;
/// How wide a character is, at most.
const LETTER: usize = 7;
/// How far text is from the lane that it stands at.
const GAP: usize = 8;

/// A text as XML has it.
#[derive(Clone, Copy)]
struct Escaped<'a>(&'a str);

impl fmt::Display for Escaped<'_> {
    fn fmt<W: Write>(&self, f: &mut fmt::Formatter<W>) -> fmt::Result {
        for letter in self.0.chars() {
            match letter {
                '<' => f.write_str("&lt;")?,
                '>' => f.write_str("&gt;")?,
                '&' => f.write_str("&amp;")?,
                '\0'..='\u{1f}' | '\u{fffe}' | '\u{ffff}' => f.write_str("?")?,
                _ => f.write_char(letter)?,
            }
        }
        Ok(())
    }
}

/// A picture of lanes, as far as it is written.
#[derive(Drop)]
pub struct Page {
    lanes: BTreeSet<Party>,
    width: usize,
    /// What is written.
    pub out: String,
}

impl Page {
    /// A page with room for so many rows.
    pub fn new(alloc: Global, lanes: BTreeSet<Party>, rows: usize) -> Allocated<Page> {
        let width = lane_at(lanes.len()).saturating_add(2 * MARGIN).max(WIDTH);
        let height = row_at(rows).saturating_add(ROW);
        let mut out = String::new(alloc);
        write!(
            out,
            "<svg xmlns='http://www.w3.org/2000/svg' version='1.1' width='{width}' height='{height}' \
             font-family='DejaVu Sans Mono, monospace' font-size='11' xml:space='preserve'>\n\
             <style>.plain{{fill:#333333}} g.plain{{stroke:#333333}} \
             .good{{fill:#0a7a2a;font-weight:700}} g.good{{stroke:#0a7a2a}} \
             .bad{{fill:#c41515;font-weight:700}} g.bad{{stroke:#c41515}} \
             .lane{{stroke:#bbbbbb}} .open{{stroke:#cddcf3;stroke-width:8}} .gap{{stroke:white;stroke-width:12}} \
             .name{{text-anchor:middle}} .row{{fill:#777777;text-anchor:end}}</style>\n\
             <rect width='{width}' height='{height}' fill='white'/>\n"
        )?;
        Ok(Page { lanes, width, out })
    }

    /// Writes a row: its number, the transactions that are open before it, and the figure of its step. Above the first
    /// row and each fortieth behind it stand the names of the lanes.
    pub fn row<'a>(&mut self, row: usize, step: Step<'a>, story: &Story<'a>) -> Allocated<()> {
        let (top, number) = (row_at(row), row.saturating_add(1));
        let (line, answer) = (Escaped(step.line), Escaped(step.answer));
        write!(self.out, "<g transform='translate(0 {top})'>")?;
        if row % ROWS == 0 {
            self.head(story.config)?;
        }
        write!(self.out, "<g><title>{line} &gt; {answer}</title>")?;
        write!(self.out, "<text class='row' x='34' y='11'>{number}</text>")?;
        for party in &story.open {
            if let Some(x) = self.lane(Some(*party)) {
                write!(self.out, "<path class='open' d='M{x} -1v22'/>")?;
            }
        }
        self.figure(step, story)?;
        writeln!(self.out, "</g></g>")
    }

    // Writes the lanes of some rows from here on, and above them their names and the keys from which on they own keys.
    fn head(&mut self, config: &str) -> Allocated<()> {
        let long = ROWS * ROW + GAP;
        for (place, party) in self.lanes.iter().enumerate() {
            let x = lane_at(place);
            write!(self.out, "<path class='lane' d='M{x} -8v{long}'/>")?;
            write!(self.out, "<text class='name' x='{x}' y='-29'>{party}")?;
            if let Some(begin) = begin_of(*party, config) {
                let begin = Escaped(begin.get(..11).unwrap_or(begin));
                write!(self.out, "<tspan x='{x}' y='-15'>from {begin}</tspan>")?;
            }
            writeln!(self.out, "</text>")?;
        }
        Ok(())
    }

    // Draws the arrows of a step, or a mark where there is none, and the text beside them.
    fn figure<'a>(&mut self, step: Step<'a>, story: &Story<'a>) -> Allocated<()> {
        let label = story.label(step)?;
        let (sender, taker) = story.ends(step);
        let Some(x) = self.lane(sender) else {
            return self.text(MARGIN, step, label.as_str());
        };
        let mood = step.mood(label.as_str());
        let mut start = x;
        let mut is_mark = true;
        for word in step.answer.split_ascii_whitespace() {
            if let Some(to) = self.lane(step.told(word)) {
                self.arrow(x, to, step.mood(word))?;
                self.text(to, step, word)?;
                is_mark = false;
            }
        }
        if let Some(to) = self.lane(taker) {
            self.arrow(x, to, mood)?;
            start = start.min(to);
        } else if is_mark {
            write!(self.out, "<circle class='{mood}' cx='{x}' cy='8' r='4'/>")?;
        }
        self.text(start, step, label.as_str())
    }

    // Writes a text right of x, as far as there is room.
    fn text(&mut self, x: usize, step: Step<'_>, text: &str) -> Allocated<()> {
        let left = x.saturating_add(GAP);
        let room = self.width.saturating_sub(left) / LETTER;
        let shown = text.get(..room.saturating_sub(1)).unwrap_or(text);
        let wide = shown.len().saturating_mul(LETTER);
        write!(self.out, "<path class='gap' d='M{left} 8h{wide}'/>")?;
        write!(self.out, "<text x='{left}' y='11'>")?;
        for word in shown.split_inclusive(' ') {
            let (mood, word) = (step.mood(word.trim_end()), Escaped(word));
            write!(self.out, "<tspan class='{mood}'>{word}</tspan>")?;
        }
        let rest = if shown.len() < text.len() { "…" } else { "" };
        write!(self.out, "{rest}</text>")
    }

    fn arrow(&mut self, from: usize, to: usize, mood: &str) -> Allocated<()> {
        let neck = if from < to { -8 } else { 8 };
        write!(self.out, "<g class='{mood}'>")?;
        write!(self.out, "<circle cx='{from}' cy='17' r='2'/>")?;
        write!(self.out, "<path d='M{from} 17H{to}m0 0l{neck} -3v6z'/></g>")
    }

    // Where the lane of a party is, which may have none.
    fn lane(&self, party: Option<Party>) -> Option<usize> {
        let place = self.lanes.iter().position(|other| Some(*other) == party)?;
        Some(lane_at(place))
    }
}

fn row_at(row: usize) -> usize {
    let heads = (row / ROWS).saturating_add(1).saturating_mul(2 * ROW);
    row.saturating_mul(ROW).saturating_add(heads)
}

fn lane_at(place: usize) -> usize {
    place.saturating_mul(130).saturating_add(110)
}
