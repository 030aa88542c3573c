// What is done with an open transaction, as plain data: in known programs, and in programs that are made from a seed.
use fdb_making::Random;

pub(super) type Text = &'static [u8];

// A mutation with a value or an operand of one byte.
#[derive(Clone, Copy)]
pub(super) enum Change {
    Set(Text, u8),
    Clear(Text),
    // From the first key up to but not including the second one.
    ClearRange(Text, Text),
    Add(Text, u8),
    CompareAndClear(Text, u8),
}

// A read of the keys from the begin up to but not including the end.
#[derive(Clone, Copy)]
pub(super) struct Asked {
    pub(super) begin: Text,
    pub(super) end: Text,
    pub(super) limit: u32,
    pub(super) reverse: bool,
    pub(super) is_snapshot: bool,
}

// What a program does next.
#[derive(Clone, Copy)]
pub(super) enum Step {
    Write(Change),
    Get { key: Text, is_snapshot: bool },
    Range(Asked),
    AddRead(Text, Text),
    AddWrite(Text, Text),
}

// The keys of a program from a seed, and the end of the last one.
const TEXTS: [Text; 11] = [
    b"a", b"b", b"c", b"d", b"e", b"f", b"g", b"h", b"i", b"j", b"k",
];

pub(super) const KEYS: [Text; 10] = [b"a", b"b", b"c", b"d", b"e", b"f", b"g", b"h", b"i", b"j"];

fn text(number: u8) -> Text {
    match TEXTS.get(usize::from(number)) {
        Some(text) => *text,
        None => b"",
    }
}

fn draw_key(random: &mut Random) -> Text {
    text(random.below(10))
}

// A value or an operand: one of three, so that compared values are often the same.
pub(super) fn draw_value(random: &mut Random) -> u8 {
    random.below(3)
}

// It ends behind j at the furthest, and may be empty.
fn draw_span(random: &mut Random) -> (Text, Text) {
    let (one, other) = (random.below(11), random.below(11));
    (text(one.min(other)), text(one.max(other)))
}

fn draw_change(random: &mut Random) -> Change {
    match random.below(5) {
        0 => Change::Set(draw_key(random), draw_value(random)),
        1 => Change::Clear(draw_key(random)),
        2 => {
            let (begin, end) = draw_span(random);
            Change::ClearRange(begin, end)
        }
        3 => Change::Add(draw_key(random), draw_value(random)),
        _ => Change::CompareAndClear(draw_key(random), draw_value(random)),
    }
}

fn draw_asked(random: &mut Random) -> Asked {
    let (begin, end) = draw_span(random);
    Asked {
        begin,
        end,
        limit: u32::from(random.below(4)),
        reverse: random.coin(),
        is_snapshot: random.coin(),
    }
}

// Half of the steps are writes.
pub(super) fn draw_step(random: &mut Random) -> Step {
    match random.below(10) {
        0..=4 => Step::Write(draw_change(random)),
        5 => Step::Get {
            key: draw_key(random),
            is_snapshot: random.coin(),
        },
        6..=7 => Step::Range(draw_asked(random)),
        8 => {
            let (begin, end) = draw_span(random);
            Step::AddRead(begin, end)
        }
        _ => {
            let (begin, end) = draw_span(random);
            Step::AddWrite(begin, end)
        }
    }
}
