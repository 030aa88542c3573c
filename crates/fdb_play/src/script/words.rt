ghost use Rattle.std.specs.Prelude.{◌≡◌, ◌≢◌, ◌<◌, ◌≤◌, ◌^◌, ℕ, [], ◌∷◌, length, slice_index, MatchOption};
ghost use Rattle.fdb_play.specs.script.Words.{words_of};

use crate::script::fault::Fault;
use crate::script::numbers::{number, small_number};
use crate::script::texts::read_text;
use std::alloc::Global;
use std::marker::Model;

/// The words of a line that are not read yet. Words are parted by one or more spaces. Nothing is known
/// of what is left after a refusal.
#[derive(Drop)]
pub struct Words<'a> {
    rest: &'a [u8],
}

impl<'a> Model for Words<'a> {
    ghost use Rattle.std.specs.Prelude.{ℕ, List};
    ghost use Rattle.fdb_play.specs.script.Words.{words_of};

    ghost Value = { List (List ℕ) };

    ghost view = { λ words. words_of words.rest.now };
}

impl<'a> Words<'a> {
    ghost use Rattle.std.specs.Prelude.{◌≡◌, ◌≢◌, Bool, List, ℕ, [], ◌∷◌, IfOk, IfErr, MatchResult};
    ghost use Rattle.fdb_play.specs.script.Faults.{MatchFault};
    ghost use Rattle.fdb_play.specs.script.Words.{words_of};
    ghost use Rattle.fdb_play.specs.script.Grammar.{WritesNumber, WritesSmall, WritesText, WritesOne, WritesTwo};
    ghost use Rattle.fdb_play.specs.script.Grammar.{WritesOrder};

    /// All words of the line.
    pub fn new(line: &'a [u8]) -> Words<'a>
        ensures { result ≡ words_of line.entry.now }
    {
        Words { rest: line }
    }

    /// The next word. Refused as bad where there is none.
    pub fn word(&mut self) -> Result<&'a [u8], Fault>
        ensures { MatchResult result (λ word. self.old ≡ word.now ∷ self.new)
            (λ fault. (fault ≡ Fault.Bad) × (self.old ≡ [])) }
    {
        match first_word(self.rest) {
            Some((word, rest)) => {
                self.rest = rest;
                Ok(word)
            }
            None => Err(Fault::Bad),
        }
    }

    /// Reads this very word. Refused as bad where another word comes, or none.
    pub fn keyword(&mut self, keyword: &[u8]) -> Result<(), Fault>
        ensures ok { IfOk result (λ _. self.old ≡ keyword.now ∷ self.new) }
        ensures bad { IfErr result
            (λ fault. (fault ≡ Fault.Bad) × ((rest : List (List ℕ)) → self.old ≢ keyword.now ∷ rest)) }
    {
        let word = self.word()?;
        if word == keyword {
            Ok(())
        } else {
            Err(Fault::Bad)
        }
    }

    /// The next word as a number below 2^64. Refused as bad where it is none.
    pub fn number(&mut self) -> Result<u64, Fault>
        ensures ok { IfOk result (λ value. (word : List ℕ) × (self.old ≡ word ∷ self.new) × WritesNumber word value) }
        ensures bad { IfErr result
            (λ fault. (fault ≡ Fault.Bad)
            × ((word : List ℕ) (rest : List (List ℕ)) (value : ℕ) → self.old ≡ word ∷ rest
            → ¬ WritesNumber word value)) }
    {
        let word = self.word()?;
        number(word).ok_or(Fault::Bad)
    }

    /// The next word as a number below 2^32. Refused as bad where it is none.
    pub fn small_number(&mut self) -> Result<u32, Fault>
        ensures ok { IfOk result (λ value. (word : List ℕ) × (self.old ≡ word ∷ self.new) × WritesSmall word value) }
        ensures bad { IfErr result
            (λ fault. (fault ≡ Fault.Bad)
            × ((word : List ℕ) (rest : List (List ℕ)) (value : ℕ) → self.old ≡ word ∷ rest
            → ¬ WritesSmall word value)) }
    {
        let word = self.word()?;
        small_number(word).ok_or(Fault::Bad)
    }

    /// The bytes of the next word, which is a byte text. Refused as bad where it is none.
    pub fn text(&mut self, alloc: Global) -> Result<Vec<u8>, Fault>
        ensures ok { IfOk result
            (λ bytes. (word : List ℕ) × (self.old ≡ word ∷ self.new) × WritesText word bytes.items) }
        ensures bad { IfErr result
            (λ fault. MatchFault fault
            ((word : List ℕ) (rest : List (List ℕ)) (bytes : List ℕ) → self.old ≡ word ∷ rest → ¬ WritesText word bytes)
            (λ _. ⊥)) }
    {
        let word = self.word()?;
        let text = read_text(alloc, word)?;
        text.ok_or(Fault::Bad)
    }

    /// The last word as a number below 2^32. Refused as bad where it is none, and where words are left.
    pub fn last_number(&mut self) -> Result<u32, Fault>
        ensures ok { IfOk result (λ value. WritesOne self.old value) }
        ensures bad { IfErr result (λ fault. (fault ≡ Fault.Bad) × ((value : ℕ) → ¬ WritesOne self.old value)) }
    {
        let number = self.small_number()?;
        self.end()?;
        Ok(number)
    }

    /// The last two words as numbers below 2^32. Refused as bad where one is none, and where words are
    /// left.
    pub fn last_pair(&mut self) -> Result<(u32, u32), Fault>
        ensures ok { IfOk result (λ pair. WritesTwo self.old pair.0 pair.1) }
        ensures bad { IfErr result
            (λ fault. (fault ≡ Fault.Bad) × ((first : ℕ) (second : ℕ) → ¬ WritesTwo self.old first second)) }
    {
        let first = self.small_number()?;
        let second = self.last_number()?;
        Ok((first, second))
    }

    /// The bytes of the last word, which is a byte text. Refused as bad where it is none, and where words
    /// are left.
    pub fn last_text(&mut self, alloc: Global) -> Result<Vec<u8>, Fault>
        ensures ok { IfOk result (λ bytes. (word : List ℕ) × (self.old ≡ word ∷ []) × WritesText word bytes.items) }
        ensures bad { IfErr result
            (λ fault. MatchFault fault
            ((word : List ℕ) (bytes : List ℕ) → self.old ≡ word ∷ [] → ¬ WritesText word bytes) (λ _. ⊥)) }
    {
        let text = self.text(alloc)?;
        self.end()?;
        Ok(text)
    }

    /// Whether the last word is `reverse`, where no word is left otherwise. Refused as bad where another word comes,
    /// and where words are left after it.
    pub fn last_order(&mut self) -> Result<bool, Fault>
        ensures ok { IfOk result (λ is_reverse. WritesOrder self.old is_reverse) }
        ensures bad { IfErr result
            (λ fault. (fault ≡ Fault.Bad) × ((is_reverse : Bool) → ¬ WritesOrder self.old is_reverse)) }
    {
        if first_word(self.rest).is_none() {
            return Ok(false);
        }
        self.keyword(b"reverse")?;
        self.end()?;
        Ok(true)
    }

    /// Refused as bad where there is a word left.
    pub fn end(&mut self) -> Result<(), Fault>
        ensures { MatchResult result (λ _. self.old ≡ []) (λ fault. (fault ≡ Fault.Bad) × (self.old ≢ [])) }
    {
        match first_word(self.rest) {
            Some(_) => Err(Fault::Bad),
            None => Ok(()),
        }
    }
}

// The first word of the text, with what comes after it.
fn first_word(text: &[u8]) -> Option<(&[u8], &[u8])>
    ensures { MatchOption result (words_of text.now ≡ [])
        (λ found. words_of text.now ≡ found.0.now ∷ words_of found.1.now) }
{
    let begin = word_begin(text);
    let (_spaces, word_and_rest) = text.split_at(begin);
    if word_and_rest.is_empty() {
        return None;
    }
    let end = word_end(word_and_rest);
    Some(word_and_rest.split_at(end))
}

fn word_begin(text: &[u8]) -> usize
    ensures within { result ≤ length text.now }
    ensures before { (k : ℕ) → k < result → slice_index text.now k ≡ 32 }
    ensures at { result < length text.now → slice_index text.now result ≢ 32 }
{
    match text.iter().position(|byte| *byte != b' ') {
        Some(begin) => begin,
        None => text.len(),
    }
}

fn word_end(text: &[u8]) -> usize
    ensures within { result ≤ length text.now }
    ensures before { (k : ℕ) → k < result → slice_index text.now k ≢ 32 }
    ensures at { result < length text.now → slice_index text.now result ≡ 32 }
{
    match text.iter().position(|byte| *byte == b' ') {
        Some(end) => end,
        None => text.len(),
    }
}
