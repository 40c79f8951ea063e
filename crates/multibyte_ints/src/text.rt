//! One string after the other, from pieces of bytes.

ghost use Rattle.std.specs.Prelude.{◌≡◌, ℕ, ◌+◌, ◌≤◌, List, [], ◌++◌, length, take, IfOk, vec_len, vec_capacity, if◌then◌else◌, true};
ghost use Rattle.std.specs.Str.{is_utf8};
ghost use Rattle.multibyte_ints.specs.Text.{string_at};
ghost use Rattle.multibyte_ints.specs.TextPart.{left_of, step_of, is_settled, InLengthAllUsed, InTextAllUsed, IsBehindLength};

use crate::{IntReader, IntStep, Memory};
use std::alloc::Global;
use std::str;

/// What a piece did to the string that is being read.
#[derive(Clone, Copy, Debug, PartialEq, Eq)]
pub enum StringStep {
    /// The whole piece was used, and further bytes follow.
    More,
    /// The string is complete.
    Done,
    /// The length is no integer: its fifth byte is above 7.
    BadInt,
    /// The length is above the limit.
    TooLong,
    /// The text is complete, and isn't UTF-8.
    BadUtf8,
}

/// What of a string the next byte belongs to.
#[derive(Clone, Copy, Debug)]
enum Part {
    Length,
    /// Text of which so many bytes are still to come.
    Text(usize),
    /// Nothing: the string is complete or wrong.
    Answered(StringStep),
}

/// Reads strings, one after the other and in whatever pieces they come, of at most so many bytes of
/// text: the String of MC-NBFX, which MC-NMF has in its Via and Fault Records.
#[derive(Debug, Drop)]
pub struct StringReader {
    limit: usize,
    part: Part,
    length: IntReader,
    /// The text so far. Its room is made at the start.
    bytes: Vec<u8>,
    ghost room: { limit ≤ vec_capacity bytes },
    ghost fits: { vec_len bytes + left_of part ≤ limit },
    ghost settled: { is_settled part ≡ true },
}

impl StringReader {
    ghost use Rattle.multibyte_ints.specs.TextReader.{StringStandsFor, StringAnswersAt, Reached, EndsAtInt, limit_of, held_of, text_of};

    /// A reader before the first byte, with room for a text of `limit` bytes. It fails without
    /// memory for that; no other call takes memory.
    #[tactic(auto, unfolding(crate::specs::TextReader::limit_of))]
    pub fn new(alloc: Global, limit: usize) -> Result<StringReader, Memory>
        ensures stands { IfOk result (λ reader. StringStandsFor reader []) }
        ensures limit { IfOk result (λ reader. limit_of reader ≡ limit) }
    {
        Ok(StringReader {
            limit,
            part: Part::Length,
            length: IntReader::new(),
            bytes: Vec::with_capacity(alloc, limit)?,
        })
    }

    /// Takes the bytes of the piece that belong to the string, and says how many they are. After
    /// any answer but `More` it takes none and repeats the answer, until `restart`.
    #[tactic(auto, unfolding(crate::specs::TextReader::limit_of))]
    pub fn feed(&mut self, piece: &[u8]) -> (usize, StringStep)
        ensures within { result.0 ≤ length piece.now }
        ensures all { result.1 ≡ StringStep.More → result.0 ≡ length piece.now }
        ensures answers { (p : List ℕ) → StringStandsFor self.old p
            → StringAnswersAt (limit_of self.old) p piece.now result.0 result.1 }
        ensures stands { (p : List ℕ) → StringStandsFor self.old p
            → StringStandsFor self.new (p ++ take result.0 piece.now) }
        ensures limit { limit_of self.new ≡ limit_of self.old }
    {
        let length = self.feed_length(piece);
        let text = self.feed_text(&piece[length..]);
        (length + text, self.step())
    }

    /// Begins a new string, under the same limit.
    #[tactic(auto, unfolding(crate::specs::TextReader::limit_of))]
    pub fn restart(&mut self)
        ensures stands { StringStandsFor self.new [] }
        ensures limit { limit_of self.new ≡ limit_of self.old }
    {
        self.part = Part::Length;
        self.length = IntReader::new();
    }

    /// The text after `Done`, and otherwise the empty one.
    #[tactic(auto, unfolding(crate::specs::TextReader::limit_of))]
    pub fn text(&self) -> &str
        ensures { (p : List ℕ) → StringStandsFor self.now p
            → result.now ≡ text_of (string_at (limit_of self.now) p) }
    {
        match self.step() {
            StringStep::Done => str::from_utf8(&self.bytes).unwrap_or(""),
            _ => "",
        }
    }

    /// How many bytes of text it holds.
    #[tactic(auto, unfolding(crate::specs::TextReader::limit_of, crate::specs::TextReader::held_of))]
    pub fn held(&self) -> usize
        ensures held { result ≡ held_of self.now }
        ensures within { result ≤ limit_of self.now }
    {
        self.bytes.len()
    }

    fn step(&self) -> StringStep
        ensures { result ≡ step_of self.now.part }
    {
        match self.part {
            Part::Answered(step) => step,
            _ => StringStep::More,
        }
    }

    // Takes the bytes that belong to the length, which is incomplete.
    fn feed_length(&mut self, piece: &[u8]) -> usize
        ensures within { result ≤ length piece.now }
        ensures reached { (p : List ℕ) → Reached self.old p self.old.part
            → Reached self.new (p ++ take result piece.now) self.new.part }
        ensures all { InLengthAllUsed self.new.part result (length piece.now) }
        ensures limit { self.new.limit ≡ self.old.limit }
    {
        let Part::Length = self.part else {
            return 0;
        };
        for (i, b) in piece.iter().enumerate() {
            match self.length.feed(*b) {
                IntStep::More => {}
                IntStep::Bad => {
                    self.part = Part::Answered(StringStep::BadInt);
                    return i + 1;
                }
                IntStep::Done(length) => {
                    self.begin_text(length as usize);
                    return i + 1;
                }
            }
        }
        piece.len()
    }

    // Goes on to a text of so many bytes.
    fn begin_text(&mut self, length: usize)
        ensures behind { IsBehindLength self.new.part }
        ensures reached { (p : List ℕ) → EndsAtInt p length → Reached self.new p self.new.part }
        ensures limit { self.new.limit ≡ self.old.limit }
    {
        if length > self.limit {
            self.part = Part::Answered(StringStep::TooLong);
        } else {
            self.bytes.clear();
            self.part = Part::Text(length);
        }
    }

    // Takes the bytes that belong to the text, whose length is complete.
    fn feed_text(&mut self, piece: &[u8]) -> usize
        ensures within { result ≤ length piece.now }
        ensures reached { (p : List ℕ) → Reached self.old p self.old.part
            → Reached self.new (p ++ take result piece.now) self.new.part }
        ensures all { InTextAllUsed self.new.part result (length piece.now) }
        ensures length { self.new.part ≡ Part.Length → self.old.part ≡ Part.Length }
        ensures limit { self.new.limit ≡ self.old.limit }
    {
        let Part::Text(left) = self.part else {
            return 0;
        };
        let used = left.min(piece.len());
        self.bytes.extend_from_slice(&piece[..used]).unwrap();
        self.part = if used < left {
            Part::Text(left - used)
        } else {
            Part::Answered(judge(&self.bytes))
        };
        used
    }
}

fn judge(text: &[u8]) -> StringStep
    ensures { result ≡ (if is_utf8 text.now then StringStep.Done else StringStep.BadUtf8) }
{
    match str::from_utf8(text) {
        Ok(_) => StringStep::Done,
        Err(_) => StringStep::BadUtf8,
    }
}
