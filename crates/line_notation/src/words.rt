// The words of a line, one after the other.
ghost use Rattle.std.specs.Prelude.{◌≡◌, ◌≤◌, ◌<◌, ◌^◌, ◌↔◌, [], ◌∷◌, length, take_while, IfNone, IfSome, IsTrue};
ghost use Rattle.std.specs.Option.{option_copied};
ghost use Rattle.line_notation.specs.Steps.{CutsShown, CutsWord, Gives, TakesShown};
ghost use Rattle.line_notation.specs.Forms.{keyword_in, keyword_word};
ghost use Rattle.line_notation.specs.Scalars.{one_word, scalar_kind_word};
ghost use Rattle.line_notation.specs.Words.{goes_on_within, is_bare, next_in, words_left, words_of};

use crate::line::Keyword;
use crate::puts::plain_count;
use crate::scalars::ScalarKind;
use std::alloc::{AllocError, AllocFailed};
use std::marker::Model;
use unit_streams::Memory;

/// Why the words of a line aren't read on.
#[derive(Clone, Copy, Debug, PartialEq, Eq)]
pub enum Stop {
    /// The line has none of the forms of a line.
    NotALine,
    /// Out of memory.
    Memory,
}

impl From<Memory> for Stop {
    ghost use Rattle.std.specs.Prelude.{◌≡◌};
    ghost use Rattle.line_notation.specs.declared.words.Stop.TheVariants as stops;

    ghost from_gives = { λ _ stop. stop ≡ stops.Memory };

    fn from(_memory: Memory) -> Stop {
        Stop::Memory
    }
}

impl From<AllocError> for Stop {
    ghost use Rattle.std.specs.Prelude.{◌≡◌};
    ghost use Rattle.line_notation.specs.declared.words.Stop.TheVariants as stops;

    ghost from_gives = { λ _ stop. stop ≡ stops.Memory };

    fn from(_error: AllocError) -> Stop {
        Stop::Memory
    }
}

impl<T: Drop> From<AllocFailed<T>> for Stop {
    ghost use Rattle.std.specs.Prelude.{◌≡◌};
    ghost use Rattle.line_notation.specs.declared.words.Stop.TheVariants as stops;

    ghost from_gives = { λ _ stop. stop ≡ stops.Memory };

    fn from(_error: AllocFailed<T>) -> Stop {
        Stop::Memory
    }
}

/// The words that are left of a line. Contracts see the list of them.
#[derive(Drop)]
pub struct Words<'a> {
    rest: Option<&'a [u8]>,
}

impl<'a> Model for Words<'a> {
    ghost use Rattle.std.specs.Prelude.{ℕ, List};
    ghost use Rattle.std.specs.Option.{option_copied};
    ghost use Rattle.line_notation.specs.Words.{words_left};

    ghost Value = { List (List ℕ) };

    ghost view = { λ w. words_left (option_copied w.rest) };

    ghost use Rattle.std.specs.Prelude.{◌≤◌, ◌^◌, length};

    ghost invariant = { λ w. length (words_left (option_copied w.rest)) ≤ 2 ^ 63 };
}

// No slice has as many bytes as would not be counted with one more.
fn are_few(line: &[u8])
    ensures { length line.now < 2 ^ 63 }
{
    let _length = line.len();
}

// Whether the byte after this one is in quotes.
fn is_in_quotes(in_quotes: bool, byte: u8) -> bool
    ensures { result ≡ goes_on_within in_quotes byte }
{
    if byte == b'"' { !in_quotes } else { in_quotes }
}

// Where the first word ends, which may have quotes: at the first space that isn't in quotes.
#[inline(never)]
fn quoted_word_end(line: &[u8]) -> usize
    ensures { CutsWord line.now result }
{
    let mut in_quotes = false;
    for (at, byte) in line.iter().enumerate() {
        if *byte == b' ' && !in_quotes {
            return at;
        }
        in_quotes = is_in_quotes(in_quotes, *byte);
    }
    line.len()
}

// Whether a byte is neither a space nor a quote.
fn is_bare(byte: u8) -> bool
    ensures { result ≡ is_bare byte }
{
    byte != b' ' && byte != b'"'
}

// How many bytes at the front are neither spaces nor quotes.
fn bare_count(line: &[u8]) -> usize
    ensures { result ≡ length (take_while is_bare line.now) }
{
    line.iter().take_while(|byte| is_bare(**byte)).count()
}

// Where the first word ends. Most words but texts have no quotes.
fn first_word_end(line: &[u8]) -> usize
    ensures { CutsWord line.now result }
{
    let end = bare_count(line);
    if end == line.len() {
        return end;
    }
    if line[end] == b'"' {
        quoted_word_end(line)
    } else {
        end
    }
}

// The plain bytes that the first word has between quotes, if it is such, and what is left of the
// line behind its space.
fn shown_first(line: &[u8]) -> Option<(&[u8], Option<&[u8]>)>
    ensures { IfSome result (λ cut. CutsShown line.now cut.0.now (option_copied cut.1)) }
{
    let [b'"', behind @ ..] = line else {
        return None;
    };
    let (shown, closing) = behind.split_at(plain_count(behind));
    match closing {
        [b'"'] => Some((shown, None)),
        [b'"', b' ', left @ ..] => Some((shown, Some(left))),
        _ => None,
    }
}

// A keyword that comes often, if the line begins with it, and what is left of the line behind its
// space.
#[inline(always)]
fn common_keyword(line: &[u8]) -> Option<(Keyword, Option<&[u8]>)>
    ensures { IfSome result (λ cut. words_of line.now ≡ keyword_word cut.0
        ∷ words_left (option_copied cut.1)) }
{
    match line {
        [b's', b't', b'a', b'r', b't', b' ', left @ ..] => Some((Keyword::Start, Some(left))),
        [b'n', b's', b' ', left @ ..] => Some((Keyword::Ns, Some(left))),
        [b'a', b't', b't', b'r', b' ', left @ ..] => Some((Keyword::Attr, Some(left))),
        [b't', b'e', b'x', b't', b' ', left @ ..] => Some((Keyword::Text, Some(left))),
        [b'c', b'l', b'o', b's', b'e'] => Some((Keyword::Close, None)),
        _ => None,
    }
}

// The same of a word that names a kind of value.
#[inline(always)]
fn common_kind(line: &[u8]) -> Option<(ScalarKind, Option<&[u8]>)>
    ensures { IfSome result (λ cut. words_of line.now ≡ scalar_kind_word cut.0
        ∷ words_left (option_copied cut.1)) }
{
    match line {
        [b's', b't', b'r', b'i', b'n', b'g', b' ', left @ ..] => {
            Some((ScalarKind::Text, Some(left)))
        }
        [b'n', b'u', b'm', b'b', b'e', b'r', b' ', left @ ..] => {
            Some((ScalarKind::Number, Some(left)))
        }
        [b'i', b'd', b' ', left @ ..] => Some((ScalarKind::UniqueId, Some(left))),
        _ => None,
    }
}

impl<'a> Words<'a> {
    /// All words of a line.
    pub fn of(line: &'a [u8]) -> Words<'a>
        ensures { result ≡ words_of line.now }
    {
        are_few(line);
        Words { rest: Some(line) }
    }

    /// Whether no word is left.
    pub fn is_empty(&self) -> bool
        ensures none { IsTrue result ↔ (self.now ≡ []) }
        ensures few { length self.now ≤ 2 ^ 63 }
    {
        self.rest.is_none()
    }

    /// What the next word has between its quotes, if it is a text in quotes without escapes. Any
    /// other word is left.
    pub fn next_shown(&mut self) -> Option<&'a [u8]>
        ensures shown { IfSome result (λ shown. TakesShown shown.now self.old self.new) }
        ensures unchanged { IfNone result (self.new ≡ self.old) }
    {
        let (shown, left) = shown_first(self.rest?)?;
        self.rest = left;
        Some(shown)
    }

    /// The kind of value that the next word names, if it is a frequent one. Any other word is left.
    #[inline(always)]
    pub fn next_kind(&mut self) -> Option<ScalarKind>
        ensures kind { IfSome result (λ kind. self.old ≡ scalar_kind_word kind ∷ self.new) }
        ensures unchanged { IfNone result (self.new ≡ self.old) }
        ensures few { length self.old ≤ 2 ^ 63 }
    {
        let (kind, left) = common_kind(self.rest?)?;
        self.rest = left;
        Some(kind)
    }

    /// The keyword that the next word is. It fails where it is none.
    #[inline(always)]
    pub fn next_keyword(&mut self) -> Result<Keyword, Stop>
        ensures { Gives (λ keyword. keyword) result self.new (one_word keyword_in self.old) }
    {
        let Some(line) = self.rest else {
            return Err(Stop::NotALine);
        };
        match common_keyword(line) {
            Some((keyword, left)) => {
                self.rest = left;
                Ok(keyword)
            }
            None => self.any_keyword(),
        }
    }

    #[inline(never)]
    fn any_keyword(&mut self) -> Result<Keyword, Stop>
        ensures { Gives (λ keyword. keyword) result self.new (one_word keyword_in self.old) }
    {
        let word = self.next()?;
        Keyword::of(word).ok_or(Stop::NotALine)
    }

    /// The next word. It fails where there is none.
    pub fn next(&mut self) -> Result<&'a [u8], Stop>
        ensures next { Gives (λ word. word.now) result self.new (next_in self.old) }
        ensures few { length self.old ≤ 2 ^ 63 }
    {
        let Some(line) = self.rest else {
            return Err(Stop::NotALine);
        };
        let end = first_word_end(line);
        let (word, behind) = line.split_at(end);
        self.rest = if behind.is_empty() {
            None
        } else {
            Some(&behind[1..])
        };
        Ok(word)
    }
}
