// Texts out of words.
ghost use Rattle.std.specs.Prelude.{◌≡◌, ◌≤◌, IfSome, Some, length, true};
ghost use Rattle.std.specs.List.{list_all};
ghost use Rattle.std.specs.Option.{option_copied};
ghost use Rattle.line_notation.specs.Parts.{escape_at, judged_text, judged_text_in, judged_texts_at};
ghost use Rattle.line_notation.specs.Quoted as spec;
ghost use Rattle.line_notation.specs.Quoted.{between_quotes, digit_in, is_plain, pair_in, quoted_in};
ghost use Rattle.line_notation.specs.Scalars.{one_word};
ghost use Rattle.line_notation.specs.Steps.{Finds, Gives};

use crate::judged::{Judged, both};
use crate::puts::plain_count;
use crate::reader::LineKind;
use crate::words::{Stop, Words};
use nbfx_values::Txt;
use std::alloc::Global;
use std::str;

/// The value of a hexadecimal digit, of which a letter is lower-case; None of any other byte.
pub fn digit_value(byte: u8) -> Option<u8>
    ensures value { result ≡ digit_in byte }
    ensures small { IfSome result (λ n. n ≤ 15) }
{
    match byte {
        b'0'..=b'9' => Some(byte - b'0'),
        b'a'..=b'f' => Some(byte - b'a' + 10),
        _ => None,
    }
}

// The byte that two digits write.
fn byte_of(high: u8, low: u8) -> Option<u8>
    ensures { result ≡ pair_in high low }
{
    let high = digit_value(high)?;
    let low = digit_value(low)?;
    Some(high * 16 + low)
}

// The byte that an escape in front of the pieces of a text writes.
fn escaped_byte(pieces: &[u8]) -> Option<u8>
    ensures byte { result ≡ escape_at pieces.now }
    ensures within { IfSome result (λ _. 3 ≤ length pieces.now) }
{
    match pieces {
        [b'\\', high, low, ..] => byte_of(*high, *low),
        _ => None,
    }
}

/// The bytes of a text that these pieces write. It fails where they aren't plain bytes and escapes,
/// or without memory.
pub fn unescaped(alloc: Global, pieces: &[u8]) -> Result<Vec<u8>, Stop>
    ensures { Finds (λ text. text.items) result (spec.unescaped pieces.now) }
{
    let mut text = Vec::new(alloc);
    let mut rest = pieces;
    while !rest.is_empty() {
        let plain = plain_count(rest);
        if plain == 0 {
            let byte = escaped_byte(rest).ok_or(Stop::NotALine)?;
            text.push(byte)?;
            let (_, behind) = rest.split_at(3);
            rest = behind;
        } else {
            let (shown, behind) = rest.split_at(plain);
            text.extend_from_slice(shown)?;
            rest = behind;
        }
    }
    Ok(text)
}

/// What stands between a quote at the word's beginning and one at its end; None if they aren't
/// there.
pub fn between_quotes(word: &[u8]) -> Option<&[u8]>
    ensures { option_copied result ≡ between_quotes word.now }
{
    match word {
        [b'"', inner @ .., b'"'] => Some(inner),
        _ => None,
    }
}

// The text of plain bytes, which stand in the line itself. They are ASCII.
#[inline(always)]
fn shown_text(alloc: Global, bytes: &[u8]) -> Result<Judged<Txt>, Stop>
    requires { list_all is_plain bytes.now ≡ true }
    ensures { Finds (λ text. text) result (Some (judged_text bytes.now)) }
{
    let text = unsafe { str::from_utf8_unchecked(bytes) };
    Ok(Ok(Txt::of(alloc, text)?))
}

/// These bytes as a text; BadText where they aren't UTF-8.
pub fn judged_text(bytes: Vec<u8>) -> Judged<Txt>
    ensures { result ≡ judged_text bytes.items }
{
    match String::from_utf8(bytes) {
        Ok(text) => Ok(Txt::from(text)),
        Err(_) => Err(LineKind::BadText),
    }
}

// The text in quotes that is the next word, which has escapes, or is none.
#[inline(never)]
fn escaped_text(alloc: Global, words: &mut Words) -> Result<Judged<Txt>, Stop>
    ensures { Gives (λ text. text) result words.new (one_word judged_text_in words.old) }
{
    let word = words.next()?;
    let pieces = between_quotes(word).ok_or(Stop::NotALine)?;
    Ok(judged_text(unescaped(alloc, pieces)?))
}

/// The text in quotes that the next word is. It fails where the word is none, or without memory.
#[inline(always)]
pub fn text(alloc: Global, words: &mut Words) -> Result<Judged<Txt>, Stop>
    ensures { Gives (λ text. text) result words.new (one_word judged_text_in words.old) }
{
    match words.next_shown() {
        Some(shown) => shown_text(alloc, shown),
        None => escaped_text(alloc, words),
    }
}

/// The two texts in quotes that the next words are. It fails where they aren't, or without memory.
#[inline(always)]
pub fn two_texts(alloc: Global, words: &mut Words) -> Result<Judged<(Txt, Txt)>, Stop>
    ensures { Gives (λ texts. texts) result words.new (judged_texts_at words.old) }
{
    let first = text(alloc, words)?;
    let second = text(alloc, words)?;
    Ok(both(first, second))
}
