// A value out of words.
ghost use Rattle.std.specs.Prelude.{◌≡◌, ◌≤◌, ◌<◌, ◌^◌, IfOk, IfSome};
ghost use Rattle.std.specs.Int.{w64};
ghost use Rattle.nbfx_values.specs.Scalars.{is_valid_scalar};
ghost use Rattle.line_notation.specs.declared.scalars.ScalarKind.TheVariants as kinds;
ghost use Rattle.line_notation.specs.Parts.{integer_up_to, judged_at, kept, natural_up_to};
ghost use Rattle.line_notation.specs.Numerals.{hexadecimal_in};
ghost use Rattle.line_notation.specs.Scalars.{identifier_in, letter_in, one_word, scalar_at, sign_in, truth_in};
ghost use Rattle.line_notation.specs.Steps.{Gives};

use crate::digits;
use crate::judged::Judged;
use crate::numbers::{integer_up_to, natural_up_to};
use crate::reader::LineKind;
use crate::scalars::ScalarKind;
use crate::texts::{between_quotes, text};
use crate::words::{Stop, Words};
use nbfx_values::{Blob, Dec, Scalar};
use std::alloc::Global;

// A value, unless records can't hold it.
fn judged(scalar: Scalar) -> Judged<Scalar>
    ensures { result ≡ kept LineKind.OutOfRange is_valid_scalar scalar }
{
    if scalar.check() {
        Ok(scalar)
    } else {
        Err(LineKind::OutOfRange)
    }
}

/// The number that the next word writes; it is out of range above `most`. It fails where the word
/// is no number.
pub fn natural(most: u128, words: &mut Words) -> Result<Judged<u128>, Stop>
    requires { most < 2 ^ 127 }
    ensures { Gives (λ n. n) result words.new (one_word (natural_up_to most) words.old) }
{
    let word = words.next()?;
    natural_up_to(most, word).ok_or(Stop::NotALine)
}

// The next word as a number from -2^63 on.
fn integer(most: u128, words: &mut Words) -> Result<Judged<i128>, Stop>
    requires { most < 2 ^ 127 }
    ensures { Gives (λ n. n) result words.new (one_word (integer_up_to most) words.old) }
{
    let word = words.next()?;
    integer_up_to(most, word).ok_or(Stop::NotALine)
}

fn number(words: &mut Words) -> Result<Judged<Scalar>, Stop>
    ensures { Gives (λ s. s) result words.new (judged_at (scalar_at kinds.Number words.old)) }
{
    Ok(match integer(u64::MAX as u128, words)? {
        Ok(n) => Ok(Scalar::Number(n)),
        Err(kind) => Err(kind),
    })
}

fn time_span(words: &mut Words) -> Result<Judged<Scalar>, Stop>
    ensures { Gives (λ s. s) result words.new (judged_at (scalar_at kinds.TimeSpan words.old)) }
{
    Ok(match integer(i64::MAX as u128, words)? {
        Ok(n) => Ok(Scalar::TimeSpan(n as i64)),
        Err(kind) => Err(kind),
    })
}

// Whether a sign is a minus.
fn sign_of(word: &[u8]) -> Option<bool>
    ensures { result ≡ sign_in word.now }
{
    if word == b"-".as_slice() {
        Some(true)
    } else if word == b"+".as_slice() {
        Some(false)
    } else {
        None
    }
}

fn sign(words: &mut Words) -> Result<bool, Stop>
    ensures { Gives (λ negative. negative) result words.new (one_word sign_in words.old) }
{
    let word = words.next()?;
    sign_of(word).ok_or(Stop::NotALine)
}

fn decimal(words: &mut Words) -> Result<Judged<Scalar>, Stop>
    ensures { Gives (λ s. s) result words.new (judged_at (scalar_at kinds.Decimal words.old)) }
{
    let scale = natural(28, words)?;
    let negative = sign(words)?;
    let magnitude = natural((1 << 96) - 1, words)?;
    match (scale, magnitude) {
        (Ok(scale), Ok(magnitude)) => Ok(Ok(Scalar::Decimal(Dec {
            scale: scale as u8,
            negative,
            magnitude,
        }))),
        _ => Ok(Err(LineKind::OutOfRange)),
    }
}

// The number of a letter, of which 0 is a.
fn letter_of(word: &[u8]) -> Option<u8>
    ensures letter { result ≡ letter_in word.now }
    ensures small { IfSome result (λ letter. letter ≤ 25) }
{
    match word {
        [letter @ b'a'..=b'z'] => Some(*letter - b'a'),
        _ => None,
    }
}

fn letter(words: &mut Words) -> Result<u8, Stop>
    ensures gives { Gives (λ letter. letter) result words.new (one_word letter_in words.old) }
    ensures small { IfOk result (λ letter. letter ≤ 25) }
{
    let word = words.next()?;
    letter_of(word).ok_or(Stop::NotALine)
}

fn name(alloc: Global, words: &mut Words) -> Result<Judged<Scalar>, Stop>
    ensures { Gives (λ s. s) result words.new (judged_at (scalar_at kinds.QName words.old)) }
{
    let letter = letter(words)?;
    match text(alloc, words)? {
        Ok(name) => Ok(Ok(Scalar::QName(letter, name))),
        Err(kind) => Ok(Err(kind)),
    }
}

fn truth_of(word: &[u8]) -> Option<bool>
    ensures { result ≡ truth_in word.now }
{
    if word == b"true".as_slice() {
        Some(true)
    } else if word == b"false".as_slice() {
        Some(false)
    } else {
        None
    }
}

fn truth(words: &mut Words) -> Result<Judged<Scalar>, Stop>
    ensures { Gives (λ s. s) result words.new (judged_at (scalar_at kinds.Truth words.old)) }
{
    let word = words.next()?;
    let truth = truth_of(word).ok_or(Stop::NotALine)?;
    Ok(judged(Scalar::Truth(truth)))
}

fn float(words: &mut Words) -> Result<Judged<Scalar>, Stop>
    ensures { Gives (λ s. s) result words.new (judged_at (scalar_at kinds.Float words.old)) }
{
    let word = words.next()?;
    let bytes = digits::bytes_sized::<4>(word).ok_or(Stop::NotALine)?;
    Ok(judged(Scalar::Float(u32::from_be_bytes(bytes))))
}

// The next word as a bit pattern of 64 bits.
fn pattern(words: &mut Words) -> Result<u64, Stop>
    ensures { Gives (λ n. n) result words.new (one_word (hexadecimal_in w64) words.old) }
{
    let word = words.next()?;
    let bytes = digits::bytes_sized::<8>(word).ok_or(Stop::NotALine)?;
    Ok(u64::from_be_bytes(bytes))
}

fn double(words: &mut Words) -> Result<Judged<Scalar>, Stop>
    ensures { Gives (λ s. s) result words.new (judged_at (scalar_at kinds.Double words.old)) }
{
    let bits = pattern(words)?;
    Ok(judged(Scalar::Double(bits)))
}

fn date_time(words: &mut Words) -> Result<Judged<Scalar>, Stop>
    ensures { Gives (λ s. s) result words.new (judged_at (scalar_at kinds.DateTime words.old)) }
{
    let pattern = pattern(words)?;
    Ok(judged(Scalar::DateTime(pattern)))
}

fn text_value(alloc: Global, words: &mut Words) -> Result<Judged<Scalar>, Stop>
    ensures { Gives (λ s. s) result words.new (judged_at (scalar_at kinds.Text words.old)) }
{
    match text(alloc, words)? {
        Ok(text) => Ok(Ok(Scalar::Text(text))),
        Err(kind) => Ok(Err(kind)),
    }
}

fn bytes(alloc: Global, words: &mut Words) -> Result<Judged<Scalar>, Stop>
    ensures { Gives (λ s. s) result words.new (judged_at (scalar_at kinds.Bytes words.old)) }
{
    let word = words.next()?;
    let inner = between_quotes(word).ok_or(Stop::NotALine)?;
    let bytes = digits::bytes(alloc, inner)?;
    Ok(judged(Scalar::Bytes(Blob::from(bytes))))
}

// The bytes of the identifier that the next word is.
fn identifier(words: &mut Words) -> Result<[u8; 16], Stop>
    ensures { Gives (λ id. id) result words.new (one_word identifier_in words.old) }
{
    let word = words.next()?;
    digits::identifier(word).ok_or(Stop::NotALine)
}

fn unique_id(words: &mut Words) -> Result<Judged<Scalar>, Stop>
    ensures { Gives (λ s. s) result words.new (judged_at (scalar_at kinds.UniqueId words.old)) }
{
    let id = identifier(words)?;
    Ok(judged(Scalar::UniqueId(id)))
}

fn uuid(words: &mut Words) -> Result<Judged<Scalar>, Stop>
    ensures { Gives (λ s. s) result words.new (judged_at (scalar_at kinds.Uuid words.old)) }
{
    let id = identifier(words)?;
    Ok(judged(Scalar::Uuid(id)))
}

/// The value of this kind that the next words write. It fails where they write none, or without
/// memory.
pub fn scalar(alloc: Global, kind: ScalarKind, words: &mut Words) -> Result<Judged<Scalar>, Stop>
    ensures { Gives (λ s. s) result words.new (judged_at (scalar_at kind words.old)) }
{
    match kind {
        ScalarKind::Number => number(words),
        ScalarKind::Truth => truth(words),
        ScalarKind::Float => float(words),
        ScalarKind::Double => double(words),
        ScalarKind::Decimal => decimal(words),
        ScalarKind::DateTime => date_time(words),
        ScalarKind::TimeSpan => time_span(words),
        ScalarKind::Text => text_value(alloc, words),
        ScalarKind::Bytes => bytes(alloc, words),
        ScalarKind::UniqueId => unique_id(words),
        ScalarKind::Uuid => uuid(words),
        ScalarKind::QName => name(alloc, words),
    }
}
