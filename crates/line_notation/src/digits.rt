// Bytes out of hexadecimal digits.
ghost use Rattle.std.specs.Prelude.{◌≡◌, ◌<◌, ◌^◌};
ghost use Rattle.line_notation.specs.Numerals as spec;
ghost use Rattle.line_notation.specs.Numerals.{bytes_in, bytes_sized};
ghost use Rattle.line_notation.specs.Parts.{has_no_capitals, is_no_capital};
ghost use Rattle.line_notation.specs.Scalars.{identifier_in};
ghost use Rattle.line_notation.specs.Steps.{Finds};

use crate::texts::digit_value;
use crate::words::Stop;
use hex::FromHexError;
use std::alloc::Global;
use uuid::Uuid;

// How many bytes an identifier's word has.
const HYPHENATED: usize = 36;

// Whether all are digits, of which letters are lower-case.
fn are_digits(word: &[u8]) -> bool
    ensures { result ≡ spec.are_digits word.now }
{
    word.iter().all(|byte| digit_value(*byte).is_some())
}

/// The bytes that the hexadecimal digits of a word write. It fails where the word isn't pairs of
/// such digits, or without memory.
pub fn bytes(alloc: Global, word: &[u8]) -> Result<Vec<u8>, Stop>
    ensures { Finds (λ bytes. bytes.items) result (bytes_in word.now) }
{
    if !are_digits(word) {
        return Err(Stop::NotALine);
    }
    match hex::decode(alloc, word) {
        Ok(bytes) => Ok(bytes),
        Err(FromHexError::OutOfMemory) => Err(Stop::Memory),
        Err(_) => Err(Stop::NotALine),
    }
}

/// The same, if they are exactly so many bytes.
pub fn bytes_sized<const N: usize>(word: &[u8]) -> Option<[u8; N]>
    ensures { result ≡ bytes_sized N word.now }
{
    if !are_digits(word) {
        return None;
    }
    let mut bytes = [0; N];
    match hex::decode_to_slice(word, &mut bytes) {
        Ok(()) => Some(bytes),
        Err(_) => None,
    }
}

fn is_no_capital(byte: u8) -> bool
    ensures { result ≡ is_no_capital byte }
{
    !(b'A' <= byte && byte <= b'Z')
}

// Whether no byte is a capital letter. No byte ends the loop, so that it goes over many at a time.
fn has_no_capitals(word: &[u8]) -> bool
    ensures { result ≡ has_no_capitals word.now }
{
    let mut none = true;
    for byte in word {
        none &= is_no_capital(*byte);
    }
    none
}

/// The 16 bytes of an identifier in hyphenated lower case, in the order of the wire; None if the
/// word isn't one.
pub fn identifier(word: &[u8]) -> Option<[u8; 16]>
    ensures { result ≡ identifier_in word.now }
{
    if word.len() != HYPHENATED {
        return None;
    }
    if !has_no_capitals(word) {
        return None;
    }
    match Uuid::try_parse_ascii(word) {
        Ok(fields) => Some(fields.to_bytes_le()),
        Err(_) => None,
    }
}
