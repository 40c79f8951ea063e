// Words that go out.
ghost use Rattle.std.specs.Prelude.{◌≡◌, ◌≤◌, ◌<◌, ◌^◌, ◌∷◌, ◌++◌, ◌+◌, ◌*◌, [], false, true, length, take, take_while, All};
ghost use Rattle.std.specs.List.{flat_map, list_all};
ghost use Rattle.hex.specs.Hex.{encode_lower};
ghost use Rattle.io_edges.specs.Puts.{Puts};
ghost use Rattle.line_notation.specs.Lines.{with_line_feed};
ghost use Rattle.line_notation.specs.Puts.{joined_words, IsPuttable, spaced_word, spaced_words, word_bytes};
ghost use Rattle.line_notation.specs.Quoted.{is_plain, quoted, quoted_byte};
ghost use Rattle.line_notation.specs.Scalars.{digits_in_quotes, identifier_word, letter_word};

use crate::decimals::{put_integer, put_natural};
use crate::escapes::shown;
use io_edges::{Sink, SinkFault};
use uuid::Uuid;

/// A word of a line that is put.
#[derive(Clone, Copy, Debug)]
pub enum Word<'a> {
    /// A word as it is.
    Plain(&'a str),
    /// A text in quotes.
    Quoted(&'a str),
    /// A number in decimal digits.
    Natural(u128),
    /// A number that may be negative, in decimal digits.
    Integer(i128),
    /// The two hexadecimal digits of each of these bytes.
    Digits(&'a [u8]),
    /// The same in quotes.
    DigitsInQuotes(&'a [u8]),
    /// An identifier in hyphenated lower case, by its bytes in the order of the wire.
    Identifier(&'a [u8; 16]),
    /// A lower-case letter, by its number, from 0 for a.
    Letter(u8),
}

/// Puts bytes by one put, with the contract of several puts. It fails as the sink does.
#[inline(always)]
pub fn put_bytes<K: Sink>(bytes: &[u8], sink: &mut K) -> Result<(), SinkFault>
    ensures { Puts (K.view sink.old) (K.view sink.new) bytes.now result }
{
    sink.put(bytes)
}

/// Puts a text as it is, by one put. On an error first bytes of it were put. Only the sink takes
/// memory.
#[inline(always)]
pub fn put_plain<K: Sink>(text: &str, sink: &mut K) -> Result<(), SinkFault>
    ensures { Puts (K.view sink.old) (K.view sink.new) text.now result }
{
    put_bytes(text.as_bytes(), sink)
}

/// Whether a quoted text shows the byte as it is.
pub fn is_plain(byte: u8) -> bool
    ensures { result ≡ is_plain byte }
{
    32 <= byte && byte < 127 && byte != b'"' && byte != b'\\'
}

// Whether a quoted text shows each byte as it is. No byte ends the loop, so that it goes over many
// at a time.
#[inline(always)]
fn each_is_plain(bytes: &[u8]) -> bool
    ensures { result ≡ list_all is_plain bytes.now }
{
    let mut plain = true;
    for byte in bytes {
        plain &= is_plain(*byte);
    }
    plain
}

// Plain bytes at the front, eight of them at a time.
fn plain_eights(bytes: &[u8]) -> usize
    ensures within { result ≤ length bytes.now }
    ensures plain { list_all is_plain (take result bytes.now) ≡ true }
{
    let mut count = 0;
    while bytes.len() - count >= 8 {
        if !each_is_plain(&bytes[count..count + 8]) {
            return count;
        }
        count += 8;
    }
    count
}

// How many bytes at the front are plain, one after the other.
fn plain_ones(bytes: &[u8]) -> usize
    ensures { result ≡ length (take_while is_plain bytes.now) }
{
    bytes.iter().take_while(|byte| is_plain(**byte)).count()
}

/// How many bytes at the front a quoted text shows as they are. Where few are left, as behind most
/// names, they are counted byte by byte.
pub fn plain_count(bytes: &[u8]) -> usize
    ensures { result ≡ length (take_while is_plain bytes.now) }
{
    if bytes.len() < 24 {
        return plain_ones(bytes);
    }
    let eights = plain_eights(bytes);
    let (_, rest) = bytes.split_at(eights);
    eights + plain_ones(rest)
}

// Whether a quoted text shows each byte as it is, by so many bytes at the front and so many at the
// end. Some may be among both.
#[inline(always)]
fn ends_are_plain(bytes: &[u8], front: usize, back: usize) -> bool
    requires within { (front ≤ length bytes.now) × (back ≤ length bytes.now) }
    requires whole { length bytes.now ≤ front + back }
    ensures { result ≡ list_all is_plain bytes.now }
{
    let (first, _) = bytes.split_at(front);
    let (_, last) = bytes.split_at(bytes.len() - back);
    each_is_plain(first) && each_is_plain(last)
}

// The same, by four or eight bytes at a time where there are as many.
fn are_plain(bytes: &[u8]) -> bool
    ensures { result ≡ list_all is_plain bytes.now }
{
    let count = bytes.len();
    if count < 4 {
        each_is_plain(bytes)
    } else if count < 8 {
        ends_are_plain(bytes, 4, 4)
    } else if count < 16 {
        ends_are_plain(bytes, 8, 8)
    } else {
        ends_are_plain(bytes, count - count % 8, 8)
    }
}

// So many bytes of a text are spelled on the stack and then put at once.
const PIECE: usize = 64;

// Spells a few bytes as a quoted text shows them, at the front of a piece, and answers how far. A
// piece has one byte more, since all four bytes are written that show a byte.
fn spell(bytes: &[u8], piece: &mut [u8]) -> usize
    requires { 3 * length bytes.now + 1 ≤ length piece.old }
    ensures within { result ≤ length piece.new }
    ensures spelled { take result piece.new ≡ flat_map quoted_byte bytes.now }
{
    let mut end = 0;
    for byte in bytes {
        let shown = shown(*byte);
        piece[end] = shown[0];
        piece[end + 1] = shown[1];
        piece[end + 2] = shown[2];
        piece[end + 3] = shown[3];
        end += shown[3] as usize;
    }
    end
}

// Puts a few bytes as a quoted text shows them, by one put.
fn put_piece<K: Sink>(bytes: &[u8], sink: &mut K) -> Result<(), SinkFault>
    requires { length bytes.now ≤ PIECE }
    ensures { Puts (K.view sink.old) (K.view sink.new) (flat_map quoted_byte bytes.now) result }
{
    let mut piece = [0; 3 * PIECE + 1];
    let end = spell(bytes, &mut piece);
    put_bytes(&piece[..end], sink)
}

// Puts what a text has between its quotes: many plain bytes as they stand, others by pieces.
#[inline(never)]
fn put_pieces<K: Sink>(bytes: &[u8], sink: &mut K) -> Result<(), SinkFault>
    ensures { Puts (K.view sink.old) (K.view sink.new) (flat_map quoted_byte bytes.now) result }
{
    let mut rest = bytes;
    while !rest.is_empty() {
        let plain = plain_count(rest);
        if plain < PIECE {
            let (piece, behind) = rest.split_at(rest.len().min(PIECE));
            put_piece(piece, sink)?;
            rest = behind;
        } else {
            let (shown, behind) = rest.split_at(plain);
            put_bytes(shown, sink)?;
            rest = behind;
        }
    }
    Ok(())
}

// Puts what a text of these bytes has between its quotes.
#[inline(never)]
fn put_shown<K: Sink>(bytes: &[u8], sink: &mut K) -> Result<(), SinkFault>
    ensures { Puts (K.view sink.old) (K.view sink.new) (flat_map quoted_byte bytes.now) result }
{
    if are_plain(bytes) {
        return put_bytes(bytes, sink);
    }
    put_pieces(bytes, sink)
}

/// Puts what a quoted text has between its quotes. It fails as the sink does.
#[inline(always)]
pub fn put_within_quotes<K: Sink>(text: &str, sink: &mut K) -> Result<(), SinkFault>
    ensures { Puts (K.view sink.old) (K.view sink.new) (flat_map quoted_byte text.now) result }
{
    match text.as_bytes() {
        [] => Ok(()),
        // Prefixes have one letter mostly.
        [byte] if is_plain(*byte) => put_bytes(&[*byte], sink),
        bytes => put_shown(bytes, sink),
    }
}

/// Puts a text in double quotes. A printable byte of ASCII stands as it is, and any other, the
/// quote and the backslash as a backslash and two hexadecimal digits. The text goes in several
/// puts: where a put is expensive, give a buffering sink, such as `io_edges::GatheringSink`. On an
/// error first bytes of it were put. Only the sink takes memory.
pub fn quote<K: Sink>(text: &str, sink: &mut K) -> Result<(), SinkFault>
    ensures { Puts (K.view sink.old) (K.view sink.new) (quoted text.now) result }
{
    put_bytes(b"\"", sink)?;
    put_within_quotes(text, sink)?;
    put_bytes(b"\"", sink)
}

// So many bytes are encoded as digits and then put at once.
const CHUNK: usize = 32;

// Puts the hexadecimal digits of a few bytes.
fn put_chunk<K: Sink>(bytes: &[u8], sink: &mut K) -> Result<(), SinkFault>
    requires { length bytes.now ≤ CHUNK }
    ensures { Puts (K.view sink.old) (K.view sink.new) (encode_lower bytes.now) result }
{
    let mut digits = [0; 2 * CHUNK];
    let spelled = &mut digits[..2 * bytes.len()];
    hex::encode_to_slice(bytes, spelled).unwrap();
    put_bytes(spelled, sink)
}

// Puts the hexadecimal digits of bytes.
fn put_digits<K: Sink>(bytes: &[u8], sink: &mut K) -> Result<(), SinkFault>
    ensures { Puts (K.view sink.old) (K.view sink.new) (encode_lower bytes.now) result }
{
    let mut rest = bytes;
    while !rest.is_empty() {
        let (chunk, behind) = rest.split_at(rest.len().min(CHUNK));
        put_chunk(chunk, sink)?;
        rest = behind;
    }
    Ok(())
}

fn put_digits_in_quotes<K: Sink>(bytes: &[u8], sink: &mut K) -> Result<(), SinkFault>
    ensures { Puts (K.view sink.old) (K.view sink.new) (digits_in_quotes bytes.now) result }
{
    put_bytes(b"\"", sink)?;
    put_digits(bytes, sink)?;
    put_bytes(b"\"", sink)
}

fn put_identifier<K: Sink>(bytes: &[u8; 16], sink: &mut K) -> Result<(), SinkFault>
    ensures { Puts (K.view sink.old) (K.view sink.new) (identifier_word bytes.now) result }
{
    let mut buffer = Uuid::encode_buffer();
    let id = Uuid::from_bytes_le(*bytes);
    put_bytes(id.hyphenated().encode_lower(&mut buffer).as_bytes(), sink)
}

#[inline(always)]
fn put_word<K: Sink>(word: &Word, sink: &mut K) -> Result<(), SinkFault>
    requires { IsPuttable word.now }
    ensures { Puts (K.view sink.old) (K.view sink.new) (word_bytes word.now) result }
{
    match word {
        Word::Plain(text) => put_bytes(text.as_bytes(), sink),
        Word::Quoted(text) => quote(text, sink),
        Word::Natural(n) => put_natural(*n, sink),
        Word::Integer(n) => put_integer(*n, sink),
        Word::Digits(bytes) => put_digits(bytes, sink),
        Word::DigitsInQuotes(bytes) => put_digits_in_quotes(bytes, sink),
        Word::Identifier(bytes) => put_identifier(bytes, sink),
        Word::Letter(letter) => put_bytes(&[b'a' + *letter], sink),
    }
}

/// Puts a space and a word. It fails as the sink does.
#[inline(always)]
pub fn put_spaced_word<K: Sink>(word: &Word, sink: &mut K) -> Result<(), SinkFault>
    requires { IsPuttable word.now }
    ensures { Puts (K.view sink.old) (K.view sink.new) (spaced_word word.now) result }
{
    put_bytes(b" ", sink)?;
    put_word(word, sink)
}

/// Puts words, each after a space. It fails as the sink does.
pub fn put_spaced_words<K: Sink>(words: &[Word], sink: &mut K) -> Result<(), SinkFault>
    requires { All IsPuttable words.now }
    ensures { Puts (K.view sink.old) (K.view sink.new) (spaced_words words.now) result }
{
    for word in words {
        put_spaced_word(word, sink)?;
    }
    Ok(())
}

/// Puts words, one right after the other, in several puts. On an error first bytes of them were
/// put. Only the sink takes memory.
pub fn put_joined<K: Sink>(words: &[Word], sink: &mut K) -> Result<(), SinkFault>
    requires { All IsPuttable words.now }
    ensures { Puts (K.view sink.old) (K.view sink.new) (joined_words words.now) result }
{
    for word in words {
        put_word(word, sink)?;
    }
    Ok(())
}

/// Puts a line: a keyword, words, each after a space, and a line feed, in several puts. On an error
/// first bytes of it were put. Only the sink takes memory.
pub fn put_words<K: Sink>(keyword: &str, words: &[Word], sink: &mut K) -> Result<(), SinkFault>
    requires { All IsPuttable words.now }
    ensures { Puts (K.view sink.old) (K.view sink.new)
        (with_line_feed (keyword.now ++ spaced_words words.now)) result }
{
    put_bytes(keyword.as_bytes(), sink)?;
    put_spaced_words(words, sink)?;
    put_bytes(b"\n", sink)
}
