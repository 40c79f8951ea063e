//! The values that the bytes of text records are.

ghost use Rattle.std.specs.Prelude.{◌≡◌, ◌<◌, ◌^◌, IfOk, drop, slice_index, true};
ghost use Rattle.std.specs.Int.{from_le_bytes, w32, w64};
ghost use Rattle.std.specs.Str.{is_utf8};
ghost use Rattle.nbfx_records.specs.Contents.{decimal_of, is_sized, judge, known_judged, scalar_of, text_judged, truth_of, units_of, utf16_text};
ghost use Rattle.nbfx_records.specs.Judged.{Makes};

use crate::kinds::TextKind;
use crate::nodes::{NodeFault, RecordFault};
use nbfx_values::{Blob, Dec, Scalar, Txt};
use std::alloc::{AllocError, Global};

/// Whether the bytes are UTF-8.
pub fn is_text(bytes: &[u8]) -> bool
    ensures { result ≡ is_utf8 bytes.now }
{
    match str::from_utf8(bytes) {
        Ok(_) => true,
        Err(_) => false,
    }
}

/// The text of these bytes. It fails with `BadUtf8` where they aren't UTF-8, or without memory.
#[inline]
pub fn text(alloc: Global, bytes: &[u8]) -> Result<Txt, NodeFault>
    ensures { Makes result (text_judged bytes.now) }
{
    match str::from_utf8(bytes) {
        Ok(text) => Ok(Txt::of(alloc, text)?),
        Err(_) => Err(NodeFault::Record(RecordFault::BadUtf8)),
    }
}

// The byte at a place, and 0 where there is none.
fn byte(bytes: &[u8], at: usize) -> u8
    ensures { result ≡ slice_index bytes.now at }
{
    bytes.get(at).copied().unwrap_or(0)
}

// Two bytes a unit, the lower first, as far as there are two.
fn units(alloc: Global, bytes: &[u8]) -> Result<Vec<u16>, AllocError>
    ensures { IfOk result (λ units. units.items ≡ units_of bytes.now) }
{
    let mut units = Vec::new(alloc);
    for place in 0..bytes.len() / 2 {
        units.push(u16::from_le_bytes([bytes[2 * place], bytes[2 * place + 1]]))?;
    }
    Ok(units)
}

// The text that UTF-16 spells.
fn utf16(alloc: Global, bytes: &[u8]) -> Result<Txt, NodeFault>
    ensures { Makes result (judge true (utf16_text bytes.now)) }
{
    if bytes.len() % 2 == 1 {
        return Err(NodeFault::Record(RecordFault::BadValue));
    }
    let units = units(alloc, bytes)?;
    match String::from_utf16(alloc, units.as_slice())? {
        Ok(text) => Ok(Txt::from(text)),
        Err(_) => Err(NodeFault::Record(RecordFault::BadValue)),
    }
}

// A truth value.
fn truth(byte: u8) -> Option<Scalar>
    ensures { result ≡ truth_of byte }
{
    match byte {
        0 => Some(Scalar::Truth(false)),
        1 => Some(Scalar::Truth(true)),
        _ => None,
    }
}

// Four bytes, from a place on, as a number.
fn number_of_four(bytes: &[u8], at: usize) -> u32
    requires { at < 2 ^ 32 }
    ensures { result ≡ from_le_bytes w32 (drop at bytes.now) }
{
    u32::from_le_bytes([
        byte(bytes, at),
        byte(bytes, at + 1),
        byte(bytes, at + 2),
        byte(bytes, at + 3),
    ])
}

// Eight bytes, from a place on, as a number.
fn number_of_eight(bytes: &[u8], at: usize) -> u64
    requires { at < 2 ^ 32 }
    ensures { result ≡ from_le_bytes w64 (drop at bytes.now) }
{
    u64::from_le_bytes([
        byte(bytes, at),
        byte(bytes, at + 1),
        byte(bytes, at + 2),
        byte(bytes, at + 3),
        byte(bytes, at + 4),
        byte(bytes, at + 5),
        byte(bytes, at + 6),
        byte(bytes, at + 7),
    ])
}

// A decimal: two bytes that say nothing, the scale, the sign, the upper 32 bits, the lower 64.
fn decimal(bytes: &[u8]) -> Option<Scalar>
    ensures { result ≡ decimal_of bytes.now }
{
    let scale = byte(bytes, 2);
    let sign = byte(bytes, 3);
    if scale > 28 || sign != 0 && sign != 128 {
        return None;
    }
    Some(Scalar::Decimal(Dec {
        scale,
        negative: sign == 128,
        magnitude: (number_of_four(bytes, 4) as u128) << 64 | number_of_eight(bytes, 8) as u128,
    }))
}

// The value of so many bytes, of a kind whose records all have as many.
#[tactic(auto, unfolding(crate::specs::Contents::scalar_of))]
fn fixed(kind: TextKind, bytes: &[u8]) -> Option<Scalar>
    requires { is_sized kind ≡ true }
    ensures { result ≡ scalar_of kind bytes.now }
{
    match kind {
        TextKind::Zero => Some(Scalar::Number(0)),
        TextKind::One => Some(Scalar::Number(1)),
        TextKind::False => Some(Scalar::Truth(false)),
        TextKind::True => Some(Scalar::Truth(true)),
        TextKind::Int8 => Some(Scalar::Number(byte(bytes, 0).cast_signed() as i128)),
        TextKind::Int16 => Some(Scalar::Number(
            i16::from_le_bytes([byte(bytes, 0), byte(bytes, 1)]) as i128,
        )),
        TextKind::Int32 => Some(Scalar::Number(number_of_four(bytes, 0).cast_signed() as i128)),
        TextKind::Int64 => Some(Scalar::Number(number_of_eight(bytes, 0).cast_signed() as i128)),
        TextKind::Float => Some(Scalar::Float(number_of_four(bytes, 0))),
        TextKind::Double => Some(Scalar::Double(number_of_eight(bytes, 0))),
        TextKind::Decimal => decimal(bytes),
        TextKind::DateTime => Some(Scalar::DateTime(number_of_eight(bytes, 0))),
        TextKind::UniqueId => Some(Scalar::UniqueId(<[u8; 16]>::try_from(bytes).ok()?)),
        TextKind::TimeSpan => Some(Scalar::TimeSpan(number_of_eight(bytes, 0).cast_signed())),
        TextKind::Uuid => Some(Scalar::Uuid(<[u8; 16]>::try_from(bytes).ok()?)),
        TextKind::UInt64 => Some(Scalar::Number(number_of_eight(bytes, 0) as i128)),
        TextKind::Bool => truth(byte(bytes, 0)),
        _ => None,
    }
}

/// The value of these bytes, of a text of this kind. It fails with `BadUtf8` or `BadValue` where
/// they aren't one, or without memory.
#[tactic(auto, unfolding(crate::specs::Contents::scalar_of))]
pub fn known(alloc: Global, kind: TextKind, bytes: &[u8]) -> Result<Scalar, NodeFault>
    ensures { Makes result (known_judged kind bytes.now) }
{
    match kind {
        TextKind::Chars8 | TextKind::Chars16 | TextKind::Chars32 => {
            Ok(Scalar::Text(text(alloc, bytes)?))
        }
        TextKind::Bytes8 | TextKind::Bytes16 | TextKind::Bytes32 => {
            Ok(Scalar::Bytes(Blob::of(alloc, bytes)?))
        }
        TextKind::UnicodeChars8 | TextKind::UnicodeChars16 | TextKind::UnicodeChars32 => {
            Ok(Scalar::Text(utf16(alloc, bytes)?))
        }
        TextKind::Empty => Ok(Scalar::Text(Txt::of(alloc, "")?)),
        _ => match fixed(kind, bytes) {
            Some(value) => Ok(value),
            None => Err(NodeFault::Record(RecordFault::BadValue)),
        },
    }
}
