//! What each type byte begins, and what follows the type byte of a text.

ghost use Rattle.std.specs.Prelude.{◌≡◌, ◌≤◌, ◌<◌, IsTrue, slice_get};
ghost use Rattle.std.specs.Option.{option_and_then};
ghost use Rattle.nbfx_records.specs.Contents as contents;
ghost use Rattle.nbfx_records.specs.Kinds as spec;
ghost use Rattle.nbfx_records.specs.TypeBytes as type_bytes;

use crate::kinds::{Body, LengthForm, NameForm, PrefixForm, RecordKind, TEXT_KINDS, TextKind};
use nbfx_values::ArrayKind;

// Of four type bytes in a row, the odd ones are those with a prefix.
fn prefix_form(place: u8) -> PrefixForm
    ensures { result ≡ spec.prefix_of place }
{
    if place % 2 == 0 {
        PrefixForm::Unprefixed
    } else {
        PrefixForm::Prefixed
    }
}

// The lower two are those with a string.
fn name_form(place: u8) -> NameForm
    ensures { result ≡ spec.name_of place }
{
    if place < 2 {
        NameForm::Inlined
    } else {
        NameForm::Identified
    }
}

// The kind at a place of a table.
fn kind_in(kinds: &[TextKind], place: usize) -> Option<TextKind>
    ensures { result ≡ slice_get kinds.now place }
{
    kinds.get(place).copied()
}

// The kind of a text.
fn text_kind(byte: u8) -> Option<TextKind>
    ensures { result ≡ spec.text_kind byte }
{
    if byte < 128 {
        return None;
    }
    kind_in(&TEXT_KINDS, (byte as usize - 128) / 2)
}

// The text that a type byte begins.
fn text_record(byte: u8) -> Option<RecordKind>
    ensures { result ≡ option_and_then (spec.text_record byte) (spec.text_kind byte) }
{
    let kind = text_kind(byte)?;
    let ends = byte % 2 == 1;
    if kind == TextKind::StartList && ends {
        return None;
    }
    Some(RecordKind::Text(kind, ends))
}

// The element that a type byte of the second quarter begins.
#[inline(always)]
#[tactic(auto, unfolding(crate::specs::Kinds::record_kind))]
fn element_kind(byte: u8) -> Option<RecordKind>
    requires from { 64 ≤ byte }
    requires below { byte < 128 }
    ensures { result ≡ spec.record_kind byte }
{
    match byte {
        68..=93 => Some(RecordKind::Element(
            PrefixForm::Lettered(byte - 68 + b'a'),
            NameForm::Identified,
        )),
        94..=119 => Some(RecordKind::Element(
            PrefixForm::Lettered(byte - 94 + b'a'),
            NameForm::Inlined,
        )),
        120..=127 => None,
        _ => Some(RecordKind::Element(prefix_form(byte - 64), name_form(byte - 64))),
    }
}

// The record that a type byte of the first quarter begins: a declaration, an attribute, or one that
// is no part of an element's start.
#[inline(always)]
#[tactic(auto, unfolding(crate::specs::Kinds::record_kind))]
fn lower_kind(byte: u8) -> Option<RecordKind>
    requires { byte < 64 }
    ensures { result ≡ spec.record_kind byte }
{
    match byte {
        0 => None,
        1 => Some(RecordKind::EndElement),
        2 => Some(RecordKind::Comment),
        3 => Some(RecordKind::Array),
        4..=7 => Some(RecordKind::Attribute(prefix_form(byte - 4), name_form(byte - 4))),
        8..=11 => Some(RecordKind::Declaration(prefix_form(byte - 8), name_form(byte - 8))),
        12..=37 => Some(RecordKind::Attribute(
            PrefixForm::Lettered(byte - 12 + b'a'),
            NameForm::Identified,
        )),
        _ => Some(RecordKind::Attribute(PrefixForm::Lettered(byte - 38 + b'a'), NameForm::Inlined)),
    }
}

/// The kind of record that a type byte begins; None where it begins none.
#[inline(always)]
#[tactic(auto, unfolding(crate::specs::Kinds::record_kind))]
pub fn record_kind(byte: u8) -> Option<RecordKind>
    ensures { result ≡ spec.record_kind byte }
{
    if byte >= 128 {
        text_record(byte)
    } else if byte >= 64 {
        element_kind(byte)
    } else {
        lower_kind(byte)
    }
}

/// What follows the type byte of a text of this kind.
pub fn body(kind: TextKind) -> Body
    ensures { result ≡ spec.body_of kind }
{
    match kind {
        TextKind::Zero | TextKind::One | TextKind::False | TextKind::True | TextKind::Empty =>
            Body::Fixed(0),
        TextKind::Int8 | TextKind::Bool => Body::Fixed(1),
        TextKind::Int16 => Body::Fixed(2),
        TextKind::Int32 | TextKind::Float => Body::Fixed(4),
        TextKind::Int64
        | TextKind::Double
        | TextKind::DateTime
        | TextKind::TimeSpan
        | TextKind::UInt64 => Body::Fixed(8),
        TextKind::Decimal | TextKind::UniqueId | TextKind::Uuid => Body::Fixed(16),
        TextKind::Chars8 | TextKind::Bytes8 | TextKind::UnicodeChars8 => Body::Counted(
            LengthForm::OneByte,
        ),
        TextKind::Chars16 | TextKind::Bytes16 | TextKind::UnicodeChars16 => Body::Counted(
            LengthForm::TwoBytes,
        ),
        TextKind::Chars32 | TextKind::Bytes32 | TextKind::UnicodeChars32 => Body::Counted(
            LengthForm::FourBytes,
        ),
        TextKind::Dictionary => Body::Named,
        TextKind::QNameDictionary => Body::Qualified,
        TextKind::StartList => Body::Listed,
        TextKind::EndList => Body::Ending,
    }
}

/// The kind of the text record that has one value of an array of this kind.
pub fn text_kind_in(kind: ArrayKind) -> TextKind
    ensures { result ≡ spec.text_kind_in kind }
{
    match kind {
        ArrayKind::Bool => TextKind::Bool,
        ArrayKind::Int16 => TextKind::Int16,
        ArrayKind::Int32 => TextKind::Int32,
        ArrayKind::Int64 => TextKind::Int64,
        ArrayKind::Float => TextKind::Float,
        ArrayKind::Double => TextKind::Double,
        ArrayKind::Decimal => TextKind::Decimal,
        ArrayKind::DateTime => TextKind::DateTime,
        ArrayKind::TimeSpan => TextKind::TimeSpan,
        ArrayKind::Uuid => TextKind::Uuid,
    }
}

/// How many bytes one value of an array of this kind has.
pub fn width(kind: ArrayKind) -> usize
    ensures is { result ≡ spec.width_of kind }
    ensures small { result ≤ 16 }
{
    match kind {
        ArrayKind::Bool => 1,
        ArrayKind::Int16 => 2,
        ArrayKind::Int32 | ArrayKind::Float => 4,
        ArrayKind::Int64 | ArrayKind::Double | ArrayKind::DateTime | ArrayKind::TimeSpan => 8,
        ArrayKind::Decimal | ArrayKind::Uuid => 16,
    }
}

// The kind of an array's values, by the text that has one of them.
fn array_kind_of(kind: TextKind) -> Option<ArrayKind>
    ensures { result ≡ spec.array_kind_of kind }
{
    match kind {
        TextKind::Bool => Some(ArrayKind::Bool),
        TextKind::Int16 => Some(ArrayKind::Int16),
        TextKind::Int32 => Some(ArrayKind::Int32),
        TextKind::Int64 => Some(ArrayKind::Int64),
        TextKind::Float => Some(ArrayKind::Float),
        TextKind::Double => Some(ArrayKind::Double),
        TextKind::Decimal => Some(ArrayKind::Decimal),
        TextKind::DateTime => Some(ArrayKind::DateTime),
        TextKind::TimeSpan => Some(ArrayKind::TimeSpan),
        TextKind::Uuid => Some(ArrayKind::Uuid),
        _ => None,
    }
}

/// The kind of an array's values, by the type byte before them; None where no array has such
/// values.
pub fn array_kind(byte: u8) -> Option<ArrayKind>
    ensures { result ≡ spec.array_kind byte }
{
    if byte % 2 == 0 {
        return None;
    }
    array_kind_of(text_kind(byte)?)
}

/// Whether the bytes of a text of this kind are characters in UTF-8.
pub fn is_chars(kind: TextKind) -> bool
    ensures { result ≡ contents.is_chars kind }
{
    matches!(
        kind,
        TextKind::Chars8 | TextKind::Chars16 | TextKind::Chars32
    )
}

// The type byte of a plain text of this kind.
fn text_byte(kind: TextKind) -> u8
    ensures { result ≡ type_bytes.text_byte kind }
{
    128 + 2 * (kind as u8)
}

/// The type byte of a record of this kind.
pub fn type_byte(kind: RecordKind) -> u8
    requires { IsTrue (type_bytes.is_kind kind) }
    ensures { result ≡ type_bytes.byte_of kind }
{
    match kind {
        RecordKind::EndElement => 1,
        RecordKind::Comment => 2,
        RecordKind::Array => 3,
        RecordKind::Attribute(PrefixForm::Unprefixed, NameForm::Inlined) => 4,
        RecordKind::Attribute(PrefixForm::Prefixed, NameForm::Inlined) => 5,
        RecordKind::Attribute(PrefixForm::Unprefixed, NameForm::Identified) => 6,
        RecordKind::Attribute(PrefixForm::Prefixed, NameForm::Identified) => 7,
        RecordKind::Attribute(PrefixForm::Lettered(c), NameForm::Identified) => 12 + (c - b'a'),
        RecordKind::Attribute(PrefixForm::Lettered(c), NameForm::Inlined) => 38 + (c - b'a'),
        RecordKind::Declaration(PrefixForm::Unprefixed, NameForm::Inlined) => 8,
        RecordKind::Declaration(PrefixForm::Prefixed, NameForm::Inlined) => 9,
        RecordKind::Declaration(PrefixForm::Unprefixed, NameForm::Identified) => 10,
        RecordKind::Declaration(PrefixForm::Prefixed, NameForm::Identified) => 11,
        RecordKind::Declaration(PrefixForm::Lettered(_), _) => unreachable!(),
        RecordKind::Element(PrefixForm::Unprefixed, NameForm::Inlined) => 64,
        RecordKind::Element(PrefixForm::Prefixed, NameForm::Inlined) => 65,
        RecordKind::Element(PrefixForm::Unprefixed, NameForm::Identified) => 66,
        RecordKind::Element(PrefixForm::Prefixed, NameForm::Identified) => 67,
        RecordKind::Element(PrefixForm::Lettered(c), NameForm::Identified) => 68 + (c - b'a'),
        RecordKind::Element(PrefixForm::Lettered(c), NameForm::Inlined) => 94 + (c - b'a'),
        RecordKind::Text(kind, false) => text_byte(kind),
        RecordKind::Text(kind, true) => text_byte(kind) + 1,
    }
}
