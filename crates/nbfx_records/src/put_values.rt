//! Single values and lists as they are written: each in its chosen spelling.
//!
//! Each function appends, as those of records do.

ghost use Rattle.std.specs.Prelude.{◌≡◌, ◌<◌, ◌^◌, ◌∷◌, IsTrue, false, flat_map, if◌then◌else◌, length};
ghost use Rattle.std.specs.Int.{byte_len, to_le_bytes};
ghost use Rattle.std.specs.List.{list_all};
ghost use Rattle.nbfx_values.specs.Scalars.{is_number, is_valid_scalar};
ghost use Rattle.nbfx_records.specs.Choices.{choice_seen};
ghost use Rattle.nbfx_records.specs.Chosen as spec;
ghost use Rattle.nbfx_records.specs.Putting.{Puts};
ghost use Rattle.nbfx_records.specs.Shapes.{width_in};
ghost use Rattle.nbfx_records.specs.TypeBytes.{byte_of, is_kind};
ghost use Rattle.nbfx_records.specs.Valid.{fits_known, fits_raw, fits_text, is_valid_known, is_valid_raw, is_valid_text};

use crate::kinds::{LengthForm, RecordKind, TextKind};
use crate::nodes::{RawScalar, RawValue};
use crate::put_parts::{put_byte, put_bytes, put_integer, put_kind};
use nbfx_values::{Dec, Scalar};
use unit_streams::Memory;

/// One value as a writer spells it.
#[derive(Clone, Copy, Debug)]
pub enum ScalarChoice<'a> {
    /// The value itself, which isn't a QName.
    Known(&'a Scalar),
    /// The identifier of a text.
    Named(u32),
    /// A QName: the number of its prefix's letter, from 0 for a, and the identifier of its local
    /// name.
    Qualified(u8, u32),
}

// Appends a text record.
fn put_text(kind: TextKind, ends: bool, body: &[u8], out: &mut Vec<u8>) -> Result<(), Memory>
    requires { IsTrue (is_kind (RecordKind.Text kind ends)) }
    ensures { Puts result out.old.items out.new.items
        (byte_of (RecordKind.Text kind ends) ∷ body.now) }
{
    put_kind(RecordKind::Text(kind, ends), out)?;
    put_bytes(body, out)
}

// Appends a number.
fn put_number(number: i128, ends: bool, out: &mut Vec<u8>) -> Result<(), Memory>
    requires { IsTrue (is_number number) }
    ensures { Puts result out.old.items out.new.items
        (spec.record_bytes ends (spec.chosen_number number)) }
{
    if number == 0 {
        return put_text(TextKind::Zero, ends, &[], out);
    }
    if number == 1 {
        return put_text(TextKind::One, ends, &[], out);
    }
    if let Ok(number) = i8::try_from(number) {
        return put_text(TextKind::Int8, ends, &number.to_le_bytes(), out);
    }
    if let Ok(number) = i16::try_from(number) {
        return put_text(TextKind::Int16, ends, &number.to_le_bytes(), out);
    }
    if let Ok(number) = i32::try_from(number) {
        return put_text(TextKind::Int32, ends, &number.to_le_bytes(), out);
    }
    if let Ok(number) = i64::try_from(number) {
        return put_text(TextKind::Int64, ends, &number.to_le_bytes(), out);
    }
    put_text(
        TextKind::UInt64,
        ends,
        &(number.unsigned_abs() as u64).to_le_bytes(),
        out,
    )
}

// The least width that holds a length.
fn least_form(length: usize) -> LengthForm
    ensures { result ≡ spec.least_form length }
{
    if length < 1 << 8 {
        LengthForm::OneByte
    } else if length < 1 << 16 {
        LengthForm::TwoBytes
    } else {
        LengthForm::FourBytes
    }
}

// Appends a length in this form.
fn put_length(form: LengthForm, count: usize, out: &mut Vec<u8>) -> Result<(), Memory>
    requires { count < 256 ^ byte_len (width_in form) }
    ensures { Puts result out.old.items out.new.items (to_le_bytes (width_in form) count) }
{
    match form {
        LengthForm::OneByte => put_byte(count as u8, out),
        LengthForm::TwoBytes => put_bytes(&(count as u16).to_le_bytes(), out),
        LengthForm::FourBytes => put_bytes(&(count as u32).to_le_bytes(), out),
    }
}

// Appends a length, and the bytes.
fn put_counted(form: LengthForm, content: &[u8], out: &mut Vec<u8>) -> Result<(), Memory>
    requires { length content.now < 256 ^ byte_len (width_in form) }
    ensures { Puts result out.old.items out.new.items (spec.counted_body form content.now) }
{
    put_length(form, content.len(), out)?;
    put_bytes(content, out)
}

// The kind of a text with a length of this form.
fn characters(form: LengthForm) -> TextKind
    ensures { result ≡ spec.characters form }
{
    match form {
        LengthForm::OneByte => TextKind::Chars8,
        LengthForm::TwoBytes => TextKind::Chars16,
        LengthForm::FourBytes => TextKind::Chars32,
    }
}

// The kind of bytes with a length of this form.
fn binary(form: LengthForm) -> TextKind
    ensures { result ≡ spec.binary form }
{
    match form {
        LengthForm::OneByte => TextKind::Bytes8,
        LengthForm::TwoBytes => TextKind::Bytes16,
        LengthForm::FourBytes => TextKind::Bytes32,
    }
}

// Appends a text by its characters.
fn put_characters(text: &str, ends: bool, out: &mut Vec<u8>) -> Result<(), Memory>
    requires { length text.now < 2 ^ 31 }
    ensures { Puts result out.old.items out.new.items
        (spec.record_bytes ends (spec.chosen_text text.now)) }
{
    if text.is_empty() {
        return put_text(TextKind::Empty, ends, &[], out);
    }
    let form = least_form(text.len());
    put_kind(RecordKind::Text(characters(form), ends), out)?;
    put_counted(form, text.as_bytes(), out)
}

// Appends bytes as a value.
fn put_binary(content: &[u8], ends: bool, out: &mut Vec<u8>) -> Result<(), Memory>
    requires { length content.now < 2 ^ 31 }
    ensures { Puts result out.old.items out.new.items
        (spec.record_bytes ends (spec.with_length spec.binary content.now)) }
{
    let form = least_form(content.len());
    put_kind(RecordKind::Text(binary(form), ends), out)?;
    put_counted(form, content, out)
}

// The byte of a sign.
fn sign(negative: bool) -> u8
    ensures { result ≡ (if negative then 128 else 0) }
{
    if negative { 128 } else { 0 }
}

/// Appends the 16 bytes of a DecimalText after its type byte.
pub fn put_decimal(decimal: &Dec, out: &mut Vec<u8>) -> Result<(), Memory>
    requires { IsTrue (is_valid_scalar (Scalar.Decimal decimal.now)) }
    ensures { Puts result out.old.items out.new.items (spec.decimal_body decimal.now) }
{
    put_bytes(&[0, 0, decimal.scale, sign(decimal.negative)], out)?;
    put_bytes(&((decimal.magnitude >> 64) as u32).to_le_bytes(), out)?;
    put_bytes(&((decimal.magnitude % (1 << 64)) as u64).to_le_bytes(), out)
}

// Appends a value that names no string.
fn put_known(value: &Scalar, ends: bool, out: &mut Vec<u8>) -> Result<(), Memory>
    requires valid { IsTrue (is_valid_known value.now) }
    requires fits { IsTrue (fits_known value.now) }
    ensures { Puts result out.old.items out.new.items
        (spec.record_bytes ends (spec.chosen_known value.now)) }
{
    match value {
        Scalar::Number(number) => put_number(*number, ends, out),
        Scalar::Truth(false) => put_text(TextKind::False, ends, &[], out),
        Scalar::Truth(true) => put_text(TextKind::True, ends, &[], out),
        Scalar::Float(bits) => put_text(TextKind::Float, ends, &bits.to_le_bytes(), out),
        Scalar::Double(bits) => put_text(TextKind::Double, ends, &bits.to_le_bytes(), out),
        Scalar::Decimal(decimal) => {
            put_kind(RecordKind::Text(TextKind::Decimal, ends), out)?;
            put_decimal(decimal, out)
        }
        Scalar::DateTime(pattern) => put_text(
            TextKind::DateTime,
            ends,
            &pattern.to_le_bytes(),
            out,
        ),
        Scalar::TimeSpan(span) => put_text(TextKind::TimeSpan, ends, &span.to_le_bytes(), out),
        Scalar::Text(text) => put_characters(text.as_str(), ends, out),
        Scalar::Bytes(content) => put_binary(content.as_slice(), ends, out),
        Scalar::UniqueId(identifier) => put_text(TextKind::UniqueId, ends, identifier, out),
        Scalar::Uuid(identifier) => put_text(TextKind::Uuid, ends, identifier, out),
        Scalar::QName(_, _) => unreachable!(),
    }
}

/// Appends the text record of MC-NBFX of one value. If `ends`, it is the record that also ends the
/// element that holds the text. Without memory it fails, and first bytes of the record may stand in
/// `out`.
pub fn put_scalar(value: ScalarChoice<'_>, ends: bool, out: &mut Vec<u8>) -> Result<(), Memory>
    requires valid { IsTrue (is_valid_raw (choice_seen value)) }
    requires fits { IsTrue (fits_raw (choice_seen value)) }
    ensures { Puts result out.old.items out.new.items
        (spec.scalar_bytes ends (choice_seen value.entry)) }
{
    match value {
        ScalarChoice::Known(value) => put_known(value, ends, out),
        ScalarChoice::Named(id) => {
            put_kind(RecordKind::Text(TextKind::Dictionary, ends), out)?;
            put_integer(id, out)
        }
        ScalarChoice::Qualified(letter, id) => {
            put_text(TextKind::QNameDictionary, ends, &[letter], out)?;
            put_integer(id, out)
        }
    }
}

/// Appends a StartListText record of MC-NBFX. The values of the list have to follow, none of which
/// ends an element, and then its end. Without memory it fails, and `out` is as before.
pub fn put_list_start(out: &mut Vec<u8>) -> Result<(), Memory>
    ensures { Puts result out.old.items out.new.items spec.list_start }
{
    put_kind(RecordKind::Text(TextKind::StartList, false), out)
}

/// Appends an EndListText record of MC-NBFX. If `ends`, it also ends the element that holds the
/// list. Without memory it fails, and `out` is as before.
pub fn put_list_end(ends: bool, out: &mut Vec<u8>) -> Result<(), Memory>
    ensures { Puts result out.old.items out.new.items (spec.list_end ends) }
{
    put_kind(RecordKind::Text(TextKind::EndList, ends), out)
}

// The same value, borrowed.
fn choice_of(value: &RawScalar) -> ScalarChoice<'_>
    ensures { choice_seen result ≡ value.now }
{
    match value {
        RawScalar::Known(value) => ScalarChoice::Known(value),
        RawScalar::Dictionary(id) => ScalarChoice::Named(*id),
        RawScalar::QName(letter, id) => ScalarChoice::Qualified(*letter, *id),
    }
}

// Appends the values of a list.
fn put_scalars(values: &[RawScalar], out: &mut Vec<u8>) -> Result<(), Memory>
    requires valid { IsTrue (list_all is_valid_raw values.now) }
    requires fits { IsTrue (list_all fits_raw values.now) }
    ensures { Puts result out.old.items out.new.items
        (flat_map (spec.scalar_bytes false) values.now) }
{
    for value in values {
        put_scalar(choice_of(value), false, out)?;
    }
    Ok(())
}

/// Appends a text: one value, or a list. If `ends`, it also ends the element that holds the text.
pub fn put_value(value: &RawValue, ends: bool, out: &mut Vec<u8>) -> Result<(), Memory>
    requires valid { IsTrue (is_valid_text value.now) }
    requires fits { IsTrue (fits_text value.now) }
    ensures { Puts result out.old.items out.new.items (spec.value_bytes ends value.now) }
{
    match value {
        RawValue::One(value) => put_scalar(choice_of(value), ends, out),
        RawValue::List(values) => {
            put_list_start(out)?;
            put_scalars(values.as_slice(), out)?;
            put_list_end(ends, out)
        }
    }
}
