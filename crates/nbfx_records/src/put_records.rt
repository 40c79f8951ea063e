//! Records as they are written, from parts that lie elsewhere: each in its chosen spelling.
//!
//! Each function appends. Where memory runs out, the bytes before stay, and the first of those that
//! were to be appended may stand after them: who puts several records takes them all back.

ghost use Rattle.std.specs.Prelude.{◌≡◌, ◌∷◌, ◌<◌, ◌^◌, IsTrue, flat_map, length};
ghost use Rattle.std.specs.List.{list_all};
ghost use Rattle.nbfx_values.specs.Items.{fits_kind};
ghost use Rattle.nbfx_records.specs.Chosen as spec;
ghost use Rattle.nbfx_records.specs.Putting.{Puts};
ghost use Rattle.nbfx_records.specs.TypeBytes.{byte_of, form_of, is_kind};
ghost use Rattle.nbfx_records.specs.Valid.{fit_names, fits_name, is_short};
ghost use Rattle.nbfx_records.specs.Views.{name_seen};

use crate::kinds::{NameForm, PrefixForm, RecordKind};
use crate::parts::NamePart;
use crate::put_parts::{put_byte, put_bytes, put_integer, put_kind, put_raw_string, put_string};
use crate::put_values::put_decimal;
use crate::type_bytes::text_kind_in;
use nbfx_values::{ArrayKind, Scalar};
use unit_streams::Memory;

// The form of a prefix, in a record that has forms for single letters.
fn prefix_form(prefix: &str) -> PrefixForm
    ensures { result ≡ spec.prefix_form prefix.now }
{
    match prefix.as_bytes() {
        [] => PrefixForm::Unprefixed,
        [letter] if letter.is_ascii_lowercase() => PrefixForm::Lettered(*letter),
        _ => PrefixForm::Prefixed,
    }
}

// The form of a declared prefix.
fn declared_form(prefix: &str) -> PrefixForm
    ensures { result ≡ spec.declared_form prefix.now }
{
    if prefix.is_empty() {
        PrefixForm::Unprefixed
    } else {
        PrefixForm::Prefixed
    }
}

// The form of a name.
fn name_form(name: NamePart<'_>) -> NameForm
    ensures { result ≡ form_of (name_seen name.entry) }
{
    match name {
        NamePart::Inline(_) => NameForm::Inlined,
        NamePart::Id(_) => NameForm::Identified,
    }
}

// Appends what follows the type byte of a prefix.
fn put_prefix(form: PrefixForm, prefix: &str, out: &mut Vec<u8>) -> Result<(), Memory>
    requires { IsTrue (is_short prefix.now) }
    ensures { Puts result out.old.items out.new.items (spec.prefix_bytes form prefix.now) }
{
    match form {
        PrefixForm::Prefixed => put_string(prefix, out),
        _ => Ok(()),
    }
}

// Appends a name.
fn put_name(name: NamePart<'_>, out: &mut Vec<u8>) -> Result<(), Memory>
    requires { IsTrue (fits_name (name_seen name)) }
    ensures { Puts result out.old.items out.new.items (spec.name_bytes (name_seen name.entry)) }
{
    match name {
        NamePart::Inline(text) => put_raw_string(text, out),
        NamePart::Id(id) => put_integer(id, out),
    }
}

// Appends a type byte, what follows it of a prefix, and a name.
fn put_named(
    kind: RecordKind,
    form: PrefixForm,
    prefix: &str,
    name: NamePart<'_>,
    out: &mut Vec<u8>,
) -> Result<(), Memory>
    requires known { IsTrue (is_kind kind) }
    requires names { IsTrue (fit_names prefix.now (name_seen name)) }
    ensures { Puts result out.old.items out.new.items
        (byte_of kind ∷ spec.named_bytes form prefix.now (name_seen name.entry)) }
{
    put_kind(kind, out)?;
    put_prefix(form, prefix, out)?;
    put_name(name, out)
}

/// Appends the record of MC-NBFX that begins an element, from ShortElement to PrefixElementZ: its
/// type byte, its prefix and its name. The empty prefix means none. Without memory it fails, and
/// first bytes of them may stand in `out`.
pub fn put_element(prefix: &str, name: NamePart<'_>, out: &mut Vec<u8>) -> Result<(), Memory>
    requires { IsTrue (fit_names prefix.now (name_seen name)) }
    ensures { Puts result out.old.items out.new.items
        (spec.element_bytes prefix.now (name_seen name.entry)) }
{
    let form = prefix_form(prefix);
    let kind = RecordKind::Element(form, name_form(name));
    put_named(kind, form, prefix, name, out)
}

/// Appends the record of MC-NBFX that declares a namespace, from ShortXmlnsAttribute to
/// DictionaryXmlnsAttribute: its type byte, the prefix and the URI. The empty prefix means none.
/// Without memory it fails, and first bytes of them may stand in `out`.
pub fn put_declaration(prefix: &str, uri: NamePart<'_>, out: &mut Vec<u8>) -> Result<(), Memory>
    requires { IsTrue (fit_names prefix.now (name_seen uri)) }
    ensures { Puts result out.old.items out.new.items
        (spec.declaration_bytes prefix.now (name_seen uri.entry)) }
{
    let form = declared_form(prefix);
    let kind = RecordKind::Declaration(form, name_form(uri));
    put_named(kind, form, prefix, uri, out)
}

/// Appends what a record of MC-NBFX, from ShortAttribute to PrefixAttributeZ, has before its value:
/// its type byte, its prefix and its name. The empty prefix means none. The value has to follow,
/// which ends no element. Without memory it fails, and first bytes of them may stand in `out`.
pub fn put_attribute_start(
    prefix: &str,
    name: NamePart<'_>,
    out: &mut Vec<u8>,
) -> Result<(), Memory>
    requires { IsTrue (fit_names prefix.now (name_seen name)) }
    ensures { Puts result out.old.items out.new.items
        (spec.attribute_start prefix.now (name_seen name.entry)) }
{
    let form = prefix_form(prefix);
    let kind = RecordKind::Attribute(form, name_form(name));
    put_named(kind, form, prefix, name, out)
}

/// Appends a Comment record of MC-NBFX. Without memory it fails, and first bytes of the record may
/// stand in `out`.
pub fn put_comment(text: &str, out: &mut Vec<u8>) -> Result<(), Memory>
    requires { IsTrue (is_short text.now) }
    ensures { Puts result out.old.items out.new.items (spec.comment_bytes text.now) }
{
    put_kind(RecordKind::Comment, out)?;
    put_string(text, out)
}

/// Appends an EndElement record of MC-NBFX. Without memory it fails, and `out` is as before.
pub fn put_end_element(out: &mut Vec<u8>) -> Result<(), Memory>
    ensures { Puts result out.old.items out.new.items spec.end_bytes }
{
    put_kind(RecordKind::EndElement, out)
}

/// Appends the type byte of an Array record of MC-NBFX. Its element, that one's declarations and
/// attributes, and its values have to follow. Without memory it fails, and `out` is as before.
pub fn put_array_start(out: &mut Vec<u8>) -> Result<(), Memory>
    ensures { Puts result out.old.items out.new.items spec.array_start }
{
    put_kind(RecordKind::Array, out)
}

// Appends a value of an array.
fn put_cell(kind: ArrayKind, value: &Scalar, out: &mut Vec<u8>) -> Result<(), Memory>
    requires { IsTrue (fits_kind kind value.now) }
    ensures { Puts result out.old.items out.new.items (spec.cell_bytes kind value.now) }
{
    match (kind, value) {
        (ArrayKind::Bool, Scalar::Truth(truth)) => put_byte(*truth as u8, out),
        (ArrayKind::Int16, Scalar::Number(n)) => put_bytes(&(*n as i16).to_le_bytes(), out),
        (ArrayKind::Int32, Scalar::Number(n)) => put_bytes(&(*n as i32).to_le_bytes(), out),
        (ArrayKind::Int64, Scalar::Number(n)) => put_bytes(&(*n as i64).to_le_bytes(), out),
        (ArrayKind::Float, Scalar::Float(bits)) => put_bytes(&bits.to_le_bytes(), out),
        (ArrayKind::Double, Scalar::Double(bits)) => put_bytes(&bits.to_le_bytes(), out),
        (ArrayKind::Decimal, Scalar::Decimal(decimal)) => put_decimal(decimal, out),
        (ArrayKind::DateTime, Scalar::DateTime(pattern)) => put_bytes(&pattern.to_le_bytes(), out),
        (ArrayKind::TimeSpan, Scalar::TimeSpan(span)) => put_bytes(&span.to_le_bytes(), out),
        (ArrayKind::Uuid, Scalar::Uuid(identifier)) => put_bytes(identifier, out),
        _ => unreachable!(),
    }
}

// Appends the values of an array, one after the other.
fn put_cells(kind: ArrayKind, values: &[Scalar], out: &mut Vec<u8>) -> Result<(), Memory>
    requires { IsTrue (list_all (fits_kind kind) values.now) }
    ensures { Puts result out.old.items out.new.items (flat_map (spec.cell_bytes kind) values.now) }
{
    for value in values {
        put_cell(kind, value, out)?;
    }
    Ok(())
}

/// Appends the rest of an Array record of MC-NBFX: the end of its attributes, the type byte of its
/// values, their number and the values. Without memory it fails, and first bytes of them may stand
/// in `out`.
pub fn put_array_values(kind: ArrayKind, values: &[Scalar], out: &mut Vec<u8>) -> Result<(), Memory>
    requires valid { IsTrue (list_all (fits_kind kind) values.now) }
    requires fits { length values.now < 2 ^ 31 }
    ensures { Puts result out.old.items out.new.items (spec.array_values_bytes kind values.now) }
{
    put_end_element(out)?;
    put_kind(RecordKind::Text(text_kind_in(kind), true), out)?;
    put_integer(values.len() as u32, out)?;
    put_cells(kind, values, out)
}
