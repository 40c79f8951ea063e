//! Prefixes, names and single values, as slices of a record's bytes.

ghost use Rattle.std.specs.Prelude.{◌≡◌, ◌^◌, ◌<◌, ◌≤◌, IfOk, IfSome, length};
ghost use Rattle.std.specs.Int.{byte_len};
ghost use Rattle.nbfx_records.specs.Asked as asked;
ghost use Rattle.nbfx_records.specs.Cursor.{Tells};
ghost use Rattle.nbfx_records.specs.Shapes as spec;
ghost use Rattle.nbfx_records.specs.Views.{name_seen, named_seen, prefix_seen, scalar_seen};

use crate::cursor::{Stop, byte_at, bytes_at, integer_at, string_at};
use crate::kinds::{Body, LengthForm, NameForm, PrefixForm, TextKind};
use crate::nodes::RecordFault;
use crate::type_bytes::body;

/// A prefix.
#[derive(Clone, Copy, Debug)]
pub enum PrefixPart<'a> {
    /// One letter, in ASCII.
    Letter(u8),
    /// The bytes of a String.
    Text(&'a [u8]),
}

/// A name or a URI.
#[derive(Clone, Copy, Debug)]
pub enum NamePart<'a> {
    /// The bytes of a String.
    Inline(&'a [u8]),
    /// An identifier.
    Id(u32),
}

/// The prefix and the name of an element.
#[derive(Clone, Copy, Debug)]
pub struct NamedPart<'a> {
    /// Its prefix.
    pub prefix: PrefixPart<'a>,
    /// Its local name.
    pub name: NamePart<'a>,
}

/// One value.
#[derive(Clone, Copy, Debug)]
pub enum ScalarPart<'a> {
    /// The bytes of a value of this kind.
    Bytes(TextKind, &'a [u8]),
    /// The identifier of a text.
    Named(u32),
    /// A QName: the byte of its letter, which isn't judged, and the identifier of its local name.
    Qualified(u8, u32),
}

/// Reads a prefix in this form.
#[inline(always)]
pub fn prefix_at(form: PrefixForm, bytes: &[u8], at: usize) -> Result<(PrefixPart<'_>, usize), Stop>
    requires { at ≤ length bytes.now }
    ensures { Tells prefix_seen (spec.prefix_at form) (asked.prefix_at form) bytes.now at result }
{
    match form {
        PrefixForm::Unprefixed => Ok((PrefixPart::Text(&[]), at)),
        PrefixForm::Lettered(letter) => Ok((PrefixPart::Letter(letter), at)),
        PrefixForm::Prefixed => {
            let (text, at) = string_at(bytes, at)?;
            Ok((PrefixPart::Text(text), at))
        }
    }
}

/// Reads a name in this form.
#[inline(always)]
pub fn name_at(form: NameForm, bytes: &[u8], at: usize) -> Result<(NamePart<'_>, usize), Stop>
    requires { at ≤ length bytes.now }
    ensures { Tells name_seen (spec.name_at form) (asked.name_at form) bytes.now at result }
{
    match form {
        NameForm::Inlined => {
            let (text, at) = string_at(bytes, at)?;
            Ok((NamePart::Inline(text), at))
        }
        NameForm::Identified => {
            let (id, at) = integer_at(bytes, at)?;
            Ok((NamePart::Id(id), at))
        }
    }
}

/// Reads what follows the type byte of an element whose prefix and name have these forms.
#[inline(always)]
pub fn element_at(
    prefix: PrefixForm,
    name: NameForm,
    bytes: &[u8],
    at: usize,
) -> Result<(NamedPart<'_>, usize), Stop>
    requires { at ≤ length bytes.now }
    ensures { Tells named_seen (spec.element_at prefix name)
        (asked.element_at prefix name) bytes.now at result }
{
    let (prefix, at) = prefix_at(prefix, bytes, at)?;
    let (name, at) = name_at(name, bytes, at)?;
    Ok((NamedPart { prefix, name }, at))
}

// How many bytes a length has.
fn length_width(form: LengthForm) -> usize
    ensures { result ≡ byte_len (spec.width_in form) }
{
    match form {
        LengthForm::OneByte => 1,
        LengthForm::TwoBytes => 2,
        LengthForm::FourBytes => 4,
    }
}

// The length that these bytes say, where it isn't negative.
fn length_said(form: LengthForm, said: &[u8]) -> Option<usize>
    requires { length said.now ≡ byte_len (spec.width_in form) }
    ensures said { result ≡ spec.said_length form said.now }
    ensures small { IfSome result (λ n. n < 2 ^ 31) }
{
    match form {
        LengthForm::OneByte => Some(said[0] as usize),
        LengthForm::TwoBytes => Some(u16::from_le_bytes([said[0], said[1]]) as usize),
        LengthForm::FourBytes => {
            let count = u32::from_le_bytes([said[0], said[1], said[2], said[3]]);
            if count < 1 << 31 {
                Some(count as usize)
            } else {
                None
            }
        }
    }
}

/// Reads a length in this form.
#[inline(always)]
pub fn length_at(form: LengthForm, bytes: &[u8], at: usize) -> Result<(usize, usize), Stop>
    requires { at ≤ length bytes.now }
    ensures tells { Tells (λ n. n) (spec.a_length form)
        (asked.a_length form) bytes.now at result }
    ensures small { IfOk result (λ read. read.0 < 2 ^ 31) }
{
    let (said, to) = bytes_at(bytes, at, length_width(form))?;
    match length_said(form, said) {
        Some(count) => Ok((count, to)),
        None => Err(Stop::Fault {
            fault: RecordFault::BadInt,
            shown_by: to,
        }),
    }
}

// A length, and as many bytes as it says.
#[inline(always)]
fn counted_at(form: LengthForm, bytes: &[u8], at: usize) -> Result<(&[u8], usize), Stop>
    requires { at ≤ length bytes.now }
    ensures { Tells (λ part. part.now) (spec.counted_bytes form)
        (asked.counted_bytes form) bytes.now at result }
{
    let (count, at) = length_at(form, bytes, at)?;
    bytes_at(bytes, at, count)
}

// The letter and the identifier of a QName.
fn qualified_at(bytes: &[u8], at: usize) -> Result<(ScalarPart<'_>, usize), Stop>
    requires { at ≤ length bytes.now }
    ensures { Tells scalar_seen spec.a_qualified asked.a_qualified bytes.now at result }
{
    let (letter, at) = byte_at(bytes, at)?;
    let (id, at) = integer_at(bytes, at)?;
    Ok((ScalarPart::Qualified(letter, id), at))
}

/// Reads what follows the type byte of a text of this kind, which is no list.
#[inline(always)]
pub fn scalar_at(kind: TextKind, bytes: &[u8], at: usize) -> Result<(ScalarPart<'_>, usize), Stop>
    requires { at ≤ length bytes.now }
    ensures { Tells scalar_seen (spec.scalar_at kind) (asked.scalar_at kind) bytes.now at result }
{
    match body(kind) {
        Body::Fixed(count) => {
            let (part, at) = bytes_at(bytes, at, count as usize)?;
            Ok((ScalarPart::Bytes(kind, part), at))
        }
        Body::Counted(form) => {
            let (part, at) = counted_at(form, bytes, at)?;
            Ok((ScalarPart::Bytes(kind, part), at))
        }
        Body::Named => {
            let (id, at) = integer_at(bytes, at)?;
            Ok((ScalarPart::Named(id), at))
        }
        Body::Qualified => qualified_at(bytes, at),
        Body::Listed | Body::Ending => Err(Stop::Fault {
            fault: RecordFault::OutOfPlace,
            shown_by: at,
        }),
    }
}
