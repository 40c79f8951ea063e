//! Attributes and declarations, as slices of a record's bytes.

ghost use Rattle.std.specs.Prelude.{◌≤◌, IfOk, length};
ghost use Rattle.nbfx_records.specs.Asked as asked;
ghost use Rattle.nbfx_records.specs.Cursor.{OnMore, Tells};
ghost use Rattle.nbfx_records.specs.Resuming.{Fits, KeepsAttribute, KeepsText, KeepsTextOf, KeepsValue};
ghost use Rattle.nbfx_records.specs.Shapes as spec;
ghost use Rattle.nbfx_records.specs.Views.{HoldsLists, IsSoundAttribute, attribute_seen, value_seen};

use crate::cursor::{Stop, byte_at, fault};
use crate::kinds::{NameForm, PrefixForm, RecordKind, TextKind};
use crate::lists::{ListHolder, list_at};
use crate::nodes::RecordFault;
use crate::parts::{NamePart, PrefixPart, ScalarPart, name_at, prefix_at, scalar_at};
use crate::resume::Resume;
use crate::type_bytes::record_kind;

/// The value of a text or of an attribute.
#[derive(Clone, Copy, Debug)]
pub enum ValuePart<'a> {
    /// One value.
    One(ScalarPart<'a>),
    /// A list: the bytes after its type byte, with those of its end.
    List(&'a [u8]),
}

/// An attribute or a declaration.
#[derive(Clone, Copy, Debug)]
pub enum AttributePart<'a> {
    /// An attribute with its value.
    Attribute {
        prefix: PrefixPart<'a>,
        name: NamePart<'a>,
        value: ValuePart<'a>,
    },
    /// The declaration of a prefix.
    Declaration {
        prefix: PrefixPart<'a>,
        uri: NamePart<'a>,
    },
}

// What follows the type byte of a text that is an attribute's value.
#[inline(always)]
fn text_value<'a>(
    kind: TextKind,
    ends: bool,
    bytes: &'a [u8],
    at: usize,
    resume: &mut Resume,
) -> Result<(ValuePart<'a>, usize), Stop>
    requires within { at ≤ length bytes.now }
    requires fits { Fits resume.old bytes.now }
    ensures tells { Tells value_seen (spec.text_value kind ends)
        (asked.text_value kind ends) bytes.now at result }
    ensures list { IfOk result (λ read. HoldsLists read.0) }
    ensures kept { OnMore result (KeepsText kind at resume.new bytes.now) }
    ensures fits { Fits resume.new bytes.now }
{
    if ends {
        return fault(RecordFault::OutOfPlace, at);
    }
    match kind {
        TextKind::StartList => {
            let (list, at) = list_at(ListHolder::Attribute, bytes, at, resume)?;
            Ok((ValuePart::List(list.bytes), at))
        }
        _ => {
            let (scalar, at) = scalar_at(kind, bytes, at)?;
            Ok((ValuePart::One(scalar), at))
        }
    }
}

// What follows the type byte of an attribute's value.
#[inline(always)]
fn value_of_kind<'a>(
    kind: Option<RecordKind>,
    bytes: &'a [u8],
    at: usize,
    resume: &mut Resume,
) -> Result<(ValuePart<'a>, usize), Stop>
    requires within { at ≤ length bytes.now }
    requires fits { Fits resume.old bytes.now }
    ensures tells { Tells value_seen (spec.value_of_kind kind)
        (asked.value_of_kind kind) bytes.now at result }
    ensures list { IfOk result (λ read. HoldsLists read.0) }
    ensures kept { OnMore result (KeepsTextOf kind at resume.new bytes.now) }
    ensures fits { Fits resume.new bytes.now }
{
    match kind {
        None => fault(RecordFault::UnknownNode, at),
        Some(RecordKind::Text(kind, ends)) => text_value(kind, ends, bytes, at, resume),
        Some(_) => fault(RecordFault::OutOfPlace, at),
    }
}

// The value of an attribute, with its type byte.
#[inline(always)]
fn value_at<'a>(
    bytes: &'a [u8],
    at: usize,
    resume: &mut Resume,
) -> Result<(ValuePart<'a>, usize), Stop>
    requires within { at ≤ length bytes.now }
    requires fits { Fits resume.old bytes.now }
    ensures tells { Tells value_seen spec.value_at
        asked.value_at bytes.now at result }
    ensures list { IfOk result (λ read. HoldsLists read.0) }
    ensures kept { OnMore result (KeepsValue at resume.new bytes.now) }
    ensures fits { Fits resume.new bytes.now }
{
    let (byte, at) = byte_at(bytes, at)?;
    value_of_kind(record_kind(byte), bytes, at, resume)
}

/// Reads what follows the type byte of an attribute whose prefix and name have these forms.
#[inline(always)]
pub fn attribute_at<'a>(
    prefix: PrefixForm,
    name: NameForm,
    bytes: &'a [u8],
    at: usize,
    resume: &mut Resume,
) -> Result<(AttributePart<'a>, usize), Stop>
    requires within { at ≤ length bytes.now }
    requires fits { Fits resume.old bytes.now }
    ensures tells { Tells attribute_seen (spec.attribute_at prefix name)
        (asked.attribute_at prefix name) bytes.now at result }
    ensures sound { IfOk result (λ read. IsSoundAttribute read.0) }
    ensures kept { OnMore result (KeepsAttribute prefix name at resume.new bytes.now) }
    ensures fits { Fits resume.new bytes.now }
{
    let (prefix, at) = prefix_at(prefix, bytes, at)?;
    let (name, at) = name_at(name, bytes, at)?;
    let (value, at) = value_at(bytes, at, resume)?;
    Ok((
        AttributePart::Attribute {
            prefix,
            name,
            value,
        },
        at,
    ))
}

/// Reads what follows the type byte of a declaration whose prefix and URI have these forms.
#[inline(always)]
pub fn declaration_at(
    prefix: PrefixForm,
    uri: NameForm,
    bytes: &[u8],
    at: usize,
) -> Result<(AttributePart<'_>, usize), Stop>
    requires { at ≤ length bytes.now }
    ensures tells { Tells attribute_seen (spec.declaration_at prefix uri)
        (asked.declaration_at prefix uri) bytes.now at result }
    ensures sound { IfOk result (λ read. IsSoundAttribute read.0) }
{
    let (prefix, at) = prefix_at(prefix, bytes, at)?;
    let (uri, at) = name_at(uri, bytes, at)?;
    Ok((AttributePart::Declaration { prefix, uri }, at))
}
