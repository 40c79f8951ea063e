//! The structure of a complete record, as slices of its bytes: no text and no value is judged.

ghost use Rattle.std.specs.Prelude.{◌≡◌, ◌≤◌, IfOk, length};
ghost use Rattle.nbfx_records.specs.Asked as asked;
ghost use Rattle.nbfx_records.specs.Cursor.{OnMore, Tells};
ghost use Rattle.nbfx_records.specs.Resuming.{Fits, KeepsAny, KeepsOf, KeepsWhole};
ghost use Rattle.nbfx_records.specs.Shapes as spec;
ghost use Rattle.nbfx_records.specs.Views.{IsSoundRecord, record_seen};

use crate::arrays::{ArrayPart, array_at};
use crate::attributes::{AttributePart, ValuePart, attribute_at, declaration_at};
use crate::cursor::{Stop, byte_at, fault, string_at};
use crate::kinds::{NameForm, PrefixForm, RecordKind, TextKind};
use crate::lists::{ListHolder, list_at};
use crate::nodes::{NodePlace, RecordFault};
use crate::parts::{NamedPart, element_at, scalar_at};
use crate::resume::Resume;
use crate::type_bytes::record_kind;

/// A record of MC-NBFX, by its parts.
#[derive(Clone, Copy, Debug)]
pub enum RecordPart<'a> {
    /// EndElement.
    EndElement,
    /// Comment, by the bytes of its text.
    Comment(&'a [u8]),
    /// An element's start.
    Element(NamedPart<'a>),
    /// An attribute or a declaration.
    Attribute(AttributePart<'a>),
    /// A text, and whether the element that holds it ends with it.
    Text(ValuePart<'a>, bool),
    /// Array.
    Array(ArrayPart<'a>),
}

// What follows the type byte of a list that is a text.
#[inline(always)]
fn list_record<'a>(
    ends: bool,
    bytes: &'a [u8],
    at: usize,
    resume: &mut Resume,
) -> Result<(RecordPart<'a>, usize), Stop>
    requires within { at ≤ length bytes.now }
    requires fits { Fits resume.old bytes.now }
    ensures tells { Tells record_seen (spec.content_at TextKind.StartList ends)
        (asked.content_at TextKind.StartList ends) bytes.now at result }
    ensures sound { IfOk result (λ read. IsSoundRecord read.0) }
    ensures kept { OnMore result (KeepsOf (RecordKind.Text TextKind.StartList ends) at
        resume.new bytes.now) }
    ensures fits { Fits resume.new bytes.now }
{
    let (list, at) = list_at(ListHolder::Text, bytes, at, resume)?;
    Ok((
        RecordPart::Text(ValuePart::List(list.bytes), list.closes),
        at,
    ))
}

// What follows the type byte of a text.
#[inline(always)]
fn content_at<'a>(
    kind: TextKind,
    ends: bool,
    bytes: &'a [u8],
    at: usize,
    resume: &mut Resume,
) -> Result<(RecordPart<'a>, usize), Stop>
    requires within { at ≤ length bytes.now }
    requires fits { Fits resume.old bytes.now }
    ensures tells { Tells record_seen (spec.content_at kind ends)
        (asked.content_at kind ends) bytes.now at result }
    ensures sound { IfOk result (λ read. IsSoundRecord read.0) }
    ensures kept { OnMore result (KeepsOf (RecordKind.Text kind ends) at resume.new bytes.now) }
    ensures fits { Fits resume.new bytes.now }
{
    match kind {
        TextKind::StartList => list_record(ends, bytes, at, resume),
        _ => {
            let (scalar, at) = scalar_at(kind, bytes, at)?;
            Ok((RecordPart::Text(ValuePart::One(scalar), ends), at))
        }
    }
}

// What follows the type byte of a comment.
#[inline(always)]
#[tactic(auto, unfolding(crate::specs::Shapes::record_at))]
fn comment_record(bytes: &[u8], at: usize) -> Result<(RecordPart<'_>, usize), Stop>
    requires { at ≤ length bytes.now }
    ensures tells { Tells record_seen (spec.record_at RecordKind.Comment)
        (asked.record_at RecordKind.Comment) bytes.now at result }
    ensures sound { IfOk result (λ read. IsSoundRecord read.0) }
{
    let (text, at) = string_at(bytes, at)?;
    Ok((RecordPart::Comment(text), at))
}

// What follows the type byte of an array.
#[inline(always)]
#[tactic(auto, unfolding(crate::specs::Shapes::record_at))]
fn array_record<'a>(
    bytes: &'a [u8],
    at: usize,
    resume: &mut Resume,
) -> Result<(RecordPart<'a>, usize), Stop>
    requires within { at ≤ length bytes.now }
    requires fits { Fits resume.old bytes.now }
    ensures tells { Tells record_seen (spec.record_at RecordKind.Array)
        (asked.record_at RecordKind.Array) bytes.now at result }
    ensures sound { IfOk result (λ read. IsSoundRecord read.0) }
    ensures kept { OnMore result (KeepsOf RecordKind.Array at resume.new bytes.now) }
    ensures fits { Fits resume.new bytes.now }
{
    let (array, at) = array_at(bytes, at, resume)?;
    Ok((RecordPart::Array(array), at))
}

// What follows the type byte of an attribute.
#[inline(always)]
#[tactic(auto, unfolding(crate::specs::Shapes::record_at))]
fn attribute_record<'a>(
    prefix: PrefixForm,
    name: NameForm,
    bytes: &'a [u8],
    at: usize,
    resume: &mut Resume,
) -> Result<(RecordPart<'a>, usize), Stop>
    requires within { at ≤ length bytes.now }
    requires fits { Fits resume.old bytes.now }
    ensures tells { Tells record_seen (spec.record_at (RecordKind.Attribute prefix name))
        (asked.record_at (RecordKind.Attribute prefix name)) bytes.now at result }
    ensures sound { IfOk result (λ read. IsSoundRecord read.0) }
    ensures kept { OnMore result (KeepsOf (RecordKind.Attribute prefix name) at
        resume.new bytes.now) }
    ensures fits { Fits resume.new bytes.now }
{
    let (attribute, at) = attribute_at(prefix, name, bytes, at, resume)?;
    Ok((RecordPart::Attribute(attribute), at))
}

// What follows the type byte of a declaration.
#[inline(always)]
#[tactic(auto, unfolding(crate::specs::Shapes::record_at))]
fn declaration_record(
    prefix: PrefixForm,
    uri: NameForm,
    bytes: &[u8],
    at: usize,
) -> Result<(RecordPart<'_>, usize), Stop>
    requires { at ≤ length bytes.now }
    ensures tells { Tells record_seen (spec.record_at (RecordKind.Declaration prefix uri))
        (asked.record_at (RecordKind.Declaration prefix uri)) bytes.now at result }
    ensures sound { IfOk result (λ read. IsSoundRecord read.0) }
{
    let (declaration, at) = declaration_at(prefix, uri, bytes, at)?;
    Ok((RecordPart::Attribute(declaration), at))
}

// What follows the type byte of an element.
#[inline(always)]
#[tactic(auto, unfolding(crate::specs::Shapes::record_at))]
fn element_record(
    prefix: PrefixForm,
    name: NameForm,
    bytes: &[u8],
    at: usize,
) -> Result<(RecordPart<'_>, usize), Stop>
    requires { at ≤ length bytes.now }
    ensures tells { Tells record_seen (spec.record_at (RecordKind.Element prefix name))
        (asked.record_at (RecordKind.Element prefix name)) bytes.now at result }
    ensures sound { IfOk result (λ read. IsSoundRecord read.0) }
{
    let (element, at) = element_at(prefix, name, bytes, at)?;
    Ok((RecordPart::Element(element), at))
}

// What follows the type byte of a record.
#[inline(always)]
#[tactic(auto, unfolding(crate::specs::Shapes::record_at))]
fn record_at<'a>(
    kind: RecordKind,
    bytes: &'a [u8],
    at: usize,
    resume: &mut Resume,
) -> Result<(RecordPart<'a>, usize), Stop>
    requires within { at ≤ length bytes.now }
    requires fits { Fits resume.old bytes.now }
    ensures tells { Tells record_seen (spec.record_at kind)
        (asked.record_at kind) bytes.now at result }
    ensures sound { IfOk result (λ read. IsSoundRecord read.0) }
    ensures kept { OnMore result (KeepsOf kind at resume.new bytes.now) }
    ensures fits { Fits resume.new bytes.now }
{
    match kind {
        RecordKind::EndElement => Ok((RecordPart::EndElement, at)),
        RecordKind::Comment => comment_record(bytes, at),
        RecordKind::Array => array_record(bytes, at, resume),
        RecordKind::Attribute(prefix, name) => attribute_record(prefix, name, bytes, at, resume),
        RecordKind::Declaration(prefix, uri) => declaration_record(prefix, uri, bytes, at),
        RecordKind::Element(prefix, name) => element_record(prefix, name, bytes, at),
        RecordKind::Text(kind, ends) => content_at(kind, ends, bytes, at, resume),
    }
}

// Why a record may not come within the root: an attribute or a declaration that doesn't follow an
// element's start, the end of a list, or one element more than may be open.
fn misplaced_within(attributes: bool, deeper: bool, kind: RecordKind) -> Option<RecordFault>
    ensures { result ≡ spec.misplaced (NodePlace.Within attributes deeper) kind }
{
    match kind {
        RecordKind::Attribute(_, _) | RecordKind::Declaration(_, _) if !attributes => {
            Some(RecordFault::OutOfPlace)
        }
        RecordKind::Text(TextKind::EndList, _) => Some(RecordFault::OutOfPlace),
        RecordKind::Element(_, _) | RecordKind::Array if !deeper => Some(RecordFault::TooDeep),
        _ => None,
    }
}

// Why a record may not come at a place, by its kind.
#[inline(always)]
pub(crate) fn misplaced(place: NodePlace, kind: RecordKind) -> Option<RecordFault>
    ensures { result ≡ spec.misplaced place kind }
{
    match place {
        NodePlace::BeforeRoot => match kind {
            RecordKind::Element(_, _) => None,
            _ => Some(RecordFault::OutOfPlace),
        },
        NodePlace::Within { attributes, deeper } => misplaced_within(attributes, deeper, kind),
        NodePlace::AfterRoot => Some(RecordFault::TrailingBytes),
    }
}

// What follows a type byte, if the record may come that it begins.
#[inline(always)]
fn placed<'a>(
    place: NodePlace,
    kind: Option<RecordKind>,
    bytes: &'a [u8],
    at: usize,
    resume: &mut Resume,
) -> Result<(RecordPart<'a>, usize), Stop>
    requires within { at ≤ length bytes.now }
    requires fits { Fits resume.old bytes.now }
    ensures tells { Tells record_seen (spec.placed place kind)
        (asked.placed place kind) bytes.now at result }
    ensures sound { IfOk result (λ read. IsSoundRecord read.0) }
    ensures kept { OnMore result (KeepsAny kind at resume.new bytes.now) }
    ensures fits { Fits resume.new bytes.now }
{
    if place == NodePlace::AfterRoot {
        return fault(RecordFault::TrailingBytes, at);
    }
    let Some(kind) = kind else {
        return fault(RecordFault::UnknownNode, at);
    };
    match misplaced(place, kind) {
        Some(wrong) => fault(wrong, at),
        None => record_at(kind, bytes, at, resume),
    }
}

// The record at the front of the bytes, if it may come at this place. How far an incomplete one was
// scanned is noted in `resume`.
#[inline(always)]
pub(crate) fn shape_at<'a>(
    place: NodePlace,
    bytes: &'a [u8],
    resume: &mut Resume,
) -> Result<(RecordPart<'a>, usize), Stop>
    requires { Fits resume.old bytes.now }
    ensures tells { Tells record_seen (spec.shape_at place)
        (asked.shape_at place) bytes.now 0 result }
    ensures sound { IfOk result (λ read. IsSoundRecord read.0) }
    ensures kept { OnMore result (KeepsWhole resume.new bytes.now) }
    ensures fits { Fits resume.new bytes.now }
{
    let (byte, at) = byte_at(bytes, 0)?;
    placed(place, record_kind(byte), bytes, at, resume)
}

/// The parts of the record of MC-NBFX at the front of the bytes, if it may stand at this place, and
/// how many bytes it has. Its texts aren't judged. It fails where the bytes end within it, with how
/// many are wanted at least, or where it is wrong, with the fault.
#[inline(always)]
pub fn parts_at(place: NodePlace, bytes: &[u8]) -> Result<(RecordPart<'_>, usize), Stop>
    ensures tells { Tells record_seen (spec.shape_at place)
        (asked.shape_at place) bytes.now 0 result }
    ensures sound { IfOk result (λ read. IsSoundRecord read.0) }
{
    shape_at(place, bytes, &mut Resume::new())
}
