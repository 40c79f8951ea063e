//! Arrays, as slices of a record's bytes: an element, its attributes, and values of one kind.

ghost use Rattle.std.specs.Prelude.{◌≡◌, ◌*◌, ◌<◌, ◌≤◌, ◌^◌, IfOk, length};
ghost use Rattle.nbfx_records.specs.Asked as asked;
ghost use Rattle.nbfx_records.specs.Cursor.{OnMore, Tells};
ghost use Rattle.nbfx_records.specs.Resuming.{Fits, KeepsArray, KeepsParts};
ghost use Rattle.nbfx_records.specs.Kinds.{width_of};
ghost use Rattle.nbfx_records.specs.Shapes as spec;
ghost use Rattle.nbfx_records.specs.Views.{AreParts, AreSized, IsSoundTurn, array_seen, array_turn_seen, cells_seen, named_seen, parts_seen};

use crate::attributes::{AttributePart, attribute_at, declaration_at};
use crate::cursor::{Stop, byte_at, bytes_at, fault, integer_at};
use crate::kinds::RecordKind;
use crate::nodes::RecordFault;
use crate::parts::{NamedPart, element_at};
use crate::resume::Resume;
use crate::type_bytes::{array_kind, record_kind, width};
use nbfx_values::ArrayKind;

/// What comes next after an array's element.
#[derive(Clone, Copy, Debug)]
pub enum ArrayTurn<'a> {
    /// An attribute or a declaration of the element.
    Part(AttributePart<'a>),
    /// The end of these.
    End,
}

/// The values of an array, which stand without type bytes.
#[derive(Clone, Copy, Debug)]
pub struct CellsPart<'a> {
    /// What they all are.
    pub kind: ArrayKind,
    /// How many there are.
    pub count: usize,
    /// Their bytes.
    pub bytes: &'a [u8],
}

/// An Array record of MC-NBFX after its type byte.
#[derive(Clone, Copy, Debug)]
pub struct ArrayPart<'a> {
    /// Its element, after that one's type byte.
    pub element: NamedPart<'a>,
    /// The bytes of the element's attributes and declarations, with that of their end.
    pub attributes: &'a [u8],
    /// Its values.
    pub cells: CellsPart<'a>,
}

// What follows a type byte between an array's element and its values.
fn array_part<'a>(
    kind: Option<RecordKind>,
    bytes: &'a [u8],
    at: usize,
    resume: &mut Resume,
) -> Result<(ArrayTurn<'a>, usize), Stop>
    requires within { at ≤ length bytes.now }
    requires fits { Fits resume.old bytes.now }
    ensures tells { Tells array_turn_seen (spec.array_part kind)
        (asked.array_part kind) bytes.now at result }
    ensures sound { IfOk result (λ read. IsSoundTurn read.0) }
    ensures fits { Fits resume.new bytes.now }
{
    match kind {
        None => fault(RecordFault::UnknownNode, at),
        Some(RecordKind::Attribute(prefix, name)) => {
            let (part, at) = attribute_at(prefix, name, bytes, at, resume)?;
            Ok((ArrayTurn::Part(part), at))
        }
        Some(RecordKind::Declaration(prefix, uri)) => {
            let (part, at) = declaration_at(prefix, uri, bytes, at)?;
            Ok((ArrayTurn::Part(part), at))
        }
        Some(RecordKind::EndElement) => Ok((ArrayTurn::End, at)),
        Some(_) => fault(RecordFault::BadArray, at),
    }
}

/// Reads an attribute or a declaration of an array's element, or the end of these, from its type
/// byte on.
pub fn array_turn_at<'a>(
    bytes: &'a [u8],
    at: usize,
    resume: &mut Resume,
) -> Result<(ArrayTurn<'a>, usize), Stop>
    requires within { at ≤ length bytes.now }
    requires fits { Fits resume.old bytes.now }
    ensures tells { Tells array_turn_seen spec.array_turn
        asked.array_turn bytes.now at result }
    ensures sound { IfOk result (λ read. IsSoundTurn read.0) }
    ensures fits { Fits resume.new bytes.now }
{
    let (byte, at) = byte_at(bytes, at)?;
    array_part(record_kind(byte), bytes, at, resume)
}

// The attributes and declarations of an array's element: their bytes, with that of their end. How
// far they were scanned is noted in `resume`.
fn parts_at<'a>(
    bytes: &'a [u8],
    from: usize,
    resume: &mut Resume,
) -> Result<(&'a [u8], usize), Stop>
    requires within { from ≤ length bytes.now }
    requires fits { Fits resume.old bytes.now }
    ensures tells { Tells parts_seen spec.array_parts
        asked.array_parts bytes.now from result }
    ensures parts { IfOk result (λ read. AreParts read.0.now) }
    ensures kept { OnMore result (KeepsParts from resume.new bytes.now) }
    ensures fits { Fits resume.new bytes.now }
{
    let mut at = resume.parts_go_on(from);
    'parts: loop {
        match array_turn_at(bytes, at, resume) {
            Ok((ArrayTurn::Part(_), to)) => at = to,
            Ok((ArrayTurn::End, to)) => return Ok((&bytes[from..to], to)),
            Err(stop) => {
                resume.keep_parts(from, at);
                return Err(stop);
            }
        }
    }
}

// The element that an array repeats.
fn element_of(
    kind: Option<RecordKind>,
    bytes: &[u8],
    at: usize,
) -> Result<(NamedPart<'_>, usize), Stop>
    requires { at ≤ length bytes.now }
    ensures { Tells named_seen (spec.element_of kind) (asked.element_of kind) bytes.now at result }
{
    match kind {
        None => fault(RecordFault::UnknownNode, at),
        Some(RecordKind::Element(prefix, name)) => element_at(prefix, name, bytes, at),
        Some(_) => fault(RecordFault::BadArray, at),
    }
}

// The same with its type byte.
fn array_element_at(bytes: &[u8], at: usize) -> Result<(NamedPart<'_>, usize), Stop>
    requires { at ≤ length bytes.now }
    ensures { Tells named_seen spec.array_element asked.array_element bytes.now at result }
{
    let (byte, at) = byte_at(bytes, at)?;
    element_of(record_kind(byte), bytes, at)
}

// The bytes of so many values.
fn values_at(kind: ArrayKind, count: usize, bytes: &[u8], at: usize) -> Result<(&[u8], usize), Stop>
    requires within { at ≤ length bytes.now }
    requires few { count < 2 ^ 31 }
    ensures tells { Tells (λ values. values.now) (spec.array_values kind count)
        (asked.array_values kind count) bytes.now at result }
    ensures size { IfOk result (λ read. length read.0.now ≡ count * width_of kind) }
{
    if count == 0 {
        return fault(RecordFault::BadArray, at);
    }
    bytes_at(bytes, at, count * width(kind))
}

// How many values of this kind there are, and then these.
fn counted_cells(kind: ArrayKind, bytes: &[u8], at: usize) -> Result<(CellsPart<'_>, usize), Stop>
    requires { at ≤ length bytes.now }
    ensures tells { Tells cells_seen (spec.counted_cells kind)
        (asked.counted_cells kind) bytes.now at result }
    ensures sized { IfOk result (λ read. AreSized read.0) }
{
    let (count, at) = integer_at(bytes, at)?;
    let count = count as usize;
    let (values, at) = values_at(kind, count, bytes, at)?;
    let cells = CellsPart {
        kind,
        count,
        bytes: values,
    };
    Ok((cells, at))
}

// The values after the type byte of their kind.
fn cells_of(
    kind: Option<ArrayKind>,
    bytes: &[u8],
    at: usize,
) -> Result<(CellsPart<'_>, usize), Stop>
    requires { at ≤ length bytes.now }
    ensures tells { Tells cells_seen (spec.cells_of kind)
        (asked.cells_of kind) bytes.now at result }
    ensures sized { IfOk result (λ read. AreSized read.0) }
{
    match kind {
        None => fault(RecordFault::BadArray, at),
        Some(kind) => counted_cells(kind, bytes, at),
    }
}

// The same with that byte.
fn cells_at(bytes: &[u8], at: usize) -> Result<(CellsPart<'_>, usize), Stop>
    requires { at ≤ length bytes.now }
    ensures tells { Tells cells_seen spec.array_cells
        asked.array_cells bytes.now at result }
    ensures sized { IfOk result (λ read. AreSized read.0) }
{
    let (byte, at) = byte_at(bytes, at)?;
    cells_of(array_kind(byte), bytes, at)
}

/// Reads what follows the type byte of an Array record.
#[inline(never)]
pub fn array_at<'a>(
    bytes: &'a [u8],
    at: usize,
    resume: &mut Resume,
) -> Result<(ArrayPart<'a>, usize), Stop>
    requires within { at ≤ length bytes.now }
    requires fits { Fits resume.old bytes.now }
    ensures tells { Tells array_seen spec.array_at
        asked.array_at bytes.now at result }
    ensures parts { IfOk result (λ read. AreParts read.0.attributes.now) }
    ensures sized { IfOk result (λ read. AreSized read.0.cells) }
    ensures kept { OnMore result (KeepsArray at resume.new bytes.now) }
    ensures fits { Fits resume.new bytes.now }
{
    let (element, at) = array_element_at(bytes, at)?;
    let (attributes, at) = parts_at(bytes, at, resume)?;
    let (cells, at) = cells_at(bytes, at)?;
    let array = ArrayPart {
        element,
        attributes,
        cells,
    };
    Ok((array, at))
}
