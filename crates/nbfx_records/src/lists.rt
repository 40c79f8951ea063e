//! Lists: values one after the other, and an end.

ghost use Rattle.std.specs.Prelude.{◌≡◌, ◌≤◌, IfOk, length};
ghost use Rattle.nbfx_records.specs.Asked as asked;
ghost use Rattle.nbfx_records.specs.Cursor.{OnMore, Tells};
ghost use Rattle.nbfx_records.specs.Shapes as spec;
ghost use Rattle.nbfx_records.specs.Views.{IsList, list_seen, may_close, turn_seen};
ghost use Rattle.nbfx_records.specs.Resuming.{Fits, KeepsList};

use crate::cursor::{Stop, byte_at, fault};
use crate::kinds::{RecordKind, TextKind};
use crate::nodes::RecordFault;
use crate::parts::{ScalarPart, scalar_at};
use crate::resume::Resume;
use crate::type_bytes::record_kind;

/// What a list is the value of.
#[derive(Clone, Copy, Debug, PartialEq, Eq)]
pub enum ListHolder {
    /// A text in an element's content: the list's end may also end the element.
    Text,
    /// An attribute.
    Attribute,
}

/// What comes next in a list.
#[derive(Clone, Copy, Debug)]
pub enum ListTurn<'a> {
    /// One of its values.
    Value(ScalarPart<'a>),
    /// Its end, and whether that also ends the element that holds the list.
    End(bool),
}

// The end of a list.
fn end_of_list(
    holder: ListHolder,
    ends: bool,
    bytes: &[u8],
    at: usize,
) -> Result<(ListTurn<'_>, usize), Stop>
    requires { at ≤ length bytes.now }
    ensures { Tells turn_seen (spec.end_turn (may_close holder) ends)
        (asked.end_turn (may_close holder) ends) bytes.now at result }
{
    if ends && holder == ListHolder::Attribute {
        return fault(RecordFault::OutOfPlace, at);
    }
    Ok((ListTurn::End(ends), at))
}

// What follows the type byte of a text in a list.
fn text_in_list(
    holder: ListHolder,
    kind: TextKind,
    ends: bool,
    bytes: &[u8],
    at: usize,
) -> Result<(ListTurn<'_>, usize), Stop>
    requires { at ≤ length bytes.now }
    ensures { Tells turn_seen (spec.text_turn (may_close holder) kind ends)
        (asked.text_turn (may_close holder) kind ends) bytes.now at result }
{
    match kind {
        TextKind::EndList => end_of_list(holder, ends, bytes, at),
        _ => {
            if ends {
                return fault(RecordFault::OutOfPlace, at);
            }
            let (value, at) = scalar_at(kind, bytes, at)?;
            Ok((ListTurn::Value(value), at))
        }
    }
}

// What follows a type byte in a list.
fn turn_of(
    holder: ListHolder,
    kind: Option<RecordKind>,
    bytes: &[u8],
    at: usize,
) -> Result<(ListTurn<'_>, usize), Stop>
    requires { at ≤ length bytes.now }
    ensures { Tells turn_seen (spec.turn_of (may_close holder) kind)
        (asked.turn_of (may_close holder) kind) bytes.now at result }
{
    match kind {
        None => fault(RecordFault::UnknownNode, at),
        Some(RecordKind::Text(kind, ends)) => text_in_list(holder, kind, ends, bytes, at),
        Some(_) => fault(RecordFault::OutOfPlace, at),
    }
}

/// Reads one value of a list, or its end, from its type byte on.
pub fn list_turn_at(
    holder: ListHolder,
    bytes: &[u8],
    at: usize,
) -> Result<(ListTurn<'_>, usize), Stop>
    requires { at ≤ length bytes.now }
    ensures { Tells turn_seen (spec.list_turn (may_close holder))
        (asked.list_turn (may_close holder)) bytes.now at result }
{
    let (byte, at) = byte_at(bytes, at)?;
    turn_of(holder, record_kind(byte), bytes, at)
}

/// A list after its type byte.
#[derive(Clone, Copy, Debug)]
pub struct ListPart<'a> {
    /// Its bytes, with those of its end.
    pub bytes: &'a [u8],
    /// Whether its end also ends the element that holds it.
    pub closes: bool,
}

/// Reads a list after its type byte. How far it was scanned is read from `resume` and noted there.
#[inline(never)]
pub fn list_at<'a>(
    holder: ListHolder,
    bytes: &'a [u8],
    from: usize,
    resume: &mut Resume,
) -> Result<(ListPart<'a>, usize), Stop>
    requires within { from ≤ length bytes.now }
    requires fits { Fits resume.old bytes.now }
    ensures tells { Tells list_seen (spec.list_at (may_close holder))
        (asked.list_at (may_close holder)) bytes.now from result }
    ensures list { IfOk result (λ read. IsList read.0.bytes.now) }
    ensures kept { OnMore result (KeepsList (may_close holder) from resume.new bytes.now) }
    ensures fits { Fits resume.new bytes.now }
{
    let mut at = resume.list_goes_on(from);
    'values: loop {
        match list_turn_at(holder, bytes, at) {
            Ok((ListTurn::Value(_), to)) => at = to,
            Ok((ListTurn::End(closes), to)) => {
                let list = ListPart {
                    bytes: &bytes[from..to],
                    closes,
                };
                return Ok((list, to));
            }
            Err(stop) => {
                resume.keep_list(from, at);
                return Err(stop);
            }
        }
    }
}
