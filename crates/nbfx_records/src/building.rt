//! The node of a complete record: its texts are judged before its values.

ghost use Rattle.std.specs.Prelude.{◌≡◌, ◌<◌, [], ◌∷◌, IfNone, IfSome, IsTrue, length};
ghost use Rattle.std.specs.List.{list_all};
ghost use Rattle.std.specs.Str.{is_utf8};
ghost use Rattle.nbfx_records.specs.Contents as spec;
ghost use Rattle.nbfx_records.specs.Judged.{Makes};
ghost use Rattle.nbfx_records.specs.Views.{AreParts, AreSized, HoldsLists, IsList, IsSoundAttribute, IsSoundRecord, array_seen, attribute_seen, cells_seen, listed, name_seen, named_seen, parts_of, prefix_seen, record_seen, scalar_seen, value_seen};

use crate::arrays::{ArrayPart, ArrayTurn, CellsPart, array_turn_at};
use crate::attributes::{AttributePart, ValuePart};
use crate::kinds::TextKind;
use crate::lists::{ListHolder, ListTurn, list_turn_at};
use crate::nodes::{
    ArrayNode, AttrNode, AttrNodes, NameRef, Node, NodeFault, RawScalar, RawValue, RawValues,
    RecordFault,
};
use crate::parts::{NamePart, NamedPart, PrefixPart, ScalarPart};
use crate::records::RecordPart;
use crate::resume::Resume;
use crate::type_bytes::{is_chars, text_kind_in, width};
use crate::values::{is_text, known, text};
use nbfx_values::{Scalar, Txt, Values};
use std::alloc::Global;

/// The text of a prefix. It fails with `BadUtf8`, or without memory.
#[inline(always)]
pub fn prefix(alloc: Global, part: &PrefixPart) -> Result<Txt, NodeFault>
    ensures { Makes result (spec.text_judged (prefix_seen part.now)) }
{
    match part {
        PrefixPart::Letter(letter) if letter.is_ascii() => Ok(Txt::of_ascii(*letter)),
        PrefixPart::Letter(letter) => text(alloc, &[*letter]),
        PrefixPart::Text([]) => Ok(Txt::empty()),
        PrefixPart::Text([letter]) if letter.is_ascii() => Ok(Txt::of_ascii(*letter)),
        PrefixPart::Text(bytes) => text(alloc, bytes),
    }
}

// Whether a value's text is UTF-8.
fn has_text(part: &ScalarPart) -> bool
    ensures { result ≡ spec.scalar_is_text (scalar_seen part.now) }
{
    match part {
        ScalarPart::Bytes(kind, bytes) => !is_chars(*kind) || is_text(bytes),
        _ => true,
    }
}

/// A name, or a URI. It fails with `BadUtf8`, or without memory.
#[inline(always)]
pub fn name(alloc: Global, part: &NamePart) -> Result<NameRef, NodeFault>
    ensures { Makes result (spec.name_judged (name_seen part.now)) }
{
    match part {
        NamePart::Inline(bytes) => Ok(NameRef::Inline(text(alloc, bytes)?)),
        NamePart::Id(id) => Ok(NameRef::Id(*id)),
    }
}

/// One value. It fails with `BadUtf8` or `BadValue`, or without memory.
#[inline(always)]
pub fn scalar(alloc: Global, part: &ScalarPart) -> Result<RawScalar, NodeFault>
    ensures { Makes result (spec.scalar_judged (scalar_seen part.now)) }
{
    match part {
        ScalarPart::Bytes(kind, bytes) => Ok(RawScalar::Known(known(alloc, *kind, bytes)?)),
        ScalarPart::Named(id) => Ok(RawScalar::Dictionary(*id)),
        ScalarPart::Qualified(letter, id) => {
            if *letter > 25 {
                return Err(NodeFault::Record(RecordFault::BadValue));
            }
            Ok(RawScalar::QName(*letter, *id))
        }
    }
}

/// The first value of a list, and the bytes after it; None at the end of the list.
pub fn next_value(list: &[u8]) -> Option<(ScalarPart<'_>, &[u8])>
    requires { IsList list.now }
    ensures none { IfNone result (listed list.now ≡ []) }
    ensures value { IfSome result
        (λ next. listed list.now ≡ scalar_seen next.0 ∷ listed next.1.now) }
    ensures rest { IfSome result (λ next. IsList next.1.now) }
    ensures shorter { IfSome result (λ next. length next.1.now < length list.now) }
{
    match list_turn_at(ListHolder::Text, list, 0) {
        Ok((ListTurn::Value(part), to)) => Some((part, &list[to..])),
        Ok((ListTurn::End(_), _)) => None,
        Err(_) => None,
    }
}

// Whether each text of a list is UTF-8.
fn are_texts(list: &[u8]) -> bool
    requires { IsList list.now }
    ensures { result ≡ list_all spec.scalar_is_text (listed list.now) }
{
    let mut rest = list;
    while let Some((part, behind)) = next_value(rest) {
        if !has_text(&part) {
            return false;
        }
        rest = behind;
    }
    true
}

/// One value, after which those of `rest` come. It fails with `BadUtf8` where a text of any of them
/// isn't UTF-8, before `BadValue` of this one; or without memory.
pub fn scalar_before(alloc: Global, part: &ScalarPart, rest: &[u8]) -> Result<RawScalar, NodeFault>
    requires { IsList rest.now }
    ensures { Makes result (spec.behind_texts (list_all spec.scalar_is_text (listed rest.now))
        (spec.scalar_judged (scalar_seen part.now))) }
{
    match scalar(alloc, part) {
        Err(NodeFault::Record(RecordFault::BadValue)) => {
            if are_texts(rest) {
                Err(NodeFault::Record(RecordFault::BadValue))
            } else {
                Err(NodeFault::Record(RecordFault::BadUtf8))
            }
        }
        made => made,
    }
}

// The values of a list.
#[inline(never)]
fn scalars(alloc: Global, list: &[u8]) -> Result<RawValues, NodeFault>
    requires { IsList list.now }
    ensures { Makes result (spec.scalars_judged (listed list.now)) }
{
    let mut values = RawValues::new(alloc);
    let mut rest = list;
    while let Some((part, behind)) = next_value(rest) {
        values.push(scalar_before(alloc, &part, behind)?)?;
        rest = behind;
    }
    Ok(values)
}

// The value of a text or an attribute.
#[inline(always)]
fn value(alloc: Global, part: &ValuePart) -> Result<RawValue, NodeFault>
    requires { HoldsLists part.now }
    ensures { Makes result (spec.value_judged (value_seen part.now)) }
{
    match part {
        ValuePart::One(part) => Ok(RawValue::One(scalar(alloc, part)?)),
        ValuePart::List(list) => Ok(RawValue::List(scalars(alloc, list)?)),
    }
}

// An attribute or a declaration.
#[inline(always)]
fn attribute(alloc: Global, part: &AttributePart) -> Result<AttrNode, NodeFault>
    requires { IsSoundAttribute part.now }
    ensures { Makes result (spec.attribute_judged (attribute_seen part.now)) }
{
    match part {
        AttributePart::Attribute {
            prefix: prefix_part,
            name: name_part,
            value: value_part,
        } => Ok(AttrNode::Attribute {
            prefix: prefix(alloc, prefix_part)?,
            name: name(alloc, name_part)?,
            value: value(alloc, value_part)?,
        }),
        AttributePart::Declaration {
            prefix: prefix_part,
            uri,
        } => Ok(AttrNode::Xmlns {
            prefix: prefix(alloc, prefix_part)?,
            uri: name(alloc, uri)?,
        }),
    }
}

// Whether each text of a value is UTF-8.
fn value_has_text(part: &ValuePart) -> bool
    requires { HoldsLists part.now }
    ensures { result ≡ spec.value_is_text (value_seen part.now) }
{
    match part {
        ValuePart::One(part) => has_text(part),
        ValuePart::List(list) => are_texts(list),
    }
}

// Whether a prefix is UTF-8.
fn prefix_has_text(part: &PrefixPart) -> bool
    ensures { result ≡ is_utf8 (prefix_seen part.now) }
{
    match part {
        PrefixPart::Letter(letter) => is_text(&[*letter]),
        PrefixPart::Text(bytes) => is_text(bytes),
    }
}

// Whether a name is UTF-8, if the record has its characters.
fn name_has_text(part: &NamePart) -> bool
    ensures { result ≡ spec.name_is_text (name_seen part.now) }
{
    match part {
        NamePart::Inline(bytes) => is_text(bytes),
        NamePart::Id(_) => true,
    }
}

// Whether each text of an attribute is UTF-8.
fn attribute_has_text(part: &AttributePart) -> bool
    requires { IsSoundAttribute part.now }
    ensures { result ≡ spec.attribute_is_text (attribute_seen part.now) }
{
    match part {
        AttributePart::Attribute {
            prefix,
            name,
            value,
        } => prefix_has_text(prefix) && name_has_text(name) && value_has_text(value),
        AttributePart::Declaration { prefix, uri } => prefix_has_text(prefix) && name_has_text(uri),
    }
}

/// The first attribute or declaration of an array's element, and the bytes after it; None at the
/// end of these.
pub fn next_part(parts: &[u8]) -> Option<(AttributePart<'_>, &[u8])>
    requires { AreParts parts.now }
    ensures none { IfNone result (parts_of parts.now ≡ []) }
    ensures part { IfSome result
        (λ next. parts_of parts.now ≡ attribute_seen next.0 ∷ parts_of next.1.now) }
    ensures sound { IfSome result (λ next. IsSoundAttribute next.0) }
    ensures rest { IfSome result (λ next. AreParts next.1.now) }
    ensures shorter { IfSome result (λ next. length next.1.now < length parts.now) }
{
    match array_turn_at(parts, 0, &mut Resume::new()) {
        Ok((ArrayTurn::Part(part), to)) => Some((part, &parts[to..])),
        Ok((ArrayTurn::End, _)) => None,
        Err(_) => None,
    }
}

/// Whether each text of the attributes and declarations is UTF-8.
pub fn parts_have_text(parts: &[u8]) -> bool
    requires { AreParts parts.now }
    ensures { result ≡ list_all spec.attribute_is_text (parts_of parts.now) }
{
    let mut rest = parts;
    while let Some((part, behind)) = next_part(rest) {
        if !attribute_has_text(&part) {
            return false;
        }
        rest = behind;
    }
    true
}

// An attribute, after which others come: a text of these that isn't UTF-8 is reported before a
// wrong value of it.
fn attribute_before(alloc: Global, part: &AttributePart, rest: &[u8]) -> Result<AttrNode, NodeFault>
    requires sound { IsSoundAttribute part.now }
    requires rest { AreParts rest.now }
    ensures { Makes result (spec.behind_texts (list_all spec.attribute_is_text (parts_of rest.now))
        (spec.attribute_judged (attribute_seen part.now))) }
{
    match attribute(alloc, part) {
        Err(NodeFault::Record(RecordFault::BadValue)) => {
            if parts_have_text(rest) {
                Err(NodeFault::Record(RecordFault::BadValue))
            } else {
                Err(NodeFault::Record(RecordFault::BadUtf8))
            }
        }
        made => made,
    }
}

// The attributes of an array's element.
#[inline(never)]
fn attributes(alloc: Global, parts: &[u8]) -> Result<AttrNodes, NodeFault>
    requires { AreParts parts.now }
    ensures { Makes result (spec.attributes_judged (parts_of parts.now)) }
{
    let mut nodes = AttrNodes::new(alloc);
    let mut rest = parts;
    while let Some((part, behind)) = next_part(rest) {
        nodes.push(attribute_before(alloc, &part, behind)?)?;
        rest = behind;
    }
    Ok(nodes)
}

// The values of an array, in so many bytes.
fn cells(alloc: Global, part: &CellsPart) -> Result<Values, NodeFault>
    requires { AreSized part.now }
    ensures { Makes result (spec.cells_judged (cells_seen part.now)) }
{
    let kind = text_kind_in(part.kind);
    let width = width(part.kind);
    let mut values = Values::new(alloc);
    let mut rest = part.bytes;
    for _place in 0..part.count {
        let (cell, behind) = rest.split_at(width);
        values.push(known(alloc, kind, cell)?)?;
        rest = behind;
    }
    Ok(values)
}

// An array.
#[inline(never)]
fn array(alloc: Global, part: &ArrayPart) -> Result<ArrayNode, NodeFault>
    requires parts { AreParts part.now.attributes.now }
    requires sized { AreSized part.now.cells }
    ensures { Makes result (spec.array_judged (array_seen part.now)) }
{
    Ok(ArrayNode {
        prefix: prefix(alloc, &part.element.prefix)?,
        name: name(alloc, &part.element.name)?,
        attrs: attributes(alloc, part.attributes)?,
        kind: part.cells.kind,
        values: cells(alloc, &part.cells)?,
    })
}

/// The node of an element. It fails with `BadUtf8`, or without memory.
#[inline(always)]
#[tactic(auto, unfolding(crate::specs::Contents::contents))]
pub fn element_node(alloc: Global, part: &NamedPart) -> Result<Node, NodeFault>
    ensures { Makes result (spec.contents (record_seen (RecordPart.Element part.now))) }
{
    Ok(Node::Element {
        prefix: prefix(alloc, &part.prefix)?,
        name: name(alloc, &part.name)?,
    })
}

/// The node of an attribute with these parts. It fails with `BadUtf8` or `BadValue`, or without
/// memory.
#[inline(always)]
#[tactic(auto, unfolding(crate::specs::Contents::contents))]
pub fn attribute_node(
    alloc: Global,
    prefix_part: &PrefixPart,
    name_part: &NamePart,
    value_part: &ValuePart,
) -> Result<Node, NodeFault>
    requires { HoldsLists value_part.now }
    ensures { Makes result (spec.contents (record_seen (RecordPart.Attribute
        (AttributePart.Attribute prefix_part.now name_part.now value_part.now)))) }
{
    Ok(Node::Attribute {
        prefix: prefix(alloc, prefix_part)?,
        name: name(alloc, name_part)?,
        value: value(alloc, value_part)?,
    })
}

/// The node of a declaration with these parts. It fails with `BadUtf8`, or without memory.
#[inline(always)]
#[tactic(auto, unfolding(crate::specs::Contents::contents))]
pub fn declaration_node(
    alloc: Global,
    prefix_part: &PrefixPart,
    uri_part: &NamePart,
) -> Result<Node, NodeFault>
    ensures { Makes result (spec.contents (record_seen (RecordPart.Attribute
        (AttributePart.Declaration prefix_part.now uri_part.now)))) }
{
    Ok(Node::Xmlns {
        prefix: prefix(alloc, prefix_part)?,
        uri: name(alloc, uri_part)?,
    })
}

/// The node of a text whose bytes are characters in UTF-8. It fails with `BadUtf8` where they
/// aren't, or without memory.
#[inline(always)]
#[tactic(auto, unfolding(crate::specs::Contents::contents))]
pub fn chars_node(
    alloc: Global,
    kind: TextKind,
    bytes: &[u8],
    ends: bool,
) -> Result<Node, NodeFault>
    requires { IsTrue (spec.is_chars kind) }
    ensures { Makes result (spec.contents (record_seen (RecordPart.Text
        (ValuePart.One (ScalarPart.Bytes kind bytes.entry)) ends))) }
{
    Ok(Node::Text {
        value: RawValue::One(RawScalar::Known(Scalar::Text(text(alloc, bytes)?))),
        ends,
    })
}

/// The node of a text, and of the end of the element that holds it if `ends`. It fails with
/// `BadUtf8` or `BadValue`, or without memory.
#[inline(always)]
#[tactic(auto, unfolding(crate::specs::Contents::contents))]
pub fn text_node(alloc: Global, part: &ValuePart, ends: bool) -> Result<Node, NodeFault>
    requires { HoldsLists part.now }
    ensures { Makes result (spec.contents (record_seen (RecordPart.Text part.now ends))) }
{
    Ok(Node::Text {
        value: value(alloc, part)?,
        ends,
    })
}

/// The node of a complete record. It fails with `BadUtf8` or `BadValue`, or without memory.
#[tactic(auto, unfolding(crate::specs::Contents::contents))]
pub fn node(alloc: Global, part: &RecordPart) -> Result<Node, NodeFault>
    requires { IsSoundRecord part.now }
    ensures { Makes result (spec.contents (record_seen part.now)) }
{
    match part {
        RecordPart::EndElement => Ok(Node::EndElement),
        RecordPart::Comment(bytes) => Ok(Node::Comment(text(alloc, bytes)?)),
        RecordPart::Element(part) => element_node(alloc, part),
        RecordPart::Attribute(
            AttributePart::Attribute {
                prefix,
                name,
                value,
            },
        ) => attribute_node(alloc, prefix, name, value),
        RecordPart::Attribute(AttributePart::Declaration { prefix, uri }) => {
            declaration_node(alloc, prefix, uri)
        }
        RecordPart::Text(part, ends) => text_node(alloc, part, *ends),
        RecordPart::Array(part) => Ok(Node::Array(array(alloc, part)?)),
    }
}
