//! Nodes as they are written: each in its chosen spelling.

ghost use Rattle.std.specs.Prelude.{◌≡◌, ◌++◌, IsTrue, OnErr, OnOk, flat_map};
ghost use Rattle.std.specs.List.{list_all};
ghost use Rattle.nbfx_records.specs.Chosen as spec;
ghost use Rattle.nbfx_records.specs.Putting.{Puts};
ghost use Rattle.nbfx_records.specs.Valid.{fit_names, fits_array, fits_node, fits_part, fits_text, is_valid_array, is_valid_node, is_valid_part, is_valid_text};
ghost use Rattle.nbfx_records.specs.Views.{name_seen};

use crate::nodes::{ArrayNode, AttrNode, NameRef, Node, RawValue};
use crate::parts::NamePart;
use crate::put_records::{
    put_array_start, put_array_values, put_attribute_start, put_comment, put_declaration,
    put_element, put_end_element,
};
use crate::put_values::put_value;
use nbfx_values::Txt;
use unit_streams::Memory;

// The same name, its text borrowed.
fn name_part(name: &NameRef) -> NamePart<'_>
    ensures { name_seen result ≡ name.now }
{
    match name {
        NameRef::Inline(text) => NamePart::Inline(text.as_str().as_bytes()),
        NameRef::Id(id) => NamePart::Id(*id),
    }
}

// Appends an attribute.
fn put_attribute(
    prefix: &Txt,
    name: &NameRef,
    value: &RawValue,
    out: &mut Vec<u8>,
) -> Result<(), Memory>
    requires names { IsTrue (fit_names prefix.now name.now) }
    requires valid { IsTrue (is_valid_text value.now) }
    requires fits { IsTrue (fits_text value.now) }
    ensures { Puts result out.old.items out.new.items
        (spec.attribute_bytes prefix.now name.now value.now) }
{
    put_attribute_start(prefix.as_str(), name_part(name), out)?;
    put_value(value, false, out)
}

// Appends a declaration or an attribute of an array's element.
fn put_part(part: &AttrNode, out: &mut Vec<u8>) -> Result<(), Memory>
    requires valid { IsTrue (is_valid_part part.now) }
    requires fits { IsTrue (fits_part part.now) }
    ensures { Puts result out.old.items out.new.items (spec.part_bytes part.now) }
{
    match part {
        AttrNode::Attribute {
            prefix,
            name,
            value,
        } => put_attribute(prefix, name, value, out),
        AttrNode::Xmlns { prefix, uri } => put_declaration(prefix.as_str(), name_part(uri), out),
    }
}

// Appends all of them.
fn put_parts(parts: &[AttrNode], out: &mut Vec<u8>) -> Result<(), Memory>
    requires valid { IsTrue (list_all is_valid_part parts.now) }
    requires fits { IsTrue (list_all fits_part parts.now) }
    ensures { Puts result out.old.items out.new.items (flat_map spec.part_bytes parts.now) }
{
    for part in parts {
        put_part(part, out)?;
    }
    Ok(())
}

// Appends an array.
fn put_array(array: &ArrayNode, out: &mut Vec<u8>) -> Result<(), Memory>
    requires valid { IsTrue (is_valid_array array.now) }
    requires fits { IsTrue (fits_array array.now) }
    ensures { Puts result out.old.items out.new.items (spec.array_bytes array.now) }
{
    put_array_start(out)?;
    put_element(array.prefix.as_str(), name_part(&array.name), out)?;
    put_parts(array.attrs.as_slice(), out)?;
    put_array_values(array.kind, array.values.as_slice(), out)
}

// Appends a node.
fn put(node: &Node, out: &mut Vec<u8>) -> Result<(), Memory>
    requires valid { IsTrue (is_valid_node node.now) }
    requires fits { IsTrue (fits_node node.now) }
    ensures { Puts result out.old.items out.new.items (spec.chosen_bytes node.now) }
{
    match node {
        Node::EndElement => put_end_element(out),
        Node::Comment(text) => put_comment(text.as_str(), out),
        Node::Array(array) => put_array(array, out),
        Node::Attribute {
            prefix,
            name,
            value,
        } => put_attribute(prefix, name, value, out),
        Node::Xmlns { prefix, uri } => put_declaration(prefix.as_str(), name_part(uri), out),
        Node::Element { prefix, name } => put_element(prefix.as_str(), name_part(name), out),
        Node::Text { value, ends } => put_value(value, *ends, out),
    }
}

/// Appends the record of MC-NBFX that says a node, in its chosen spelling. Without memory it fails,
/// and `out` is as before.
pub fn put_node(node: &Node, out: &mut Vec<u8>) -> Result<(), Memory>
    requires valid { IsTrue (is_valid_node node.now) }
    requires fits { IsTrue (fits_node node.now) }
    ensures written { OnOk result (out.new.items ≡ out.old.items ++ spec.chosen_bytes node.now) }
    ensures unchanged { OnErr result (out.new.items ≡ out.old.items) }
{
    let before = out.len();
    let written = put(node, out);
    if written.is_err() {
        out.truncate(before);
    }
    written
}
