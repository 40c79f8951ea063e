//! The records of MC-NBFX, the binary form of an XML infoset that WCF's net.tcp carries: elements,
//! attributes, declarations, comments, texts of each kind, arrays, ends.
//!
//! The one idea: a record is made of parts, each of which says what follows it. `specs/Shapes` says
//! which shape stands at the front of some bytes, part by part, and is done with a type byte or a
//! length where it is read; `specs/Contents` judges what a whole shape says and gives its [`Node`].
//! `specs/Records` says apart from that what the bytes of each node are, one row for each record,
//! and `laws` that both are one.
#![tactic(auto)]

mod arrays;
mod attributes;
mod begun;
mod begun_bytes;
pub mod building;
mod cursor;
mod kinds;
pub mod laws;
mod lists;
mod nodes;
mod parts;
mod put_nodes;
mod put_parts;
mod put_records;
mod put_values;
mod reader;
mod records;
mod resume;
mod type_bytes;
pub mod values;

pub use arrays::{ArrayPart, CellsPart};
pub use attributes::{AttributePart, ValuePart};
pub use begun::{
    attribute_parts, declaration_parts, element_parts, kind_at, may_stand, scalar_parts,
};
pub use begun_bytes::BegunBytes;
pub use building::{attribute_node, chars_node, declaration_node, element_node, node, text_node};
pub use cursor::Stop;
pub use kinds::{NameForm, PrefixForm, RecordKind, TextKind};
pub use nodes::{
    ArrayNode, AttrNode, AttrNodes, NameRef, Node, NodeFault, NodePlace, RawScalar, RawValue,
    RawValues, RecordFault,
};
pub use parts::{NamePart, NamedPart, PrefixPart, ScalarPart};
pub use put_nodes::put_node;
pub use put_records::{
    put_array_start, put_array_values, put_attribute_start, put_comment, put_declaration,
    put_element, put_end_element,
};
pub use put_values::{ScalarChoice, put_list_end, put_list_start, put_scalar};
pub use reader::{NodeReader, NodeStep};
pub use records::{RecordPart, parts_at};
pub use type_bytes::{is_chars, text_kind_in, width};
