//! What the records of MC-NBFX say, with each identifier as its number.

ghost use Rattle.std.specs.Prelude.{◌≡◌};

use nbfx_values::{ArrayKind, Copied, Scalar, Sequence, Txt, Values};
use std::alloc::AllocError;
use unit_streams::Memory;

/// A name or a URI, as a record has it.
#[derive(Debug, Drop)]
pub enum NameRef {
    /// Its characters, which stand in the record.
    Inline(Txt),
    /// The identifier of the string that it is.
    Id(u32),
}

/// One value of a text record.
#[derive(Debug, Drop)]
pub enum RawScalar {
    /// A value that names no string. It isn't a QName.
    Known(Scalar),
    /// The identifier of a text.
    Dictionary(u32),
    /// A QName: the number of its prefix's letter, from 0 for a, and the identifier of its local
    /// name.
    QName(u8, u32),
}

/// The values of a list.
pub type RawValues = Sequence<RawScalar>;

/// The value of a text record.
#[derive(Debug, Drop)]
pub enum RawValue {
    /// One value: a record of any text type but the two of lists.
    One(RawScalar),
    /// StartList, values, EndList.
    List(RawValues),
}

/// A declaration or an attribute of an array's element.
#[derive(Debug, Drop)]
pub enum AttrNode {
    /// As [`Node::Attribute`].
    Attribute {
        prefix: Txt,
        name: NameRef,
        value: RawValue,
    },
    /// As [`Node::Xmlns`].
    Xmlns {
        prefix: Txt,
        uri: NameRef,
    },
}

/// The declarations and attributes of one array's element, in their order.
pub type AttrNodes = Sequence<AttrNode>;

/// An element that stands once for each value.
#[derive(Debug, Drop)]
pub struct ArrayNode {
    /// The element's prefix.
    pub prefix: Txt,
    /// The element's name.
    pub name: NameRef,
    /// Its declarations and attributes, in their order.
    pub attrs: AttrNodes,
    /// What all the values are.
    pub kind: ArrayKind,
    /// One or more values of that kind.
    pub values: Values,
}

/// A record, by what it says and not by how it is spelled: each variant names the types of MC-NBFX
/// that say it. The empty prefix means none.
#[derive(Debug, Drop)]
pub enum Node {
    /// EndElement.
    EndElement,
    /// Comment.
    Comment(Txt),
    /// Array.
    Array(ArrayNode),
    /// ShortAttribute, Attribute, ShortDictionaryAttribute, DictionaryAttribute, and
    /// PrefixAttribute and PrefixDictionaryAttribute with a letter from A to Z.
    Attribute {
        prefix: Txt,
        name: NameRef,
        value: RawValue,
    },
    /// ShortXmlnsAttribute, XmlnsAttribute, ShortDictionaryXmlnsAttribute and
    /// DictionaryXmlnsAttribute.
    Xmlns {
        prefix: Txt,
        uri: NameRef,
    },
    /// ShortElement, Element, ShortDictionaryElement, DictionaryElement, and PrefixElement and
    /// PrefixDictionaryElement with a letter from A to Z.
    Element {
        prefix: Txt,
        name: NameRef,
    },
    /// A text record of any type, and whether the element that holds it ends with it.
    Text {
        value: RawValue,
        ends: bool,
    },
}

/// Where in a document a record stands.
#[derive(Clone, Copy, Debug, PartialEq, Eq)]
pub enum NodePlace {
    /// No element has been opened yet.
    BeforeRoot,
    /// Within the root: whether an attribute may stand here, and whether one more element may be
    /// opened.
    Within { attributes: bool, deeper: bool },
    /// The root has ended.
    AfterRoot,
}

/// What is wrong with a record.
#[derive(Clone, Copy, Debug, PartialEq, Eq)]
pub enum RecordFault {
    /// Its type byte begins no record.
    UnknownNode,
    /// It may not stand here.
    OutOfPlace,
    /// The root has ended, so no record may follow.
    TrailingBytes,
    /// It begins one element more than may be open.
    TooDeep,
    /// A fifth byte of an integer is above 7, or a length of four bytes is negative.
    BadInt,
    /// The array isn't an element, its attributes, a type that arrays may have, and one value or
    /// more.
    BadArray,
    /// A text isn't UTF-8.
    BadUtf8,
    /// The bytes of a value aren't one of its kind.
    BadValue,
}

/// Why the bytes of a record give no node: they are refused, or there is no memory for it.
#[derive(Clone, Copy, Debug, PartialEq, Eq)]
pub enum NodeFault {
    /// The record is refused.
    Record(RecordFault),
    /// Out of memory.
    Memory,
}

impl From<Memory> for NodeFault {
    ghost use Rattle.nbfx_records.specs.declared.nodes.NodeFault.TheVariants.{Memory as NoMemory};

    ghost from_gives = { λ _ e. e ≡ NoMemory };

    fn from(_error: Memory) -> NodeFault {
        NodeFault::Memory
    }
}

impl From<AllocError> for NodeFault {
    ghost use Rattle.nbfx_records.specs.declared.nodes.NodeFault.TheVariants.{Memory as NoMemory};

    ghost from_gives = { λ _ e. e ≡ NoMemory };

    fn from(_error: AllocError) -> NodeFault {
        NodeFault::Memory
    }
}

impl Copied for NameRef {
    fn copy(&self) -> Result<NameRef, Memory> {
        Ok(match self {
            NameRef::Inline(text) => NameRef::Inline(text.copy()?),
            NameRef::Id(id) => NameRef::Id(*id),
        })
    }
}

impl Copied for RawScalar {
    fn copy(&self) -> Result<RawScalar, Memory> {
        Ok(match self {
            RawScalar::Known(value) => RawScalar::Known(value.copy()?),
            RawScalar::Dictionary(id) => RawScalar::Dictionary(*id),
            RawScalar::QName(letter, id) => RawScalar::QName(*letter, *id),
        })
    }
}

impl Copied for RawValue {
    fn copy(&self) -> Result<RawValue, Memory> {
        Ok(match self {
            RawValue::One(value) => RawValue::One(value.copy()?),
            RawValue::List(values) => RawValue::List(values.copy()?),
        })
    }
}

impl Copied for AttrNode {
    fn copy(&self) -> Result<AttrNode, Memory> {
        Ok(match self {
            AttrNode::Attribute {
                prefix,
                name,
                value,
            } => AttrNode::Attribute {
                prefix: prefix.copy()?,
                name: name.copy()?,
                value: value.copy()?,
            },
            AttrNode::Xmlns { prefix, uri } => AttrNode::Xmlns {
                prefix: prefix.copy()?,
                uri: uri.copy()?,
            },
        })
    }
}

impl Copied for ArrayNode {
    fn copy(&self) -> Result<ArrayNode, Memory> {
        Ok(ArrayNode {
            prefix: self.prefix.copy()?,
            name: self.name.copy()?,
            attrs: self.attrs.copy()?,
            kind: self.kind,
            values: self.values.copy()?,
        })
    }
}
