//! The items of documents, and which of them are valid.

ghost use Rattle.std.specs.Prelude.{◌≡◌};
ghost use Rattle.std.specs.List.{list_all};
ghost use Rattle.nbfx_values.specs.Items as spec;
ghost use Rattle.nbfx_values.specs.Items.{attribute_item, fits_kind, is_valid_array, is_valid_attribute, is_valid_item};

use crate::copies::Copied;
use crate::lists::{Sequence, discard};
use crate::scalars::{Scalar, Value, Values};
use crate::texts::Txt;
use unit_streams::Memory;

/// One item of a document, in the order in which the records of MC-NBFX bring them. The empty
/// prefix means none.
#[derive(Debug)]
pub enum Item {
    /// An element begins.
    Start {
        prefix: Txt,
        local: Txt,
    },
    /// The element that has just begun declares a prefix.
    Xmlns {
        prefix: Txt,
        uri: Txt,
    },
    /// The element that has just begun has an attribute.
    Attr {
        prefix: Txt,
        local: Txt,
        value: Value,
    },
    /// A text or another value, in the content of the element that is open.
    Text(Value),
    /// An XML comment, by its text.
    Comment(Txt),
    /// An element repeated once for each value of a list.
    Array(ArrayItem),
    /// The innermost open element ends.
    Close,
}

// A document that is dropped drops each of its items. Most hold no memory of their own, and needn't
// be moved to be dropped.
impl Drop for Item {
    #[inline(always)]
    fn drop(self) {
        match self {
            Item::Start { prefix, local } => drop((prefix, local)),
            Item::Xmlns { prefix, uri } => drop((prefix, uri)),
            Item::Attr {
                prefix,
                local,
                value,
            } => discard((prefix, local, value)),
            Item::Text(_value) => {}
            Item::Comment(text) => drop(text),
            Item::Array(array) => drop(array),
            Item::Close => {}
        }
    }
}

/// A declaration or an attribute of an array's element.
#[derive(Debug, Drop)]
pub enum AttrItem {
    /// As [`Item::Xmlns`].
    Xmlns {
        prefix: Txt,
        uri: Txt,
    },
    /// As [`Item::Attr`].
    Attr {
        prefix: Txt,
        local: Txt,
        value: Value,
    },
}

/// The declarations and attributes of one array's element, in their order.
pub type Attrs = Sequence<AttrItem>;

/// An Array of MC-NBFX: an element that stands once for each value.
#[derive(Debug, Drop)]
pub struct ArrayItem {
    /// The element's prefix.
    pub prefix: Txt,
    /// The element's local name.
    pub local: Txt,
    /// Its declarations and attributes, in their order.
    pub attrs: Attrs,
    /// What all the values are.
    pub kind: ArrayKind,
    /// One or more values of that kind.
    pub values: Values,
}

/// What an array's values are: the types that MC-NBFX admits in an Array record.
#[derive(Clone, Copy, Debug, PartialEq, Eq)]
pub enum ArrayKind {
    Bool,
    Int16,
    Int32,
    Int64,
    Float,
    Double,
    Decimal,
    DateTime,
    TimeSpan,
    Uuid,
}

/// The items of a document, or of a part of one.
pub type Items = Sequence<Item>;

impl ArrayKind {
    /// Whether an array of this kind can hold the value.
    pub fn takes(&self, scalar: &Scalar) -> bool
        ensures { result ≡ fits_kind self.now scalar.now }
    {
        match (self, scalar) {
            (ArrayKind::Bool, Scalar::Truth(_)) => true,
            (ArrayKind::Int16, Scalar::Number(n)) => i16::try_from(*n).is_ok(),
            (ArrayKind::Int32, Scalar::Number(n)) => i32::try_from(*n).is_ok(),
            (ArrayKind::Int64, Scalar::Number(n)) => i64::try_from(*n).is_ok(),
            (ArrayKind::Float, Scalar::Float(_))
            | (ArrayKind::Double, Scalar::Double(_))
            | (ArrayKind::Decimal, Scalar::Decimal(_))
            | (ArrayKind::DateTime, Scalar::DateTime(_))
            | (ArrayKind::TimeSpan, Scalar::TimeSpan(_))
            | (ArrayKind::Uuid, Scalar::Uuid(_)) => scalar.check(),
            _ => false,
        }
    }
}

// Whether both are UTF-8, as all texts are.
fn are_texts(first: &Txt, second: &Txt) -> bool
    ensures { result ≡ spec.are_texts first.now second.now }
{
    first.check() && second.check()
}

impl AttrItem {
    /// Whether the value is one that a record can hold.
    pub fn check(&self) -> bool
        ensures { result ≡ is_valid_attribute self.now }
    {
        match self {
            AttrItem::Xmlns { prefix, uri } => are_texts(prefix, uri),
            AttrItem::Attr {
                prefix,
                local,
                value,
            } => are_texts(prefix, local) && value.check(),
        }
    }
}

// Whether each attribute's value is one that a record can hold.
fn are_valid(attributes: &[AttrItem]) -> bool
    ensures { result ≡ list_all is_valid_attribute attributes.now }
{
    attributes.iter().all(|attribute| attribute.check())
}

// Whether an array of this kind can hold each of the values.
fn all_fit(kind: ArrayKind, scalars: &[Scalar]) -> bool
    ensures { result ≡ list_all (fits_kind kind) scalars.now }
{
    scalars.iter().all(|scalar| kind.takes(scalar))
}

impl ArrayItem {
    /// Whether there is a value, each value is of the kind, and the attributes are valid.
    pub fn check(&self) -> bool
        ensures { result ≡ is_valid_array self.now }
    {
        are_texts(&self.prefix, &self.local)
            && are_valid(self.attrs.as_slice())
            && self.values.len() > 0
            && all_fit(self.kind, self.values.as_slice())
    }
}

impl Item {
    /// The declaration or attribute that the item is, as an array's element has it; None of any
    /// other item, which is dropped.
    pub fn into_attribute(self) -> Option<AttrItem>
        ensures { result ≡ attribute_item self }
    {
        match self {
            Item::Xmlns { prefix, uri } => Some(AttrItem::Xmlns { prefix, uri }),
            Item::Attr {
                prefix,
                local,
                value,
            } => Some(AttrItem::Attr {
                prefix,
                local,
                value,
            }),
            _ => None,
        }
    }

    /// Whether the item's values are ones that records can hold.
    pub fn check(&self) -> bool
        ensures { result ≡ is_valid_item self.now }
    {
        match self {
            Item::Start { prefix, local } => are_texts(prefix, local),
            Item::Xmlns { prefix, uri } => are_texts(prefix, uri),
            Item::Attr {
                prefix,
                local,
                value,
            } => are_texts(prefix, local) && value.check(),
            Item::Text(value) => value.check(),
            Item::Comment(text) => text.check(),
            Item::Array(array) => array.check(),
            Item::Close => true,
        }
    }
}

impl Copied for AttrItem {
    fn copy(&self) -> Result<AttrItem, Memory> {
        Ok(match self {
            AttrItem::Xmlns { prefix, uri } => AttrItem::Xmlns {
                prefix: prefix.copy()?,
                uri: uri.copy()?,
            },
            AttrItem::Attr {
                prefix,
                local,
                value,
            } => AttrItem::Attr {
                prefix: prefix.copy()?,
                local: local.copy()?,
                value: value.copy()?,
            },
        })
    }
}

impl Copied for ArrayItem {
    fn copy(&self) -> Result<ArrayItem, Memory> {
        Ok(ArrayItem {
            prefix: self.prefix.copy()?,
            local: self.local.copy()?,
            attrs: self.attrs.copy()?,
            kind: self.kind,
            values: self.values.copy()?,
        })
    }
}

impl Copied for Item {
    fn copy(&self) -> Result<Item, Memory> {
        Ok(match self {
            Item::Start { prefix, local } => Item::Start {
                prefix: prefix.copy()?,
                local: local.copy()?,
            },
            Item::Xmlns { prefix, uri } => Item::Xmlns {
                prefix: prefix.copy()?,
                uri: uri.copy()?,
            },
            Item::Attr {
                prefix,
                local,
                value,
            } => Item::Attr {
                prefix: prefix.copy()?,
                local: local.copy()?,
                value: value.copy()?,
            },
            Item::Text(value) => Item::Text(value.copy()?),
            Item::Comment(text) => Item::Comment(text.copy()?),
            Item::Array(array) => Item::Array(array.copy()?),
            Item::Close => Item::Close,
        })
    }
}
