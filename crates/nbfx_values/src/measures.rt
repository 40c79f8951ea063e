// How deep and how large values and items are.
ghost use Rattle.std.specs.Prelude.{◌≡◌, ◌+◌, ◌<◌, ◌^◌, List, [], ◌∷◌, ◌++◌, length, sum_by};
ghost use Rattle.nbfx_values.specs.Measures as spec;
ghost use Rattle.nbfx_values.specs.Measures.{array_content, attribute_content, capped, item_content, opened_by, scalar_content, value_content};
ghost use Rattle.nbfx_values.specs.Measured.{AreMeasuresOf};

use crate::content::{ArrayItem, AttrItem, Item};
use crate::scalars::{Scalar, Value};
use crate::texts::Txt;

// The bytes of two texts.
#[inline(always)]
fn bytes_of(first: &Txt, second: &Txt) -> u64
    ensures { result ≡ capped (length first.now + length second.now) }
{
    (first.len() as u64).saturating_add(second.len() as u64)
}

impl Scalar {
    /// How much the value counts in a document's content.
    #[inline(always)]
    pub fn content(&self) -> u64
        ensures { result ≡ scalar_content self.now }
    {
        match self {
            Scalar::Text(text) => text.len() as u64,
            Scalar::Bytes(bytes) => bytes.as_slice().len() as u64,
            Scalar::QName(_, name) => name.len() as u64,
            Scalar::Decimal(_) | Scalar::UniqueId(_) | Scalar::Uuid(_) => 16,
            _ => 8,
        }
    }
}

#[inline(never)]
fn content_of_scalars(scalars: &[Scalar]) -> u64
    ensures { result ≡ capped (sum_by scalar_content scalars.now) }
{
    let mut content: u64 = 0;
    for scalar in scalars {
        content = content.saturating_add(scalar.content());
    }
    content
}

impl Value {
    /// How much the value counts in a document's content, up to 2^64 - 1.
    #[inline(always)]
    pub fn content(&self) -> u64
        ensures { result ≡ capped (value_content self.now) }
    {
        match self {
            Value::One(scalar) => scalar.content(),
            Value::List(values) => content_of_scalars(values.as_slice()),
        }
    }
}

impl AttrItem {
    /// How much the declaration or the attribute counts in a document's content, up to 2^64 - 1.
    pub fn content(&self) -> u64
        ensures { result ≡ capped (attribute_content self.now) }
    {
        match self {
            AttrItem::Xmlns { prefix, uri } => bytes_of(prefix, uri),
            AttrItem::Attr {
                prefix,
                local,
                value,
            } => { bytes_of(prefix, local).saturating_add(value.content()) }
        }
    }
}

fn content_of_attributes(attributes: &[AttrItem]) -> u64
    ensures { result ≡ capped (sum_by attribute_content attributes.now) }
{
    let mut content: u64 = 0;
    for attribute in attributes {
        content = content.saturating_add(attribute.content());
    }
    content
}

impl ArrayItem {
    /// How much the array counts in a document's content, up to 2^64 - 1.
    #[inline(never)]
    pub fn content(&self) -> u64
        ensures { result ≡ capped (array_content self.now) }
    {
        bytes_of(&self.prefix, &self.local)
            .saturating_add(content_of_attributes(self.attrs.as_slice()))
            .saturating_add(content_of_scalars(self.values.as_slice()))
    }
}

impl Item {
    /// How much the item counts in a document's content, up to 2^64 - 1.
    #[inline(always)]
    pub fn content(&self) -> u64
        ensures { result ≡ capped (item_content self.now) }
    {
        match self {
            Item::Start { prefix, local } => bytes_of(prefix, local),
            Item::Xmlns { prefix, uri } => bytes_of(prefix, uri),
            Item::Attr {
                prefix,
                local,
                value,
            } => { bytes_of(prefix, local).saturating_add(value.content()) }
            Item::Text(value) => value.content(),
            Item::Comment(text) => text.len() as u64,
            Item::Array(array) => array.content(),
            Item::Close => 0,
        }
    }
}

// The most elements that are open while an item stands and after it.
#[inline(always)]
fn most_open(before: usize, item: &Item) -> usize
    requires { before < 2 ^ 63 }
    ensures { result ≡ spec.most_open before (item.now ∷ []) }
{
    match item {
        Item::Start { .. } | Item::Array(_) => before + 1,
        _ => before,
    }
}

/// The depth and the content of items, which more are put after.
#[derive(Clone, Copy, Debug)]
pub(crate) struct Measures {
    pub(crate) depth: u64,
    pub(crate) content: u64,
}

impl Measures {
    /// Those of no items.
    pub(crate) fn none() -> Measures
        ensures { AreMeasuresOf [] result }
    {
        Measures {
            depth: 0,
            content: 0,
        }
    }

    /// Those with a text of this value more, while so many elements are open.
    #[inline(always)]
    pub(crate) fn with_text(self, before: usize, value: &Value) -> Measures
        ensures { (items : List Item) → opened_by 0 items ≡ before → AreMeasuresOf items self
            → AreMeasuresOf (items ++ Item.Text value.now ∷ []) result }
    {
        Measures {
            depth: self.depth.max(before as u64),
            content: self.content.saturating_add(value.content()),
        }
    }

    /// Those with one item more, before which so many elements are open.
    #[inline(always)]
    pub(crate) fn with(self, before: usize, item: &Item) -> Measures
        requires { before < 2 ^ 63 }
        ensures { (items : List Item) → opened_by 0 items ≡ before → AreMeasuresOf items self
            → AreMeasuresOf (items ++ item.now ∷ []) result }
    {
        Measures {
            depth: self.depth.max(most_open(before, item) as u64),
            content: self.content.saturating_add(item.content()),
        }
    }
}
