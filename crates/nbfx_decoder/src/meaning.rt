//! What a node means: each identifier is replaced by the text that it names.

ghost use Rattle.std.specs.Prelude.{◌≡◌, IfOk, IsTrue, option_map};
ghost use Rattle.std.specs.List.{list_all};
ghost use Rattle.std.specs.Str.{is_utf8};
ghost use Rattle.nbfx_values.specs.Items.{is_valid_array, is_valid_attribute, is_valid_item};
ghost use Rattle.nbfx_values.specs.Scalars.{is_valid_scalar, is_valid_value};
ghost use Rattle.string_tables.specs.StringTable.{named_text};
ghost use Rattle.nbfx_records.specs.Contents.{each};
ghost use Rattle.nbfx_records.specs.Meaning.{name_text, meant_scalar, meant_value, meant_part, meant_array, items_of};
ghost use Rattle.nbfx_records.specs.Valid.{is_valid_name, is_valid_raw, is_valid_text, is_valid_part, is_valid_node};
ghost use Rattle.nbfx_records.specs.Valid as raw;
ghost use Rattle.nbfx_records.specs.Views.{IsList, listed, name_seen, prefix_seen, scalar_seen};
ghost use Rattle.nbfx_decoder.specs.Meant.{Finds, FindsItems, MeansAttribute, MeansName, MeansValue, MeansValues, SaysAttribute, SaysText, SaysValue, SaysValues, items_in, table_of};

use nbfx_records::building::{name, next_value, prefix, scalar};
use nbfx_records::{
    ArrayNode, AttrNode, AttrNodes, NamePart, NameRef, Node, NodeFault, PrefixPart, RawScalar,
    RawValue, RawValues, ScalarPart,
};
use nbfx_values::{ArrayItem, AttrItem, Attrs, Item, Scalar, Txt, Value, Values};
use session_dictionary::SessionTable;
use static_dictionary::StaticTable;
use std::alloc::Global;
use unit_streams::Memory;

/// Why a node means nothing.
#[derive(Clone, Copy, Debug, PartialEq, Eq)]
pub(crate) enum Unmeant {
    /// An identifier names no string.
    UnknownString,
    Memory,
}

impl From<Memory> for Unmeant {
    ghost use Rattle.std.specs.Prelude.{◌≡◌};
    ghost use Rattle.nbfx_decoder.specs.declared.meaning.Unmeant.TheVariants as faults;

    ghost from_gives = { λ _ fault. fault ≡ faults.Memory };

    fn from(_memory: Memory) -> Unmeant {
        Unmeant::Memory
    }
}

/// What a node means.
#[derive(Debug, Drop)]
pub(crate) enum Meant {
    Item(Item),
    /// A text, and the end of the element that holds it.
    LastText(Value),
}

/// What identifiers name.
#[derive(Clone, Copy)]
pub(crate) struct Lookup<'a> {
    pub(crate) alloc: Global,
    pub(crate) statics: &'a StaticTable,
    pub(crate) strings: &'a SessionTable,
}

impl Lookup<'_> {
    #[inline(always)]
    pub(crate) fn text(&self, id: u32) -> Option<&str>
        ensures { option_map (λ text. text.now) result ≡ named_text (table_of self.now) id }
    {
        if id % 2 == 1 {
            self.strings.text(id)
        } else {
            self.statics.text(id)
        }
    }

    #[inline(never)]
    fn any_named(&self, id: u32) -> Result<Txt, Unmeant>
        ensures found { Finds (named_text (table_of self.now) id) result }
        ensures utf8 { IfOk result (λ text. IsTrue (is_utf8 text)) }
    {
        match self.text(id) {
            Some(text) => Ok(Txt::of(self.alloc, text)?),
            None => Err(Unmeant::UnknownString),
        }
    }

    #[inline(always)]
    fn named(&self, id: u32) -> Result<Txt, Unmeant>
        ensures found { Finds (named_text (table_of self.now) id) result }
        ensures utf8 { IfOk result (λ text. IsTrue (is_utf8 text)) }
    {
        if id % 2 == 0 {
            if let Some(text) = self.statics.short_copy(id) {
                return Ok(text);
            }
        }
        self.any_named(id)
    }

    #[inline(always)]
    fn name(&self, name: NameRef) -> Result<Txt, Unmeant>
        ensures found { Finds (name_text (table_of self.now) name) result }
        ensures utf8 { IsTrue (is_valid_name name) → IfOk result (λ text. IsTrue (is_utf8 text)) }
    {
        match name {
            NameRef::Inline(text) => Ok(text),
            NameRef::Id(id) => self.named(id),
        }
    }

    #[inline(always)]
    fn scalar(&self, scalar: RawScalar) -> Result<Scalar, Unmeant>
        ensures found { Finds (meant_scalar (table_of self.now) scalar) result }
        ensures valid { IsTrue (is_valid_raw scalar)
            → IfOk result (λ scalar. IsTrue (is_valid_scalar scalar)) }
    {
        match scalar {
            RawScalar::Known(scalar) => Ok(scalar),
            RawScalar::Dictionary(id) => Ok(Scalar::Text(self.any_named(id)?)),
            RawScalar::QName(letter, id) => Ok(Scalar::QName(letter, self.any_named(id)?)),
        }
    }

    #[inline(never)]
    fn scalars(&self, raw: RawValues) -> Result<Values, Unmeant>
        ensures found { Finds (each (meant_scalar (table_of self.now)) raw) result }
        ensures valid { IsTrue (list_all is_valid_raw raw)
            → IfOk result (λ values. IsTrue (list_all is_valid_scalar values)) }
    {
        let mut values = Values::new(self.alloc);
        for scalar in raw.into_vec() {
            values.push(self.scalar(scalar)?)?;
        }
        Ok(values)
    }

    // What a value of a list means. It is of its kind, and the tables have the string that it
    // names.
    fn value_in(&self, part: &ScalarPart) -> Result<Scalar, Memory>
        requires { MeansValue (table_of self.now) (scalar_seen part.now) }
        ensures says { IfOk result (SaysValue (table_of self.now) (scalar_seen part.now)) }
        ensures valid { IfOk result (λ scalar. IsTrue (is_valid_scalar scalar)) }
    {
        match scalar(self.alloc, part) {
            Ok(raw) => match self.scalar(raw) {
                Ok(scalar) => Ok(scalar),
                Err(Unmeant::Memory) => Err(Memory),
                Err(Unmeant::UnknownString) => unreachable!(),
            },
            Err(NodeFault::Memory) => Err(Memory),
            Err(NodeFault::Record(_)) => unreachable!(),
        }
    }

    // The values of such a list, each made of its bytes alone.
    fn values_in(&self, list: &[u8]) -> Result<Values, Memory>
        requires list { IsList list.now }
        requires means { MeansValues (table_of self.now) (listed list.now) }
        ensures says { IfOk result (SaysValues (table_of self.now) (listed list.now)) }
        ensures valid { IfOk result (λ values. IsTrue (list_all is_valid_scalar values)) }
    {
        let mut values = Values::new(self.alloc);
        let mut rest = list;
        while let Some((part, behind)) = next_value(rest) {
            values.push(self.value_in(&part)?)?;
            rest = behind;
        }
        Ok(values)
    }

    /// What a text means that is a list. Its values are of their kinds, and the tables have the
    /// strings that they name.
    #[inline(never)]
    pub(crate) fn list_text(&self, list: &[u8], ends: bool) -> Result<Meant, Memory>
        requires list { IsList list.now }
        requires means { MeansValues (table_of self.now) (listed list.now) }
        ensures says { IfOk result (SaysText (table_of self.now) (listed list.now) ends) }
        ensures valid { IfOk result (λ meant. IsTrue (list_all is_valid_item (items_in meant))) }
    {
        let value = Value::List(self.values_in(list)?);
        if ends {
            Ok(Meant::LastText(value))
        } else {
            Ok(Meant::Item(Item::Text(value)))
        }
    }

    // The text of a prefix that is UTF-8.
    fn prefix_in(&self, part: &PrefixPart) -> Result<Txt, Memory>
        requires { IsTrue (is_utf8 (prefix_seen part.now)) }
        ensures { IfOk result (λ text. text ≡ prefix_seen part.now) }
    {
        match prefix(self.alloc, part) {
            Ok(text) => Ok(text),
            Err(NodeFault::Memory) => Err(Memory),
            Err(NodeFault::Record(_)) => unreachable!(),
        }
    }

    // A name that is UTF-8, or whose identifier names a string.
    fn name_in(&self, part: &NamePart) -> Result<Txt, Memory>
        requires { MeansName (table_of self.now) (name_seen part.now) }
        ensures says { IfOk result
            (λ text. name_text (table_of self.now) (name_seen part.now) ≡ Some text) }
        ensures utf8 { IfOk result (λ text. IsTrue (is_utf8 text)) }
    {
        match name(self.alloc, part) {
            Ok(raw) => match self.name(raw) {
                Ok(text) => Ok(text),
                Err(Unmeant::Memory) => Err(Memory),
                Err(Unmeant::UnknownString) => unreachable!(),
            },
            Err(NodeFault::Memory) => Err(Memory),
            Err(NodeFault::Record(_)) => unreachable!(),
        }
    }

    /// What an attribute means whose value is such a list.
    #[inline(never)]
    pub(crate) fn list_attribute(
        &self,
        prefix: &PrefixPart,
        name: &NamePart,
        list: &[u8],
    ) -> Result<Meant, Memory>
        requires list { IsList list.now }
        requires means { MeansAttribute (table_of self.now) (prefix_seen prefix.now)
            (name_seen name.now) (listed list.now) }
        ensures says { IfOk result (SaysAttribute (table_of self.now) (prefix_seen prefix.now)
            (name_seen name.now) (listed list.now)) }
        ensures valid { IfOk result (λ meant. IsTrue (list_all is_valid_item (items_in meant))) }
    {
        Ok(Meant::Item(Item::Attr {
            prefix: self.prefix_in(prefix)?,
            local: self.name_in(name)?,
            value: Value::List(self.values_in(list)?),
        }))
    }

    #[inline(always)]
    fn value(&self, value: RawValue) -> Result<Value, Unmeant>
        ensures found { Finds (meant_value (table_of self.now) value) result }
        ensures valid { IsTrue (is_valid_text value)
            → IfOk result (λ value. IsTrue (is_valid_value value)) }
    {
        match value {
            RawValue::One(scalar) => Ok(Value::One(self.scalar(scalar)?)),
            RawValue::List(scalars) => Ok(Value::List(self.scalars(scalars)?)),
        }
    }

    fn part(&self, part: AttrNode) -> Result<AttrItem, Unmeant>
        ensures found { Finds (meant_part (table_of self.now) part) result }
        ensures valid { IsTrue (is_valid_part part)
            → IfOk result (λ item. IsTrue (is_valid_attribute item)) }
    {
        match part {
            AttrNode::Attribute {
                prefix,
                name,
                value,
            } => Ok(AttrItem::Attr {
                prefix,
                local: self.name(name)?,
                value: self.value(value)?,
            }),
            AttrNode::Xmlns { prefix, uri } => Ok(AttrItem::Xmlns {
                prefix,
                uri: self.name(uri)?,
            }),
        }
    }

    fn parts(&self, raw: AttrNodes) -> Result<Attrs, Unmeant>
        ensures found { Finds (each (meant_part (table_of self.now)) raw) result }
        ensures valid { IsTrue (list_all is_valid_part raw)
            → IfOk result (λ items. IsTrue (list_all is_valid_attribute items)) }
    {
        let mut parts = Attrs::new(self.alloc);
        for part in raw.into_vec() {
            parts.push(self.part(part)?)?;
        }
        Ok(parts)
    }

    #[inline(never)]
    fn array(&self, array: ArrayNode) -> Result<ArrayItem, Unmeant>
        ensures found { Finds (meant_array (table_of self.now) array) result }
        ensures valid { IsTrue (raw.is_valid_array array)
            → IfOk result (λ item. IsTrue (is_valid_array item)) }
    {
        let ArrayNode {
            prefix,
            name,
            attrs,
            kind,
            values,
        } = array;
        Ok(ArrayItem {
            prefix,
            local: self.name(name)?,
            attrs: self.parts(attrs)?,
            kind,
            values,
        })
    }

    /// What the node means.
    #[inline(always)]
    pub(crate) fn meant(&self, node: Node) -> Result<Meant, Unmeant>
        ensures found { FindsItems (items_of (table_of self.now) node) result }
        ensures valid { IsTrue (is_valid_node node)
            → IfOk result (λ meant. IsTrue (list_all is_valid_item (items_in meant))) }
    {
        match node {
            Node::EndElement => Ok(Meant::Item(Item::Close)),
            Node::Comment(text) => Ok(Meant::Item(Item::Comment(text))),
            Node::Array(array) => Ok(Meant::Item(Item::Array(self.array(array)?))),
            Node::Attribute {
                prefix,
                name,
                value,
            } => Ok(Meant::Item(Item::Attr {
                prefix,
                local: self.name(name)?,
                value: self.value(value)?,
            })),
            Node::Xmlns { prefix, uri } => Ok(Meant::Item(Item::Xmlns {
                prefix,
                uri: self.name(uri)?,
            })),
            Node::Element { prefix, name } => Ok(Meant::Item(Item::Start {
                prefix,
                local: self.name(name)?,
            })),
            Node::Text { value, ends: true } => Ok(Meant::LastText(self.value(value)?)),
            Node::Text { value, ends: false } => Ok(Meant::Item(Item::Text(self.value(value)?))),
        }
    }
}
