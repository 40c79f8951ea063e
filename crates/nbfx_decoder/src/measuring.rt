//! How much the meaning of a record counts in a document's content. It is counted before anything
//! of it is kept, since a few bytes may name long texts many times.

ghost use Rattle.std.specs.Prelude.{◌≡◌, ◌+◌, ◌&&◌, Some, length, sum_by};
ghost use Rattle.std.specs.List.{list_all};
ghost use Rattle.std.specs.Str.{is_utf8};
ghost use Rattle.nbfx_values.specs.Measures.{capped, scalar_content};
ghost use Rattle.string_tables.specs.StringTable.{named_text};
ghost use Rattle.nbfx_records.specs.Contents.{attribute_is_text, attribute_judged, attributes_judged, array_judged, behind_texts, cells_judged, contents, judge, name_is_text, scalars_judged, text_judged, value_judged};
ghost use Rattle.nbfx_records.specs.Meaning.{name_text};
ghost use Rattle.nbfx_records.specs.Views.{AreParts, AreSized, HoldsLists, IsList, IsSoundAttribute, IsSoundRecord, array_seen, attribute_seen, cells_seen, listed, name_seen, parts_of, prefix_seen, record_seen, value_seen};
ghost use Rattle.nbfx_decoder.specs.Meant.{table_of};
ghost use Rattle.nbfx_decoder.specs.Measuring.{Measures, sum_of, weigh_array, weigh_name, weigh_node, weigh_part, weigh_parts, weigh_scalar, weigh_scalars, weigh_value, weighed};

use crate::meaning::Lookup;
use nbfx_records::building::{
    name, next_part, next_value, parts_have_text, prefix, scalar, scalar_before,
};
use nbfx_records::values::{known, text};
use nbfx_records::{
    ArrayPart, AttributePart, CellsPart, NamePart, NameRef, NodeFault, PrefixPart, RawScalar,
    RecordFault, RecordPart, ValuePart, text_kind_in, width,
};

// What two count together, where each identifier names a string.
#[inline(always)]
fn together(first: Option<u64>, more: Option<u64>) -> Option<u64>
    ensures { result ≡ sum_of first more }
{
    Some(first?.saturating_add(more?))
}

impl Lookup<'_> {
    #[inline(always)]
    fn named_size(&self, id: u32) -> Option<u64>
        ensures { result ≡ weighed length (named_text (table_of self.now) id) }
    {
        match self.text(id) {
            Some(text) => Some(text.len() as u64),
            None => None,
        }
    }

    #[inline(always)]
    fn name_size(&self, name: &NameRef) -> Option<u64>
        ensures { result ≡ weigh_name (table_of self.now) name.now }
    {
        match name {
            NameRef::Inline(text) => Some(text.len() as u64),
            NameRef::Id(id) => self.named_size(*id),
        }
    }

    #[inline(always)]
    fn scalar_size(&self, raw: &RawScalar) -> Option<u64>
        ensures { result ≡ weigh_scalar (table_of self.now) raw.now }
    {
        match raw {
            RawScalar::Known(scalar) => Some(scalar.content()),
            RawScalar::Dictionary(id) | RawScalar::QName(_, id) => self.named_size(*id),
        }
    }

    // The values of a list.
    fn list_size(&self, list: &[u8]) -> Result<Option<u64>, NodeFault>
        requires { IsList list.now }
        ensures { Measures (scalars_judged (listed list.now)) (weigh_scalars (table_of self.now))
            result }
    {
        let mut content = Some(0);
        let mut rest = list;
        while let Some((part, behind)) = next_value(rest) {
            let raw = scalar_before(self.alloc, &part, behind)?;
            content = together(content, self.scalar_size(&raw));
            drop(raw);
            rest = behind;
        }
        Ok(content)
    }

    fn value_size(&self, part: &ValuePart) -> Result<Option<u64>, NodeFault>
        requires { HoldsLists part.now }
        ensures { Measures (value_judged (value_seen part.now)) (weigh_value (table_of self.now))
            result }
    {
        match part {
            ValuePart::One(part) => {
                let raw = scalar(self.alloc, part)?;
                let size = self.scalar_size(&raw);
                drop(raw);
                Ok(size)
            }
            ValuePart::List(list) => self.list_size(list),
        }
    }

    // A prefix and a name.
    fn names_size(
        &self,
        prefix_part: &PrefixPart,
        name_part: &NamePart,
    ) -> Result<Option<u64>, NodeFault>
        ensures { Measures (judge (is_utf8 (prefix_seen prefix_part.now)
            && name_is_text (name_seen name_part.now)) (Some (name_seen name_part.now)))
            (λ named. weighed (λ local. length (prefix_seen prefix_part.now) + length local)
            (name_text (table_of self.now) named)) result }
    {
        let prefix = prefix(self.alloc, prefix_part)?;
        let name = name(self.alloc, name_part)?;
        Ok(together(Some(prefix.len() as u64), self.name_size(&name)))
    }

    fn attribute_size(&self, part: &AttributePart) -> Result<Option<u64>, NodeFault>
        requires { IsSoundAttribute part.now }
        ensures { Measures (attribute_judged (attribute_seen part.now))
            (weigh_part (table_of self.now)) result }
    {
        match part {
            AttributePart::Attribute {
                prefix,
                name,
                value,
            } => {
                let names = self.names_size(prefix, name)?;
                Ok(together(names, self.value_size(value)?))
            }
            AttributePart::Declaration { prefix, uri } => self.names_size(prefix, uri),
        }
    }

    // An attribute, after which others come: a text of these that isn't UTF-8 is reported before a
    // wrong value of it.
    fn size_before(&self, part: &AttributePart, rest: &[u8]) -> Result<Option<u64>, NodeFault>
        requires sound { IsSoundAttribute part.now }
        requires rest { AreParts rest.now }
        ensures { Measures (behind_texts (list_all attribute_is_text (parts_of rest.now))
            (attribute_judged (attribute_seen part.now))) (weigh_part (table_of self.now)) result }
    {
        match self.attribute_size(part) {
            Err(NodeFault::Record(RecordFault::BadValue)) => {
                if parts_have_text(rest) {
                    Err(NodeFault::Record(RecordFault::BadValue))
                } else {
                    Err(NodeFault::Record(RecordFault::BadUtf8))
                }
            }
            found => found,
        }
    }

    // The attributes of an array's element.
    fn parts_size(&self, parts: &[u8]) -> Result<Option<u64>, NodeFault>
        requires { AreParts parts.now }
        ensures { Measures (attributes_judged (parts_of parts.now)) (weigh_parts (table_of self.now))
            result }
    {
        let mut content = Some(0);
        let mut rest = parts;
        while let Some((part, behind)) = next_part(rest) {
            content = together(content, self.size_before(&part, behind)?);
            rest = behind;
        }
        Ok(content)
    }

    // The values of an array.
    fn cells_size(&self, part: &CellsPart) -> Result<Option<u64>, NodeFault>
        requires { AreSized part.now }
        ensures { Measures (cells_judged (cells_seen part.now))
            (λ values. Some (capped (sum_by scalar_content values))) result }
    {
        let kind = text_kind_in(part.kind);
        let width = width(part.kind);
        let mut content: u64 = 0;
        let mut rest = part.bytes;
        for _place in 0..part.count {
            let (cell, behind) = rest.split_at(width);
            let value = known(self.alloc, kind, cell)?;
            content = content.saturating_add(value.content());
            drop(value);
            rest = behind;
        }
        Ok(Some(content))
    }

    #[inline(never)]
    fn array_size(&self, part: &ArrayPart) -> Result<Option<u64>, NodeFault>
        requires parts { AreParts part.now.attributes.now }
        requires sized { AreSized part.now.cells }
        ensures { Measures (array_judged (array_seen part.now)) (weigh_array (table_of self.now))
            result }
    {
        let names = self.names_size(&part.element.prefix, &part.element.name)?;
        let parts = self.parts_size(part.attributes)?;
        let cells = self.cells_size(&part.cells)?;
        Ok(together(together(names, parts), cells))
    }

    fn comment_size(&self, bytes: &[u8]) -> Result<Option<u64>, NodeFault>
        ensures { Measures (text_judged bytes.now) (λ text. Some (capped (length text))) result }
    {
        let text = text(self.alloc, bytes)?;
        let size = text.len() as u64;
        drop(text);
        Ok(Some(size))
    }

    /// How much a complete record counts in the document's content; None where one of its
    /// identifiers names no string. It fails where no node can be made of the record.
    #[inline(never)]
    #[tactic(auto, unfolding(nbfx_records::specs::Contents::contents))]
    pub(crate) fn record_size(&self, part: &RecordPart) -> Result<Option<u64>, NodeFault>
        requires { IsSoundRecord part.now }
        ensures { Measures (contents (record_seen part.now)) (weigh_node (table_of self.now))
            result }
    {
        match part {
            RecordPart::EndElement => Ok(Some(0)),
            RecordPart::Comment(bytes) => self.comment_size(bytes),
            RecordPart::Element(part) => self.names_size(&part.prefix, &part.name),
            RecordPart::Attribute(part) => self.attribute_size(part),
            RecordPart::Text(part, _) => self.value_size(part),
            RecordPart::Array(part) => self.array_size(part),
        }
    }
}
