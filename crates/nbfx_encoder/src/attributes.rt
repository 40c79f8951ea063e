//! Declarations, attributes and arrays in their chosen spelling.

ghost use Rattle.std.specs.Prelude.{◌≡◌, ◌+◌, ◌<◌, ◌^◌, IsTrue, flat_map, sum_by, length};
ghost use Rattle.std.specs.List.{list_all};
ghost use Rattle.std.specs.Str.{is_utf8};
ghost use Rattle.nbfx_values.specs.Items.{are_texts, is_valid_array, is_valid_attribute};
ghost use Rattle.nbfx_values.specs.Measures.{array_content, attribute_content, value_content};
ghost use Rattle.nbfx_values.specs.Scalars.{is_valid_value};
ghost use Rattle.nbfx_records.specs.Chosen.{array_bytes, part_bytes};
ghost use Rattle.nbfx_encoder.specs.Placing as spec;

use crate::speller::{SpellFault, Speller};
use nbfx_records::{
    put_array_start, put_array_values, put_attribute_start, put_declaration, put_element,
};
use nbfx_values::{ArrayItem, AttrItem, Value};

impl<'s> Speller<'s> {
    ghost use Rattle.nbfx_encoder.specs.Inside.{Answers, AddsStrings, names_of, writing_of};
    ghost use Rattle.nbfx_encoder.specs.Sound.{IsSound};

    // Appends an attribute, whose name is placed before its value.
    pub(crate) fn put_attribute(
        &mut self,
        prefix: &str,
        local: &str,
        value: &Value,
    ) -> Result<(), SpellFault>
        requires sound { IsSound (writing_of self.old) (names_of self.old) }
        requires valid { IsTrue (is_valid_attribute (AttrItem.Attr prefix.now local.now value.now)) }
        requires few { attribute_content (AttrItem.Attr prefix.now local.now value.now) < 2 ^ 31 }
        ensures spelled { Answers (spec.spell_part (writing_of self.old) (names_of self.old)
            (AttrItem.Attr prefix.now local.now value.now)) part_bytes result self.old self.new }
        ensures kept { AddsStrings self.old self.new }
    {
        let name = self.place(local)?;
        put_attribute_start(prefix, name, &mut self.nodes)?;
        self.put_value(value, false)
    }

    // Appends a declaration.
    pub(crate) fn put_xmlns(&mut self, prefix: &str, uri: &str) -> Result<(), SpellFault>
        requires sound { IsSound (writing_of self.old) (names_of self.old) }
        requires valid { IsTrue (is_valid_attribute (AttrItem.Xmlns prefix.now uri.now)) }
        requires few { attribute_content (AttrItem.Xmlns prefix.now uri.now) < 2 ^ 31 }
        ensures spelled { Answers (spec.spell_part (writing_of self.old) (names_of self.old)
            (AttrItem.Xmlns prefix.now uri.now)) part_bytes result self.old self.new }
        ensures kept { AddsStrings self.old self.new }
    {
        let name = self.place(uri)?;
        put_declaration(prefix, name, &mut self.nodes)?;
        Ok(())
    }

    fn put_part(&mut self, part: &AttrItem) -> Result<(), SpellFault>
        requires sound { IsSound (writing_of self.old) (names_of self.old) }
        requires valid { IsTrue (is_valid_attribute part.now) }
        requires few { attribute_content part.now < 2 ^ 31 }
        ensures spelled { Answers (spec.spell_part (writing_of self.old) (names_of self.old) part.now)
            part_bytes result self.old self.new }
        ensures kept { AddsStrings self.old self.new }
    {
        match part {
            AttrItem::Xmlns { prefix, uri } => self.put_xmlns(prefix.as_str(), uri.as_str()),
            AttrItem::Attr {
                prefix,
                local,
                value,
            } => self.put_attribute(prefix.as_str(), local.as_str(), value),
        }
    }

    // Appends the declarations and attributes of an array's element.
    fn put_parts(&mut self, parts: &[AttrItem]) -> Result<(), SpellFault>
        requires sound { IsSound (writing_of self.old) (names_of self.old) }
        requires valid { IsTrue (list_all is_valid_attribute parts.now) }
        requires few { sum_by attribute_content parts.now < 2 ^ 31 }
        ensures spelled { Answers
            (spec.spell_each (spec.spell_part (writing_of self.old)) (names_of self.old) parts.now)
            (flat_map part_bytes) result self.old self.new }
        ensures kept { AddsStrings self.old self.new }
    {
        for part in parts {
            self.put_part(part)?;
        }
        Ok(())
    }

    // Appends an array, whose name is placed before its element's declarations and attributes.
    pub(crate) fn put_array(&mut self, array: &ArrayItem) -> Result<(), SpellFault>
        requires sound { IsSound (writing_of self.old) (names_of self.old) }
        requires valid { IsTrue (is_valid_array array.now) }
        requires few { array_content array.now < 2 ^ 31 }
        ensures spelled { Answers
            (spec.spell_array (writing_of self.old) (names_of self.old) array.now)
            array_bytes result self.old self.new }
        ensures kept { AddsStrings self.old self.new }
    {
        put_array_start(&mut self.nodes)?;
        let name = self.place(array.local.as_str())?;
        put_element(array.prefix.as_str(), name, &mut self.nodes)?;
        self.put_parts(array.attrs.as_slice())?;
        put_array_values(array.kind, array.values.as_slice(), &mut self.nodes)?;
        Ok(())
    }
}
