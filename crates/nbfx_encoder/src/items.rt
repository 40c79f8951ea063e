//! The items of a document in their chosen spelling, one after the other.

ghost use Rattle.std.specs.Prelude.{◌≡◌, ℕ, ◌+◌, ◌<◌, ◌≤◌, ◌^◌, ◌∷◌, ◌++◌, List, Err, IfErr, IfNone, IfOk, IfSome, IsErrOf, Ok, IsTrue, OnOk, drop, flat_map, length};
ghost use Rattle.std.specs.List.{list_all};
ghost use Rattle.nbfx_values.specs.Items.{is_valid_item};
ghost use Rattle.nbfx_values.specs.Measures.{content_of, item_content};
ghost use Rattle.nbfx_values.specs.declared.content.Item.{Item};
ghost use Rattle.nbfx_records.specs.Chosen.{chosen_bytes};
ghost use Rattle.nbfx_encoder.specs.Inside.{fault_told};
ghost use Rattle.nbfx_encoder.specs.Spelling.{an_item, in_records, spell, spell_item};

use crate::faults::EncodeFault;
use crate::speller::{SpellFault, Speller};
use nbfx_records::{put_comment, put_element, put_end_element};
use nbfx_values::{Item, Value};

// The value of a text right before an end of an element, which shares its record.
fn last_text(items: &[Item]) -> Option<&Value>
    ensures some { IfSome result (λ value. (rest : List Item)
        × (items.now ≡ Item.Text value.now ∷ Item.Close ∷ rest)) }
    ensures none { IfNone result ((item : Item) (rest : List Item) → items.now ≡ item ∷ rest
        → in_records items.now ≡ an_item item ∷ in_records rest) }
{
    let text = match items.first()? {
        Item::Text(value) => value,
        _ => return None,
    };
    match items.get(1)? {
        Item::Close => Some(text),
        _ => None,
    }
}

// The answer after a record that says so many items, the first of which has this number: how many
// they are, or why it wasn't put.
fn said(put: Result<(), SpellFault>, count: usize, at: usize) -> Result<usize, EncodeFault>
    ensures put { OnOk put (result ≡ Ok count) }
    ensures refused { IfErr put (λ fault. result ≡ Err (fault_told fault at)) }
{
    match put {
        Ok(()) => Ok(count),
        Err(SpellFault::Unnamed) => Err(EncodeFault::NoIdForQName { item: at as u64 }),
        Err(SpellFault::Memory) => Err(EncodeFault::Memory),
    }
}

impl<'s> Speller<'s> {
    ghost use Rattle.nbfx_encoder.specs.Inside.{Answers, HasSpelled, AddsStrings, PutsRecord, names_of, writing_of};
    ghost use Rattle.nbfx_encoder.specs.Sound.{IsSound};

    // Appends the beginning of an element.
    fn put_start(&mut self, prefix: &str, local: &str) -> Result<(), SpellFault>
        requires sound { IsSound (writing_of self.old) (names_of self.old) }
        requires valid { IsTrue (is_valid_item (Item.Start prefix.now local.now)) }
        requires few { item_content (Item.Start prefix.now local.now) < 2 ^ 31 }
        ensures spelled { Answers (spell_item (writing_of self.old) (names_of self.old)
            (Item.Start prefix.now local.now)) chosen_bytes result self.old self.new }
        ensures kept { AddsStrings self.old self.new }
    {
        let name = self.place(local)?;
        put_element(prefix, name, &mut self.nodes)?;
        Ok(())
    }

    // Appends an item, which has a record of its own.
    fn put_item(&mut self, item: &Item) -> Result<(), SpellFault>
        requires sound { IsSound (writing_of self.old) (names_of self.old) }
        requires valid { IsTrue (is_valid_item item.now) }
        requires few { item_content item.now < 2 ^ 31 }
        ensures spelled { Answers (spell_item (writing_of self.old) (names_of self.old) item.now)
            chosen_bytes result self.old self.new }
        ensures kept { AddsStrings self.old self.new }
    {
        match item {
            Item::Start { prefix, local } => self.put_start(prefix.as_str(), local.as_str()),
            Item::Xmlns { prefix, uri } => self.put_xmlns(prefix.as_str(), uri.as_str()),
            Item::Attr {
                prefix,
                local,
                value,
            } => self.put_attribute(prefix.as_str(), local.as_str(), value),
            Item::Text(value) => self.put_value(value, false),
            Item::Comment(text) => {
                put_comment(text.as_str(), &mut self.nodes)?;
                Ok(())
            }
            Item::Array(array) => self.put_array(array),
            Item::Close => {
                put_end_element(&mut self.nodes)?;
                Ok(())
            }
        }
    }

    // Appends the record of the first item, or of the first two, and answers how many they are. The
    // first has this number in the document.
    fn put_record(&mut self, items: &[Item], at: usize) -> Result<usize, EncodeFault>
        requires some { 0 < length items.now }
        requires sound { IsSound (writing_of self.old) (names_of self.old) }
        requires valid { IsTrue (list_all is_valid_item items.now) }
        requires few { content_of items.now < 2 ^ 31 }
        ensures put { PutsRecord items.now at result self.old self.new }
        ensures kept { AddsStrings self.old self.new }
    {
        match last_text(items) {
            Some(value) => said(self.put_value(value, true), 2, at),
            None => said(self.put_item(&items[0]), 1, at),
        }
    }

    /// Appends the nodes of a document's items, which are within the quotas on content.
    pub(crate) fn put_items(&mut self, items: &[Item]) -> Result<(), EncodeFault>
        requires sound { IsSound (writing_of self.old) (names_of self.old) }
        requires valid { IsTrue (list_all is_valid_item items.now) }
        requires few { content_of items.now < 2 ^ 31 }
        ensures spelled { HasSpelled (spell (writing_of self.old) (names_of self.old) items.now)
            result self.old self.new }
        ensures kept { AddsStrings self.old self.new }
    {
        let mut at = 0;
        while at < items.len() {
            at += self.put_record(&items[at..], at)?;
        }
        Ok(())
    }
}
