//! Names and values in their chosen spelling, with the strings that a payload brings on the way.

ghost use Rattle.std.specs.Prelude.{◌≡◌, ◌<◌, ◌^◌, ◌++◌, [], Some, IfOk, IsTrue, false, flat_map, sum_by, length};
ghost use Rattle.std.specs.List.{list_all};
ghost use Rattle.std.specs.Str.{is_utf8};
ghost use Rattle.nbfx_values.specs.Measures.{scalar_content, value_content};
ghost use Rattle.nbfx_values.specs.Scalars.{is_valid_scalar, is_valid_value};
ghost use Rattle.nbfx_records.specs.Choices.{choice_seen};
ghost use Rattle.nbfx_records.specs.Chosen as chosen;
ghost use Rattle.nbfx_records.specs.Views.{name_seen};
ghost use Rattle.string_tables.specs.StringTable.{chosen_id};
ghost use Rattle.nbfx_encoder.specs.Placing as spec;

use nbfx_records::{NamePart, ScalarChoice, put_list_end, put_list_start, put_scalar};
use nbfx_values::{Kind, Scalar, Value};
use session_dictionary::{AddFault, SessionTable};
use static_dictionary::StaticTable;
use unit_streams::Memory;

/// Why an item isn't spelled.
#[derive(Clone, Copy, Debug, PartialEq, Eq)]
pub(crate) enum SpellFault {
    /// The name of a QName gets no identifier.
    Unnamed,
    Memory,
}

impl From<Memory> for SpellFault {
    ghost use Rattle.nbfx_encoder.specs.declared.speller.SpellFault.{SpellFault};

    ghost from_gives = { λ _ fault. fault ≡ SpellFault.Memory };

    fn from(_memory: Memory) -> SpellFault {
        SpellFault::Memory
    }
}

/// The nodes of a payload so far, and the strings that its identifiers name.
#[derive(Drop)]
pub(crate) struct Speller<'s> {
    pub(crate) statics: &'s StaticTable,
    pub(crate) kind: Kind,
    pub(crate) table: SessionTable,
    pub(crate) nodes: Vec<u8>,
}

impl<'s> Speller<'s> {
    ghost use Rattle.nbfx_encoder.specs.Inside.{Answers, Chooses, AddsStrings, names_of, writing_of};
    ghost use Rattle.nbfx_encoder.specs.Sound.{IsSound};

    // The identifier of a text.
    fn id(&self, text: &str) -> Option<u32>
        ensures { result ≡ chosen_id (names_of self.now) text.now }
    {
        match self.statics.id(text) {
            Some(id) => Some(id),
            None => self.table.id(text),
        }
    }

    // A name or a URI, which may become a string of the session.
    pub(crate) fn place<'t>(&mut self, text: &'t str) -> Result<NamePart<'t>, Memory>
        ensures placed { IfOk result (λ name. spec.place (writing_of self.old) (names_of self.old) text.now
            ≡ (name_seen name, names_of self.new)) }
        ensures kept { AddsStrings self.old self.new }
        ensures nodes { self.new.nodes ≡ self.old.nodes }
    {
        if let Some(id) = self.id(text) {
            return Ok(NamePart::Id(id));
        }
        if self.kind == Kind::Plain {
            return Ok(NamePart::Inline(text.as_bytes()));
        }
        match self.table.add(text) {
            Ok(id) => Ok(NamePart::Id(id)),
            Err(AddFault::Full) => Ok(NamePart::Inline(text.as_bytes())),
            Err(AddFault::Memory) => Err(Memory),
        }
    }

    // How a text is spelled as a value.
    fn text_choice<'v>(&self, value: &'v Scalar, text: &str) -> ScalarChoice<'v>
        requires { value.now ≡ Scalar.Text text.now }
        ensures { choice_seen result ≡ spec.spell_text (names_of self.now) text.now }
    {
        if text.is_empty() {
            return ScalarChoice::Known(value);
        }
        match self.id(text) {
            Some(id) => ScalarChoice::Named(id),
            None => ScalarChoice::Known(value),
        }
    }

    // How a value is spelled.
    fn choice<'v>(&mut self, value: &'v Scalar) -> Result<ScalarChoice<'v>, SpellFault>
        ensures spelled { Chooses (spec.spell_scalar (writing_of self.old) (names_of self.old) value.now)
            result (names_of self.new) }
        ensures kept { AddsStrings self.old self.new }
        ensures nodes { self.new.nodes ≡ self.old.nodes }
    {
        match value {
            Scalar::Text(text) => Ok(self.text_choice(value, text.as_str())),
            Scalar::QName(letter, name) => match self.place(name.as_str())? {
                NamePart::Id(id) => Ok(ScalarChoice::Qualified(*letter, id)),
                NamePart::Inline(_) => Err(SpellFault::Unnamed),
            },
            _ => Ok(ScalarChoice::Known(value)),
        }
    }

    // Appends a value, which may end the element that holds it.
    fn put_scalar(&mut self, value: &Scalar, ends: bool) -> Result<(), SpellFault>
        requires sound { IsSound (writing_of self.old) (names_of self.old) }
        requires valid { IsTrue (is_valid_scalar value.now) }
        requires few { scalar_content value.now < 2 ^ 31 }
        ensures spelled { Answers
            (spec.spell_scalar (writing_of self.old) (names_of self.old) value.now)
            (chosen.scalar_bytes ends) result self.old self.new }
        ensures kept { AddsStrings self.old self.new }
    {
        let choice = self.choice(value)?;
        put_scalar(choice, ends, &mut self.nodes)?;
        Ok(())
    }

    // Appends the values of a list.
    fn put_scalars(&mut self, values: &[Scalar]) -> Result<(), SpellFault>
        requires sound { IsSound (writing_of self.old) (names_of self.old) }
        requires valid { IsTrue (list_all is_valid_scalar values.now) }
        requires few { sum_by scalar_content values.now < 2 ^ 31 }
        ensures spelled { Answers
            (spec.spell_each (spec.spell_scalar (writing_of self.old)) (names_of self.old) values.now)
            (flat_map (chosen.scalar_bytes false)) result self.old self.new }
        ensures kept { AddsStrings self.old self.new }
    {
        for value in values {
            self.put_scalar(value, false)?;
        }
        Ok(())
    }

    // Appends a value or a list, which may end the element that holds it.
    pub(crate) fn put_value(&mut self, value: &Value, ends: bool) -> Result<(), SpellFault>
        requires sound { IsSound (writing_of self.old) (names_of self.old) }
        requires valid { IsTrue (is_valid_value value.now) }
        requires few { value_content value.now < 2 ^ 31 }
        ensures spelled { Answers
            (spec.spell_value (writing_of self.old) (names_of self.old) value.now)
            (chosen.value_bytes ends) result self.old self.new }
        ensures kept { AddsStrings self.old self.new }
    {
        match value {
            Value::One(value) => self.put_scalar(value, ends),
            Value::List(values) => {
                put_list_start(&mut self.nodes)?;
                self.put_scalars(values.as_slice())?;
                put_list_end(ends, &mut self.nodes)?;
                Ok(())
            }
        }
    }
}
