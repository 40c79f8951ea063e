// The characters of texts and elements.
ghost use Rattle.std.specs.Prelude.{◌≡◌, ◌++◌, IfOk, IsTrue, OnOk, slice_get, string_bytes};
ghost use Rattle.std.specs.List.{list_all};
ghost use Rattle.nbfx_values.specs.Characters.{value_characters};
ghost use Rattle.nbfx_values.specs.Items.{is_valid_item};
ghost use Rattle.nbfx_values.specs.Scalars.{is_valid_value};
ghost use Rattle.soap_envelope.specs.Characters as spec;
ghost use Rattle.soap_envelope.specs.Characters.{are_white, is_white};

use crate::characters::{characters_in, has_characters};
use crate::children::Children;
use nbfx_values::{Item, Txt, Value};
use std::alloc::Global;
use unit_streams::Memory;

// Whether all characters are white.
fn is_blank(characters: &str) -> bool
    ensures { result ≡ list_all is_white characters.now }
{
    characters
        .as_bytes()
        .iter()
        .all(|c| matches!(*c, b' ' | b'\t' | b'\n' | b'\r'))
}

// Whether a value has characters, and only white ones.
fn has_only_white(alloc: Global, value: &Value) -> Result<bool, Memory>
    requires { IsTrue (is_valid_value value.now) }
    ensures { IfOk result (λ white. white ≡ are_white (value_characters value.now)) }
{
    Ok(match characters_in(alloc, value)? {
        Some(characters) => is_blank(characters.as_str()),
        None => false,
    })
}

// Whether the child at a place is passed over where elements are wanted: a comment or a blank text.
pub(crate) fn is_passed(alloc: Global, items: &[Item], at: usize) -> Result<bool, Memory>
    requires { IsTrue (list_all is_valid_item items.now) }
    ensures { IfOk result (λ passed. passed ≡ spec.is_passed (slice_get items.now at)) }
{
    match items.get(at) {
        Some(Item::Comment(_)) => Ok(true),
        Some(Item::Text(value)) => has_only_white(alloc, value),
        _ => Ok(false),
    }
}

// Whether the child at a place may stand where characters are wanted: a comment or a text with
// characters.
fn is_plain(items: &[Item], at: usize) -> bool
    ensures { result ≡ spec.is_plain (slice_get items.now at) }
{
    match items.get(at) {
        Some(Item::Comment(_)) => true,
        Some(Item::Text(value)) => has_characters(value),
        _ => false,
    }
}

// Whether all children of the element that begins at a place are.
pub(crate) fn has_plain_content(items: &[Item], at: usize) -> bool
    ensures { result ≡ spec.has_plain_content items.now at }
{
    let mut children = Children::of(items, at);
    while let Some(child) = children.next() {
        if !is_plain(items, child) {
            return false;
        }
    }
    true
}

// Appends the characters of the text at a place to others, if a text stands there.
fn put_characters(alloc: Global, text: &mut String, items: &[Item], at: usize) -> Result<(), Memory>
    requires { IsTrue (list_all is_valid_item items.now) }
    ensures { OnOk result (string_bytes text.new
        ≡ string_bytes text.old ++ spec.characters_of (slice_get items.now at)) }
{
    if let Some(Item::Text(value)) = items.get(at) {
        if let Some(characters) = characters_in(alloc, value)? {
            text.push_str(characters.as_str())?;
            return Ok(());
        }
    }
    Ok(())
}

// The characters of the element that begins at a place.
pub(crate) fn text_of(alloc: Global, items: &[Item], at: usize) -> Result<Txt, Memory>
    requires { IsTrue (list_all is_valid_item items.now) }
    ensures { IfOk result (λ text. text ≡ spec.text_of items.now at) }
{
    let mut text = String::new(alloc);
    let mut children = Children::of(items, at);
    while let Some(child) = children.next() {
        put_characters(alloc, &mut text, items, child)?;
    }
    Ok(Txt::from(text))
}
