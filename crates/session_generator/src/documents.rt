//! One document of a seed.

ghost use Rattle.std.specs.Prelude.{◌≡◌, ◌∷◌, ◌++◌, [], IfOk, OnOk, codes, pos};
ghost use Rattle.nbfx_values.specs.declared.content.Item.TheVariants as item;
ghost use Rattle.nbfx_values.specs.declared.scalars.Scalar.TheVariants as scalar;
ghost use Rattle.nbfx_values.specs.declared.scalars.Value.TheVariants as value;
ghost use Rattle.session_generator.specs.Documents.{document, letters, root_name};

use nbfx_values::{Doc, Item, Items, Memory, Scalar, Txt, Value};
use std::alloc::Global;

// One of fifty names.
fn root_name(alloc: Global, drawn: u32) -> Result<Txt, Memory>
    ensures { IfOk result (λ name. name ≡ root_name drawn) }
{
    let name = format!(in alloc; "n{}", drawn % 50)?;
    Ok(Txt::from(name))
}

// Up to 299 letters.
fn letters(alloc: Global, drawn: u32) -> Result<Txt, Memory>
    ensures { IfOk result (λ text. text ≡ letters drawn) }
{
    let text = "x".repeat(alloc, (drawn / 64 % 300) as usize)?;
    Ok(Txt::from(text))
}

// The beginning of an element without a prefix.
fn put_start(items: &mut Items, local: Txt) -> Result<(), Memory>
    ensures { OnOk result (items.new ≡ items.old ++ item.Start [] local ∷ []) }
{
    items.push(Item::Start {
        prefix: Txt::empty(),
        local,
    })
}

// A text.
fn put_text(items: &mut Items, scalar: Scalar) -> Result<(), Memory>
    ensures { OnOk result (items.new ≡ items.old ++ item.Text (value.One scalar) ∷ []) }
{
    items.push(Item::Text(Value::One(scalar)))
}

// The items of the document with this number, which is made of what was drawn.
fn put_items(alloc: Global, items: &mut Items, number: u32, drawn: u32) -> Result<(), Memory>
    ensures { OnOk result (items.new ≡ items.old ++ document number drawn) }
{
    put_start(items, root_name(alloc, drawn)?)?;
    items.push(Item::Attr {
        prefix: Txt::empty(),
        local: Txt::of_ascii(b'k'),
        value: Value::One(Scalar::Number(i128::from(number))),
    })?;
    put_text(items, Scalar::Number(i128::from(drawn)))?;
    put_start(items, Txt::of_ascii(b't'))?;
    put_text(items, Scalar::Text(letters(alloc, drawn)?))?;
    items.push(Item::Close)?;
    items.push(Item::Close)
}

// That document, in the memory of items that are no longer needed.
pub(crate) fn document(alloc: Global, room: Items, number: u32, drawn: u32) -> Result<Doc, Memory>
    ensures { IfOk result (λ doc. doc ≡ document number drawn) }
{
    let mut items = room;
    items.clear();
    put_items(alloc, &mut items, number, drawn)?;
    match Doc::of(items) {
        Ok(doc) => Ok(doc),
        Err(_) => unreachable!(),
    }
}
