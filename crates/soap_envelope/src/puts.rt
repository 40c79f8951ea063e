//! Items that are put behind others, one by one.

ghost use Rattle.std.specs.Prelude.{◌≡◌, ◌∷◌, ◌++◌, [], IsTrue, OnOk, codes};
ghost use Rattle.std.specs.Str.{is_utf8};
ghost use Rattle.nbfx_values.specs.declared.content.Item.TheVariants as item;
ghost use Rattle.nbfx_values.specs.declared.scalars.Scalar.TheVariants as scalar;
ghost use Rattle.nbfx_values.specs.declared.scalars.Value.TheVariants as value;

use nbfx_values::{Copied, Item, Items, Scalar, Txt, Value};
use std::alloc::Global;
use unit_streams::Memory;

/// Puts the beginning of an element. It fails without memory; what was put before stays.
pub fn put_start(alloc: Global, items: &mut Items, prefix: &str, local: &str) -> Result<(), Memory>
    ensures { OnOk result (items.new ≡ items.old ++ item.Start prefix.now local.now ∷ []) }
{
    let prefix = Txt::of(alloc, prefix)?;
    let local = Txt::of(alloc, local)?;
    items.push(Item::Start { prefix, local })
}

/// Puts a declaration of a prefix. It fails without memory; what was put before stays.
pub fn put_xmlns(alloc: Global, items: &mut Items, prefix: &str, uri: &str) -> Result<(), Memory>
    ensures put { OnOk result (items.new ≡ items.old ++ item.Xmlns prefix.now uri.now ∷ []) }
    ensures utf8 { OnOk result (IsTrue (is_utf8 uri.now)) }
{
    let prefix = Txt::of(alloc, prefix)?;
    let uri = Txt::of(alloc, uri)?;
    items.push(Item::Xmlns { prefix, uri })
}

/// Puts an attribute. It fails without memory; what was put before stays.
pub fn put_attribute(
    alloc: Global,
    items: &mut Items,
    prefix: &str,
    local: &str,
    value: Value,
) -> Result<(), Memory>
    ensures { OnOk result (items.new ≡ items.old ++ item.Attr prefix.now local.now value ∷ []) }
{
    let prefix = Txt::of(alloc, prefix)?;
    let local = Txt::of(alloc, local)?;
    items.push(Item::Attr {
        prefix,
        local,
        value,
    })
}

/// Puts a text. It fails without memory; what was put before stays.
pub fn put_text(items: &mut Items, characters: Txt) -> Result<(), Memory>
    ensures { OnOk result
        (items.new ≡ items.old ++ item.Text (value.One (scalar.Text characters)) ∷ []) }
{
    items.push(Item::Text(Value::One(Scalar::Text(characters))))
}

/// Puts the end of an element. It fails without memory; what was put before stays.
pub fn put_close(items: &mut Items) -> Result<(), Memory>
    ensures { OnOk result (items.new ≡ items.old ++ item.Close ∷ []) }
{
    items.push(Item::Close)
}

/// Puts copies of items. It fails without memory; what was put before stays, and some of the copies
/// may.
pub fn put_copies(items: &mut Items, more: &[Item]) -> Result<(), Memory>
    ensures { OnOk result (items.new ≡ items.old ++ more.now) }
{
    for item in more {
        items.push(item.copy()?)?;
    }
    Ok(())
}
