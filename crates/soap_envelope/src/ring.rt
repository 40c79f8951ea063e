// The content of Body with the declarations that its children need, by the items themselves: they
// aren't copied.
ghost use Rattle.std.specs.Prelude.{◌≡◌, ◌+◌, ◌<◌, ◌^◌, ◌∷◌, ◌++◌, [], ℕ, IfOk, IfSome, OnOk, Some, map, take, true};
ghost use Rattle.nbfx_values.specs.QuotasOf.{limits_of};
ghost use Rattle.least_payloads.specs.Least.{may_fit};
ghost use Rattle.soap_envelope.specs.Body as spec;
ghost use Rattle.soap_envelope.specs.Body.{attribute_of, missing, xmlns_of};
ghost use Rattle.soap_envelope.specs.Layers.{kept, layer_of, needs_of};
ghost use Rattle.soap_envelope.specs.Scopes as scope;

use crate::bindings::Bindings;
use crate::body::is_missing;
use crate::children::open_behind;
use crate::layers::Declared;
use crate::moving::put_moved;
use crate::puts::put_xmlns;
use crate::scopes::declared_on;
use nbfx_values::{ArrayItem, AttrItem, Attrs, Copied, Item, Items, Quotas, Txt};
use std::alloc::Global;
use std::collections::VecDeque;
use std::mem;
use unit_streams::Memory;

// A declaration that children of Body need, by the texts of its item, which are copied as they lie.
#[derive(Clone, Copy)]
struct Need<'n> {
    prefix: &'n Txt,
    uri: &'n Txt,
}

// The declarations that an element needs and hasn't itself.
fn missing_of<'n>(
    alloc: Global,
    needs: &[Need<'n>],
    own: &Bindings<'_>,
) -> Result<Vec<Need<'n>>, Memory>
    ensures { IfOk result
        (λ lacking. needs_of lacking.items ≡ missing (needs_of needs.now) own.now) }
{
    let mut lacking = Vec::new(alloc);
    for one in needs {
        if is_missing(own, one.prefix.as_str()) {
            lacking.push(*one)?;
        }
    }
    Ok(lacking)
}

// The same of an array's element with these attributes.
fn missing_on<'n>(
    alloc: Global,
    needs: &[Need<'n>],
    attributes: &[AttrItem],
) -> Result<Vec<Need<'n>>, Memory>
    ensures { IfOk result (λ lacking. needs_of lacking.items
        ≡ missing (needs_of needs.now) (scope.declared_on attributes.now)) }
{
    let own = declared_on(alloc, attributes)?;
    missing_of(alloc, needs, &own)
}

// Declarations, as attributes of an array's element.
fn attributes_of(alloc: Global, declarations: &[Need<'_>]) -> Result<Attrs, Memory>
    ensures { IfOk result (λ attributes. attributes ≡ map attribute_of (needs_of declarations.now)) }
{
    let mut attributes = Attrs::new(alloc);
    for one in declarations {
        attributes.push(AttrItem::Xmlns {
            prefix: one.prefix.copy()?,
            uri: one.uri.copy()?,
        })?;
    }
    Ok(attributes)
}

// Gives an array the declarations that its element needs. Where there is no memory for them, it has
// lost its attributes.
fn declare_on(alloc: Global, needs: &[Need<'_>], array: &mut ArrayItem) -> Result<(), Memory>
    ensures { OnOk result (array.new ≡ spec.array_with (needs_of needs.now) array.old) }
{
    let lacking = missing_on(alloc, needs, array.attrs.as_slice())?;
    let mut attrs = attributes_of(alloc, lacking.as_slice())?;
    let own = mem::replace(&mut array.attrs, Attrs::new(alloc));
    put_moved(&mut attrs, own)?;
    array.attrs = attrs;
    Ok(())
}

// Declarations, each an item.
pub(crate) fn xmlns_items(alloc: Global, declarations: &[Declared<'_>]) -> Result<Items, Memory>
    ensures { IfOk result (λ items. items ≡ map xmlns_of (map kept declarations.now)) }
{
    let mut items = Items::new(alloc);
    for one in declarations {
        put_xmlns(alloc, &mut items, one.prefix, one.uri)?;
    }
    Ok(items)
}

// Puts an item at the end of a ring.
#[inline(always)]
fn put_last(ring: &mut VecDeque<Item>, item: Item) -> Result<(), Memory>
    ensures { OnOk result (ring.new.items ≡ ring.old.items ++ item ∷ []) }
{
    if ring.reserve(1).is_err() {
        return Err(Memory);
    }
    ring.push_back_reserved(item);
    Ok(())
}

// Puts declarations at the end of a ring.
fn put_declarations(ring: &mut VecDeque<Item>, declarations: &[Need<'_>]) -> Result<(), Memory>
    ensures { OnOk result
        (ring.new.items ≡ ring.old.items ++ map xmlns_of (needs_of declarations.now)) }
{
    for one in declarations {
        let prefix = one.prefix.copy()?;
        let uri = one.uri.copy()?;
        put_last(ring, Item::Xmlns { prefix, uri })?;
    }
    Ok(())
}

// The declarations at the head of the first items of a ring, of which there are so many.
fn declarations_ahead<'r>(
    alloc: Global,
    ring: &'r VecDeque<Item>,
    count: usize,
) -> Result<Vec<Declared<'r>>, Memory>
    ensures { IfOk result (λ layer. layer_of layer ≡ scope.declared (take count ring.now.items)) }
{
    let mut layer = Vec::new(alloc);
    for at in 0..count {
        let Some(item) = ring.get(at) else {
            return Ok(layer);
        };
        match item {
            Item::Xmlns { prefix, uri } => layer.push(Declared {
                prefix: prefix.as_str(),
                uri: uri.as_str(),
            })?,
            Item::Attr { .. } => {}
            _ => return Ok(layer),
        }
    }
    Ok(layer)
}

// Declarations, as they are found by their prefixes.
fn layer_with<'d>(alloc: Global, declarations: &[Declared<'d>]) -> Result<Bindings<'d>, Memory>
    ensures { IfOk result (λ layer. layer ≡ map kept declarations.now) }
{
    let mut layer = Bindings::new(alloc);
    let mut more = declarations.len();
    while more > 0 {
        more -= 1;
        let one = declarations[more];
        layer.push(one.prefix, one.uri)?;
    }
    Ok(layer)
}

// The declarations that an element needs and hasn't itself, where so many items behind its
// beginning are the first of a ring.
fn missing_ahead<'n>(
    alloc: Global,
    needs: &[Need<'n>],
    ring: &VecDeque<Item>,
    count: usize,
) -> Result<Vec<Need<'n>>, Memory>
    ensures { IfOk result (λ lacking. needs_of lacking.items
        ≡ missing (needs_of needs.now) (scope.declared (take count ring.now.items))) }
{
    let declarations = declarations_ahead(alloc, ring, count)?;
    let own = layer_with(alloc, declarations.as_slice())?;
    missing_of(alloc, needs, &own)
}

// Whether no declaration stands at the head of the first items of a ring.
#[inline(always)]
fn declares_nothing(ring: &VecDeque<Item>) -> bool
    ensures { result ≡ true → (count : ℕ) → scope.declared (take count ring.now.items) ≡ [] }
{
    !matches!(ring.get(0), Some(Item::Xmlns { .. } | Item::Attr { .. }))
}

// Puts the beginning of a child with the declarations that it needs. Behind it stand so many items,
// the first ones of the ring.
fn put_beginning(
    alloc: Global,
    ring: &mut VecDeque<Item>,
    needs: &[Need<'_>],
    item: Item,
    left: usize,
) -> Result<(), Memory>
    ensures { OnOk result (ring.new.items ≡ ring.old.items ++ item ∷ map xmlns_of
        (missing (needs_of needs.now) (scope.declared (take left ring.old.items)))) }
{
    if declares_nothing(ring) {
        put_last(ring, item)?;
        return put_declarations(ring, needs);
    }
    let lacking = missing_ahead(alloc, needs, ring, left)?;
    put_last(ring, item)?;
    put_declarations(ring, lacking.as_slice())
}

// Puts a child, or the beginning of one, with the declarations that it needs. Behind it stand so
// many items, the first ones of the ring.
fn put_child(
    alloc: Global,
    ring: &mut VecDeque<Item>,
    needs: &[Need<'_>],
    item: Item,
    left: usize,
) -> Result<(), Memory>
    ensures { OnOk result (ring.new.items ≡ ring.old.items
        ++ spec.child_items (needs_of needs.now) item (take left ring.old.items)) }
{
    let mut item = item;
    match &mut item {
        Item::Start { .. } => put_beginning(alloc, ring, needs, item, left),
        Item::Array(array) => {
            declare_on(alloc, needs, array)?;
            put_last(ring, item)
        }
        _ => put_last(ring, item),
    }
}

// Puts an item that stands in so many elements within Body, if Body is open there, with the
// declarations that it needs, and says how many are open behind it. Behind it stand so many items,
// the first ones of the ring.
fn put_item(
    alloc: Global,
    ring: &mut VecDeque<Item>,
    needs: &[Need<'_>],
    inner: Option<usize>,
    item: Item,
    left: usize,
) -> Result<Option<usize>, Memory>
    requires { IfSome inner (λ n. n + 1 < 2 ^ 64) }
    ensures behind { IfOk result (λ after. after ≡ spec.open_after inner item) }
    ensures put { OnOk result (ring.new.items ≡ ring.old.items
        ++ spec.turned_items (needs_of needs.now) inner item (take left ring.old.items)) }
{
    let Some(inner) = inner else {
        return Ok(None);
    };
    let Some(open) = open_behind(inner, &item) else {
        return Ok(None);
    };
    if inner == 0 {
        put_child(alloc, ring, needs, item, left)?;
    } else {
        put_last(ring, item)?;
    }
    Ok(Some(open))
}

// The declarations at the head of items.
fn needs_in<'n>(alloc: Global, items: &'n [Item]) -> Result<Vec<Need<'n>>, Memory>
    ensures { IfOk result (λ needs. needs_of needs.items ≡ scope.declared items.now) }
{
    let mut needs = Vec::new(alloc);
    for item in items {
        match item {
            Item::Xmlns { prefix, uri } => needs.push(Need { prefix, uri })?,
            Item::Attr { .. } => {}
            _ => return Ok(needs),
        }
    }
    Ok(needs)
}

// The items up to the end of the element that holds them, with the declarations that its children
// need. These were counted before. Each item goes from the front of a ring to its end, so that there
// is one list of items.
fn put_standing(
    alloc: Global,
    _quotas: &Quotas,
    needs: &[Need<'_>],
    items: Items,
) -> Result<Items, Memory>
    requires { may_fit (limits_of _quotas.now)
        (spec.self_standing (needs_of needs.now) (Some 0) items) ≡ true }
    ensures { IfOk result (λ standing. standing
        ≡ spec.self_standing (needs_of needs.now) (Some 0) items) }
{
    let count = items.len();
    let mut ring = VecDeque::from_vec(items.into_vec());
    let mut inner = Some(0);
    for i in 0..count {
        let Some(item) = ring.pop_front() else {
            unreachable!();
        };
        inner = put_item(alloc, &mut ring, needs, inner, item, count - i - 1)?;
    }
    Ok(Items::from_vec(ring.into_vec()))
}

// The same, where these items declare what children need.
pub(crate) fn with_needs(
    alloc: Global,
    quotas: &Quotas,
    needs: &Items,
    items: Items,
) -> Result<Items, Memory>
    requires { may_fit (limits_of quotas.now)
        (spec.self_standing (scope.declared needs.now) (Some 0) items) ≡ true }
    ensures { IfOk result (λ standing. standing
        ≡ spec.self_standing (scope.declared needs.now) (Some 0) items) }
{
    let needs = needs_in(alloc, needs.as_slice())?;
    put_standing(alloc, quotas, needs.as_slice(), items)
}
