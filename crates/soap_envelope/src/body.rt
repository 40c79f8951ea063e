// The content of Body, so that it means the same in any other place.
ghost use Rattle.std.specs.Prelude.{◌≡◌, ◌+◌, [], IfOk, List, OnOk, Some, drop, is_none, map, true};
ghost use Rattle.nbfx_values.specs.QuotasOf.{limits_of};
ghost use Rattle.soap_envelope.specs.Body as spec;
ghost use Rattle.soap_envelope.specs.Fitting.{AreNeeds, fitting};
ghost use Rattle.soap_envelope.specs.Layers.{kept, layer_of, shown};
ghost use Rattle.soap_envelope.specs.Parts.{root_scope};
ghost use Rattle.soap_envelope.specs.Scopes.{Declaration, uri_in, within};

use crate::bindings::Bindings;
use crate::children::{behind, open_behind};
use crate::fitting::body_may_fit;
use crate::layers::Declared;
use crate::namespaces::SOAP;
use crate::puts::put_copies;
use crate::ring::{with_needs, xmlns_items};
use crate::scopes::declarations_in;
use crate::versions::Addressing;
use nbfx_values::{Item, Items, Quotas};
use std::alloc::Global;
use std::collections::BTreeMap;
use unit_streams::Memory;

// Puts a declaration at its place among others by the order of their prefixes' bytes, and in place
// of one of its prefix.
fn put<'d>(sorted: &mut BTreeMap<&'d str, &'d str>, one: &Declared<'d>) -> Result<(), Memory>
    ensures { OnOk result (shown sorted.new ≡ spec.put (kept one.now) (shown sorted.old)) }
{
    sorted.insert(one.prefix, one.uri)?;
    Ok(())
}

fn put_all<'d>(
    sorted: &mut BTreeMap<&'d str, &'d str>,
    layer: &[Declared<'d>],
) -> Result<(), Memory>
    ensures { OnOk result
        (shown sorted.new ≡ spec.put_all (map kept layer.now) (shown sorted.old)) }
{
    for one in layer {
        put(sorted, one)?;
    }
    Ok(())
}

// Whether every reply in a version has this declaration.
#[tactic(auto, unfolding(crate::specs::Names::soap))]
pub(crate) fn is_usual(version: Addressing, one: &Declared<'_>) -> bool
    ensures { result ≡ spec.is_usual version (kept one.now) }
{
    (one.prefix == "s" && one.uri == SOAP) || (one.prefix == "a" && one.uri == version.namespace())
}

// Those of sorted declarations that not every reply has.
fn unusual<'d>(
    alloc: Global,
    version: Addressing,
    sorted: BTreeMap<&'d str, &'d str>,
) -> Result<Vec<Declared<'d>>, Memory>
    ensures { IfOk result (λ needs. layer_of needs ≡ spec.unusual version (shown sorted.entry)) }
{
    let mut needs = Vec::new(alloc);
    for (prefix, uri) in sorted {
        let one = Declared { prefix, uri };
        if !is_usual(version, &one) {
            needs.push(one)?;
        }
    }
    Ok(needs)
}

// The declarations in scope at the Body that begins at a place, on which an element in it may rely.
fn needed_at<'d>(
    alloc: Global,
    version: Addressing,
    items: &'d [Item],
    at: usize,
) -> Result<Vec<Declared<'d>>, Memory>
    ensures { IfOk result (λ needs. layer_of needs
        ≡ spec.needed version (within items.now at (root_scope items.now))) }
{
    let root = declarations_in(alloc, behind(items, 0))?;
    let body = declarations_in(alloc, behind(items, at))?;
    let mut sorted = BTreeMap::new(alloc);
    put_all(&mut sorted, root.as_slice())?;
    put_all(&mut sorted, body.as_slice())?;
    unusual(alloc, version, sorted)
}

// Whether an element doesn't declare a prefix itself.
pub(crate) fn is_missing(own: &Bindings<'_>, prefix: &str) -> bool
    ensures { result ≡ is_none (uri_in own.now prefix.now) }
{
    own.uri_of(prefix).is_none()
}

// What stands behind the declarations and attributes at the head of items.
pub(crate) fn behind_head(items: &[Item]) -> &[Item]
    ensures { result.now ≡ spec.behind_head items.now }
{
    for (i, item) in items.iter().enumerate() {
        match item {
            Item::Xmlns { .. } | Item::Attr { .. } => {}
            _ => return &items[i..],
        }
    }
    &[]
}

// Whether an element ends at the first of these items, which follow its declarations and
// attributes.
#[inline(always)]
fn is_empty(content: &[Item]) -> bool
    ensures { result ≡ true → (needs : List Declaration)
        → spec.self_standing needs (Some 0) content.now ≡ [] }
{
    matches!(content.first(), None | Some(Item::Close))
}

// What children of the Body that begins at a place need, as items that declare it, where the
// content may fit the quotas with that.
pub(crate) fn fitting_needs(
    alloc: Global,
    quotas: &Quotas,
    version: Addressing,
    items: &[Item],
    at: usize,
) -> Result<Option<Items>, Memory>
    ensures { IfOk result (AreNeeds (limits_of quotas.now)
        (spec.behind_head (drop (at + 1) items.now))
        (spec.body_items version items.now (root_scope items.now) at)) }
{
    let content = behind_head(behind(items, at));
    if is_empty(content) {
        return Ok(Some(Items::new(alloc)));
    }
    let needs = needed_at(alloc, version, items, at)?;
    if !body_may_fit(alloc, quotas, needs.as_slice(), content)? {
        return Ok(None);
    }
    let declarations = xmlns_items(alloc, needs.as_slice())?;
    Ok(Some(declarations))
}

// Copies of items.
pub(crate) fn copies(alloc: Global, items: &[Item]) -> Result<Items, Memory>
    ensures { IfOk result (λ copied. copied ≡ items.now) }
{
    let mut copied = Items::new(alloc);
    copied.reserve(items.len())?;
    put_copies(&mut copied, items)?;
    Ok(copied)
}

// The content of the Body that begins at a place, so that it means the same in any other place,
// where it may fit the quotas.
pub(crate) fn body_items(
    alloc: Global,
    quotas: &Quotas,
    version: Addressing,
    items: &[Item],
    at: usize,
) -> Result<Option<Items>, Memory>
    ensures { IfOk result (λ body. body ≡ fitting (limits_of quotas.now)
        (spec.body_items version items.now (root_scope items.now) at)) }
{
    let Some(needs) = fitting_needs(alloc, quotas, version, items, at)? else {
        return Ok(None);
    };
    let content = copies(alloc, behind_head(behind(items, at)))?;
    let body = with_needs(alloc, quotas, &needs, content)?;
    Ok(Some(body))
}
