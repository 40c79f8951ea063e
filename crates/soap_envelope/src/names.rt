// The first item whose prefix isn't declared, or that declares a prefix again in its element.
ghost use Rattle.std.specs.Prelude.{◌≡◌, ◌+◌, ◌<◌, ◌≤◌, ◌^◌, [], IfNone, IfOk, OnOk, drop, length};
ghost use Rattle.std.specs.Option.{option_or};
ghost use Rattle.nbfx_values.specs.Documents.{IsDocument};
ghost use Rattle.soap_envelope.specs.BadNames as spec;
ghost use Rattle.soap_envelope.specs.BadNames.{first_bad_name};
ghost use Rattle.soap_envelope.specs.Bindings.{innermost, scope_to};
ghost use Rattle.soap_envelope.specs.Parts.{root_scope};
ghost use Rattle.soap_envelope.specs.Scopes as scope;
ghost use Rattle.soap_envelope.specs.Scopes.{declared, declared_on};

use crate::scopes::Scopes;
use nbfx_values::{ArrayItem, AttrItem, Item, Txt};
use unit_streams::Memory;

// Whether an open element declares a prefix.
fn is_bound(scopes: &Scopes<'_>, prefix: &Txt) -> bool
    ensures { result ≡ scope.is_bound scopes.now prefix.now }
{
    scopes.uri_of(prefix.as_str()).is_some()
}

// The first bad name of the declarations and attributes of the innermost element.
fn bad_attribute(inner: &Scopes<'_>, at: usize, behind: &[Item]) -> Option<usize>
    requires own { innermost inner.now ≡ declared behind.now }
    requires few { at + length behind.now < 2 ^ 64 }
    ensures { result ≡ spec.bad_attribute inner.now [] at behind.now }
{
    let mut before = 0;
    for (i, item) in behind.iter().enumerate() {
        match item {
            Item::Xmlns { prefix, .. } => {
                if inner.declares_before(before, prefix.as_str()) {
                    return Some(at + i);
                }
                before += 1;
            }
            Item::Attr { prefix, .. } => {
                if !is_bound(inner, prefix) {
                    return Some(at + i);
                }
            }
            _ => return None,
        }
    }
    None
}

// Whether all declarations and attributes of an array's element, the innermost, are good.
fn are_good(inner: &Scopes<'_>, attributes: &[AttrItem]) -> bool
    requires { innermost inner.now ≡ declared_on attributes.now }
    ensures { result ≡ spec.are_good inner.now [] attributes.now }
{
    let mut before = 0;
    for attribute in attributes {
        match attribute {
            AttrItem::Xmlns { prefix, .. } => {
                if inner.declares_before(before, prefix.as_str()) {
                    return false;
                }
                before += 1;
            }
            AttrItem::Attr { prefix, .. } => {
                if !is_bound(inner, prefix) {
                    return false;
                }
            }
        }
    }
    true
}

fn is_good_array<'d>(scopes: &mut Scopes<'d>, array: &'d ArrayItem) -> Result<bool, Memory>
    ensures good { IfOk result (λ good. good ≡ spec.is_good_array scopes.old array.now) }
    ensures unchanged { OnOk result (scopes.new ≡ scopes.old) }
{
    scopes.enter_array(array.attrs.as_slice())?;
    let good = is_bound(scopes, &array.prefix) && are_good(scopes, array.attrs.as_slice());
    scopes.close();
    Ok(good)
}

// The first bad name of the innermost element's start, its declarations and its attributes.
fn bad_in_head(inner: &Scopes<'_>, prefix: &Txt, at: usize, behind: &[Item]) -> Option<usize>
    requires own { innermost inner.now ≡ declared behind.now }
    requires few { at + 1 + length behind.now < 2 ^ 64 }
    ensures { result ≡ spec.bad_in_head inner.now prefix.now at behind.now }
{
    if !is_bound(inner, prefix) {
        return Some(at);
    }
    bad_attribute(inner, at + 1, behind)
}

// The item at a place, or one of its declarations and attributes, if it is bad. Else the
// declarations in scope after it take the place of those before it.
fn bad_item<'d>(
    scopes: &mut Scopes<'d>,
    items: &'d [Item],
    at: usize,
) -> Result<Option<usize>, Memory>
    requires { at < length items.now }
    ensures bad { IfOk result (λ bad. first_bad_name scopes.old at (drop at items.now)
        ≡ option_or bad (first_bad_name scopes.new (at + 1) (drop (at + 1) items.now))) }
    ensures inside { OnOk result (scopes.new ≡ scope_to scopes.old 1 (drop at items.now)) }
{
    match &items[at] {
        Item::Start { prefix, .. } => {
            let behind = &items[at + 1..];
            scopes.enter(behind)?;
            Ok(bad_in_head(scopes, prefix, at, behind))
        }
        Item::Array(array) => {
            let good = is_good_array(scopes, array)?;
            Ok(if good { None } else { Some(at) })
        }
        Item::Close => {
            scopes.close();
            Ok(None)
        }
        _ => Ok(None),
    }
}

/// The first item whose prefix isn't declared, or that declares a prefix again in its element. Where
/// there is none, these scopes, which are outside of all elements, are those within the root, whose
/// end is the last item.
pub(crate) fn bad_name<'d>(
    scopes: &mut Scopes<'d>,
    items: &'d [Item],
) -> Result<Option<usize>, Memory>
    requires document { IsDocument items.now }
    requires outside { scopes.old ≡ [] }
    ensures bad { IfOk result (λ bad. bad ≡ spec.bad_name items.now) }
    ensures root { IfOk result (λ bad. IfNone bad (scopes.new ≡ root_scope items.now)) }
{
    for at in 0..items.len().saturating_sub(1) {
        let bad = bad_item(scopes, items, at)?;
        if bad.is_some() {
            return Ok(bad);
        }
    }
    Ok(None)
}
