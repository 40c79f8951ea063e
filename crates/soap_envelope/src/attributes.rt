// The SOAP attributes of header blocks.
ghost use Rattle.std.specs.Prelude.{◌≡◌, ◌∷◌, ◌+◌, ◌<◌, ◌^◌, IfOk, IsTrue, codes, drop, length};
ghost use Rattle.std.specs.List.{list_all};
ghost use Rattle.nbfx_values.specs.Items.{is_valid_item};
ghost use Rattle.soap_envelope.specs.Blocks as spec;
ghost use Rattle.soap_envelope.specs.Headers as headers;
ghost use Rattle.soap_envelope.specs.Scopes as scope;
ghost use Rattle.soap_envelope.specs.Scopes.{declared};

use crate::bindings::Bindings;
use crate::characters::{Characters, characters_in};
use crate::children::behind;
use crate::namespaces::{ROLE_NEXT, ROLE_ULTIMATE_RECEIVER, SOAP};
use crate::parts::element_uri;
use crate::scopes::Scopes;
use nbfx_values::{Item, Txt};
use std::alloc::Global;
use unit_streams::Memory;

// An attribute's place, and the characters of its value where it has some.
#[derive(Drop)]
pub(crate) struct Found<'d> {
    pub(crate) at: usize,
    pub(crate) characters: Option<Characters<'d>>,
}

// The namespace of an attribute with this prefix. One without prefix has none.
fn attribute_uri<'d>(outer: &Scopes<'d>, own: &Bindings<'d>, prefix: &Txt) -> &'d str
    ensures { result.now ≡ scope.attribute_uri (own.now ∷ outer.now) prefix.now }
{
    if prefix.len() == 0 {
        return "";
    }
    element_uri(outer, own, prefix)
}

// Whether an attribute is SOAP's of a local name.
#[tactic(auto, unfolding(crate::specs::Names::soap))]
fn is_soap_attribute<'d>(
    outer: &Scopes<'d>,
    own: &Bindings<'d>,
    name: &str,
    prefix: &Txt,
    local: &Txt,
) -> bool
    ensures { result ≡ spec.is_soap_attribute (own.now ∷ outer.now) name.now
        prefix.now local.now }
{
    local.as_str() == name && attribute_uri(outer, own, prefix) == SOAP
}

// The first such attribute among the declarations and attributes at the head of these items, of
// which the first has this place.
fn soap_attribute<'d>(
    alloc: Global,
    outer: &Scopes<'d>,
    own: &Bindings<'d>,
    name: &str,
    at: usize,
    behind: &'d [Item],
) -> Result<Option<Found<'d>>, Memory>
    requires few { at + length behind.now < 2 ^ 64 }
    requires valid { IsTrue (list_all is_valid_item behind.now) }
    ensures { IfOk result (λ found. found
        ≡ spec.soap_attribute (own.now ∷ outer.now) name.now at behind.now) }
{
    for (i, item) in behind.iter().enumerate() {
        match item {
            Item::Xmlns { .. } => {}
            Item::Attr {
                prefix,
                local,
                value,
            } => {
                if is_soap_attribute(outer, own, name, prefix, local) {
                    let characters = characters_in(alloc, value)?;
                    return Ok(Some(Found {
                        at: at + i,
                        characters,
                    }));
                }
            }
            _ => return Ok(None),
        }
    }
    Ok(None)
}

// The same of the element that begins at a place and has these declarations.
fn soap_attribute_of<'d>(
    alloc: Global,
    items: &'d [Item],
    outer: &Scopes<'d>,
    own: &Bindings<'d>,
    name: &str,
    at: usize,
) -> Result<Option<Found<'d>>, Memory>
    requires within { at < length items.now }
    requires valid { IsTrue (list_all is_valid_item items.now) }
    requires own { own.now ≡ declared (drop (at + 1) items.now) }
    ensures { IfOk result
        (λ found. found ≡ spec.soap_attribute_of items.now outer.now name.now at) }
{
    let behind = behind(items, at);
    soap_attribute(alloc, outer, own, name, at + 1, behind)
}

// The SOAP attributes of a header block.
#[derive(Drop)]
pub(crate) struct SoapAttributes<'d> {
    pub(crate) must_understand: Option<Found<'d>>,
    pub(crate) role: Option<Found<'d>>,
}

// Those of the element that begins at a place and has these declarations.
pub(crate) fn soap_attributes<'d>(
    alloc: Global,
    items: &'d [Item],
    outer: &Scopes<'d>,
    own: &Bindings<'d>,
    at: usize,
) -> Result<SoapAttributes<'d>, Memory>
    requires within { at < length items.now }
    requires valid { IsTrue (list_all is_valid_item items.now) }
    requires own { own.now ≡ declared (drop (at + 1) items.now) }
    ensures must_understand { IfOk result
        (λ of. of.must_understand ≡ spec.must_understand_of items.now outer.now at) }
    ensures role { IfOk result (λ of. of.role ≡ spec.role_of items.now outer.now at) }
{
    Ok(SoapAttributes {
        must_understand: soap_attribute_of(alloc, items, outer, own, "mustUnderstand", at)?,
        role: soap_attribute_of(alloc, items, outer, own, "role", at)?,
    })
}

// The spellings of a truth, as XML Schema has them.
fn is_yes(characters: &Option<Characters<'_>>) -> bool
    ensures { result ≡ spec.is_yes characters.now }
{
    match characters {
        Some(text) => text.as_str() == "1" || text.as_str() == "true",
        None => false,
    }
}

fn is_no(characters: &Option<Characters<'_>>) -> bool
    ensures { result ≡ spec.is_no characters.now }
{
    match characters {
        Some(text) => text.as_str() == "0" || text.as_str() == "false",
        None => false,
    }
}

// Whether a mustUnderstand attribute is there and true.
pub(crate) fn must_be_understood(found: &Option<Found<'_>>) -> bool
    ensures { result ≡ spec.must_be_understood found.now }
{
    match found {
        Some(found) => is_yes(&found.characters),
        None => false,
    }
}

// Whether characters are a role of the ultimate receiver's.
#[tactic(auto, unfolding(crate::specs::Names::role_next, crate::specs::Names::role_ultimate_receiver))]
fn is_own_role(characters: &Option<Characters<'_>>) -> bool
    ensures { result ≡ spec.is_own_role characters.now }
{
    match characters {
        Some(text) => {
            text.as_str() == ""
                || text.as_str() == ROLE_NEXT
                || text.as_str() == ROLE_ULTIMATE_RECEIVER
        }
        None => false,
    }
}

// Whether a role is missing, or one of the ultimate receiver's.
pub(crate) fn is_targeted(found: &Option<Found<'_>>) -> bool
    ensures { result ≡ spec.is_targeted found.now }
{
    match found {
        Some(found) => is_own_role(&found.characters),
        None => true,
    }
}

// The place of a mustUnderstand attribute whose value is no truth.
pub(crate) fn bad_must_understand(found: &Option<Found<'_>>) -> Option<usize>
    ensures { result ≡ headers.bad_must_understand found.now }
{
    match found {
        Some(found) => {
            if is_yes(&found.characters) || is_no(&found.characters) {
                None
            } else {
                Some(found.at)
            }
        }
        None => None,
    }
}

// The place of a role without characters.
pub(crate) fn bad_role(found: &Option<Found<'_>>) -> Option<usize>
    ensures { result ≡ headers.bad_role found.now }
{
    match found {
        Some(found) => {
            if found.characters.is_some() {
                None
            } else {
                Some(found.at)
            }
        }
        None => None,
    }
}
