// The root of an envelope, and which of the root's children are its Header and its Body.
ghost use Rattle.std.specs.Prelude.{◌≡◌, ◌∷◌, IfOk, IsTrue, Some};
ghost use Rattle.std.specs.List.{list_all};
ghost use Rattle.nbfx_values.specs.Items.{is_valid_item};
ghost use Rattle.soap_envelope.specs.Names.{qualified_name};
ghost use Rattle.soap_envelope.specs.Parts as spec;
ghost use Rattle.soap_envelope.specs.Scopes as scope;

use crate::bindings::Bindings;
use crate::children::{Children, behind};
use crate::namespaces::SOAP;
use crate::refusals::SoapFault;
use crate::scopes::{Scopes, declared_in};
use crate::texts::is_passed;
use nbfx_values::{Item, Txt};
use std::alloc::Global;
use unit_streams::Memory;

// The namespace of an element with this prefix and these declarations.
pub(crate) fn element_uri<'d>(outer: &Scopes<'d>, own: &Bindings<'d>, prefix: &Txt) -> &'d str
    ensures { result.now ≡ scope.element_uri (own.now ∷ outer.now) prefix.now }
{
    match own.uri_of(prefix.as_str()) {
        Some(uri) => uri,
        None => match outer.uri_of(prefix.as_str()) {
            Some(uri) => uri,
            None => "",
        },
    }
}

// Whether the element of this name begins at a place.
pub(crate) fn is_element<'d>(
    alloc: Global,
    items: &'d [Item],
    outer: &Scopes<'d>,
    uri: &str,
    local: &str,
    at: usize,
) -> Result<bool, Memory>
    ensures { IfOk result
        (λ found. found ≡ spec.is_element items.now outer.now uri.now local.now at) }
{
    match items.get(at) {
        Some(
            Item::Start {
                prefix,
                local: name,
            },
        ) => {
            let own = declared_in(alloc, behind(items, at))?;
            Ok(element_uri(outer, &own, prefix) == uri && name.as_str() == local)
        }
        _ => Ok(false),
    }
}

// The children of the element that begins at a place that aren't passed over.
pub(crate) fn kept_children(alloc: Global, items: &[Item], at: usize) -> Result<Vec<usize>, Memory>
    requires { IsTrue (list_all is_valid_item items.now) }
    ensures { IfOk result (λ children. children.items ≡ spec.kept_children items.now at) }
{
    let mut kept = Vec::new(alloc);
    let mut children = Children::of(items, at);
    while let Some(child) = children.next() {
        if !is_passed(alloc, items, child)? {
            kept.push(child)?;
        }
    }
    Ok(kept)
}

// The places of an envelope's Header, if it has one, and its Body.
#[derive(Clone, Copy)]
pub(crate) struct Parts {
    pub(crate) header: Option<usize>,
    pub(crate) body: usize,
}

// What is wrong with a root of this name.
#[tactic(auto, unfolding(crate::specs::Names::soap))]
fn wrong_name(uri: &str, local: &str) -> Option<SoapFault>
    ensures { result ≡ spec.wrong_name (Some (qualified_name uri.now local.now)) }
{
    if local != "Envelope" {
        return Some(SoapFault::NotAnEnvelope);
    }
    if uri == SOAP {
        None
    } else {
        Some(SoapFault::VersionMismatch)
    }
}

// What is wrong with the root, by the declarations within it.
pub(crate) fn wrong_root(items: &[Item], root: &Scopes<'_>) -> Option<SoapFault>
    requires { root.now ≡ spec.root_scope items.now }
    ensures { result ≡ spec.wrong_root items.now }
{
    match items.get(0) {
        Some(Item::Start { prefix, local }) => {
            wrong_name(root.element_uri(prefix), local.as_str())
        }
        _ => Some(SoapFault::NotAnEnvelope),
    }
}

// The parts, if these are the children of the root after Header: one child, the Body, or the first
// that is none.
#[tactic(auto, unfolding(crate::specs::Names::soap))]
fn parts_behind<'d>(
    alloc: Global,
    items: &'d [Item],
    root: &Scopes<'d>,
    header: Option<usize>,
    kept: &[usize],
) -> Result<Result<Parts, SoapFault>, Memory>
    ensures { IfOk result
        (λ parts. parts ≡ spec.parts_behind items.now root.now header kept.now) }
{
    match kept {
        [] => Ok(Err(SoapFault::NoBody)),
        [body] => {
            let found = is_element(alloc, items, root, SOAP, "Body", *body)?;
            Ok(if found {
                Ok(Parts {
                    header,
                    body: *body,
                })
            } else {
                Err(SoapFault::Misplaced { item: *body })
            })
        }
        [body, next, ..] => {
            let found = is_element(alloc, items, root, SOAP, "Body", *body)?;
            let item = if found { *next } else { *body };
            Ok(Err(SoapFault::Misplaced { item }))
        }
    }
}

// The parts, if these are the children of the root.
#[tactic(auto, unfolding(crate::specs::Names::soap))]
fn parts_among<'d>(
    alloc: Global,
    items: &'d [Item],
    root: &Scopes<'d>,
    kept: &[usize],
) -> Result<Result<Parts, SoapFault>, Memory>
    ensures { IfOk result (λ parts. parts ≡ spec.parts_among items.now root.now kept.now) }
{
    let [first, more @ ..] = kept else {
        return Ok(Err(SoapFault::NoBody));
    };
    if is_element(alloc, items, root, SOAP, "Header", *first)? {
        parts_behind(alloc, items, root, Some(*first), more)
    } else {
        parts_behind(alloc, items, root, None, kept)
    }
}

// The parts of an envelope, where these are the declarations within its root.
pub(crate) fn parts_of<'d>(
    alloc: Global,
    items: &'d [Item],
    root: &Scopes<'d>,
) -> Result<Result<Parts, SoapFault>, Memory>
    requires valid { IsTrue (list_all is_valid_item items.now) }
    requires within { root.now ≡ spec.root_scope items.now }
    ensures { IfOk result (λ parts. parts ≡ spec.parts_of items.now) }
{
    let kept = kept_children(alloc, items, 0)?;
    parts_among(alloc, items, root, kept.as_slice())
}
