//! The content of Body, taken out of its document.

ghost use Rattle.std.specs.Prelude.{◌≡◌, ◌+◌, ◌≤◌, [], IfOk, IfSome, IsTrue, Some, drop, length, slice_get, take, true};
ghost use Rattle.std.specs.List.{list_all};
ghost use Rattle.nbfx_values.specs.QuotasOf.{limits_of};
ghost use Rattle.soap_envelope.specs.Body as spec;
ghost use Rattle.soap_envelope.specs.Body.{behind_head, is_usual, needed, self_standing};
ghost use Rattle.soap_envelope.specs.Children.{is_start};
ghost use Rattle.soap_envelope.specs.Fitting.{IsTaken};
ghost use Rattle.soap_envelope.specs.Making.{AreTexts, IsContent, reply_items};
ghost use Rattle.soap_envelope.specs.Parts.{root_scope};
ghost use Rattle.soap_envelope.specs.Scopes.{declared, within};

use crate::body::{behind_head, fitting_needs, is_usual};
use crate::children::{behind, open_behind};
use crate::layers::Declared;
use crate::making::reply_doc_with;
use crate::moving::{first_of, rest};
use crate::ring::with_needs;
use crate::versions::Addressing;
use nbfx_values::{Doc, Item, Items, Quotas};
use std::alloc::Global;
use unit_streams::Memory;

// Whether an element declares nothing but what every reply in a version does, if these items follow
// its start.
fn declares_the_usual(version: Addressing, behind: &[Item]) -> bool
    ensures { result ≡ list_all (is_usual version) (declared behind.now) }
{
    for item in behind {
        match item {
            Item::Xmlns { prefix, uri } => {
                let (prefix, uri) = (prefix.as_str(), uri.as_str());
                if !is_usual(version, &Declared { prefix, uri }) {
                    return false;
                }
            }
            Item::Attr { .. } => {}
            _ => return true,
        }
    }
    true
}

// Whether the children of the Body that begins at a place need no declaration, since the root and
// Body declare only what every reply does.
#[tactic(auto, using(crate::proofs::Usual::needs_none))]
fn needs_nothing(version: Addressing, items: &[Item], at: usize) -> bool
    ensures { result ≡ true → needed version (within items.now at (root_scope items.now)) ≡ [] }
{
    declares_the_usual(version, behind(items, 0)) && declares_the_usual(version, behind(items, at))
}

// How many items come before the end of the element that holds them.
fn content_len(items: &[Item]) -> usize
    ensures within { result ≤ length items.now }
    ensures content { take result items.now ≡ self_standing [] (Some 0) items.now }
{
    let mut inner = 0;
    for (i, item) in items.iter().enumerate() {
        let Some(open) = open_behind(inner, item) else {
            return i;
        };
        inner = open;
    }
    items.len()
}

// The place of the first item of the content of the Body that begins at a place, and that of the
// first item after it.
fn content_places(items: &[Item], at: usize) -> (usize, usize)
    ensures within { (result.0 ≤ result.1) × (result.1 ≤ length items.now) }
    ensures first { drop result.0 items.now ≡ behind_head (drop (at + 1) items.now) }
    ensures both { drop result.0 (take result.1 items.now)
        ≡ self_standing [] (Some 0) (behind_head (drop (at + 1) items.now)) }
{
    let content = behind_head(behind(items, at));
    let first = items.len() - content.len();
    (first, first + content_len(content))
}

/// The content of the Body that begins at a place of a document, as
/// [`Envelope::body`](crate::Envelope::body) gives it, taken out of the document. The items are
/// moved, within the document's own list, which gets the declarations that children need besides:
/// those of the root and of Body, but for what every reply in this version declares. None only if
/// the content with its declarations counts more than the quotas admit, or has more bytes in any
/// payload; content that needs no declarations is given whatever it counts. It fails without
/// memory.
pub fn take_body(
    alloc: Global,
    quotas: &Quotas,
    version: Addressing,
    doc: Doc,
    at: usize,
) -> Result<Option<Items>, Memory>
    requires { IsTrue (is_start (slice_get doc at)) }
    ensures same { let body = spec.body_items version doc (root_scope doc) at in
        IfOk result (IsTaken (limits_of quotas.now) body body) }
    ensures content { IfOk result (λ body. IfSome body IsContent) }
{
    let (first, end) = content_places(doc.items().as_slice(), at);
    if needs_nothing(version, doc.items().as_slice(), at) {
        return Ok(Some(rest(first_of(doc.into_items(), end), first)));
    }
    let Some(needs) = fitting_needs(alloc, quotas, version, doc.items().as_slice(), at)? else {
        return Ok(None);
    };
    let body = with_needs(alloc, quotas, &needs, rest(doc.into_items(), first))?;
    Ok(Some(body))
}

/// The reply to a request with this action, as [`reply_doc`](crate::reply_doc) makes it, whose Body
/// has the content of the Body that begins at a place of the request. That is taken out of the
/// request as by [`take_body`], and its list becomes the reply's: None only if it, and so the
/// reply, doesn't fit the quotas. It fails without memory.
pub fn return_body(
    alloc: Global,
    quotas: &Quotas,
    version: Addressing,
    action: &str,
    relates: &Items,
    doc: Doc,
    at: usize,
) -> Result<Option<Doc>, Memory>
    requires texts { AreTexts relates.now }
    requires starts { IsTrue (is_start (slice_get doc at)) }
    ensures { let body = spec.body_items version doc (root_scope doc) at in
        IfOk result (IsTaken (limits_of quotas.now) body
        (reply_items version action.now relates.now body)) }
{
    let Some(body) = take_body(alloc, quotas, version, doc, at)? else {
        return Ok(None);
    };
    let reply = reply_doc_with(alloc, version, action, relates, body)?;
    Ok(Some(reply))
}
