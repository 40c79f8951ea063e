//! Replies as documents.

ghost use Rattle.std.specs.Prelude.{◌≡◌, ◌++◌, [], IfOk, IsTrue, OnOk};
ghost use Rattle.std.specs.Str.{is_utf8};
ghost use Rattle.nbfx_values.specs.Documents.{IsDocument};
ghost use Rattle.soap_envelope.specs.Making as spec;
ghost use Rattle.soap_envelope.specs.Sizes.{head_items};
ghost use Rattle.soap_envelope.specs.Making.{AreTexts, IsContent, action_block, ending, envelope_items, middle, opening, relates_block, reply_items};

use crate::moving::turned;
use crate::namespaces::SOAP;
use crate::puts::{put_attribute, put_close, put_copies, put_start, put_text, put_xmlns};
use crate::versions::Addressing;
use nbfx_values::{Copied, Doc, Item, Items, Scalar, Txt, Value};
use std::alloc::Global;
use unit_streams::Memory;

// From the root to the first block.
#[tactic(auto, unfolding(crate::specs::Names::soap))]
pub(crate) fn put_opening(
    alloc: Global,
    items: &mut Items,
    version: Addressing,
) -> Result<(), Memory>
    ensures { OnOk result (items.new ≡ items.old ++ opening version) }
{
    put_start(alloc, items, "s", "Envelope")?;
    put_xmlns(alloc, items, "s", SOAP)?;
    put_xmlns(alloc, items, "a", version.namespace())?;
    put_start(alloc, items, "s", "Header")?;
    Ok(())
}

// The Action block.
pub(crate) fn put_action(alloc: Global, items: &mut Items, action: Txt) -> Result<(), Memory>
    ensures { OnOk result (items.new ≡ items.old ++ action_block action) }
{
    put_start(alloc, items, "a", "Action")?;
    let one = Value::One(Scalar::Number(1));
    put_attribute(alloc, items, "s", "mustUnderstand", one)?;
    put_text(items, action)?;
    put_close(items)?;
    Ok(())
}

// The RelatesTo block, if the message that is answered has an identifier.
pub(crate) fn put_relates(alloc: Global, items: &mut Items, relates: &[Item]) -> Result<(), Memory>
    ensures { OnOk result (items.new ≡ items.old ++ relates_block relates.now) }
{
    if relates.is_empty() {
        return Ok(());
    }
    put_start(alloc, items, "a", "RelatesTo")?;
    put_copies(items, relates)?;
    put_close(items)?;
    Ok(())
}

// From the end of Header to the content of Body.
pub(crate) fn put_middle(alloc: Global, items: &mut Items) -> Result<(), Memory>
    ensures { OnOk result (items.new ≡ items.old ++ middle) }
{
    put_close(items)?;
    put_start(alloc, items, "s", "Body")?;
    Ok(())
}

// The ends of Body and of the root.
pub(crate) fn put_ending(items: &mut Items) -> Result<(), Memory>
    ensures { OnOk result (items.new ≡ items.old ++ ending) }
{
    put_close(items)?;
    put_close(items)?;
    Ok(())
}

// The document with these items.
pub(crate) fn document(items: Items) -> Doc
    requires { IsDocument items }
    ensures { result ≡ items }
{
    match Doc::of(items) {
        Ok(doc) => doc,
        Err(_) => unreachable!(),
    }
}

// The action of the reply to a request.
fn response_action(alloc: Global, action: &str) -> Result<Txt, Memory>
    ensures same { IfOk result (λ text. text ≡ spec.response_action action.now) }
    ensures utf8 { IfOk result (λ text. IsTrue (is_utf8 text)) }
{
    let mut text = String::with_capacity(alloc, action.len() + "Response".len())?;
    text.push_str(action)?;
    text.push_str("Response")?;
    let text = Txt::from(text);

    // Characters are UTF-8.
    let _characters = text.as_str();
    Ok(text)
}

// A reply with this action, up to the content of Body.
fn put_head(
    alloc: Global,
    items: &mut Items,
    version: Addressing,
    action: Txt,
    relates: &[Item],
) -> Result<(), Memory>
    ensures { OnOk result (items.new ≡ items.old ++ head_items version action relates.now) }
{
    put_opening(alloc, items, version)?;
    put_action(alloc, items, action)?;
    put_relates(alloc, items, relates)?;
    put_middle(alloc, items)?;
    Ok(())
}

// A reply with this action. What stands before the content of Body is put behind it, and changes
// place with it then, so that there is one list of items, that of the content.
fn reply_with(
    alloc: Global,
    version: Addressing,
    action: Txt,
    relates: &[Item],
    body: Items,
) -> Result<Items, Memory>
    ensures { IfOk result
        (λ items. items ≡ envelope_items version action relates.now [] body) }
{
    let mut items = body;
    let content = items.len();
    put_head(alloc, &mut items, version, action, relates)?;
    let mut items = turned(items, content);
    put_ending(&mut items)?;
    Ok(items)
}

/// The reply to a request with this action, as an envelope of SOAP 1.2 (Part 1, 5) with the
/// properties of a reply (WS-Addressing 1.0, Core, 3.4), in the request's version of addressing:
/// its Action is the request's, followed by `Response`; its RelatesTo has these texts, those of the
/// request's MessageID; its Body has a copy of this content. It fails without memory for it.
pub fn reply_doc(
    alloc: Global,
    version: Addressing,
    action: &str,
    relates: &Items,
    body: &Items,
) -> Result<Doc, Memory>
    requires texts { AreTexts relates.now }
    requires content { IsContent body.now }
    ensures { IfOk result (λ doc. doc ≡ reply_items version action.now relates.now body.now) }
{
    reply_doc_with(alloc, version, action, relates, body.copy()?)
}

/// The same reply, but the content isn't copied: its list becomes the reply's. It fails without
/// memory for the rest.
pub fn reply_doc_with(
    alloc: Global,
    version: Addressing,
    action: &str,
    relates: &Items,
    body: Items,
) -> Result<Doc, Memory>
    requires texts { AreTexts relates.now }
    requires content { IsContent body }
    ensures { IfOk result (λ doc. doc ≡ reply_items version action.now relates.now body) }
{
    let action = response_action(alloc, action)?;
    let items = reply_with(alloc, version, action, relates.as_slice(), body)?;
    Ok(document(items))
}
