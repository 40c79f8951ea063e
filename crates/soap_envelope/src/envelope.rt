//! The view of a document as an envelope.

ghost use Rattle.std.specs.Prelude.{◌≡◌, ◌≢◌, ◌++◌, Err, IfOk, IfSome, IsTrue, MatchResult, Ok, OnOk, slice_get};
ghost use Rattle.std.specs.List.{list_all};
ghost use Rattle.std.specs.Option.{option_copied, option_map};
ghost use Rattle.nbfx_values.specs.Documents.{IsDocument};
ghost use Rattle.nbfx_values.specs.Items.{is_valid_item};
ghost use Rattle.nbfx_values.specs.QuotasOf.{limits_of};
ghost use Rattle.soap_envelope.specs.Characters as characters;
ghost use Rattle.soap_envelope.specs.Fitting.{fitting};
ghost use Rattle.soap_envelope.specs.Making.{AreTexts, IsContent};
ghost use Rattle.soap_envelope.specs.Parts.{root_scope};
ghost use Rattle.soap_envelope.specs.Seen.{BodyStands, HasBody};
ghost use Rattle.soap_envelope.specs.Understanding as understanding;
ghost use Rattle.soap_envelope.specs.View as spec;
ghost use Rattle.soap_envelope.specs.View.{header_children, header_scope, view};

use crate::blocks::{Block, Blocks, Names, QualifiedName};
use crate::body::body_items;
use crate::children::{Children, behind};
use crate::headers::{
    Header, counted_at, first_bad, first_repeated, foreign_names, header_of, only_address,
};
use crate::names::bad_name;
use crate::parts::{Parts, kept_children, parts_of, wrong_root};
use crate::refusals::SoapFault;
use crate::scopes::Scopes;
use crate::texts::text_of;
use crate::versions::{Addressing, version_of};
use nbfx_values::{Copied, Doc, Item, Items, Quotas, Txt};
use std::alloc::Global;
use std::marker::Model;
use unit_streams::Memory;

/// The view of a document as an envelope of SOAP 1.2 (Part 1, 5) with the message addressing
/// properties of WS-Addressing (1.0, Core, 3), by which servers and callers go.
#[derive(Drop)]
pub struct Envelope<'d> {
    items: &'d [Item],
    blocks: Blocks<'d>,
    version: Addressing,
    action: Option<Txt>,
    reply_address: Option<Txt>,
    message: Option<usize>,
    body: usize,
}

impl<'d> Model for Envelope<'d> {
    ghost use Rattle.soap_envelope.specs.View.{View};
    ghost use Rattle.soap_envelope.specs.Seen.{HasBody, seen};

    ghost Value = { View };

    ghost view = { λ e. seen e.items.now e.blocks e.version e.action e.reply_address e.message e.body };

    ghost invariant = { λ e. HasBody e.items.now e.body };
}

// Into Header, if there is one.
fn enter_header<'d>(
    items: &'d [Item],
    scopes: &mut Scopes<'d>,
    header: Option<usize>,
) -> Result<(), Memory>
    requires { scopes.old ≡ root_scope items.now }
    ensures { OnOk result (scopes.new ≡ header_scope items.now header) }
{
    if let Some(at) = header {
        scopes.enter(behind(items, at))?;
    }
    Ok(())
}

// The children of Header that aren't passed over.
fn children_in_header(
    alloc: Global,
    items: &[Item],
    header: Option<usize>,
) -> Result<Vec<usize>, Memory>
    requires { IsTrue (list_all is_valid_item items.now) }
    ensures { IfOk result (λ children. children.items ≡ header_children items.now header) }
{
    match header {
        Some(at) => kept_children(alloc, items, at),
        None => Ok(Vec::new(alloc)),
    }
}

// The first fault of a Header.
fn fault_in<'d>(
    alloc: Global,
    version: Addressing,
    items: &'d [Item],
    scopes: &mut Scopes<'d>,
    header: &Header<'d>,
) -> Result<Option<SoapFault>, Memory>
    requires { IsTrue (list_all is_valid_item items.now) }
    ensures fault { IfOk result (λ fault. fault
        ≡ spec.fault_among version items.now scopes.old header.now.bad header.now.blocks) }
    ensures unchanged { OnOk result (scopes.new ≡ scopes.old) }
{
    if let Some(item) = first_repeated(version, header.blocks.as_slice()) {
        return Ok(Some(SoapFault::RepeatedHeader { item }));
    }
    match first_bad(alloc, version, items, scopes, header)? {
        Some(item) => Ok(Some(SoapFault::BadHeader { item })),
        None => Ok(None),
    }
}

// The characters of the element at a place, if there is one.
fn item_text(alloc: Global, items: &[Item], at: Option<usize>) -> Result<Option<Txt>, Memory>
    requires { IsTrue (list_all is_valid_item items.now) }
    ensures { IfOk result (λ text. text ≡ option_map (characters.text_of items.now) at) }
{
    match at {
        Some(at) => {
            let text = text_of(alloc, items, at)?;
            Ok(Some(text))
        }
        None => Ok(None),
    }
}

// The Address of the ReplyTo that counts.
fn reply_address_at<'d>(
    alloc: Global,
    version: Addressing,
    items: &'d [Item],
    scopes: &mut Scopes<'d>,
    blocks: &[Block<'_>],
) -> Result<Option<usize>, Memory>
    requires { IsTrue (list_all is_valid_item items.now) }
    ensures { IfOk result
        (λ at. at ≡ spec.reply_address_at version items.now scopes.old blocks.now) }
{
    match counted_at(version, blocks, "ReplyTo") {
        Some(at) => only_address(alloc, version, items, scopes, at),
        None => Ok(None),
    }
}

// The view, where these are the parts and Header is as the standards have it.
fn envelope_with<'d>(
    alloc: Global,
    version: Addressing,
    items: &'d [Item],
    scopes: &mut Scopes<'d>,
    blocks: Blocks<'d>,
    parts: Parts,
) -> Result<Envelope<'d>, Memory>
    requires body { HasBody items.now parts.body }
    requires scope { scopes.old ≡ header_scope items.now parts.header }
    ensures { IfOk result (λ e. e ≡ spec.viewed_in version blocks.entry items.now parts) }
{
    let action = item_text(
        alloc,
        items,
        counted_at(version, blocks.as_slice(), "Action"),
    )?;
    let address = reply_address_at(alloc, version, items, scopes, blocks.as_slice())?;
    let reply_address = item_text(alloc, items, address)?;
    let message = counted_at(version, blocks.as_slice(), "MessageID");
    Ok(Envelope {
        items,
        blocks,
        version,
        action,
        reply_address,
        message,
        body: parts.body,
    })
}

// The view, where these are the parts, or what is wrong with Header.
fn viewed<'d>(
    alloc: Global,
    items: &'d [Item],
    mut scopes: Scopes<'d>,
    parts: Parts,
) -> Result<Result<Envelope<'d>, SoapFault>, Memory>
    requires body { HasBody items.now parts.body }
    requires scope { scopes ≡ root_scope items.now }
    ensures { IfOk result (λ seen. seen ≡ spec.viewed_by items.now (Ok parts)) }
{
    enter_header(items, &mut scopes, parts.header)?;
    let children = children_in_header(alloc, items, parts.header)?;
    let header = header_of(alloc, items, &scopes, children.as_slice())?;
    let version = version_of(header.blocks.as_slice());
    if let Some(fault) = fault_in(alloc, version, items, &mut scopes, &header)? {
        return Ok(Err(fault));
    }
    let seen = envelope_with(alloc, version, items, &mut scopes, header.blocks, parts)?;
    Ok(Ok(seen))
}

// The view, or the first refusal.
fn view_of<'d>(alloc: Global, items: &'d [Item]) -> Result<Result<Envelope<'d>, SoapFault>, Memory>
    requires { IsDocument items.now }
    ensures { IfOk result (λ seen. seen ≡ view items.now) }
{
    let mut root = Scopes::new(alloc);
    if let Some(item) = bad_name(&mut root, items)? {
        return Ok(Err(SoapFault::BadNames { item }));
    }
    if let Some(fault) = wrong_root(items, &root) {
        return Ok(Err(fault));
    }
    match parts_of(alloc, items, &root)? {
        Ok(parts) => viewed(alloc, items, root, parts),
        Err(fault) => Ok(Err(fault)),
    }
}

// A copy of the text at a place, if one stands there.
fn text_copy(items: &[Item], at: usize) -> Result<Option<Item>, Memory>
    ensures { IfOk result (λ text. text ≡ spec.text_item (slice_get items.now at)) }
{
    match items.get(at) {
        Some(Item::Text(value)) => {
            let value = value.copy()?;
            Ok(Some(Item::Text(value)))
        }
        _ => Ok(None),
    }
}

// Puts the text at a place, if one stands there.
fn put_text_at(out: &mut Items, items: &[Item], at: usize) -> Result<(), Memory>
    ensures { OnOk result (out.new ≡ out.old ++ spec.texts_in items.now at) }
{
    let text = text_copy(items, at)?;
    match text {
        Some(text) => {
            out.push(text)?;
            Ok(())
        }
        None => Ok(()),
    }
}

// The texts of the element at a place.
fn texts_of(alloc: Global, items: &[Item], at: usize) -> Result<Items, Memory>
    ensures { IfOk result (λ texts. texts ≡ spec.texts_of items.now at) }
{
    let mut texts = Items::new(alloc);
    let mut children = Children::of(items, at);
    while let Some(child) = children.next() {
        put_text_at(&mut texts, items, child)?;
    }
    Ok(texts)
}

// The same, if there is one.
fn texts_at(alloc: Global, items: &[Item], at: Option<usize>) -> Result<Items, Memory>
    ensures { IfOk result (λ texts. texts ≡ spec.texts_at items.now at) }
{
    match at {
        Some(at) => texts_of(alloc, items, at),
        None => Ok(Items::new(alloc)),
    }
}

impl<'d> Envelope<'d> {
    /// The view of a document. It fails with the first refusal that applies, or without memory.
    pub fn of(alloc: Global, doc: &'d Doc) -> Result<Envelope<'d>, SoapFault>
        ensures viewed { MatchResult result (λ e. view doc.now ≡ Ok e)
            (λ fault. fault ≢ SoapFault.Memory → view doc.now ≡ Err fault) }
        ensures body { IfOk result (λ e. BodyStands doc.now e) }
    {
        match view_of(alloc, doc.items().as_slice()) {
            Ok(seen) => seen,
            Err(Memory) => Err(SoapFault::Memory),
        }
    }

    /// The header blocks, in order.
    pub fn blocks(&self) -> &Blocks<'d>
        ensures { result.now ≡ self.now.blocks }
    {
        &self.blocks
    }

    /// The version of addressing that the message is in.
    pub fn version(&self) -> Addressing
        ensures { result ≡ self.now.version }
    {
        self.version
    }

    /// The characters of the Action, if there is one that is targeted.
    pub fn action(&self) -> Option<&str>
        ensures { option_copied result ≡ self.now.action }
    {
        match &self.action {
            Some(action) => Some(action.as_str()),
            None => None,
        }
    }

    /// The same characters, owned.
    pub fn into_action(self) -> Option<Txt>
        ensures { result ≡ self.entry.action }
    {
        self.action
    }

    /// The characters of the ReplyTo's Address, if there is a ReplyTo that is targeted.
    pub fn reply_address(&self) -> Option<&str>
        ensures { option_copied result ≡ self.now.reply_address }
    {
        match &self.reply_address {
            Some(address) => Some(address.as_str()),
            None => None,
        }
    }

    /// The texts of the MessageID, in order, if there is one that is targeted; else none. It fails
    /// without memory for a copy.
    pub fn message_id(&self, alloc: Global) -> Result<Items, Memory>
        ensures same { IfOk result (λ texts. texts ≡ self.now.message_id) }
        ensures texts { IfOk result AreTexts }
    {
        texts_at(alloc, self.items, self.message)
    }

    /// A copy of the content of Body that means the same in a reply in its version: each child
    /// element declares what is in scope at Body and it doesn't declare itself. None if that has
    /// more content than the quotas admit, or more bytes in any payload; its declarations may be
    /// many more than the document's. It fails without memory for the copy.
    pub fn body(&self, alloc: Global, quotas: &Quotas) -> Result<Option<Items>, Memory>
        ensures same { IfOk result (λ body. body ≡ fitting (limits_of quotas.now) self.now.body) }
        ensures content { IfOk result (λ body. IfSome body IsContent) }
    {
        body_items(alloc, quotas, self.version, self.items, self.body)
    }

    /// The place of Body's Start in the document's items, counted from 0.
    pub fn body_at(&self) -> usize
        ensures { result ≡ self.now.body_at }
    {
        self.body
    }

    /// The names, in order, of the blocks that are targeted and must be understood, and whose names
    /// aren't among those known. It fails without memory for the list.
    pub fn not_understood(
        &self,
        alloc: Global,
        known: &[QualifiedName<'_>],
    ) -> Result<Names<'d>, Memory>
        ensures { IfOk result
            (λ names. names ≡ understanding.not_understood known.now self.now.blocks) }
    {
        foreign_names(alloc, known, self.blocks.as_slice())
    }
}
