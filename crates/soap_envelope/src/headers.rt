// The header blocks, those of addressing that count, and what is wrong with them.
ghost use Rattle.std.specs.Prelude.{◌≡◌, ◌<◌, ◌+◌, ◌++◌, [], ◌∷◌, IfOk, IsTrue, OnOk, codes, drop, length, slice_get};
ghost use Rattle.std.specs.List.{list_all, list_any};
ghost use Rattle.nbfx_values.specs.Items.{is_valid_item};
ghost use Rattle.soap_envelope.specs.Blocks as blocks;
ghost use Rattle.soap_envelope.specs.Children.{children_of};
ghost use Rattle.soap_envelope.specs.Headers as spec;
ghost use Rattle.soap_envelope.specs.Names as names;
ghost use Rattle.soap_envelope.specs.Scopes.{declared};
ghost use Rattle.soap_envelope.specs.Understanding as understanding;

use crate::attributes::{
    SoapAttributes, bad_must_understand, bad_role, is_targeted, must_be_understood, soap_attributes,
};
use crate::bindings::Bindings;
use crate::blocks::{Block, Blocks, Names, QualifiedName};
use crate::children::{Children, behind, close_of, is_start};
use crate::parts::{element_uri, is_element};
use crate::scopes::{Scopes, declared_in};
use crate::texts::has_plain_content;
use crate::versions::Addressing;
use nbfx_values::Item;
use std::alloc::Global;
use unit_streams::Memory;

// The name of the element that begins at a place and has these declarations.
fn name_of<'d>(
    items: &'d [Item],
    outer: &Scopes<'d>,
    own: &Bindings<'d>,
    at: usize,
) -> QualifiedName<'d>
    requires { own.now ≡ declared (drop (at + 1) items.now) }
    ensures { result ≡ blocks.name_of items.now outer.now at }
{
    match items.get(at) {
        Some(Item::Start { prefix, local }) => QualifiedName {
            uri: element_uri(outer, own, prefix),
            local: local.as_str(),
        },
        _ => QualifiedName { uri: "", local: "" },
    }
}

// The block that begins at a place and has these declarations and SOAP attributes.
fn block_of<'d>(
    items: &'d [Item],
    outer: &Scopes<'d>,
    own: &Bindings<'d>,
    attributes: &SoapAttributes<'_>,
    at: usize,
) -> Block<'d>
    requires within { at < length items.now }
    requires own { own.now ≡ declared (drop (at + 1) items.now) }
    requires must_understand { attributes.now.must_understand
        ≡ blocks.must_understand_of items.now outer.now at }
    requires role { attributes.now.role ≡ blocks.role_of items.now outer.now at }
    ensures { result ≡ blocks.block_of items.now outer.now at }
{
    Block {
        name: name_of(items, outer, own, at),
        must_understand: must_be_understood(&attributes.must_understand),
        targeted: is_targeted(&attributes.role),
        from: at,
        to: close_of(items, at),
    }
}

// Whether two names are the same.
pub(crate) fn is_same_name(name: &QualifiedName<'_>, other: &QualifiedName<'_>) -> bool
    ensures { result ≡ names.is_same_name name.now other.now }
{
    if name.local.len() != other.local.len() {
        return false;
    }
    name.uri == other.uri && name.local == other.local
}

// Whether a block counts as the one of addressing with this local name.
pub(crate) fn counts_as(version: Addressing, block: &Block<'_>, local: &str) -> bool
    ensures { result ≡ spec.counts_as version local.now block.now }
{
    let name = &block.name;
    if name.local != local {
        return false;
    }
    block.targeted && name.uri == version.namespace()
}

// Whether a block counts as one with content of characters alone.
fn is_textual(version: Addressing, block: &Block<'_>) -> bool
    ensures { result ≡ spec.is_textual version block.now }
{
    counts_as(version, block, "Action")
        || counts_as(version, block, "To")
        || counts_as(version, block, "MessageID")
}

// Whether a block counts as one that may stand once.
fn is_single(version: Addressing, block: &Block<'_>) -> bool
    ensures { result ≡ spec.is_single version block.now }
{
    is_textual(version, block) || counts_as(version, block, "ReplyTo")
}

// Whether another block is targeted, and has the block's name.
fn is_first_of(block: &Block<'_>, other: &Block<'_>) -> bool
    ensures { result ≡ spec.is_first_of block.now other.now }
{
    other.targeted && is_same_name(&other.name, &block.name)
}

// Whether such a block stands among these.
fn comes_behind(before: &[Block<'_>], block: &Block<'_>) -> bool
    ensures { result ≡ list_any (spec.is_first_of block.now) before.now }
{
    before.iter().any(|other| is_first_of(block, other))
}

// Whether a block that may stand once follows one of its name that counts.
fn is_again(version: Addressing, before: &[Block<'_>], block: &Block<'_>) -> bool
    ensures { result ≡ spec.is_again version before.now block.now }
{
    is_single(version, block) && comes_behind(before, block)
}

// The place of the first such block's Start.
pub(crate) fn first_repeated(version: Addressing, blocks: &[Block<'_>]) -> Option<usize>
    ensures { result ≡ spec.repeated version blocks.now }
{
    for (i, block) in blocks.iter().enumerate() {
        if is_again(version, &blocks[..i], block) {
            return Some(block.from);
        }
    }
    None
}

// Whether an Address of characters alone begins at a place.
fn is_address<'d>(
    alloc: Global,
    version: Addressing,
    items: &'d [Item],
    outer: &Scopes<'d>,
    at: usize,
) -> Result<bool, Memory>
    requires { IsTrue (list_all is_valid_item items.now) }
    ensures { IfOk result (λ found. found ≡ spec.is_address version items.now outer.now at) }
{
    if !is_element(alloc, items, outer, version.namespace(), "Address", at)? {
        return Ok(false);
    }
    Ok(has_plain_content(items, at))
}

// The only child of the element that begins at a place that is an Address of characters alone.
fn only_address_in<'d>(
    alloc: Global,
    version: Addressing,
    items: &'d [Item],
    inner: &Scopes<'d>,
    at: usize,
) -> Result<Option<usize>, Memory>
    requires { IsTrue (list_all is_valid_item items.now) }
    ensures { IfOk result (λ found. found ≡ spec.only
        (spec.addresses_among version items.now inner.now (children_of items.now at))) }
{
    let mut found = None;
    let mut children = Children::of(items, at);
    while let Some(child) = children.next() {
        if is_address(alloc, version, items, inner, child)? {
            if found.is_some() {
                return Ok(None);
            }
            found = Some(child);
        }
    }
    Ok(found)
}

// The same of the ReplyTo that begins at a place: its only Address.
pub(crate) fn only_address<'d>(
    alloc: Global,
    version: Addressing,
    items: &'d [Item],
    scopes: &mut Scopes<'d>,
    at: usize,
) -> Result<Option<usize>, Memory>
    requires { IsTrue (list_all is_valid_item items.now) }
    ensures found { IfOk result
        (λ found. found ≡ spec.only (spec.addresses version items.now scopes.old at)) }
    ensures unchanged { OnOk result (scopes.new ≡ scopes.old) }
{
    scopes.enter(behind(items, at))?;
    let found = only_address_in(alloc, version, items, scopes, at)?;
    scopes.close();
    Ok(found)
}

// Whether the content of a block that counts isn't what WS-Addressing asks of it.
fn is_bad_content<'d>(
    alloc: Global,
    version: Addressing,
    items: &'d [Item],
    scopes: &mut Scopes<'d>,
    block: &Block<'_>,
) -> Result<bool, Memory>
    requires { IsTrue (list_all is_valid_item items.now) }
    ensures bad { IfOk result
        (λ bad. bad ≡ spec.is_bad_content version items.now scopes.old block.now) }
    ensures unchanged { OnOk result (scopes.new ≡ scopes.old) }
{
    if is_textual(version, block) && !has_plain_content(items, block.from) {
        return Ok(true);
    }
    if !counts_as(version, block, "ReplyTo") {
        return Ok(false);
    }
    let only = only_address(alloc, version, items, scopes, block.from)?;
    Ok(only.is_none())
}

// The lesser of two places, if there are any.
fn earlier(first: Option<usize>, second: Option<usize>) -> Option<usize>
    ensures { result ≡ spec.earlier first second }
{
    match (first, second) {
        (Some(at), Some(other)) => Some(at.min(other)),
        (Some(at), None) => Some(at),
        (None, other) => other,
    }
}

// The first item of a block with these SOAP attributes that isn't as SOAP asks.
fn bad_in_block(block: &Block<'_>, attributes: &SoapAttributes<'_>) -> Option<usize>
    ensures { result
        ≡ spec.bad_by block.now attributes.now.must_understand attributes.now.role }
{
    if block.name.uri == "" {
        return Some(block.from);
    }
    earlier(
        bad_must_understand(&attributes.must_understand),
        bad_role(&attributes.role),
    )
}

// Appends the block that begins at a place to others, and says which of its items is the first that
// isn't as SOAP asks.
fn put_block<'d>(
    alloc: Global,
    items: &'d [Item],
    outer: &Scopes<'d>,
    found: &mut Blocks<'d>,
    at: usize,
) -> Result<Option<usize>, Memory>
    requires within { at < length items.now }
    requires valid { IsTrue (list_all is_valid_item items.now) }
    ensures bad { IfOk result (λ bad. bad
        ≡ spec.bad_in_block items.now outer.now (blocks.block_of items.now outer.now at)) }
    ensures put { OnOk result
        (found.new ≡ found.old ++ blocks.block_of items.now outer.now at ∷ []) }
{
    let own = declared_in(alloc, behind(items, at))?;
    let attributes = soap_attributes(alloc, items, outer, &own, at)?;
    let block = block_of(items, outer, &own, &attributes, at);
    let bad = bad_in_block(&block, &attributes);
    found.push(block)?;
    Ok(bad)
}

// The same of a child of Header, which is bad where it is no block.
fn put_child<'d>(
    alloc: Global,
    items: &'d [Item],
    outer: &Scopes<'d>,
    found: &mut Blocks<'d>,
    at: usize,
) -> Result<Option<usize>, Memory>
    requires { IsTrue (list_all is_valid_item items.now) }
    ensures bad { IfOk result (λ bad. bad ≡ spec.bad_child items.now outer.now at) }
    ensures put { OnOk result
        (found.new ≡ found.old ++ blocks.blocks_among items.now outer.now (at ∷ [])) }
{
    if !is_start(items, at) {
        return Ok(Some(at));
    }
    put_block(alloc, items, outer, found, at)
}

// The blocks of a Header, and the first item of it that isn't as SOAP asks.
#[derive(Drop)]
pub(crate) struct Header<'d> {
    pub(crate) blocks: Blocks<'d>,
    pub(crate) bad: Option<usize>,
}

// The Header with these children.
pub(crate) fn header_of<'d>(
    alloc: Global,
    items: &'d [Item],
    outer: &Scopes<'d>,
    children: &[usize],
) -> Result<Header<'d>, Memory>
    requires { IsTrue (list_all is_valid_item items.now) }
    ensures blocks { IfOk result
        (λ header. header.blocks ≡ blocks.blocks_among items.now outer.now children.now) }
    ensures bad { IfOk result
        (λ header. header.bad ≡ spec.bad_children items.now outer.now children.now) }
{
    let mut found = Blocks::new(alloc);
    let mut bad = None;
    for child in children {
        let here = put_child(alloc, items, outer, &mut found, *child)?;
        if bad.is_none() {
            bad = here;
        }
    }
    Ok(Header { blocks: found, bad })
}

// The place of the first of these blocks whose content isn't what addressing asks of it.
fn bad_content<'d>(
    alloc: Global,
    version: Addressing,
    items: &'d [Item],
    scopes: &mut Scopes<'d>,
    blocks: &[Block<'_>],
) -> Result<Option<usize>, Memory>
    requires { IsTrue (list_all is_valid_item items.now) }
    ensures bad { IfOk result
        (λ bad. bad ≡ spec.bad_content version items.now scopes.old blocks.now) }
    ensures unchanged { OnOk result (scopes.new ≡ scopes.old) }
{
    for block in blocks {
        if is_bad_content(alloc, version, items, scopes, block)? {
            return Ok(Some(block.from));
        }
    }
    Ok(None)
}

// The first item of a Header of a version that isn't as it should be.
pub(crate) fn first_bad<'d>(
    alloc: Global,
    version: Addressing,
    items: &'d [Item],
    scopes: &mut Scopes<'d>,
    header: &Header<'d>,
) -> Result<Option<usize>, Memory>
    requires { IsTrue (list_all is_valid_item items.now) }
    ensures bad { IfOk result (λ bad. bad ≡ spec.earlier header.now.bad
        (spec.bad_content version items.now scopes.old header.now.blocks)) }
    ensures unchanged { OnOk result (scopes.new ≡ scopes.old) }
{
    let content = bad_content(alloc, version, items, scopes, header.blocks.as_slice())?;
    Ok(earlier(header.bad, content))
}

// The place of the first block that counts as the one of addressing with this local name.
pub(crate) fn counted_at(version: Addressing, blocks: &[Block<'_>], local: &str) -> Option<usize>
    ensures { result ≡ spec.counted_at version local.now blocks.now }
{
    for block in blocks {
        if counts_as(version, block, local) {
            return Some(block.from);
        }
    }
    None
}

// Whether a name is among these.
fn is_known(known: &[QualifiedName<'_>], name: &QualifiedName<'_>) -> bool
    ensures { result ≡ list_any (names.is_same_name name.now) known.now }
{
    known.iter().any(|other| is_same_name(name, other))
}

// Whether a block is targeted and must be understood, and its name isn't among those known.
fn is_foreign(known: &[QualifiedName<'_>], block: &Block<'_>) -> bool
    ensures { result ≡ understanding.is_foreign known.now block.now }
{
    if !block.targeted || !block.must_understand {
        return false;
    }
    !is_known(known, &block.name)
}

fn copy_of<'d>(name: &QualifiedName<'d>) -> QualifiedName<'d>
    ensures { result ≡ name.now }
{
    QualifiedName {
        uri: name.uri,
        local: name.local,
    }
}

// The names of such blocks, in order.
pub(crate) fn foreign_names<'d>(
    alloc: Global,
    known: &[QualifiedName<'_>],
    blocks: &[Block<'d>],
) -> Result<Names<'d>, Memory>
    ensures { IfOk result
        (λ found. found ≡ understanding.not_understood known.now blocks.now) }
{
    let mut found = Names::new(alloc);
    for block in blocks {
        if is_foreign(known, block) {
            found.push(copy_of(&block.name))?;
        }
    }
    Ok(found)
}
