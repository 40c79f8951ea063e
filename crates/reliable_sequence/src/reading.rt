//! What a document says to the end that takes it.

ghost use Rattle.std.specs.Prelude.{◌≡◌, ◌≢◌, ◌+◌, ◌^◌, ◌<◌, ◌≤◌, [], Err, IfErr, IfOk, IfSome, IsTrue, Ok, OnOk, Some, codes, drop, length, option_and_then, option_map, slice_get};
ghost use Rattle.std.specs.List.{list_all, list_any};
ghost use Rattle.std.specs.Option.{option_copied};
ghost use Rattle.nbfx_values.specs.Items.{is_valid_item};
ghost use Rattle.nbfx_values.specs.Scalars.{is_valid_value};
ghost use Rattle.soap_envelope.specs.Body.{body_items};
ghost use Rattle.soap_envelope.specs.Children.{is_start};
ghost use Rattle.soap_envelope.specs.Parts.{root_scope};
ghost use Rattle.soap_envelope.specs.Making.{IsContent};
ghost use Rattle.reliable_sequence.specs.Blocks as spec;
ghost use Rattle.reliable_sequence.specs.Names as names;
ghost use Rattle.reliable_sequence.specs.Reading as read;
ghost use Rattle.reliable_sequence.specs.Reading.{IsPlaceOf};

use crate::faults::RmFault;
use crate::names::MESSAGING;
use crate::numbers::number_in;
use crate::parts::Data;
use crate::ranges::{Range, Ranges};
use nbfx_values::{Copied, Doc, Item, Items, Quotas, Txt, Value};
use soap_envelope::{Addressing, Block, BlockElement, Envelope, SoapFault, take_body};
use std::alloc::Global;
use unit_streams::Memory;

/// What the block of a body says.
#[derive(Drop)]
pub(crate) struct Numbered {
    pub(crate) identifier: Txt,
    pub(crate) number: u64,
    pub(crate) last: bool,
}

/// What the block of ranges says.
#[derive(Drop)]
pub(crate) struct Acknowledged {
    pub(crate) identifier: Txt,
    pub(crate) ranges: Ranges,
}

/// The places of a block's Start and Close.
#[derive(Clone, Copy)]
pub(crate) struct Span {
    pub(crate) from: usize,
    pub(crate) to: usize,
}

// Whether the standard's element of this name is a child of the block.
#[tactic(auto, unfolding(crate::specs::Names::messaging))]
fn is_child(
    alloc: Global,
    element: &BlockElement<'_>,
    local: &str,
    at: usize,
) -> Result<bool, Memory>
    ensures { IfOk result (λ found. found ≡ spec.is_child element.now local.now at) }
{
    element.is_named(alloc, MESSAGING, local, at)
}

// Its characters, if there is nothing else in it.
fn text_at(
    alloc: Global,
    element: &BlockElement<'_>,
    local: &str,
    at: usize,
) -> Result<Option<Txt>, Memory>
    ensures { IfOk result (λ text. text ≡ spec.text_at element.now local.now at) }
{
    let found = is_child(alloc, element, local, at)?;
    if !found || !element.has_plain_content(at) {
        return Ok(None);
    }
    let text = element.text(alloc, at)?;
    Ok(Some(text))
}

// Whether it is one, with nothing in it.
fn is_bare(
    alloc: Global,
    element: &BlockElement<'_>,
    local: &str,
    at: usize,
) -> Result<bool, Memory>
    ensures { IfOk result (λ found. found ≡ spec.is_bare element.now local.now at) }
{
    let found = is_child(alloc, element, local, at)?;
    let empty = element.is_empty(alloc, at)?;
    Ok(found && empty)
}

// The number of the child at a place.
fn number_at(alloc: Global, element: &BlockElement<'_>, at: usize) -> Result<Option<u64>, Memory>
    ensures { IfOk result (λ number. number ≡ spec.number_at element.now at) }
{
    match text_at(alloc, element, "MessageNumber", at)? {
        Some(text) => Ok(number_in(text.as_str())),
        None => Ok(None),
    }
}

// Whether the body is the last, by the children behind its number.
fn last_by(
    alloc: Global,
    element: &BlockElement<'_>,
    children: &[usize],
) -> Result<Result<bool, usize>, Memory>
    ensures { IfOk result (λ last. last ≡ spec.last_by element.now children.now) }
{
    match children {
        [] => Ok(Ok(false)),
        [at, more @ ..] => {
            if !is_bare(alloc, element, "LastMessage", *at)? {
                return Ok(Err(*at));
            }
            match more {
                [] => Ok(Ok(true)),
                [next, ..] => Ok(Err(*next)),
            }
        }
    }
}

// The number and the mark, where the block ends at a place.
fn numbers_from(
    alloc: Global,
    element: &BlockElement<'_>,
    close: usize,
    children: &[usize],
) -> Result<Result<(u64, bool), usize>, Memory>
    ensures { IfOk result
        (λ numbers. numbers ≡ spec.numbers_from element.now close children.now) }
{
    match children {
        [] => Ok(Err(close)),
        [at, more @ ..] => {
            let Some(number) = number_at(alloc, element, *at)? else {
                return Ok(Err(*at));
            };
            match last_by(alloc, element, more)? {
                Ok(last) => Ok(Ok((number, last))),
                Err(item) => Ok(Err(item)),
            }
        }
    }
}

// What the block of a body says by its children.
fn sequence_from(
    alloc: Global,
    element: &BlockElement<'_>,
    close: usize,
    children: &[usize],
) -> Result<Result<Numbered, usize>, Memory>
    ensures { IfOk result
        (λ numbered. numbered ≡ spec.sequence_from element.now close children.now) }
{
    match children {
        [] => Ok(Err(close)),
        [at, more @ ..] => {
            let Some(identifier) = text_at(alloc, element, "Identifier", *at)? else {
                return Ok(Err(*at));
            };
            match numbers_from(alloc, element, close, more)? {
                Ok((number, last)) => Ok(Ok(Numbered {
                    identifier,
                    number,
                    last,
                })),
                Err(item) => Ok(Err(item)),
            }
        }
    }
}

// Whether an attribute has no prefix and this name.
fn is_plain_name(prefix: &Txt, local: &Txt, name: &str) -> bool
    ensures { result ≡ spec.is_plain_name prefix.now local.now name.now }
{
    prefix.as_str() == "" && local.as_str() == name
}

// The value of the first such attribute, among what stands behind the beginning of an element.
fn attribute_value<'d>(name: &str, behind: &'d [Item]) -> Option<&'d Value>
    requires { IsTrue (list_all is_valid_item behind.now) }
    ensures value { option_copied result ≡ spec.attribute_value name.now behind.now }
    ensures valid { IfSome result (λ value. IsTrue (is_valid_value value.now)) }
{
    for item in behind {
        match item {
            Item::Xmlns { .. } => {}
            Item::Attr {
                prefix,
                local,
                value,
            } => {
                if is_plain_name(prefix, local, name) {
                    return Some(value);
                }
            }
            _ => return None,
        }
    }
    None
}

// Its number.
fn attribute_number(alloc: Global, name: &str, behind: &[Item]) -> Result<Option<u64>, Memory>
    requires { IsTrue (list_all is_valid_item behind.now) }
    ensures read { IfOk result (λ number. number ≡ spec.attribute_number name.now behind.now) }
    ensures small { IfOk result (λ number. IfSome number (λ n. n < 2 ^ 63)) }
{
    let Some(value) = attribute_value(name, behind) else {
        return Ok(None);
    };
    match value.characters(alloc)? {
        Some(text) => Ok(number_in(text.as_str())),
        None => Ok(None),
    }
}

// The range of two ends, of which the lower is this number at least.
fn range_of(least: u64, lower: Option<u64>, upper: Option<u64>) -> Option<Range>
    ensures read { result ≡ spec.range_of least lower upper }
    ensures upper { IfSome result (λ r. upper ≡ Some r.upper) }
{
    let (lower, upper) = (lower?, upper?);
    if least <= lower && lower <= upper {
        Some(Range { lower, upper })
    } else {
        None
    }
}

// The range of the element behind whose beginning these items stand.
fn range_behind(alloc: Global, least: u64, behind: &[Item]) -> Result<Option<Range>, Memory>
    requires { IsTrue (list_all is_valid_item behind.now) }
    ensures read { IfOk result (λ range. range ≡ spec.range_behind least behind.now) }
    ensures small { IfOk result (λ range. IfSome range (λ r. r.upper < 2 ^ 63)) }
{
    let lower = attribute_number(alloc, "Lower", behind)?;
    let upper = attribute_number(alloc, "Upper", behind)?;
    Ok(range_of(least, lower, upper))
}

// What stands behind an item.
fn behind(items: &[Item], at: usize) -> &[Item]
    ensures { result.now ≡ drop (at + 1) items.now }
{
    if at < items.len() {
        &items[at + 1..]
    } else {
        &[]
    }
}

// The range of the child at a place, if it is one whose lower end is this number at least.
fn range_at(
    alloc: Global,
    doc: &Doc,
    element: &BlockElement<'_>,
    least: u64,
    at: usize,
) -> Result<Option<Range>, Memory>
    requires { element.now.items ≡ doc.now }
    ensures read { IfOk result (λ range. range ≡ spec.range_at element.now least at) }
    ensures small { IfOk result (λ range. IfSome range (λ r. r.upper < 2 ^ 63)) }
{
    if !is_bare(alloc, element, "AcknowledgementRange", at)? {
        return Ok(None);
    }
    range_behind(alloc, least, behind(doc.items().as_slice(), at))
}

// The ranges of children.
fn ranges_from(
    alloc: Global,
    doc: &Doc,
    element: &BlockElement<'_>,
    children: &[usize],
) -> Result<Result<Ranges, usize>, Memory>
    requires { element.now.items ≡ doc.now }
    ensures { IfOk result (λ ranges. ranges ≡ spec.ranges_from element.now [] 1 children.now) }
{
    let mut ranges = Ranges::new(alloc);
    let mut least = 1;
    for at in children {
        let Some(range) = range_at(alloc, doc, element, least, *at)? else {
            return Ok(Err(*at));
        };
        ranges.push(range)?;
        least = range.upper + 2;
    }
    Ok(Ok(ranges))
}

// What the block of ranges says by its children.
fn acknowledgement_from(
    alloc: Global,
    doc: &Doc,
    element: &BlockElement<'_>,
    close: usize,
    children: &[usize],
) -> Result<Result<Acknowledged, usize>, Memory>
    requires { element.now.items ≡ doc.now }
    ensures { IfOk result
        (λ said. said ≡ spec.acknowledgement_from element.now close children.now) }
{
    match children {
        [] => Ok(Err(close)),
        [at, more @ ..] => {
            let Some(identifier) = text_at(alloc, element, "Identifier", *at)? else {
                return Ok(Err(*at));
            };
            match ranges_from(alloc, doc, element, more)? {
                Ok(ranges) => Ok(Ok(Acknowledged { identifier, ranges })),
                Err(item) => Ok(Err(item)),
            }
        }
    }
}

// Whether a block is the standard's of a local name.
#[tactic(auto, unfolding(crate::specs::Names::messaging))]
fn is_block(block: &Block<'_>, local: &str) -> bool
    ensures { result ≡ names.is_block local.now block.now }
{
    block.name.uri == MESSAGING && block.name.local == local
}

// Whether there is one.
fn has_block(blocks: &[Block<'_>], local: &str) -> bool
    ensures { result ≡ list_any (names.is_block local.now) blocks.now }
{
    blocks.iter().any(|block| is_block(block, local))
}

// The standard's block of a name, if there is just one.
fn block_named(blocks: &[Block<'_>], local: &str) -> Option<Span>
    ensures { result ≡ option_map read.span_of (read.block_named local.now blocks.now) }
{
    for (i, block) in blocks.iter().enumerate() {
        if is_block(block, local) {
            if has_block(&blocks[i + 1..], local) {
                return None;
            }
            return Some(Span {
                from: block.from,
                to: block.to,
            });
        }
    }
    None
}

// Where the block of a name and the content of Body are, and the document's version of addressing.
#[derive(Clone, Copy)]
pub(crate) struct Places {
    span: Span,
    body_at: usize,
    version: Addressing,
}

// The places of the block of a name and of Body.
fn places_of(alloc: Global, doc: &Doc, local: &str) -> Result<Places, RmFault>
    ensures found { IfOk result (IsPlaceOf local.now doc.now) }
    ensures refused { IfErr result
        (λ fault. fault ≢ RmFault.Memory → read.place_of local.now doc.now ≡ Err fault) }
{
    let envelope = match Envelope::of(alloc, doc) {
        Ok(envelope) => envelope,
        Err(SoapFault::Memory) => return Err(RmFault::Memory),
        Err(fault) => return Err(RmFault::View(fault)),
    };
    match block_named(envelope.blocks().as_slice(), local) {
        Some(span) => Ok(Places {
            span,
            body_at: envelope.body_at(),
            version: envelope.version(),
        }),
        None => Err(RmFault::NoBlock),
    }
}

// What the block of a body at a place says.
fn sequence_at(alloc: Global, doc: &Doc, span: Span) -> Result<Numbered, RmFault>
    ensures read { IfOk result (λ said. read.sequence_at doc.now span ≡ Ok said) }
    ensures refused { IfErr result
        (λ fault. fault ≢ RmFault.Memory → read.sequence_at doc.now span ≡ Err fault) }
{
    let element = BlockElement::of(alloc, doc, span.from)?;
    let children = element.children(alloc)?;
    match sequence_from(alloc, &element, span.to, children.as_slice())? {
        Ok(said) => Ok(said),
        Err(item) => Err(RmFault::BadBlock { item }),
    }
}

// What the block of ranges at a place says.
fn acknowledgement_at(alloc: Global, doc: &Doc, span: Span) -> Result<Acknowledged, RmFault>
    ensures read { IfOk result (λ said. read.acknowledgement_at doc.now span ≡ Ok said) }
    ensures refused { IfErr result
        (λ fault. fault ≢ RmFault.Memory → read.acknowledgement_at doc.now span ≡ Err fault) }
{
    let element = BlockElement::of(alloc, doc, span.from)?;
    let children = element.children(alloc)?;
    match acknowledgement_from(alloc, doc, &element, span.to, children.as_slice())? {
        Ok(said) => Ok(said),
        Err(item) => Err(RmFault::BadBlock { item }),
    }
}

// The quotas by which a content is measured that needs declarations of its own.
fn greatest_quotas() -> Quotas {
    match Quotas::of(1_048_576, 128, 1_048_576, 16_777_216, 2_048, 1 << 48) {
        Some(quotas) => quotas,
        None => unreachable!(),
    }
}

// A copy of the content of Body. One that doesn't fit any quotas counts as too much for memory.
fn body_of(alloc: Global, version: Addressing, doc: &Doc, at: usize) -> Result<Items, Memory>
    requires { IsTrue (is_start (slice_get doc.now at)) }
    ensures same { IfOk result
        (λ body. body ≡ body_items version doc.now (root_scope doc.now) at) }
    ensures content { IfOk result IsContent }
{
    let copy = doc.copy()?;
    match take_body(alloc, &greatest_quotas(), version, copy, at)? {
        Some(body) => Ok(body),
        None => Err(Memory),
    }
}

/// What is sent by a document, where it is of the sequence with this identifier.
pub(crate) fn data_in(alloc: Global, identifier: &str, doc: &Doc) -> Result<Data, RmFault>
    ensures read { IfOk result (λ sent. read.data_in identifier.now doc.now ≡ Ok sent) }
    ensures content { IfOk result (λ sent. IsContent sent.body) }
    ensures refused { IfErr result (λ fault.
        fault ≢ RmFault.Memory → read.data_in identifier.now doc.now ≡ Err fault) }
{
    let places = places_of(alloc, doc, "Sequence")?;
    let said = sequence_at(alloc, doc, places.span)?;
    if said.identifier.as_str() != identifier {
        return Err(RmFault::OtherSequence);
    }
    let body = body_of(alloc, places.version, doc, places.body_at)?;
    Ok(Data {
        number: said.number,
        last: said.last,
        body,
    })
}

/// The ranges that a document sends, where it is of the sequence with this identifier.
pub(crate) fn ranges_in(alloc: Global, identifier: &str, doc: &Doc) -> Result<Ranges, RmFault>
    ensures read { IfOk result (λ ranges. read.ranges_in identifier.now doc.now ≡ Ok ranges) }
    ensures refused { IfErr result (λ fault.
        fault ≢ RmFault.Memory → read.ranges_in identifier.now doc.now ≡ Err fault) }
{
    let places = places_of(alloc, doc, "SequenceAcknowledgement")?;
    let said = acknowledgement_at(alloc, doc, places.span)?;
    if said.identifier.as_str() != identifier {
        return Err(RmFault::OtherSequence);
    }
    let Acknowledged { ranges, .. } = said;
    Ok(ranges)
}
