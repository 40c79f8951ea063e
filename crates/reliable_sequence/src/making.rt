//! The documents that are sent.

ghost use Rattle.std.specs.Prelude.{◌≡◌, ◌++◌, ◌∷◌, [], IfOk, OnOk, codes, flat_map};
ghost use Rattle.nbfx_values.specs.declared.content.Item.TheVariants as item;
ghost use Rattle.soap_envelope.specs.Making.{IsContent};
ghost use Rattle.reliable_sequence.specs.Made as spec;
ghost use Rattle.reliable_sequence.specs.Made.{AreSmall, block_start, numeral};

use crate::names::MESSAGING;
use crate::parts::Data;
use crate::ranges::Range;
use nbfx_values::{Doc, Item, Items, Scalar, Txt, Value};
use soap_envelope::puts::{put_attribute, put_close, put_start, put_xmlns};
use soap_envelope::{Addressing, envelope_doc};
use std::alloc::Global;
use unit_streams::Memory;

// An element with a text.
fn put_text_element(
    alloc: Global,
    items: &mut Items,
    local: &str,
    value: Value,
) -> Result<(), Memory>
    ensures { OnOk result (items.new
        ≡ items.old ++ item.Start (codes "r") local.now ∷ item.Text value ∷ item.Close ∷ []) }
{
    put_start(alloc, items, "r", local)?;
    items.push(Item::Text(value))?;
    put_close(items)
}

// A number as a value.
fn numeral(number: u64) -> Value
    ensures { result ≡ numeral number }
{
    Value::One(Scalar::Number(number as i128))
}

// The head of a block.
#[tactic(auto, unfolding(crate::specs::Names::messaging))]
fn put_block_start(alloc: Global, items: &mut Items, local: &str) -> Result<(), Memory>
    ensures { OnOk result (items.new ≡ items.old ++ block_start local.now) }
{
    put_start(alloc, items, "r", local)?;
    put_xmlns(alloc, items, "r", MESSAGING)?;
    Ok(())
}

// The sequence's identifier.
fn put_identifier(alloc: Global, items: &mut Items, identifier: &str) -> Result<(), Memory>
    ensures { OnOk result (items.new ≡ items.old ++ spec.identifier_items identifier.now) }
{
    let text = Txt::of(alloc, identifier)?;
    put_text_element(alloc, items, "Identifier", Value::One(Scalar::Text(text)))
}

// The mark of the last body.
fn put_last(alloc: Global, items: &mut Items, last: bool) -> Result<(), Memory>
    ensures { OnOk result (items.new ≡ items.old ++ spec.last_items last) }
{
    if last {
        put_start(alloc, items, "r", "LastMessage")?;
        put_close(items)?;
    }
    Ok(())
}

// The block of a body.
fn put_sequence(
    alloc: Global,
    items: &mut Items,
    identifier: &str,
    number: u64,
    last: bool,
) -> Result<(), Memory>
    ensures { OnOk result (items.new
        ≡ items.old ++ spec.sequence_items identifier.now number last) }
{
    put_block_start(alloc, items, "Sequence")?;
    put_attribute(alloc, items, "s", "mustUnderstand", numeral(1))?;
    put_identifier(alloc, items, identifier)?;
    put_text_element(alloc, items, "MessageNumber", numeral(number))?;
    put_last(alloc, items, last)?;
    put_close(items)?;
    Ok(())
}

// A range.
fn put_range(alloc: Global, items: &mut Items, range: Range) -> Result<(), Memory>
    ensures { OnOk result (items.new ≡ items.old ++ spec.range_items range) }
{
    put_start(alloc, items, "r", "AcknowledgementRange")?;
    put_attribute(alloc, items, "", "Lower", numeral(range.lower))?;
    put_attribute(alloc, items, "", "Upper", numeral(range.upper))?;
    put_close(items)?;
    Ok(())
}

// Ranges in order.
fn put_ranges(alloc: Global, items: &mut Items, ranges: &[Range]) -> Result<(), Memory>
    ensures { OnOk result (items.new ≡ items.old ++ flat_map spec.range_items ranges.now) }
{
    for range in ranges {
        put_range(alloc, items, *range)?;
    }
    Ok(())
}

// The block of ranges.
fn put_acknowledgement(
    alloc: Global,
    items: &mut Items,
    identifier: &str,
    ranges: &[Range],
) -> Result<(), Memory>
    ensures { OnOk result
        (items.new ≡ items.old ++ spec.acknowledgement_items identifier.now ranges.now) }
{
    put_block_start(alloc, items, "SequenceAcknowledgement")?;
    put_identifier(alloc, items, identifier)?;
    put_ranges(alloc, items, ranges)?;
    put_close(items)?;
    Ok(())
}

// The block of a body, alone.
fn sequence_block(alloc: Global, identifier: &str, number: u64, last: bool) -> Result<Items, Memory>
    ensures made { IfOk result (λ block. block ≡ spec.sequence_items identifier.now number last) }
    ensures content { IfOk result IsContent }
{
    let mut block = Items::new(alloc);
    put_sequence(alloc, &mut block, identifier, number, last)?;
    Ok(block)
}

// The block of ranges, alone.
fn acknowledgement_block(alloc: Global, identifier: &str, ranges: &[Range]) -> Result<Items, Memory>
    requires { AreSmall ranges.now }
    ensures made { IfOk result
        (λ block. block ≡ spec.acknowledgement_items identifier.now ranges.now) }
    ensures content { IfOk result IsContent }
{
    let mut block = Items::new(alloc);
    put_acknowledgement(alloc, &mut block, identifier, ranges)?;
    Ok(block)
}

// The document that sends a body of the sequence with this identifier.
pub(crate) fn data_doc(alloc: Global, identifier: &str, sent: Data) -> Result<Doc, Memory>
    requires { IsContent sent.body }
    ensures { IfOk result (λ doc. doc ≡ spec.data_items identifier.now sent) }
{
    let Data { number, last, body } = sent;
    let block = sequence_block(alloc, identifier, number, last)?;
    envelope_doc(alloc, Addressing::V10, block, body)
}

// The document that sends ranges of the sequence with this identifier.
pub(crate) fn ranges_doc(alloc: Global, identifier: &str, ranges: &[Range]) -> Result<Doc, Memory>
    requires { AreSmall ranges.now }
    ensures { IfOk result (λ doc. doc ≡ spec.ranges_items identifier.now ranges.now) }
{
    let block = acknowledgement_block(alloc, identifier, ranges)?;
    envelope_doc(alloc, Addressing::V10, block, Items::new(alloc))
}
