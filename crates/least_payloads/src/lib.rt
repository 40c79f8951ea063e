//! The least that items take of a payload, whatever strings a session has.
//!
//! A writer chooses among spellings by the strings that the session has so far, so a document's
//! size isn't known before it is spelled. What this crate counts is: each record has a type byte,
//! each name an identifier or a length, and so on. A document whose least is above a quota isn't
//! written, and needn't be made.
#![tactic(auto)]

ghost use Rattle.std.specs.Prelude.{◌≡◌, sum_by};
ghost use Rattle.nbfx_values.specs.Measures.{capped};
ghost use Rattle.least_payloads.specs.Least as spec;
ghost use Rattle.least_payloads.specs.Least.{least_of_attribute, least_of_item};

use nbfx_values::{AttrItem, Item};

/// The fewest bytes that the record of a declaration of this prefix has: the type byte, the
/// namespace's identifier or length, and for a prefix its length and a byte of it.
pub fn least_of_declaration(prefix: &str) -> u64
    ensures { result ≡ spec.least_of_declaration prefix.now }
{
    if prefix.is_empty() { 2 } else { 4 }
}

// The least bytes of a declaration or an attribute of an array's element.
fn least_of_attribute(attribute: &AttrItem) -> u64
    ensures { result ≡ least_of_attribute attribute.now }
{
    match attribute {
        AttrItem::Xmlns { prefix, .. } => least_of_declaration(prefix.as_str()),
        AttrItem::Attr { .. } => 3,
    }
}

fn least_of_attributes(attributes: &[AttrItem]) -> u64
    ensures { result ≡ capped (sum_by least_of_attribute attributes.now) }
{
    let mut least: u64 = 0;
    for attribute in attributes {
        least = least.saturating_add(least_of_attribute(attribute));
    }
    least
}

/// The fewest bytes that an item takes of a payload, up to 2^64 - 1.
pub fn least_of_item(item: &Item) -> u64
    ensures { result ≡ capped (least_of_item item.now) }
{
    match item {
        Item::Start { .. } => 2,
        Item::Xmlns { prefix, .. } => least_of_declaration(prefix.as_str()),
        Item::Attr { .. } => 3,
        Item::Text(_) => 1,
        Item::Comment(_) => 2,
        Item::Array(array) => least_of_attributes(array.attrs.as_slice()).saturating_add(6),
        Item::Close => 0,
    }
}
