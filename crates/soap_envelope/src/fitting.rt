// How much the content of a Body counts with the declarations that its children need: its content,
// and the least bytes that it has in a payload. Both are counted before any of it is copied, and no
// further than the quotas admit.
ghost use Rattle.std.specs.Prelude.{◌≡◌, ◌<◌, ◌^◌, ◌∷◌, [], IfOk, Some, map, nat_le};
ghost use Rattle.nbfx_values.specs.Measures.{capped};
ghost use Rattle.nbfx_values.specs.QuotasOf.{limits_of};
ghost use Rattle.least_payloads.specs.Least.{may_fit};
ghost use Rattle.soap_envelope.specs.Body as body;
ghost use Rattle.soap_envelope.specs.Body.{missing, xmlns_of};
ghost use Rattle.soap_envelope.specs.Fitting.{IsCounted, counted, item_measure, left_behind, measure_of};
ghost use Rattle.soap_envelope.specs.Layers.{kept};

use crate::bindings::Bindings;
use crate::body::is_missing;
use crate::children::open_behind;
use crate::layers::Declared;
use crate::scopes::{declared_in, declared_on};
use least_payloads::{least_of_declaration, least_of_item};
use nbfx_values::{Item, Quotas};
use std::alloc::Global;
use unit_streams::Memory;

// What is counted of items.
#[derive(Clone, Copy)]
pub(crate) enum Measure {
    // Their content.
    Content,
    // The least bytes that they have in a payload.
    Payload,
}

// How much a declaration counts.
fn measure_of_declaration(measure: Measure, one: &Declared<'_>) -> u64
    ensures { result ≡ item_measure measure (xmlns_of (kept one.now)) }
{
    match measure {
        Measure::Content => one.prefix.len() as u64 + one.uri.len() as u64,
        Measure::Payload => least_of_declaration(one.prefix),
    }
}

// How much an item counts, up to 2^64 - 1.
fn measure_of_item(measure: Measure, item: &Item) -> u64
    ensures { result ≡ capped (item_measure measure item.now) }
{
    match measure {
        Measure::Content => item.content(),
        Measure::Payload => least_of_item(item),
    }
}

// How much declarations count, up to 2^64 - 1.
fn sum_of(measure: Measure, declarations: &[Declared<'_>]) -> u64
    ensures { result ≡ capped (measure_of measure (map xmlns_of (map kept declarations.now))) }
{
    let mut sum: u64 = 0;
    for one in declarations {
        sum = sum.saturating_add(measure_of_declaration(measure, one));
    }
    sum
}

// The declarations that children of Body need, and how much all of them count, which is what a
// child costs that has none itself.
#[derive(Drop)]
pub(crate) struct Counted<'n> {
    declarations: &'n [Declared<'n>],
    sum: u64,
}

// What is left of the quotas after the declarations that an element needs and doesn't have itself.
fn left_by_missing(
    measure: Measure,
    left: u64,
    needs: &Counted<'_>,
    own: &Bindings<'_>,
) -> Option<u64>
    requires few { left < 2 ^ 32 }
    requires sum { IsCounted measure needs.now }
    ensures { result ≡ left_behind left
        (measure_of measure (map xmlns_of (missing (counted needs.now) own.now))) }
{
    if own.len() == 0 {
        return left.checked_sub(needs.sum);
    }
    let mut left = left;
    for one in needs.declarations {
        if is_missing(own, one.prefix) {
            left = left.checked_sub(measure_of_declaration(measure, one))?;
        }
    }
    Some(left)
}

// What is left of the quotas after an item.
fn left_by_item(measure: Measure, left: u64, item: &Item) -> Option<u64>
    requires { left < 2 ^ 32 }
    ensures { result ≡ left_behind left (measure_of measure (item.now ∷ [])) }
{
    left.checked_sub(measure_of_item(measure, item))
}

// What is left of the quotas after a child, or the beginning of one, with the declarations that it
// needs.
fn left_by_child(
    alloc: Global,
    measure: Measure,
    left: u64,
    needs: &Counted<'_>,
    item: &Item,
    more: &[Item],
) -> Result<Option<u64>, Memory>
    requires few { left < 2 ^ 32 }
    requires sum { IsCounted measure needs.now }
    ensures { IfOk result (λ behind. behind ≡ left_behind left
        (measure_of measure (body.child_items (counted needs.now) item.now more.now))) }
{
    let Some(left) = left_by_item(measure, left, item) else {
        return Ok(None);
    };
    let own = match item {
        Item::Start { .. } => declared_in(alloc, more)?,
        Item::Array(array) => declared_on(alloc, array.attrs.as_slice())?,
        _ => return Ok(Some(left)),
    };
    Ok(left_by_missing(measure, left, needs, &own))
}

// What is left of the quotas after an item that stands in so many elements within Body.
fn left_by(
    alloc: Global,
    measure: Measure,
    left: u64,
    needs: &Counted<'_>,
    inner: usize,
    item: &Item,
    more: &[Item],
) -> Result<Option<u64>, Memory>
    requires few { left < 2 ^ 32 }
    requires sum { IsCounted measure needs.now }
    ensures { IfOk result (λ behind. behind ≡ left_behind left
        (measure_of measure (body.standing_items (counted needs.now) inner item.now more.now))) }
{
    if inner == 0 {
        left_by_child(alloc, measure, left, needs, item, more)
    } else {
        Ok(left_by_item(measure, left, item))
    }
}

// Whether the items up to the end of the element that holds them, with the declarations that its
// children need, count no more than this.
fn measure_fits(
    alloc: Global,
    measure: Measure,
    most: u32,
    needs: &[Declared<'_>],
    items: &[Item],
) -> Result<bool, Memory>
    ensures { IfOk result (λ fit. fit ≡ nat_le
        (measure_of measure (body.self_standing (map kept needs.now) (Some 0) items.now)) most) }
{
    let counted = Counted {
        declarations: needs,
        sum: sum_of(measure, needs),
    };
    let mut left = most as u64;
    let mut inner = 0;
    for (i, item) in items.iter().enumerate() {
        let Some(open) = open_behind(inner, item) else {
            return Ok(true);
        };
        match left_by(alloc, measure, left, &counted, inner, item, &items[i + 1..])? {
            Some(behind) => left = behind,
            None => return Ok(false),
        }
        inner = open;
    }
    Ok(true)
}

// Whether the same items may fit the quotas.
pub(crate) fn body_may_fit(
    alloc: Global,
    quotas: &Quotas,
    needs: &[Declared<'_>],
    items: &[Item],
) -> Result<bool, Memory>
    ensures { IfOk result (λ fit. fit ≡ may_fit (limits_of quotas.now)
        (body.self_standing (map kept needs.now) (Some 0) items.now)) }
{
    if !measure_fits(alloc, Measure::Payload, quotas.payload, needs, items)? {
        return Ok(false);
    }
    measure_fits(alloc, Measure::Content, quotas.content, needs, items)
}
