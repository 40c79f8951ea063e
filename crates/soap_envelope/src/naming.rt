//! How much names count.

ghost use Rattle.std.specs.Prelude.{◌≡◌, ◌*◌, nat_le};
ghost use Rattle.nbfx_values.specs.QuotasOf.{limits_of};
ghost use Rattle.soap_envelope.specs.Fitting as spec;
ghost use Rattle.soap_envelope.specs.Fitting.{least_of_name, left_behind, names_content};

use crate::blocks::QualifiedName;
use nbfx_values::Quotas;

// How much a name counts, written out.
fn name_content(name: &QualifiedName<'_>) -> u64
    ensures { result ≡ spec.name_content name.now }
{
    name.uri.len() as u64 + name.local.len() as u64
}

// What is left of a quota after these names.
fn left_by_names(left: u64, names: &[QualifiedName<'_>]) -> Option<u64>
    ensures { result ≡ left_behind left (names_content names.now) }
{
    let mut left = left;
    for name in names {
        left = left.checked_sub(name_content(name))?;
    }
    Some(left)
}

// How many bytes the block of a name has at least in any payload: the beginning of its element, a
// declaration with a prefix, and an attribute.
const LEAST_OF_NAME: u64 = 9;

// Whether the least that so many blocks have in a payload is within a quota.
fn blocks_may_fit(quota: u32, count: usize) -> bool
    ensures { result ≡ nat_le (least_of_name * count) quota }
{
    match (count as u64).checked_mul(LEAST_OF_NAME) {
        Some(least) => least <= quota as u64,
        None => false,
    }
}

/// Whether a fault with these names may fit the quotas: the names' content, each with its namespace
/// written out, and the least that their blocks have in a payload. If not, it isn't sent: a document
/// may declare one namespace for thousands of blocks, whose names then take no memory, but the fault
/// has a block with the namespace for each.
pub fn names_fit(quotas: &Quotas, names: &[QualifiedName<'_>]) -> bool
    ensures { result ≡ spec.names_fit (limits_of quotas.now) names.now }
{
    if !blocks_may_fit(quotas.payload, names.len()) {
        return false;
    }
    match left_by_names(quotas.content as u64, names) {
        Some(_) => true,
        None => false,
    }
}
