//! Ranges of numbers.

ghost use Rattle.std.specs.Prelude.{◌≡◌, ◌++◌, OnOk};
ghost use Rattle.reliable_sequence.specs.Ranges as spec;

use nbfx_values::Sequence;
use unit_streams::Memory;

/// The numbers from the lower to the upper one.
#[derive(Clone, Copy, Debug, PartialEq, Eq)]
pub struct Range {
    /// The first of them.
    pub lower: u64,
    /// The last of them.
    pub upper: u64,
}

/// Ranges in the order in which an acknowledgement has them.
pub type Ranges = Sequence<Range>;

// The first upper end that is above a number.
pub(crate) fn first_above(number: u64, ranges: &[Range]) -> Option<u64>
    ensures { result ≡ spec.first_above number ranges.now }
{
    for range in ranges {
        if range.upper > number {
            return Some(range.upper);
        }
    }
    None
}

// Puts the range that ends in front of a place, where one has begun and the place is free, and this
// is the number before the place's.
pub(crate) fn end_range(
    ranges: &mut Ranges,
    begun: Option<u64>,
    before: u64,
    has_body: bool,
) -> Result<(), Memory>
    ensures { OnOk result (ranges.new ≡ ranges.old ++ spec.ended begun before has_body) }
{
    match begun {
        Some(lower) if !has_body => ranges.push(Range {
            lower,
            upper: before,
        }),
        _ => Ok(()),
    }
}

// The lower end of the range that has begun behind a place of this number.
pub(crate) fn begun_with(begun: Option<u64>, number: u64, has_body: bool) -> Option<u64>
    ensures { result ≡ spec.begun_with begun number has_body }
{
    if has_body {
        Some(begun.unwrap_or(number))
    } else {
        None
    }
}
