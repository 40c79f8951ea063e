// What a line of a history brings.

use nbfx_values::Items;
use reliable_sequence::Counts;

/// What a line of a history brings.
#[derive(Debug, Drop)]
pub struct Played {
    /// The body that it delivers, if it does.
    pub body: Option<Items>,
    /// How many bodies were submitted and delivered then, and how many numbers are acknowledged.
    pub counts: Counts,
}
