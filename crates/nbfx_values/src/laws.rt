//! Laws over the definitions alone. Each is the contract of a function that does nothing.
ghost use Rattle.std.specs.Prelude.{◌≡◌, ◌++◌, ◌↔◌, [], IsSome, List, Some, ℕ};
ghost use Rattle.nbfx_values.specs.declared.content.Item.{Item};
ghost use Rattle.nbfx_values.specs.declared.position.Position.{Position};
ghost use Rattle.nbfx_values.specs.declared.position.Position.TheVariants.{After};
ghost use Rattle.nbfx_values.specs.Documents.{Children, IsDocument, IsFront, IsRefusedAt, height, walk};
ghost use Rattle.nbfx_values.specs.Limits.{IsGood, usual_limits};
ghost use Rattle.nbfx_values.specs.Measures.{depth_of, opened_by};
ghost use Rattle.nbfx_values.specs.Positions.{open_count, position_of};
ghost use Rattle.nbfx_values.specs.Refusals.{reason_number};

use crate::refusals::Reason;

/// Two reasons with one number are one reason.
pub fn one_number_one_reason(first: &Reason, second: &Reason)
    requires { reason_number first.now ≡ reason_number second.now }
    ensures { first.now ≡ second.now }
{}

/// The usual limits are valid.
pub fn usual_limits_are_good()
    ensures { IsGood usual_limits }
{}

/// The depth of a document is the height of the elements that stand in one another.
pub fn depth_is_height()
    ensures { (children : Children) → depth_of (walk children) ≡ height children }
{}

/// A list is a document exactly where its items, each allowed after those before it, lead from
/// before the root to after it.
pub fn a_document_leads_to_its_end()
    ensures { (items : List Item) → IsDocument items ↔ (position_of items ≡ Some After) }
{}

/// A list is a front of a document exactly where each of its items is allowed after those before
/// it.
pub fn a_front_leads_on()
    ensures { (items : List Item) → IsFront items ↔ IsSome (position_of items) }
{}

/// As many elements are open where items lead as they opened and didn't close.
pub fn a_position_counts_the_open()
    ensures { (items : List Item) (position : Position) → position_of items ≡ Some position
        → open_count position ≡ opened_by 0 items }
{}

/// No document is the beginning of a longer one.
pub fn no_document_goes_on()
    ensures { (items more : List Item) → IsDocument items → IsDocument (items ++ more) → more ≡ [] }
{}

/// A list that isn't a document stops being the front of one at one place only.
pub fn one_place_of_refusal()
    ensures { (items : List Item) (at other : ℕ) → IsRefusedAt items at
        → IsRefusedAt items other → at ≡ other }
{}
