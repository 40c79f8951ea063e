//! What holds of merges. Each function does nothing: its contract is a law. A contract can't range
//! over types, so each law is said here of lists of numbers, by a proof that holds at any type.

ghost use Rattle.std.specs.Prelude.{ℕ};
ghost use Rattle.two_lanes.specs.Merges.{MergesAreInOrder, MergesGrowByOne};

/// Of a merge of two lists that have no fewer elements than letters, the elements with a letter are
/// the first ones of its list, in order.
pub fn merges_are_in_order()
    ensures { MergesAreInOrder ℕ }
{}

/// A letter more takes the next element of its list.
pub fn merges_grow_by_one()
    ensures { MergesGrowByOne ℕ }
{}
