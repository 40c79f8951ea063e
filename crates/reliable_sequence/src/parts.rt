//! What the sending end sends, and what the receiving end says of it.

use nbfx_values::Items;

/// A body with its number in the sequence.
#[derive(Debug, Drop)]
pub struct Data {
    /// Counted from 1. A body of number 0 counts as received.
    pub number: u64,
    /// Whether the body is the last of the sequence.
    pub last: bool,
    /// The content of Body.
    pub body: Items,
}

/// A number that was sent.
#[derive(Clone, Copy, Debug, PartialEq, Eq)]
pub struct Marked {
    /// Counted from 1.
    pub number: u64,
    /// Whether its body was marked as the last of the sequence.
    pub last: bool,
}

/// What became of a body that came.
#[derive(Clone, Copy, Debug, PartialEq, Eq)]
pub enum Taken {
    /// It is held until it is delivered.
    New,
    /// It was received before.
    Again,
    /// Its number is above the count of delivered bodies by more than the window. Nothing changed.
    Ahead { number: u64 },
}
