//! What became of the sessions of a connection.

use duplex_server::Outcome;
use nbfx_values::Sequence;

/// What became of each session of a connection, in order.
pub type Outcomes = Sequence<Outcome>;

/// Why no more sessions of a connection were served.
#[derive(Clone, Copy, Debug, PartialEq, Eq)]
pub enum TurnsEnd {
    /// The peer sends no more, behind sessions that all ended well.
    Done,
    /// As many sessions as may be ended well. What follows them isn't looked at.
    Most,
    /// The last session didn't end with an End record, or its answers couldn't be written.
    Stopped,
    /// A read between two sessions met an I/O error.
    ReadFault,
    /// Out of memory before the first session.
    Memory,
}

/// What became of the sessions of a connection.
#[derive(Debug, Drop)]
pub struct Turns {
    /// Of each session, in order.
    pub outcomes: Outcomes,
    /// Why no more were served.
    pub end: TurnsEnd,
}
