//! What became of a connection.

use nbfx_values::Offence;
use stream_loop::Outbound;

/// How the reading of a connection ended.
#[derive(Clone, Copy, Debug, PartialEq, Eq)]
pub enum Inbound {
    /// The session ended with an End record.
    Ended,
    /// The stream is refused: where, and why.
    Offended(Offence),
    /// A read met an I/O error.
    ReadFault,
    /// Out of memory while reading, or while answering a request.
    Memory,
}

/// What became of a connection. Counts stop at the greatest number of their type.
#[derive(Clone, Copy, Debug, PartialEq, Eq)]
pub struct Outcome {
    /// How many documents were read, also those that are owed no answer. One for which there was no
    /// memory isn't counted.
    pub messages: u64,
    /// How many answers were put to the sink whole. Where the sink holds nothing back they are
    /// written, and if the writing ended early, at most first bytes of what was due next.
    pub answers: u64,
    /// How the reading ended.
    pub inbound: Inbound,
    /// How the writing ended.
    pub outbound: Outbound,
}
