//! What may happen between both ends of a sequence.

use nbfx_values::Items;

/// What may happen next. A loss is a document that is never handed over.
#[derive(Debug, Drop)]
pub enum Event {
    /// A body is submitted, as the last of the sequence or not.
    Submit { body: Items, last: bool },
    /// The document of a number is sent.
    Send(u64),
    /// The receiving end takes the data document that was sent at this place, counted from 0. It may
    /// have taken it before.
    Data(u64),
    /// The next body is delivered.
    Deliver,
    /// The acknowledgement of what was received is sent.
    SendAck,
    /// The sending end takes the acknowledgement that was sent at this place, counted from 0.
    Ack(u64),
}

/// How many bodies were submitted, how many were delivered, and how many numbers are acknowledged.
#[derive(Clone, Copy, Debug, PartialEq, Eq)]
pub struct Counts {
    pub submitted: u64,
    pub delivered: u64,
    pub acknowledged: u64,
}
