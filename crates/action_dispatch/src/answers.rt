//! Answers.

use nbfx_values::{Doc, Items};
use soap_envelope::Addressing;

/// What a server sends for a request.
#[derive(Debug, Drop)]
pub enum Answer {
    /// This reply or fault. It relates to the texts of the request's MessageID, which are none if
    /// the request has no MessageID or is no envelope; and it is in the request's version of
    /// addressing, which is 1.0 if the request is no envelope.
    Reply {
        doc: Doc,
        relates: Items,
        version: Addressing,
    },
    /// No answer is sent.
    Nothing,
}

/// An answer, unless it is larger than it may be.
#[derive(Debug, Drop)]
pub enum Measured {
    /// The answer.
    Made(Answer),
    /// A reply or a fault that isn't made, since it would have more content, or more bytes in any
    /// payload, than the quotas admit. It would relate to these texts, in this version.
    TooLarge { relates: Items, version: Addressing },
}
