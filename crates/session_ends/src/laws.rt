//! What holds of what is sent by the definitions of both ends alone.

ghost use Rattle.session_ends.specs.Sent.{SentAreCarried, SentAreSessions};

/// The envelopes that are written of documents that fit are read as these documents by any reader
/// that has the same static strings and quotas at least as great, and leave it the sender's session
/// strings.
pub fn envelopes()
    ensures { SentAreCarried }
{}

/// After a preamble that the reader accepts, and before an End record, such envelopes are a session
/// of just these documents, if it is within the reader's session quota.
pub fn sessions()
    ensures { SentAreSessions }
{}
