//! What holds of the chosen spelling by its definitions alone. Each function does nothing: its
//! contract is a law, which a caller has where it calls the function.

ghost use Rattle.nbfx_encoder.specs.Laws.{ChosenIsPayload, LargeIsUnwritten, SendsOneMore, WritesWhatFits};

/// What is written of a document that fits is a payload of it, within the limits of any reader that
/// admits as much, and leaves the strings that such a reader has after it. A document is written
/// exactly where it fits. So none is where it has more content than the limits admit, or where the
/// least bytes that it has in a payload are more, whatever strings the session has.
pub fn payloads()
    ensures payload { ChosenIsPayload }
    ensures fits { WritesWhatFits }
    ensures large { LargeIsUnwritten }
{}

/// Of a list of documents and one more, the envelopes are those of the list, and then the envelope
/// of the last one under the session strings that those before it left; or that one is the first
/// that doesn't fit.
pub fn envelopes()
    ensures { SendsOneMore }
{}
