//! What holds of every sequence. Each function does nothing: its contract is a law, which a caller
//! has where it calls the function.

ghost use Rattle.reliable_sequence.specs.Acknowledged.{NoneAtFirst, SameWithMore};
ghost use Rattle.reliable_sequence.specs.DocumentLaws.{RangesAreRead, SentIsRead};
ghost use Rattle.reliable_sequence.specs.Laws.{AcknowledgesWhatWasReceived, Always, AreCounted, DeliversInOrder, HoldsWhatWasSubmitted, RangesAreCounted, RangesAreReceived, RangesRise, TakesAcknowledgements, TakesDocuments};

/// Whatever is lost, comes twice or comes in another order: what was delivered are the first of the
/// bodies that were submitted, in their order; each body that is held is the one that was submitted
/// under its number, which is within the window; each number that the sending end counts as
/// acknowledged was delivered or is held; each document that was ever sent is taken without a fault,
/// unless memory runs out; and the counts are those of what was submitted and delivered and is
/// acknowledged.
pub fn sequences()
    ensures in_order { Always DeliversInOrder }
    ensures held { Always HoldsWhatWasSubmitted }
    ensures acknowledged { Always AcknowledgesWhatWasReceived }
    ensures documents_taken { Always TakesDocuments }
    ensures acknowledgements_taken { Always TakesAcknowledgements }
    ensures counted { Always AreCounted }
{}

/// Ranges that are taken acknowledge exactly their numbers; at first none is acknowledged, and a body
/// that is submitted changes none. The ranges that the receiving end sends have exactly the numbers
/// that were delivered or are held, in rising order, and neither meet nor touch.
pub fn ranges()
    ensures counted { RangesAreCounted }
    ensures first { NoneAtFirst }
    ensures submitted { SameWithMore }
    ensures received { RangesAreReceived }
    ensures rising { RangesRise }
{}

/// A document that sends a body is read as that body, with its number and its mark, by the other end
/// of the sequence. One that sends ranges is read as these ranges.
pub fn documents()
    ensures sent { SentIsRead }
    ensures ranges { RangesAreRead }
{}
