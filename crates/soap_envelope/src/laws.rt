//! What holds of views by the definitions alone. Each function does nothing: its contract is a law,
//! which a caller has where it calls the function.

ghost use Rattle.soap_envelope.specs.Laws.{BodiesAreNamed, BodiesStand, FaultsAreViewed, NamesAreAll, PrefixesAreFree, RelatesAreKept, RepliesAreViewed, UnfitNamesAreUnfit};
ghost use Rattle.soap_envelope.specs.Sizes.{UnfitBodiesAreUnfit};

/// A reply is an envelope of its version whose Action is the request's followed by `Response`,
/// whose RelatesTo has the given texts, and whose Body has the given content. The names of the
/// content have to be good where only the reply's own two prefixes are declared.
pub fn replies()
    ensures viewed { RepliesAreViewed }
    ensures relates { RelatesAreKept }
{}

/// The content of Body, as a view has it, may be put into any reply in its version: its names are
/// good there and mean what they mean in its document, and the reply's view has the same content.
/// If the content doesn't fit a quota, no reply with it does.
pub fn bodies()
    ensures stand { BodiesStand }
    ensures named { BodiesAreNamed }
    ensures unfit { UnfitBodiesAreUnfit }
{}

/// A fault is an envelope of its version whose Body has one Fault and nothing else, and whose
/// Action is that of its subcode. If its names don't fit the quotas, it doesn't either.
pub fn faults()
    ensures viewed { FaultsAreViewed }
    ensures unfit { UnfitNamesAreUnfit }
{}

/// What is seen of a document depends on the namespaces that its prefixes are bound to, and on no
/// prefix: documents with the same resolved names and values, item by item, have the same blocks,
/// action, reply address and MessageID, or are refused for the same reason at the same item. So do
/// a document and the same one with other prefixes for its namespaces. The content of Body keeps
/// its prefixes.
pub fn prefixes()
    ensures names { NamesAreAll }
    ensures renamed { PrefixesAreFree }
{}
