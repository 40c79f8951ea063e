//! Why a document has no view as an envelope.

use unit_streams::Memory;

/// Why a document has no view as an envelope. The first that applies is answered, in this order,
/// and places are those of the document's items, counted from 0.
#[derive(Clone, Copy, Debug, PartialEq, Eq)]
pub enum SoapFault {
    /// This item has a prefix that isn't declared, or declares a prefix a second time in its
    /// element.
    BadNames { item: usize },
    /// The root's local name isn't `Envelope`.
    NotAnEnvelope,
    /// The root is an Envelope of another namespace than SOAP 1.2's.
    VersionMismatch,
    /// This child of the root is neither a Header in front nor the one Body after it.
    Misplaced { item: usize },
    /// The root has no Body.
    NoBody,
    /// This block is the second Action, To, MessageID or ReplyTo.
    RepeatedHeader { item: usize },
    /// This child of Header is no block in a namespace, or this attribute or content of a block
    /// isn't what SOAP 1.2 or WS-Addressing 1.0 asks of it.
    BadHeader { item: usize },
    /// Out of memory.
    Memory,
}

impl From<Memory> for SoapFault {
    ghost use Rattle.std.specs.Prelude.{◌≡◌};
    ghost use Rattle.soap_envelope.specs.declared.refusals.SoapFault.TheVariants as faults;

    ghost from_gives = { λ _ fault. fault ≡ faults.Memory };

    fn from(_memory: Memory) -> SoapFault {
        SoapFault::Memory
    }
}
