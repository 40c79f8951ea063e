//! Why a body isn't taken or submitted.

use soap_envelope::SoapFault;
use unit_streams::Memory;

/// Why a document isn't taken. The first that applies is answered, in this order, and then nothing
/// has changed. Places are those of the document's items, counted from 0.
#[derive(Clone, Copy, Debug, PartialEq, Eq)]
pub enum RmFault {
    /// The document isn't an envelope.
    View(SoapFault),
    /// The envelope has no block of the kind, or two.
    NoBlock,
    /// The item breaks the form of its block.
    BadBlock { item: usize },
    /// The block is of another sequence.
    OtherSequence,
    /// The upper end of a range, of the first that has such a one, is above the count of submitted
    /// bodies.
    InvalidAck { upper: u64 },
    /// The number is above that of the last body, or its body is marked as the last and the number
    /// of another one that came before is above it.
    AfterLast { number: u64 },
    /// Out of memory.
    Memory,
}

impl From<Memory> for RmFault {
    ghost use Rattle.std.specs.Prelude.{◌≡◌};
    ghost use Rattle.reliable_sequence.specs.declared.faults.RmFault.TheVariants as faults;

    ghost from_gives = { λ _ fault. fault ≡ faults.Memory };

    fn from(_memory: Memory) -> RmFault {
        RmFault::Memory
    }
}

/// Why a body isn't submitted. It is dropped.
#[derive(Clone, Copy, Debug, PartialEq, Eq)]
pub enum SubmitFault {
    /// A body was submitted as the last one.
    Closed,
    /// As many numbers as the window has stand above those that are acknowledged without a gap.
    WindowFull { unacked: u64 },
    /// Out of memory.
    Memory,
}

impl From<Memory> for SubmitFault {
    ghost use Rattle.std.specs.Prelude.{◌≡◌};
    ghost use Rattle.reliable_sequence.specs.declared.faults.SubmitFault.TheVariants as faults;

    ghost from_gives = { λ _ fault. fault ≡ faults.Memory };

    fn from(_memory: Memory) -> SubmitFault {
        SubmitFault::Memory
    }
}
