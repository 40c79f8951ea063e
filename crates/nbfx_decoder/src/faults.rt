//! Why a payload isn't read.

ghost use Rattle.std.specs.Prelude.{◌≡◌, Err};
ghost use Rattle.nbfx_decoder.specs.Faults as spec;

use crate::units::UnitRead;
use nbfx_records::{NodeFault, RecordFault, Stop};
use nbfx_values::Reason;
use unit_streams::Memory;

/// Why a payload isn't read on. The decoder answers the same from then on.
#[derive(Clone, Copy, Debug, PartialEq, Eq)]
pub enum DecodeFault {
    /// The payload is refused: what begins at offset `at`, a record or a part of the string table.
    /// Its first `shown_by` bytes show that, and no fewer do.
    Payload {
        /// From 0, in the payload.
        at: u32,
        /// Why it is refused.
        reason: Reason,
        /// Counted from the beginning of the payload.
        shown_by: u32,
    },
    /// Out of memory.
    Memory,
}

/// Why the unit at the front of some bytes isn't read.
#[derive(Clone, Copy, Debug, PartialEq, Eq)]
pub(crate) enum UnitFault {
    /// It is refused, as its first so many bytes show.
    Refused { reason: Reason, shown_by: usize },
    Memory,
}

impl From<Memory> for UnitFault {
    ghost use Rattle.std.specs.Prelude.{◌≡◌};
    ghost use Rattle.nbfx_decoder.specs.declared.faults.UnitFault.TheVariants as faults;

    ghost from_gives = { λ _ fault. fault ≡ faults.Memory };

    fn from(_memory: Memory) -> UnitFault {
        UnitFault::Memory
    }
}

/// The error that a unit is refused, which its first so many bytes show.
pub(crate) fn refused<T>(reason: Reason, shown_by: usize) -> Result<T, UnitFault>
    ensures { result ≡ Err (UnitFault.Refused reason shown_by) }
{
    Err(UnitFault::Refused { reason, shown_by })
}

/// The reason to refuse a payload for this fault of a record.
pub(crate) fn reason_of(fault: RecordFault) -> Reason
    ensures { result ≡ spec.reason_of fault }
{
    match fault {
        RecordFault::UnknownNode => Reason::UnknownNode,
        RecordFault::OutOfPlace => Reason::NodeOutOfPlace,
        RecordFault::TrailingBytes => Reason::TrailingBytes,
        RecordFault::TooDeep => Reason::TooDeep,
        RecordFault::BadInt => Reason::BadInt,
        RecordFault::BadArray => Reason::BadArray,
        RecordFault::BadUtf8 => Reason::BadUtf8,
        RecordFault::BadValue => Reason::BadValue,
    }
}

/// The fault of a complete record of so many bytes of which no node is made.
pub(crate) fn unmade(why: NodeFault, used: usize) -> UnitFault
    ensures { result ≡ spec.unmade why used }
{
    match why {
        NodeFault::Record(fault) => UnitFault::Refused {
            reason: reason_of(fault),
            shown_by: used,
        },
        NodeFault::Memory => UnitFault::Memory,
    }
}

/// The answer where no complete record is read: how many bytes are wanted, or why it is refused.
#[inline(always)]
pub(crate) fn stopped(stop: Stop) -> Result<UnitRead, UnitFault>
    ensures { result ≡ spec.stopped stop }
{
    match stop {
        Stop::More { wants } => Ok(UnitRead::More { wants }),
        Stop::Fault { fault, shown_by } => refused(reason_of(fault), shown_by),
    }
}
