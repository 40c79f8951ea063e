//! What became of a relay.

ghost use Rattle.std.specs.Prelude.{◌≡◌};
ghost use Rattle.relay.specs.Outcomes.{inbound_by, read_by, written_by};

use nbfx_encoder::EncodeFault;
use nbfx_values::Offence;
use stream_loop::{Outbound, ReadOn};
use unit_streams::Memory;

/// How the reading of one direction ended.
#[derive(Clone, Copy, Debug, PartialEq, Eq)]
pub enum PumpIn {
    /// The session ended with End, or in simplex mode with the back's Ack alone.
    Ended,
    /// The stream is refused: where, and why.
    Offended(Offence),
    /// The back sent a Fault record, which ends the session.
    PeerFault,
    /// The Ack wasn't written, and the direction was read no further than to what opens it.
    NotOpened,
    /// A read met an I/O error.
    ReadFault,
    /// Out of memory while reading.
    Memory,
}

/// How the writing of one direction ended.
#[derive(Clone, Copy, Debug, PartialEq, Eq)]
pub enum PumpOut {
    /// All that was due is written.
    Done,
    /// The document with this number, from 0, doesn't fit. Nothing is written after the envelopes
    /// before it. The fault isn't `Memory`.
    Unfit { number: u64, fault: EncodeFault },
    /// A write met an I/O error.
    WriteFault,
    /// Out of memory while writing.
    Memory,
}

/// What became of one direction.
#[derive(Clone, Copy, Debug, PartialEq, Eq)]
pub struct Pump {
    /// How many envelopes were written, each whole. The count stops at the greatest number of its
    /// type. If the sink holds bytes back, they are the envelopes that it took.
    pub documents: u64,
    /// How the reading ended.
    pub read: PumpIn,
    /// How the writing ended.
    pub written: PumpOut,
}

/// What became of a relay, in each direction.
#[derive(Clone, Copy, Debug, PartialEq, Eq)]
pub struct RelayOutcome {
    /// Read from the front, and written to the back.
    pub forward: Pump,
    /// Read from the back, and written to the front.
    pub backward: Pump,
}

/// How the reading of a stream ended, by the answer of the loop; or why its handler stopped it.
/// The last event of a stream that ended well may have been a Fault.
pub(crate) fn read_by<H>(read: ReadOn<Offence, H>, faulted: bool) -> Result<H, PumpIn>
    ensures { result ≡ read_by read faulted }
{
    match read {
        ReadOn::Judged(Some(offence)) => Err(PumpIn::Offended(offence)),
        ReadOn::Judged(None) => Err(if faulted {
            PumpIn::PeerFault
        } else {
            PumpIn::Ended
        }),
        ReadOn::ReadFault => Err(PumpIn::ReadFault),
        ReadOn::Memory => Err(PumpIn::Memory),
        ReadOn::Halted(halt) => Ok(halt),
    }
}

/// How the reading of a direction ended, whose carrier never stops it.
pub(crate) fn inbound_by(read: ReadOn<Offence, Memory>, faulted: bool) -> PumpIn
    ensures { result ≡ inbound_by read faulted }
{
    match read_by(read, faulted) {
        Ok(Memory) => PumpIn::Memory,
        Err(read) => read,
    }
}

/// How the writing ended, by how it ended at the sink, where so many envelopes were written.
pub(crate) fn written_by(outbound: Outbound, unfit: Option<EncodeFault>, documents: u64) -> PumpOut
    ensures { result ≡ written_by outbound unfit documents }
{
    match (outbound, unfit) {
        (Outbound::Done, None) => PumpOut::Done,
        (Outbound::Done, Some(fault)) => PumpOut::Unfit {
            number: documents,
            fault,
        },
        (Outbound::WriteFault, _) => PumpOut::WriteFault,
        (Outbound::Memory, _) => PumpOut::Memory,
    }
}
