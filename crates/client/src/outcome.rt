//! What became of a call.

ghost use Rattle.std.specs.Prelude.{◌≡◌};
ghost use Rattle.client.specs.Writing.{out_of};

use nbfx_encoder::EncodeFault;
use nbfx_values::Offence;
use stream_loop::Outbound;

/// How the reading of the peer's stream ended.
#[derive(Clone, Copy, Debug, PartialEq, Eq)]
pub enum ClientIn {
    /// The session ended with End, or in simplex mode with the Ack alone.
    Ended,
    /// The stream is refused: where, and why.
    Offended(Offence),
    /// The peer sent a Fault record, which ends the session.
    PeerFault,
    /// A read met an I/O error.
    ReadFault,
    /// Out of memory while reading.
    Memory,
}

/// How the writing to the peer ended.
#[derive(Clone, Copy, Debug, PartialEq, Eq)]
pub enum ClientOut {
    /// All that was due is written: the session, or its opening alone if no Ack was read.
    Done,
    /// The document with this number, from 0, doesn't fit. Nothing is written after the envelopes
    /// before it. The fault isn't `Memory`.
    Unfit { number: u64, fault: EncodeFault },
    /// A write met an I/O error.
    WriteFault,
    /// Out of memory while writing.
    Memory,
}

/// How the writing to the peer ended, by how it ended at the sink.
pub(crate) fn client_out(outbound: Outbound) -> ClientOut
    ensures { result ≡ out_of outbound }
{
    match outbound {
        Outbound::Done => ClientOut::Done,
        Outbound::WriteFault => ClientOut::WriteFault,
        Outbound::Memory => ClientOut::Memory,
    }
}

/// What became of a call over a connection: of each of its ends, and of the report.
#[derive(Clone, Copy, Debug, PartialEq, Eq)]
pub struct CallOutcome {
    /// How many envelopes were written, each whole. After a failed write first bytes of the next
    /// one may be written too. If the sink holds bytes back, they are the envelopes that it took.
    pub sent: u64,
    /// How the reading of the peer's stream ended.
    pub inbound: ClientIn,
    /// How the writing to the peer ended.
    pub outbound: ClientOut,
    /// How the writing of the report ended.
    pub report: Outbound,
}
