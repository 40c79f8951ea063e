//! What became of a call, and the status of a run that ends so.

ghost use Rattle.std.specs.Prelude.{◌≡◌};
ghost use Rattle.client.specs.Statuses.{fails, fault_of, inbound_status, outcome_status, reason_status, status_of, wants_memory};

use crate::outcome::{CallOutcome, ClientIn, ClientOut};
use document_lines::InputFault;
use line_notation::LineKind;
use nbfx_values::Reason;
use stream_loop::Outbound as Reported;

/// What became of a call of a place, with its connection or without one.
#[derive(Clone, Copy, Debug, PartialEq, Eq)]
pub enum Called {
    /// In singleton mode there isn't exactly one document. No connection was asked for.
    WrongCount,
    /// There was no memory to begin with. No connection was asked for.
    Starved,
    /// The wire made no connection.
    Unconnected,
    /// A peer was called over a connection, which is closed now.
    Closed(CallOutcome),
}

// Whether there was no memory for a part of it.
fn wants_memory(outcome: &CallOutcome) -> bool
    ensures { result ≡ wants_memory outcome.now }
{
    matches!(outcome.inbound, ClientIn::Memory)
        || matches!(outcome.outbound, ClientOut::Memory)
        || matches!(outcome.report, Reported::Memory)
}

// Whether an end of the connection failed.
fn fails(outcome: &CallOutcome) -> bool
    ensures { result ≡ fails outcome.now }
{
    matches!(outcome.inbound, ClientIn::ReadFault)
        || matches!(outcome.outbound, ClientOut::WriteFault)
}

fn reason_status(reason: Reason) -> u8
    ensures { result ≡ reason_status reason }
{
    match reason {
        Reason::SessionTooLong => 10,
        _ => 1,
    }
}

// The status by how the peer's stream ended.
fn inbound_status(inbound: ClientIn) -> u8
    ensures { result ≡ inbound_status inbound }
{
    match inbound {
        ClientIn::PeerFault => 9,
        ClientIn::Offended(offence) => reason_status(offence.reason),
        ClientIn::Ended | ClientIn::ReadFault | ClientIn::Memory => 0,
    }
}

fn outcome_status(outcome: &CallOutcome) -> u8
    ensures { result ≡ outcome_status outcome.now }
{
    if wants_memory(outcome) {
        5
    } else if fails(outcome) {
        8
    } else if matches!(outcome.outbound, ClientOut::Unfit { .. }) {
        7
    } else if matches!(outcome.report, Reported::WriteFault) {
        4
    } else {
        inbound_status(outcome.inbound)
    }
}

impl Called {
    /// The status of a run that ends so. Lack of memory goes first, then a failed end of the
    /// connection, a document that doesn't fit, a failed output, and last what the peer sent.
    pub fn status(&self) -> u8
        ensures { result ≡ status_of self.now }
    {
        match self {
            Called::WrongCount => 6,
            Called::Starved => 5,
            Called::Unconnected => 8,
            Called::Closed(outcome) => outcome_status(outcome),
        }
    }

    /// The refusal of the documents that is the cause of the status, which a note says. Without one
    /// the note is that of the status.
    pub fn fault(&self) -> Option<InputFault>
        ensures { result ≡ fault_of self.now }
    {
        match self {
            Called::WrongCount => Some(InputFault::Line {
                line: 1,
                kind: LineKind::WrongCount,
            }),
            Called::Starved | Called::Unconnected => None,
            Called::Closed(outcome) => unfit_in(outcome),
        }
    }
}

// The document that doesn't fit, unless another cause goes before it.
fn unfit_in(outcome: &CallOutcome) -> Option<InputFault>
    ensures { result ≡ fault_of (Called.Closed outcome.now) }
{
    if wants_memory(outcome) || fails(outcome) {
        return None;
    }
    match outcome.outbound {
        ClientOut::Unfit { number, fault } => Some(InputFault::Unfit { number, why: fault }),
        ClientOut::Done | ClientOut::WriteFault | ClientOut::Memory => None,
    }
}
