//! What a receiver's framing answers to an event or an offence (MC-NMF).

ghost use Rattle.std.specs.Prelude.{◌≡◌};
ghost use Rattle.receiver_machine.specs.Owed.{after_answer, after_step, bytes_of, closing_bytes, fault_record, owed_for};

use nbfx_values::{Offence, Reason};
use nmf_records::record_types::{END, PREAMBLE_ACK};
use stream_reader::{ReadRefusal, StreamStep};

/// What the last event is answered with.
#[derive(Clone, Copy, Debug, PartialEq, Eq)]
pub(crate) enum Owed {
    Nothing,
    /// A Preamble Ack, for the preamble.
    Ack,
    /// An End, for the session's.
    End,
}

impl Owed {
    /// What is owed after this answer to a piece, where that was owed before. For a refusal it is
    /// [`owed_for`] of that.
    pub(crate) fn after(self, answer: &Result<(usize, StreamStep), ReadRefusal>) -> Owed
        ensures { result ≡ after_answer self answer.now }
    {
        match answer {
            Ok((_, step)) => self.after_step(step),
            Err(_) => self,
        }
    }

    fn after_step(self, step: &StreamStep) -> Owed
        ensures { result ≡ after_step self step.now }
    {
        match step {
            StreamStep::More => self,
            StreamStep::Opened { .. } => Owed::Ack,
            StreamStep::Message { .. } => Owed::Nothing,
            StreamStep::Ended { .. } => Owed::End,
            // A receiver's, which no initiator sends.
            StreamStep::Accepted | StreamStep::PeerFault { .. } => Owed::Nothing,
        }
    }

    /// As bytes.
    pub(crate) fn bytes(self) -> &'static [u8]
        ensures { result.now ≡ bytes_of self }
    {
        match self {
            Owed::Nothing => &[],
            Owed::Ack => &[PREAMBLE_ACK],
            Owed::End => closing_record(None),
        }
    }
}

/// What is owed for a refusal.
pub(crate) fn owed_for(refusal: ReadRefusal) -> &'static [u8]
    ensures { result.now ≡ owed_for refusal }
{
    match refusal {
        ReadRefusal::Offence(offence) => closing_record(Some(offence)),
        ReadRefusal::Memory => &[],
    }
}

/// The record of MC-NMF with which a receiver ends its stream: an End Record where the initiator's
/// stream ended well, else the Fault Record that says why it is refused, or no bytes where MC-NMF
/// has no text for that. It takes no memory.
pub fn closing_record(refusal: Option<Offence>) -> &'static [u8]
    ensures { result.now ≡ closing_bytes refusal }
{
    match refusal {
        None => &[END],
        Some(offence) => fault_record(offence.reason),
    }
}

// The Fault record with the text that says why a stream is refused, where there is one.
#[tactic(auto, unfolding(multibyte_ints::specs::Text::string_bytes_of, multibyte_ints::specs::Integer::shortest, multibyte_ints::specs::Integer::shortest_within))]
fn fault_record(reason: Reason) -> &'static [u8]
    ensures { result.now ≡ fault_record reason }
{
    match reason {
        Reason::BadVersion => {
            b"\x08\x49http://schemas.microsoft.com/ws/2006/05/framing/faults/UnsupportedVersion"
        }
        Reason::BadMode => {
            b"\x08\x46http://schemas.microsoft.com/ws/2006/05/framing/faults/UnsupportedMode"
        }
        Reason::TextTooLong => {
            b"\x08\x41http://schemas.microsoft.com/ws/2006/05/framing/faults/ViaTooLong"
        }
        Reason::EndpointNotFound => {
            b"\x08\x47http://schemas.microsoft.com/ws/2006/05/framing/faults/EndpointNotFound"
        }
        Reason::BadEncoding => {
            b"\x08\x49http://schemas.microsoft.com/ws/2006/05/framing/faults/ContentTypeInvalid"
        }
        Reason::ContentTypeTooLong => {
            b"\x08\x49http://schemas.microsoft.com/ws/2006/05/framing/faults/ContentTypeTooLong"
        }
        Reason::UpgradeRefused => {
            b"\x08\x45http://schemas.microsoft.com/ws/2006/05/framing/faults/UpgradeInvalid"
        }
        Reason::MessageTooLarge => {
            b"\x08\x52http://schemas.microsoft.com/ws/2006/05/framing/faults/MaxMessageSizeExceededFault"
        }
        _ => &[],
    }
}
