//! What a receiver sends to a peer whose stream it refuses.

ghost use Rattle.std.specs.Prelude.{◌≡◌};
ghost use Rattle.std.specs.Option.{option_copied};
ghost use Rattle.nmf_records.specs.Writing.{fault_text_of};

use nbfx_values::Reason;

/// The text of the Fault Record of MC-NMF that tells the peer why its stream is refused; None for a
/// reason that has no such text, for which nothing is sent.
pub fn fault_text(reason: Reason) -> Option<&'static str>
    ensures { option_copied result ≡ fault_text_of reason }
{
    match reason {
        Reason::BadVersion => {
            Some("http://schemas.microsoft.com/ws/2006/05/framing/faults/UnsupportedVersion")
        }
        Reason::BadMode => {
            Some("http://schemas.microsoft.com/ws/2006/05/framing/faults/UnsupportedMode")
        }
        Reason::TextTooLong => {
            Some("http://schemas.microsoft.com/ws/2006/05/framing/faults/ViaTooLong")
        }
        Reason::EndpointNotFound => {
            Some("http://schemas.microsoft.com/ws/2006/05/framing/faults/EndpointNotFound")
        }
        Reason::BadEncoding => {
            Some("http://schemas.microsoft.com/ws/2006/05/framing/faults/ContentTypeInvalid")
        }
        Reason::UpgradeRefused => {
            Some("http://schemas.microsoft.com/ws/2006/05/framing/faults/UpgradeInvalid")
        }
        Reason::MessageTooLarge => Some(
            "http://schemas.microsoft.com/ws/2006/05/framing/faults/MaxMessageSizeExceededFault",
        ),
        Reason::ContentTypeTooLong => {
            Some("http://schemas.microsoft.com/ws/2006/05/framing/faults/ContentTypeTooLong")
        }
        _ => None,
    }
}
