//! Why a record is refused: by where it comes in the stream of either side, or by what it says.

ghost use Rattle.std.specs.Prelude.{◌≡◌, ◌==◌, ◌||◌, Some, None, if◌then◌else◌};
ghost use Rattle.stream_reader.specs.Stream.{Settings, reason_of, unexpected, is_binary, is_binary_type, is_mode, mode_of, kind_of, kind_of_type, too_large};
ghost use Rattle.nbfx_values.specs.QuotasOf.{limits_of};
ghost use Rattle.nbfx_values.specs.Session.{kind_number, mode_number};

use nbfx_values::{Kind, Mode, Quotas, Reason};
use nmf_records::record_types::UPGRADE_REQUEST;
use nmf_records::{Due, FrameFault};

/// The reason to refuse bytes that can't be what is due here.
pub(crate) fn reason_of(due: Due, fault: FrameFault) -> Reason
    ensures { result ≡ reason_of due fault }
{
    match fault {
        FrameFault::UnknownRecord => Reason::UnknownRecord,
        FrameFault::Unexpected(kind) => unexpected(due, kind),
        FrameFault::BadInt => Reason::BadInt,
        FrameFault::TextTooLong => Reason::TextTooLong,
        FrameFault::TypeTooLong => Reason::ContentTypeTooLong,
        FrameFault::TextNotUtf8 => Reason::TextNotUtf8,
    }
}

fn unexpected(due: Due, kind: u8) -> Reason
    ensures { result ≡ unexpected due kind }
{
    match due {
        Due::PreambleEnd => {
            if kind == UPGRADE_REQUEST {
                Reason::UpgradeRefused
            } else {
                Reason::OutOfOrder
            }
        }
        _ => Reason::OutOfOrder,
    }
}

/// The reason to refuse a Mode Record with this byte, if it is refused.
pub(crate) fn bad_mode(byte: u8) -> Option<Reason>
    ensures { result ≡ (if is_mode byte then None else Some Reason.BadMode) }
{
    if byte == Mode::Singleton.number()
        || byte == Mode::Duplex.number()
        || byte == Mode::Simplex.number()
    {
        None
    } else {
        Some(Reason::BadMode)
    }
}

/// The mode that a Mode Record with this byte names.
pub(crate) fn mode_of(byte: u8) -> Mode
    ensures { result ≡ mode_of byte }
{
    if byte == Mode::Singleton.number() {
        Mode::Singleton
    } else if byte == Mode::Simplex.number() {
        Mode::Simplex
    } else {
        Mode::Duplex
    }
}

/// The reason to refuse a Known Encoding Record with this byte, if it is refused.
pub(crate) fn bad_encoding(encoding: u8) -> Option<Reason>
    ensures { result ≡ (if is_binary encoding then None else Some Reason.BadEncoding) }
{
    if encoding == Kind::Plain.number() || encoding == Kind::Session.number() {
        None
    } else {
        Some(Reason::BadEncoding)
    }
}

/// The encoding that a Known Encoding Record with this byte names.
pub(crate) fn kind_of(encoding: u8) -> Kind
    ensures { result ≡ kind_of encoding }
{
    if encoding == Kind::Plain.number() {
        Kind::Plain
    } else {
        Kind::Session
    }
}

/// The reason to refuse an Extensible Encoding Record with this content type, if it is refused.
pub(crate) fn bad_content_type(content_type: &str) -> Option<Reason>
    ensures { result ≡ (if is_binary_type content_type.now then None else Some Reason.BadEncoding) }
{
    if Kind::Plain.content_type() == content_type || Kind::Session.content_type() == content_type {
        None
    } else {
        Some(Reason::BadEncoding)
    }
}

/// The encoding that an Extensible Encoding Record with this content type names.
pub(crate) fn kind_of_type(content_type: &str) -> Kind
    ensures { result ≡ kind_of_type content_type.now }
{
    if Kind::Plain.content_type() == content_type {
        Kind::Plain
    } else {
        Kind::Session
    }
}

/// The reason to refuse a size by which a payload would have so many bytes in all, if it is
/// refused.
pub(crate) fn too_large(quotas: &Quotas, size: u64) -> Option<Reason>
    ensures { (x : Settings) → x.limits ≡ limits_of quotas.now → result ≡ too_large x size }
{
    if size > u64::from(quotas.payload) {
        Some(Reason::MessageTooLarge)
    } else {
        None
    }
}
