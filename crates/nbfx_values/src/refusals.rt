//! Why a stream is refused, and where.

ghost use Rattle.std.specs.Prelude.{◌≡◌};
ghost use Rattle.nbfx_values.specs.Refusals.{reason_name, reason_number};

/// Why a stream is refused. The numbers of the reasons are their order here, from 1.
#[derive(Clone, Copy, Debug, PartialEq, Eq)]
pub enum Reason {
    /// An integer's fifth byte is above 07, or a four-byte length is negative.
    BadInt,
    /// The type byte of a framing record is above 0C.
    UnknownRecord,
    /// A known framing record that may not come here.
    OutOfOrder,
    /// The version isn't 1.0.
    BadVersion,
    /// The mode isn't 1, 2 or 3.
    BadMode,
    /// The length of a Via or a Fault's text is above the via quota.
    TextTooLong,
    /// A Via, a Fault's text or a content type isn't UTF-8.
    TextNotUtf8,
    /// The Via isn't the endpoint that is served.
    EndpointNotFound,
    /// The encoding isn't known encoding 7 or 8, nor the content type of one of these.
    BadEncoding,
    /// The peer asks for an upgrade of the transport.
    UpgradeRefused,
    /// An envelope's size is above the payload quota.
    MessageTooLarge,
    /// A string passes the end of its payload's string table.
    TableCut,
    /// A text in a payload isn't UTF-8.
    BadUtf8,
    /// The session strings cost more than the dictionary quota.
    DictionaryFull,
    /// No record of a payload begins with this byte.
    UnknownNode,
    /// A known record where it may not stand.
    NodeOutOfPlace,
    /// An identifier names no string.
    UnknownString,
    /// A record's content is no value of its kind.
    BadValue,
    /// An array's element, attributes, type or count is wrong.
    BadArray,
    /// More elements are open than the depth quota admits.
    TooDeep,
    /// The document's content is above the content quota.
    TooMuchContent,
    /// The payload ends before its root does.
    DocumentCut,
    /// Bytes follow the root's end.
    TrailingBytes,
    /// The input ends before the session does.
    Truncated,
    /// The session quota is read and the session hasn't ended.
    SessionTooLong,
    /// The length of a content type is above 256.
    ContentTypeTooLong,
}

impl Reason {
    /// The reason's number in reports, 1 to 26.
    pub fn number(&self) -> u8
        ensures { result ≡ reason_number self.now }
    {
        match self {
            Reason::BadInt => 1,
            Reason::UnknownRecord => 2,
            Reason::OutOfOrder => 3,
            Reason::BadVersion => 4,
            Reason::BadMode => 5,
            Reason::TextTooLong => 6,
            Reason::TextNotUtf8 => 7,
            Reason::EndpointNotFound => 8,
            Reason::BadEncoding => 9,
            Reason::UpgradeRefused => 10,
            Reason::MessageTooLarge => 11,
            Reason::TableCut => 12,
            Reason::BadUtf8 => 13,
            Reason::DictionaryFull => 14,
            Reason::UnknownNode => 15,
            Reason::NodeOutOfPlace => 16,
            Reason::UnknownString => 17,
            Reason::BadValue => 18,
            Reason::BadArray => 19,
            Reason::TooDeep => 20,
            Reason::TooMuchContent => 21,
            Reason::DocumentCut => 22,
            Reason::TrailingBytes => 23,
            Reason::Truncated => 24,
            Reason::SessionTooLong => 25,
            Reason::ContentTypeTooLong => 26,
        }
    }

    /// The reason's name, as reports print it.
    pub fn name(&self) -> &'static str
        ensures { result.now ≡ reason_name self.now }
    {
        match self {
            Reason::BadInt => "BadInt",
            Reason::UnknownRecord => "UnknownRecord",
            Reason::OutOfOrder => "OutOfOrder",
            Reason::BadVersion => "BadVersion",
            Reason::BadMode => "BadMode",
            Reason::TextTooLong => "TextTooLong",
            Reason::TextNotUtf8 => "TextNotUtf8",
            Reason::EndpointNotFound => "EndpointNotFound",
            Reason::BadEncoding => "BadEncoding",
            Reason::UpgradeRefused => "UpgradeRefused",
            Reason::MessageTooLarge => "MessageTooLarge",
            Reason::TableCut => "TableCut",
            Reason::BadUtf8 => "BadUtf8",
            Reason::DictionaryFull => "DictionaryFull",
            Reason::UnknownNode => "UnknownNode",
            Reason::NodeOutOfPlace => "NodeOutOfPlace",
            Reason::UnknownString => "UnknownString",
            Reason::BadValue => "BadValue",
            Reason::BadArray => "BadArray",
            Reason::TooDeep => "TooDeep",
            Reason::TooMuchContent => "TooMuchContent",
            Reason::DocumentCut => "DocumentCut",
            Reason::TrailingBytes => "TrailingBytes",
            Reason::Truncated => "Truncated",
            Reason::SessionTooLong => "SessionTooLong",
            Reason::ContentTypeTooLong => "ContentTypeTooLong",
        }
    }
}

/// Where in a stream a refused record, chunk's size or string begins.
#[derive(Clone, Copy, Debug, PartialEq, Eq)]
pub enum Place {
    /// A framing record of MC-NMF, or a chunk's size, by its offset in the stream, from 0.
    Frame(u64),
    /// A record of a payload, or a part of its string table, by the envelope's number, from 0, and
    /// the offset in its payload, from 0.
    Payload { message: u64, at: u32 },
}

/// The refusal of a stream: where, and why.
#[derive(Clone, Copy, Debug, PartialEq, Eq)]
pub struct Offence {
    /// Where what is refused begins.
    pub place: Place,
    /// Why it is refused.
    pub reason: Reason,
}
