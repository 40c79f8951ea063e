/// A framing record of MC-NMF, of an envelope its head, or the size of a chunk. The text of a Via
/// or a Fault, and the content type of an Extensible Encoding, stay in the reader.
#[derive(Clone, Copy, Debug, PartialEq, Eq)]
pub enum Frame {
    /// Version Record.
    Version { major: u8, minor: u8 },
    /// Mode Record, with the mode's byte.
    Mode(u8),
    /// Via Record.
    Via,
    /// Known Encoding Record, with the encoding's byte.
    KnownEncoding(u8),
    /// Extensible Encoding Record.
    ExtensibleEncoding,
    /// The head of an Unsized Envelope Record.
    UnsizedEnvelope,
    /// The size in bytes of a chunk of an Unsized Envelope Record; 0 ends the envelope.
    Chunk(u32),
    /// The head of a Sized Envelope Record, with the payload's size in bytes.
    SizedEnvelope(u32),
    /// End Record.
    End,
    /// Fault Record.
    Fault,
    /// Preamble Ack Record.
    PreambleAck,
    /// Preamble End Record.
    PreambleEnd,
}

/// What may come next. Upgrade Request and Upgrade Response Records have no [`Frame`], so they are
/// unexpected everywhere.
#[derive(Clone, Copy, Debug, PartialEq, Eq)]
pub enum Expect {
    /// A record, if the bit of its type t, which is 1 << t, is set.
    Types(u16),
    /// The size of a chunk.
    Chunk,
}

/// How far a reader has come with a record.
#[derive(Clone, Copy, Debug, PartialEq, Eq)]
pub enum FrameStep {
    /// The record isn't complete yet.
    More,
    /// The record is complete.
    Done(Frame),
}

/// Why bytes are refused where a record, or a chunk's size, was to come.
#[derive(Clone, Copy, Debug, PartialEq, Eq)]
pub enum FrameFault {
    /// The type byte is above 0x0C, so no record of MC-NMF has it.
    UnknownRecord,
    /// The type byte is this one, of a record that may not come here.
    Unexpected(u8),
    /// The fifth byte of a size or of a text's length is above 0x07.
    BadInt,
    /// The length of a Via or a Fault's text is above the reader's limit.
    TextTooLong,
    /// The length of a content type is above [`CONTENT_TYPE_LIMIT`](crate::CONTENT_TYPE_LIMIT).
    TypeTooLong,
    /// A text isn't UTF-8.
    TextNotUtf8,
}

/// The refusal of a record, or of a chunk's size.
#[derive(Clone, Copy, Debug, PartialEq, Eq)]
pub struct FrameRefusal {
    /// What is wrong.
    pub fault: FrameFault,
    /// How many bytes of the record, or of the chunk's size, show it.
    pub shown_by: usize,
}
