//! How far a reader has come within a record, and what the next byte leads to.

ghost use Rattle.std.specs.Prelude.{◌≡◌, ℕ, List, [], ◌∷◌, ◌++◌, ◌+◌, ◌≤◌, length};
ghost use Rattle.unit_streams.specs.Front.{begun};
ghost use Rattle.nmf_records.specs.declared.record_types.TheConstants.{GREATEST};
ghost use Rattle.nmf_records.specs.declared.frame.Expect.{Expect};
ghost use Rattle.nmf_records.specs.declared.frame.Expect.TheVariants.{Types};
ghost use Rattle.nmf_records.specs.RecordFronts.{frame_at, allowed_at, typed_at, allows, begins_text, content_type, has_text_of, TextLimits, too_long_as, via_or_fault};
ghost use Rattle.nmf_records.specs.Reader.{HasShape, kind_of};
ghost use Rattle.nmf_records.specs.Steps.{Meets, GoesTo, sized, texted, starts_text, progress_of};

use crate::frame::{Frame, FrameFault};
use crate::record_types;
use multibyte_ints::StringStep;

/// A record that has a text.
#[derive(Clone, Copy, Debug, PartialEq, Eq)]
pub enum TextRecord {
    /// Via Record.
    Via,
    /// Extensible Encoding Record, with its content type.
    ContentType,
    /// Fault Record.
    Fault,
}

impl TextRecord {
    /// The record, when its text is complete.
    pub fn frame(self) -> Frame
        ensures { result ≡ texted self }
    {
        match self {
            TextRecord::Via => Frame::Via,
            TextRecord::ContentType => Frame::ExtensibleEncoding,
            TextRecord::Fault => Frame::Fault,
        }
    }

    /// The fault of a text that is longer than its limit.
    fn too_long(self) -> FrameFault
        ensures { result ≡ too_long_as (kind_of self) }
    {
        match self {
            TextRecord::ContentType => FrameFault::TypeTooLong,
            TextRecord::Via | TextRecord::Fault => FrameFault::TextTooLong,
        }
    }
}

/// What ends with a size.
#[derive(Clone, Copy, Debug, PartialEq, Eq)]
pub enum SizeRecord {
    /// The head of a Sized Envelope Record.
    SizedEnvelope,
    /// The size of a chunk.
    Chunk,
}

impl SizeRecord {
    /// The head or the chunk's size, with this size.
    pub fn frame(self, size: u32) -> Frame
        ensures { result ≡ sized self size }
    {
        match self {
            SizeRecord::SizedEnvelope => Frame::SizedEnvelope(size),
            SizeRecord::Chunk => Frame::Chunk(size),
        }
    }
}

/// A byte after the type of a record that has a fixed length.
#[derive(Clone, Copy, Debug, PartialEq, Eq)]
pub enum Field {
    /// The major version of a Version Record.
    Major,
    /// The minor version of one whose major version is this.
    Minor { major: u8 },
    /// The mode of a Mode Record.
    Mode,
    /// The encoding of a Known Encoding Record.
    Encoding,
}

/// What the next byte belongs to.
#[derive(Clone, Copy, Debug, PartialEq, Eq)]
pub enum Stage {
    /// A record, or a chunk's size, of which nothing was read: the next byte is its first.
    Type,
    /// This field of a record.
    Field(Field),
    /// The length of a text, or the text.
    Text(TextRecord),
    /// A size of which a byte or more was read, or that a type byte came before.
    Size(SizeRecord),
    /// Nothing: this fault was answered, and is answered again.
    Failed(FrameFault),
}

/// What the bytes of a record have led to.
#[derive(Clone, Copy, Debug, PartialEq, Eq)]
pub enum Progress {
    /// The record is incomplete, and what is at this stage comes next.
    Going(Stage),
    /// The record is complete.
    Done(Frame),
    /// The bytes are refused.
    Wrong(FrameFault),
}

/// What the type byte of a record that may come leads to.
fn after_known_type(kind: u8) -> Progress
    ensures reads { (limits : TextLimits) → Meets (typed_at limits kind []) 1 result }
    ensures goes { (types : ℕ) → GoesTo (Types types) (kind ∷ []) result }
    ensures text { starts_text via_or_fault result ≡ has_text_of via_or_fault kind }
    ensures content_type { starts_text content_type result ≡ has_text_of content_type kind }
{
    match kind {
        record_types::VERSION => Progress::Going(Stage::Field(Field::Major)),
        record_types::MODE => Progress::Going(Stage::Field(Field::Mode)),
        record_types::VIA => Progress::Going(Stage::Text(TextRecord::Via)),
        record_types::KNOWN_ENCODING => Progress::Going(Stage::Field(Field::Encoding)),
        record_types::EXTENSIBLE_ENCODING => Progress::Going(Stage::Text(TextRecord::ContentType)),
        record_types::UNSIZED_ENVELOPE => Progress::Done(Frame::UnsizedEnvelope),
        record_types::SIZED_ENVELOPE => Progress::Going(Stage::Size(SizeRecord::SizedEnvelope)),
        record_types::END => Progress::Done(Frame::End),
        record_types::FAULT => Progress::Going(Stage::Text(TextRecord::Fault)),
        record_types::PREAMBLE_ACK => Progress::Done(Frame::PreambleAck),
        record_types::PREAMBLE_END => Progress::Done(Frame::PreambleEnd),
        _ => Progress::Wrong(FrameFault::Unexpected(kind)),
    }
}

/// Whether the bit of this type is set.
pub fn allows(types: u16, kind: u8) -> bool
    requires { kind ≤ GREATEST }
    ensures { result ≡ allows types kind }
{
    types >> kind & 1 == 1
}

/// What a type byte leads to, where the records may come whose type has its bit set in `types`.
pub fn after_type(types: u16, kind: u8) -> Progress
    ensures reads { (limits : TextLimits) → Meets (allowed_at limits types (kind ∷ [])) 1 result }
    ensures goes { GoesTo (Types types) (kind ∷ []) result }
    ensures text { starts_text via_or_fault result
        ≡ begins_text via_or_fault (Types types) (kind ∷ []) }
    ensures content_type { starts_text content_type result
        ≡ begins_text content_type (Types types) (kind ∷ []) }
{
    if kind > record_types::GREATEST {
        return Progress::Wrong(FrameFault::UnknownRecord);
    }
    if !allows(types, kind) {
        return Progress::Wrong(FrameFault::Unexpected(kind));
    }
    after_known_type(kind)
}

/// What the byte of a field leads to.
pub fn after_field(field: Field, byte: u8) -> Progress
    ensures reads { (limits : TextLimits) (expect : Expect) (p : List ℕ)
        → HasShape expect (Stage.Field field) p → frame_at limits expect p ≡ begun
        → Meets (frame_at limits expect (p ++ byte ∷ [])) (length p + 1) result }
    ensures goes { (expect : Expect) (p : List ℕ) → HasShape expect (Stage.Field field) p
        → GoesTo expect (p ++ byte ∷ []) result }
{
    match field {
        Field::Major => Progress::Going(Stage::Field(Field::Minor { major: byte })),
        Field::Minor { major } => Progress::Done(Frame::Version { major, minor: byte }),
        Field::Mode => Progress::Done(Frame::Mode(byte)),
        Field::Encoding => Progress::Done(Frame::KnownEncoding(byte)),
    }
}

/// Where a record leads after bytes of its text, by what the reader of strings answered to them.
pub fn after_text(text: TextRecord, step: StringStep) -> Progress
    ensures { result ≡ progress_of text step }
{
    match step {
        StringStep::More => Progress::Going(Stage::Text(text)),
        StringStep::Done => Progress::Done(text.frame()),
        StringStep::BadInt => Progress::Wrong(FrameFault::BadInt),
        StringStep::TooLong => Progress::Wrong(text.too_long()),
        StringStep::BadUtf8 => Progress::Wrong(FrameFault::TextNotUtf8),
    }
}
