//! What comes next in a stream.

ghost use Rattle.std.specs.Prelude.{◌≡◌};
ghost use Rattle.stream_reader.specs.Stepping.{begun_with, due_after, is_chunked_form, joined_more, joined_with};

use nbfx_decoder::DecodeFault;
use nmf_records::Due;

/// What follows the payload bytes that are still to come.
#[derive(Clone, Copy, Debug, PartialEq, Eq)]
pub(crate) enum Form {
    /// It ends, and a record of a session's messages comes.
    Sized,
    /// The size of another chunk comes.
    Chunked,
    /// The size 0 has ended it, and End comes.
    LastChunk,
}

impl Form {
    /// What is due there.
    pub(crate) fn due_after(self) -> Due
        ensures { result ≡ due_after self }
    {
        match self {
            Form::Sized => Due::Messages,
            Form::Chunked => Due::Chunk,
            Form::LastChunk => Due::End,
        }
    }

    pub(crate) fn is_chunked(self) -> bool
        ensures { result ≡ is_chunked_form self }
    {
        matches!(self, Form::Chunked)
    }
}

/// The payload of an envelope, in one part or in chunks, of which bytes are still to come.
#[derive(Clone, Copy, Debug, PartialEq, Eq)]
pub(crate) struct PayloadLeft {
    /// The offset of the envelope's type byte.
    pub(crate) from: u64,
    /// Bytes in all, of the chunks so far.
    pub(crate) size: u32,
    /// Bytes still to come of these.
    pub(crate) left: u32,
    pub(crate) form: Form,
}

impl PayloadLeft {
    ghost use Rattle.stream_reader.specs.Stepping.{more_shown};

    /// A payload before its first byte.
    pub(crate) fn new(from: u64, size: u32, form: Form) -> PayloadLeft
        ensures { result ≡ begun_with from size form }
    {
        PayloadLeft {
            from,
            size,
            left: size,
            form,
        }
    }

    /// The payload with a chunk of so many bytes more, which ends it where they are none.
    pub(crate) fn with_chunk(self, chunk: u32) -> PayloadLeft
        ensures { joined_with self chunk result }
    {
        let form = if chunk == 0 {
            Form::LastChunk
        } else {
            Form::Chunked
        };
        PayloadLeft {
            size: self.size.saturating_add(chunk),
            left: chunk,
            form,
            ..self
        }
    }

    /// The payload with so many bytes more in chunks that are complete.
    pub(crate) fn with_more(self, content: u32) -> PayloadLeft
        ensures { joined_more self content result }
    {
        PayloadLeft {
            size: self.size.saturating_add(content),
            ..self
        }
    }

    /// How many more bytes show this fault than have come.
    pub(crate) fn more_shown(&self, fault: DecodeFault) -> u32
        ensures { result ≡ more_shown self.now fault }
    {
        let have = self.size.saturating_sub(self.left);
        match fault {
            DecodeFault::Payload { shown_by, .. } => shown_by.saturating_sub(have),
            DecodeFault::Memory => 0,
        }
    }
}

/// What comes next.
#[derive(Clone, Copy, Debug, PartialEq, Eq)]
pub(crate) enum Awaited {
    /// A record, of those that may come where this is due.
    Record(Due),
    /// The size of the payload's next chunk.
    Chunk(PayloadLeft),
    /// A byte of a payload.
    Payload(PayloadLeft),
}

/// How a session has ended.
#[derive(Clone, Copy, Debug, PartialEq, Eq)]
pub(crate) enum Closing {
    /// By the End record.
    End,
    /// By a receiver's Fault.
    Fault,
}
