//! The records of .NET Message Framing (MC-NMF), which cut a connection's bytes into a preamble and
//! messages.
//!
//! The one idea is the record at the front of some bytes: whole with so many of them, wrong from so
//! many on, or only begun. What a record's bytes are is `IsRecord` of `specs/Records.antt`, one row
//! for each record. What stands at the front of any bytes, where some types may come, is `frame_at`
//! of `specs/RecordFronts.antt`. `laws` has that the two are one, and the cause of each fault.
//!
//! A reader takes the bytes in any pieces and keeps none but a text's. `FrameReader::feed` is
//! proved to answer what stands at the front of all bytes since the last record: the record at the
//! byte that completes it, or the fault at the first byte that shows it. Which bytes a reader has
//! read, and what it answers, is in `specs/Reader.antt`. The text of a Via or a Fault stays in the
//! reader, and so does the content type of an Extensible Encoding. Their buffers are allocated when
//! the reader is made: no other call takes memory.
//!
//! Which records may come is the script of a session: `Due` says what may come next in the stream
//! of a direction and where each record leads. `IsScript` of `specs/Script.antt` is the same as a
//! grammar on lists of records.
//!
//! `put_head` and `put_text_frame` write what `frame_bytes` of `specs/Writing.antt` says, with the
//! shortest spelling of each size, and `laws` has that this is the record, which is read back as
//! it.
#![tactic(auto)]

mod fault_texts;
mod frame;
mod head;
pub mod laws;
mod reader;
pub mod record_types;
mod script;
mod stage;
mod threads;
mod writing;

pub use fault_texts::fault_text;
pub use frame::{Expect, Frame, FrameFault, FrameRefusal, FrameStep};
pub use reader::{CONTENT_TYPE_LIMIT, FrameReader};
pub use script::{Direction, Due};
pub use writing::{put_head, put_text_frame};
