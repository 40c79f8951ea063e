//! The loop of all commands that read a stream and write about it.
//!
//! The one idea is that such a command is made of two things that know nothing of each other. A
//! [`ReadingEnd`] takes pieces of a stream and says which events their bytes complete, by a grammar
//! of units (`unit_streams`). Each event goes to an [`EventHandler`], which may write about it.
//!
//! [`read_on`] is the loop between a `Source` (`io_edges`), a reading end and a handler. It can
//! stop and go on: what was taken and isn't used yet stays in an [`InputBuffer`], and a handler
//! may stop the reading right behind an event, or before more is taken. Its contract begins at a
//! reading end that has read some bytes, and speaks of the whole stream and never of pieces. The
//! handler says by a relation of its own what it wrote of the events that it has handled, before
//! its last pause and since. More is taken only after a pause, in which what is due leaves. After a
//! take that gave nothing the input isn't asked again. Each fault of the input is distinguished
//! from running out of memory, which may happen with any stream.
//!
//! Two calls stand on it, which read a stream from its beginning.
//!
//! [`report_stream`] hands the events to a [`Reporter`], which says what is written of each event
//! and at the end by what it remembers of the events before: a report, or the bytes of another
//! stream. A failed write ends it. Where the stream is judged, the output has gained exactly the
//! report, and the reporter remembers what the stream's events leave. However it ends, the output
//! has gained the first bytes of the report, and at least what is written of all pieces but the
//! last.
//!
//! [`follow_stream`] hands the events to a handler that is in charge of the writing: it keeps what
//! failed, and the stream is read on to its end, as at an end of a connection that answers. The
//! contract says which events were handled, by the whole stream: all of its history, where the
//! stream is judged; those of the bytes that were read, where a read failed; and first ones of
//! these, where memory ran out. [`follow_on`] does the same from bytes that were taken before, and
//! leaves those behind the stream's end, so that one connection may carry a stream behind another.
//! For handlers that write of the events what a `Teller`
//! (`unit_streams`) says, [`Outbound`] is what has become of the writing, and [`put_bytes`],
//! [`flush`] and [`run_out`] are the steps of it. A handler that gathers what is due does so
//! by a [`PartWriter`], which counts the parts that left whole; [`put_parts`] says how many bytes
//! left before a write failed.
//!
//! `specs/Answers` says how an end's answers are those of its grammar, and what a grammar has to
//! keep so that its streams can be read to their end; `specs/Resumed` how far the reading has come
//! and how it stopped, `specs/Followed` what was read and handled of a whole stream, and
//! `specs/Reported` what was read and reported; `specs/Edges` what is seen of the input;
//! `specs/Writing`, `specs/Gathering` and `specs/PartsGiven` what was written; `specs/Laws` what
//! follows, which [`laws`] carries. `specs/Steps`, `specs/Report` and `specs/LoopParts` are for
//! private calls, and `specs/Toy` for worked examples.
#![tactic(auto)]

mod event_handler;
mod following;
mod input_buffer;
pub mod laws;
mod outbound;
mod part_writer;
mod reading_end;
mod report;
mod reporter;
mod reporting;
mod resuming;

pub use event_handler::EventHandler;
pub use following::{FollowEnding, follow_on, follow_stream};
pub use input_buffer::InputBuffer;
pub use outbound::{Outbound, flush, put_bytes, put_parts, run_out};
pub use part_writer::PartWriter;
pub use reading_end::{FeedFault, ReadingEnd};
pub use reporter::Reporter;
pub use reporting::{ReportEnding, report_stream};
pub use resuming::{ReadOn, read_on};
