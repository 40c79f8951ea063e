//! Lines of documents: as a stream of which each document is an envelope, and as the list of these
//! documents.
//!
//! The one idea is that such input is a stream of units like any other (`unit_streams`), whose
//! units are lines with their line feeds. Its situation is where the reader of lines stands
//! (`line_notation`), the strings of the session so far and the number of documents. A document's
//! last line completes an event, the document's envelope in its chosen spelling (`nbfx_encoder`). A
//! line that is refused, a document that can't be written, and too many bytes refuse the stream. So
//! the order of refusals, what is written before one, and that pieces don't matter need no
//! definition of their own. A [`DocumentReader`] reads such input in any pieces, and answers what
//! the grammar does: the envelope of a document at its last line, or the first refusal.
//!
//! Where the documents themselves are wanted, what lines say is a function of all their bytes
//! (`specs/Documents`): the lines are cut at their line feeds and read as `line_notation` reads
//! them, and either each line and the end of the bytes are fine, and their documents are the list,
//! or the first refusal is the answer. Bytes that are as many as a quota are too long, unless a
//! line before that is refused. [`read_documents`] reads bytes that are in memory, and
//! [`fetch_documents`] those of a shelf's file, into a list. [`take_documents`] reads those of a
//! source, by the loop of every command (`stream_loop`), and hands each document to a [`Keeper`] as
//! soon as it is read: of the bytes it holds those of the unfinished line alone, and of the
//! documents what the keeper keeps. There each line completes an event, which says what it did to
//! the document that is being read (`specs/Steps`).
//!
//! `specs/Input` has the grammar, `specs/DocumentReaderState` which bytes a reader has read, and
//! `specs/Laws` what holds by the definitions alone, which [`laws`] carries.
#![tactic(auto)]

mod envelope;
mod fetching;
mod keeper;
mod keeping;
pub mod laws;
mod line_encoder;
mod reader;
mod reading;
mod reading_end;
mod step_reader;
mod steps;
mod taking;

pub use envelope::Envelope;
pub use fetching::{DocumentsFault, fetch_documents};
pub use keeper::Keeper;
use line_notation::LineKind;
use nbfx_encoder::EncodeFault;
pub use reader::DocumentReader;
pub use reading::{ListFault, read_documents};
pub use taking::take_documents;

/// Why lines of documents are refused, or not read on. The reader answers the same from then on.
#[derive(Clone, Copy, Debug, PartialEq, Eq)]
pub enum InputFault {
    /// The line with this number, from 1, for this reason.
    Line { line: u64, kind: LineKind },
    /// The document with this number, from 0, can't be written, for this reason.
    Unfit { number: u64, why: EncodeFault },
    /// As many bytes as the session quota were read, and the input hasn't ended.
    TooLong,
}
