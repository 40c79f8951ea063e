//! The history of a reliable sequence, played from lines: what is submitted, sent, lost, doubled,
//! delivered and acknowledged, in the order of the lines.
//!
//! The one idea is that such input is a stream of units like any other (`unit_streams`), whose
//! units are lines with their line feeds. A line has a form before it is judged (`specs/Forms`),
//! and says an event of a `World` of `reliable_sequence`. Its situation is what that world keeps
//! then, and each line completes an event of the stream: the body that it delivers, if it does, and
//! the counts behind it. A line without a form, a text that isn't UTF-8 and too many bytes refuse
//! the stream. What is written is a line for each body that is delivered, and the last counts
//! (`specs/History`): a function of all the bytes, whatever the pieces in which they come.
//!
//! A [`HistoryReader`] reads such input, and a [`HistoryReporter`] writes about it, both for the
//! loop of `stream_loop`. `line_streams` has the grammar of any input whose lines each bring an
//! event, and its reader; `specs/HistoryReaderState` says which bytes a reader has read. What is
//! written of any input, in terms of the run over the events of its lines, is in [`laws`].
#![tactic(auto)]

mod fault;
pub mod laws;
mod line;
mod played;
mod player;
mod reader;
mod reporter;

pub use fault::HistoryFault;
pub use played::Played;
pub use reader::HistoryReader;
pub use reporter::HistoryReporter;

/// How many bytes of a history are read at most.
pub const MOST_BYTES: u64 = 1_073_741_824;
