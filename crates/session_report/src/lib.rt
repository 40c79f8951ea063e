//! The report of a net.tcp stream, of either end of a session (MC-NMF): a line for each event, with
//! the lines of each document where they are wanted, and a last line for what refuses the stream.
//!
//! The one idea: a report is a function of the stream's history (`specs/Report`): its events in
//! order, and then its offence, or that the session is over where no event says so. A [`StreamEnd`]
//! reads a stream and owns the texts of its events, and a [`LineReporter`] writes the lines of
//! these events; `stream_loop` has the loops over both. `specs/Saying` has how events are said
//! between them, `specs/Laws` what holds of reports alone, which [`laws`] carries.
#![tactic(auto)]

pub mod laws;
mod lines;
mod reading;
mod reporter;

pub use lines::put_offence;
pub use reading::{Event, Received, StreamEnd};
pub use reporter::{LineReporter, Outcome};
