//! What an initiator (a client) sends first, and the reading half of it: a receiver's net.tcp
//! stream becomes documents.
//!
//! The one idea: an [`Initiator`] is the reader of streams (`stream_reader`) set to a receiver's
//! stream, in the mode and the encoding that the initiator's own preamble names. Which bytes
//! complete an event or are refused is said there, of whole byte lists, and what each call answers
//! and leaves by one record a call (`stream_reader` `specs/Calls`), which an initiator's calls say
//! of their reader (`specs/InitiatorState`). [`opening`] writes the preamble (`specs/Opening`).
#![tactic(auto)]

mod initiator;
pub mod laws;
mod preamble;
mod threads;

pub use initiator::Initiator;
pub use preamble::opening;
pub use stream_reader::{ReadRefusal, StreamStep as BackStep};
