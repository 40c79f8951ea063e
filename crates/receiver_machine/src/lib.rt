//! The reading half of a server: an initiator's net.tcp stream becomes documents.
//!
//! The one idea: a [`Receiver`] is the reader of streams (`stream_reader`) set to an initiator's
//! stream, in whichever mode its records name. Which bytes complete an event or are refused is said
//! there, of whole byte lists; here that a receiver answers just so, in any pieces. Which bytes it
//! has read and what it shows is in `specs/ReceiverState`; its steps are those of the reader. What
//! the framing owes the initiator for an event or an offence, a Preamble Ack, an End or a Fault
//! record, is in `specs/Owed`; [`closing_record`] has the record that is sent last.
#![tactic(auto)]

mod owed;
mod receiver;
mod threads;

pub use owed::closing_record;
pub use receiver::Receiver;
pub use stream_reader::{Endpoint, ReadRefusal, StreamStep as Step};
