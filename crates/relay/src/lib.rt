//! A relay between a client and a service: two net.tcp sessions joined.
//!
//! The one idea: what a direction writes is a fold over the events of the other session, and so the
//! same whichever thread it goes on, and however the bytes were cut. `specs/Carried` has it: what
//! opens the session, an envelope for each document, by the strings that the ones before left, and
//! an End where the stream that the documents came from ended well. No bytes are handed on: each
//! session has its own static strings, tables and quotas, and a document is read within those of
//! its side and written within those of the other.
//!
//! [`relay`] reads the front's preamble, calls the back by its own Via in the mode and the encoding
//! that the preamble names, and writes the Ack to the front once the back's was read. So a client
//! is accepted only where the service accepted. Behind the Ack the directions share nothing, and
//! each goes on to its end, on a thread of its own where one is to be had. `specs/Relayed` says
//! what was read and written by how far the session came: in which order ([`RelayOutcome`]'s
//! `NotOpened` is the mark of a direction that never began), and in which way each direction ended.
//!
//! A direction that can't be written any more, by a failed write, a document above the quotas or
//! want of memory, is ended, and its input is read on to its end: the other side learns of it by
//! the end of the bytes, and never by an envelope that was cut and went on.
//!
//! [`relay_connections`] relays one connection after the other, and writes a line of each
//! (`specs/Connections`, `specs/Lines`). What happens on one stays on it; a [`RelayFault`] of what
//! all share ends it: where fronts and backs come from, where the lines go, and their memory.
#![tactic(auto)]

mod beginning;
mod carrier;
mod carrying;
mod connections;
mod joining;
mod lines;
mod listener;
mod opening;
mod outcome;
mod pumping;
mod relaying;
mod settings;
mod stopping;

pub use connections::{Places, relay_connections};
pub use outcome::{Pump, PumpIn, PumpOut, RelayOutcome};
pub use relaying::relay;
pub use settings::RelaySettings;
pub use stopping::RelayFault;
