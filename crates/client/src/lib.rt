//! One connection of a net.tcp client, from its first byte to its last, and the place that is
//! called by one.
//!
//! The one idea: what a client sends is a function of its documents, and what it reports is a
//! function of the peer's bytes. `specs/Sent.antt` has the first: the opening, an envelope for each
//! document, with the strings of the direction carried on from one to the next, and an End record.
//! The second is the report of a receiver's stream with its documents (`session_report`). They meet
//! once: envelopes are sent when the peer's Preamble Ack was read, and not before.
//!
//! `LaneWriter` makes envelopes and puts them, up to 64 KiB gathered at a time; those that were
//! written whole count as sent. `AnswerReader` reads the answers, stops behind the Ack and goes on. A
//! write that fails ends the writing and not the reading, and a report that can't be written ends
//! neither. [`call_one`] sends one list with both on the calling thread, so it doesn't read while it
//! sends. Its contract is in `specs/Called.antt`.
//!
//! [`call_lanes`] sends two lists, and reads on meanwhile. Two threads name the documents of a list
//! each (`two_lanes`), a third has the writer make and put their envelopes in the order in which
//! they come, and the calling one reads. It is a call of one list that is a merge of both
//! (`specs/Lanes.antt`), so all that is known of [`call_one`] is known of it.
//!
//! [`call_place`] is a call over a wire. What surrounds the connection is little, and is said apart
//! from it: a line says how many documents were sent, and whose each was; the connection is made
//! only where they may be sent, and is closed however it ends; and the report is gathered, so that
//! it is written by few calls. `specs/Tags.antt` has the line, `specs/Peers.antt` what was read,
//! sent and reported over a connection, `specs/Places.antt` what is left of the wire and of the
//! output, and `specs/Statuses.antt` the status of a run that ends so and what its note says.
#![tactic(auto)]

mod answers;
mod called;
mod calling;
mod lane_writer;
mod lanes;
mod outcome;
mod owned;
mod peers;
mod places;
mod report_lines;
mod sending;
mod settings;
mod tags;

pub use called::Called;
pub use calling::call_one;
pub use lane_writer::Tags;
pub use lanes::{LanesOutcome, call_lanes};
pub use outcome::{CallOutcome, ClientIn, ClientOut};
pub use places::call_place;
pub use settings::CallSettings;
pub use stream_loop::Outbound as Reported;
pub use two_lanes::Lane;
