//! Both ends of a reliable sequence, as WS-ReliableMessaging (February 2005) has them: whatever is
//! lost, comes twice or comes in another order, what is delivered are the first of the bodies that
//! were submitted, in their order. The sequence's identifier is handed in: CreateSequence, its
//! response, TerminateSequence, AckRequested, timers and policies are left out.
//!
//! The one idea: each end is a front, numbers that are done with, and a row of places behind it, one
//! for each number, with a body or free (`slots`). [`Sending`] keeps the bodies that aren't
//! acknowledged, and its front are the numbers that are, without a gap. [`Receiving`] holds the bodies
//! that came before their turn, and its front is what was delivered. `outgoing` and `incoming` are
//! both without documents; `making` and `reading` have the envelopes with the blocks Sequence and
//! SequenceAcknowledgement. [`World`] is both ends, and all that was ever sent between them, of which
//! it keeps what the documents say (`exchange`).
//!
//! `specs/Made` is what is sent, item by item, `specs/Blocks` and `specs/Reading` what a document
//! says, or its first fault. `specs/Sent` and `specs/Received` say what each call answers and what is
//! kept then, `specs/Slots` and `specs/Ranges` what stands at places and which ranges their numbers
//! make. `specs/Rehearsal` is what happens between both ends, and `specs/Laws` and
//! `specs/DocumentLaws` say what holds whatever happens, which [`laws`] carries. `specs/PlainWorld` is
//! the same without documents, and `specs/Soundness` what each event keeps.
#![tactic(auto)]

mod events;
mod exchange;
mod faults;
mod incoming;
pub mod laws;
mod making;
mod names;
mod numbers;
mod outgoing;
mod parts;
mod ranges;
mod reading;
mod receipts;
mod receiving;
mod sending;
mod slots;
mod world;

pub use events::{Counts, Event};
pub use faults::{RmFault, SubmitFault};
pub use parts::Taken;
pub use receiving::Receiving;
pub use sending::Sending;
pub use world::World;
