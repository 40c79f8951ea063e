//! Documents as payloads (MC-NBFX, MC-NBFS, MC-NBFSE), and the sending half of a session (MC-NMF).
//!
//! The one idea: the chosen spelling is one fold over a document's items, which carries the session
//! strings on. `specs/Placing` says which identifier a name or a text gets, `specs/Spelling` what a
//! document becomes, or why it doesn't fit. An [`Encoder`] writes just that, and [`laws`] has that
//! it is a payload of the document for any reader that admits as much. A [`Sender`] puts payloads
//! into envelopes, and End after them; `specs/Sending` says when.
#![tactic(auto)]

mod attributes;
mod encoder;
mod faults;
mod items;
pub mod laws;
mod sender;
mod speller;
mod threads;

pub use encoder::Encoder;
pub use faults::EncodeFault;
pub use sender::{SendFault, SendState, Sender, Side};
