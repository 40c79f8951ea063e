//! Payloads of envelopes become documents: the binary XML of MC-NBFX with the static dictionary of
//! MC-NBFS alone (encoding 7), or after a string table of its own as MC-NBFSE has it (encoding 8).
//!
//! The one idea: a payload is units, one after the other (the size of its table, the table's
//! strings, nodes), and `specs/Payload` says which may come in which situation, where each leads
//! and why one is refused, as a grammar of `unit_streams`. `nbfx_records` says apart from that
//! (`specs/Payloads`) which bytes are a payload of a document, by the standards' tables, and `laws`
//! that both are one. A [`Decoder`] takes a payload's bytes in any pieces and holds of them the
//! bytes of the unfinished unit alone; which bytes it has read and what it shows is in
//! `specs/DecoderState`.
#![tactic(auto)]

mod decoder;
mod faults;
mod judging;
pub mod laws;
mod meaning;
mod measuring;
mod quick;
mod section;
mod strings;
mod threads;
mod units;

pub use decoder::Decoder;
pub use faults::DecodeFault;
