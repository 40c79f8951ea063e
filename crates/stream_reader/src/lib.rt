//! Streams of net.tcp (MC-NMF) with the documents that their envelopes carry.
//!
//! The one idea: a stream is units, one after the other (records, of an envelope its head, the
//! sizes of chunks, and the bytes of payloads), and `specs/Stream` says which may come in which
//! situation, where each leads, which event it completes and why it is refused, as a grammar of
//! `unit_streams`, for the stream of either side in each mode. The situation within a payload
//! contains where the payload stands by the grammar of `nbfx_decoder`, which each byte of it leads
//! on: so a record of the payload is judged at its own last byte, whatever pieces and chunks come.
//! `specs/Sessions` says apart from that which bytes are a session of which documents, by the
//! standards' tables, and [`laws`] that both are one; `specs/Reasons` says which bytes give each
//! reason for refusing a stream.
//!
//! A [`StreamReader`], set to a [`Side`], takes a stream in any pieces. Which bytes it has read and
//! what it shows is in `specs/StreamReaderState`, how it says an event in `specs/Saying`.
#![tactic(auto)]

mod awaited;
mod judging;
pub mod laws;
mod reader;
mod runs;
mod side;
mod stepping;
mod threads;

pub use reader::{ReadRefusal, StreamReader, StreamStep};
pub use side::{Endpoint, Side};
