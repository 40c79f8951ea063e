//! What a stream of bytes is to whoever reads it in pieces: units, one after the other, each of
//! which depends only on its own bytes.
//!
//! The one idea is that a stream's standing is said by peeling whole units off its front and
//! looking at what is left. `specs/Front` says what stands at the front of some bytes: a whole
//! thing of so many bytes, wrong from so many bytes on, or only begun. `specs/Grammar` has what a
//! stream is read by: the units that may come in a situation, the situation after each, what each
//! completes and why it may be refused. From that alone `specs/Judging` says what each prefix
//! brings, the history of a stream (its events and then its offence) and the answer to a piece of
//! it. `specs/Going` says what it means that a stream goes on, `specs/Units` speaks of whole units
//! in a row, and `specs/Laws` of what holds of every grammar, which [`laws`] carries.
//!
//! Here too is the one [`Memory`], the answer of every call that found none.
#![tactic(auto)]

pub mod laws;
mod memory;

pub use memory::Memory;
