//! Both ends of one direction: what one end writes of documents the other reads as these documents,
//! and both have the same strings then (MC-NMF, MC-NBFSE).
//!
//! The one idea: what fits the end that writes is carried to any end that reads and admits as much.
//! Of payloads, these ends are an [`Encoder`](nbfx_encoder::Encoder) and a
//! [`Decoder`](nbfx_decoder::Decoder). They are level (`specs/Level.antt`) where the reader's
//! quotas admit as much as the writer's, and it has read payloads that left the writer's strings.
//! They are so when they are made ([`new_ends`]), and stay so with each document that is carried
//! from one to the other ([`carry`]). Of sessions, they are a [`Sender`](nbfx_encoder::Sender) and
//! a receiver, to which documents are carried envelope by envelope (`specs/Sent.antt`). Of these
//! there is no code here but [`laws`], which a caller has where it calls them.
#![tactic(auto)]

mod carrying;
pub mod laws;

pub use carrying::{CarryFault, carry, new_ends, tables};
