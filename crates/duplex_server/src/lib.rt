//! A server of net.tcp sessions: each is answered from its first byte to its last, on a connection
//! or as it was captured.
//!
//! The one idea: what a server writes is owed for what it reads, and is a function of the bytes and
//! of the service alone. `specs/ServerStream` has it as a fold over the history of an initiator's
//! stream: a Preamble Ack once the preamble was read, for each document the envelope of its answer,
//! with the strings of the outgoing direction carried on from one to the next, and at last an End,
//! or the Fault record of an offence. The two directions share no strings, and each has quotas of its
//! own: requests are read within those of the way forward, answers are written within those of the
//! way back.
//!
//! [`serve_one`] does all of one connection on the calling thread: `stream_loop` reads, an answerer
//! asks the service and makes a job of each request that is owed something, and a writer of replies
//! spells what its jobs ask for and writes it (`specs/Jobs.antt`). Its contract is in
//! `specs/Serving.antt`. A write that fails ends the writing and not the reading. [`serve_two`] has
//! the same contract, and has the writer of replies do its jobs on a second thread
//! (`specs/TwoThreads.antt`). It is [`serve_kept`], which serves one of several sessions that a
//! connection carries one behind the other: what was taken behind the end of one is [`Carry`]'s, and
//! the next one begins with it (`specs/Carrying.antt`). [`replay_stream`] is that call where the
//! bytes come from an input and the answers go to an output (`specs/Replaying.antt`). All answer by
//! a service, such as a [`Responder`]: the echo, or the texts that a file on a shelf has for
//! actions (`specs/Responding.antt`).
//!
//! [`serve_connections`] serves one after the other, and what happens on a connection stays on it.
//! Each is answered, closed, and reported by a line; then the next one is taken, whatever became of
//! it: a peer that sends what is refused or resets the connection, and running out of memory to
//! answer one, each show in that connection's line and nowhere else. It ends where as many
//! connections as were asked for were served, where no other is to come, and by a [`ServeFault`] of
//! what all connections share: where they come from, where their lines go, and the memory for
//! these. `specs/Served.antt` says what was read and written on each connection, and
//! `specs/Lines.antt` what its line says.
#![tactic(auto)]

mod answerer;
mod asking;
mod beside;
mod carry;
mod connection;
mod connections;
mod following;
mod jobs;
mod lines;
mod outcome;
mod replaying;
mod replier;
mod reply_thread;
mod reply_writer;
mod requests;
mod responding;
mod serving;
mod spelling;
mod spent_jobs;
mod stopping;
mod threads;
mod whole;

pub use beside::{serve_kept, serve_two};
pub use carry::Carry;
pub use connection::Server;
pub use connections::serve_connections;
pub use outcome::{Inbound, Outcome};
pub use replaying::{Replayed, replay_stream};
pub use responding::{Responder, read_actions};
pub use serving::serve_one;
pub use stopping::ServeFault;
pub use stream_loop::Outbound;
