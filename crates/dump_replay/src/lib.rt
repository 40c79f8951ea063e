//! All that the program does, in one call that is proved: [`run::run`]. Its commands `check` and
//! `dump` read a net.tcp stream (MC-NMF) of either end of a session, in each mode, with the
//! documents that its envelopes carry, and print what comes in it, and what refuses the stream or
//! how the session ended: `check` a line for each event, `dump` the lines of each document too.
//! `build` reads documents in such lines, and writes an initiator's session of them. `replay` reads
//! an initiator's stream, and writes what a server would answer. `serve` answers the connections
//! that peers make in that way, one after the other. `call` connects to a server, sends documents
//! to it, and prints what it answers as `dump` would. `relay` joins the sessions of peers with
//! sessions of a server, and `pool` answers many connections at once. `gen` makes a session of a
//! seed's documents, and prints a line of it. `rehearse` plays the history of a reliable sequence,
//! and prints what it delivers.
//!
//! The one idea: a command is a loop of `stream_loop` over a reading end, which finds the events of
//! a stream, and what writes about them, so that what is written is a function of the bytes.
//! Streams are reported by `session_report`, documents in lines are read by `document_lines`,
//! requests are answered by `duplex_server`, servers are called by `client`, sessions are generated
//! by `session_generator`, histories are played by `rehearsal`, and arguments are read by
//! `command_words`. Here are the writer of
//! envelopes (`building`), the service that is asked for (`responding`), the file of static strings
//! (`statics`), the statuses and the notes of a run, and what is done for each task (`working`).
//! The main contract is that of `run`: what each status means, when it comes, and what the output
//! holds then.
//!
//! The definitions are in `specs/`: `Outside` has what is seen of the outside at one moment,
//! `Statics` what a file of static strings gives, `Running` the statuses, `Noting` the notes,
//! `Reporting`, `Building`, `Answering`, `Serving`, `Calling`, `Relaying`, `Pooling`, `Generating`
//! and `Rehearsing` what the commands leave, by how they ended, `Working` what a run leaves by its
//! words, `Complete` the status where nothing of the outside fails, `Order` what has to be in order
//! for 0, `Laws` what holds of sessions that are written.
#![tactic(auto)]

mod building;
mod calling;
mod files;
mod generating;
pub mod laws;
mod notes;
mod pooling;
mod rehearsing;
mod relaying;
mod replaying;
mod reporting;
mod responding;
pub mod run;
mod serving;
mod statics;
mod working;
