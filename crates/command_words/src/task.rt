// What is to be done.

use nbfx_values::{Encoding, Kind, Mode};

/// What the report of a stream shows of its documents.
#[derive(Clone, Copy, Debug, PartialEq, Eq)]
pub enum Detail {
    /// A line of numbers for each.
    Summary,
    /// Their items too.
    Whole,
}

/// Which end of a session sent a stream.
#[derive(Clone, Copy, Debug, PartialEq, Eq)]
pub enum Origin {
    /// The end that connected. Its stream names the mode and the encoding.
    Initiator,
    /// The end that accepted the connection, in a session of this mode and encoding.
    Receiver { mode: Mode, kind: Kind },
}

/// What an initiator opens a session with.
#[derive(Clone, Copy, Debug, PartialEq, Eq)]
pub struct Opening<'w> {
    /// The Via, of at most 2,048 bytes.
    pub via: &'w str,
    /// The mode of the session.
    pub mode: Mode,
    /// The encoding of its envelopes, and how the preamble names it.
    pub encoding: Encoding,
}

/// How sessions are served.
#[derive(Clone, Copy, Debug, PartialEq, Eq)]
pub struct Serving<'w> {
    /// The only Via that is served; any is without it.
    pub endpoint: Option<&'w str>,
    /// The name of the file that has the reply's text for each action; without it the service
    /// echoes.
    pub actions: Option<&'w str>,
}

/// How the sessions of peers are joined with sessions of a server.
#[derive(Clone, Copy, Debug, PartialEq, Eq)]
pub struct Relaying<'w> {
    /// The place where connections are accepted.
    pub listen: &'w str,
    /// The place of the server.
    pub connect: &'w str,
    /// The Via that the server's sessions are opened with, of at most 2,048 bytes.
    pub via: &'w str,
    /// The name of the file of the static strings of the server's sessions; without it they have
    /// those of the peers.
    pub back_statics: Option<&'w str>,
    /// How many connections are accepted, from 1 to 1,000,000.
    pub connections: u32,
    /// The only Via that peers are served; any is without it.
    pub endpoint: Option<&'w str>,
}

/// The reliable sequence whose history is played.
#[derive(Clone, Copy, Debug, PartialEq, Eq)]
pub struct Rehearsal<'w> {
    /// Its identifier, which has a character other than white space.
    pub id: &'w str,
    /// How far its numbers may be ahead, from 1 to 1,024.
    pub window: u32,
}

/// What a command on sessions is to do.
#[derive(Clone, Copy, Debug, PartialEq, Eq)]
pub enum Task<'w> {
    /// To read a stream and report it: `check`, and `dump` with the documents.
    Report {
        detail: Detail,
        origin: Origin,
    },
    /// To write documents as an initiator's session: `build`.
    Build(Opening<'w>),
    /// To answer an initiator's stream as a server: `replay`.
    Replay(Serving<'w>),
    /// To answer connections as a server: `serve`.
    Serve {
        /// The place where they are accepted.
        listen: &'w str,
        /// How many are, from 1 to 1,000,000.
        connections: u32,
        serving: Serving<'w>,
    },
    /// To call a server: `call`.
    Call {
        /// The place that is connected to.
        connect: &'w str,
        opening: Opening<'w>,
        /// The name of the file of a second list of documents, which are sent beside the input's.
        second: Option<&'w str>,
    },
    /// To join the sessions of peers with sessions of a server: `relay`.
    Relay(Relaying<'w>),
    /// To answer connections as a server, all at once: `pool`.
    Pool {
        /// The place where they are accepted.
        listen: &'w str,
        /// How many are, from 1 to 1,024.
        connections: u32,
        /// How many sessions of each are answered, one after the other, from 1 to 1,024.
        sessions: u32,
        serving: Serving<'w>,
    },
    /// To make documents and read them: `gen`.
    Generate {
        seed: u64,
        /// How many documents are made, at most 1,000,000.
        count: u32,
    },
}
