// Sessions of peers that are joined with sessions of a server, over a wire in memory.
use super::peers::Peer;
use super::replays::{FAULTS, ONE_ANSWER};
use super::two_ways::WITHOUT_STRINGS;
use super::*;

// The preambles of the sessions that are opened.
pub const TO_BACK: &[u8] = b"\x00\x01\x00\x01\x02\x02\x0Dnet.tcp://h/b\x03\x08\x0C";

const ONE_WAY: &[u8] = b"\x00\x01\x00\x01\x03\x02\x0Dnet.tcp://h/e\x03\x08\x0C";

const ONE_WAY_TO_BACK: &[u8] = b"\x00\x01\x00\x01\x03\x02\x0Dnet.tcp://h/b\x03\x08\x0C";

const CHUNKS: &[u8] = b"\x00\x01\x00\x01\x01\x02\x0Dnet.tcp://h/e\x03\x07\x0C";

const CHUNKS_TO_BACK: &[u8] = b"\x00\x01\x00\x01\x01\x02\x0Dnet.tcp://h/b\x03\x07\x0C";

const ONE_CHUNK: &[u8] = b"\x05\x04\x40\x01x\x01\x00";

// The call in a session without static strings.
const WITHOUT_STATICS: &[u8] =
    b"\x06\xBF\x01\x84\x01\x08Envelope'http://www.w3.org/2003/05/soap-envelope$http://www.w3.org/2\
005/08/addressing\x06Header\x06Action\x0EmustUnderstand\x09MessageID\x04Body\x01xV\x01\x0B\
\x01s\x03\x0B\x01a\x05V\x07D\x09\x1E\x0B\x82\x99\x08urn:echoD\x0D\xAD3\x22\x11\x00UDwf\x88\
\x99\xAA\xBB\xCC\xDD\xEE\xFF\x01V\x0FB\x11\x99\x02hi\x01\x01";

const NO_STATICS: &[u8] = b"id,string\n";

const FRONT: Peer = Peer {
    sends: ONE_CALL,
    read: None,
    write: None,
    got: Some(&[ACK, END]),
};

const BACK: Peer = Peer {
    sends: &[ACK, END],
    got: Some(&[TO_BACK, CALL, DOCUMENT, END]),
    ..FRONT
};

const UNSENT: Peer = Peer {
    got: Some(&[]),
    ..BACK
};

// The input isn't read.
const RELAY: Row = Row {
    words: "nettcp relay --static=S --listen=h:808 --connect=h:809 --via=net.tcp://h/b",
    options: "--connections=1",
    pieces: UNREAD,
    peers: &[FRONT, BACK],
    output: &[b"relay 0 forward 1 ended backward 0 ended\n"],
    ..CHECK
};

const RELAYED: &[Row] = &[
    Row {
        name: "a call is carried to a server",
        ..RELAY
    },
    Row {
        name: "an answer is carried back",
        peers: &[
            Peer {
                got: Some(ONE_ANSWER),
                ..FRONT
            },
            Peer {
                sends: ONE_ANSWER,
                ..BACK
            },
        ],
        output: &[b"relay 0 forward 1 ended backward 1 ended\n"],
        ..RELAY
    },
    Row {
        name: "a call is written anew with other static strings",
        options: "--connections=1 --back-static=T",
        files: &[("T", NO_STATICS)],
        peers: &[
            FRONT,
            Peer {
                got: Some(&[TO_BACK, WITHOUT_STATICS, END]),
                ..BACK
            },
        ],
        ..RELAY
    },
    Row {
        name: "the session dictionaries of both sides differ",
        options: "--connections=1 --dictionary=1 --reply-dictionary=0",
        peers: &[
            Peer {
                got: Some(WITHOUT_STRINGS),
                ..FRONT
            },
            Peer {
                sends: WITHOUT_STRINGS,
                ..BACK
            },
        ],
        output: &[b"relay 0 forward 1 ended backward 1 ended\n"],
        ..RELAY
    },
    Row {
        name: "messages of a simplex session are carried",
        peers: &[
            Peer {
                sends: &[ONE_WAY, CALL, DOCUMENT, END],
                ..FRONT
            },
            Peer {
                got: Some(&[ONE_WAY_TO_BACK, CALL, DOCUMENT, END]),
                ..BACK
            },
        ],
        ..RELAY
    },
    Row {
        name: "messages of a singleton session are carried",
        peers: &[
            Peer {
                sends: &[CHUNKS, ONE_CHUNK, END],
                got: Some(&[ACK, ONE_CHUNK, END]),
                ..FRONT
            },
            Peer {
                sends: &[ACK, ONE_CHUNK, END],
                got: Some(&[CHUNKS_TO_BACK, ONE_CHUNK, END]),
                ..FRONT
            },
        ],
        output: &[b"relay 0 forward 1 ended backward 1 ended\n"],
        ..RELAY
    },
];

const UNJOINED: &[Row] = &[
    Row {
        name: "a front that opens no session gets a Fault, and nothing is said to the back",
        peers: &[
            Peer {
                sends: &[BAD_MODE],
                got: Some(&[b"\x08\x46", FAULTS, b"UnsupportedMode"]),
                ..FRONT
            },
            UNSENT,
        ],
        output: &[b"relay 0 forward 0 offence-5 backward 0 not-opened\n"],
        ..RELAY
    },
    Row {
        name: "a back that turns the session down: the front gets no Ack",
        peers: &[
            Peer {
                got: Some(&[]),
                ..FRONT
            },
            Peer {
                sends: &[b"\x08\x04oops"],
                got: Some(&[TO_BACK]),
                ..BACK
            },
        ],
        output: &[b"relay 0 forward 0 not-opened backward 0 fault\n"],
        ..RELAY
    },
    Row {
        name: "a back that ends by a Fault: what came before is carried",
        peers: &[
            Peer {
                got: Some(&[ACK, CALL, DOCUMENT]),
                ..FRONT
            },
            Peer {
                sends: &[ACK, CALL, DOCUMENT, b"\x08\x04oops"],
                ..BACK
            },
        ],
        output: &[b"relay 0 forward 1 ended backward 1 fault\n"],
        ..RELAY
    },
    Row {
        name: "a Via that is not served",
        options: "--connections=1 --endpoint=net.tcp://h/z",
        peers: &[
            Peer {
                got: Some(&[b"\x08\x47", FAULTS, b"EndpointNotFound"]),
                ..FRONT
            },
            UNSENT,
        ],
        output: &[b"relay 0 forward 0 offence-8 backward 0 not-opened\n"],
        ..RELAY
    },
    Row {
        name: "a front that is cut behind a call has no End carried",
        peers: &[
            Peer {
                sends: &[PREAMBLE, CALL, DOCUMENT],
                ..FRONT
            },
            Peer {
                got: Some(&[TO_BACK, CALL, DOCUMENT]),
                ..BACK
            },
        ],
        output: &[b"relay 0 forward 1 offence-24 backward 0 ended\n"],
        ..RELAY
    },
    Row {
        name: "a document that does not fit ends its direction: a QName without an identifier",
        options: "--connections=1 --dictionary=0 --back-static=T",
        files: &[("T", NO_STATICS)],
        peers: &[
            Peer {
                sends: &[PREAMBLE, b"\x06\x07\x00\x40\x01x\xBD\x00\x0A", END],
                ..FRONT
            },
            Peer {
                got: Some(&[TO_BACK]),
                ..BACK
            },
        ],
        output: &[b"relay 0 forward 0 unfit backward 0 ended\n"],
        ..RELAY
    },
    Row {
        name: "no connection to the server: the front is closed",
        connect: Some(1),
        peers: &[
            Peer {
                got: Some(&[]),
                ..FRONT
            },
            Peer { got: None, ..BACK },
        ],
        status: 8,
        output: &[],
        note: "wire fault\n",
        ..RELAY
    },
    Row {
        name: "no file of the static strings behind",
        options: "--connections=1 --back-static=T",
        peers: &[Peer { got: None, ..FRONT }, Peer { got: None, ..BACK }],
        status: 6,
        output: &[],
        note: "T: not found\n",
        ..RELAY
    },
    Row {
        name: "a line that is not put",
        put: Some(0),
        kept: 5,
        status: 4,
        output: &[b"relay"],
        note: "write fault\n",
        ..RELAY
    },
];

// The wire of a side that fails at its first read or write.
const BROKEN: &[Row] = &[
    Row {
        name: "a front that is not read",
        peers: &[
            Peer {
                read: Some(0),
                got: Some(&[]),
                ..FRONT
            },
            UNSENT,
        ],
        output: &[b"relay 0 forward 0 read-fault backward 0 not-opened\n"],
        ..RELAY
    },
    Row {
        name: "a back that is not written to: the front gets no Ack",
        peers: &[
            Peer {
                got: Some(&[]),
                ..FRONT
            },
            Peer {
                write: Some(0),
                ..UNSENT
            },
        ],
        output: &[b"relay 0 forward 0 write-fault backward 0 not-opened\n"],
        ..RELAY
    },
    Row {
        name: "a back that is not read: the front gets no Ack",
        peers: &[
            Peer {
                got: Some(&[]),
                ..FRONT
            },
            Peer {
                read: Some(0),
                got: Some(&[TO_BACK]),
                ..BACK
            },
        ],
        output: &[b"relay 0 forward 0 not-opened backward 0 read-fault\n"],
        ..RELAY
    },
    Row {
        name: "a front whose Ack is not written: nothing is carried",
        peers: &[
            Peer {
                write: Some(0),
                got: Some(&[]),
                ..FRONT
            },
            Peer {
                got: Some(&[TO_BACK]),
                ..BACK
            },
        ],
        output: &[b"relay 0 forward 0 not-opened backward 0 write-fault\n"],
        ..RELAY
    },
];

fn relayed_rows() -> &'static [Row] {
    RELAYED
}

fn unjoined_rows() -> &'static [Row] {
    UNJOINED
}

fn broken_rows() -> &'static [Row] {
    BROKEN
}

pub fn assert_all(
    rt: &(impl Abort + AllocGlobal + Threads + Wait + Sync),
) -> Result<(), AllocError> {
    assert_rows(rt, relayed_rows())?;
    assert_rows(rt, unjoined_rows())?;
    assert_rows(rt, broken_rows())
}
