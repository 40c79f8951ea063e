// Connections that are answered over a wire in memory.
use super::replays::{ACTIONS, FAULTS, TEXT_ANSWER, TWO_ANSWERS};
use super::*;

// A peer with a session of no documents, one that sends nothing, and one that is never met.
const CALLER: Peer = Peer {
    sends: &[SESSION],
    read: None,
    write: None,
    got: Some(&[ACK, END]),
};

const SILENT: Peer = Peer {
    sends: &[],
    got: Some(&[]),
    ..CALLER
};

const UNMET: Peer = Peer {
    got: None,
    ..SILENT
};

const NEITHER: &[Peer] = &[UNMET, UNMET];

// The input isn't read.
pub const SERVE: Row = Row {
    words: "nettcp serve --static=S --listen=h:808",
    options: "--connections=2",
    files: &[("T", ACTIONS)],
    pieces: UNREAD,
    peers: &[CALLER, SILENT],
    output: &[
        b"connection 0 messages 0 answers 0 in ended out done\n",
        b"connection 1 messages 0 answers 0 in offence-24 out done\n",
    ],
    ..CHECK
};

const SERVED: &[Row] = &[
    Row {
        name: "requests are answered over a wire",
        options: "--connections=1",
        peers: &[
            Peer {
                sends: TWO_CALLS,
                got: Some(TWO_ANSWERS),
                ..CALLER
            },
            UNMET,
        ],
        output: &[b"connection 0 messages 2 answers 2 in ended out done\n"],
        ..SERVE
    },
    Row {
        name: "requests are answered over a wire by a file of actions",
        options: "--actions=T",
        peers: &[
            Peer {
                sends: ONE_CALL,
                got: Some(TEXT_ANSWER),
                ..CALLER
            },
            SILENT,
        ],
        output: &[
            b"connection 0 messages 1 answers 1 in ended out done\n",
            b"connection 1 messages 0 answers 0 in offence-24 out done\n",
        ],
        ..SERVE
    },
    Row {
        name: "a session is answered after two that are none",
        options: "--connections=3",
        peers: &[
            SILENT,
            Peer {
                sends: &[BAD_MODE],
                got: Some(&[b"\x08\x46", FAULTS, b"UnsupportedMode"]),
                ..CALLER
            },
            Peer {
                sends: TWO_CALLS,
                got: Some(TWO_ANSWERS),
                ..CALLER
            },
        ],
        output: &[
            b"connection 0 messages 0 answers 0 in offence-24 out done\n",
            b"connection 1 messages 0 answers 0 in offence-5 out done\n",
            b"connection 2 messages 2 answers 2 in ended out done\n",
        ],
        ..SERVE
    },
    Row {
        name: "connections are served to the last: as many as are asked for",
        ..SERVE
    },
    Row {
        name: "connections are served to the last: no other is to come",
        options: "--connections=3",
        ..SERVE
    },
];

const SERVED_2: &[Row] = &[
    Row {
        name: "connections are served to the last: no number is asked for",
        options: "--depth=32",
        ..SERVE
    },
    Row {
        name: "connections are served to the last: one is asked for",
        options: "--connections=1",
        peers: &[CALLER, UNMET],
        output: &[b"connection 0 messages 0 answers 0 in ended out done\n"],
        ..SERVE
    },
    Row {
        name: "what happens on a connection is in its line: a Via that is not served",
        options: "--endpoint=net.tcp://h/z",
        peers: &[
            Peer {
                got: Some(&[b"\x08\x47", FAULTS, b"EndpointNotFound"]),
                ..CALLER
            },
            SILENT,
        ],
        output: &[
            b"connection 0 messages 0 answers 0 in offence-8 out done\n",
            b"connection 1 messages 0 answers 0 in offence-24 out done\n",
        ],
        ..SERVE
    },
    Row {
        name: "what happens on a connection is in its line: a Via that is served",
        options: "--endpoint=net.tcp://h/e",
        ..SERVE
    },
    Row {
        name: "what happens on a connection is in its line: a read that fails",
        peers: &[
            Peer {
                read: Some(0),
                got: Some(&[]),
                ..CALLER
            },
            SILENT,
        ],
        output: &[
            b"connection 0 messages 0 answers 0 in read-fault out done\n",
            b"connection 1 messages 0 answers 0 in offence-24 out done\n",
        ],
        ..SERVE
    },
    Row {
        name: "what happens on a connection is in its line: a write that fails",
        peers: &[
            Peer {
                write: Some(0),
                got: Some(&[]),
                ..CALLER
            },
            SILENT,
        ],
        output: &[
            b"connection 0 messages 0 answers 0 in ended out write-fault\n",
            b"connection 1 messages 0 answers 0 in offence-24 out done\n",
        ],
        ..SERVE
    },
];

const CAUSES: &[Row] = &[
    Row {
        name: "words that are not understood",
        options: "--connections=0",
        peers: NEITHER,
        status: 2,
        output: &[],
        note: "words not understood\n",
        ..SERVE
    },
    Row {
        name: "a fetch that fails",
        options: "--actions=S",
        fetch: Some(1),
        peers: NEITHER,
        status: 3,
        output: &[],
        note: "read fault\n",
        ..SERVE
    },
    Row {
        name: "a line that is not put",
        put: Some(1),
        kept: 5,
        status: 4,
        output: &[
            b"connection 0 messages 0 answers 0 in ended out done\n",
            b"conne",
        ],
        note: "write fault\n",
        ..SERVE
    },
    Row {
        name: "no file of actions",
        options: "--actions=A",
        peers: NEITHER,
        status: 6,
        output: &[],
        note: "A: not found\n",
        ..SERVE
    },
    Row {
        name: "a file of something else",
        options: "--actions=S",
        peers: NEITHER,
        status: 6,
        output: &[],
        note: "S: row 0 Header\n",
        ..SERVE
    },
    Row {
        name: "an accept that fails",
        peers: &[CALLER, UNMET],
        connect: Some(1),
        status: 8,
        output: &[b"connection 0 messages 0 answers 0 in ended out done\n"],
        note: "wire fault\n",
        ..SERVE
    },
];

fn served_rows() -> &'static [Row] {
    SERVED
}

fn served_rows_2() -> &'static [Row] {
    SERVED_2
}

fn causes_rows() -> &'static [Row] {
    CAUSES
}

pub fn assert_all(
    rt: &(impl Abort + AllocGlobal + Threads + Wait + Sync),
) -> Result<(), AllocError> {
    assert_rows(rt, served_rows())?;
    assert_rows(rt, served_rows_2())?;
    assert_rows(rt, causes_rows())
}
