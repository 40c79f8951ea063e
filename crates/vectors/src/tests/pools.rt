// Connections that are answered at once, over a wire in memory.
use super::peers::Peer;
use super::replays::{ANSWER, FAULTS, HI, ONE_ANSWER};
use super::*;

const TWO_SESSIONS: Parts = &[PREAMBLE, CALL, DOCUMENT, END, PREAMBLE, CALL, DOCUMENT, END];

const BOTH_ANSWERED: Parts = &[
    ACK,
    b"\x06\x44\x02\x01x",
    ANSWER,
    HI,
    END,
    ACK,
    b"\x06\x44\x02\x01x",
    ANSWER,
    HI,
    END,
];

const TWICE: Peer = Peer {
    sends: TWO_SESSIONS,
    read: None,
    write: None,
    got: Some(BOTH_ANSWERED),
};

const SILENT: Peer = Peer {
    sends: &[],
    got: Some(&[]),
    ..TWICE
};

// The input isn't read.
const POOL: Row = Row {
    words: "nettcp pool --static=S --listen=h:808",
    options: "--connections=1",
    pieces: UNREAD,
    peers: &[TWICE],
    output: &[b"connection 0 sessions 2 messages 2 answers 2 end done\n"],
    ..CHECK
};

const POOLED: &[Row] = &[
    Row {
        name: "sessions of a connection are served in turn",
        ..POOL
    },
    Row {
        name: "as many sessions are served as are asked for",
        options: "--connections=1 --sessions=1",
        peers: &[Peer {
            got: Some(ONE_ANSWER),
            ..TWICE
        }],
        output: &[b"connection 0 sessions 1 messages 1 answers 1 end most\n"],
        ..POOL
    },
    Row {
        name: "a session that is refused is the last",
        peers: &[Peer {
            sends: &[PREAMBLE, CALL, DOCUMENT, END, PREAMBLE, END, b"\x00"],
            got: Some(&[ACK, b"\x06\x44\x02\x01x", ANSWER, HI, END, ACK, END]),
            ..TWICE
        }],
        output: &[b"connection 0 sessions 3 messages 1 answers 1 end offence-24\n"],
        ..POOL
    },
    Row {
        name: "lines come in order of acceptance",
        options: "--connections=3",
        peers: &[
            SILENT,
            TWICE,
            Peer {
                sends: &[BAD_MODE],
                got: Some(&[b"\x08\x46", FAULTS, b"UnsupportedMode"]),
                ..TWICE
            },
        ],
        output: &[
            b"connection 0 sessions 0 messages 0 answers 0 end done\n",
            b"connection 1 sessions 2 messages 2 answers 2 end done\n",
            b"connection 2 sessions 1 messages 0 answers 0 end offence-5\n",
        ],
        ..POOL
    },
    Row {
        name: "no other is to come",
        options: "--depth=32",
        peers: &[SILENT, TWICE],
        output: &[
            b"connection 0 sessions 0 messages 0 answers 0 end done\n",
            b"connection 1 sessions 2 messages 2 answers 2 end done\n",
        ],
        ..POOL
    },
];

const STOPPED: &[Row] = &[
    Row {
        name: "a read that fails",
        peers: &[Peer {
            read: Some(0),
            got: Some(&[]),
            ..TWICE
        }],
        output: &[b"connection 0 sessions 0 messages 0 answers 0 end read-fault\n"],
        ..POOL
    },
    Row {
        name: "a write that fails",
        peers: &[Peer {
            write: Some(0),
            got: Some(&[]),
            ..TWICE
        }],
        output: &[b"connection 0 sessions 1 messages 1 answers 0 end write-fault\n"],
        ..POOL
    },
    Row {
        name: "an accept that fails",
        options: "--connections=2",
        connect: Some(1),
        peers: &[TWICE, Peer { got: None, ..TWICE }],
        status: 8,
        note: "wire fault\n",
        ..POOL
    },
    Row {
        name: "a line that is not put",
        put: Some(0),
        kept: 5,
        status: 4,
        output: &[b"conne"],
        note: "write fault\n",
        ..POOL
    },
    Row {
        name: "no file of actions",
        options: "--actions=A",
        peers: &[Peer { got: None, ..TWICE }],
        status: 6,
        output: &[],
        note: "A: not found\n",
        ..POOL
    },
];

fn pooled_rows() -> &'static [Row] {
    POOLED
}

fn stopped_rows() -> &'static [Row] {
    STOPPED
}

pub fn assert_all(
    rt: &(impl Abort + AllocGlobal + Threads + Wait + Sync),
) -> Result<(), AllocError> {
    assert_rows(rt, pooled_rows())?;
    assert_rows(rt, stopped_rows())
}
