// Preambles that name the encoding by its content type, read and written.
use super::building::{BUILD, FIRST};
use super::calls::CALL_ONE;
use super::peers::Peer;
use super::replays::{FAULTS, REPLAY, TWO_ANSWERS};
use super::*;

// A preamble up to its encoding.
const TO: &[u8] = b"\x00\x01\x00\x01\x02\x02\x0Dnet.tcp://h/e";

const SESSION_TYPE: &[u8] =
    b"\x00\x01\x00\x01\x02\x02\x0Dnet.tcp://h/e\x04\x1Eapplication/soap+msbinsession1\x0C";

const PLAIN_TYPE: &[u8] =
    b"\x00\x01\x00\x01\x02\x02\x0Dnet.tcp://h/e\x04\x17application/soap+msbin1\x0C";

const COMPRESSED: &[u8] = b"\x04\x1Capplication/soap+msbin1+gzip";

const READ: &[Row] = &[
    Row {
        name: "a content type names the encoding with a session dictionary",
        input: &[SESSION_TYPE, END],
        output: &[OPEN, b"ended 54\n"],
        ..CHECK
    },
    Row {
        name: "a content type names the encoding without a session dictionary",
        input: &[PLAIN_TYPE, b"\x06\x07\x40\x01x\x99\x02hi\x07"],
        output: &[
            PLAIN_OPEN,
            b"message 0 payload 7 items 3 depth 1 content 3 strings 0 used 0\n",
            b"ended 56\n",
        ],
        ..CHECK
    },
    Row {
        name: "documents behind a content type: session strings are kept",
        input: &[SESSION_TYPE, FIRST, b"\x06\x04\x00\x42\x01\x01", END],
        output: &[
            OPEN,
            MESSAGE,
            b"message 1 payload 4 items 2 depth 1 content 1 strings 1 used 1\n",
            b"ended 68\n",
        ],
        ..CHECK
    },
    Row {
        name: "a length of a content type may be longer than it has to be",
        input: &[
            TO,
            b"\x04\x9E\x80\x00application/soap+msbinsession1\x0C\x07",
        ],
        output: &[OPEN, b"ended 56\n"],
        ..CHECK
    },
    Row {
        name: "replies are read by an encoding that a content type names",
        words: DUMP,
        options: "--replies=duplex --encoding=msbin1",
        input: &[b"\x0B\x06\x04\x40\x01x\x01\x07"],
        output: &[
            b"accepted\nmessage 0 payload 4 items 2 depth 1 content 1 strings 0 used 0\n",
            X,
            b"ended 8\n",
        ],
        ..CHECK
    },
];

const REFUSED_TYPES: &[Row] = &[
    Row {
        name: "other content types: a compressed one",
        input: &[TO, COMPRESSED, b"\x0C"],
        pieces: &[(65_536, 0), (1, 1)],
        output: &[b"offence frame 20 9 BadEncoding\n"],
        ..REFUSED
    },
    Row {
        name: "other content types: none",
        input: &[TO, b"\x04\x00", b"\x0C"],
        pieces: &[(65_536, 0), (1, 1)],
        output: &[b"offence frame 20 9 BadEncoding\n"],
        ..REFUSED
    },
    Row {
        name: "other content types: of other letters",
        input: &[TO, b"\x04\x17application/soap+MSBIN1", b"\x0C"],
        pieces: &[(65_536, 0), (1, 1)],
        output: &[b"offence frame 20 9 BadEncoding\n"],
        ..REFUSED
    },
    Row {
        name: "a content type of 256 bytes is judged at its end",
        input: &[TO, b"\x04\x80\x02", LONG],
        long: (256, b"a"),
        output: &[b"offence frame 20 9 BadEncoding\n"],
        ..REFUSED
    },
    Row {
        name: "a content type of 257 bytes is judged at its length",
        input: &[TO, b"\x04\x81\x02"],
        output: &[b"offence frame 20 26 ContentTypeTooLong\n"],
        ..REFUSED
    },
    Row {
        name: "a content type is not UTF-8",
        input: &[TO, b"\x04\x01\xFF"],
        output: &[b"offence frame 20 7 TextNotUtf8\n"],
        ..REFUSED
    },
    Row {
        name: "a content type is cut",
        input: &[TO, b"\x04\x1Eapplication/soap+"],
        output: &[b"offence frame 20 24 Truncated\n"],
        ..REFUSED
    },
    Row {
        name: "a content type where none is due",
        input: &[PREAMBLE, b"\x04", b"\x1E"],
        pieces: &[(65_536, 0), (1, 1)],
        output: &[OPEN, b"offence frame 23 3 OutOfOrder\n"],
        ..REFUSED
    },
];

const ANSWERED: &[Row] = &[
    Row {
        name: "requests behind a content type are answered",
        input: &[SESSION_TYPE, CALL, DOCUMENT, NEXT_CALL, DOCUMENT, END],
        pieces: ANY,
        output: TWO_ANSWERS,
        ..REPLAY
    },
    Row {
        name: "the Fault of another content type",
        input: &[TO, COMPRESSED, b"\x0C"],
        status: 1,
        output: &[b"\x08\x49", FAULTS, b"ContentTypeInvalid"],
        note: "offence frame 20 9 BadEncoding\n",
        ..REPLAY
    },
    Row {
        name: "the Fault of a content type that is too long",
        input: &[TO, b"\x04\x81\x02"],
        status: 1,
        output: &[b"\x08\x49", FAULTS, b"ContentTypeTooLong"],
        note: "offence frame 20 26 ContentTypeTooLong\n",
        ..REPLAY
    },
    Row {
        name: "a content type that is not UTF-8 has no Fault",
        input: &[TO, b"\x04\x01\xFF"],
        status: 1,
        output: &[],
        note: "offence frame 20 7 TextNotUtf8\n",
        ..REPLAY
    },
];

const WRITTEN: &[Row] = &[
    Row {
        name: "a session without documents is built with a content type",
        options: "--encoding=msbinsession1",
        input: &[],
        output: &[SESSION_TYPE, END],
        ..BUILD
    },
    Row {
        name: "a session is built with the content type that has no session dictionary",
        options: "--encoding=msbin1",
        output: &[PLAIN_TYPE, b"\x06\x04\x40\x01x\x01\x07"],
        ..BUILD
    },
    Row {
        name: "a content type goes with singleton mode",
        options: "--mode=singleton --encoding=msbin1",
        output: &[
            b"\x00\x01\x00\x01\x01\x02\x0Dnet.tcp://h/e\x04\x17application/soap+msbin1\x0C",
            b"\x05\x04\x40\x01x\x01\x00\x07",
        ],
        ..BUILD
    },
    Row {
        name: "a peer is called with a content type",
        options: "--encoding=msbinsession1",
        peers: &[Peer {
            sends: &[ACK, END],
            read: None,
            write: None,
            got: Some(&[SESSION_TYPE, FIRST, END]),
        }],
        ..CALL_ONE
    },
];

fn read_rows() -> &'static [Row] {
    READ
}

fn refused_rows() -> &'static [Row] {
    REFUSED_TYPES
}

fn answered_rows() -> &'static [Row] {
    ANSWERED
}

fn written_rows() -> &'static [Row] {
    WRITTEN
}

pub fn assert_all(
    rt: &(impl Abort + AllocGlobal + Threads + Wait + Sync),
) -> Result<(), AllocError> {
    assert_rows(rt, read_rows())?;
    assert_rows(rt, refused_rows())?;
    assert_rows(rt, answered_rows())?;
    assert_rows(rt, written_rows())
}
