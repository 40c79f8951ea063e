// Streams that are answered as a server would.
use super::*;

pub const REPLAY: Row = Row {
    words: "nettcp replay --static=S",
    options: "--depth=32",
    pieces: WHOLE,
    output: &[ACK, END],
    ..CHECK
};

const OFFENCE: Row = Row {
    input: &[PREAMBLE],
    status: 1,
    output: &[ACK],
    ..REPLAY
};

const BROKEN: Row = Row {
    status: 3,
    note: "read fault\n",
    ..REPLAY
};

const UNWRITTEN: Row = Row {
    put: Some(0),
    status: 4,
    note: "write fault\n",
    ..REPLAY
};

pub const BY_ACTION: Row = Row {
    options: "--actions=A",
    files: &[("A", ACTIONS)],
    input: TWO_CALLS,
    pieces: &[(65_536, 146)],
    status: 6,
    output: &[],
    ..REPLAY
};

// A text for the action of a call, and what is owed for a call then.
pub const ACTIONS: &[u8] = b"action,text\nurn:echo,ok\n";

pub const TEXT_ANSWER: Parts = &[ACK, b"\x06\x48\x06\x05reply", ANSWER, b"ok\x01\x01", END];

// The answer to a call, behind its strings and up to its text.
pub const ANSWER: &[u8] =
    b"V\x02\x0B\x01s\x04\x0B\x01a\x06V\x08D\x0A\x1E\x00\x82\x99\x10urn:echoResponseD\x12\xAD3\
\x22\x11\x00UDwf\x88\x99\xAA\xBB\xCC\xDD\xEE\xFF\x01V\x0EB\x01\x99\x02";

// That text, and the ends of the elements.
pub const HI: &[u8] = b"hi\x01\x01";

// What is owed for a call, and for two.
pub const ONE_ANSWER: Parts = &[ACK, b"\x06\x44\x02\x01x", ANSWER, HI, END];

pub const TWO_ANSWERS: Parts = &[
    ACK,
    b"\x06\x44\x02\x01x",
    ANSWER,
    HI,
    b"\x06\x42\x00",
    ANSWER,
    HI,
    END,
];

// The first bytes of the texts of Fault records.
pub const FAULTS: &[u8] = b"http://schemas.microsoft.com/ws/2006/05/framing/faults/";

const ANSWERED: &[Row] = &[
    Row {
        name: "calls are echoed in any pieces",
        input: TWO_CALLS,
        pieces: &[(65_536, 0), (61, 0), (1, 0)],
        output: TWO_ANSWERS,
        ..REPLAY
    },
    Row {
        name: "the line of an offence is a note: no bytes",
        input: &[],
        output: &[],
        note: "offence frame 0 24 Truncated\n",
        ..OFFENCE
    },
    Row {
        name: "the line of an offence is a note: a mode that is none",
        input: &[BAD_MODE],
        output: &[b"\x08\x46", FAULTS, b"UnsupportedMode"],
        note: "offence frame 3 5 BadMode\n",
        ..OFFENCE
    },
    Row {
        name: "the line of an offence is a note: a message beyond the payload quota",
        input: &[TOO_LARGE],
        output: &[b"\x0B\x08\x52", FAULTS, b"MaxMessageSizeExceededFault"],
        note: "offence frame 23 11 MessageTooLarge\n",
        ..OFFENCE
    },
    Row {
        name: "the line of an offence is a note: a Via of another endpoint",
        options: "--endpoint=net.tcp://h/z",
        output: &[b"\x08\x47", FAULTS, b"EndpointNotFound"],
        note: "offence frame 5 8 EndpointNotFound\n",
        ..OFFENCE
    },
    Row {
        name: "the line of an offence is a note: a Via of the endpoint has none",
        options: "--endpoint=net.tcp://h/e",
        ..REPLAY
    },
];

const ANSWERED_2: &[Row] = &[
    Row {
        name: "the line of an offence is a note: a session beyond its quota",
        options: "--session=23",
        input: &[SESSION],
        status: 10,
        note: "offence frame 23 25 SessionTooLong\n",
        ..OFFENCE
    },
    Row {
        name: "the line of an offence is a note: a preamble alone",
        note: "offence frame 23 24 Truncated\n",
        ..OFFENCE
    },
    Row {
        name: "faults go before offences: a failed take",
        pieces: &[(23, 1)],
        take: Some(1),
        output: &[ACK],
        ..BROKEN
    },
    Row {
        name: "faults go before offences: a failed put before a failed take",
        pieces: &[(23, 1)],
        take: Some(1),
        output: &[],
        ..UNWRITTEN
    },
    Row {
        name: "faults go before offences: a failed put that keeps a byte",
        kept: 1,
        output: &[ACK],
        ..UNWRITTEN
    },
    Row {
        name: "the first answer is written before a take that fails",
        input: TWO_CALLS,
        pieces: &[(85, 61)],
        take: Some(1),
        output: &[ACK, b"\x06\x44\x02\x01x", ANSWER, HI],
        ..BROKEN
    },
];

const ACTIONS_FIRST: &[Row] = &[
    Row {
        name: "a file of actions is read first: there is none",
        files: &[],
        note: "A: not found\n",
        ..BY_ACTION
    },
    Row {
        name: "a file of actions is read first: another header",
        files: &[("A", b"id,string\n")],
        note: "A: row 0 Header\n",
        ..BY_ACTION
    },
    Row {
        name: "a file of actions is read first: a row of one field",
        files: &[("A", b"action,text\na\n")],
        note: "A: row 1 Fields\n",
        ..BY_ACTION
    },
    Row {
        name: "a file of actions is read first: an action that is not UTF-8",
        files: &[("A", b"action,text\na,b\n\xFF,c\n")],
        note: "A: row 2 NotUtf8\n",
        ..BY_ACTION
    },
    Row {
        name: "a file of actions is read first: an action that is repeated",
        files: &[("A", b"action,text\na,b\na,c\n")],
        note: "A: row 2 Repeated\n",
        ..BY_ACTION
    },
    Row {
        name: "texts answer by action",
        input: ONE_CALL,
        pieces: WHOLE,
        status: 0,
        output: TEXT_ANSWER,
        ..BY_ACTION
    },
];

fn answered_rows() -> &'static [Row] {
    ANSWERED
}

fn answered_rows_2() -> &'static [Row] {
    ANSWERED_2
}

fn actions_first_rows() -> &'static [Row] {
    ACTIONS_FIRST
}

pub fn assert_all(
    rt: &(impl Abort + AllocGlobal + Threads + Wait + Sync),
) -> Result<(), AllocError> {
    assert_rows(rt, answered_rows())?;
    assert_rows(rt, answered_rows_2())?;
    assert_rows(rt, actions_first_rows())
}
