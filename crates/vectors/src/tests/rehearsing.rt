// Histories of a sequence that are played.
use super::*;

const PLAYED: Row = Row {
    words: "nettcp rehearse --id u",
    output: &[b"submitted 0 delivered 0 acknowledged 0\n"],
    ..CHECK
};

const NOT_PLAYED: Row = Row {
    status: 6,
    output: &[],
    ..PLAYED
};

const HISTORIES: &[Row] = &[
    Row {
        name: "a history is played: bodies that come in another order, and twice",
        input: &[
            b"submit \"x\"\nsubmit \"y\"\nsend 2\nsend 1\ndata 0\ndeliver\nack\nheard 0\n\
data 1\ndata 1\ndeliver\ndeliver\n",
        ],
        output: &[b"delivered \"x\"\ndelivered \"y\"\nsubmitted 2 delivered 2 acknowledged 1\n"],
        ..PLAYED
    },
    Row {
        name: "a history is played: a window of 1 is full, and a number is ahead",
        options: "--window 1",
        input: &[
            b"submit \"x\"\nsubmit \"y\"\nsend 1\ndata 0\nack\nheard 0\nsubmit \"z\"\n\
send 2\ndata 1\ndeliver\ndeliver\n",
        ],
        output: &[b"delivered \"x\"\nsubmitted 2 delivered 1 acknowledged 1\n"],
        ..PLAYED
    },
    Row {
        name: "a history is played: no lines",
        input: &[],
        ..PLAYED
    },
    Row {
        name: "a history is played: lines that do nothing",
        input: &[b"send 1\nsend 9999999999\ndata 0\ndeliver\nheard 0\nheard 9999999999\nack\n"],
        ..PLAYED
    },
    Row {
        name: "a history is played: nothing is submitted behind the last",
        input: &[
            b"submit \"\"\nlast \"\\c3\\a9\\22\\5c \\41\"\nsubmit \"no\"\nsend 2\nsend 1\n\
data 1\ndata 0\ndeliver\ndeliver\nack\nheard 0\nsend 1\ndata 2\n",
        ],
        output: &[
            b"delivered \"\"\ndelivered \"\\c3\\a9\\22\\5c A\"\n\
submitted 2 delivered 2 acknowledged 2\n",
        ],
        ..PLAYED
    },
];

const NOT_LINES: &[Row] = &[
    Row {
        name: "a history is refused: an empty line, behind a delivery",
        input: &[b"submit \"x\"\nsend 1\ndata 0\ndeliver\n\ndeliver\n"],
        pieces: &[(65_536, 0), (1, 8)],
        output: &[b"delivered \"x\"\n"],
        note: "input: line 5 NotALine\n",
        ..NOT_PLAYED
    },
    Row {
        name: "a history is refused: a last line without line feed",
        input: &[b"ack\nack"],
        note: "input: line 2 NotALine\n",
        ..NOT_PLAYED
    },
    Row {
        name: "a history is refused: a text that isn't UTF-8",
        input: &[b"ack\nlast \"\\c3\"\n"],
        note: "input: line 2 BadText\n",
        ..NOT_PLAYED
    },
    Row {
        name: "a history is refused: a text without quotes",
        input: &[b"submit x\n"],
        note: "input: line 1 NotALine\n",
        ..NOT_PLAYED
    },
    Row {
        name: "a history is refused: the number 0",
        input: &[b"send 0\n"],
        note: "input: line 1 NotALine\n",
        ..NOT_PLAYED
    },
    Row {
        name: "a history is refused: a number with eleven digits",
        input: &[b"data 10000000000\n"],
        note: "input: line 1 NotALine\n",
        ..NOT_PLAYED
    },
    Row {
        name: "a history is refused: a leading zero",
        input: &[b"heard 00\n"],
        note: "input: line 1 NotALine\n",
        ..NOT_PLAYED
    },
    Row {
        name: "a history is refused: two words",
        input: &[b"deliver 1\n"],
        note: "input: line 1 NotALine\n",
        ..NOT_PLAYED
    },
    Row {
        name: "a history is refused: a space at the end",
        input: &[b"ack \n"],
        note: "input: line 1 NotALine\n",
        ..NOT_PLAYED
    },
    Row {
        name: "a history is refused: a keyword alone",
        input: &[b"send\n"],
        note: "input: line 1 NotALine\n",
        ..NOT_PLAYED
    },
    Row {
        name: "a history is refused: another keyword",
        input: &[b"Ack\n"],
        note: "input: line 1 NotALine\n",
        ..NOT_PLAYED
    },
];

const FAILED: &[Row] = &[
    Row {
        name: "a take that fails leaves the bodies before",
        input: &[b"submit \"x\"\nsend 1\ndata 0\ndeliver\nack\n"],
        pieces: &[(33, 4)],
        take: Some(1),
        status: 3,
        output: &[b"delivered \"x\"\n"],
        note: "read fault\n",
        ..PLAYED
    },
    Row {
        name: "the put of a body fails",
        input: &[b"submit \"x\"\nsend 1\ndata 0\ndeliver\n"],
        pieces: WHOLE,
        put: Some(0),
        kept: 3,
        status: 4,
        output: &[b"del"],
        note: "write fault\n",
        ..PLAYED
    },
];

pub fn assert_all(
    rt: &(impl Abort + AllocGlobal + Threads + Wait + Sync),
) -> Result<(), AllocError> {
    assert_rows(rt, HISTORIES)?;
    assert_rows(rt, NOT_LINES)?;
    assert_rows(rt, FAILED)
}
