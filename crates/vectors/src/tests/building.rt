// Documents in lines through the whole program: the session that `build` writes of them.
use super::*;

pub const BUILD: Row = Row {
    words: BUILD_TWO,
    input: &[X],
    pieces: &[(65_536, 0), (5, 0), (1, 0)],
    output: &[PREAMBLE, FIRST, END],
    ..CHECK
};

pub const BUILD_TWO: &str = "nettcp build --static S --via net.tcp://h/e";

pub const BUILD_ONE: &str = "nettcp build --static=S --via=net.tcp://h/e";

pub const NOT_LINES: Row = Row {
    status: 6,
    output: &[PREAMBLE],
    ..BUILD
};

pub const UNFIT: Row = Row {
    words: BUILD_ONE,
    pieces: WHOLE,
    status: 7,
    output: &[PREAMBLE],
    ..BUILD
};

const SINGLETON: Row = Row {
    words: BUILD_ONE,
    options: "--mode=singleton --encoding=7 --depth=4",
    pieces: ANY,
    ..BUILD
};

const NOT_SINGLETON: Row = Row {
    status: 6,
    ..SINGLETON
};

const CHUNKS: &[u8] = b"\x00\x01\x00\x01\x01\x02\x0Dnet.tcp://h/e\x03\x07\x0C";

// Of an element `x`, the first in its session and the next.
pub const FIRST: &[u8] = b"\x06\x06\x02\x01x\x42\x01\x01";

pub const NEXT: &[u8] = b"\x06\x04\x00\x42\x01\x01";

pub const START: &[u8] = b"start \"\" \"x\"\n";

pub const CLOSE: &[u8] = b"close\n";

const LINED: &[Row] = &[
    Row {
        name: "lines are built in any pieces: no bytes",
        input: &[],
        output: &[PREAMBLE, END],
        ..BUILD
    },
    Row {
        name: "lines are built in any pieces: empty lines",
        input: &[b"\n\n"],
        output: &[PREAMBLE, END],
        ..BUILD
    },
    Row {
        name: "lines are built in any pieces: one document",
        ..BUILD
    },
    Row {
        name: "lines are built in any pieces: two documents among empty lines",
        input: &[b"\nstart \"\" \"x\"\nclose\n\n\nstart \"\" \"x\"\nclose\n\n"],
        output: &[PREAMBLE, FIRST, NEXT, END],
        ..BUILD
    },
    Row {
        name: "lines are built in any pieces: a line that is none",
        input: &[b"start \"\" x\n"],
        output: &[PREAMBLE],
        note: "input: line 1 NotALine\n",
        ..NOT_LINES
    },
    Row {
        name: "lines are built in any pieces: a document that is cut",
        input: &[b"start \"\" \"x\"\n"],
        output: &[PREAMBLE],
        note: "input: line 2 Cut\n",
        ..NOT_LINES
    },
];

const LINED_2: &[Row] = &[
    Row {
        name: "lines are built in any pieces: no last line feed",
        input: &[b"start \"\" \"x\"\nclose"],
        output: &[PREAMBLE],
        note: "input: line 2 Cut\n",
        ..NOT_LINES
    },
    Row {
        name: "lines are built in any pieces: an empty line in a document",
        input: &[b"start \"\" \"x\"\n\nclose\n"],
        pieces: &[(65_536, 0), (5, 5), (1, 6)],
        output: &[PREAMBLE],
        note: "input: line 2 NotALine\n",
        ..NOT_LINES
    },
    Row {
        name: "lines are built in any pieces: a carriage return",
        input: &[b"start \"\" \"x\"\nclose\n\r\n"],
        output: &[PREAMBLE, FIRST],
        note: "input: line 3 NotALine\n",
        ..NOT_LINES
    },
    Row {
        name: "lines are built in any pieces: carriage returns before line feeds",
        input: &[b"start \"\" \"x\"\r\nclose\r\n"],
        pieces: &[(65_536, 0), (5, 6), (1, 7)],
        output: &[PREAMBLE],
        note: "input: line 1 NotALine\n",
        ..NOT_LINES
    },
    Row {
        name: "lines are built in any pieces: a byte order mark",
        input: &[b"\xEF\xBB\xBFstart \"\" \"x\"\nclose\n"],
        pieces: &[(65_536, 0), (5, 2), (1, 6)],
        output: &[PREAMBLE],
        note: "input: line 1 NotALine\n",
        ..NOT_LINES
    },
    Row {
        name: "lines are built in any pieces: a NUL",
        input: &[b"start \"\" \"x\"\nclose\n\0\n"],
        output: &[PREAMBLE, FIRST],
        note: "input: line 3 NotALine\n",
        ..NOT_LINES
    },
];

const LINED_3: &[Row] = &[
    Row {
        name: "lines are built in any pieces: a text that is not UTF-8",
        input: &[b"start \"\" \"\\ff\"\n"],
        output: &[PREAMBLE],
        note: "input: line 1 BadText\n",
        ..NOT_LINES
    },
    Row {
        name: "lines are built in any pieces: a float of two digits",
        input: &[b"start \"\" \"x\"\ntext float 00\n"],
        output: &[PREAMBLE],
        note: "input: line 2 NotALine\n",
        ..NOT_LINES
    },
    Row {
        name: "lines are built in any pieces: a close that closes nothing",
        input: &[b"start \"\" \"x\"\nclose\nclose\n"],
        output: &[PREAMBLE, FIRST],
        note: "input: line 3 OutOfPlace\n",
        ..NOT_LINES
    },
    Row {
        name: "a session in singleton mode has one document: one",
        output: &[CHUNKS, b"\x05\x04\x40\x01x\x01\x00", END],
        ..SINGLETON
    },
    Row {
        name: "a session in singleton mode has one document: one among empty lines",
        input: &[b"start \"\" \"x\"\nclose\n\n\n"],
        output: &[CHUNKS, b"\x05\x04\x40\x01x\x01\x00", END],
        ..SINGLETON
    },
    Row {
        name: "a session in singleton mode has one document: none",
        input: &[],
        output: &[CHUNKS],
        note: "input: line 1 WrongCount\n",
        ..NOT_SINGLETON
    },
];

const LINED_4: &[Row] = &[
    Row {
        name: "a session in singleton mode has one document: none among empty lines",
        input: &[b"\n\n"],
        output: &[CHUNKS],
        note: "input: line 3 WrongCount\n",
        ..NOT_SINGLETON
    },
    Row {
        name: "a session in singleton mode has one document: a second document",
        input: &[b"start \"\" \"x\"\nclose\n\nstart \"\" \"y\"\n"],
        output: &[CHUNKS, b"\x05\x04\x40\x01x\x01\x00"],
        note: "input: line 4 WrongCount\n",
        ..NOT_SINGLETON
    },
    Row {
        name: "a session in singleton mode has one document: a second line that is none",
        input: &[b"start \"\" \"x\"\nclose\nstart \"\" y\n"],
        output: &[CHUNKS, b"\x05\x04\x40\x01x\x01\x00"],
        note: "input: line 3 NotALine\n",
        ..NOT_SINGLETON
    },
    Row {
        name: "a call is built of what is dumped",
        input: &[LINES],
        pieces: &[(65_536, 0), (7, 0), (1, 0)],
        output: ONE_CALL,
        ..BUILD
    },
    Row {
        name: "two calls are built of what is dumped",
        input: &[LINES, LINES],
        pieces: &[(65_536, 0), (7, 0), (1, 0)],
        output: TWO_CALLS,
        ..BUILD
    },
    Row {
        name: "calls are built with empty lines between",
        input: &[b"\n\n", LINES, b"\n\n\n", LINES],
        pieces: WHOLE,
        output: TWO_CALLS,
        ..BUILD
    },
];

const UNFITTING: &[Row] = &[
    Row {
        name: "what does not fit is named: a depth",
        options: "--depth=4",
        input: &[
            X, START, START, START, START, START, CLOSE, CLOSE, CLOSE, CLOSE, CLOSE,
        ],
        output: &[PREAMBLE, FIRST],
        note: "document 1 does not fit: depth 5\n",
        ..UNFIT
    },
    Row {
        name: "what does not fit is named: a QName",
        options: "--dictionary=1",
        input: &[b"start \"\" \"x\"\ntext qname a \"y\"\nclose\n"],
        note: "document 0 does not fit: qname at item 1\n",
        ..UNFIT
    },
    Row {
        name: "a line of a megabyte is read: its content does not fit",
        words: BUILD_TWO,
        input: &[b"start \"\" \"x\"\ntext string \"", LONG, b"\"\nclose\n"],
        long: (1_048_576, b"y"),
        note: "document 0 does not fit: content 1048577\n",
        ..UNFIT
    },
    Row {
        name: "a line of a megabyte is read: its payload does not fit",
        options: "--payload=1048576",
        input: &[b"start \"\" \"x\"\ntext string \"", LONG, b"\"\nclose\n"],
        long: (1_048_576, b"y"),
        note: "document 0 does not fit: payload 1048586\n",
        ..UNFIT
    },
    Row {
        name: "input is as long as the session quota of 20",
        words: BUILD_ONE,
        options: "--session=20",
        pieces: ANY,
        ..BUILD
    },
    Row {
        name: "input is as long as the session quota of 19: its document is written first",
        words: BUILD_ONE,
        options: "--session=19",
        pieces: ANY,
        status: 10,
        output: &[PREAMBLE, FIRST],
        note: "input too long\n",
        ..BUILD
    },
];

const UNFITTING_2: &[Row] = &[
    Row {
        name: "input is as long as the session quota of 18",
        words: BUILD_ONE,
        options: "--session=18",
        pieces: &[(65_536, 0), (1, 1)],
        status: 10,
        output: &[PREAMBLE],
        note: "input too long\n",
        ..BUILD
    },
    Row {
        name: "input is as long as the session quota of 1",
        words: BUILD_ONE,
        options: "--session=1",
        pieces: &[(65_536, 0), (1, 18)],
        status: 10,
        output: &[PREAMBLE],
        note: "input too long\n",
        ..BUILD
    },
    Row {
        name: "a fault leaves the envelopes before: a take in the second document",
        input: &[X, X],
        pieces: &[(19, 19)],
        take: Some(1),
        status: 3,
        output: &[PREAMBLE, FIRST],
        note: "read fault\n",
        ..BUILD
    },
    Row {
        name: "a fault leaves the envelopes before: a take at the end",
        input: &[X, X],
        pieces: WHOLE,
        take: Some(1),
        status: 3,
        output: &[PREAMBLE, FIRST, NEXT],
        note: "read fault\n",
        ..BUILD
    },
    Row {
        name: "a fault leaves the envelopes before: a put of the first envelope",
        input: &[X, X],
        pieces: &[(19, 19)],
        put: Some(1),
        kept: 3,
        status: 4,
        output: &[PREAMBLE, b"\x06\x06\x02"],
        note: "write fault\n",
        ..BUILD
    },
    Row {
        name: "a fault leaves the envelopes before: the first put",
        input: &[X, X],
        pieces: &[(65_536, 38)],
        put: Some(0),
        kept: 2,
        status: 4,
        output: &[b"\x00\x01"],
        note: "write fault\n",
        ..BUILD
    },
    Row {
        name: "the preamble is written before the first line is read",
        pieces: &[(65_536, 19)],
        take: Some(0),
        status: 3,
        output: &[PREAMBLE],
        note: "read fault\n",
        ..BUILD
    },
];

fn lined_rows() -> &'static [Row] {
    LINED
}

fn lined_rows_2() -> &'static [Row] {
    LINED_2
}

fn lined_rows_3() -> &'static [Row] {
    LINED_3
}

fn lined_rows_4() -> &'static [Row] {
    LINED_4
}

fn unfitting_rows() -> &'static [Row] {
    UNFITTING
}

fn unfitting_rows_2() -> &'static [Row] {
    UNFITTING_2
}

pub fn assert_all(
    rt: &(impl Abort + AllocGlobal + Threads + Wait + Sync),
) -> Result<(), AllocError> {
    assert_rows(rt, lined_rows())?;
    assert_rows(rt, lined_rows_2())?;
    assert_rows(rt, lined_rows_3())?;
    assert_rows(rt, lined_rows_4())?;
    assert_rows(rt, unfitting_rows())?;
    assert_rows(rt, unfitting_rows_2())
}
