// Worked documents, and the session that `build` writes of them.
use super::building::{BUILD, BUILD_ONE, BUILD_TWO, CLOSE, FIRST, NEXT, NOT_LINES, START, UNFIT};
use super::*;

const ONE: Row = Row {
    words: BUILD_ONE,
    pieces: WHOLE,
    ..BUILD
};

// A document with a long text.
const LONG_TEXT: Parts = &[b"start \"\" \"x\"\ntext string \"", LONG, b"\"\nclose\n"];

const EIGHT_STARTS: &[u8] =
    b"start \"\" \"x\"\nstart \"\" \"x\"\nstart \"\" \"x\"\nstart \"\" \"x\"\n\
start \"\" \"x\"\nstart \"\" \"x\"\nstart \"\" \"x\"\nstart \"\" \"x\"\n";

const EIGHT_ENDS: &[u8] = b"close\nclose\nclose\nclose\nclose\nclose\nclose\nclose\n";

const BUILDS: &[Row] = &[
    Row {
        name: "texts on each side of a wider length: no letters",
        options: "--payload=131072",
        input: LONG_TEXT,
        long: NO_TEXT,
        output: &[PREAMBLE, b"\x06\x06\x02\x01xB\x01\xA9", LONG, END],
        ..ONE
    },
    Row {
        name: "texts on each side of a wider length: 255 letters",
        options: "--payload=131072",
        input: LONG_TEXT,
        long: (255, b"z"),
        output: &[PREAMBLE, b"\x06\x86\x02\x02\x01xB\x01\x99\xFF", LONG, END],
        ..ONE
    },
    Row {
        name: "texts on each side of a wider length: 256 letters",
        options: "--payload=131072",
        input: LONG_TEXT,
        long: (256, b"z"),
        output: &[
            PREAMBLE,
            b"\x06\x88\x02\x02\x01xB\x01\x9B\x00\x01",
            LONG,
            END,
        ],
        ..ONE
    },
    Row {
        name: "texts on each side of a wider length: 65,536 letters",
        options: "--payload=131072",
        input: LONG_TEXT,
        long: (65_536, b"z"),
        output: &[
            PREAMBLE,
            b"\x06\x8A\x80\x04\x02\x01xB\x01\x9D\x00\x00\x01\x00",
            LONG,
            END,
        ],
        ..ONE
    },
    Row {
        name: "documents beyond a quota: a payload",
        options: "--payload=4096",
        input: &[b"start \"\" \"big\"\ntext string \"", LONG, b"\"\nclose\n"],
        long: (5_000, b"y"),
        note: "document 0 does not fit: payload 5010\n",
        ..UNFIT
    },
];

const BUILDS_2: &[Row] = &[
    Row {
        name: "documents within a quota: a payload",
        options: "--payload=4096",
        ..ONE
    },
    Row {
        name: "documents beyond a quota: a depth",
        words: BUILD_TWO,
        input: &[
            EIGHT_STARTS,
            EIGHT_STARTS,
            EIGHT_STARTS,
            EIGHT_STARTS,
            START,
            EIGHT_ENDS,
            EIGHT_ENDS,
            EIGHT_ENDS,
            EIGHT_ENDS,
            CLOSE,
        ],
        note: "document 0 does not fit: depth 33\n",
        ..UNFIT
    },
    Row {
        name: "a session in simplex mode",
        options: "--mode=simplex",
        input: &[X, X],
        pieces: ANY,
        output: &[
            b"\x00\x01\x00\x01\x03\x02\x0Dnet.tcp://h/e\x03\x08\x0C",
            FIRST,
            NEXT,
            END,
        ],
        ..ONE
    },
    Row {
        name: "an attribute after a text",
        input: &[
            START,
            b"attr \"\" \"k\" number 1\n",
            b"text number 1\n",
            b"attr \"\" \"k\" number 1\n",
            CLOSE,
        ],
        pieces: WHOLE,
        note: "input: line 4 OutOfPlace\n",
        ..NOT_LINES
    },
    Row {
        name: "a second document in singleton mode is refused at its first line",
        words: BUILD_ONE,
        options: "--mode=singleton",
        input: &[LINES, LINES],
        pieces: WHOLE,
        output: &[
            b"\x00\x01\x00\x01\x01\x02\x0Dnet.tcp://h/e\x03\x08\x0C\x05\x3C\x02\x01x",
            DOCUMENT,
            b"\x00",
        ],
        note: "input: line 19 WrongCount\n",
        ..NOT_LINES
    },
];

fn builds_rows() -> &'static [Row] {
    BUILDS
}

fn builds_rows_2() -> &'static [Row] {
    BUILDS_2
}

pub fn assert_all(
    rt: &(impl Abort + AllocGlobal + Threads + Wait + Sync),
) -> Result<(), AllocError> {
    assert_rows(rt, builds_rows())?;
    assert_rows(rt, builds_rows_2())
}
