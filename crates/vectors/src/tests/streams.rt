// Sessions and streams that are cut or refused, in any pieces.
use super::*;

const PIECES: &[(usize, usize)] = &[(65_536, 0), (61, 0), (7, 0), (1, 0)];

const FIRST: &[u8] = b"message 0 payload 60 items 18 depth 3 content 165 strings 1 used 1\n";

const SECOND: &[u8] = b"message 1 payload 58 items 18 depth 3 content 165 strings 1 used 1\n";

// Calls, documents and quotas.
const CALLS: &[Row] = &[
    Row {
        name: "one call is reported in any pieces",
        input: ONE_CALL,
        pieces: PIECES,
        output: &[OPEN, FIRST, b"ended 86\n"],
        ..CHECK
    },
    Row {
        name: "two calls are reported in any pieces",
        input: TWO_CALLS,
        pieces: PIECES,
        output: &[OPEN, FIRST, SECOND, b"ended 146\n"],
        ..CHECK
    },
    Row {
        name: "one document is dumped in any pieces",
        words: DUMP_ONE,
        input: ONE_CALL,
        pieces: PIECES,
        output: &[OPEN, FIRST, LINES, b"ended 86\n"],
        ..CHECK
    },
    Row {
        name: "two documents are dumped in any pieces",
        words: DUMP_ONE,
        input: TWO_CALLS,
        pieces: PIECES,
        output: &[OPEN, FIRST, LINES, SECOND, LINES, b"ended 146\n"],
        ..CHECK
    },
    Row {
        name: "a dump that is broken off by a take keeps the document before",
        words: DUMP,
        input: TWO_CALLS,
        pieces: &[(85, 61)],
        take: Some(1),
        output: &[OPEN, FIRST, LINES],
        ..READ_FAULT
    },
];

const CALLS_2: &[Row] = &[
    Row {
        name: "a dump that is broken off by a put keeps the document before",
        words: DUMP,
        input: TWO_CALLS,
        pieces: &[(85, 0)],
        put: Some(1),
        kept: 7,
        output: &[OPEN, FIRST, LINES, b"message"],
        ..WRITE_FAULT
    },
    Row {
        name: "documents before an offence are dumped",
        words: DUMP,
        input: &[
            PLAIN_PREAMBLE,
            b"\x06\x06\x40\x01x\x99\x01y\x06\x03\x40\x01\xFF",
        ],
        pieces: WHOLE,
        output: &[
            PLAIN_OPEN,
            b"message 0 payload 6 items 3 depth 1 content 2 strings 0 used 0\n",
            b"start \"\" \"x\"\n",
            b"text string \"y\"\n",
            b"close\n",
            b"offence payload 1 0 13 BadUtf8\n",
        ],
        ..REFUSED
    },
    Row {
        name: "quotas are set by words: a session beyond its quota",
        words: "nettcp check --session 23 --static S",
        pieces: WHOLE,
        status: 10,
        output: &[OPEN, b"offence frame 23 25 SessionTooLong\n"],
        ..REFUSED
    },
    Row {
        name: "quotas are set by words: a session at its quota",
        words: "nettcp check --session=24 --static=S",
        pieces: WHOLE,
        ..CHECK
    },
    Row {
        name: "quotas are set by words: a payload of which nothing came",
        words: DUMP,
        options: "--payload 65537",
        input: &[TOO_LARGE],
        pieces: WHOLE,
        output: &[OPEN, b"offence frame 23 24 Truncated\n"],
        ..REFUSED
    },
    Row {
        name: "the first word is not judged",
        words: " check --static S",
        pieces: WHOLE,
        ..CHECK
    },
];

// Streams in one piece and byte by byte.
const STREAMS: &[Row] = &[
    Row {
        name: "a session of no documents",
        input: &[SESSION],
        output: &[OPEN, b"ended 24\n"],
        ..CHECK
    },
    Row {
        name: "no bytes",
        input: &[],
        output: &[b"offence frame 0 24 Truncated\n"],
        ..REFUSED
    },
    Row {
        name: "one envelope",
        input: &[ONE_ENVELOPE],
        output: &[
            OPEN,
            b"message 0 payload 6 items 2 depth 1 content 1 strings 1 used 1\n",
            b"ended 32\n",
        ],
        ..CHECK
    },
    Row {
        name: "a message beyond the payload quota",
        input: &[TOO_LARGE],
        output: &[OPEN, b"offence frame 23 11 MessageTooLarge\n"],
        ..REFUSED
    },
    Row {
        name: "a mode that is none",
        input: &[BAD_MODE],
        output: &[b"offence frame 3 5 BadMode\n"],
        ..REFUSED
    },
    Row {
        name: "a preamble alone",
        input: &[PREAMBLE],
        output: &[OPEN, b"offence frame 23 24 Truncated\n"],
        ..REFUSED
    },
];

const STREAMS_2: &[Row] = &[
    Row {
        name: "an upgrade where the preamble would end",
        input: &[b"\x00\x01\x00\x01\x02\x02\x0Dnet.tcp://h/e\x03\x08\x09"],
        output: &[b"offence frame 22 10 UpgradeRefused\n"],
        ..REFUSED
    },
    Row {
        name: "a Via with letters that are escaped",
        input: &[b"\x00\x01\x00\x01\x02\x02\x05a\"\\\xC3\xA9\x03\x07\x0C\x07"],
        output: &[b"open duplex 7 \"a\\22\\5c\\c3\\a9\"\nended 16\n"],
        ..CHECK
    },
    Row {
        name: "a node that is none",
        input: &[PREAMBLE, b"\x06\x10\x00\x40\x01x\x7F"],
        output: &[OPEN, b"offence payload 0 4 15 UnknownNode\n"],
        ..REFUSED
    },
    Row {
        name: "an input that ends within a payload",
        input: &[PREAMBLE, b"\x06\x10\x00\x40\x01x"],
        output: &[OPEN, b"offence frame 23 24 Truncated\n"],
        ..REFUSED
    },
    Row {
        name: "a payload of no bytes",
        input: &[PREAMBLE, b"\x06\x00"],
        output: &[OPEN, b"offence payload 0 0 22 DocumentCut\n"],
        ..REFUSED
    },
];

fn calls_rows() -> &'static [Row] {
    CALLS
}

fn calls_rows_2() -> &'static [Row] {
    CALLS_2
}

fn streams_rows() -> &'static [Row] {
    STREAMS
}

fn streams_rows_2() -> &'static [Row] {
    STREAMS_2
}

pub fn assert_all(
    rt: &(impl Abort + AllocGlobal + Threads + Wait + Sync),
) -> Result<(), AllocError> {
    assert_rows(rt, calls_rows())?;
    assert_rows(rt, calls_rows_2())?;
    assert_rows(rt, streams_rows())?;
    assert_rows(rt, streams_rows_2())
}
