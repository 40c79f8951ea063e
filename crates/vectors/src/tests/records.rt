// Each refusal in a record under its own name, and the bytes at which it comes.
use super::*;

// What stands behind the bytes that are refused, of which none are taken byte by byte.
const BEHIND: &[u8] = b"\x07\x07\x07\x07";

const SHOWN: Row = Row {
    pieces: &[(65_536, 0), (1, 4)],
    ..REFUSED
};

const PREAMBLES: &[Row] = &[
    Row {
        name: "preambles are refused by name: a byte of no record",
        input: &[b"\x0D", BEHIND],
        output: &[b"offence frame 0 2 UnknownRecord\n"],
        ..SHOWN
    },
    Row {
        name: "preambles are refused by name: an Ack, which is of a receiver's direction",
        input: &[b"\x0B", BEHIND],
        output: &[b"offence frame 0 3 OutOfOrder\n"],
        ..SHOWN
    },
    Row {
        name: "preambles are refused by name: an envelope, of a session that began before",
        input: &[b"\x06", BEHIND],
        output: &[b"offence frame 0 3 OutOfOrder\n"],
        ..SHOWN
    },
    Row {
        name: "preambles are refused by name: version 2.0",
        input: &[b"\x00\x02\x00", BEHIND],
        output: &[b"offence frame 0 4 BadVersion\n"],
        ..SHOWN
    },
    Row {
        name: "preambles are refused by name: version 1.1",
        input: &[b"\x00\x01\x01", BEHIND],
        output: &[b"offence frame 0 4 BadVersion\n"],
        ..SHOWN
    },
    Row {
        name: "preambles are refused by name: a mode that is none",
        input: &[b"\x00\x01\x00\x01\x04", BEHIND],
        output: &[b"offence frame 3 5 BadMode\n"],
        ..SHOWN
    },
];

const PREAMBLES_2: &[Row] = &[
    Row {
        name: "preambles are refused by name: a Via that is too long",
        input: &[b"\x00\x01\x00\x01\x02\x02\x81\x10", BEHIND],
        output: &[b"offence frame 5 6 TextTooLong\n"],
        ..SHOWN
    },
    Row {
        name: "preambles are refused by name: a length beyond 31 bits",
        input: &[b"\x00\x01\x00\x01\x02\x02\xFF\xFF\xFF\xFF\x08", BEHIND],
        output: &[b"offence frame 5 1 BadInt\n"],
        ..SHOWN
    },
    Row {
        name: "preambles are refused by name: a Via that is not UTF-8",
        input: &[b"\x00\x01\x00\x01\x02\x02\x01\xFF", BEHIND],
        output: &[b"offence frame 5 7 TextNotUtf8\n"],
        ..SHOWN
    },
    Row {
        name: "preambles are refused by name: an encoding that is none",
        input: &[b"\x00\x01\x00\x01\x02\x02\x01a\x03\x06", BEHIND],
        output: &[b"offence frame 8 9 BadEncoding\n"],
        ..SHOWN
    },
    Row {
        name: "preambles are refused by name: a custom encoding",
        input: &[b"\x00\x01\x00\x01\x02\x02\x01a\x04\x08text/xml", BEHIND],
        output: &[b"offence frame 8 9 BadEncoding\n"],
        ..SHOWN
    },
    Row {
        name: "preambles are refused by name: an upgrade to TLS or Windows security",
        input: &[b"\x00\x01\x00\x01\x02\x02\x01a\x03\x08\x09", BEHIND],
        output: &[b"offence frame 10 10 UpgradeRefused\n"],
        ..SHOWN
    },
];

const AFTER_PREAMBLES: &[Row] = &[
    Row {
        name: "records of messages are refused by name: a byte of no record",
        input: &[PREAMBLE, b"\x0D", BEHIND],
        output: &[OPEN, b"offence frame 23 2 UnknownRecord\n"],
        ..SHOWN
    },
    Row {
        name: "records of messages are refused by name: a Fault, which an initiator never sends",
        input: &[PREAMBLE, b"\x08", BEHIND],
        output: &[OPEN, b"offence frame 23 3 OutOfOrder\n"],
        ..SHOWN
    },
    Row {
        name: "records of messages are refused by name: an Ack, which an initiator never sends",
        input: &[PREAMBLE, b"\x0B", BEHIND],
        output: &[OPEN, b"offence frame 23 3 OutOfOrder\n"],
        ..SHOWN
    },
    Row {
        name: "records of messages are refused by name: an unsized envelope, of singleton mode",
        input: &[PREAMBLE, b"\x05", BEHIND],
        output: &[OPEN, b"offence frame 23 3 OutOfOrder\n"],
        ..SHOWN
    },
    Row {
        name: "records of messages are refused by name: an upgrade",
        input: &[PREAMBLE, b"\x09", BEHIND],
        output: &[OPEN, b"offence frame 23 3 OutOfOrder\n"],
        ..SHOWN
    },
];

const AFTER_PREAMBLES_2: &[Row] = &[
    Row {
        name: "records of messages are refused by name: a length beyond 31 bits",
        input: &[PREAMBLE, b"\x06\xFF\xFF\xFF\xFF\x08", BEHIND],
        output: &[OPEN, b"offence frame 23 1 BadInt\n"],
        ..SHOWN
    },
    Row {
        name: "records of replies are refused by name: a byte of no record",
        words: CHECK_ONE,
        options: "--replies=duplex --encoding=7",
        input: &[b"\x0D", BEHIND],
        output: &[b"offence frame 0 2 UnknownRecord\n"],
        ..SHOWN
    },
    Row {
        name: "records of replies are refused by name: a version, of an initiator's direction",
        words: CHECK_ONE,
        options: "--replies=duplex --encoding=7",
        input: &[b"\x00", BEHIND],
        output: &[b"offence frame 0 3 OutOfOrder\n"],
        ..SHOWN
    },
    Row {
        name: "records of replies are refused by name: an End before the Ack",
        words: CHECK_ONE,
        options: "--replies=simplex --encoding=7",
        input: &[b"\x07", BEHIND],
        output: &[b"offence frame 0 3 OutOfOrder\n"],
        ..SHOWN
    },
    Row {
        name: "records of replies are refused by name: a text that is too long",
        words: CHECK_ONE,
        options: "--replies=duplex --encoding=7",
        input: &[b"\x08\x81\x10", BEHIND],
        output: &[b"offence frame 0 6 TextTooLong\n"],
        ..SHOWN
    },
];

const AFTER_PREAMBLES_3: &[Row] = &[
    Row {
        name: "records of replies are refused by name: a text that is not UTF-8",
        words: CHECK_ONE,
        options: "--replies=singleton --encoding=7",
        input: &[b"\x08\x01\xFF", BEHIND],
        output: &[b"offence frame 0 7 TextNotUtf8\n"],
        ..SHOWN
    },
    Row {
        name: "records of replies are refused by name: an unsized envelope in duplex mode",
        words: CHECK_ONE,
        options: "--replies=duplex --encoding=7",
        input: &[b"\x0B\x05", BEHIND],
        output: &[b"accepted\noffence frame 1 3 OutOfOrder\n"],
        ..SHOWN
    },
    Row {
        name: "records of replies are refused by name: a message in simplex mode",
        words: CHECK_ONE,
        options: "--replies=simplex --encoding=7",
        input: &[b"\x0B\x06", BEHIND],
        output: &[b"accepted\noffence frame 1 3 OutOfOrder\n"],
        ..SHOWN
    },
    Row {
        name: "records of replies are refused by name: a sized envelope in singleton mode",
        words: CHECK_ONE,
        options: "--replies=singleton --encoding=7",
        input: &[b"\x0B\x06", BEHIND],
        output: &[b"accepted\noffence frame 1 3 OutOfOrder\n"],
        ..SHOWN
    },
    Row {
        name: "records of replies are refused by name: a length beyond 31 bits",
        words: CHECK_ONE,
        options: "--replies=singleton --encoding=7",
        input: &[b"\x0B\x05\xFF\xFF\xFF\xFF\x08", BEHIND],
        output: &[b"accepted\noffence frame 2 1 BadInt\n"],
        ..SHOWN
    },
];

fn preambles_rows() -> &'static [Row] {
    PREAMBLES
}

fn preambles_rows_2() -> &'static [Row] {
    PREAMBLES_2
}

fn after_preambles_rows() -> &'static [Row] {
    AFTER_PREAMBLES
}

fn after_preambles_rows_2() -> &'static [Row] {
    AFTER_PREAMBLES_2
}

fn after_preambles_rows_3() -> &'static [Row] {
    AFTER_PREAMBLES_3
}

pub fn assert_all(
    rt: &(impl Abort + AllocGlobal + Threads + Wait + Sync),
) -> Result<(), AllocError> {
    assert_rows(rt, preambles_rows())?;
    assert_rows(rt, preambles_rows_2())?;
    assert_rows(rt, after_preambles_rows())?;
    assert_rows(rt, after_preambles_rows_2())?;
    assert_rows(rt, after_preambles_rows_3())
}
