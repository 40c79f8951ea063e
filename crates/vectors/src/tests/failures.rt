// Takes, puts and fetches that fail: what was written before, and how the run ends.
use super::*;

const UNREAD_FILE: Row = Row {
    pieces: UNREAD,
    status: 6,
    output: &[],
    ..CHECK
};

const TAKES: &[Row] = &[
    Row {
        name: "a take that fails leaves the lines before: first",
        input: &[ONE_ENVELOPE],
        pieces: &[(65_536, 32)],
        take: Some(0),
        ..READ_FAULT
    },
    Row {
        name: "a take that fails leaves the lines before: in the envelope",
        input: &[ONE_ENVELOPE],
        pieces: &[(29, 3)],
        take: Some(1),
        output: &[OPEN],
        ..READ_FAULT
    },
    Row {
        name: "a take that fails leaves the lines before: behind it, in large pieces",
        input: &[ONE_ENVELOPE],
        pieces: &[(31, 1)],
        take: Some(1),
        output: &[OPEN, MESSAGE],
        ..READ_FAULT
    },
    Row {
        name: "a take that fails leaves the lines before: behind it, in small pieces",
        input: &[ONE_ENVELOPE],
        pieces: &[(1, 1)],
        take: Some(31),
        output: &[OPEN, MESSAGE],
        ..READ_FAULT
    },
    Row {
        name: "a take that fails leaves the lines before: behind the session's end",
        input: &[ONE_ENVELOPE],
        pieces: &[(65_536, 0)],
        take: Some(1),
        output: &[OPEN, MESSAGE, b"ended 32\n"],
        ..CHECK
    },
    Row {
        name: "a take that fails is no end of input: behind a preamble, in large pieces",
        input: &[PREAMBLE],
        pieces: &[(65_536, 0)],
        take: Some(1),
        output: &[OPEN],
        ..READ_FAULT
    },
];

const TAKES_2: &[Row] = &[
    Row {
        name: "a take that fails is no end of input: behind a preamble, in small pieces",
        input: &[PREAMBLE],
        pieces: &[(1, 0)],
        take: Some(23),
        output: &[OPEN],
        ..READ_FAULT
    },
    Row {
        name: "a take that fails is no end of input: first",
        input: &[],
        pieces: &[(65_536, 0)],
        take: Some(0),
        ..READ_FAULT
    },
    Row {
        name: "a take that fails is no end of input: within a record",
        input: &[SESSION],
        pieces: &[(10, 14)],
        take: Some(1),
        ..READ_FAULT
    },
    Row {
        name: "a take that fails is no end of input: behind a refusal",
        input: &[BAD_MODE],
        pieces: &[(65_536, 0)],
        take: Some(1),
        output: &[b"offence frame 3 5 BadMode\n"],
        ..REFUSED
    },
    Row {
        name: "a take at the end is asked once",
        input: &[PREAMBLE],
        pieces: WHOLE,
        take: Some(2),
        output: &[OPEN, b"offence frame 23 24 Truncated\n"],
        ..REFUSED
    },
    Row {
        name: "a file is fetched once",
        fetch: Some(1),
        pieces: WHOLE,
        ..CHECK
    },
];

// The lines of what came in one piece go by one put.
const PUTS: &[Row] = &[
    Row {
        name: "a put that fails ends the run: nothing is kept",
        kept: 0,
        output: &[],
        ..WRITE_FAULT
    },
    Row {
        name: "a put that fails ends the run: the first word",
        kept: 4,
        output: &[b"open"],
        ..WRITE_FAULT
    },
    Row {
        name: "a put that fails ends the run: the first line",
        kept: 30,
        output: &[OPEN],
        ..WRITE_FAULT
    },
    Row {
        name: "a put that fails ends the run: all lines",
        kept: 99,
        output: &[OPEN, b"ended 24\n"],
        ..WRITE_FAULT
    },
    Row {
        name: "a put that fails ends the run: within the next line",
        input: &[ONE_ENVELOPE],
        kept: 39,
        output: &[OPEN, b"message 0"],
        ..WRITE_FAULT
    },
    Row {
        name: "a put that fails ends the run: within a refusal",
        input: &[TOO_LARGE],
        kept: 46,
        output: &[OPEN, b"offence frame 23"],
        ..WRITE_FAULT
    },
];

const PUTS_2: &[Row] = &[
    Row {
        name: "a put that fails ends the run: within the only line",
        input: &[],
        kept: 7,
        output: &[b"offence"],
        ..WRITE_FAULT
    },
    Row {
        name: "a put comes before the next take",
        input: &[ONE_ENVELOPE],
        pieces: &[(23, 9)],
        output: &[],
        ..WRITE_FAULT
    },
    Row {
        name: "a note that words are not understood fails and nothing is kept: no other status",
        words: "nettcp build --static S",
        noted: Some(0),
        note: "",
        ..REFUSED_WORDS
    },
    Row {
        name: "a note that words are not understood fails and its front is kept: no other status",
        words: "nettcp build --static S",
        noted: Some(5),
        note: "words",
        ..REFUSED_WORDS
    },
    Row {
        name: "a note that words are not understood fails and all is kept: no other status",
        words: "nettcp build --static S",
        noted: Some(99),
        ..REFUSED_WORDS
    },
    Row {
        name: "a note of a failing take fails and nothing is kept: no other status",
        pieces: UNREAD,
        take: Some(0),
        noted: Some(0),
        note: "",
        ..READ_FAULT
    },
    Row {
        name: "a note of a failing take fails and its front is kept: no other status",
        pieces: UNREAD,
        take: Some(0),
        noted: Some(5),
        note: "read ",
        ..READ_FAULT
    },
];

const PUTS_3: &[Row] = &[
    Row {
        name: "a note of a failing take fails and all is kept: no other status",
        pieces: UNREAD,
        take: Some(0),
        noted: Some(99),
        ..READ_FAULT
    },
    Row {
        name: "a note of a failing put fails and nothing is kept: no other status",
        noted: Some(0),
        output: &[],
        note: "",
        ..WRITE_FAULT
    },
    Row {
        name: "a note of a failing put fails and its front is kept: no other status",
        noted: Some(5),
        output: &[],
        note: "write",
        ..WRITE_FAULT
    },
    Row {
        name: "a note of a failing put fails and all is kept: no other status",
        noted: Some(99),
        output: &[],
        ..WRITE_FAULT
    },
    Row {
        name: "a note that is not put fails and nothing is kept: no other status",
        pieces: WHOLE,
        noted: Some(0),
        ..CHECK
    },
    Row {
        name: "a note that is not put fails and its front is kept: no other status",
        pieces: WHOLE,
        noted: Some(5),
        ..CHECK
    },
    Row {
        name: "a note that is not put fails and all is kept: no other status",
        pieces: WHOLE,
        noted: Some(99),
        ..CHECK
    },
];

const FILES: &[Row] = &[
    Row {
        name: "a file without a table takes nothing: no such file",
        words: "nettcp check --static T",
        note: "T: not found\n",
        ..UNREAD_FILE
    },
    Row {
        name: "a file without a table takes nothing: a name in other letters",
        words: "nettcp check --static s",
        note: "s: not found\n",
        ..UNREAD_FILE
    },
    Row {
        name: "a file without a table takes nothing: no rows",
        files: &[("S", b"")],
        note: "S: row 0 Header\n",
        ..UNREAD_FILE
    },
    Row {
        name: "a file without a table takes nothing: another header",
        files: &[("S", b"id,text\n0,a\n")],
        note: "S: row 0 Header\n",
        ..UNREAD_FILE
    },
    Row {
        name: "a file without a table takes nothing: a row of three fields",
        files: &[("S", b"id,string\n0,a,b\n")],
        note: "S: row 1 Fields\n",
        ..UNREAD_FILE
    },
];

const FILES_2: &[Row] = &[
    Row {
        name: "a file without a table takes nothing: a text that is not UTF-8",
        files: &[("S", b"id,string\n0,\xFF\n")],
        note: "S: row 1 NotUtf8\n",
        ..UNREAD_FILE
    },
    Row {
        name: "a file without a table takes nothing: a number with a zero before",
        files: &[("S", b"id,string\n0,a\n02,b\n")],
        note: "S: row 2 NotANumber\n",
        ..UNREAD_FILE
    },
    Row {
        name: "a file without a table takes nothing: an odd number",
        files: &[("S", b"id,string\n1,x\n")],
        note: "S: row 1 Odd\n",
        ..UNREAD_FILE
    },
    Row {
        name: "a file without a table takes nothing: a number that is repeated",
        files: &[("S", b"id,string\n0,a\n2,b\n0,c\n")],
        note: "S: row 3 Repeated\n",
        ..UNREAD_FILE
    },
    Row {
        name: "a file without a table takes nothing: a fetch that fails",
        fetch: Some(0),
        status: 3,
        note: "read fault\n",
        ..UNREAD_FILE
    },
];

fn takes_rows() -> &'static [Row] {
    TAKES
}

fn takes_rows_2() -> &'static [Row] {
    TAKES_2
}

fn puts_rows() -> &'static [Row] {
    PUTS
}

fn puts_rows_2() -> &'static [Row] {
    PUTS_2
}

fn puts_rows_3() -> &'static [Row] {
    PUTS_3
}

fn files_rows() -> &'static [Row] {
    FILES
}

fn files_rows_2() -> &'static [Row] {
    FILES_2
}

pub fn assert_all(
    rt: &(impl Abort + AllocGlobal + Threads + Wait + Sync),
) -> Result<(), AllocError> {
    assert_rows(rt, takes_rows())?;
    assert_rows(rt, takes_rows_2())?;
    assert_rows(rt, puts_rows())?;
    assert_rows(rt, puts_rows_2())?;
    assert_rows(rt, puts_rows_3())?;
    assert_rows(rt, files_rows())?;
    assert_rows(rt, files_rows_2())
}
