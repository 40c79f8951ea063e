// Each front of a session, and each of its takes and puts that fails in turn.
use super::*;

// A record of two calls: where it begins, the line that is due from there on, and the refusal of
// what ends before the next one begins.
struct Begun {
    at: usize,
    line: &'static [u8],
    refusal: &'static [u8],
}

const FIRST_CALL: &[u8] = b"message 0 payload 60 items 18 depth 3 content 165 strings 1 used 1\n";

const SECOND_CALL: &[u8] = b"message 1 payload 58 items 18 depth 3 content 165 strings 1 used 1\n";

const RECORDS: &[Begun] = &[
    Begun {
        at: 0,
        line: b"",
        refusal: b"offence frame 0 24 Truncated\n",
    },
    Begun {
        at: 3,
        line: b"",
        refusal: b"offence frame 3 24 Truncated\n",
    },
    Begun {
        at: 5,
        line: b"",
        refusal: b"offence frame 5 24 Truncated\n",
    },
    Begun {
        at: 20,
        line: b"",
        refusal: b"offence frame 20 24 Truncated\n",
    },
    Begun {
        at: 22,
        line: b"",
        refusal: b"offence frame 22 24 Truncated\n",
    },
    Begun {
        at: 23,
        line: OPEN,
        refusal: b"offence frame 23 24 Truncated\n",
    },
    Begun {
        at: 85,
        line: FIRST_CALL,
        refusal: b"offence frame 85 24 Truncated\n",
    },
    Begun {
        at: 145,
        line: SECOND_CALL,
        refusal: b"offence frame 145 24 Truncated\n",
    },
];

// What is due of so many bytes of two calls: the lines of what is whole, and the refusal.
fn due_of(alloc: Global, taken: usize) -> Result<(Vec<u8>, &'static [u8]), AllocError> {
    let mut lines = Vec::new(alloc);
    let mut refusal: &'static [u8] = b"";
    for record in RECORDS {
        if record.at <= taken {
            lines.extend_from_slice(record.line)?;
            refusal = record.refusal;
        }
    }
    Ok((lines, refusal))
}

const CUT: Row = Row {
    name: "the first bytes of two calls",
    ..REFUSED
};

const UNREAD_BYTE: Row = Row {
    name: "a take of two calls fails",
    ..READ_FAULT
};

fn assert_fronts(
    rt: &(impl Abort + AllocGlobal + Threads + Wait + Sync),
    words: &[String],
    session: &[u8],
) -> Result<(), AllocError> {
    for taken in 0..session.len() {
        let (mut due, refusal) = due_of(rt.alloc(), taken)?;
        due.extend_from_slice(refusal)?;
        let front = session.get(..taken).unwrap_or(b"");
        assert_left(rt, &CUT, words, front, &due, (65_536, 0))?;
    }
    Ok(())
}

fn assert_takes(
    rt: &(impl Abort + AllocGlobal + Threads + Wait + Sync),
    words: &[String],
    session: &[u8],
) -> Result<(), AllocError> {
    for taken in 0..session.len() {
        let (due, _) = due_of(rt.alloc(), taken)?;
        let row = Row {
            take: Some(taken as u64),
            ..UNREAD_BYTE
        };
        assert_left(rt, &row, words, session, &due, (1, session.len() - taken))?;
    }
    Ok(())
}

// The report of two calls that come byte by byte: each line is put before the next take.
const UNPUT: Row = Row {
    name: "a put of the report of two calls fails: the first line's",
    input: TWO_CALLS,
    pieces: &[(1, 123)],
    output: &[],
    ..WRITE_FAULT
};

const PUTS: &[Row] = &[
    UNPUT,
    Row {
        name: "a put of the report of two calls fails: a message's",
        put: Some(1),
        pieces: &[(1, 61)],
        output: &[OPEN],
        ..UNPUT
    },
    Row {
        name: "a put of the report of two calls fails: the next message's",
        put: Some(2),
        pieces: &[(1, 1)],
        output: &[OPEN, FIRST_CALL],
        ..UNPUT
    },
    Row {
        name: "a put of the report of two calls fails: the last line's",
        put: Some(3),
        pieces: &[(1, 0)],
        output: &[OPEN, FIRST_CALL, SECOND_CALL],
        ..UNPUT
    },
    Row {
        name: "a put of the report of two calls fails: there is no such put",
        put: Some(4),
        pieces: &[(1, 0)],
        status: 0,
        output: &[OPEN, FIRST_CALL, SECOND_CALL, b"ended 146\n"],
        note: "",
        ..UNPUT
    },
    Row {
        name: "a text is longer than its payload, of which no more comes",
        input: &[
            PREAMBLE,
            b"\x06\x80\x80\x04\x00\x40\x01x\x9C\xFF\xFF\xFF\x7F",
        ],
        output: &[OPEN, b"offence frame 23 24 Truncated\n"],
        ..REFUSED
    },
];

fn puts_rows() -> &'static [Row] {
    PUTS
}

pub fn assert_all(
    rt: &(impl Abort + AllocGlobal + Threads + Wait + Sync),
) -> Result<(), AllocError> {
    let alloc = rt.alloc();
    let words = listed(alloc, CHECK_ONE, "")?;
    let session = joined(alloc, TWO_CALLS, NO_TEXT)?;
    assert_fronts(rt, &words, &session)?;
    assert_takes(rt, &words, &session)?;
    assert_rows(rt, puts_rows())
}
