// A peer that is called over a wire in memory.
use super::building::{CLOSE, FIRST, NEXT, START};
use super::replays::ONE_ANSWER;
use super::*;

// A peer that takes the session of one element, and one that is never called.
const CALLED: Peer = Peer {
    sends: &[ACK, END],
    read: None,
    write: None,
    got: Some(&[ONE_ENVELOPE]),
};

const UNASKED: Peer = Peer {
    got: None,
    ..CALLED
};

// A put that fails keeps three bytes.
pub const CALL_ONE: Row = Row {
    words: "nettcp call --static=S --connect=h:808 --via=net.tcp://h/e",
    options: "--depth=4",
    files: &[("T", X)],
    input: &[X],
    pieces: WHOLE,
    kept: 3,
    peers: &[CALLED],
    output: &[b"accepted\nended 2\n", b"sent 1 tags a\n"],
    ..CHECK
};

const UNSENT: Row = Row {
    peers: &[UNASKED],
    output: &[],
    ..CALL_ONE
};

// The preambles in the other modes.
const ONE_WAY: &[u8] = b"\x00\x01\x00\x01\x03\x02\x0Dnet.tcp://h/e\x03\x08\x0C";

const CHUNKS: &[u8] = b"\x00\x01\x00\x01\x01\x02\x0Dnet.tcp://h/e\x03\x08\x0C";

const SIX_CALLS: Parts = &[
    PREAMBLE, CALL, DOCUMENT, NEXT_CALL, DOCUMENT, NEXT_CALL, DOCUMENT, NEXT_CALL, DOCUMENT,
    NEXT_CALL, DOCUMENT, NEXT_CALL, DOCUMENT, END,
];

// The report of the answer to a call, and what was sent.
const ANSWERED: &[u8] = b"accepted\n\
message 0 payload 68 items 18 depth 3 content 173 strings 1 used 1\n\
start \"s\" \"Envelope\"\n\
ns \"s\" \"http://www.w3.org/2003/05/soap-envelope\"\n\
ns \"a\" \"http://www.w3.org/2005/08/addressing\"\n\
start \"s\" \"Header\"\n\
start \"a\" \"Action\"\n\
attr \"s\" \"mustUnderstand\" number 1\n\
text string \"urn:echoResponse\"\n\
close\n\
start \"a\" \"RelatesTo\"\n\
text id 00112233-4455-6677-8899-aabbccddeeff\n\
close\n\
close\n\
start \"s\" \"Body\"\n\
start \"\" \"x\"\n\
text string \"hi\"\n\
close\n\
close\n\
close\n\
ended 72\n\
sent 1 tags a\n";

const STATUSES: &[Row] = &[
    Row {
        name: "each status of a call has its cause: a session that is answered",
        ..CALL_ONE
    },
    Row {
        name: "each status of a call has its cause: an offence of the peer",
        peers: &[Peer {
            sends: &[b"\x0B\x0B"],
            ..CALLED
        }],
        status: 1,
        output: &[b"accepted\noffence frame 1 3 OutOfOrder\nsent 1 tags a\n"],
        ..CALL_ONE
    },
    Row {
        name: "each status of a call has its cause: words that are not understood",
        options: "--mode=none",
        pieces: &[(65_536, 19)],
        status: 2,
        note: "words not understood\n",
        ..UNSENT
    },
    Row {
        name: "each status of a call has its cause: a take that fails",
        pieces: &[(65_536, 19)],
        take: Some(0),
        status: 3,
        note: "read fault\n",
        ..UNSENT
    },
    Row {
        name: "each status of a call has its cause: a put that fails",
        put: Some(0),
        status: 4,
        output: &[b"acc"],
        note: "write fault\n",
        ..CALL_ONE
    },
    Row {
        name: "each status of a call has its cause: a line that is none",
        input: &[X, b"x\n"],
        status: 6,
        note: "input: line 3 NotALine\n",
        ..UNSENT
    },
    Row {
        name: "each status of a call has its cause: no document in singleton mode",
        options: "--mode=singleton",
        input: &[],
        status: 6,
        note: "input: line 1 WrongCount\n",
        ..UNSENT
    },
];

const STATUSES_2: &[Row] = &[
    Row {
        name: "each status of a call has its cause: a document that does not fit",
        input: &[
            X, START, START, START, START, START, CLOSE, CLOSE, CLOSE, CLOSE, CLOSE,
        ],
        peers: &[Peer {
            got: Some(&[PREAMBLE, FIRST]),
            ..CALLED
        }],
        status: 7,
        note: "document 1 does not fit: depth 5\n",
        ..CALL_ONE
    },
    Row {
        name: "a connection fails at each call: the connect",
        connect: Some(0),
        status: 8,
        note: "wire fault\n",
        ..UNSENT
    },
    Row {
        name: "a connection fails at each call: the first read",
        peers: &[Peer {
            read: Some(0),
            got: Some(&[PREAMBLE]),
            ..CALLED
        }],
        status: 8,
        output: &[b"sent 0 tags -\n"],
        note: "wire fault\n",
        ..CALL_ONE
    },
    Row {
        name: "a connection fails at each call: the first write",
        peers: &[Peer {
            write: Some(0),
            got: Some(&[b"\x00\x01\x00"]),
            ..CALLED
        }],
        status: 8,
        output: &[b"accepted\nended 2\n", b"sent 0 tags -\n"],
        note: "wire fault\n",
        ..CALL_ONE
    },
    Row {
        name: "a connection fails at each call: the second write",
        peers: &[Peer {
            write: Some(1),
            got: Some(&[PREAMBLE, b"\x06\x06\x02"]),
            ..CALLED
        }],
        status: 8,
        output: &[b"accepted\nended 2\n", b"sent 0 tags -\n"],
        note: "wire fault\n",
        ..CALL_ONE
    },
];

const STATUSES_3: &[Row] = &[
    Row {
        name: "a connection fails at each call: the second read",
        peers: &[Peer {
            sends: &[ACK],
            read: Some(1),
            ..CALLED
        }],
        status: 8,
        output: &[b"accepted\nsent 1 tags a\n"],
        note: "wire fault\n",
        ..CALL_ONE
    },
    Row {
        name: "a Fault of the peer",
        peers: &[Peer {
            sends: &[b"\x08\x02hi"],
            got: Some(&[PREAMBLE]),
            ..CALLED
        }],
        status: 9,
        output: &[b"fault 4 \"hi\"\n", b"sent 0 tags -\n"],
        ..CALL_ONE
    },
    Row {
        name: "streams beyond the session quota: the input",
        options: "--session=19",
        status: 10,
        note: "input too long\n",
        ..UNSENT
    },
    Row {
        name: "streams beyond the session quota: the peer's, and no input",
        options: "--session=1",
        input: &[],
        peers: &[Peer {
            got: Some(&[SESSION]),
            ..CALLED
        }],
        status: 10,
        output: &[
            b"accepted\noffence frame 1 25 SessionTooLong\n",
            b"sent 0 tags -\n",
        ],
        ..CALL_ONE
    },
    Row {
        name: "streams beyond the session quota: the peer's, where the input is within it",
        options: "--session=20",
        peers: &[Peer {
            sends: &[b"\x0B\x06\x26\x00\x40\x01x\x99\x20yyyyyyyyyyyyyyyy"],
            ..CALLED
        }],
        status: 10,
        output: &[
            b"accepted\noffence frame 1 25 SessionTooLong\n",
            b"sent 1 tags a\n",
        ],
        ..CALL_ONE
    },
];

const SESSIONS: &[Row] = &[
    Row {
        name: "calls in the other modes: one-way",
        options: "--mode=simplex",
        peers: &[Peer {
            got: Some(&[ONE_WAY, FIRST, END]),
            ..CALLED
        }],
        ..CALL_ONE
    },
    Row {
        name: "calls in the other modes: one-way, with a write that fails",
        options: "--mode=simplex",
        peers: &[Peer {
            write: Some(1),
            got: Some(&[ONE_WAY, b"\x06\x06\x02"]),
            ..CALLED
        }],
        status: 8,
        output: &[b"accepted\nended 2\n", b"sent 0 tags -\n"],
        note: "wire fault\n",
        ..CALL_ONE
    },
    Row {
        name: "calls in the other modes: in one chunk",
        options: "--mode=singleton",
        peers: &[Peer {
            got: Some(&[CHUNKS, b"\x05\x06\x02\x01x\x42\x01\x01\x00", END]),
            ..CALLED
        }],
        ..CALL_ONE
    },
    Row {
        name: "calls in the other modes: in one chunk, with a write that fails",
        options: "--mode=singleton",
        peers: &[Peer {
            write: Some(1),
            got: Some(&[CHUNKS, b"\x05\x06\x02"]),
            ..CALLED
        }],
        status: 8,
        output: &[b"accepted\nended 2\n", b"sent 0 tags -\n"],
        note: "wire fault\n",
        ..CALL_ONE
    },
];

const SESSIONS_2: &[Row] = &[
    Row {
        name: "lines behind a document that does not fit are read: one that is none",
        input: &[
            START, START, START, START, START, CLOSE, CLOSE, CLOSE, CLOSE, CLOSE, b"x\n",
        ],
        status: 6,
        note: "input: line 11 NotALine\n",
        ..UNSENT
    },
    Row {
        name: "lines behind a document that does not fit are read: one that fits",
        input: &[
            X, START, START, START, START, START, CLOSE, CLOSE, CLOSE, CLOSE, CLOSE, X,
        ],
        peers: &[Peer {
            got: Some(&[PREAMBLE, FIRST]),
            ..CALLED
        }],
        status: 7,
        note: "document 1 does not fit: depth 5\n",
        ..CALL_ONE
    },
    Row {
        name: "one document in all in singleton mode: one of each list",
        options: "--mode=singleton --second=T",
        status: 6,
        note: "input: line 1 WrongCount\n",
        ..UNSENT
    },
    Row {
        name: "one document in all in singleton mode: two, of which the first does not fit",
        options: "--mode=singleton",
        input: &[
            START, START, START, START, START, CLOSE, CLOSE, CLOSE, CLOSE, CLOSE, X,
        ],
        status: 6,
        note: "input: line 1 WrongCount\n",
        ..UNSENT
    },
];

const SESSIONS_3: &[Row] = &[
    Row {
        name: "the second file is read before the input: there is none",
        options: "--second=A",
        pieces: &[(65_536, 19)],
        take: Some(0),
        status: 6,
        note: "A: not found\n",
        ..UNSENT
    },
    Row {
        name: "the second file is read before the input: a line that is none",
        options: "--second=S",
        pieces: &[(65_536, 19)],
        take: Some(0),
        status: 6,
        note: "S: line 1 NotALine\n",
        ..UNSENT
    },
    Row {
        name: "the second file is read before the input: a fetch that fails",
        options: "--second=S",
        fetch: Some(1),
        pieces: &[(65_536, 19)],
        status: 3,
        note: "read fault\n",
        ..UNSENT
    },
    Row {
        name: "the second file is sent where the input is empty",
        options: "--second=T",
        input: &[],
        output: &[b"accepted\nended 2\n", b"sent 1 tags b\n"],
        ..CALL_ONE
    },
];

const DOCUMENTS: &[Row] = &[
    Row {
        name: "calls are sent as they are built, and answers are dumped",
        input: &[LINES],
        peers: &[Peer {
            sends: ONE_ANSWER,
            got: Some(ONE_CALL),
            ..CALLED
        }],
        output: &[ANSWERED],
        ..CALL_ONE
    },
    Row {
        name: "six calls are sent as they are built",
        input: &[LINES, LINES, LINES, LINES, LINES, LINES],
        peers: &[Peer {
            got: Some(SIX_CALLS),
            ..CALLED
        }],
        output: &[b"accepted\nended 2\n", b"sent 6 tags aaaaaa\n"],
        ..CALL_ONE
    },
];

// Which list's document comes next isn't fixed, so the output isn't looked at here.
const BOTH_LISTS: Row = Row {
    name: "two lists are sent on one session",
    options: "--second=T",
    files: &[("T", THREE_X)],
    input: &[THREE_X],
    peers: &[Peer {
        got: Some(&[PREAMBLE, FIRST, NEXT, NEXT, NEXT, NEXT, NEXT, END]),
        ..CALLED
    }],
    ..CALL_ONE
};

const THREE_X: &[u8] = b"start \"\" \"x\"\nclose\n\
start \"\" \"x\"\nclose\n\
start \"\" \"x\"\nclose\n";

const SENT_OF_BOTH: &[u8] = b"accepted\nended 2\nsent 6 tags ";

// Asserts that the documents of two lists were sent, with three letters for each list.
fn assert_both_lists(
    rt: &(impl Abort + AllocGlobal + Threads + Wait + Sync),
) -> Result<(), AllocError> {
    let row = &BOTH_LISTS;
    let alloc = rt.alloc();
    let words = listed(alloc, row.words, row.options)?;
    let input = joined(alloc, row.input, row.long)?;
    let source = source_of(alloc, &input, 65_536, row.take)?;
    let mut notes = notes_of(alloc, row)?;
    let mut wire = wire_of(alloc, row)?;
    let ran = run_on_fakes(rt, alloc, row, &words, source, &mut notes, &mut wire)?;
    let (name, output) = (row.name, ran.output.bytes());
    let letters = output.get(SENT_OF_BOTH.len()..).unwrap_or(b"");
    let of_first = letters.iter().filter(|letter| **letter == b'a').count();
    let of_second = letters.iter().filter(|letter| **letter == b'b').count();
    assert_eq!(rt; ran.status, 0, "{name}");
    assert!(rt; output.starts_with(SENT_OF_BOTH), "{name}");
    assert_eq!(rt; (of_first, of_second, letters.len()), (3, 3, 7), "{name}");
    assert_got(rt, row, &wire)
}

fn statuses_rows() -> &'static [Row] {
    STATUSES
}

fn statuses_rows_2() -> &'static [Row] {
    STATUSES_2
}

fn statuses_rows_3() -> &'static [Row] {
    STATUSES_3
}

fn sessions_rows() -> &'static [Row] {
    SESSIONS
}

fn sessions_rows_2() -> &'static [Row] {
    SESSIONS_2
}

fn sessions_rows_3() -> &'static [Row] {
    SESSIONS_3
}

fn documents_rows() -> &'static [Row] {
    DOCUMENTS
}

pub fn assert_all(
    rt: &(impl Abort + AllocGlobal + Threads + Wait + Sync),
) -> Result<(), AllocError> {
    assert_rows(rt, statuses_rows())?;
    assert_rows(rt, statuses_rows_2())?;
    assert_rows(rt, statuses_rows_3())?;
    assert_rows(rt, sessions_rows())?;
    assert_rows(rt, sessions_rows_2())?;
    assert_rows(rt, sessions_rows_3())?;
    assert_rows(rt, documents_rows())?;
    assert_both_lists(rt)
}
