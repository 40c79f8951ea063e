// Each write to a peer that fails in turn, where requests are answered and documents are sent.
use super::building::{FIRST, NEXT};
use super::peers::wire_of_one;
use super::replays::{ANSWER, HI, TWO_ANSWERS};
use super::*;

// What a peer has got where no more was written, and how the run ends then: what the output begins
// with, how many letters come behind that for the documents that were sent, and the note.
struct Cut {
    got: Parts,
    output: &'static [u8],
    letters: usize,
    status: u8,
    note: &'static [u8],
}

const UNANSWERED: Cut = Cut {
    got: &[],
    output: b"connection 0 messages 2 answers 0 in ended out write-fault",
    letters: 0,
    status: 0,
    note: b"",
};

// The last one is that of no failure.
const ANSWERS: &[Cut] = &[
    UNANSWERED,
    Cut {
        got: &[ACK],
        ..UNANSWERED
    },
    Cut {
        got: &[ACK, b"\x06\x44\x02\x01x", ANSWER, HI],
        output: b"connection 0 messages 2 answers 1 in ended out write-fault",
        ..UNANSWERED
    },
    Cut {
        got: &[
            ACK,
            b"\x06\x44\x02\x01x",
            ANSWER,
            HI,
            b"\x06\x42\x00",
            ANSWER,
            HI,
        ],
        output: b"connection 0 messages 2 answers 2 in ended out write-fault",
        ..UNANSWERED
    },
    Cut {
        got: TWO_ANSWERS,
        output: b"connection 0 messages 2 answers 2 in ended out done",
        ..UNANSWERED
    },
];

const UNSENT: Cut = Cut {
    got: &[],
    output: b"accepted\nended 2\nsent 0 tags -",
    letters: 0,
    status: 8,
    note: b"wire fault\n",
};

// Of three documents in each of two lists, which may be sent in any order.
const SENT: &[Cut] = &[
    UNSENT,
    Cut {
        got: &[PREAMBLE],
        ..UNSENT
    },
    Cut {
        got: &[PREAMBLE, FIRST],
        output: b"accepted\nended 2\nsent 1 tags ",
        letters: 1,
        ..UNSENT
    },
    Cut {
        got: &[PREAMBLE, FIRST, NEXT],
        output: b"accepted\nended 2\nsent 2 tags ",
        letters: 2,
        ..UNSENT
    },
    Cut {
        got: &[PREAMBLE, FIRST, NEXT, NEXT],
        output: b"accepted\nended 2\nsent 3 tags ",
        letters: 3,
        ..UNSENT
    },
    Cut {
        got: &[PREAMBLE, FIRST, NEXT, NEXT, NEXT],
        output: b"accepted\nended 2\nsent 4 tags ",
        letters: 4,
        ..UNSENT
    },
    Cut {
        got: &[PREAMBLE, FIRST, NEXT, NEXT, NEXT, NEXT],
        output: b"accepted\nended 2\nsent 5 tags ",
        letters: 5,
        ..UNSENT
    },
    Cut {
        got: &[PREAMBLE, FIRST, NEXT, NEXT, NEXT, NEXT, NEXT],
        output: b"accepted\nended 2\nsent 6 tags ",
        letters: 6,
        ..UNSENT
    },
    Cut {
        got: &[PREAMBLE, FIRST, NEXT, NEXT, NEXT, NEXT, NEXT, END],
        output: b"accepted\nended 2\nsent 6 tags ",
        letters: 6,
        status: 0,
        note: b"",
    },
];

const SERVED: Row = Row {
    name: "a write of two answers fails",
    words: "nettcp serve --static=S --listen=h:808 --connections=1",
    ..CHECK
};

const ASKING: Peer = Peer {
    sends: TWO_CALLS,
    read: None,
    write: None,
    got: None,
};

const CALLED: Row = Row {
    name: "a write of six documents fails",
    words: "nettcp call --static=S --connect=h:808 --via=net.tcp://h/e --second=T",
    files: &[(
        "T",
        b"start \"\" \"x\"\nclose\nstart \"\" \"x\"\nclose\nstart \"\" \"x\"\nclose\n",
    )],
    input: &[X, X, X],
    ..CHECK
};

const ACCEPTING: Peer = Peer {
    sends: &[ACK, END],
    ..ASKING
};

fn answers() -> &'static [Cut] {
    ANSWERS
}

fn sent() -> &'static [Cut] {
    SENT
}

// Whether these are so many letters `a` and `b`, at most three of each, and the line's end.
fn are_letters(bytes: &[u8], letters: usize) -> bool {
    let [tags @ .., b'\n'] = bytes else {
        return false;
    };
    let mut first: usize = 0;
    let mut second: usize = 0;
    for &tag in tags {
        match tag {
            b'a' => first = first.saturating_add(1),
            b'b' => second = second.saturating_add(1),
            _ => return false,
        }
    }
    first <= 3 && second <= 3 && tags.len() == letters
}

// The number of the cut in which a peer has got just this.
fn cut_at(alloc: Global, cuts: &[Cut], got: &[u8]) -> Result<Option<usize>, AllocError> {
    for (number, cut) in cuts.iter().enumerate() {
        let due = joined(alloc, cut.got, NO_TEXT)?;
        if due.as_slice() == got {
            return Ok(Some(number));
        }
    }
    Ok(None)
}

// Asserts that a run ended as it does in this cut.
fn assert_cut(
    rt: &(impl Abort + AllocGlobal + Threads + Wait + Sync),
    row: &Row,
    cut: &Cut,
    ran: &Ran<MemorySource, MemorySink>,
    note: &[u8],
) {
    let name = row.name;
    assert_eq!(rt; ran.status, cut.status, "{name}");
    assert_bytes(rt, row, note, cut.note);
    match ran.output.bytes().strip_prefix(cut.output) {
        Some(letters) => assert!(rt; are_letters(letters, cut.letters), "{name}"),
        None => assert_bytes(rt, row, ran.output.bytes(), cut.output),
    }
}

// Runs a row with a peer, where the write with this number fails and keeps nothing. Asserts that
// it ends in one of the cuts, and answers in which.
fn assert_write(
    rt: &(impl Abort + AllocGlobal + Threads + Wait + Sync),
    row: &Row,
    peer: &Peer,
    cuts: &[Cut],
) -> Result<usize, AllocError> {
    let alloc = rt.alloc();
    let name = row.name;
    let words = listed(alloc, row.words, row.options)?;
    let source = source_of(alloc, &joined(alloc, row.input, NO_TEXT)?, 65_536, None)?;
    let mut notes = notes_of(alloc, row)?;
    let mut wire = wire_of_one(alloc, peer, row)?;
    let ran = run_on_fakes(rt, alloc, row, &words, source, &mut notes, &mut wire)?;
    let got = wire.pair(0).map(|pair| pair.1).unwrap_or(b"");
    let number = cut_at(alloc, cuts, got)?;
    assert!(rt; number.is_some(), "{name}");
    let number = number.unwrap_or(0);
    if let Some(cut) = cuts.get(number) {
        assert_cut(rt, row, cut, &ran, notes.bytes());
    }
    Ok(number)
}

// The writes fail in turn, until a run makes fewer, in which all is written.
fn assert_writes(
    rt: &(impl Abort + AllocGlobal + Threads + Wait + Sync),
    row: &Row,
    peer: &Peer,
    cuts: &[Cut],
) -> Result<(), AllocError> {
    let mut number = 0;
    for write in 0..cuts.len() {
        let failing = Peer {
            write: Some(write as u64),
            ..*peer
        };
        number = assert_write(rt, row, &failing, cuts)?;
    }
    let name = row.name;
    assert_eq!(rt; number.saturating_add(1), cuts.len(), "{name}");
    Ok(())
}

pub fn assert_all(
    rt: &(impl Abort + AllocGlobal + Threads + Wait + Sync),
) -> Result<(), AllocError> {
    assert_writes(rt, &SERVED, &ASKING, answers())?;
    assert_writes(rt, &CALLED, &ACCEPTING, sent())
}
