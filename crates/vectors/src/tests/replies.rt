// What a receiver sends back, in each mode.
use super::captures::{ONE_REPLIES, STREAMED_REPLIES};
use super::replays::{FAULTS, ONE_ANSWER, TWO_ANSWERS};
use super::worked_replays::IN_ONE_CHUNK;
use super::*;

const FAULT_LINE: &[u8] =
    b"fault 73 \"http://schemas.microsoft.com/ws/2006/05/framing/faults/EndpointNotFound\"\n";

const REPLIES: Row = Row {
    words: "nettcp check --static=S --replies",
    ..CHECK
};

const ENDED: &[Row] = &[
    Row {
        name: "a Fault in place of the Ack: duplex",
        options: "duplex",
        input: &[b"\x08\x47", FAULTS, b"EndpointNotFound"],
        status: 9,
        output: &[FAULT_LINE],
        ..REPLIES
    },
    Row {
        name: "a Fault in place of the Ack: simplex",
        options: "simplex",
        input: &[b"\x08\x47", FAULTS, b"EndpointNotFound"],
        status: 9,
        output: &[FAULT_LINE],
        ..REPLIES
    },
    Row {
        name: "a Fault in place of the Ack: singleton",
        options: "singleton",
        input: &[b"\x08\x47", FAULTS, b"EndpointNotFound"],
        status: 9,
        output: &[FAULT_LINE],
        ..REPLIES
    },
    Row {
        name: "sessions end in each mode: no messages",
        options: "duplex",
        input: &[b"\x0B\x07"],
        output: &[b"accepted\nended 2\n"],
        ..REPLIES
    },
    Row {
        name: "sessions end in each mode: no messages, one-way",
        options: "simplex",
        input: &[b"\x0B\x07"],
        output: &[b"accepted\nended 2\n"],
        ..REPLIES
    },
];

const ENDED_2: &[Row] = &[
    Row {
        name: "sessions end in each mode: no messages, in chunks",
        options: "singleton",
        input: &[b"\x0B\x07"],
        output: &[b"accepted\nended 2\n"],
        ..REPLIES
    },
    Row {
        name: "sessions end in each mode: one-way messages and no End",
        options: "simplex",
        input: &[b"\x0B"],
        output: &[b"accepted\nended 1\n"],
        ..REPLIES
    },
    Row {
        name: "sessions end in each mode: a Fault after the Ack, one-way",
        options: "simplex",
        input: &[b"\x0B\x08\x01a"],
        status: 9,
        output: &[b"accepted\nfault 4 \"a\"\n"],
        ..REPLIES
    },
    Row {
        name: "sessions end in each mode: a message",
        options: "duplex",
        input: &[b"\x0B\x06\x06\x02\x01x\x42\x01\x01\x07"],
        output: &[b"accepted\n", MESSAGE, b"ended 10\n"],
        ..REPLIES
    },
    Row {
        name: "sessions end in each mode: a Fault after a message",
        options: "duplex",
        input: &[b"\x0B\x06\x06\x02\x01x\x42\x01\x01\x08\x01a"],
        status: 9,
        output: &[b"accepted\n", MESSAGE, b"fault 12 \"a\"\n"],
        ..REPLIES
    },
];

const ENDED_3: &[Row] = &[
    Row {
        name: "sessions end in each mode: a length in more bytes than it needs",
        options: "duplex",
        input: &[b"\x0B\x08\x81\x00a"],
        status: 9,
        output: &[b"accepted\nfault 5 \"a\"\n"],
        ..REPLIES
    },
    Row {
        name: "sessions end in each mode: a message of two chunks",
        options: "singleton",
        input: &[b"\x0B\x05\x01\x02\x05\x01x\x42\x01\x01\x00\x07"],
        output: &[
            b"accepted\n",
            b"message 0 payload 6 items 2 depth 1 content 1 strings 1 used 1\n",
            b"ended 12\n",
        ],
        ..REPLIES
    },
    Row {
        name: "an answer and the End",
        options: "duplex",
        input: ONE_ANSWER,
        output: &[
            b"accepted\n",
            b"message 0 payload 68 items 18 depth 3 content 173 strings 1 used 1\n",
            b"ended 72\n",
        ],
        ..REPLIES
    },
    Row {
        name: "two answers and the End",
        options: "duplex",
        input: TWO_ANSWERS,
        output: &[
            b"accepted\n",
            b"message 0 payload 68 items 18 depth 3 content 173 strings 1 used 1\n",
            b"message 1 payload 66 items 18 depth 3 content 173 strings 1 used 1\n",
            b"ended 140\n",
        ],
        ..REPLIES
    },
    Row {
        name: "an answer in one chunk and the End",
        words: CHECK_ONE,
        options: "--replies=singleton --encoding=7",
        input: IN_ONE_CHUNK,
        pieces: WHOLE,
        output: &[
            b"accepted\n",
            b"message 0 payload 66 items 18 depth 3 content 173 strings 0 used 0\n",
            b"ended 71\n",
        ],
        ..REPLIES
    },
];

// Cut, at a quota, behind a Fault, and captured.
const CUT: &[Row] = &[
    Row {
        name: "replies that are cut: before the Ack",
        options: "simplex",
        input: &[],
        status: 1,
        output: &[b"offence frame 0 24 Truncated\n"],
        ..REPLIES
    },
    Row {
        name: "replies that are cut: after the Ack",
        options: "duplex",
        input: &[b"\x0B"],
        status: 1,
        output: &[b"accepted\noffence frame 1 24 Truncated\n"],
        ..REPLIES
    },
    Row {
        name: "replies that are cut: after the Ack, in chunks",
        options: "singleton",
        input: &[b"\x0B"],
        status: 1,
        output: &[b"accepted\noffence frame 1 24 Truncated\n"],
        ..REPLIES
    },
    Row {
        name: "replies that are cut: a Fault that has begun after the Ack",
        options: "simplex",
        input: &[b"\x0B\x08\x05A"],
        status: 1,
        output: &[b"accepted\noffence frame 1 24 Truncated\n"],
        ..REPLIES
    },
    Row {
        name: "replies that are cut: within a message",
        options: "duplex",
        input: &[b"\x0B\x06\x06\x02\x01x"],
        status: 1,
        output: &[b"accepted\noffence frame 1 24 Truncated\n"],
        ..REPLIES
    },
    Row {
        name: "replies that are cut: within a chunk",
        options: "singleton",
        input: &[b"\x0B\x05\x01\x02\x05\x01x"],
        status: 1,
        output: &[b"accepted\noffence frame 1 24 Truncated\n"],
        ..REPLIES
    },
    Row {
        name: "the Ack alone has the quota of one byte, and more may come",
        words: CHECK_ONE,
        options: "--replies=simplex --session=1",
        input: &[ACK],
        pieces: WHOLE,
        status: 10,
        output: &[b"accepted\noffence frame 1 25 SessionTooLong\n"],
        ..REPLIES
    },
];

const CUT_2: &[Row] = &[
    Row {
        name: "the Ack alone is within the quota",
        words: CHECK_ONE,
        options: "--replies=simplex --session=2",
        input: &[ACK],
        pieces: WHOLE,
        output: &[b"accepted\nended 1\n"],
        ..REPLIES
    },
    Row {
        name: "what comes after a Fault is not judged",
        words: CHECK_ONE,
        options: "--replies=duplex",
        input: &[b"\x0B\x08\x01a\xFF\xFF"],
        pieces: WHOLE,
        status: 9,
        output: &[b"accepted\nfault 4 \"a\"\n"],
        ..REPLIES
    },
    Row {
        name: "nothing is taken after a Fault",
        words: CHECK_ONE,
        options: "--replies=duplex",
        input: &[b"\x0B\x08\x01a\xFF\xFF"],
        pieces: &[(2, 2)],
        take: Some(2),
        status: 9,
        output: &[b"accepted\nfault 4 \"a\"\n"],
        ..REPLIES
    },
    Row {
        name: "a failing put goes before a Fault",
        words: CHECK_ONE,
        options: "--replies=duplex",
        input: &[b"\x0B\x08\x01a\xFF\xFF"],
        kept: 9,
        output: &[b"accepted\n"],
        ..WRITE_FAULT
    },
    Row {
        name: "captured answers are reported",
        options: "duplex",
        input: &[ONE_REPLIES],
        status: 1,
        output: &[
            b"accepted\n",
            b"message 0 payload 138 items 21 depth 4 content 238 strings 1 used 16\n",
            b"offence frame 142 24 Truncated\n",
        ],
        ..REPLIES
    },
    Row {
        name: "a captured streamed answer is reported",
        words: CHECK_ONE,
        options: "--replies=singleton --encoding=7",
        input: &[STREAMED_REPLIES],
        pieces: WHOLE,
        output: &[
            b"accepted\n",
            b"message 0 payload 136 items 21 depth 4 content 238 strings 0 used 0\n",
            b"ended 142\n",
        ],
        ..REPLIES
    },
];

fn ended_rows() -> &'static [Row] {
    ENDED
}

fn ended_rows_2() -> &'static [Row] {
    ENDED_2
}

fn ended_rows_3() -> &'static [Row] {
    ENDED_3
}

fn cut_rows() -> &'static [Row] {
    CUT
}

fn cut_rows_2() -> &'static [Row] {
    CUT_2
}

pub fn assert_all(
    rt: &(impl Abort + AllocGlobal + Threads + Wait + Sync),
) -> Result<(), AllocError> {
    assert_rows(rt, ended_rows())?;
    assert_rows(rt, ended_rows_2())?;
    assert_rows(rt, ended_rows_3())?;
    assert_rows(rt, cut_rows())?;
    assert_rows(rt, cut_rows_2())
}
