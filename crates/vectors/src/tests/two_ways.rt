// Quotas of each direction: of what an initiator sends, and of what a receiver does.
use super::building::{BUILD, FIRST, START};
use super::calls::CALL_ONE;
use super::peers::Peer;
use super::replays::REPLAY;
use super::serves::SERVE;
use super::worked_replays::{HEADER, RELATED};
use super::*;

// Five elements, each in the one before.
const FIVE_DEEP: &[u8] =
    b"\x06\x15\x00\x40\x01x\x40\x01x\x40\x01x\x40\x01x\x40\x01x\x01\x01\x01\x01\x01";

const FIVE: &[u8] = b"message 0 payload 21 items 10 depth 5 content 5 strings 0 used 0\n";

// An answer whose session has no room for a string.
pub const WITHOUT_STRINGS: Parts = &[
    ACK,
    b"\x06\x43\x00",
    HEADER,
    b"\x99\x10urn:echoResponse",
    RELATED,
    b"\x01V\x0E\x40\x01x\x99\x02hi\x01\x01",
    END,
];

const CHECK_REPLIES: Row = Row {
    words: "nettcp check --static=S --replies=duplex",
    pieces: WHOLE,
    ..CHECK
};

const READ: &[Row] = &[
    Row {
        name: "replies are read within their own depth",
        options: "--depth=4 --reply-depth=5",
        input: &[ACK, FIVE_DEEP, END],
        output: &[b"accepted\n", FIVE, b"ended 25\n"],
        ..CHECK_REPLIES
    },
    Row {
        name: "replies are read within the depth of requests where they have none",
        options: "--depth=4",
        input: &[ACK, FIVE_DEEP, END],
        status: 1,
        output: &[b"accepted\noffence payload 0 13 20 TooDeep\n"],
        ..CHECK_REPLIES
    },
    Row {
        name: "requests are read within their own depth",
        options: "--reply-depth=4",
        input: &[PREAMBLE, FIVE_DEEP, END],
        output: &[OPEN, FIVE, b"ended 47\n"],
        ..CHECK
    },
    Row {
        name: "replies are read within their own payload",
        options: "--payload=131072 --reply-payload=4096",
        input: &[b"\x0B\x06\x81\x20"],
        status: 1,
        output: &[b"accepted\noffence frame 1 11 MessageTooLarge\n"],
        ..CHECK_REPLIES
    },
    Row {
        name: "replies are read within their own dictionary",
        options: "--reply-dictionary=0",
        input: &[ACK, b"\x06\x06\x02\x01"],
        status: 1,
        output: &[b"accepted\noffence payload 0 1 14 DictionaryFull\n"],
        ..CHECK_REPLIES
    },
    Row {
        name: "replies are read within their own content",
        options: "--reply-payload=4096 --reply-content=5999",
        input: &[
            b"\x0B\x06\xDD\x0F\xD2\x0F\xD0\x0F",
            LONG,
            b"\x42\x01\x42\x01\x42\x01",
        ],
        long: (2_000, b"a"),
        status: 1,
        output: &[b"accepted\noffence payload 0 2008 21 TooMuchContent\n"],
        ..CHECK_REPLIES
    },
    Row {
        name: "content that is usual for a payload of replies",
        options: "--content=65536 --reply-payload=4096",
        input: &[
            b"\x0B\x06\xDD\x0F\xD2\x0F\xD0\x0F",
            LONG,
            b"\x42\x01\x42\x01\x42\x01\x01\x01\x01\x07",
        ],
        long: (2_000, b"a"),
        output: &[
            b"accepted\n",
            b"message 0 payload 2013 items 6 depth 3 content 6000 strings 1 used 2000\n",
            b"ended 2018\n",
        ],
        ..CHECK_REPLIES
    },
];

const GREATEST: &[Row] = &[
    Row {
        name: "a payload at the greatest quota",
        options: "--payload=16777216",
        input: &[PREAMBLE, b"\x06\x80\x80\x80\x08"],
        output: &[OPEN, b"offence frame 23 24 Truncated\n"],
        ..REFUSED
    },
    Row {
        name: "a payload above the greatest quota",
        options: "--payload=16777216",
        input: &[PREAMBLE, b"\x06\x81\x80\x80\x08"],
        output: &[OPEN, b"offence frame 23 11 MessageTooLarge\n"],
        ..REFUSED
    },
    Row {
        name: "elements above the greatest depth",
        options: "--depth=1024",
        input: &[PREAMBLE, b"\x06\x84\x18\x00", LONG, b"\x40", b"\x01x"],
        long: (1_024, b"\x40\x01x"),
        pieces: &[(65_536, 0), (1, 2)],
        output: &[OPEN, b"offence payload 0 3073 20 TooDeep\n"],
        ..REFUSED
    },
    Row {
        name: "session strings at the greatest quota, and above it",
        options: "--payload=2097152 --dictionary=1048576",
        input: &[
            PREAMBLE,
            b"\x06\x8A\x80\x40\x83\x80\x40\x80\x80\x40",
            LONG,
            b"\x40\x01x\x01",
            b"\x06\x07\x02\x01",
        ],
        long: (1_048_576, b"a"),
        pieces: WHOLE,
        output: &[
            OPEN,
            b"message 0 payload 1048586 items 2 depth 1 content 1 strings 1 used 1048576\n",
            b"offence payload 1 1 14 DictionaryFull\n",
        ],
        ..REFUSED
    },
];

const ANSWERED: &[Row] = &[
    Row {
        name: "answers are written within their own dictionary",
        options: "--reply-dictionary=0",
        input: ONE_CALL,
        output: WITHOUT_STRINGS,
        ..REPLAY
    },
    Row {
        name: "requests are answered within the dictionary of answers alone",
        options: "--dictionary=1 --reply-dictionary=0",
        input: ONE_CALL,
        output: WITHOUT_STRINGS,
        ..REPLAY
    },
    Row {
        name: "requests are read within their own dictionary",
        options: "--dictionary=0 --reply-dictionary=1",
        input: &[PREAMBLE, b"\x06\x3C\x02\x01"],
        status: 1,
        output: &[ACK],
        note: "offence payload 0 1 14 DictionaryFull\n",
        ..REPLAY
    },
    Row {
        name: "where neither an answer nor a fault fits, nothing is written for it",
        options: "--depth=8 --reply-depth=4",
        input: &[
            PREAMBLE,
            b"\x06\x0B\x00\x56\x02\x0B\x01s\x04\x56\x0E\x01\x01",
            END,
        ],
        output: &[ACK, END],
        ..REPLAY
    },
    Row {
        name: "a server answers within its own dictionary",
        options: "--connections=1 --reply-dictionary=0",
        peers: &[Peer {
            sends: ONE_CALL,
            read: None,
            write: None,
            got: Some(WITHOUT_STRINGS),
        }],
        output: &[b"connection 0 messages 1 answers 1 in ended out done\n"],
        ..SERVE
    },
];

const CALLED: Peer = Peer {
    sends: &[ACK, FIVE_DEEP, END],
    read: None,
    write: None,
    got: Some(&[PREAMBLE, FIRST, END]),
};

const CALLS: &[Row] = &[
    Row {
        name: "a caller reads answers within their own depth",
        options: "--depth=4 --reply-depth=5",
        peers: &[CALLED],
        output: &[
            b"accepted\n",
            FIVE,
            START,
            START,
            START,
            START,
            X,
            b"close\nclose\nclose\nclose\nended 25\nsent 1 tags a\n",
        ],
        ..CALL_ONE
    },
    Row {
        name: "a caller refuses answers above their own depth",
        options: "--depth=5 --reply-depth=4",
        peers: &[CALLED],
        status: 1,
        output: &[b"accepted\noffence payload 0 13 20 TooDeep\nsent 1 tags a\n"],
        ..CALL_ONE
    },
    Row {
        name: "a caller sends within the dictionary of requests",
        options: "--dictionary=0 --reply-dictionary=1",
        peers: &[Peer {
            sends: &[ACK, FIRST, END],
            got: Some(&[PREAMBLE, b"\x06\x05\x00\x40\x01x\x01", END]),
            ..CALLED
        }],
        output: &[b"accepted\n", MESSAGE, X, b"ended 10\nsent 1 tags a\n"],
        ..CALL_ONE
    },
    Row {
        name: "what is built has no quotas of replies",
        options: "--reply-payload=65536",
        status: 2,
        pieces: &[(65_536, 19)],
        output: &[],
        note: "words not understood\n",
        ..BUILD
    },
];

fn read_rows() -> &'static [Row] {
    READ
}

fn greatest_rows() -> &'static [Row] {
    GREATEST
}

fn answered_rows() -> &'static [Row] {
    ANSWERED
}

fn calls_rows() -> &'static [Row] {
    CALLS
}

pub fn assert_all(
    rt: &(impl Abort + AllocGlobal + Threads + Wait + Sync),
) -> Result<(), AllocError> {
    assert_rows(rt, read_rows())?;
    assert_rows(rt, greatest_rows())?;
    assert_rows(rt, answered_rows())?;
    assert_rows(rt, calls_rows())
}
