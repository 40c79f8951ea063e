// An initiator's streams in singleton and simplex mode.
use super::captures::STREAMED;
use super::*;

const MODES: &[Row] = &[
    Row {
        name: "a message in chunks: a message of four chunks",
        input: &[
            b"\x00\x01\x00\x01\x01\x02\x0Dnet.tcp://h/e\x03\x07\x0C\x05\x01\x40\x01\x01\x01x\x01\x01\x00\x07",
        ],
        output: &[
            b"open singleton 7 \"net.tcp://h/e\"\n",
            b"message 0 payload 4 items 2 depth 1 content 1 strings 0 used 0\n",
            b"ended 34\n",
        ],
        ..CHECK
    },
    Row {
        name: "a message in chunks: a message of four chunks to a short Via",
        input: &[
            b"\x00\x01\x00\x01\x01\x02\x01a\x03\x07\x0C\x05\x01\x40\x01\x01\x01\x78\x01\x01\x00\x07",
        ],
        output: &[
            b"open singleton 7 \"a\"\n",
            b"message 0 payload 4 items 2 depth 1 content 1 strings 0 used 0\n",
            b"ended 22\n",
        ],
        ..CHECK
    },
    Row {
        name: "a message in chunks: a session string cut in two",
        input: &[
            b"\x00\x01\x00\x01\x01\x02\x01a\x03\x08\x0C\x05\x02\x02\x01\x04x\x42\x01\x01\x00\x07",
        ],
        output: &[
            b"open singleton 8 \"a\"\n",
            b"message 0 payload 6 items 2 depth 1 content 1 strings 1 used 1\n",
            b"ended 22\n",
        ],
        ..CHECK
    },
    Row {
        name: "a message in chunks: a byte that begins no record, in a chunk of its own",
        input: &[b"\x00\x01\x00\x01\x01\x02\x01a\x03\x07\x0C\x05\x01\x40\x01\x01\x01\x78\x01\xFF"],
        output: &[b"open singleton 7 \"a\"\noffence payload 0 3 15 UnknownNode\n"],
        ..REFUSED
    },
    Row {
        name: "a message in chunks: no message",
        input: &[b"\x00\x01\x00\x01\x01\x02\x01a\x03\x07\x0C\x07"],
        output: &[b"open singleton 7 \"a\"\noffence frame 11 3 OutOfOrder\n"],
        ..REFUSED
    },
    Row {
        name: "a message in chunks: a second message",
        input: &[b"\x00\x01\x00\x01\x01\x02\x01a\x03\x07\x0C\x05\x04\x40\x01\x78\x01\x00\x05"],
        output: &[
            b"open singleton 7 \"a\"\n",
            b"message 0 payload 4 items 2 depth 1 content 1 strings 0 used 0\n",
            b"offence frame 18 3 OutOfOrder\n",
        ],
        ..REFUSED
    },
];

const MODES_2: &[Row] = &[
    Row {
        name: "chunks are judged together: beyond the payload quota",
        words: CHECK_ONE,
        options: "--payload=4096",
        input: &[b"\x00\x01\x00\x01\x01\x02\x01a\x03\x07\x0C\x05\x01\x40\x80\x20"],
        pieces: WHOLE,
        output: &[b"open singleton 7 \"a\"\noffence frame 14 11 MessageTooLarge\n"],
        ..REFUSED
    },
    Row {
        name: "chunks are judged together: no document",
        input: &[b"\x00\x01\x00\x01\x01\x02\x01a\x03\x08\x0C\x05\x01\x00\x00"],
        output: &[b"open singleton 8 \"a\"\noffence payload 0 1 22 DocumentCut\n"],
        ..REFUSED
    },
    Row {
        name: "one-way messages: a message",
        input: &[b"\x00\x01\x00\x01\x03\x02\x01a\x03\x08\x0C\x06\x06\x02\x01x\x42\x01\x01\x07"],
        output: &[
            b"open simplex 8 \"a\"\n",
            b"message 0 payload 6 items 2 depth 1 content 1 strings 1 used 1\n",
            b"ended 20\n",
        ],
        ..CHECK
    },
    Row {
        name: "one-way messages: an unsized one",
        input: &[b"\x00\x01\x00\x01\x03\x02\x01a\x03\x08\x0C\x05"],
        output: &[b"open simplex 8 \"a\"\noffence frame 11 3 OutOfOrder\n"],
        ..REFUSED
    },
    Row {
        name: "one-way messages: a preamble that is cut",
        input: &[b"\x00\x01\x00\x01\x03"],
        output: &[b"offence frame 5 24 Truncated\n"],
        ..REFUSED
    },
    Row {
        name: "a captured streamed call",
        input: &[STREAMED],
        output: &[
            b"open singleton 7 \"net.tcp://127.0.0.1:20122/echo\"\n",
            b"message 0 payload 202 items 30 depth 4 content 325 strings 0 used 0\n",
            b"ended 247\n",
        ],
        ..CHECK
    },
];

fn modes_rows() -> &'static [Row] {
    MODES
}

fn modes_rows_2() -> &'static [Row] {
    MODES_2
}

pub fn assert_all(
    rt: &(impl Abort + AllocGlobal + Threads + Wait + Sync),
) -> Result<(), AllocError> {
    assert_rows(rt, modes_rows())?;
    assert_rows(rt, modes_rows_2())
}
