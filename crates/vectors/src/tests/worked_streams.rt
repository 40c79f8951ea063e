// Worked streams through the whole program, in one piece and byte by byte.
use super::*;

const READ: &[Row] = &[
    Row {
        name: "documents without session strings: a text",
        input: &[PLAIN_PREAMBLE, b"\x06\x07\x40\x01x\x99\x02hi\x07"],
        output: &[
            PLAIN_OPEN,
            b"message 0 payload 7 items 3 depth 1 content 3 strings 0 used 0\n",
            b"ended 33\n",
        ],
        ..CHECK
    },
    Row {
        name: "documents without session strings: a name that the static strings have",
        input: &[PLAIN_PREAMBLE, b"\x06\x03\x42\x0E\x01\x07"],
        output: &[
            PLAIN_OPEN,
            b"message 0 payload 3 items 2 depth 1 content 4 strings 0 used 0\n",
            b"ended 29\n",
        ],
        ..CHECK
    },
    Row {
        name: "documents without session strings: an array",
        input: &[
            PLAIN_PREAMBLE,
            b"\x06\x17\x40\x01x\x03\x40\x01a\x01\x8D\x03\x01\x00\x00\x00\x02\x00\x00\x00\xFF\xFF\xFF\xFF\x01\x07",
        ],
        output: &[
            PLAIN_OPEN,
            b"message 0 payload 23 items 3 depth 2 content 26 strings 0 used 0\n",
            b"ended 49\n",
        ],
        ..CHECK
    },
    Row {
        name: "documents without session strings: an addressed envelope",
        input: &[
            PLAIN_PREAMBLE,
            b"\x06\x3AV\x02\x0B\x01s\x04\x0B\x01a\x06V\x08D\x0A\x1E\x00\x82\x99\x08urn:echoD\
\x1A\xAD3\x22\x11\x00UDwf\x88\x99\xAA\xBB\xCC\xDD\xEE\xFF\x01V\x0E\x40\x01x\x99\x02hi\x01\
\x01\x07",
        ],
        output: &[
            PLAIN_OPEN,
            b"message 0 payload 58 items 18 depth 3 content 165 strings 0 used 0\n",
            b"ended 84\n",
        ],
        ..CHECK
    },
];

const READ_2: &[Row] = &[
    Row {
        name: "an envelope whose texts are session strings",
        input: &[
            PREAMBLE,
            b"\x06\x59\x19\x08urn:echo\x0Dnet.tcp://h/e\x01xV\x02\x0B\x01s\x04\x0B\x01a\x06V\
\x08D\x0A\x1E\x00\x82\xAB\x01D\x1A\xAD3\x22\x11\x00UDwf\x88\x99\xAA\xBB\xCC\xDD\xEE\xFFD\x2C\
D\x2A\xAB\x14\x01D\x0C\x1E\x00\x82\xAB\x03\x01V\x0EB\x05\x99\x02hi\x01\x01\x07",
        ],
        output: &[
            OPEN,
            b"message 0 payload 89 items 27 depth 4 content 266 strings 3 used 22\n",
            b"ended 115\n",
        ],
        ..CHECK
    },
    Row {
        name: "an array is one item",
        input: &[
            PREAMBLE,
            b"\x06\x18\x00\x40\x01x\x03\x40\x01a\x01\x8D\x03\x01\x00\x00\x00\x02\x00\x00\x00\xFF\xFF\xFF\xFF\x01\x07",
        ],
        output: &[
            OPEN,
            b"message 0 payload 24 items 3 depth 2 content 26 strings 0 used 0\n",
            b"ended 50\n",
        ],
        ..CHECK
    },
    Row {
        name: "an array is dumped as one item: names inline",
        words: DUMP,
        input: &[
            PREAMBLE,
            b"\x06\x18\x00\x40\x01x\x03\x40\x01a\x01\x8D\x03\x01\x00\x00\x00\x02\x00\x00\x00\xFF\xFF\xFF\xFF\x01\x07",
        ],
        output: &[
            OPEN,
            b"message 0 payload 24 items 3 depth 2 content 26 strings 0 used 0\n",
            b"start \"\" \"x\"\n",
            b"array int32 \"\" \"a\"\n",
            b"values number 1 number 2 number -1\n",
            b"close\n",
            b"ended 50\n",
        ],
        ..CHECK
    },
    Row {
        name: "an array is dumped as one item: names that are strings of the session",
        words: DUMP,
        input: &[
            PREAMBLE,
            b"\x06\x1A\x04\x01x\x01a\x42\x01\x03\x42\x03\x01\x8D\x03\x01\x00\x00\x00\x02\x00\
\x00\x00\xFF\xFF\xFF\xFF\x01\x07",
        ],
        output: &[
            OPEN,
            b"message 0 payload 26 items 3 depth 2 content 26 strings 2 used 2\n",
            b"start \"\" \"x\"\n",
            b"array int32 \"\" \"a\"\n",
            b"values number 1 number 2 number -1\n",
            b"close\n",
            b"ended 52\n",
        ],
        ..CHECK
    },
];

const NUMBERS: &[Row] = &[
    Row {
        name: "numbers of any width: 0",
        words: DUMP,
        input: &[PREAMBLE, b"\x06\x06\x02\x01x\x42\x01\x81\x07"],
        output: &[
            OPEN,
            b"message 0 payload 6 items 3 depth 1 content 9 strings 1 used 1\n",
            b"start \"\" \"x\"\n",
            b"text number 0\n",
            b"close\n",
            b"ended 32\n",
        ],
        ..CHECK
    },
    Row {
        name: "numbers of any width: 1",
        words: DUMP,
        input: &[PREAMBLE, b"\x06\x06\x02\x01x\x42\x01\x83\x07"],
        output: &[
            OPEN,
            b"message 0 payload 6 items 3 depth 1 content 9 strings 1 used 1\n",
            b"start \"\" \"x\"\n",
            b"text number 1\n",
            b"close\n",
            b"ended 32\n",
        ],
        ..CHECK
    },
    Row {
        name: "numbers of any width: 5 in one byte",
        words: DUMP,
        input: &[PREAMBLE, b"\x06\x06\x00\x40\x01x\x89\x05\x07"],
        output: &[
            OPEN,
            b"message 0 payload 6 items 3 depth 1 content 9 strings 0 used 0\n",
            b"start \"\" \"x\"\n",
            b"text number 5\n",
            b"close\n",
            b"ended 32\n",
        ],
        ..CHECK
    },
    Row {
        name: "numbers of any width: 5 in four bytes",
        words: DUMP,
        input: &[PREAMBLE, b"\x06\x09\x00\x40\x01x\x8D\x05\x00\x00\x00\x07"],
        output: &[
            OPEN,
            b"message 0 payload 9 items 3 depth 1 content 9 strings 0 used 0\n",
            b"start \"\" \"x\"\n",
            b"text number 5\n",
            b"close\n",
            b"ended 35\n",
        ],
        ..CHECK
    },
    Row {
        name: "numbers of any width: -128",
        words: DUMP,
        input: &[PREAMBLE, b"\x06\x07\x02\x01x\x42\x01\x89\x80\x07"],
        output: &[
            OPEN,
            b"message 0 payload 7 items 3 depth 1 content 9 strings 1 used 1\n",
            b"start \"\" \"x\"\n",
            b"text number -128\n",
            b"close\n",
            b"ended 33\n",
        ],
        ..CHECK
    },
];

const NUMBERS_2: &[Row] = &[
    Row {
        name: "numbers of any width: 127",
        words: DUMP,
        input: &[PREAMBLE, b"\x06\x07\x02\x01x\x42\x01\x89\x7F\x07"],
        output: &[
            OPEN,
            b"message 0 payload 7 items 3 depth 1 content 9 strings 1 used 1\n",
            b"start \"\" \"x\"\n",
            b"text number 127\n",
            b"close\n",
            b"ended 33\n",
        ],
        ..CHECK
    },
    Row {
        name: "numbers of any width: 128",
        words: DUMP,
        input: &[PREAMBLE, b"\x06\x08\x02\x01x\x42\x01\x8B\x80\x00\x07"],
        output: &[
            OPEN,
            b"message 0 payload 8 items 3 depth 1 content 9 strings 1 used 1\n",
            b"start \"\" \"x\"\n",
            b"text number 128\n",
            b"close\n",
            b"ended 34\n",
        ],
        ..CHECK
    },
    Row {
        name: "numbers of any width: 2^63",
        words: DUMP,
        input: &[
            PREAMBLE,
            b"\x06\x0E\x02\x01x\x42\x01\xB3\x00\x00\x00\x00\x00\x00\x00\x80\x07",
        ],
        output: &[
            OPEN,
            b"message 0 payload 14 items 3 depth 1 content 9 strings 1 used 1\n",
            b"start \"\" \"x\"\n",
            b"text number 9223372036854775808\n",
            b"close\n",
            b"ended 40\n",
        ],
        ..CHECK
    },
    Row {
        name: "numbers of any width: 2^64 - 1",
        words: DUMP,
        input: &[
            PREAMBLE,
            b"\x06\x0E\x02\x01x\x42\x01\xB3\xFF\xFF\xFF\xFF\xFF\xFF\xFF\xFF\x07",
        ],
        output: &[
            OPEN,
            b"message 0 payload 14 items 3 depth 1 content 9 strings 1 used 1\n",
            b"start \"\" \"x\"\n",
            b"text number 18446744073709551615\n",
            b"close\n",
            b"ended 40\n",
        ],
        ..CHECK
    },
];

// The bytes behind what offends are not taken byte by byte.
const REFUSED_VALUES: &[Row] = &[
    Row {
        name: "values that may not be: UTF-16 of an odd length",
        input: &[PREAMBLE, b"\x06\x09\x00\x40\x01x\xB7\x03a\x00b"],
        output: &[OPEN, b"offence payload 0 4 18 BadValue\n"],
        ..REFUSED
    },
    Row {
        name: "values that may not be: half of a surrogate pair",
        input: &[PREAMBLE, b"\x06\x08\x00\x40\x01x\xB7\x02\x00\xD8"],
        output: &[OPEN, b"offence payload 0 4 18 BadValue\n"],
        ..REFUSED
    },
    Row {
        name: "values that may not be: a truth value of 2",
        input: &[PREAMBLE, b"\x06\x06\x00\x40\x01x\xB5\x02"],
        output: &[OPEN, b"offence payload 0 4 18 BadValue\n"],
        ..REFUSED
    },
    Row {
        name: "values that may not be: a QName of prefix 26",
        input: &[PREAMBLE, b"\x06\x07\x00\x40\x01x\xBD\x1A\x02"],
        output: &[OPEN, b"offence payload 0 4 18 BadValue\n"],
        ..REFUSED
    },
    Row {
        name: "values that may not be: a text that is not UTF-8",
        input: &[PREAMBLE, b"\x06\x07\x00\x40\x01x\x99\x01\xFF"],
        output: &[OPEN, b"offence payload 0 4 13 BadUtf8\n"],
        ..REFUSED
    },
];

const REFUSED_VALUES_2: &[Row] = &[
    Row {
        name: "values that may not be, without session strings: UTF-16 of an odd length",
        input: &[PLAIN_PREAMBLE, b"\x06\x08\x40\x01x\xB7\x03a\x00b"],
        output: &[PLAIN_OPEN, b"offence payload 0 3 18 BadValue\n"],
        ..REFUSED
    },
    Row {
        name: "values that may not be, without session strings: half of a surrogate pair",
        input: &[PLAIN_PREAMBLE, b"\x06\x07\x40\x01x\xB7\x02\x00\xD8"],
        output: &[PLAIN_OPEN, b"offence payload 0 3 18 BadValue\n"],
        ..REFUSED
    },
    Row {
        name: "values that may not be, without session strings: a truth value of 2",
        input: &[PLAIN_PREAMBLE, b"\x06\x05\x40\x01x\xB5\x02"],
        output: &[PLAIN_OPEN, b"offence payload 0 3 18 BadValue\n"],
        ..REFUSED
    },
    Row {
        name: "values that may not be, without session strings: a QName of prefix 26",
        input: &[PLAIN_PREAMBLE, b"\x06\x06\x40\x01x\xBD\x1A\x02"],
        output: &[PLAIN_OPEN, b"offence payload 0 3 18 BadValue\n"],
        ..REFUSED
    },
    Row {
        name: "values that may not be, without session strings: a text that is not UTF-8",
        input: &[PLAIN_PREAMBLE, b"\x06\x06\x40\x01x\x99\x01\xFF"],
        output: &[PLAIN_OPEN, b"offence payload 0 3 13 BadUtf8\n"],
        ..REFUSED
    },
];

const REFUSED_NODES: &[Row] = &[
    Row {
        name: "nodes that may not be: a byte that is no node",
        input: &[PREAMBLE, b"\x06\x05\x00\x40\x01x\xA5"],
        output: &[OPEN, b"offence payload 0 4 15 UnknownNode\n"],
        ..REFUSED
    },
    Row {
        name: "nodes that may not be: an attribute after a text",
        input: &[PREAMBLE, b"\x06\x0A\x00\x40\x01x\x98\x01a\x06", b"\x00\x82"],
        pieces: &[(65_536, 0), (1, 2)],
        output: &[OPEN, b"offence payload 0 7 16 NodeOutOfPlace\n"],
        ..REFUSED
    },
    Row {
        name: "nodes that may not be: an array of nothing",
        input: &[
            PREAMBLE,
            b"\x06\x18\x00\x40\x01x\x03\x40\x01a\x01\x8D\x00",
            b"\x01\x00\x00\x00\x02\x00\x00\x00\xFF\xFF\xFF\xFF\x01",
        ],
        pieces: &[(65_536, 0), (1, 13)],
        output: &[OPEN, b"offence payload 0 4 19 BadArray\n"],
        ..REFUSED
    },
    Row {
        name: "nodes that may not be: an array of no type",
        input: &[
            PREAMBLE,
            b"\x06\x18\x00\x40\x01x\x03\x40\x01a\x01\x89",
            b"\x03\x01\x00\x00\x00\x02\x00\x00\x00\xFF\xFF\xFF\xFF\x01",
        ],
        pieces: &[(65_536, 0), (1, 14)],
        output: &[OPEN, b"offence payload 0 4 19 BadArray\n"],
        ..REFUSED
    },
    Row {
        name: "nodes that may not be, without session strings: a byte that is no node",
        input: &[PLAIN_PREAMBLE, b"\x06\x10\x40\x01x\x7F"],
        output: &[PLAIN_OPEN, b"offence payload 0 3 15 UnknownNode\n"],
        ..REFUSED
    },
];

const REFUSED_NODES_2: &[Row] = &[
    Row {
        name: "nodes that may not be, without session strings: another that is none",
        input: &[PLAIN_PREAMBLE, b"\x06\x04\x40\x01x\xA5"],
        output: &[PLAIN_OPEN, b"offence payload 0 3 15 UnknownNode\n"],
        ..REFUSED
    },
    Row {
        name: "nodes that may not be, without session strings: an attribute after a text",
        input: &[
            PLAIN_PREAMBLE,
            b"\x06\x09\x40\x01x\x98\x01a\x06",
            b"\x00\x82",
        ],
        pieces: &[(65_536, 0), (1, 2)],
        output: &[PLAIN_OPEN, b"offence payload 0 6 16 NodeOutOfPlace\n"],
        ..REFUSED
    },
    Row {
        name: "nodes that may not be, without session strings: an array of nothing",
        input: &[
            PLAIN_PREAMBLE,
            b"\x06\x17\x40\x01x\x03\x40\x01a\x01\x8D\x00",
            b"\x01\x00\x00\x00\x02\x00\x00\x00\xFF\xFF\xFF\xFF\x01",
        ],
        pieces: &[(65_536, 0), (1, 13)],
        output: &[PLAIN_OPEN, b"offence payload 0 3 19 BadArray\n"],
        ..REFUSED
    },
    Row {
        name: "identifiers of no string: of the session",
        input: &[PREAMBLE, b"\x06\x06\x02\x01x\x42\x05", b"\x01"],
        pieces: &[(65_536, 0), (1, 1)],
        output: &[OPEN, b"offence payload 0 3 17 UnknownString\n"],
        ..REFUSED
    },
    Row {
        name: "identifiers of no string: of the static strings",
        input: &[PREAMBLE, b"\x06\x04\x00\x42\x7C", b"\x01"],
        pieces: &[(65_536, 0), (1, 1)],
        output: &[OPEN, b"offence payload 0 1 17 UnknownString\n"],
        ..REFUSED
    },
];

const REFUSED_NODES_3: &[Row] = &[
    Row {
        name: "identifiers of no string: of the static strings, without session strings",
        input: &[PLAIN_PREAMBLE, b"\x06\x03\x42\x7C", b"\x01\x07"],
        pieces: &[(65_536, 0), (1, 2)],
        output: &[PLAIN_OPEN, b"offence payload 0 0 17 UnknownString\n"],
        ..REFUSED
    },
    Row {
        name: "payloads of another length: a table of strings that is cut",
        input: &[PREAMBLE, b"\x06\x08\x03\x05", b"ab\x40\x01x\x01"],
        pieces: &[(65_536, 0), (1, 6)],
        output: &[OPEN, b"offence payload 0 1 12 TableCut\n"],
        ..REFUSED
    },
    Row {
        name: "payloads of another length: a document that is cut",
        input: &[PREAMBLE, b"\x06\x04\x00\x40\x01x"],
        output: &[OPEN, b"offence payload 0 4 22 DocumentCut\n"],
        ..REFUSED
    },
    Row {
        name: "payloads of another length: a document that is cut, without session strings",
        input: &[PLAIN_PREAMBLE, b"\x06\x03\x40\x01x", b"\x07"],
        pieces: &[(65_536, 0), (1, 1)],
        output: &[PLAIN_OPEN, b"offence payload 0 3 22 DocumentCut\n"],
        ..REFUSED
    },
    Row {
        name: "payloads of another length: a byte behind a document",
        input: &[PREAMBLE, b"\x06\x06\x00\x40\x01x\x01\x01"],
        output: &[OPEN, b"offence payload 0 5 23 TrailingBytes\n"],
        ..REFUSED
    },
    Row {
        name: "an input that ends in a declaration",
        input: &[PLAIN_PREAMBLE, b"\x06\x10\x40\x01x\x08"],
        output: &[PLAIN_OPEN, b"offence frame 23 24 Truncated\n"],
        ..REFUSED
    },
];

fn read_rows() -> &'static [Row] {
    READ
}

fn read_rows_2() -> &'static [Row] {
    READ_2
}

fn numbers_rows() -> &'static [Row] {
    NUMBERS
}

fn numbers_rows_2() -> &'static [Row] {
    NUMBERS_2
}

fn refused_values_rows() -> &'static [Row] {
    REFUSED_VALUES
}

fn refused_values_rows_2() -> &'static [Row] {
    REFUSED_VALUES_2
}

fn refused_nodes_rows() -> &'static [Row] {
    REFUSED_NODES
}

fn refused_nodes_rows_2() -> &'static [Row] {
    REFUSED_NODES_2
}

fn refused_nodes_rows_3() -> &'static [Row] {
    REFUSED_NODES_3
}

pub fn assert_all(
    rt: &(impl Abort + AllocGlobal + Threads + Wait + Sync),
) -> Result<(), AllocError> {
    assert_rows(rt, read_rows())?;
    assert_rows(rt, read_rows_2())?;
    assert_rows(rt, numbers_rows())?;
    assert_rows(rt, numbers_rows_2())?;
    assert_rows(rt, refused_values_rows())?;
    assert_rows(rt, refused_values_rows_2())?;
    assert_rows(rt, refused_nodes_rows())?;
    assert_rows(rt, refused_nodes_rows_2())?;
    assert_rows(rt, refused_nodes_rows_3())
}
