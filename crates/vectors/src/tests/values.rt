// What stands in an element `x`, and the envelope that `build` writes of that document.
use super::building::{BUILD, CLOSE, START};
use super::*;

const VALUE: Row = Row {
    pieces: WHOLE,
    ..BUILD
};

const VALUES: &[Row] = &[
    Row {
        name: "values in the chosen spelling: the number 0",
        input: &[START, b"text number 0\n", CLOSE],
        output: &[PREAMBLE, b"\x06\x06\x02\x01x\x42\x01\x81", END],
        ..VALUE
    },
    Row {
        name: "values in the chosen spelling: the number 1",
        input: &[START, b"text number 1\n", CLOSE],
        output: &[PREAMBLE, b"\x06\x06\x02\x01x\x42\x01\x83", END],
        ..VALUE
    },
    Row {
        name: "values in the chosen spelling: the greatest of one byte",
        input: &[START, b"text number 127\n", CLOSE],
        output: &[PREAMBLE, b"\x06\x07\x02\x01x\x42\x01\x89\x7F", END],
        ..VALUE
    },
    Row {
        name: "values in the chosen spelling: the least of one byte",
        input: &[START, b"text number -128\n", CLOSE],
        output: &[PREAMBLE, b"\x06\x07\x02\x01x\x42\x01\x89\x80", END],
        ..VALUE
    },
    Row {
        name: "values in the chosen spelling: the least beyond one byte",
        input: &[START, b"text number 128\n", CLOSE],
        output: &[PREAMBLE, b"\x06\x08\x02\x01x\x42\x01\x8B\x80\x00", END],
        ..VALUE
    },
    Row {
        name: "values in the chosen spelling: the number 5",
        input: &[START, b"text number 5\n", CLOSE],
        output: &[PREAMBLE, b"\x06\x07\x02\x01x\x42\x01\x89\x05", END],
        ..VALUE
    },
];

const VALUES_2: &[Row] = &[
    Row {
        name: "values in the chosen spelling: 2^63",
        input: &[START, b"text number 9223372036854775808\n", CLOSE],
        output: &[
            PREAMBLE,
            b"\x06\x0E\x02\x01x\x42\x01\xB3\x00\x00\x00\x00\x00\x00\x00\x80",
            END,
        ],
        ..VALUE
    },
    Row {
        name: "values in the chosen spelling: 2^64 - 1",
        input: &[START, b"text number 18446744073709551615\n", CLOSE],
        output: &[
            PREAMBLE,
            b"\x06\x0E\x02\x01x\x42\x01\xB3\xFF\xFF\xFF\xFF\xFF\xFF\xFF\xFF",
            END,
        ],
        ..VALUE
    },
    Row {
        name: "values in the chosen spelling: an empty text",
        input: &[START, b"text string \"\"\n", CLOSE],
        output: &[PREAMBLE, b"\x06\x06\x02\x01x\x42\x01\xA9", END],
        ..VALUE
    },
    Row {
        name: "values in the chosen spelling: a text",
        input: &[START, b"text string \"hi\"\n", CLOSE],
        output: &[PREAMBLE, b"\x06\x09\x02\x01x\x42\x01\x99\x02hi", END],
        ..VALUE
    },
    Row {
        name: "values in the chosen spelling: a text that the static strings have",
        input: &[START, b"text string \"Header\"\n", CLOSE],
        output: &[PREAMBLE, b"\x06\x07\x02\x01x\x42\x01\xAB\x08", END],
        ..VALUE
    },
    Row {
        name: "values in the chosen spelling: a text that the session has",
        input: &[START, b"text string \"x\"\n", CLOSE],
        output: &[PREAMBLE, b"\x06\x07\x02\x01x\x42\x01\xAB\x01", END],
        ..VALUE
    },
];

const VALUES_3: &[Row] = &[
    Row {
        name: "values in the chosen spelling: a list",
        input: &[START, b"text list 1 number 0\n", CLOSE],
        output: &[PREAMBLE, b"\x06\x08\x02\x01x\x42\x01\xA4\x80\xA7", END],
        ..VALUE
    },
    Row {
        name: "values in the chosen spelling: a list before a comment",
        input: &[START, b"text list 1 number 0\ncomment \"\"\n", CLOSE],
        output: &[
            PREAMBLE,
            b"\x06\x0B\x02\x01x\x42\x01\xA4\x80\xA6\x02\x00\x01",
            END,
        ],
        ..VALUE
    },
    Row {
        name: "values in the chosen spelling: two truth values",
        input: &[START, b"text truth true\ntext truth false\n", CLOSE],
        output: &[PREAMBLE, b"\x06\x07\x02\x01x\x42\x01\x86\x85", END],
        ..VALUE
    },
    Row {
        name: "an array is written with its values",
        input: &[
            START,
            b"array int32 \"\" \"a\"\nvalues number 1 number 2 number -1\n",
            CLOSE,
        ],
        output: &[
            PREAMBLE,
            b"\x06\x1A\x04\x01x\x01a\x42\x01\x03\x42\x03\x01\x8D\x03\x01\x00\x00\x00\x02\x00\
\x00\x00\xFF\xFF\xFF\xFF\x01",
            END,
        ],
        ..VALUE
    },
    Row {
        name: "a name is written out where the dictionary is full",
        input: &[
            b"start \"\" \"",
            LONG,
            b"\"\nclose\nstart \"\" \"b\"\nclose\n",
        ],
        long: (2_048, b"a"),
        output: &[
            PREAMBLE,
            b"\x06\x87\x10\x82\x10\x80\x10",
            LONG,
            b"\x42\x01\x01",
            b"\x06\x05\x00\x40\x01b\x01",
            END,
        ],
        ..VALUE
    },
];

fn values_rows() -> &'static [Row] {
    VALUES
}

fn values_rows_2() -> &'static [Row] {
    VALUES_2
}

fn values_rows_3() -> &'static [Row] {
    VALUES_3
}

pub fn assert_all(
    rt: &(impl Abort + AllocGlobal + Threads + Wait + Sync),
) -> Result<(), AllocError> {
    assert_rows(rt, values_rows())?;
    assert_rows(rt, values_rows_2())?;
    assert_rows(rt, values_rows_3())
}
