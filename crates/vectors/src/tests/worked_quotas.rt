// Worked streams at the quotas and beyond them.
use super::*;

// Eight elements, each in the one before.
const EIGHT_DEEP: &[u8] =
    b"\x40\x01x\x40\x01x\x40\x01x\x40\x01x\x40\x01x\x40\x01x\x40\x01x\x40\x01x";

const EIGHT_ENDS: &[u8] = b"\x01\x01\x01\x01\x01\x01\x01\x01";

const QUOTAS: &[Row] = &[
    Row {
        name: "elements at the usual depth quota",
        input: &[
            PREAMBLE,
            b"\x06\x81\x01\x00",
            EIGHT_DEEP,
            EIGHT_DEEP,
            EIGHT_DEEP,
            EIGHT_DEEP,
            EIGHT_ENDS,
            EIGHT_ENDS,
            EIGHT_ENDS,
            EIGHT_ENDS,
            END,
        ],
        output: &[
            OPEN,
            b"message 0 payload 129 items 64 depth 32 content 32 strings 0 used 0\n",
            b"ended 156\n",
        ],
        ..CHECK
    },
    Row {
        name: "elements at a greater depth quota",
        options: "--depth 33",
        input: &[
            PREAMBLE,
            b"\x06\x85\x01\x00",
            EIGHT_DEEP,
            EIGHT_DEEP,
            EIGHT_DEEP,
            EIGHT_DEEP,
            b"\x40\x01x",
            EIGHT_ENDS,
            EIGHT_ENDS,
            EIGHT_ENDS,
            EIGHT_ENDS,
            b"\x01",
            END,
        ],
        output: &[
            OPEN,
            b"message 0 payload 133 items 66 depth 33 content 33 strings 0 used 0\n",
            b"ended 160\n",
        ],
        ..CHECK
    },
    Row {
        name: "elements beyond the usual depth",
        input: &[
            PREAMBLE,
            b"\x06\x64\x00",
            EIGHT_DEEP,
            EIGHT_DEEP,
            EIGHT_DEEP,
            EIGHT_DEEP,
            b"\x40",
            b"\x01x",
        ],
        pieces: &[(65_536, 0), (1, 2)],
        output: &[OPEN, b"offence payload 0 97 20 TooDeep\n"],
        ..REFUSED
    },
    Row {
        name: "elements beyond the usual depth, without session strings",
        input: &[
            PLAIN_PREAMBLE,
            b"\x06\x63",
            EIGHT_DEEP,
            EIGHT_DEEP,
            EIGHT_DEEP,
            EIGHT_DEEP,
            b"\x40",
            b"\x01x",
        ],
        pieces: &[(65_536, 0), (1, 2)],
        output: &[PLAIN_OPEN, b"offence payload 0 96 20 TooDeep\n"],
        ..REFUSED
    },
];

const QUOTAS_2: &[Row] = &[
    Row {
        name: "five elements at the usual depth quota",
        input: &[
            PREAMBLE,
            b"\x06\x15\x00",
            b"\x40\x01x\x40\x01x\x40\x01x\x40\x01x\x40\x01x",
            b"\x01\x01\x01\x01\x01",
            END,
        ],
        output: &[
            OPEN,
            b"message 0 payload 21 items 10 depth 5 content 5 strings 0 used 0\n",
            b"ended 47\n",
        ],
        ..CHECK
    },
    Row {
        name: "five elements beyond a smaller depth quota",
        options: "--depth 4",
        input: &[
            PREAMBLE,
            b"\x06\x15\x00\x40\x01x\x40\x01x\x40\x01x\x40\x01x\x40",
            b"\x01x\x01\x01\x01\x01\x01\x07",
        ],
        pieces: &[(65_536, 0), (1, 8)],
        output: &[OPEN, b"offence payload 0 13 20 TooDeep\n"],
        ..REFUSED
    },
    Row {
        name: "strings beyond the usual dictionary",
        input: &[
            PREAMBLE,
            b"\x06\x88\x10\x82\x10\x80\x10",
            LONG,
            b"\x40\x01x\x01",
            b"\x06\x07\x02\x01",
            b"b\x40\x01x\x01",
        ],
        long: (2_048, b"a"),
        pieces: &[(65_536, 0), (1, 5)],
        output: &[
            OPEN,
            b"message 0 payload 2056 items 2 depth 1 content 1 strings 1 used 2048\n",
            b"offence payload 1 1 14 DictionaryFull\n",
        ],
        ..REFUSED
    },
    Row {
        name: "a greater dictionary quota",
        options: "--dictionary 2049",
        input: &[
            PREAMBLE,
            b"\x06\x88\x10\x82\x10\x80\x10",
            LONG,
            b"\x40\x01x\x01",
            b"\x06\x07\x02\x01b\x40\x01x\x01\x07",
        ],
        long: (2_048, b"a"),
        output: &[
            OPEN,
            b"message 0 payload 2056 items 2 depth 1 content 1 strings 1 used 2048\n",
            b"message 1 payload 7 items 2 depth 1 content 1 strings 2 used 2049\n",
            b"ended 2092\n",
        ],
        ..CHECK
    },
    Row {
        name: "no dictionary",
        options: "--dictionary 0",
        input: &[PREAMBLE, b"\x06\x06\x02\x01", b"x\x42\x01\x01\x07"],
        pieces: &[(65_536, 0), (1, 5)],
        output: &[OPEN, b"offence payload 0 1 14 DictionaryFull\n"],
        ..REFUSED
    },
];

const QUOTAS_3: &[Row] = &[
    Row {
        name: "content within the usual quota",
        input: &[
            PREAMBLE,
            b"\x06\xDD\x0F\xD2\x0F\xD0\x0F",
            LONG,
            b"\x42\x01\x42\x01\x42\x01",
            b"\x01\x01\x01\x07",
        ],
        long: (2_000, b"a"),
        output: &[
            OPEN,
            b"message 0 payload 2013 items 6 depth 3 content 6000 strings 1 used 2000\n",
            b"ended 2040\n",
        ],
        ..CHECK
    },
    Row {
        name: "content within the usual quota of small payloads",
        words: CHECK_ONE,
        options: "--payload=4096",
        input: &[
            PREAMBLE,
            b"\x06\xDD\x0F\xD2\x0F\xD0\x0F",
            LONG,
            b"\x42\x01\x42\x01\x42\x01",
            b"\x01\x01\x01\x07",
        ],
        long: (2_000, b"a"),
        output: &[
            OPEN,
            b"message 0 payload 2013 items 6 depth 3 content 6000 strings 1 used 2000\n",
            b"ended 2040\n",
        ],
        ..CHECK
    },
    Row {
        name: "content at a quota",
        words: CHECK_ONE,
        options: "--payload=4096 --content=6000",
        input: &[
            PREAMBLE,
            b"\x06\xDD\x0F\xD2\x0F\xD0\x0F",
            LONG,
            b"\x42\x01\x42\x01\x42\x01",
            b"\x01\x01\x01\x07",
        ],
        long: (2_000, b"a"),
        output: &[
            OPEN,
            b"message 0 payload 2013 items 6 depth 3 content 6000 strings 1 used 2000\n",
            b"ended 2040\n",
        ],
        ..CHECK
    },
    Row {
        name: "content beyond a quota",
        words: CHECK_ONE,
        options: "--payload=4096 --content=5999",
        input: &[
            PREAMBLE,
            b"\x06\xDD\x0F\xD2\x0F\xD0\x0F",
            LONG,
            b"\x42\x01\x42\x01\x42\x01",
            b"\x01\x01\x01\x07",
        ],
        long: (2_000, b"a"),
        pieces: &[(65_536, 0), (1, 4)],
        output: &[OPEN, b"offence payload 0 2008 21 TooMuchContent\n"],
        ..REFUSED
    },
];

fn quotas_rows() -> &'static [Row] {
    QUOTAS
}

fn quotas_rows_2() -> &'static [Row] {
    QUOTAS_2
}

fn quotas_rows_3() -> &'static [Row] {
    QUOTAS_3
}

pub fn assert_all(
    rt: &(impl Abort + AllocGlobal + Threads + Wait + Sync),
) -> Result<(), AllocError> {
    assert_rows(rt, quotas_rows())?;
    assert_rows(rt, quotas_rows_2())?;
    assert_rows(rt, quotas_rows_3())
}
