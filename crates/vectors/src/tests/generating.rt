// Sessions that are made and measured.
use super::*;

// The input isn't read.
const GEN: Row = Row {
    words: "nettcp gen --static=S --seed=0",
    pieces: UNREAD,
    ..CHECK
};

const MADE: &[Row] = &[
    Row {
        name: "a session that is made has a line: one document",
        options: "--count=1 --session=1000",
        output: &[b"gen documents 1 bytes 345 strings 3 used 5\n"],
        ..GEN
    },
    Row {
        name: "a session that is made has a line: no documents",
        options: "--count=0 --session=1000",
        output: &[b"gen documents 0 bytes 24 strings 0 used 0\n"],
        ..GEN
    },
    Row {
        name: "a session that is made beyond its quota",
        options: "--count=1 --session=344",
        status: 10,
        output: &[],
        note: "offence frame 344 25 SessionTooLong\n",
        ..GEN
    },
];

fn made_rows() -> &'static [Row] {
    MADE
}

pub fn assert_all(
    rt: &(impl Abort + AllocGlobal + Threads + Wait + Sync),
) -> Result<(), AllocError> {
    assert_rows(rt, made_rows())
}
