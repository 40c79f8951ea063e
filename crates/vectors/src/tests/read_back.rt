// What is dumped of captured sessions is read back as documents, which are put as the same lines.
use super::captures::{
    ONE, ONE_REPLIES, ONEWAY5, ONEWAY5_REPLIES, STREAMED, STREAMED_REPLIES, TWENTY, TWENTY_REPLIES,
};
use super::*;
use document_lines::read_documents;
use io_edges::SinkFault;
use line_notation::print;
use nbfx_values::Docs;

fn is_of_a_document(line: &str) -> bool {
    let is_of_the_report = line.starts_with("open ")
        || line == "accepted"
        || line.starts_with("message ")
        || line.starts_with("ended ")
        || line.starts_with("offence ");
    !is_of_the_report
}

// The lines of the documents in a dump.
fn document_lines(alloc: Global, dump: &str) -> Result<String, AllocError> {
    let mut lines = String::new(alloc);
    for line in dump.lines() {
        if is_of_a_document(line) {
            lines.push_str(line)?;
            lines.push('\n')?;
        }
    }
    Ok(lines)
}

fn printed(alloc: Global, docs: &Docs) -> Result<MemorySink, SinkFault> {
    let mut sink = MemorySink::new(alloc, Vec::new(alloc), 0);
    for doc in docs.as_slice() {
        print(doc, &mut sink)?;
    }
    Ok(sink)
}

// The first run of a row, in one piece.
fn ran(
    rt: &(impl AllocGlobal + Threads + Wait + Sync),
    row: &Row,
) -> Result<Ran<MemorySource, MemorySink>, AllocError> {
    let alloc = rt.alloc();
    let words = listed(alloc, row.words, row.options)?;
    let input = joined(alloc, row.input, row.long)?;
    let source = source_of(alloc, &input, 65_536, row.take)?;
    let mut notes = notes_of(alloc, row)?;
    let mut wire = wire_of(alloc, row)?;
    run_on_fakes(rt, alloc, row, &words, source, &mut notes, &mut wire)
}

// The lines of the documents that a row dumps.
fn dumped(rt: &(impl AllocGlobal + Threads + Wait + Sync), row: &Row) -> Result<String, Fail> {
    let ran = ran(rt, row)?;
    if ran.status != row.status {
        return Err("another status".into());
    }
    Ok(document_lines(rt.alloc(), str::from_utf8(ran.output.bytes())?)?)
}

fn read(alloc: Global, lines: &str) -> Result<Docs, Fail> {
    match read_documents(alloc, lines.as_bytes()) {
        Ok(docs) => Ok(docs),
        Err(_) => Err("no documents".into()),
    }
}

// Asserts that the dump of a row has so many documents, and that they are read back out of it.
fn assert_read_back(
    rt: &(impl Abort + AllocGlobal + Threads + Wait + Sync),
    row: &Row,
    documents: usize,
) -> Result<(), Fail> {
    let alloc = rt.alloc();
    let name = row.name;
    let lines = dumped(rt, row)?;
    let docs = read(alloc, lines.as_str())?;
    assert_eq!(rt; docs.len(), documents, "{name}");
    let again = printed(alloc, &docs)?;
    assert!(rt; again.bytes() == lines.as_bytes(), "{name}");
    Ok(())
}

const SENT: Row = Row {
    words: DUMP_ONE,
    ..CHECK
};

// The server of the captured sessions never sends End.
const SENT_BACK: Row = Row {
    options: "--replies=duplex",
    status: 1,
    ..SENT
};

const CALLS: &[(Row, usize)] = &[
    (
        Row {
            name: "one call",
            input: &[ONE],
            ..SENT
        },
        1,
    ),
    (
        Row {
            name: "one-way messages",
            input: &[ONEWAY5],
            ..SENT
        },
        6,
    ),
    (
        Row {
            name: "twenty calls",
            input: &[TWENTY],
            ..SENT
        },
        20,
    ),
    (
        Row {
            name: "a streamed call",
            input: &[STREAMED],
            ..SENT
        },
        1,
    ),
];

const ANSWERS: &[(Row, usize)] = &[
    (
        Row {
            name: "one answer",
            input: &[ONE_REPLIES],
            ..SENT_BACK
        },
        1,
    ),
    (
        Row {
            name: "the answer behind one-way messages",
            input: &[ONEWAY5_REPLIES],
            ..SENT_BACK
        },
        1,
    ),
    (
        Row {
            name: "twenty answers",
            input: &[TWENTY_REPLIES],
            ..SENT_BACK
        },
        20,
    ),
    (
        Row {
            name: "a streamed answer",
            options: "--replies=singleton --encoding=7",
            input: &[STREAMED_REPLIES],
            ..SENT
        },
        1,
    ),
];

fn calls_rows() -> &'static [(Row, usize)] {
    CALLS
}

fn answers_rows() -> &'static [(Row, usize)] {
    ANSWERS
}

#[test]
fn captured_documents_are_read_back(rt: HostRuntime) -> Result<(), Fail> {
    for table in [calls_rows(), answers_rows()] {
        for (row, documents) in table {
            assert_read_back(&rt, row, *documents)?;
        }
    }
    Ok(())
}
