// A peer that two lists of documents are sent to on one session.
use client::{ClientIn, ClientOut, Lane, LanesOutcome, Reported, call_lanes};
use document_lines::read_documents;
use io_edges::{MemorySink, MemorySource};
use nbfx_values::{Docs, Encoding, Kind, Mode, Quotas, Two};
use static_dictionary::StaticTable;
use std::alloc::Global;
use std::process::Abort;
use std::sync::Wait;
use std::test::Fail;
use std::thread::Threads;

const STATICS: &[u8] = b"id,string\n0,mustUnderstand\n";

const THREE: &[u8] = b"start \"\" \"x\"\nclose\nstart \"\" \"x\"\nclose\nstart \"\" \"x\"\nclose\n";

const PREAMBLE: &[u8] = b"\x00\x01\x00\x01\x02\x02\x0Dnet.tcp://h/e\x03\x08\x0C";

// The first envelope brings the string.
const FIRST: &[u8] = b"\x06\x06\x02\x01x\x42\x01\x01";

const NEXT: &[u8] = b"\x06\x04\x00\x42\x01\x01";

fn documents(alloc: Global, lines: &[u8]) -> Result<Docs, Fail> {
    match read_documents(alloc, lines) {
        Ok(docs) => Ok(docs),
        Err(_) => Err("no documents".into()),
    }
}

// What becomes of the call, and of what it sends to.
fn call_of<R: Threads + Wait + Sync>(
    rt: &R,
    alloc: Global,
    source: MemorySource,
    sink: MemorySink,
    statics: &StaticTable,
    a: &Docs,
    b: &Docs,
) -> (LanesOutcome, MemorySink) {
    let report = MemorySink::new(alloc, Vec::new(alloc), 0);
    let quotas = Two {
        forward: Quotas::usual(),
        back: Quotas::usual(),
    };
    let (outcome, _source, sink, _report) = call_lanes(
        rt,
        alloc,
        source,
        sink,
        report,
        statics,
        &quotas,
        Mode::Duplex,
        Encoding::Known(Kind::Session),
        "net.tcp://h/e",
        a,
        b,
    );
    (outcome, sink)
}

// The peer accepts, and ends the session. The puts with these numbers fail.
fn called<R: Threads + Wait + Sync>(
    rt: &R,
    alloc: Global,
    a: &[u8],
    b: &[u8],
    failing: &[u64],
) -> Result<(LanesOutcome, MemorySink), Fail> {
    let statics = StaticTable::read(alloc, STATICS)?;
    let a = documents(alloc, a)?;
    let b = documents(alloc, b)?;
    let source = MemorySource::new(b"\x0B\x07".to_vec(alloc)?, 1, Vec::new(alloc));
    let sink = MemorySink::new(alloc, failing.to_vec(alloc)?, 0);
    Ok(call_of(rt, alloc, source, sink, &statics, &a, &b))
}

// The bytes of a session of so many of these documents, in whatever order.
fn session(alloc: Global, count: u64) -> Result<Vec<u8>, Fail> {
    let mut bytes = PREAMBLE.to_vec(alloc)?;
    for number in 0..count {
        bytes.extend_from_slice(if number == 0 { FIRST } else { NEXT })?;
    }
    bytes.push(7)?;
    Ok(bytes)
}

fn count_of(lane: Lane, tags: &[Lane]) -> usize {
    tags.iter().filter(|tag| **tag == lane).count()
}

// Both ended well, and three documents of each list were sent.
fn are_sent(outcome: &LanesOutcome) -> bool {
    outcome.inbound == ClientIn::Ended
        && outcome.outbound == ClientOut::Done
        && outcome.report == Reported::Done
        && outcome.sent == 6
        && count_of(Lane::A, &outcome.tags) == 3
        && count_of(Lane::B, &outcome.tags) == 3
}

pub fn documents_of_both_lists_are_sent(
    rt: &(impl Abort + AllocGlobal + Threads + Wait + Sync),
) -> Result<(), Fail> {
    let (outcome, sink) = called(rt, rt.alloc(), THREE, THREE, &[])?;
    assert!(rt; are_sent(&outcome));
    let whole = session(rt.alloc(), 6)?;
    assert!(rt; sink.bytes() == whole.as_slice());
    Ok(())
}

pub fn the_first_list_may_be_empty(
    rt: &(impl Abort + AllocGlobal + Threads + Wait + Sync),
) -> Result<(), Fail> {
    let (outcome, sink) = called(rt, rt.alloc(), b"", THREE, &[])?;
    assert_eq!(rt; outcome.sent, 3);
    assert!(rt; outcome.tags.as_slice() == [Lane::B, Lane::B, Lane::B].as_slice());
    let whole = session(rt.alloc(), 3)?;
    assert!(rt; sink.bytes() == whole.as_slice());
    Ok(())
}

pub fn a_failed_write_ends_the_writing_alone(
    rt: &(impl Abort + AllocGlobal + Threads + Wait + Sync),
) -> Result<(), Fail> {
    let (outcome, sink) = called(rt, rt.alloc(), THREE, THREE, &[1])?;
    assert_eq!(rt; outcome.inbound, ClientIn::Ended);
    assert_eq!(rt; outcome.outbound, ClientOut::WriteFault);
    assert_eq!(rt; outcome.sent, outcome.tags.len() as u64);
    let whole = session(rt.alloc(), 6)?;
    assert!(rt; whole.starts_with(sink.bytes()));
    Ok(())
}
