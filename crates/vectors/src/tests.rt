ghost use Rattle.std.specs.Prelude.{◌≡◌, ◌≤◌};

use dump_replay::run::{Ran, run};
use io_edges::{MemoryShelf, MemorySink, MemorySource, MemoryWire};
use std::alloc::{AllocError, Global};
use std::collections::BTreeMap;
use std::process::Abort;
use std::sync::Wait;
use std::test::Fail;
use std::thread::Threads;

mod addressing;
mod building;
mod calls;
mod captures;
mod chains;
mod content_types;
mod failures;
mod failures_in_turn;
mod generating;
mod modes;
mod other_words;
mod peers;
mod pools;
mod read_back;
mod records;
mod rehearsing;
mod relays;
mod replays;
mod replies;
mod rows;
mod serves;
mod streams;
mod turns;
mod two_ways;
mod values;
mod words;
mod worked_builds;
mod worked_quotas;
mod worked_replays;
mod worked_streams;
mod writes_in_turn;

use peers::{Peer, assert_got, wire_of};
use rows::*;

// Appends the words of a text, between which there is a space each; of no text, none.
fn push_words(alloc: Global, words: &str, list: &mut Vec<String>) -> Result<(), AllocError> {
    if words.is_empty() {
        return Ok(());
    }
    for word in words.split(' ') {
        list.push(String::from_str(alloc, word)?)?;
    }
    Ok(())
}

fn listed(alloc: Global, words: &str, options: &str) -> Result<Vec<String>, AllocError> {
    let mut list = Vec::new(alloc);
    push_words(alloc, words, &mut list)?;
    push_words(alloc, options, &mut list)?;
    Ok(list)
}

// The part `LONG` is these bytes so many times.
fn joined(alloc: Global, parts: &[&[u8]], long: (usize, &[u8])) -> Result<Vec<u8>, AllocError> {
    let (times, text) = long;
    let mut bytes = Vec::new(alloc);
    for &part in parts {
        if part == LONG {
            for _ in 0..times {
                bytes.extend_from_slice(text)?;
            }
        } else {
            bytes.extend_from_slice(part)?;
        }
    }
    Ok(bytes)
}

// The calls that fail of a plan in which one may.
fn failing(alloc: Global, call: Option<u64>) -> Result<Vec<u64>, AllocError> {
    let mut calls = Vec::new(alloc);
    if let Some(call) = call {
        calls.push(call)?;
    }
    Ok(calls)
}

fn put_file(
    alloc: Global,
    files: &mut BTreeMap<String, Vec<u8>>,
    name: &str,
    file: &[u8],
) -> Result<(), AllocError> {
    let file = file.to_vec(alloc)?;
    files.insert(String::from_str(alloc, name)?, file)?;
    Ok(())
}

fn shelf_of(alloc: Global, row: &Row) -> Result<MemoryShelf, AllocError> {
    let fetches = failing(alloc, row.fetch)?;
    let mut files = BTreeMap::new(alloc);
    put_file(alloc, &mut files, "S", STATICS)?;
    for (name, file) in row.files {
        put_file(alloc, &mut files, name, file)?;
    }
    Ok(MemoryShelf::new(files, fetches))
}

fn one_or_more(most: usize) -> usize
    ensures { 1 ≤ result }
{
    if most == 0 { 1 } else { most }
}

fn source_of(
    alloc: Global,
    bytes: &[u8],
    most: usize,
    failed: Option<u64>,
) -> Result<MemorySource, AllocError> {
    let most = one_or_more(most);
    let bytes = bytes.to_vec(alloc)?;
    Ok(MemorySource::new(bytes, most, failing(alloc, failed)?))
}

fn sink_of(alloc: Global, failed: Option<u64>, kept: usize) -> Result<MemorySink, AllocError> {
    Ok(MemorySink::new(alloc, failing(alloc, failed)?, kept))
}

fn notes_of(alloc: Global, row: &Row) -> Result<MemorySink, AllocError> {
    match row.noted {
        Some(kept) => sink_of(alloc, Some(0), kept),
        None => sink_of(alloc, None, 0),
    }
}

// Runs the program on fakes.
fn run_on_fakes(
    rt: &(impl Threads + Wait + Sync),
    alloc: Global,
    row: &Row,
    words: &[String],
    input: MemorySource,
    notes: &mut MemorySink,
    wire: &mut MemoryWire,
) -> Result<Ran<MemorySource, MemorySink>, AllocError>
    requires { wire.old.out ≡ 0 }
{
    let mut shelf = shelf_of(alloc, row)?;
    let output = sink_of(alloc, row.put, row.kept)?;
    Ok(run(rt, alloc, words, &mut shelf, input, output, notes, wire))
}

pub fn assert_bytes(
    rt: &(impl Abort + AllocGlobal + Threads + Wait + Sync),
    row: &Row,
    bytes: &[u8],
    due: &[u8],
) {
    let name = row.name;
    assert_eq!(rt; bytes, due, "{name}");
}

// Asserts what a run leaves: the status, the output, the note, and what isn't taken of the input.
fn assert_ran(
    rt: &(impl Abort + AllocGlobal + Threads + Wait + Sync),
    row: &Row,
    ran: &Ran<MemorySource, MemorySink>,
    output: &[u8],
    note: &[u8],
    rest: &[u8],
) {
    let name = row.name;
    assert_eq!(rt; ran.status, row.status, "{name}");
    assert_bytes(rt, row, ran.output.bytes(), output);
    assert_bytes(rt, row, note, row.note.as_bytes());
    assert_bytes(rt, row, ran.input.rest(), rest);
}

// Asserts what a row leaves where its input comes in pieces of at most so many bytes.
fn assert_left(
    rt: &(impl Abort + AllocGlobal + Threads + Wait + Sync),
    row: &Row,
    words: &[String],
    input: &[u8],
    output: &[u8],
    piece: (usize, usize),
) -> Result<(), AllocError> {
    let alloc = rt.alloc();
    let (most, left) = piece;
    let taken = input.len().saturating_sub(left);
    let rest = input.get(taken..).unwrap_or(b"");
    let source = source_of(alloc, input, most, row.take)?;
    let mut notes = notes_of(alloc, row)?;
    let mut wire = wire_of(alloc, row)?;
    let ran = run_on_fakes(rt, alloc, row, words, source, &mut notes, &mut wire)?;
    assert_ran(rt, row, &ran, output, notes.bytes(), rest);
    assert_got(rt, row, &wire)
}

// The same of these words, in each of the row's pieces.
fn assert_asked(
    rt: &(impl Abort + AllocGlobal + Threads + Wait + Sync),
    row: &Row,
    words: &[String],
) -> Result<(), AllocError> {
    let input = joined(rt.alloc(), row.input, row.long)?;
    let output = joined(rt.alloc(), row.output, row.long)?;
    for &piece in row.pieces {
        assert_left(rt, row, words, &input, &output, piece)?;
    }
    Ok(())
}

fn assert_rows(
    rt: &(impl Abort + AllocGlobal + Threads + Wait + Sync),
    rows: &[Row],
) -> Result<(), AllocError> {
    for row in rows {
        let words = listed(rt.alloc(), row.words, row.options)?;
        assert_asked(rt, row, &words)?;
    }
    Ok(())
}

fn assert_streams(
    rt: &(impl Abort + AllocGlobal + Threads + Wait + Sync),
) -> Result<(), AllocError> {
    streams::assert_all(rt)?;
    modes::assert_all(rt)?;
    records::assert_all(rt)?;
    replies::assert_all(rt)?;
    failures::assert_all(rt)?;
    failures_in_turn::assert_all(rt)?;
    worked_quotas::assert_all(rt)?;
    worked_streams::assert_all(rt)
}

fn assert_documents(
    rt: &(impl Abort + AllocGlobal + Threads + Wait + Sync),
) -> Result<(), AllocError> {
    building::assert_all(rt)?;
    values::assert_all(rt)?;
    worked_builds::assert_all(rt)?;
    generating::assert_all(rt)?;
    rehearsing::assert_all(rt)
}

fn assert_sessions(
    rt: &(impl Abort + AllocGlobal + Threads + Wait + Sync),
) -> Result<(), AllocError> {
    replays::assert_all(rt)?;
    worked_replays::assert_all(rt)?;
    addressing::assert_all(rt)?;
    serves::assert_all(rt)?;
    calls::assert_all(rt)?;
    content_types::assert_all(rt)?;
    two_ways::assert_all(rt)?;
    chains::assert_all(rt)?;
    relays::assert_all(rt)?;
    pools::assert_all(rt)?;
    writes_in_turn::assert_all(rt)
}

fn assert_words(rt: &(impl Abort + AllocGlobal + Threads + Wait + Sync)) -> Result<(), AllocError> {
    words::assert_all(rt)?;
    other_words::assert_all(rt)
}

// Of `check` and `dump`.
#[test]
fn streams_are_reported(rt: HostRuntime) -> Result<(), Fail> {
    Ok(assert_streams(&rt)?)
}

// Of `build`, `gen` and `rehearse`.
#[test]
fn sessions_are_made(rt: HostRuntime) -> Result<(), Fail> {
    Ok(assert_documents(&rt)?)
}

// Of `replay`, `serve` and `call`.
#[test]
fn sessions_are_answered_and_sent(rt: HostRuntime) -> Result<(), Fail> {
    Ok(assert_sessions(&rt)?)
}

#[test]
fn words_are_understood_or_not(rt: HostRuntime) -> Result<(), Fail> {
    Ok(assert_words(&rt)?)
}
