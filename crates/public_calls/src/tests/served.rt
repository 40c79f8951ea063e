// An answer that doesn't fit, and two threads that answer.
ghost use Rattle.std.specs.Prelude.{◌≤◌};

use action_dispatch::EchoService;
use duplex_server::{Inbound, Outbound, Outcome, serve_one, serve_two};
use io_edges::{MemorySink, MemorySource};
use nbfx_values::{Quotas, Two};
use receiver_machine::Endpoint;
use static_dictionary::StaticTable;
use std::alloc::{AllocError, Global};
use std::process::Abort;
use std::sync::Wait;
use std::test::Fail;
use std::thread::Threads;

pub const STATICS: &[u8] = b"id,string\n0,mustUnderstand\n2,Envelope\n\
4,http://www.w3.org/2003/05/soap-envelope\n6,http://www.w3.org/2005/08/addressing\n\
8,Header\n10,Action\n14,Body\n26,MessageID\n";

// A preamble, and a request up to the 4,032 bytes of the text in its Body. Its payload has 4,091.
const FRONT: &[u8] = b"\x00\x01\x00\x01\x02\x02\x0Dnet.tcp://h/e\x03\x08\x0C\
\x06\xFB\x1F\x02\x01x\x56\x02\x0B\x01s\x04\x0B\x01a\x06\x56\x08\x44\x0A\x1E\x00\x82\
\x99\x08urn:echo\x44\x1A\xAD\x33\x22\x11\x00\x55\x44\x77\x66\x88\x99\xAA\xBB\xCC\xDD\xEE\xFF\
\x01\x56\x0E\x42\x01\x9B\xC0\x0F";

pub fn session(alloc: Global) -> Result<Vec<u8>, AllocError> {
    let mut bytes = FRONT.to_vec(alloc)?;
    for _ in 0..4_032 {
        bytes.push(b'a')?;
    }
    bytes.extend_from_slice(b"\x01\x01\x07")?;
    Ok(bytes)
}

// Quotas of both directions, which differ from the usual ones in that on payloads.
pub fn with_payload(most: u32) -> Result<Two, Fail> {
    let quotas = Quotas::of(most, 5, 2_048, 262_144, 2_048, 1 << 48).ok_or("good quotas")?;
    Ok(Two {
        forward: quotas,
        back: quotas,
    })
}

fn echoed(alloc: Global, quotas: &Two) -> Result<(Outcome, MemorySink), Fail> {
    let statics = StaticTable::read(alloc, STATICS)?;
    let mut source = MemorySource::new(session(alloc)?, 65_536, Vec::new(alloc));
    let mut sink = MemorySink::new(alloc, Vec::new(alloc), 0);
    let outcome = serve_one(
        alloc,
        &mut source,
        &mut sink,
        &statics,
        quotas,
        &Endpoint::Any,
        &EchoService,
    );
    Ok((outcome, sink))
}

// Its echo would have more than 4,096 bytes.
pub fn a_fault_goes_in_place_of_an_answer_that_does_not_fit(
    rt: &(impl Abort + AllocGlobal + Threads + Wait + Sync),
) -> Result<(), Fail> {
    let quotas = with_payload(4_096)?;
    let (outcome, sink) = echoed(rt.alloc(), &quotas)?;
    let served = Outcome {
        messages: 1,
        answers: 1,
        inbound: Inbound::Ended,
        outbound: Outbound::Done,
    };
    assert_eq!(rt; outcome, served);
    // After the reason the four elements end that are open, and the session.
    let ending = b"The reply does not fit.\x01\x01\x01\x01\x07";
    assert!(rt; sink.bytes().ends_with(ending));
    Ok(())
}

// The same on two threads, where the source gives at most so many bytes at a take, and this put of
// the sink fails and keeps three bytes.
fn echoed_by_two(
    rt: &(impl Threads + Wait + Sync),
    alloc: Global,
    quotas: &Two,
    most: usize,
    failing: &[u64],
) -> Result<(Outcome, MemorySink), Fail>
    requires { 1 ≤ most }
{
    let statics = StaticTable::read(alloc, STATICS)?;
    let source = MemorySource::new(session(alloc)?, most, Vec::new(alloc));
    let sink = MemorySink::new(alloc, failing.to_vec(alloc)?, 3);
    let (outcome, _, sink) = serve_two(
        rt,
        alloc,
        source,
        sink,
        &statics,
        quotas,
        &Endpoint::Any,
        &EchoService,
    );
    Ok((outcome, sink))
}

// Whether two threads that read so many bytes at a time write what one does.
fn is_alike(
    rt: &(impl Threads + Wait + Sync),
    alloc: Global,
    quotas: &Two,
    most: usize,
    outcome: Outcome,
    alone: &MemorySink,
) -> Result<bool, Fail>
    requires { 1 ≤ most }
{
    let (beside, sink) = echoed_by_two(rt, alloc, quotas, most, &[])?;
    Ok(beside == outcome && sink.bytes() == alone.bytes())
}

// Whether they write first bytes of that where this put fails, and read the session to its end.
fn is_cut(
    rt: &(impl Threads + Wait + Sync),
    alloc: Global,
    quotas: &Two,
    failed: u64,
    alone: &MemorySink,
) -> Result<bool, Fail> {
    let (beside, sink) = echoed_by_two(rt, alloc, quotas, 65_536, &[failed])?;
    let is_read = beside.messages == 1 && beside.inbound == Inbound::Ended;
    let is_front = alone.bytes().starts_with(sink.bytes()) && sink.bytes().starts_with(b"\x0B");
    Ok(is_read && beside.outbound == Outbound::WriteFault && is_front)
}

// Two threads write what one does, also where they read a byte at a time; where a write fails, first
// bytes of that, and the session is read to its end all the same.
pub fn two_threads_write_what_one_does(
    rt: &(impl Abort + AllocGlobal + Threads + Wait + Sync),
) -> Result<(), Fail> {
    let alloc = rt.alloc();
    let quotas = with_payload(8_192)?;
    let (outcome, alone) = echoed(alloc, &quotas)?;
    for most in [1, 65_536] {
        assert!(rt; is_alike(rt, alloc, &quotas, most, outcome, &alone)?);
    }
    for failed in [0, 1] {
        assert!(rt; is_cut(rt, alloc, &quotas, failed, &alone)?);
    }
    Ok(())
}
