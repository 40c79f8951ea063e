// A peer that is called with documents.
use client::{CallOutcome, ClientIn, ClientOut, Reported, call_one};
use document_lines::read_documents;
use io_edges::{MemorySink, MemorySource};
use nbfx_values::{Docs, Encoding, Kind, Mode, Quotas, Two};
use static_dictionary::StaticTable;
use std::alloc::Global;
use std::process::Abort;
use std::test::Fail;

const STATICS: &[u8] = b"id,string\n0,mustUnderstand\n";

const TWO: &[u8] = b"start \"\" \"x\"\nclose\nstart \"\" \"x\"\nclose\n";

// The preamble, two envelopes of which the first brings the string, and End.
const SESSION: &[u8] = b"\x00\x01\x00\x01\x02\x02\x0Dnet.tcp://h/e\x03\x08\x0C\
\x06\x06\x02\x01x\x42\x01\x01\x06\x04\x00\x42\x01\x01\x07";

fn documents(alloc: Global) -> Result<Docs, Fail> {
    match read_documents(alloc, TWO) {
        Ok(docs) => Ok(docs),
        Err(_) => Err("no documents".into()),
    }
}

// The peer accepts, and ends the session.
fn called(alloc: Global) -> Result<(CallOutcome, MemorySink), Fail> {
    let statics = StaticTable::read(alloc, STATICS)?;
    let docs = documents(alloc)?;
    let mut source = MemorySource::new(b"\x0B\x07".to_vec(alloc)?, 1, Vec::new(alloc));
    let mut sink = MemorySink::new(alloc, Vec::new(alloc), 0);
    let mut report = MemorySink::new(alloc, Vec::new(alloc), 0);
    let quotas = Two {
        forward: Quotas::usual(),
        back: Quotas::usual(),
    };
    let outcome = call_one(
        alloc,
        &mut source,
        &mut sink,
        &mut report,
        &statics,
        &quotas,
        Mode::Duplex,
        Encoding::Known(Kind::Session),
        "net.tcp://h/e",
        &docs,
    );
    Ok((outcome, sink))
}

pub fn documents_are_sent_to_a_peer_that_accepts(
    rt: &(impl Abort + AllocGlobal),
) -> Result<(), Fail> {
    let (outcome, sink) = called(rt.alloc())?;
    let sent = CallOutcome {
        sent: 2,
        inbound: ClientIn::Ended,
        outbound: ClientOut::Done,
        report: Reported::Done,
    };
    assert_eq!(rt; outcome, sent);
    assert!(rt; sink.bytes() == SESSION);
    Ok(())
}
