//! A call of two lists of documents, which are sent while the peer's answers are read.

ghost use Rattle.std.specs.Prelude.{◌≡◌, ◌≤◌, ◌++◌, List, ℕ, true, length};
ghost use Rattle.io_edges.specs.Faults.{CountsFaults};
ghost use Rattle.session_ends.specs.Sent.{MayBeSent};
ghost use Rattle.stream_loop.specs.Edges.{Input, input_at};
ghost use Rattle.stream_reader.specs.Stream.{Settings as Reads};
ghost use Rattle.client.specs.Answering.{HasComeSo, IsFollowed};
ghost use Rattle.client.specs.Called.{KnownCall};
ghost use Rattle.client.specs.Lanes.{CallsLanes, SendsLanes, outcome_of};
ghost use Rattle.client.specs.Sent.{sending_within};

use crate::answers::Stage;
use crate::calling::{begin_call, close_call};
use crate::lane_writer::{LaneWriter, Tags};
use crate::outcome::{CallOutcome, ClientIn, ClientOut};
use crate::owned::{OwnedReader, OwnedWriter};
use crate::settings::CallSettings;
use io_edges::{Sink, Source};
use nbfx_values::{Docs, Encoding, Mode, Offence, Two};
use static_dictionary::StaticTable;
use std::alloc::Global;
use std::sync::Wait;
use std::thread::Threads;
use stream_loop::{FollowEnding, Outbound};
use two_lanes::run_lanes;

/// What became of a call by which two lists were sent.
#[derive(Debug, Drop)]
pub struct LanesOutcome {
    /// How many envelopes were written, each whole, as in `CallOutcome`.
    pub sent: u64,
    /// The list of each of them, in the order in which they were written.
    pub tags: Tags,
    /// How the reading of the peer's stream ended.
    pub inbound: ClientIn,
    /// How the writing to the peer ended.
    pub outbound: ClientOut,
    /// How the writing of the report ended.
    pub report: Outbound,
}

// The outcome of a call, with the lists of what was sent.
fn with_tags(called: CallOutcome, tags: Tags) -> LanesOutcome
    ensures outcome { outcome_of result ≡ called }
    ensures tags { result.tags ≡ tags }
{
    LanesOutcome {
        sent: called.sent,
        tags,
        inbound: called.inbound,
        outbound: called.outbound,
        report: called.report,
    }
}

// Sends the documents of both lists while the rest of the peer's stream is read.
fn exchange<'s, R: Threads + Wait + Sync, S: Source + Drop, K: Sink + Send + Drop, O: Sink + Drop>(
    rt: &R,
    alloc: Global,
    settings: CallSettings<'s>,
    a: &'s Docs,
    b: &'s Docs,
    reader: OwnedReader<'s, S, O>,
    sink: K,
) -> (
    OwnedReader<'s, S, O>,
    FollowEnding<Offence>,
    K,
    Tags,
    ClientOut,
)
    requires acked { reader.reader.handler.stage ≡ Stage.Acked }
    requires come { (y : Reads) × (i : Input) × (first : O) × (p : List ℕ)
        × HasComeSo y i (O.view first) p reader.reader
        (input_at S.left S.taken S.faults S.empty_takes reader.source) (O.view reader.output) }
    ensures sends { SendsLanes settings.entry a.entry.now b.entry.now (K.view sink)
        (K.view result.2) result.3.items result.4 }
    ensures ended { K.ended result.2 ≡ true }
    ensures followed { (y : Reads) (i : Input) (first : O) (p : List ℕ)
        → HasComeSo y i (O.view first) p reader.entry.reader
        (input_at S.left S.taken S.faults S.empty_takes reader.entry.source)
        (O.view reader.entry.output)
        → IsFollowed y i (O.view first) Stage.Acked result.0.reader
        (input_at S.left S.taken S.faults S.empty_takes result.0.source) (O.view result.0.output)
        result.1 }
    ensures counted { CountsFaults (S.faults reader.entry.source) (S.faults result.0.source)
        (result.1 ≡ FollowEnding.ReadFault) }
{
    let writer = OwnedWriter {
        a,
        b,
        writer: LaneWriter::new(alloc, settings),
        sink,
    };
    let (sent, done) = run_lanes(rt, alloc, a.len() as u64, b.len() as u64, writer, reader);
    let (reader, ending) = done;
    let OwnedWriter { writer, sink, .. } = sent;
    let (tags, outbound) = writer.into_outcome();
    (reader, ending, sink, tags, outbound)
}

/// Calls the peer whose bytes the source gives and the sink takes (MC-NMF): writes the opening of a
/// session to this Via, reads to the peer's Preamble Ack, and then writes an envelope for each
/// document of two lists and an End record, while it reads on to the end. The documents of each
/// list are sent in order. Which list's comes next isn't fixed: a thread for each names them, and a
/// third one makes and writes the envelopes, within the quotas forward. The peer's stream is read
/// within those back. The report of what is read goes to the output, with its documents; the lines
/// of what came are written before more is read.
///
/// If no Ack is read, nothing is written after the opening. After a failed write to the peer, at a
/// document that doesn't fit, or when out of memory while writing, nothing more is put to the sink
/// and its direction is ended, and reading goes on. After a failed write to the output nothing more
/// is put to the output, and all else goes on. Where the writing thread can't be started, the
/// documents of the first list and then those of the second are written before more is read.
/// Answers what became of it, and gives the source, the sink and the output back.
pub fn call_lanes<
    R: Threads + Wait + Sync,
    S: Source + Drop,
    K: Sink + Send + Drop,
    O: Sink + Drop,
>(
    rt: &R,
    alloc: Global,
    source: S,
    sink: K,
    output: O,
    statics: &StaticTable,
    quotas: &Two,
    mode: Mode,
    encoding: Encoding,
    via: &str,
    a: &Docs,
    b: &Docs,
) -> (LanesOutcome, S, K, O)
    requires via { length via.now ≤ 2048 }
    requires admitted { MayBeSent mode (a.now ++ b.now) }
    ensures calls { CallsLanes (λ documents outcome. KnownCall
        (sending_within quotas.now statics.now mode encoding documents) via.now
        (input_at S.left S.taken S.faults S.empty_takes source)
        (input_at S.left S.taken S.faults S.empty_takes result.1) (K.view sink) (K.view result.2)
        (O.view output) (O.view result.3) outcome) a.now b.now result.0 }
    ensures ended { (result.0.outbound ≡ ClientOut.Done → ⊥) → K.ended result.2 ≡ true }
{
    let settings = CallSettings {
        statics,
        quotas: *quotas,
        mode,
        encoding,
    };
    let (mut source, mut sink, mut output) = (source, sink, output);
    let begun = begin_call(alloc, settings, via, &mut source, &mut sink, &mut output);
    let reader = match begun {
        Ok(reader) => reader,
        Err(called) => return (with_tags(called, Vec::new(alloc)), source, sink, output),
    };
    let owned = OwnedReader {
        reader,
        source,
        output,
    };
    let (owned, ending, sink, tags, outbound) = exchange(rt, alloc, settings, a, b, owned, sink);
    let OwnedReader {
        reader,
        source,
        mut output,
    } = owned;
    let sent = tags.len() as u64;
    let called = close_call(reader.handler, ending, sent, outbound, &mut output);
    (with_tags(called, tags), source, sink, output)
}
