//! A call of one list of documents, and what it shares with one of two.

ghost use Rattle.std.specs.Prelude.{◌≡◌, ◌≤◌, ℕ, List, [], Some, Ok, true, length, IfErr, IfOk, ⊤};
ghost use Rattle.io_edges.specs.Puts.{Puts};
ghost use Rattle.io_edges.specs.Views.{SinkView};
ghost use Rattle.session_ends.specs.Sent.{MayBeSent};
ghost use Rattle.io_edges.specs.Faults.{CountsFaults};
ghost use Rattle.stream_loop.specs.Edges.{Input, input_at};
ghost use Rattle.stream_reader.specs.Stream.{Settings as Reads};
ghost use Rattle.stream_loop.specs.Writing.{Writes, Wrote};
ghost use Rattle.command_words.specs.declared.task.Detail.{Detail as Shown};
ghost use Rattle.session_report.specs.declared.reading.Event.{Event as Heard};
ghost use Rattle.session_report.specs.Saying.{said_by};
ghost use Rattle.client.specs.Called.{KnownCall, closing_of, inbound_by};
ghost use Rattle.client.specs.Answering.{HasComeSo, IsFollowed};
ghost use Rattle.client.specs.Lanes.{stage_after};
ghost use Rattle.client.specs.Beginning.{HasBegun, IsUnsent};
ghost use Rattle.client.specs.Sent.{SendsAll, sending_by, sending_within};
ghost use Rattle.client.specs.Writing.{out_of};

use crate::answers::{AnswerHandler, AnswerReader, Stage};
use crate::lane_writer::LaneWriter;
use crate::outcome::{CallOutcome, ClientIn, ClientOut, client_out};
use crate::sending::send_opening;
use crate::settings::CallSettings;
use io_edges::{Sink, Source};
use nbfx_values::{Docs, Encoding, Mode, Offence, Two};
use session_report::Outcome;
use static_dictionary::StaticTable;
use std::alloc::Global;
use stream_loop::{FollowEnding, Outbound};
use two_lanes::Lane;

fn inbound_by(ending: FollowEnding<Offence>, reached: Outcome) -> ClientIn
    ensures { result ≡ inbound_by ending reached }
{
    match ending {
        FollowEnding::Judged(Some(offence)) => ClientIn::Offended(offence),
        FollowEnding::Judged(None) => match reached {
            Outcome::Faulted => ClientIn::PeerFault,
            Outcome::Open | Outcome::Ended => ClientIn::Ended,
        },
        FollowEnding::ReadFault => ClientIn::ReadFault,
        FollowEnding::Memory => ClientIn::Memory,
    }
}

// The stage of a call whose opening was written so. Where it wasn't, the direction is ended.
fn stage_after<K: Sink>(opened: Outbound, sink: &mut K) -> Stage
    ensures stage { result ≡ stage_after opened }
    ensures ended { (opened ≡ Outbound.Done → ⊥) → K.ended sink.new ≡ true }
    ensures same_end { opened ≡ Outbound.Done → K.ended sink.new ≡ K.ended sink.old }
    ensures unput { K.view sink.new ≡ K.view sink.old }
{
    if opened.is_going() {
        return Stage::Opened;
    }
    sink.end();
    Stage::Unopened
}

/// Ends the report of a call, and says what became of it.
pub(crate) fn close_call<O: Sink>(
    handler: AnswerHandler,
    ending: FollowEnding<Offence>,
    sent: u64,
    outbound: ClientOut,
    output: &mut O,
) -> CallOutcome
    ensures closed { (first : SinkView) (events : List Heard)
        → Writes (said_by Shown.Whole) handler.report first events handler.reached
        (λ s. ⊤) (O.view output.old)
        → Wrote (said_by Shown.Whole) result.report (closing_of ending handler.reached) first
        events (λ s. ⊤) (O.view output.new) }
    ensures sent { result.sent ≡ sent }
    ensures inbound { result.inbound ≡ inbound_by ending handler.reached }
    ensures outbound { result.outbound ≡ outbound }
{
    let mut handler = handler;
    handler.close(ending, output);
    CallOutcome {
        sent,
        inbound: inbound_by(ending, handler.reached),
        outbound,
        report: handler.report,
    }
}

/// Writes the opening of a session, and reads the peer's stream up to its Preamble Ack. Without an
/// Ack the call is over. It is too where the opening can't be written, when the stream was read to
/// its end.
pub(crate) fn begin_call<'s, S: Source, K: Sink, O: Sink>(
    alloc: Global,
    settings: CallSettings<'s>,
    via: &str,
    source: &mut S,
    sink: &mut K,
    output: &mut O,
) -> Result<AnswerReader<'s>, CallOutcome>
    requires via { length via.now ≤ 2048 }
    ensures begun { IfOk result (HasBegun settings.entry via.now
        (input_at S.left S.taken S.faults S.empty_takes source.old)
        (input_at S.left S.taken S.faults S.empty_takes source.new)
        (K.view sink.old) (K.view sink.new) (O.view output.old) (O.view output.new)) }
    ensures over { IfErr result (IsUnsent settings.entry via.now
        (input_at S.left S.taken S.faults S.empty_takes source.old)
        (input_at S.left S.taken S.faults S.empty_takes source.new)
        (K.view sink.old) (K.view sink.new) (O.view output.old) (O.view output.new)) }
    ensures ended { IfErr result (λ called. (called.outbound ≡ ClientOut.Done → ⊥)
        → K.ended sink.new ≡ true) }
    ensures same_end { IfOk result (λ reader. K.ended sink.new ≡ K.ended sink.old) }
{
    let opened = send_opening(alloc, settings.mode, settings.encoding, via, sink);
    let stage = stage_after(opened, sink);
    let outbound = client_out(opened);
    let Ok(reader) = AnswerReader::new(alloc, settings, stage) else {
        let handler = AnswerHandler::new(stage);
        return Err(close_call(handler, FollowEnding::Memory, 0, outbound, output));
    };
    let (reader, over) = reader.read(source, output);
    match over {
        Some(ending) => Err(close_call(reader.handler, ending, 0, outbound, output)),
        None => Ok(reader),
    }
}

// Sends the documents of a list. Answers how many envelopes were put whole, and how that ended.
fn send_list<K: Sink>(
    alloc: Global,
    settings: CallSettings<'_>,
    docs: &Docs,
    sink: &mut K,
) -> (u64, ClientOut)
    requires { MayBeSent settings.mode docs.now }
    ensures sends { (start : SinkView) (before : List ℕ)
        → Puts start (K.view sink.old) before (Ok tt) → (K.view sink.old).held ≡ []
        → SendsAll (sending_by settings.entry docs.now) before start result.1 result.0
        (K.view sink.new) }
    ensures ended { K.ended sink.new ≡ true }
{
    let mut writer = LaneWriter::new(alloc, settings);
    for doc in docs.as_slice() {
        writer.send(Lane::A, doc, sink);
    }
    writer.finish(sink);
    let (tags, outbound) = writer.into_outcome();
    (tags.len() as u64, outbound)
}

// Reads the peer's stream behind the Ack, to its end. The direction of this sink was ended, so that a
// peer that waits for more has been told.
fn read_behind<'s, S: Source, K: Sink, O: Sink>(
    reader: AnswerReader<'s>,
    source: &mut S,
    _sink: &K,
    output: &mut O,
) -> (AnswerReader<'s>, FollowEnding<Offence>)
    requires acked { reader.handler.stage ≡ Stage.Acked }
    requires come { (y : Reads) × (i : Input) × (first : O) × (p : List ℕ)
        × HasComeSo y i (O.view first) p reader
        (input_at S.left S.taken S.faults S.empty_takes source.old) (O.view output.old) }
    requires ended { K.ended _sink.now ≡ true }
    ensures followed { (y : Reads) (i : Input) (first : O) (p : List ℕ)
        → HasComeSo y i (O.view first) p reader.entry
        (input_at S.left S.taken S.faults S.empty_takes source.old) (O.view output.old)
        → IsFollowed y i (O.view first) Stage.Acked result.0
        (input_at S.left S.taken S.faults S.empty_takes source.new) (O.view output.new)
        result.1 }
    ensures counted { CountsFaults (S.faults source.old) (S.faults source.new)
        (result.1 ≡ FollowEnding.ReadFault) }
{
    reader.read_rest(source, output)
}

/// Calls the peer whose bytes the source gives and the sink takes (MC-NMF): writes the opening of a
/// session to this Via, reads to the peer's Preamble Ack, writes an envelope for each document and
/// an End record, and reads to the end. The report of what is read goes to the output, with its
/// documents; the lines of what came are written before more is read. Documents are written within
/// the quotas forward, and the peer's stream is read within those back. Nothing is read while the
/// envelopes are written: where the peer answers meanwhile, its answers have to fit the buffers
/// between both ends. [`call_lanes`](crate::call_lanes) reads on.
///
/// If no Ack is read, nothing is written after the opening. After a failed write to the peer, at a
/// document that doesn't fit, or when out of memory while writing, nothing more is put to the sink,
/// and reading goes on. After a failed write to the output nothing more is put to the output, and
/// all else goes on. Once nothing more is put to the sink, its direction is ended.
pub fn call_one<S: Source, K: Sink, O: Sink>(
    alloc: Global,
    source: &mut S,
    sink: &mut K,
    output: &mut O,
    statics: &StaticTable,
    quotas: &Two,
    mode: Mode,
    encoding: Encoding,
    via: &str,
    docs: &Docs,
) -> CallOutcome
    requires via { length via.now ≤ 2048 }
    requires admitted { MayBeSent mode docs.now }

    // How the peer's bytes are judged, reported and answered; which were read, which of their events
    // were reported, and which envelopes were put, however that ends.
    ensures called { KnownCall (sending_within quotas.now statics.now mode encoding docs.now) via.now
        (input_at S.left S.taken S.faults S.empty_takes source.old)
        (input_at S.left S.taken S.faults S.empty_takes source.new) (K.view sink.old)
        (K.view sink.new) (O.view output.old) (O.view output.new) result }
    ensures ended { (result.outbound ≡ ClientOut.Done → ⊥) → K.ended sink.new ≡ true }
{
    let settings = CallSettings {
        statics,
        quotas: *quotas,
        mode,
        encoding,
    };
    let reader = match begin_call(alloc, settings, via, source, sink, output) {
        Ok(reader) => reader,
        Err(called) => return called,
    };
    let (sent, outbound) = send_list(alloc, settings, docs, sink);
    let (reader, ending) = read_behind(reader, source, sink, output);
    close_call(reader.handler, ending, sent, outbound, output)
}
