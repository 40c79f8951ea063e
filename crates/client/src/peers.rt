//! A call of a peer over a connection.

ghost use Rattle.std.specs.Prelude.{◌≡◌, ◌≤◌, ◌++◌, List, [], OnOk, length};
ghost use Rattle.io_edges.specs.Puts.{Puts};
ghost use Rattle.session_ends.specs.Sent.{MayBeSent};
ghost use Rattle.stream_loop.specs.Edges.{input_at};
ghost use Rattle.stream_loop.specs.Writing.{outbound_by};
ghost use Rattle.client.specs.Lanes.{CallsMerged};
ghost use Rattle.client.specs.Peers.{CallsPeer, line_after};
ghost use Rattle.client.specs.Sent.{sending_by};
ghost use Rattle.client.specs.Sending.{Finishes};
ghost use Rattle.client.specs.Tags.{sent_line};

use crate::lanes::{LanesOutcome, call_lanes};
use crate::outcome::{CallOutcome, ClientIn};
use crate::settings::CallSettings;
use crate::tags::put_sent;
use io_edges::{GatheringSink, Sink, SinkFault, Source};
use nbfx_values::Docs;
use std::alloc::Global;
use std::sync::Wait;
use std::thread::Threads;
use stream_loop::Outbound as Reported;
use two_lanes::Lane;

/// What a peer is called with.
#[derive(Clone, Copy)]
pub struct Call<'c> {
    /// The Via of the session.
    pub via: &'c str,
    /// How documents are sent, and how the peer's stream is read.
    pub settings: CallSettings<'c>,
    /// The documents of the first list.
    pub a: &'c Docs,
    /// The documents of the second list.
    pub b: &'c Docs,
}

// Puts the line of what was sent, unless memory ran out.
fn put_due<O: Sink>(inbound: ClientIn, tags: &[Lane], output: &mut O) -> Result<(), SinkFault>
    ensures { Puts (O.view output.old) (O.view output.new)
        (line_after inbound (sent_line tags.now)) result }
{
    match inbound {
        ClientIn::Memory => Ok(()),
        ClientIn::Ended | ClientIn::Offended(_) | ClientIn::PeerFault | ClientIn::ReadFault =>
            put_sent(tags, output),
    }
}

// Puts that line after the report, and writes what the output holds.
fn put_line<O: Sink>(inbound: ClientIn, tags: &[Lane], output: &mut O) -> Result<(), SinkFault>
    ensures puts { Puts (O.view output.old) (O.view output.new)
        (line_after inbound (sent_line tags.now)) result }
    ensures emptied { OnOk result ((O.view output.new).held ≡ []) }
{
    put_due(inbound, tags, output)?;
    output.flush()
}

// Ends the report of a call, unless its writing has ended.
fn finish_report<O: Sink>(outcome: &LanesOutcome, output: &mut O) -> Reported
    ensures { Finishes
        (line_after outcome.now.inbound (sent_line outcome.now.tags.items)) outcome.now.report
        result (O.view output.old) (O.view output.new) }
{
    if !outcome.report.is_going() {
        return outcome.report;
    }
    match put_line(outcome.inbound, &outcome.tags, output) {
        Ok(()) => Reported::Done,
        Err(SinkFault::Failed) => Reported::WriteFault,
        Err(SinkFault::Memory) => Reported::Memory,
    }
}

/// Calls the peer whose bytes the source gives and the sink takes, and writes the report of what it
/// sends, which is gathered in a buffer. Answers what became of it, and gives the source, the sink
/// and the output back.
pub fn call_gathered<
    R: Threads + Wait + Sync,
    S: Source + Drop,
    K: Sink + Send + Drop,
    O: Sink + Drop,
>(
    rt: &R,
    alloc: Global,
    call: Call<'_>,
    room: Vec<u8>,
    source: S,
    sink: K,
    output: O,
) -> (CallOutcome, S, K, O)
    requires via { length call.via.now ≤ 2048 }
    requires admitted { MayBeSent call.settings.mode (call.a.now ++ call.b.now) }
    ensures { CallsMerged (λ documents line. CallsPeer (sending_by call.entry.settings documents)
        call.entry.via.now (line result.0.sent)
        (input_at S.left S.taken S.faults S.empty_takes source)
        (input_at S.left S.taken S.faults S.empty_takes result.1)
        (K.view sink)
        (K.view result.2)
        (O.view output)
        (O.view result.3) result.0) call.entry.a.now
        call.entry.b.now }
{
    let Call {
        via,
        settings,
        a,
        b,
    } = call;
    let CallSettings {
        statics,
        quotas,
        mode,
        encoding,
    } = settings;
    let report = GatheringSink::new(room, output);
    let (outcome, source, sink, mut report) = call_lanes(
        rt, alloc, source, sink, report, statics, &quotas, mode, encoding, via, a, b,
    );
    let finished = finish_report(&outcome, &mut report);
    let outcome = CallOutcome {
        sent: outcome.sent,
        inbound: outcome.inbound,
        outbound: outcome.outbound,
        report: finished,
    };
    (outcome, source, sink, report.into_sink())
}
