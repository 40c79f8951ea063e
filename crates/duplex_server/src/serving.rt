//! A connection served on one thread.

ghost use Rattle.std.specs.Prelude.{◌≡◌};
ghost use Rattle.stream_loop.specs.Edges.{input_at};
ghost use Rattle.stream_reader.specs.Sides.{endpoint_of};
ghost use Rattle.duplex_server.specs.Carrying.{ServesKept};
ghost use Rattle.duplex_server.specs.ServerStream.{answering};
ghost use Rattle.duplex_server.specs.Serving.{Serves, inbound_of};

use crate::following::follow_requests;
use crate::jobs::last_bytes;
use crate::outcome::{Inbound, Outcome};
use crate::replier::Replier;
use action_dispatch::Service;
use io_edges::{Sink, Source};
use nbfx_values::{Offence, Two};
use receiver_machine::Endpoint;
use static_dictionary::StaticTable;
use std::alloc::Global;
use stream_loop::{FollowEnding, InputBuffer, Outbound, PartWriter};
use unit_streams::Memory;

pub(crate) fn inbound_of(ending: FollowEnding<Offence>) -> Inbound
    ensures { result ≡ inbound_of ending }
{
    match ending {
        FollowEnding::Judged(None) => Inbound::Ended,
        FollowEnding::Judged(Some(offence)) => Inbound::Offended(offence),
        FollowEnding::ReadFault => Inbound::ReadFault,
        FollowEnding::Memory => Inbound::Memory,
    }
}

/// Serves a session on the calling thread. Its first bytes are those that are buffered.
pub(crate) fn serve_carried<S: Source, K: Sink, V: Service>(
    alloc: Global,
    buffer: &mut InputBuffer,
    source: &mut S,
    sink: &mut K,
    statics: &StaticTable,
    quotas: &Two,
    endpoint: &Endpoint,
    service: &V,
) -> Outcome
    ensures serves { ServesKept (answering (V.served service.now) statics.now quotas.now)
        (endpoint_of endpoint.now)
        (input_at S.left S.taken S.faults S.empty_takes source.old)
        (input_at S.left S.taken S.faults S.empty_takes source.new) buffer.old buffer.new
        (K.view sink.old) (K.view sink.new) result }
    ensures same_end { result.outbound ≡ Outbound.Done → K.ended sink.new ≡ K.ended sink.old }
{
    let mut replier = Replier::new(alloc, statics, quotas, service);
    let ending = follow_requests(
        alloc,
        buffer,
        endpoint,
        statics,
        quotas.forward,
        &mut replier,
        source,
        sink,
    );
    replier.writer.parts.close(last_bytes(ending), sink);
    Outcome {
        messages: replier.answerer.messages,
        answers: replier.writer.parts.whole,
        inbound: inbound_of(ending),
        outbound: replier.writer.parts.outbound,
    }
}

// What becomes of a connection where there is no memory to read of it. What the sink holds is
// written.
fn leave_unread<S: Source, K: Sink, V: Service>(
    alloc: Global,
    source: &S,
    sink: &mut K,
    statics: &StaticTable,
    quotas: &Two,
    endpoint: &Endpoint,
    service: &V,
) -> Outcome
    ensures serves { Serves (answering (V.served service.now) statics.now quotas.now)
        (endpoint_of endpoint.now)
        (input_at S.left S.taken S.faults S.empty_takes source.now)
        (input_at S.left S.taken S.faults S.empty_takes source.now) (K.view sink.old)
        (K.view sink.new) result }
    ensures same_end { result.outbound ≡ Outbound.Done → K.ended sink.new ≡ K.ended sink.old }
{
    let mut parts = PartWriter::new(alloc);
    parts.close(&[], sink);
    Outcome {
        messages: 0,
        answers: parts.whole,
        inbound: Inbound::Memory,
        outbound: parts.outbound,
    }
}

/// Serves the connection whose bytes the source gives and the sink takes: reads the initiator's
/// stream (MC-NMF), to this endpoint and within the forward quotas, and writes what is owed for it.
/// Answers are gathered, up to 64 KiB and one answer, and put before more is read. An answer that
/// doesn't fit within the quotas of the way back is replaced by a fault that says so, and if that
/// doesn't fit either nothing is written for it.
///
/// After a failed write, or when out of memory while writing, nothing more is put, and reading goes
/// on: documents are counted, and the service isn't asked.
pub fn serve_one<S: Source, K: Sink, V: Service>(
    alloc: Global,
    source: &mut S,
    sink: &mut K,
    statics: &StaticTable,
    quotas: &Two,
    endpoint: &Endpoint,
    service: &V,
) -> Outcome
    // How the bytes are judged and what is written of them; which were read, which of their events
    // were answered, and which answers were put, however that ends.
    ensures served { Serves (answering (V.served service.now) statics.now quotas.now)
        (endpoint_of endpoint.now)
        (input_at S.left S.taken S.faults S.empty_takes source.old)
        (input_at S.left S.taken S.faults S.empty_takes source.new) (K.view sink.old)
        (K.view sink.new) result }

    // The direction is ended only where the writing has stopped.
    ensures same_end { result.outbound ≡ Outbound.Done → K.ended sink.new ≡ K.ended sink.old }
{
    match InputBuffer::new(alloc) {
        Ok(mut buffer) => serve_carried(
            alloc,
            &mut buffer,
            source,
            sink,
            statics,
            quotas,
            endpoint,
            service,
        ),
        Err(Memory) => leave_unread(alloc, source, sink, statics, quotas, endpoint, service),
    }
}
