//! A session that is answered from an input to an output.

ghost use Rattle.stream_loop.specs.Edges.{input_at};
ghost use Rattle.stream_reader.specs.Sides.{endpoint_of};
ghost use Rattle.duplex_server.specs.ServerStream.{answering};
ghost use Rattle.duplex_server.specs.Replaying.{Replays};

use crate::beside::serve_two;
use crate::outcome::Inbound;
use action_dispatch::Service;
use io_edges::{Sink, Source};
use nbfx_values::Two;
use receiver_machine::Endpoint;
use static_dictionary::StaticTable;
use std::alloc::Global;
use std::sync::Wait;
use std::thread::Threads;
use stream_loop::Outbound;

/// What became of a session that was answered.
#[derive(Clone, Copy, Debug, PartialEq, Eq)]
pub struct Replayed {
    /// How the reading ended.
    pub inbound: Inbound,
    /// How the writing ended.
    pub outbound: Outbound,
}

/// Answers the initiator's stream that the input gives, to this endpoint and within the quotas, by
/// a service, and writes the receiver's stream to the output, as [`serve_two`] does: what is owed for
/// the bytes that were read is written while more of them are read. Answers what became of it, with
/// the input and the output.
pub fn replay_stream<R: Threads + Wait + Sync, I: Source + Drop, O: Sink + Send + Drop, V: Service>(
    rt: &R,
    alloc: Global,
    endpoint: &Endpoint,
    service: &V,
    statics: &StaticTable,
    quotas: &Two,
    input: I,
    output: O,
) -> (Replayed, I, O)
    ensures { Replays (answering (V.served service.now) statics.now quotas.now)
        (endpoint_of endpoint.now) (input_at I.left I.taken I.faults I.empty_takes input)
        (input_at I.left I.taken I.faults I.empty_takes result.1) (O.view output) (O.view result.2)
        result.0.inbound result.0.outbound }
{
    let (outcome, input, output) = serve_two(
        rt, alloc, input, output, statics, quotas, endpoint, service,
    );
    let replayed = Replayed {
        inbound: outcome.inbound,
        outbound: outcome.outbound,
    };
    (replayed, input, output)
}
