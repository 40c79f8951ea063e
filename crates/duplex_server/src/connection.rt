//! A connection that is served and closed.

ghost use Rattle.std.specs.Prelude.{◌≡◌, ◌<◌, ◌^◌, []};
ghost use Rattle.stream_reader.specs.Sides.{endpoint_of};
ghost use Rattle.duplex_server.specs.ServerStream.{answering};
ghost use Rattle.duplex_server.specs.Along.{ServesNext};
ghost use Rattle.io_edges.specs.Wires.{network_at};
ghost use Rattle.duplex_server.specs.Served.{ends_at};

use crate::beside::serve_two;
use crate::outcome::Outcome;
use action_dispatch::Service;
use io_edges::{Failed, Sink, Wire};
use nbfx_values::Two;
use receiver_machine::Endpoint;
use static_dictionary::StaticTable;
use std::alloc::Global;
use std::sync::Wait;
use std::thread::Threads;

/// How connections are answered: with which static strings, within which quotas, to which endpoint,
/// and by which service.
#[derive(Drop)]
pub struct Server<'a, V> {
    /// The static strings.
    pub statics: &'a StaticTable,
    /// The quotas of requests, and of answers.
    pub quotas: &'a Two,
    /// Which Vias are served.
    pub endpoint: &'a Endpoint,
    /// What answers the requests.
    pub service: &'a V,
}

/// Takes the next connection, the one with this number, serves it and closes it. Answers what
/// became of it, or `None` where no other will come. It fails where the accept met an I/O error. A
/// connection may be long in coming, so the lines of those before have to have been written.
pub fn serve_next<R: Threads + Wait + Sync, W: Wire, V: Service, O: Sink>(
    rt: &R,
    alloc: Global,
    server: &Server<'_, V>,
    wire: &mut W,
    place: &str,
    number: u32,
    output: &O,
) -> Result<Option<Outcome>, Failed>
    requires out { W.out wire.old < 2 ^ 63 }
    requires left { 0 < number → (O.view output.now).held ≡ [] }
    ensures { ServesNext (answering (V.served server.now.service.now) server.now.statics.now
        server.now.quotas.now) (endpoint_of server.now.endpoint.now) (ends_at
        W.Reader.left W.Reader.taken W.Reader.faults W.Reader.empty_takes W.Writer.view)
        (network_at W.waiting W.closed W.out W.faults W.end_faults wire.old)
        (network_at W.waiting W.closed W.out W.faults W.end_faults wire.new) result }
{
    let Some(ends) = wire.accept(place)? else {
        return Ok(None);
    };
    let (reader, writer) = ends;
    let (outcome, reader, writer) = serve_two(
        rt,
        alloc,
        reader,
        writer,
        server.statics,
        server.quotas,
        server.endpoint,
        server.service,
    );
    wire.close(reader, writer);
    Ok(Some(outcome))
}
