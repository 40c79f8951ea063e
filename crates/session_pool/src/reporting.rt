//! Many connections at once, and a line of each.

ghost use Rattle.std.specs.Prelude.{◌≡◌, ◌≤◌, ◌⊎◌, Err};
ghost use Rattle.io_edges.specs.Wires.{network_at};
ghost use Rattle.stream_reader.specs.Sides.{endpoint_of};
ghost use Rattle.duplex_server.specs.Served.{ends_at};
ghost use Rattle.duplex_server.specs.ServerStream.{answering};
ghost use Rattle.session_pool.specs.PoolLines.{PoolsAndTells, fault_of};

use crate::lines::put_lines;
use crate::pooling::{PoolWire, pool};
use action_dispatch::Service;
use duplex_server::{ServeFault, Server};
use io_edges::{Sink, SinkFault, Wire};
use std::alloc::Global;
use std::sync::Wait;
use std::thread::Threads;

// Why the server stopped early: a fault of the wire goes before one of the output.
fn fault_of(wire: PoolWire, put: Result<(), SinkFault>) -> Result<(), ServeFault>
    ensures { result ≡ fault_of wire put }
{
    match wire {
        PoolWire::Failed => Err(ServeFault::Wire),
        PoolWire::Done => Ok(put?),
    }
}

/// Serves connections at once as [`pool`] does, and then writes a line of each, in order of
/// acceptance. Answers with the output whether an accept failed, or, where none did, whether the
/// lines could be written. Without memory to begin with nothing is accepted or written.
pub fn pool_connections<R: Threads + Wait + Sync, W: Wire, O: Sink, V: Service + Sync>(
    rt: &R,
    alloc: Global,
    server: &Server<'_, V>,
    wire: &mut W,
    place: &str,
    connections: u32,
    sessions: u32,
    output: O,
) -> (Result<(), ServeFault>, O)
    requires connections { (1 ≤ connections) × (connections ≤ 1024) }
    requires sessions { (1 ≤ sessions) × (sessions ≤ 1024) }
    requires out { W.out wire.old ≡ 0 }
    ensures pooled { ((result.0 ≡ Err ServeFault.Memory) × (wire.new ≡ wire.old)
        × (result.1 ≡ output)) ⊎ PoolsAndTells (answering (V.served server.now.service.now)
        server.now.statics.now server.now.quotas.now) (endpoint_of server.now.endpoint.now)
        sessions (ends_at W.Reader.left W.Reader.taken W.Reader.faults W.Reader.empty_takes
        W.Writer.view) connections
        (network_at W.waiting W.closed W.out W.faults W.end_faults wire.old)
        (network_at W.waiting W.closed W.out W.faults W.end_faults wire.new) (O.view output)
        (O.view result.1) result.0 }
{
    let Ok(report) = pool(
        rt,
        alloc,
        wire,
        place,
        connections,
        sessions,
        server.statics,
        server.quotas,
        server.endpoint,
        server.service,
    ) else {
        return (Err(ServeFault::Memory), output);
    };
    let mut output = output;
    let put = put_lines(report.turns.as_slice(), &mut output);
    (fault_of(report.wire, put), output)
}
