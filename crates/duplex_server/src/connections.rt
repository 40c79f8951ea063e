//! Connections that are served one after the other.

ghost use Rattle.std.specs.Prelude.{◌≡◌, ◌<◌, ◌^◌, ◌⊎◌, Err, true};
ghost use Rattle.io_edges.specs.Faults.{CountsFaults};
ghost use Rattle.stream_reader.specs.Sides.{endpoint_of};
ghost use Rattle.duplex_server.specs.ServerStream.{answering};
ghost use Rattle.io_edges.specs.Wires.{network_at};
ghost use Rattle.duplex_server.specs.Served.{ServesAll, ends_at};

use crate::connection::{Server, serve_next};
use crate::lines::put_line;
use crate::stopping::ServeFault;
use action_dispatch::Service;
use io_edges::{GatheringSink, Sink, Wire, gathering_room};
use std::alloc::Global;
use std::sync::Wait;
use std::thread::Threads;

// Serves connections, and writes the line of each before it takes the next.
fn serve_each<R: Threads + Wait + Sync, W: Wire, O: Sink, V: Service>(
    rt: &R,
    alloc: Global,
    server: &Server<'_, V>,
    wire: &mut W,
    place: &str,
    connections: u32,
    output: &mut O,
) -> Result<(), ServeFault>
    requires { W.out wire.old < 2 ^ 63 }
    ensures served { ServesAll (answering (V.served server.now.service.now) server.now.statics.now
        server.now.quotas.now) (endpoint_of server.now.endpoint.now) (ends_at
        W.Reader.left W.Reader.taken W.Reader.faults W.Reader.empty_takes W.Writer.view) connections
        (network_at W.waiting W.closed W.out W.faults W.end_faults wire.old)
        (network_at W.waiting W.closed W.out W.faults W.end_faults wire.new) (O.view output.old)
        (O.view output.new) (output.new ≡ output.old) result }
    ensures memory { result ≡ Err ServeFault.Memory → (O.view output.old).may_run_out ≡ true }
{
    for number in 0..connections {
        let Some(outcome) = serve_next(rt, alloc, server, wire, place, number, output)? else {
            return Ok(());
        };
        put_line(number, outcome, output)?;
    }
    Ok(())
}

/// Serves at most so many connections that peers make to that place, one after the other, each on
/// two threads, and writes the line of each to the output when it is over. It ends early where no
/// other connection will come, which a wire over sockets never says. Answers with the output whether
/// it failed before, and why.
///
/// Each connection that was accepted is closed, whatever became of it. Neither a peer nor lack of
/// memory to answer it stops the server: only an accept that fails does, a line that can't be
/// written, and lack of memory for the lines. That the peer learns of the end, and for how long
/// what it still sends is read then, is up to the wire.
pub fn serve_connections<R: Threads + Wait + Sync, W: Wire, O: Sink, V: Service>(
    rt: &R,
    alloc: Global,
    server: &Server<'_, V>,
    wire: &mut W,
    place: &str,
    connections: u32,
    output: O,
) -> (Result<(), ServeFault>, O)
    requires { W.out wire.old < 2 ^ 63 }
    ensures out { W.out wire.new ≡ W.out wire.old }
    ensures wire_fault { CountsFaults (W.faults wire.old) (W.faults wire.new)
        (result.0 ≡ Err ServeFault.Wire) }
    ensures output_fault { CountsFaults (O.view output).faults (O.view result.1).faults
        (result.0 ≡ Err ServeFault.Output) }

    // Where the output can't run out of memory, no connection's want of memory stops the server: it
    // has asked for none then, and put nothing.
    ensures memory { result.0 ≡ Err ServeFault.Memory
        → ((wire.new ≡ wire.old) × (result.1 ≡ output)) ⊎ ((O.view output).may_run_out ≡ true) }

    // What was read and written on each connection, and what its line says.
    ensures served { ServesAll (answering (V.served server.now.service.now) server.now.statics.now
        server.now.quotas.now) (endpoint_of server.now.endpoint.now) (ends_at
        W.Reader.left W.Reader.taken W.Reader.faults W.Reader.empty_takes W.Writer.view) connections
        (network_at W.waiting W.closed W.out W.faults W.end_faults wire.old)
        (network_at W.waiting W.closed W.out W.faults W.end_faults wire.new) (O.view output)
        (O.view result.1) (result.1 ≡ output) result.0 }
{
    let Ok(room) = gathering_room(alloc) else {
        return (Err(ServeFault::Memory), output);
    };
    let mut lines = GatheringSink::new(room, output);
    let served = serve_each(rt, alloc, server, wire, place, connections, &mut lines);
    (served, lines.into_sink())
}
