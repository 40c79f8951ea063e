//! The command `serve`, which answers the connections that peers make.

ghost use Rattle.std.specs.Prelude.{◌≡◌, ◌≤◌, ◌<◌, ◌⊎◌, ◌^◌, []};
ghost use Rattle.io_edges.specs.Faults.{CountsFaults, Rose};
ghost use Rattle.stream_loop.specs.Edges.{Input, input_at};
ghost use Rattle.io_edges.specs.Wires.{network_at};
ghost use Rattle.command_words.specs.Asking.{serving_of, two_of};
ghost use Rattle.dump_replay.specs.Noting.{Notes};
ghost use Rattle.dump_replay.specs.Outside.{seen, shelf_at};
ghost use Rattle.dump_replay.specs.Running.{HasFetched, if_named};
ghost use Rattle.dump_replay.specs.Serving.{AnsweredAll, status_of_stop};
ghost use Rattle.dump_replay.specs.Working.{HasNoActions};

use crate::notes::{note_file, note_status};
use crate::responding::{endpoint_in, responder_in};
use command_words::Serving;
use duplex_server::{ServeFault, Server, serve_connections};
use io_edges::{Shelf, Sink, Wire};
use nbfx_values::Two;
use static_dictionary::StaticTable;
use std::alloc::Global;
use std::sync::Wait;
use std::thread::Threads;

/// The status of a server that stopped so.
pub fn stop_status(stop: Result<(), ServeFault>) -> u8
    ensures { result ≡ status_of_stop stop }
{
    match stop {
        Ok(()) => 0,
        Err(ServeFault::Wire) => 8,
        Err(ServeFault::Output) => 4,
        Err(ServeFault::Memory) => 5,
    }
}

/// Answers at most so many connections that peers make to that place, one after the other, by the
/// service that is asked for, and writes the line of each to the output. If that service's file
/// isn't read, no connection is asked for. The note says why it stopped early. Answers the status,
/// with the output.
pub fn serve_wire<R: Threads + Wait + Sync, F: Shelf, O: Sink, N: Sink, W: Wire>(
    rt: &R,
    alloc: Global,
    listen: &str,
    connections: u32,
    serving: Serving<'_>,
    statics: &StaticTable,
    quotas: &Two,
    shelf: &mut F,
    output: O,
    notes: &mut N,
    wire: &mut W,
) -> (u8, O)
    requires { W.out wire.old < 2 ^ 63 }
    ensures answers { (i : Input) → AnsweredAll
        (λ text. Notes (N.view notes.old) (N.view notes.new) text
        × (text ≡ [] → notes.new ≡ notes.old)) (input_at W.Reader.left W.Reader.taken
        W.Reader.faults W.Reader.empty_takes) W.Writer.view connections (serving_of serving.entry)
        statics.now (two_of quotas.now) (seen
        (shelf_at F.files F.faults shelf.old) i (O.view output)
        (network_at W.waiting W.closed W.out W.faults W.end_faults wire.old)) (seen
        (shelf_at F.files F.faults shelf.new) i (O.view result.1)
        (network_at W.waiting W.closed W.out W.faults W.end_faults wire.new)) result.0
        ⊎ HasNoActions (λ text. Notes (N.view notes.old) (N.view notes.new) text
        × (text ≡ [] → notes.new ≡ notes.old)) ((result.1 ≡ output) × (wire.new ≡ wire.old))
        (serving_of serving.entry) (shelf_at F.files F.faults shelf.old)
        (shelf_at F.files F.faults shelf.new) result.0 }
    ensures kept { F.files shelf.new ≡ F.files shelf.old }
    ensures fetched { HasFetched (if_named (serving_of serving.entry).actions)
        (F.fetches shelf.old) (F.fetches shelf.new) }
    ensures shelf_faults { F.faults shelf.old ≤ F.faults shelf.new }
    ensures shelf_well { (result.0 ≡ 3 → ⊥) → F.faults shelf.new ≡ F.faults shelf.old }
    ensures wire_fault { CountsFaults (W.faults wire.old) (W.faults wire.new) (result.0 ≡ 8) }
    ensures out { W.out wire.new ≡ W.out wire.old }
{
    let responder = match responder_in(alloc, serving, shelf) {
        Ok(responder) => responder,
        Err(unread) => return (note_file(unread.name, unread.fault, notes), output),
    };
    let Ok(endpoint) = endpoint_in(alloc, serving.endpoint) else {
        note_status(5, notes);
        return (5, output);
    };
    let server = Server {
        statics,
        quotas,
        endpoint: &endpoint,
        service: &responder,
    };
    let (stop, output) = serve_connections(rt, alloc, &server, wire, listen, connections, output);
    let status = stop_status(stop);
    note_status(status, notes);
    (status, output)
}
