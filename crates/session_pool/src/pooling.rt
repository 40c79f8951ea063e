//! Many connections at once.

ghost use Rattle.std.specs.Prelude.{◌≡◌, ◌≤◌, ◌+◌, ◌^◌, ℕ, All, List, [], length, IfOk, OnErr};
ghost use Rattle.std.specs.Prelude.{Option, vec_len, vec_capacity};
ghost use Rattle.std.specs.Thread.{IsSync};
ghost use Rattle.io_edges.specs.Wires.{network_at};
ghost use Rattle.stream_reader.specs.Sides.{endpoint_of};
ghost use Rattle.stream_loop.specs.Edges.{AreNew, input_at};
ghost use Rattle.duplex_server.specs.declared.connection.Server.{Server as Shared};
ghost use Rattle.duplex_server.specs.ServerStream.{answering};
ghost use Rattle.duplex_server.specs.Served.{ends_at};
ghost use Rattle.session_pool.specs.Pooling.{PoolsAll};
ghost use Rattle.session_pool.specs.Serving.{Accepts, AreServing, Closes};

use crate::turning::{Turning, start_turns};
use crate::turns::Turns;
use action_dispatch::Service;
use duplex_server::Server;
use io_edges::Wire;
use nbfx_values::{Sequence, Two};
use receiver_machine::Endpoint;
use static_dictionary::StaticTable;
use std::alloc::Global;
use std::sync::Wait;
use std::thread;
use std::thread::{Scope, Threads};
use unit_streams::Memory;

/// What became of the sessions of each connection, in order of acceptance.
pub type TurnsList = Sequence<Turns>;

/// Why no more connections were accepted.
#[derive(Clone, Copy, Debug, PartialEq, Eq)]
pub enum PoolWire {
    /// There are as many as were asked for, or no other will come.
    Done,
    /// The accept of the next one met an I/O error.
    Failed,
}

/// What became of connections that were served at once.
#[derive(Debug, Drop)]
pub struct PoolReport {
    /// Of each connection, in order of acceptance.
    pub turns: TurnsList,
    /// Why no more were accepted.
    pub wire: PoolWire,
}

// Accepts connections, as many as were asked for at most, and starts to serve each as it comes.
// There is room for so many.
fn accept_each<'s, E, R: Threads + Wait + Sync + 's, W: Wire + 's, V: Service + Sync + 's>(
    scope: &'s Scope<'s, E>,
    rt: &'s R,
    alloc: Global,
    server: &'s Server<'s, V>,
    most: u32,
    wire: &mut W,
    place: &str,
    connections: u32,
    turnings: &mut Vec<Turning<V, W::Reader, W::Writer>>,
) -> PoolWire
    requires none { (turnings.old.items ≡ []) × (vec_len turnings.old ≡ 0) }
    requires room { connections ≤ vec_capacity turnings.old }
    requires out { W.out wire.old + connections ≤ 2 ^ 63 }
    ensures size { (vec_len turnings.new ≤ connections)
        × (W.out wire.new ≡ W.out wire.old + vec_len turnings.new) }
    ensures accepts { Accepts V.served W.Reader.left W.Reader.taken W.Reader.faults
        W.Reader.empty_takes W.Writer.view server.now most connections
        (network_at W.waiting W.closed W.out W.faults W.end_faults wire.old)
        (network_at W.waiting W.closed W.out W.faults W.end_faults wire.new) turnings.new.items
        result }
{
    for _number in 0..connections {
        let Ok(found) = wire.accept(place) else {
            return PoolWire::Failed;
        };
        let Some(ends) = found else {
            return PoolWire::Done;
        };
        let (source, sink) = ends;
        turnings.push_reserved(start_turns(scope, rt, alloc, server, most, source, sink));
    }
    PoolWire::Done
}

// Waits for connections to be served, in order, and closes each. There is room for what became of
// them.
fn close_each<R: Threads, W: Wire, V: Service>(
    rt: &R,
    wire: &mut W,
    turnings: Vec<Turning<V, W::Reader, W::Writer>>,
    list: &mut Vec<Turns>,
)
    requires none { (list.old.items ≡ []) × (vec_len list.old ≡ 0) }
    requires room { vec_len turnings ≤ vec_capacity list.old }
    requires out { vec_len turnings ≤ W.out wire.old }
    ensures { (server : Shared V) (most : ℕ) (ends : List (W.Reader × W.Writer))
        (told : Option (List (List ℕ × List ℕ)))
        → AreServing V.served W.Reader.left W.Reader.taken W.Reader.faults W.Reader.empty_takes
        W.Writer.view server most ends turnings.items
        → All (λ (one : W.Reader × W.Writer). AreNew told
        (input_at W.Reader.left W.Reader.taken W.Reader.faults W.Reader.empty_takes one.0)
        (W.Writer.view one.1)) ends
        → W.closed wire.old ≡ told → length ends ≡ vec_len turnings
        → Closes V.served W.Reader.left W.Reader.taken W.Reader.faults W.Reader.empty_takes
        W.Writer.view server most ends told
        (network_at W.waiting W.closed W.out W.faults W.end_faults wire.old)
        (network_at W.waiting W.closed W.out W.faults W.end_faults wire.new) list.new.items }
{
    for turning in turnings {
        let (turns, source, sink) = turning.finish(rt);
        list.push_reserved(turns);
        wire.close(source, sink);
    }
}

// Serves connections at once, where there is room for what becomes of them. It gives the wire back.
fn serve_at_once<'w, 's, R: Threads + Wait + Sync, W: Wire, V: Service + Sync>(
    rt: &R,
    alloc: Global,
    server: &'s Server<'s, V>,
    most: u32,
    wire: &'w mut W,
    place: &str,
    connections: u32,
    list: Vec<Turns>,
) -> (Result<PoolReport, Memory>, &'w mut W)
    requires none { (list.items ≡ []) × (vec_len list ≡ 0) }
    requires room { connections ≤ vec_capacity list }
    requires out { W.out wire.old + connections ≤ 2 ^ 63 }
    ensures same { result.1.ghost_name ≡ wire.entry.ghost_name }
    ensures pools { IfOk result.0 (PoolsAll (answering (V.served server.now.service.now)
        server.now.statics.now server.now.quotas.now) (endpoint_of server.now.endpoint.now) most
        (ends_at W.Reader.left W.Reader.taken W.Reader.faults W.Reader.empty_takes W.Writer.view)
        connections (network_at W.waiting W.closed W.out W.faults W.end_faults wire.old)
        (network_at W.waiting W.closed W.out W.faults W.end_faults result.1.now)) }
    ensures unbegun { OnErr result.0 (result.1.now ≡ wire.old) }
{
    thread::scope(
        thread::scope_env(),
        rt,
        move |scope| -> (Result<PoolReport, Memory>, &mut W)
            requires { IsSync R.row × (list.items ≡ []) × (vec_len list ≡ 0)
                × (connections ≤ vec_capacity list) × (W.out wire.now + connections ≤ 2 ^ 63) }
            ensures { (result.1.ghost_name ≡ wire.entry.ghost_name)
                × IfOk result.0 (PoolsAll (answering (V.served server.entry.now.service.now)
                server.entry.now.statics.now server.entry.now.quotas.now)
                (endpoint_of server.entry.now.endpoint.now) most (ends_at W.Reader.left
                W.Reader.taken W.Reader.faults W.Reader.empty_takes W.Writer.view) connections
                (network_at W.waiting W.closed W.out W.faults W.end_faults wire.entry.now)
                (network_at W.waiting W.closed W.out W.faults W.end_faults result.1.now))
                × OnErr result.0 (result.1.now ≡ wire.entry.now) }
        {
            let mut list = list;
            let Ok(mut turnings) = Vec::with_capacity(alloc, connections as usize) else {
                return (Err(Memory), wire);
            };
            let stopped = accept_each(
                scope,
                rt,
                alloc,
                server,
                most,
                wire,
                place,
                connections,
                &mut turnings,
            );
            close_each(rt, wire, turnings, &mut list);
            let report = PoolReport {
                turns: Sequence::from_vec(list),
                wire: stopped,
            };
            (Ok(report), wire)
        },
    )
}

// Does nothing: that the wire which was given back is passed here ties it to the one that was lent.
fn take_back<W>(wire: &mut W)
    ensures { wire.new ≡ wire.old }
{}

/// Serves the connections that peers make to that place at once, at most so many, each as
/// [`serve_turns`](crate::serve_turns) does, with at most so many sessions, on a thread of its own
/// as it comes. Both numbers are from 1 to 1,024. It accepts until there are as many, none will
/// come, or an accept fails; then it waits for all of them, and closes them in order of acceptance.
/// Where a thread can't be started the connection is served before the next one is accepted.
///
/// The memory for the report is taken first, and it fails only without that, before it accepts any.
pub fn pool<R: Threads + Wait + Sync, W: Wire, V: Service + Sync>(
    rt: &R,
    alloc: Global,
    wire: &mut W,
    place: &str,
    connections: u32,
    most: u32,
    statics: &StaticTable,
    quotas: &Two,
    endpoint: &Endpoint,
    service: &V,
) -> Result<PoolReport, Memory>
    requires connections { (1 ≤ connections) × (connections ≤ 1024) }
    requires most { (1 ≤ most) × (most ≤ 1024) }
    requires out { W.out wire.old ≡ 0 }
    ensures pools { IfOk result (PoolsAll (answering (V.served service.now) statics.now
        quotas.now) (endpoint_of endpoint.now) most (ends_at W.Reader.left
        W.Reader.taken W.Reader.faults W.Reader.empty_takes W.Writer.view) connections
        (network_at W.waiting W.closed W.out W.faults W.end_faults wire.old)
        (network_at W.waiting W.closed W.out W.faults W.end_faults wire.new)) }
    ensures unbegun { OnErr result (wire.new ≡ wire.old) }
{
    let Ok(list) = Vec::with_capacity(alloc, connections as usize) else {
        return Err(Memory);
    };
    let server = Server {
        statics,
        quotas,
        endpoint,
        service,
    };
    let (report, wire) = serve_at_once(rt, alloc, &server, most, wire, place, connections, list);
    take_back(wire);
    report
}
