//! The sessions of a connection, served in turn.

ghost use Rattle.std.specs.Prelude.{◌≡◌, ◌≤◌, ℕ, true, false, All, List, [], Some, vec_capacity};
ghost use Rattle.stream_loop.specs.Edges.{input_at};
ghost use Rattle.stream_reader.specs.Sides.{endpoint_of};
ghost use Rattle.duplex_server.specs.declared.outcome.Outcome.{Outcome as Became};
ghost use Rattle.duplex_server.specs.ServerStream.{answering};
ghost use Rattle.session_pool.specs.OwedTurns.{owed_turns};
ghost use Rattle.session_pool.specs.Turns.{ServesTurns, WritesTurns, IsWell};

use crate::turns::{Turns, TurnsEnd};
use action_dispatch::Service;
use duplex_server::{Carry, Inbound, Outbound, Outcome, Server, serve_kept};
use io_edges::{Sink, Source};
use nbfx_values::{Sequence, Two};
use receiver_machine::Endpoint;
use static_dictionary::StaticTable;
use std::alloc::Global;
use std::sync::Wait;
use std::thread::Threads;

// Whether a session ended with an End record, and its answers are written.
fn is_well(outcome: Outcome) -> bool
    ensures yes { result ≡ true → IsWell outcome }
    ensures no { result ≡ false → IsWell outcome → ⊥ }
{
    matches!(outcome.inbound, Inbound::Ended) && matches!(outcome.outbound, Outbound::Done)
}

// What became of the sessions of a connection where no more are served, for this reason.
fn turns(outcomes: Vec<Outcome>, end: TurnsEnd) -> Turns
    ensures outcomes { result.outcomes ≡ outcomes.items }
    ensures end { result.end ≡ end }
{
    Turns {
        outcomes: Sequence::from_vec(outcomes),
        end,
    }
}

// Serves sessions in turn. There is room for what becomes of each.
fn serve_each<R: Threads + Wait + Sync, S: Source + Drop, K: Sink + Send + Drop, V: Service>(
    rt: &R,
    alloc: Global,
    server: &Server<'_, V>,
    mut carry: Carry,
    mut source: S,
    mut sink: K,
    most: u32,
    mut outcomes: Vec<Outcome>,
) -> (Turns, S, K)
    requires none { outcomes.items ≡ [] }
    requires room { most ≤ vec_capacity outcomes }
    requires new { carry ≡ [] }
    ensures served { ServesTurns (answering (V.served server.now.service.now)
        server.now.statics.now server.now.quotas.now) (endpoint_of server.now.endpoint.now) most
        (input_at S.left S.taken S.faults S.empty_takes source)
        (input_at S.left S.taken S.faults S.empty_takes result.1) (K.view sink) (K.view result.2)
        result.0 }
    ensures same_end { All (λ (o : Became). o.outbound ≡ Outbound.Done) result.0.outcomes
        → K.ended result.2 ≡ K.ended sink }
{
    for _number in 0..most {
        let Ok(more) = carry.fill(&mut source) else {
            return (turns(outcomes, TurnsEnd::ReadFault), source, sink);
        };
        if !more {
            return (turns(outcomes, TurnsEnd::Done), source, sink);
        }
        let (outcome, left, from, to) = serve_kept(
            rt,
            alloc,
            carry,
            source,
            sink,
            server.statics,
            server.quotas,
            server.endpoint,
            server.service,
        );
        carry = left;
        source = from;
        sink = to;
        outcomes.push_reserved(outcome);
        if !is_well(outcome) {
            return (turns(outcomes, TurnsEnd::Stopped), source, sink);
        }
    }
    (turns(outcomes, TurnsEnd::Most), source, sink)
}

/// Serves the sessions of a connection from its first byte on.
pub(crate) fn serve_all<
    R: Threads + Wait + Sync,
    S: Source + Drop,
    K: Sink + Send + Drop,
    V: Service,
>(rt: &R, alloc: Global, server: &Server<'_, V>, source: S, sink: K, most: u32) -> (Turns, S, K)
    ensures served { ServesTurns (answering (V.served server.now.service.now)
        server.now.statics.now server.now.quotas.now) (endpoint_of server.now.endpoint.now) most
        (input_at S.left S.taken S.faults S.empty_takes source)
        (input_at S.left S.taken S.faults S.empty_takes result.1) (K.view sink) (K.view result.2)
        result.0 }
    ensures same_end { All (λ (o : Became). o.outbound ≡ Outbound.Done) result.0.outcomes
        → K.ended result.2 ≡ K.ended sink }
{
    let Ok(outcomes) = Vec::with_capacity(alloc, most as usize) else {
        return (turns(Vec::new(alloc), TurnsEnd::Memory), source, sink);
    };
    let Ok(carry) = Carry::new(alloc) else {
        return (turns(outcomes, TurnsEnd::Memory), source, sink);
    };
    serve_each(rt, alloc, server, carry, source, sink, most, outcomes)
}

/// Serves the sessions that a connection carries one behind the other, at most so many, from 1 to
/// 1,024, each as [`serve_kept`] does, with strings of its own, and gives source and sink back. The
/// peer may end the connection behind any of them. It stops at a session that isn't ended by an End
/// record, or whose answers can't be written. The memory for what becomes of each session is taken
/// first.
pub fn serve_turns<R: Threads + Wait + Sync, S: Source + Drop, K: Sink + Send + Drop, V: Service>(
    rt: &R,
    alloc: Global,
    source: S,
    sink: K,
    statics: &StaticTable,
    quotas: &Two,
    endpoint: &Endpoint,
    service: &V,
    most: u32,
) -> (Turns, S, K)
    requires some { 1 ≤ most }
    requires few { most ≤ 1024 }
    ensures written { (bytes w : List ℕ) → S.left source ≡ Some bytes
        → (K.view sink).written ≡ Some w → (w' : List ℕ) × ((K.view result.2).written ≡ Some w')
        × WritesTurns (owed_turns (answering (V.served service.now) statics.now quotas.now)
        (endpoint_of endpoint.now) most bytes) (K.view sink).held w w' result.0 }

    // Which sessions were served, what of each one's own bytes was read, which answers were put,
    // and why no more were served.
    ensures served { ServesTurns (answering (V.served service.now) statics.now quotas.now)
        (endpoint_of endpoint.now) most
        (input_at S.left S.taken S.faults S.empty_takes source)
        (input_at S.left S.taken S.faults S.empty_takes result.1) (K.view sink) (K.view result.2)
        result.0 }

    // The direction is ended only where the writing has stopped.
    ensures same_end { All (λ (o : Became). o.outbound ≡ Outbound.Done) result.0.outcomes
        → K.ended result.2 ≡ K.ended sink }
{
    let server = Server {
        statics,
        quotas,
        endpoint,
        service,
    };
    serve_all(rt, alloc, &server, source, sink, most)
}
