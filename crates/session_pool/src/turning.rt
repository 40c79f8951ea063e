//! A connection whose sessions are being served, on a thread of its own where one could be started.

ghost use Rattle.std.specs.Prelude.{◌≡◌, ℕ};
ghost use Rattle.std.specs.Thread.{IsSync};
ghost use Rattle.stream_loop.specs.Edges.{input_at};
ghost use Rattle.stream_reader.specs.Sides.{endpoint_of};
ghost use Rattle.duplex_server.specs.declared.connection.Server.{Server as Shared};
ghost use Rattle.duplex_server.specs.ServerStream.{answering};
ghost use Rattle.session_pool.specs.Turns.{ServesTurns};
ghost use Rattle.session_pool.specs.Serving.{IsServing};

use crate::serving::serve_all;
use crate::turns::Turns;
use action_dispatch::Service;
use duplex_server::Server;
use io_edges::{Sink, Source};
use nbfx_values::Two;
use receiver_machine::Endpoint;
use static_dictionary::StaticTable;
use std::alloc::Global;
use std::snapshot::Snapshot;
use std::sync::Wait;
use std::thread::{Promise, PromisedHandle, Scope, Threads};

/// What became of the sessions of a connection, and its ends.
pub type Turned<S, K> = (Turns, S, K);

/// What a thread promises that serves the sessions of a connection: of how it was to answer, and of
/// the ends that it was given.
#[derive(Drop)]
pub struct ServesInTurn<V, S, K> {
    pub(crate) statics: Snapshot<StaticTable>,
    pub(crate) quotas: Snapshot<Two>,
    pub(crate) endpoint: Snapshot<Endpoint>,
    pub(crate) service: Snapshot<V>,
    pub(crate) most: u32,
    pub(crate) source: Snapshot<S>,
    pub(crate) sink: Snapshot<K>,
}

impl<V: Service, S: Source, K: Sink> Promise<Turned<S, K>> for ServesInTurn<V, S, K> {
    ghost use Rattle.stream_loop.specs.Edges.{input_at};
    ghost use Rattle.stream_reader.specs.Sides.{endpoint_of};
    ghost use Rattle.duplex_server.specs.ServerStream.{answering};
    ghost use Rattle.session_pool.specs.Turns.{ServesTurns};

    ghost kept_by = { λ p r. ServesTurns (answering (V.served p.service.value) p.statics.value
        p.quotas.value) (endpoint_of p.endpoint.value) p.most
        (input_at S.left S.taken S.faults S.empty_takes p.source.value)
        (input_at S.left S.taken S.faults S.empty_takes r.1) (K.view p.sink.value) (K.view r.2)
        r.0 };
}

/// A connection whose sessions are being served.
#[derive(Drop)]
pub enum Turning<V: Service, S: Source, K: Sink> {
    /// On a thread of its own.
    Beside(PromisedHandle<Turned<S, K>, ServesInTurn<V, S, K>>),
    /// They were served here, since no thread could be started.
    Here(Turned<S, K>),
}

/// Serves the sessions of a connection on a thread of its own, or here where none can be started.
pub fn start_turns<
    's,
    E,
    R: Threads + Wait + Sync + 's,
    S: Source + Send + Drop + 's,
    K: Sink + Send + Drop + 's,
    V: Service + Sync + 's,
>(
    scope: &'s Scope<'s, E>,
    rt: &'s R,
    alloc: Global,
    server: &'s Server<'s, V>,
    most: u32,
    source: S,
    sink: K,
) -> Turning<V, S, K>
    ensures { IsServing V.served S.left S.taken S.faults S.empty_takes K.view server.now most
        (source, sink) result }
{
    let promise = ServesInTurn {
        statics: Snapshot::of(server.statics),
        quotas: Snapshot::of(server.quotas),
        endpoint: Snapshot::of(server.endpoint),
        service: Snapshot::of(server.service),
        most,
        source: Snapshot::of(&source),
        sink: Snapshot::of(&sink),
    };
    let serving = scope.spawn_with(
        promise,
        move || -> Turned<S, K>
            requires { IsSync R.row }
            ensures { ServesTurns (answering (V.served server.entry.now.service.now)
                server.entry.now.statics.now server.entry.now.quotas.now)
                (endpoint_of server.entry.now.endpoint.now) most
                (input_at S.left S.taken S.faults S.empty_takes source)
                (input_at S.left S.taken S.faults S.empty_takes result.1) (K.view sink)
                (K.view result.2) result.0 }
        { serve_all(rt, alloc, server, source, sink, most) },
    );
    match serving {
        Ok(handle) => Turning::Beside(handle),
        Err(refused) => Turning::Here((refused.value)()),
    }
}

impl<V: Service, S: Source + Drop, K: Sink + Drop> Turning<V, S, K> {
    /// Waits until the sessions are served.
    pub fn finish<R: Threads>(self, rt: &R) -> Turned<S, K>
        ensures { (server : Shared V) (most : ℕ) (ends : S × K)
            → IsServing V.served S.left S.taken S.faults S.empty_takes K.view server most ends self
            → ServesTurns (answering (V.served server.service.now) server.statics.now
            server.quotas.now) (endpoint_of server.endpoint.now) most
            (input_at S.left S.taken S.faults S.empty_takes ends.0)
            (input_at S.left S.taken S.faults S.empty_takes result.1) (K.view ends.1)
            (K.view result.2) result.0 }
    {
        match self {
            Turning::Beside(handle) => handle.join(rt),
            Turning::Here(turned) => turned,
        }
    }
}
