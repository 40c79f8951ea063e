//! The requests of a connection, as they are read.

ghost use Rattle.std.specs.Prelude.{◌≡◌, List, [], None, Option, IfOk};
ghost use Rattle.io_edges.specs.Faults.{CountsFaults};
ghost use Rattle.nbfx_values.specs.QuotasOf.{limits_of};
ghost use Rattle.unit_streams.specs.declared.Memory.{Memory as Want};
ghost use Rattle.stream_loop.specs.Edges.{Input, input_at};
ghost use Rattle.stream_loop.specs.Followed.{AreHandled, Follows, Leaves, WasTaken};
ghost use Rattle.stream_reader.specs.Sides.{endpoint_of};
ghost use Rattle.stream_reader.specs.Stream.{initiators, stream};
ghost use Rattle.duplex_server.specs.declared.requests.Request.{Request as Handled};
ghost use Rattle.duplex_server.specs.Requests.{request_for};

use crate::requests::{Request, RequestReader};
use io_edges::Source;
use nbfx_values::{Copied, Offence, Quotas};
use receiver_machine::Endpoint;
use static_dictionary::StaticTable;
use std::alloc::Global;
use stream_loop::{EventHandler, FollowEnding, InputBuffer, follow_on};
use unit_streams::Memory;

fn copy_of(alloc: Global, endpoint: &Endpoint) -> Result<Endpoint, Memory>
    ensures { IfOk result (λ copied. copied ≡ endpoint.now) }
{
    match endpoint {
        Endpoint::Any => Ok(Endpoint::Any),
        Endpoint::Only(via) => Ok(Endpoint::Only(via.copy()?)),
    }
}

/// Reads the requests of a session to their end, and has each handled. Its first bytes are those that
/// are buffered.
pub fn follow_requests<S: Source, O, L: EventHandler<Request, O, Halt = Memory>>(
    alloc: Global,
    buffer: &mut InputBuffer,
    endpoint: &Endpoint,
    statics: &StaticTable,
    quotas: Quotas,
    handler: &mut L,
    source: &mut S,
    output: &mut O,
) -> FollowEnding<Offence>
    requires first { L.handled output.old [] [] handler.old output.old }
    requires halts { (first now : O) (paused since : List Handled) (at : Option Handled)
        (halt : Want) (handler' : L) → L.halted first paused since at halt handler' now
        → L.handled first paused since handler' now }
    ensures follows { (i : Input) → WasTaken buffer.old i
        (input_at S.left S.taken S.faults S.empty_takes source.old) → Follows (stream record {
          side = initiators (endpoint_of endpoint.now);
          statics = statics.now;
          limits = limits_of quotas;
        }) (AreHandled request_for
        (λ paused since. L.handled output.old paused since handler.new output.new)) i
        (input_at S.left S.taken S.faults S.empty_takes source.new) result }
    ensures left { (i : Input) → WasTaken buffer.old i
        (input_at S.left S.taken S.faults S.empty_takes source.old)
        → result ≡ FollowEnding.Judged None → Leaves (stream record {
          side = initiators (endpoint_of endpoint.now);
          statics = statics.now;
          limits = limits_of quotas;
        }) i (input_at S.left S.taken S.faults S.empty_takes source.new) buffer.new }
    ensures counted { CountsFaults (S.faults source.old) (S.faults source.new)
        (result ≡ FollowEnding.ReadFault) }
    ensures same_end { (L.has_stopped handler.new → ⊥) → L.ended output.new ≡ L.ended output.old }
    ensures settings { L.settings handler.new ≡ L.settings handler.old }
{
    let _held = buffer.bytes();
    let Ok(endpoint) = copy_of(alloc, endpoint) else {
        return FollowEnding::Memory;
    };
    let Ok(mut reader) = RequestReader::new(alloc, statics, quotas, endpoint) else {
        return FollowEnding::Memory;
    };
    follow_on(buffer, &mut reader, handler, source, output)
}
