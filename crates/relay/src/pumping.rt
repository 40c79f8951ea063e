//! How one direction goes on from what opened both sessions to its end.

ghost use Rattle.stream_loop.specs.Edges.{input_at};
ghost use Rattle.relay.specs.Pumping.{CanPump, Pumps};

use crate::carrier::Carrier;
use crate::listener::Listener;
use crate::outcome::{Pump, inbound_by};
use io_edges::{Sink, Source};
use stream_loop::read_on;

/// Reads one side of two sessions that were opened to its end, and writes what its events say to
/// the other. Envelopes are gathered, up to 64 KiB and one envelope, and written before more is
/// read. Once nothing more is put, the sink's direction is ended.
pub fn pump<S: Source, K: Sink>(
    listener: &mut Listener<'_>,
    carrier: &mut Carrier<'_>,
    source: &mut S,
    sink: &mut K,
) -> Pump
    requires { CanPump (input_at S.left S.taken S.faults S.empty_takes) K.view listener.old
        carrier.old source.old sink.old }
    ensures { Pumps (input_at S.left S.taken S.faults S.empty_takes) K.view K.ended listener.old
        carrier.old source.old source.new sink.old sink.new result }
{
    let read = read_on(
        &mut listener.buffer,
        &mut listener.end,
        carrier,
        source,
        sink,
    );
    let read = inbound_by(read, carrier.faulted);
    carrier.finish(read, sink)
}
