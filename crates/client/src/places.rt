//! A call of a place over a wire.

ghost use Rattle.std.specs.Prelude.{◌≡◌, ◌≤◌, ◌<◌, ◌+◌, ◌^◌, ◌++◌, List, true, false, length};
ghost use Rattle.session_ends.specs.Sent.{MayBeSent};
ghost use Rattle.stream_loop.specs.Edges.{input_at};
ghost use Rattle.client.specs.Sent.{sending_by};
ghost use Rattle.io_edges.specs.Wires.{network_at};
ghost use Rattle.client.specs.Lanes.{CallsMerged};
ghost use Rattle.client.specs.Places.{CallsOne, CallsPlace};

use crate::called::Called;
use crate::peers::{Call, call_gathered};
use crate::settings::CallSettings;
use io_edges::{Sink, Source, Wire, gathering_room};
use nbfx_values::{Docs, Mode};
use std::alloc::Global;
use std::sync::Wait;
use std::thread::Threads;

// Whether these documents may be sent in one session of this mode.
fn is_admitted(mode: Mode, a: &Docs, b: &Docs) -> bool
    ensures admitted { result ≡ true → MayBeSent mode (a.now ++ b.now) }
    ensures refused { result ≡ false → MayBeSent mode (a.now ++ b.now) → ⊥ }
{
    match mode {
        Mode::Singleton => match (a.len(), b.len()) {
            (1, 0) | (0, 1) => true,
            _ => false,
        },
        Mode::Duplex | Mode::Simplex => true,
    }
}

// Makes a connection, calls the peer over it, and closes it.
fn call_over<R: Threads + Wait + Sync, W: Wire, O: Sink + Drop>(
    rt: &R,
    alloc: Global,
    wire: &mut W,
    place: &str,
    call: Call<'_>,
    room: Vec<u8>,
    output: O,
) -> (Called, O)
    requires out { W.out wire.old < 2 ^ 63 }
    requires via { length call.via.now ≤ 2048 }
    requires admitted { MayBeSent call.settings.mode (call.a.now ++ call.b.now) }
    ensures { CallsMerged (λ documents line. CallsPlace
        (input_at W.Reader.left W.Reader.taken W.Reader.faults W.Reader.empty_takes)
        W.Writer.view
        (sending_by call.entry.settings documents) call.entry.via.now line
        (network_at W.waiting W.closed W.out W.faults W.end_faults wire.old)
        (network_at W.waiting W.closed W.out W.faults W.end_faults wire.new)
        (O.view output)
        (O.view result.1) result.0) call.entry.a.now
        call.entry.b.now }
{
    let Ok((reader, writer)) = wire.connect(place) else {
        return (Called::Unconnected, output);
    };
    let (outcome, reader, writer, output) = call_gathered(
        rt, alloc, call, room, reader, writer, output,
    );
    wire.close(reader, writer);
    (Called::Closed(outcome), output)
}

/// Calls the place with the documents of both lists on one session: makes a connection, sends a
/// session to the Via while it reads the peer's answers, and writes the report of what the peer
/// sends, with a last line of what was sent. The documents of each list are sent in order. The
/// connection is closed however that ends. If the documents may not be sent in one session, no
/// connection is asked for. Answers what became of it, with the output.
pub fn call_place<R: Threads + Wait + Sync, W: Wire, O: Sink + Drop>(
    rt: &R,
    alloc: Global,
    wire: &mut W,
    place: &str,
    via: &str,
    settings: CallSettings<'_>,
    a: &Docs,
    b: &Docs,
    output: O,
) -> (Called, O)
    requires out { W.out wire.old < 2 ^ 63 }
    requires via { length via.now ≤ 2048 }
    ensures { CallsMerged (λ documents line. CallsPlace
        (input_at W.Reader.left W.Reader.taken W.Reader.faults W.Reader.empty_takes)
        W.Writer.view
        (sending_by settings.entry documents) via.now line
        (network_at W.waiting W.closed W.out W.faults W.end_faults wire.old)
        (network_at W.waiting W.closed W.out W.faults W.end_faults wire.new)
        (O.view output)
        (O.view result.1) result.0) a.now b.now }
{
    if !is_admitted(settings.mode, a, b) {
        return (Called::WrongCount, output);
    }
    let Ok(room) = gathering_room(alloc) else {
        return (Called::Starved, output);
    };
    let call = Call {
        via,
        settings,
        a,
        b,
    };
    call_over(rt, alloc, wire, place, call, room, output)
}
