//! Connections that are relayed one after the other.

ghost use Rattle.std.specs.Prelude.{◌≡◌, ◌<◌, ◌≤◌, ◌^◌, [], Ok, Err, Some, None, length};
ghost use Rattle.io_edges.specs.Wires.{network_at};
ghost use Rattle.relay.specs.Connections.{RelaysAll, ends_at};
ghost use Rattle.relay.specs.Along.{RelaysNext};
ghost use Rattle.relay.specs.Opening.{relay_by};

use crate::lines::put_line;
use crate::outcome::RelayOutcome;
use crate::relaying::relay;
use crate::settings::RelaySettings;
use crate::stopping::RelayFault;
use io_edges::{Failed, GatheringSink, Sink, Wire, gathering_room};
use std::alloc::Global;
use std::thread::Threads;

/// Which connections are joined: those that peers make to the one place, each with one to the
/// other.
#[derive(Clone, Copy)]
pub struct Places<'s> {
    /// Where fronts are accepted.
    pub listen: &'s str,
    /// Where backs are connected to.
    pub connect: &'s str,
}

// Takes the next front, the one with this number, joins it with a back, and closes both. Answers
// what became of it, or `None` where no other will come. It fails where the wire met an I/O error.
// A front may be long in coming, so the lines of those before have to have been written.
fn relay_next<R: Threads, W: Wire, O: Sink>(
    rt: &R,
    alloc: Global,
    settings: RelaySettings<'_>,
    wire: &mut W,
    places: Places<'_>,
    number: u32,
    output: &O,
) -> Result<Option<RelayOutcome>, Failed>
    requires via { length settings.via.now ≤ 2048 }
    requires out { W.out wire.old < 2 ^ 62 }
    requires left { 0 < number → (O.view output.now).held ≡ [] }
    ensures { RelaysNext (relay_by settings.entry) (ends_at W.Reader.left W.Reader.taken
        W.Reader.faults W.Reader.empty_takes W.Writer.view)
        (network_at W.waiting W.closed W.out W.faults W.end_faults wire.old)
        (network_at W.waiting W.closed W.out W.faults W.end_faults wire.new) result }
{
    let Some(front) = wire.accept(places.listen)? else {
        return Ok(None);
    };
    let (mut front_in, mut front_out) = front;
    let Ok(back) = wire.connect(places.connect) else {
        wire.close(front_in, front_out);
        return Err(Failed);
    };
    let (mut back_in, mut back_out) = back;
    let outcome = relay(
        rt,
        alloc,
        &mut front_in,
        &mut front_out,
        &mut back_in,
        &mut back_out,
        settings.front,
        settings.back,
        settings.quotas,
        settings.endpoint,
        settings.via,
    );
    wire.close(front_in, front_out);
    wire.close(back_in, back_out);
    Ok(Some(outcome))
}

// Relays connections, and writes the line of each before it takes the next.
fn relay_each<R: Threads, W: Wire, O: Sink>(
    rt: &R,
    alloc: Global,
    settings: RelaySettings<'_>,
    wire: &mut W,
    places: Places<'_>,
    connections: u32,
    output: &mut O,
) -> Result<(), RelayFault>
    requires via { length settings.via.now ≤ 2048 }
    requires out { W.out wire.old < 2 ^ 62 }
    ensures relayed { RelaysAll (relay_by settings.entry) (ends_at W.Reader.left W.Reader.taken
        W.Reader.faults W.Reader.empty_takes W.Writer.view) connections
        (network_at W.waiting W.closed W.out W.faults W.end_faults wire.old)
        (network_at W.waiting W.closed W.out W.faults W.end_faults wire.new) (O.view output.old)
        (O.view output.new) (output.new ≡ output.old) result }
{
    for number in 0..connections {
        let Some(outcome) = relay_next(rt, alloc, settings, wire, places, number, output)? else {
            return Ok(());
        };
        put_line(number, outcome, output)?;
    }
    Ok(())
}

/// Relays at most so many connections, one after the other: each that a peer makes to the one place
/// is joined with one that is made to the other, and its line is written to the output when both
/// are closed, the front first. It ends early where no other front will come, which a wire over
/// sockets never says. Answers with the output whether it failed before, and why.
///
/// Neither a peer nor lack of memory to relay stops it: only an accept that fails does, a back that
/// can't be connected to, whose front is closed then, a line that can't be written, and lack of
/// memory for the lines.
pub fn relay_connections<R: Threads, W: Wire, O: Sink>(
    rt: &R,
    alloc: Global,
    settings: RelaySettings<'_>,
    wire: &mut W,
    places: Places<'_>,
    connections: u32,
    output: O,
) -> (Result<(), RelayFault>, O)
    requires via { length settings.via.now ≤ 2048 }
    requires out { W.out wire.old < 2 ^ 62 }
    ensures relayed { RelaysAll (relay_by settings.entry) (ends_at W.Reader.left W.Reader.taken
        W.Reader.faults W.Reader.empty_takes W.Writer.view) connections
        (network_at W.waiting W.closed W.out W.faults W.end_faults wire.old)
        (network_at W.waiting W.closed W.out W.faults W.end_faults wire.new) (O.view output)
        (O.view result.1) (result.1 ≡ output) result.0 }
{
    let Ok(room) = gathering_room(alloc) else {
        return (Err(RelayFault::Memory), output);
    };
    let mut lines = GatheringSink::new(room, output);
    let relayed = relay_each(rt, alloc, settings, wire, places, connections, &mut lines);
    (relayed, lines.into_sink())
}
