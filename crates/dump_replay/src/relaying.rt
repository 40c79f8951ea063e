//! The command `relay`, which joins the sessions of peers with sessions of a server.

ghost use Rattle.std.specs.Prelude.{◌≡◌, ◌≤◌, ◌<◌, ◌⊎◌, [], length, List, Some, IfErr, IfOk};
ghost use Rattle.io_edges.specs.Faults.{CountsFaults};
ghost use Rattle.io_edges.specs.Files.{Tells};
ghost use Rattle.string_tables.specs.StaticStrings.{Entry};
ghost use Rattle.stream_loop.specs.Edges.{Input, input_at};
ghost use Rattle.io_edges.specs.Wires.{network_at};
ghost use Rattle.command_words.specs.Asking.{relaying_of, two_of};
ghost use Rattle.command_words.specs.Values.{text_behind};
ghost use Rattle.dump_replay.specs.Noting.{Notes};
ghost use Rattle.dump_replay.specs.Outside.{seen, shelf_at};
ghost use Rattle.dump_replay.specs.Relaying.{HasFailedBack, IsBack, Joined, RelayedAll, back_or};
ghost use Rattle.dump_replay.specs.Relaying.{joining_by, sides_seen, status_of_relay};
ghost use Rattle.dump_replay.specs.Running.{HasFetched, if_named};
ghost use Rattle.dump_replay.specs.Statics.{reading_statics};
ghost use Rattle.dump_replay.specs.Working.{HasNoBack};

use crate::notes::{note_file, note_status};
use crate::responding::endpoint_in;
use crate::statics::read_statics;
use command_words::Relaying;
use io_edges::{FileFault, Shelf, Sink, Wire};
use nbfx_values::Two;
use relay::{Places, RelayFault, RelaySettings, relay_connections};
use static_dictionary::{StaticTable, TableKind};
use std::alloc::Global;
use std::sync::Wait;
use std::thread::Threads;

/// A file of static strings that isn't read, and why.
#[derive(Clone, Copy, Debug)]
pub struct UnreadStatics<'w> {
    /// The name that the arguments give.
    pub name: &'w str,
    /// Why it isn't read.
    pub fault: FileFault<TableKind>,
}

// The static strings of the file that is named, if one is.
fn back_in<'w, F: Shelf>(
    alloc: Global,
    named: Option<&'w str>,
    shelf: &mut F,
) -> Result<Option<StaticTable>, UnreadStatics<'w>>
    ensures found { IfOk result (λ table. (front : List Entry)
        → IsBack (F.files shelf.old) (text_behind named.entry) front (back_or front table)) }
    ensures unread { IfErr result (λ unread. (text_behind named.entry ≡ Some unread.name.now)
        × Tells reading_statics (F.files shelf.old) unread.name.now unread.fault) }
    ensures kept { F.files shelf.new ≡ F.files shelf.old }
    ensures fetched { HasFetched (if_named (text_behind named.entry)) (F.fetches shelf.old)
        (F.fetches shelf.new) }
    ensures counted { CountsFaults (F.faults shelf.old) (F.faults shelf.new)
        (HasFailedBack result) }
{
    let Some(name) = named else {
        return Ok(None);
    };
    match read_statics(alloc, shelf, name) {
        Ok(table) => Ok(Some(table)),
        Err(fault) => Err(UnreadStatics { name, fault }),
    }
}

// The status of a relay that stopped so.
fn relay_status(stop: Result<(), RelayFault>) -> u8
    ensures { result ≡ status_of_relay stop }
{
    match stop {
        Ok(()) => 0,
        Err(RelayFault::Wire) => 8,
        Err(RelayFault::Output) => 4,
        Err(RelayFault::Memory) => 5,
    }
}

// Joins the sessions of peers, which have the first of these static strings, with sessions of a
// server, which have the others, and writes the note.
fn relay_between<R: Threads, O: Sink, N: Sink, W: Wire>(
    rt: &R,
    alloc: Global,
    relaying: Relaying<'_>,
    front: &StaticTable,
    back: &StaticTable,
    quotas: &Two,
    output: O,
    notes: &mut N,
    wire: &mut W,
) -> (u8, O)
    requires out { W.out wire.old ≡ 0 }
    requires via { length relaying.via.now ≤ 2048 }
    ensures joins { Joined (λ text. Notes (N.view notes.old) (N.view notes.new) text
        × (text ≡ [] → notes.new ≡ notes.old))
        (joining_by (relaying_of relaying.entry) front.now back.now (two_of quotas.now))
        (sides_seen (input_at W.Reader.left W.Reader.taken W.Reader.faults W.Reader.empty_takes)
        W.Writer.view) (relaying_of relaying.entry).connections
        (network_at W.waiting W.closed W.out W.faults W.end_faults wire.old)
        (network_at W.waiting W.closed W.out W.faults W.end_faults wire.new) (O.view output)
        (O.view result.1) result.0 }
    ensures wire_fault { CountsFaults (W.faults wire.old) (W.faults wire.new) (result.0 ≡ 8) }
    ensures out { W.out wire.new ≡ W.out wire.old }
{
    let Ok(endpoint) = endpoint_in(alloc, relaying.endpoint) else {
        note_status(5, notes);
        return (5, output);
    };
    let settings = RelaySettings {
        front,
        back,
        quotas,
        endpoint: &endpoint,
        via: relaying.via,
    };
    let places = Places {
        listen: relaying.listen,
        connect: relaying.connect,
    };
    let (stop, output) = relay_connections(
        rt,
        alloc,
        settings,
        wire,
        places,
        relaying.connections,
        output,
    );
    let status = relay_status(stop);
    note_status(status, notes);
    (status, output)
}

/// Joins the sessions of at most so many peers with sessions of the server at the other place, one
/// after the other, and writes the line of each to the output. If the file of the static strings of
/// the server's sessions isn't read, no connection is asked for. The note says why it stopped
/// early. Answers the status, with the output.
pub fn relay_wire<R: Threads + Wait + Sync, F: Shelf, O: Sink, N: Sink, W: Wire>(
    rt: &R,
    alloc: Global,
    relaying: Relaying<'_>,
    statics: &StaticTable,
    quotas: &Two,
    shelf: &mut F,
    output: O,
    notes: &mut N,
    wire: &mut W,
) -> (u8, O)
    requires out { W.out wire.old ≡ 0 }
    requires via { length relaying.via.now ≤ 2048 }
    ensures relays { (i : Input) → RelayedAll
        (λ text. Notes (N.view notes.old) (N.view notes.new) text
        × (text ≡ [] → notes.new ≡ notes.old)) (input_at W.Reader.left W.Reader.taken
        W.Reader.faults W.Reader.empty_takes) W.Writer.view (relaying_of relaying.entry)
        statics.now (two_of quotas.now) (seen (shelf_at F.files F.faults shelf.old) i
        (O.view output)
        (network_at W.waiting W.closed W.out W.faults W.end_faults wire.old)) (seen
        (shelf_at F.files F.faults shelf.new) i (O.view result.1)
        (network_at W.waiting W.closed W.out W.faults W.end_faults wire.new)) result.0
        ⊎ HasNoBack (λ text. Notes (N.view notes.old) (N.view notes.new) text
        × (text ≡ [] → notes.new ≡ notes.old)) ((result.1 ≡ output) × (wire.new ≡ wire.old))
        (relaying_of relaying.entry).back_statics (shelf_at F.files F.faults shelf.old)
        (shelf_at F.files F.faults shelf.new) result.0 }
    ensures kept { F.files shelf.new ≡ F.files shelf.old }
    ensures fetched { HasFetched (if_named (relaying_of relaying.entry).back_statics)
        (F.fetches shelf.old) (F.fetches shelf.new) }
    ensures shelf_faults { F.faults shelf.old ≤ F.faults shelf.new }
    ensures shelf_well { (result.0 ≡ 3 → ⊥) → F.faults shelf.new ≡ F.faults shelf.old }
    ensures wire_fault { CountsFaults (W.faults wire.old) (W.faults wire.new) (result.0 ≡ 8) }
    ensures out { W.out wire.new ≡ W.out wire.old }
{
    match back_in(alloc, relaying.back_statics, shelf) {
        Ok(Some(back)) => relay_between(
            rt, alloc, relaying, statics, &back, quotas, output, notes, wire,
        ),
        Ok(None) => relay_between(
            rt, alloc, relaying, statics, statics, quotas, output, notes, wire,
        ),
        Err(unread) => (note_file(unread.name, unread.fault, notes), output),
    }
}
