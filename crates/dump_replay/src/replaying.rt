//! The command `replay`, which answers an initiator's stream as a server.

ghost use Rattle.std.specs.Prelude.{◌≡◌, ◌≤◌, ◌⊎◌, [], Option};
ghost use Rattle.io_edges.specs.Store.{Store};
ghost use Rattle.stream_loop.specs.Edges.{input_at};
ghost use Rattle.command_words.specs.Asking.{serving_of, two_of};
ghost use Rattle.dump_replay.specs.Answering.{Answered, IsAskedFor, status_of_inbound, status_of_replay, status_of_write_fault};
ghost use Rattle.dump_replay.specs.Noting.{Notes};
ghost use Rattle.dump_replay.specs.Outside.{shelf_at};
ghost use Rattle.dump_replay.specs.Running.{HasFetched, if_named};
ghost use Rattle.dump_replay.specs.Working.{HasNoActions};

use crate::notes::{note_file, note_replay, note_status};
use crate::reporting::offence_status;
use crate::responding::{endpoint_in, responder_in};
use command_words::Serving;
use duplex_server::{Inbound, Outbound, Replayed, Responder, replay_stream};
use io_edges::{Shelf, Sink, Source};
use nbfx_values::Two;
use static_dictionary::StaticTable;
use std::alloc::Global;
use std::sync::Wait;
use std::thread::Threads;

fn inbound_status(inbound: Inbound) -> u8
    ensures { result ≡ status_of_inbound inbound }
{
    match inbound {
        Inbound::Ended => 0,
        Inbound::Offended(offence) => offence_status(offence),
        Inbound::ReadFault => 3,
        Inbound::Memory => 5,
    }
}

/// The status of a run that ends with a failed write, by how its reading ended.
pub fn write_fault_status(inbound: Inbound) -> u8
    ensures { result ≡ status_of_write_fault inbound }
{
    match inbound {
        Inbound::Memory => 5,
        Inbound::Ended | Inbound::Offended(_) | Inbound::ReadFault => 4,
    }
}

// The status of a run that answered a stream so.
fn replay_status(replayed: Replayed) -> u8
    ensures { result ≡ status_of_replay replayed.inbound replayed.outbound }
{
    match replayed.outbound {
        Outbound::Done => inbound_status(replayed.inbound),
        Outbound::WriteFault => write_fault_status(replayed.inbound),
        Outbound::Memory => 5,
    }
}

// Answers the initiator's stream that the input gives, by this service, and writes the note.
fn answer_input<R: Threads + Wait + Sync, I: Source + Drop, O: Sink + Send + Drop, N: Sink>(
    rt: &R,
    alloc: Global,
    serving: Serving<'_>,
    responder: &Responder,
    statics: &StaticTable,
    quotas: &Two,
    input: I,
    output: O,
    notes: &mut N,
) -> (u8, I, O)
    ensures { (files : Option Store)
        → IsAskedFor files (serving_of serving.entry).actions responder.now
        → Answered (λ text. Notes (N.view notes.old) (N.view notes.new) text
        × (text ≡ [] → notes.new ≡ notes.old)) files (serving_of serving.entry) statics.now
        (two_of quotas.now) (input_at I.left I.taken I.faults I.empty_takes input)
        (input_at I.left I.taken I.faults I.empty_takes result.1) (O.view output) (O.view result.2)
        result.0 }
{
    let Ok(endpoint) = endpoint_in(alloc, serving.endpoint) else {
        note_status(5, notes);
        return (5, input, output);
    };
    let (replayed, input, output) = replay_stream(
        rt, alloc, &endpoint, responder, statics, quotas, input, output,
    );
    note_replay(replayed, notes);
    (replay_status(replayed), input, output)
}

/// Answers the initiator's stream that the input gives, by the service that is asked for, and
/// writes the note. If that service's file isn't read, the stream isn't either, and the note says
/// why. Answers the status, with the input and the output.
pub fn replay_input<
    R: Threads + Wait + Sync,
    F: Shelf,
    I: Source + Drop,
    O: Sink + Send + Drop,
    N: Sink,
>(
    rt: &R,
    alloc: Global,
    serving: Serving<'_>,
    statics: &StaticTable,
    quotas: &Two,
    shelf: &mut F,
    input: I,
    output: O,
    notes: &mut N,
) -> (u8, I, O)
    ensures answers { Answered (λ text. Notes (N.view notes.old) (N.view notes.new) text
        × (text ≡ [] → notes.new ≡ notes.old)) (F.files shelf.old) (serving_of serving.entry)
        statics.now (two_of quotas.now) (input_at I.left I.taken I.faults I.empty_takes input)
        (input_at I.left I.taken I.faults I.empty_takes result.1) (O.view output) (O.view result.2)
        result.0
        ⊎ HasNoActions (λ text. Notes (N.view notes.old) (N.view notes.new) text
        × (text ≡ [] → notes.new ≡ notes.old)) ((result.1 ≡ input) × (result.2 ≡ output))
        (serving_of serving.entry) (shelf_at F.files F.faults shelf.old)
        (shelf_at F.files F.faults shelf.new) result.0 }
    ensures kept { F.files shelf.new ≡ F.files shelf.old }
    ensures fetched { HasFetched (if_named (serving_of serving.entry).actions)
        (F.fetches shelf.old) (F.fetches shelf.new) }
    ensures shelf_faults { F.faults shelf.old ≤ F.faults shelf.new }
    ensures shelf_well { (result.0 ≡ 3 → ⊥) → F.faults shelf.new ≡ F.faults shelf.old }
{
    match responder_in(alloc, serving, shelf) {
        Ok(responder) => answer_input(
            rt, alloc, serving, &responder, statics, quotas, input, output, notes,
        ),
        Err(unread) => (note_file(unread.name, unread.fault, notes), input, output),
    }
}
