//! What each command does once the static strings are read.

ghost use Rattle.std.specs.Prelude.{◌≡◌, ◌≤◌, ◌<◌, ◌^◌, []};
ghost use Rattle.stream_loop.specs.Edges.{input_at};
ghost use Rattle.io_edges.specs.Wires.{network_at};
ghost use Rattle.command_words.specs.Asking.{task_of, two_of};
ghost use Rattle.dump_replay.specs.Noting.{Notes};
ghost use Rattle.dump_replay.specs.Outside.{Across, shelf_at};
ghost use Rattle.dump_replay.specs.Running.{CountsWire, HasFetched, files_of};
ghost use Rattle.dump_replay.specs.Working.{IsPossible, Leaves, WhereOffline, Works};

use crate::building::{build_input, build_status};
use crate::calling::call_peer;
use crate::generating::generate_session;
use crate::notes::{note_building, note_status};
use crate::pooling::pool_wire;
use crate::relaying::relay_wire;
use crate::replaying::replay_input;
use crate::reporting::report_input;
use crate::serving::serve_wire;
use command_words::Task;
use io_edges::{Shelf, Sink, Source, Wire};
use nbfx_values::Two;
use static_dictionary::StaticTable;
use std::alloc::Global;
use std::sync::Wait;
use std::thread::Threads;

/// Does a task with these static strings and quotas, and writes the note of how it ended. Answers
/// the status, with the input and the output.
pub fn work<
    R: Threads + Wait + Sync,
    F: Shelf,
    I: Source + Drop,
    O: Sink + Send + Drop,
    N: Sink,
    W: Wire,
>(
    rt: &R,
    alloc: Global,
    task: Task<'_>,
    statics: &StaticTable,
    quotas: &Two,
    shelf: &mut F,
    mut input: I,
    output: O,
    notes: &mut N,
    wire: &mut W,
) -> (u8, I, O)
    requires possible { IsPossible (task_of task) }
    requires out { W.out wire.old ≡ 0 }
    ensures leaves { Across (shelf_at F.files F.faults)
        (input_at I.left I.taken I.faults I.empty_takes) O.view
        (network_at W.waiting W.closed W.out W.faults W.end_faults) shelf.old input output
        wire.old shelf.new result.1 result.2 wire.new
        (λ before after. Leaves before after result.0) }
    ensures works { Across (shelf_at F.files F.faults)
        (input_at I.left I.taken I.faults I.empty_takes) O.view
        (network_at W.waiting W.closed W.out W.faults W.end_faults) shelf.old input output
        wire.old shelf.new result.1 result.2 wire.new (λ before after. Works
        (λ text. Notes (N.view notes.old) (N.view notes.new) text
        × (text ≡ [] → notes.new ≡ notes.old))
        ((result.1 ≡ input) × (result.2 ≡ output) × (wire.new ≡ wire.old)) (input_at
        W.Reader.left W.Reader.taken W.Reader.faults W.Reader.empty_takes) W.Writer.view
        (task_of task.entry) statics.now (two_of quotas.now) before after result.0) }
    ensures offline { WhereOffline (task_of task.entry) (wire.new ≡ wire.old) }
    ensures wire_fault { CountsWire (W.faults wire.old) (W.faults wire.new)
        (W.end_faults wire.old) (W.end_faults wire.new) result.0 }
    ensures out { W.out wire.new ≡ W.out wire.old }
    ensures kept { F.files shelf.new ≡ F.files shelf.old }
    ensures fetched { HasFetched (files_of (task_of task.entry)) (F.fetches shelf.old)
        (F.fetches shelf.new) }
    ensures shelf_faults { F.faults shelf.old ≤ F.faults shelf.new }
    ensures shelf_well { (result.0 ≡ 3 → ⊥) → F.faults shelf.new ≡ F.faults shelf.old }
    ensures notes_faults { (N.view notes.old).faults ≤ (N.view notes.new).faults }
{
    match task {
        Task::Report { detail, origin } => {
            let (status, output) = report_input(
                alloc, detail, origin, statics, quotas, &mut input, output,
            );
            note_status(status, notes);
            (status, input, output)
        }
        Task::Build(opening) => {
            let (ending, output) = build_input(
                alloc,
                opening,
                statics,
                quotas.forward,
                &mut input,
                output,
            );
            note_building(ending, notes);
            (build_status(ending), input, output)
        }
        Task::Replay(serving) => replay_input(
            rt, alloc, serving, statics, quotas, shelf, input, output, notes,
        ),
        Task::Serve {
            listen,
            connections,
            serving,
        } => {
            let (status, output) = serve_wire(
                rt,
                alloc,
                listen,
                connections,
                serving,
                statics,
                quotas,
                shelf,
                output,
                notes,
                wire,
            );
            (status, input, output)
        }
        Task::Call {
            connect,
            opening,
            second,
        } => {
            let (status, output) = call_peer(
                rt, alloc, connect, opening, second, statics, quotas, shelf, &mut input, output,
                notes, wire,
            );
            (status, input, output)
        }
        Task::Relay(relaying) => {
            let (status, output) = relay_wire(
                rt, alloc, relaying, statics, quotas, shelf, output, notes, wire,
            );
            (status, input, output)
        }
        Task::Pool {
            listen,
            connections,
            sessions,
            serving,
        } => {
            let (status, output) = pool_wire(
                rt,
                alloc,
                listen,
                connections,
                sessions,
                serving,
                statics,
                quotas,
                shelf,
                output,
                notes,
                wire,
            );
            (status, input, output)
        }
        Task::Generate { seed, count } => {
            let (status, output) = generate_session(
                alloc,
                seed,
                count,
                statics,
                quotas.forward,
                output,
                notes,
            );
            (status, input, output)
        }
    }
}
