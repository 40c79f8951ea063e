//! The call that does all that the program does.

ghost use Rattle.std.specs.Prelude.{◌≡◌, ◌≤◌, ◌⊎◌, [], map};
ghost use Rattle.std.specs.String.{string_bytes};
ghost use Rattle.io_edges.specs.Faults.{Rose, one_more};
ghost use Rattle.stream_loop.specs.Edges.{input_at};
ghost use Rattle.io_edges.specs.Wires.{network_at};
ghost use Rattle.dump_replay.specs.Complete.{IsComplete};
ghost use Rattle.dump_replay.specs.Noting.{Notes};
ghost use Rattle.dump_replay.specs.Outside.{Across, shelf_at};
ghost use Rattle.dump_replay.specs.Statuses.{status_of_words};
ghost use Rattle.dump_replay.specs.Running.{CountsWire, FetchesNamed, IsStatus, WhereAsked};
ghost use Rattle.dump_replay.specs.Working.{Runs};

use crate::notes::{note_file, note_rehearsal, note_status};
use crate::rehearsing::{rehearse_input, rehearse_status};
use crate::statics::read_statics;
use crate::working::work;
use command_words::{Request, WordsFault};
use io_edges::{Shelf, Sink, Source, Wire};
use std::alloc::Global;
use std::sync::Wait;
use std::thread::Threads;

/// What a run of the program leaves.
#[derive(Debug, Drop)]
pub struct Ran<I, O> {
    /// The program's exit status.
    pub status: u8,
    /// The input, as far as it was read.
    pub input: I,
    /// The output, with what was written to it.
    pub output: O,
}

/// Does all that the program does for these arguments, the first of which is its name.
///
/// `check` reads a stream from the input, an initiator's or with `--replies` a receiver's, with the
/// static strings of the shelf's file that `--static` names and within the quotas that the other
/// options set, and writes its report to the output; `dump` does too, with the lines of each
/// document after its envelope's. The status is 0 where the session ended, 1 where the stream is
/// refused, 9 where the receiver's Fault ended the session, and 10 where the stream's bytes reach
/// the session quota first.
///
/// `build` reads documents in lines from the input, and writes an initiator's session of them to
/// the output: the preamble first, each document's envelope when its last line was read, and End.
/// The status is 0 where all of that is written, 6 where a line is refused, 7 where a document
/// doesn't fit, and 10 where the input's bytes reach the session quota first; each of these three
/// with a note, and with the preamble and the envelopes of the documents before it on the output.
///
/// `replay` reads an initiator's stream from the input, and writes what a server would to the
/// output: the Preamble Ack, an answer to each request, by the echo or with `--actions` by the
/// texts of the shelf's file of that name, and an End or a Fault record. Requests are read on while
/// answers are written, until sixteen wait, and a failed write doesn't end the reading. The status
/// is 0 where the session ended, 1 where the stream is refused, and 10 where its bytes reach the
/// session quota first; with 1 and 10 the offence is a note.
///
/// `serve` answers the connections that the wire gives for the place that `--listen` names, one
/// after the other, each as `replay` answers a stream, and writes a line of each to the output when
/// it is over. The input isn't read. What happens on a connection is in its line alone. The status
/// is 0 where as many were served as `--connections` says, or no other is to come, and 8 where the
/// wire failed to give the next one, with a note. Every connection that was given is closed.
///
/// `call` reads documents in lines: those of the shelf's file that `--second` names, if it does,
/// and those of the input. It then connects to the place that `--connect` names, and once the peer
/// has accepted the session sends the input's documents and the file's on it, each list in order,
/// while it writes the report of what the peer sends to the output, as `dump` would. The last line
/// says how many documents were sent, and of which list each was. The
/// status is 0 where the peer ended the session, 1 where its stream is refused, 9 where its Fault
/// ended the session, and 10 where its bytes reach the session quota first; 7 where a document
/// doesn't fit, and 8 where no connection was made or one of its ends failed, both with a note. It
/// is 6 where a line is refused and 10 where the input's bytes reach the session quota, with a
/// note, and then no connection is asked for. Of several the first of 5, 8, 7, 4, 9, 10 and 1
/// counts. A connection that was made is closed.
///
/// `relay` accepts the connections that the wire gives for the place that `--listen` names, one
/// after the other. For each it connects to the place that `--connect` names and, once the peer's
/// preamble was read, opens a session there by the Via that `--via` says, in the peer's mode and
/// encoding. It then carries the documents of each side to the other, each read and written anew
/// with the strings of its own session: of the static ones the server's session has those of the
/// shelf's file that `--back-static` names, or those of the peers. A line of each is written to the
/// output when both directions are over. The input isn't read. The status is 0 where as many were
/// joined as `--connections` says, or no other is to come, and 8 where the wire failed to give the
/// next one or to make the connection beside it, with a note. Every connection is closed.
///
/// `pool` answers the connections that the wire gives for the place that `--listen` names as they
/// come, each on a thread of its own, and of each as many sessions as `--sessions` says, one after the
/// other. A line of each connection is written to the output, in the order in which they were
/// accepted, when all are over. The input isn't read. The status is 0 where as many were served as
/// `--connections` says, or no other is to come, and 8 where the wire failed to give the next one, with
/// a note. Every connection that was given is closed.
///
/// `gen` makes as many documents as `--count` says, which follow the number that `--seed` says,
/// sends them to a reader within the program, and writes a line of what the session measures. The
/// input isn't read. The status is 0, or 10 where the session has more bytes than the session
/// quota, with the offence as a note.
///
/// `rehearse` plays the history of the reliable sequence that `--id` names, with the window that
/// `--window` says, from the lines of the input, and writes a line for each body that is delivered,
/// and at last how many bodies were submitted and delivered, and how many numbers are acknowledged.
/// No file is read. The status is 0 where all lines were played, 6 where a line is refused, and 10
/// where 2^30 bytes were read and the input hasn't ended, both with a note, and with the lines of
/// the bodies that were delivered before it on the output.
///
/// Of all the status is 2 where the arguments aren't valid, 3 where a read failed, 4 where a write
/// failed, 5 where memory ran out, and 6 where the shelf has no such file, or one with a bad row.
/// With 2 to 6 a note says so; that a note can't be put changes nothing else. Where several stand
/// together in `replay`, 5 goes before 4, and 4 before 3.
pub fn run<
    R: Threads + Wait + Sync,
    F: Shelf,
    I: Source + Drop,
    O: Sink + Send + Drop,
    N: Sink,
    W: Wire,
>(
    rt: &R,
    alloc: Global,
    words: &[String],
    shelf: &mut F,
    input: I,
    output: O,
    notes: &mut N,
    wire: &mut W,
) -> Ran<I, O>
    requires { W.out wire.old ≡ 0 }

    // Whatever the words are.
    ensures statuses { IsStatus result.status }
    ensures words { result.status ≡ 2 → WhereAsked (map string_bytes words.now) (λ asked. ⊥) }
    ensures untouched { result.status ≡ 2 → (result.input ≡ input) × (result.output ≡ output)
        × (wire.new ≡ wire.old) }
    ensures fetched { FetchesNamed (map string_bytes words.now) (F.fetches shelf.old)
        (F.fetches shelf.new) }
    ensures one_empty_take { (I.empty_takes result.input ≡ I.empty_takes input)
        ⊎ (I.empty_takes result.input ≡ one_more (I.empty_takes input)) }
    ensures read_fault { result.status ≡ 3
        → Rose (I.faults input) (I.faults result.input)
        ⊎ Rose (F.faults shelf.old) (F.faults shelf.new) }
    ensures write_fault { result.status ≡ 4
        → Rose (O.view output).faults (O.view result.output).faults }
    ensures wire_fault { CountsWire (W.faults wire.old) (W.faults wire.new)
        (W.end_faults wire.old) (W.end_faults wire.new) result.status }
    ensures out { W.out wire.new ≡ 0 }
    ensures input_faults { I.faults input ≤ I.faults result.input }
    ensures output_faults { (O.view output).faults ≤ (O.view result.output).faults }
    ensures shelf_faults { F.faults shelf.old ≤ F.faults shelf.new }
    ensures notes_faults { (N.view notes.old).faults ≤ (N.view notes.new).faults }
    ensures shelf { F.files shelf.new ≡ F.files shelf.old }
    ensures shelf_well { (result.status ≡ 3 → ⊥) → F.faults shelf.new ≡ F.faults shelf.old }

    // By what they ask for.
    ensures runs { Across (shelf_at F.files F.faults)
        (input_at I.left I.taken I.faults I.empty_takes) O.view
        (network_at W.waiting W.closed W.out W.faults W.end_faults) shelf.old input output wire.old
        shelf.new result.input result.output wire.new (λ before after. Runs
        (λ text. Notes (N.view notes.old) (N.view notes.new) text
        × (text ≡ [] → notes.new ≡ notes.old)) ((result.input ≡ input) × (result.output ≡ output)
        × (wire.new ≡ wire.old)) (input_at W.Reader.left W.Reader.taken W.Reader.faults
        W.Reader.empty_takes) W.Writer.view (shelf.new ≡ shelf.old) (wire.new ≡ wire.old)
        (map string_bytes words.now) before after result.status) }

    // Where nothing of the outside fails and memory suffices.
    ensures complete { Across (shelf_at F.files F.faults)
        (input_at I.left I.taken I.faults I.empty_takes) O.view
        (network_at W.waiting W.closed W.out W.faults W.end_faults) shelf.old input output wire.old
        shelf.new result.input result.output wire.new (λ before after. IsComplete (input_at
        W.Reader.left W.Reader.taken W.Reader.faults W.Reader.empty_takes)
        (map string_bytes words.now) before after result.status) }
{
    let request = match command_words::read(alloc, words) {
        Ok(request) => request,
        Err(fault) => {
            let status = words_status(fault);
            note_status(status, notes);
            return Ran {
                status,
                input,
                output,
            };
        }
    };
    let request = match request {
        Request::Rehearse(asked) => {
            let mut input = input;
            let (ending, output) = rehearse_input(alloc, asked, &mut input, output);
            note_rehearsal(ending, notes);
            return Ran {
                status: rehearse_status(ending),
                input,
                output,
            };
        }
        Request::Sessions(request) => request,
    };
    let table = match read_statics(alloc, shelf, request.statics) {
        Ok(table) => table,
        Err(fault) => {
            let status = note_file(request.statics, fault, notes);
            return Ran {
                status,
                input,
                output,
            };
        }
    };
    let (status, input, output) = work(
        rt,
        alloc,
        request.task,
        &table,
        &request.quotas,
        shelf,
        input,
        output,
        notes,
        wire,
    );
    Ran {
        status,
        input,
        output,
    }
}

fn words_status(fault: WordsFault) -> u8
    ensures { result ≡ status_of_words fault }
{
    match fault {
        WordsFault::NotUnderstood => 2,
        WordsFault::Memory => 5,
    }
}
