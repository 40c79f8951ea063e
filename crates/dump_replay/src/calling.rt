//! The command `call`, which sends documents to a peer.

ghost use Rattle.std.specs.Prelude.{◌≡◌, ◌≤◌, ◌<◌, ◌⊎◌, ◌^◌, [], length, IfErr, IfOk, IsErrOf, Err, Some};
ghost use Rattle.io_edges.specs.Faults.{CountsFaults, Rose};
ghost use Rattle.stream_loop.specs.Edges.{input_at};
ghost use Rattle.document_lines.specs.Files.{Answers};
ghost use Rattle.io_edges.specs.Wires.{network_at};
ghost use Rattle.command_words.specs.Asking.{opening_of, two_of};
ghost use Rattle.command_words.specs.Values.{text_behind};
ghost use Rattle.dump_replay.specs.Calling.{CalledFor, CalledOrNot, HasFailedSecond, HasNoSecond, IsSecond, ending_of_list};
ghost use Rattle.dump_replay.specs.Noting.{Notes};
ghost use Rattle.dump_replay.specs.Outside.{shelf_at};
ghost use Rattle.dump_replay.specs.Running.{CountsWire, HasFetched, if_named};

use crate::building::build_status;
use crate::notes::{note_building, note_called, note_documents};
use client::{CallSettings, call_place};
use command_words::Opening;
use document_lines::{DocumentsFault, InputFault, ListFault, fetch_documents, take_documents};
use io_edges::{Shelf, Sink, Source, Wire};
use nbfx_values::{Docs, Two};
use static_dictionary::StaticTable;
use std::alloc::Global;
use std::sync::Wait;
use std::thread::Threads;
use stream_loop::ReportEnding;

/// A file of documents that isn't read, and why.
#[derive(Clone, Copy, Debug)]
pub struct UnreadDocuments<'w> {
    /// The name that the arguments give.
    pub name: &'w str,
    /// Why it isn't read.
    pub fault: DocumentsFault,
}

// The documents of the file that is named, or none.
fn second_in<'w, F: Shelf>(
    alloc: Global,
    named: Option<&'w str>,
    shelf: &mut F,
) -> Result<Docs, UnreadDocuments<'w>>
    ensures found { IfOk result (IsSecond (F.files shelf.old) (text_behind named.entry)) }
    ensures unread { IfErr result (λ unread. (text_behind named.entry ≡ Some unread.name.now)
        × Answers (F.files shelf.old) unread.name.now (Err unread.fault)) }
    ensures kept { F.files shelf.new ≡ F.files shelf.old }
    ensures fetched { HasFetched (if_named (text_behind named.entry)) (F.fetches shelf.old)
        (F.fetches shelf.new) }
    ensures counted { CountsFaults (F.faults shelf.old) (F.faults shelf.new)
        (HasFailedSecond result) }
{
    let Some(name) = named else {
        return Ok(Docs::new(alloc));
    };
    match fetch_documents(alloc, shelf, name) {
        Ok(docs) => Ok(docs),
        Err(fault) => Err(UnreadDocuments { name, fault }),
    }
}

fn list_ending(fault: ListFault) -> ReportEnding<InputFault>
    ensures { result ≡ ending_of_list fault }
{
    match fault {
        ListFault::Refused(fault) => ReportEnding::Judged(Some(fault)),
        ListFault::ReadFault => ReportEnding::ReadFault,
        ListFault::Memory => ReportEnding::Memory,
    }
}

// Calls the place with the documents that the input gives and with these, and writes the note. If
// the input's aren't read, no connection is asked for.
fn call_with<R: Threads + Wait + Sync, I: Source, O: Sink + Drop, N: Sink, W: Wire>(
    rt: &R,
    alloc: Global,
    place: &str,
    opening: Opening<'_>,
    second: &Docs,
    statics: &StaticTable,
    quotas: &Two,
    input: &mut I,
    output: O,
    notes: &mut N,
    wire: &mut W,
) -> (u8, O)
    requires room { W.out wire.old < 2 ^ 63 }
    requires via { length opening.via.now ≤ 2048 }
    ensures calls { CalledOrNot (λ text. Notes (N.view notes.old) (N.view notes.new) text
        × (text ≡ [] → notes.new ≡ notes.old)) (two_of quotas.now)
        (input_at I.left I.taken I.faults I.empty_takes input.old)
        (input_at I.left I.taken I.faults I.empty_takes input.new) (O.view output) (O.view result.1)
        result.0 (input_at W.Reader.left W.Reader.taken W.Reader.faults W.Reader.empty_takes)
        W.Writer.view (opening_of opening.entry) statics.now second.now
        (network_at W.waiting W.closed W.out W.faults W.end_faults wire.old)
        (network_at W.waiting W.closed W.out W.faults W.end_faults wire.new) }
    ensures wire_fault { CountsWire (W.faults wire.old) (W.faults wire.new)
        (W.end_faults wire.old) (W.end_faults wire.new) result.0 }
    ensures out { W.out wire.new ≡ W.out wire.old }
    ensures notes_faults { (N.view notes.old).faults ≤ (N.view notes.new).faults }
{
    let first = match take_documents(alloc, &quotas.forward, Docs::new(alloc), input) {
        Ok(first) => first,
        Err(fault) => {
            let ending = list_ending(fault);
            note_building(ending, notes);
            return (build_status(ending), output);
        }
    };
    let settings = CallSettings {
        statics,
        quotas: *quotas,
        mode: opening.mode,
        encoding: opening.encoding,
    };
    let (called, output) = call_place(
        rt,
        alloc,
        wire,
        place,
        opening.via,
        settings,
        &first,
        second,
        output,
    );
    note_called(called, notes);
    (called.status(), output)
}

/// Calls the place with the documents that the input gives and those of the second file, each list
/// in order, beside each other on one session, and writes the report of what the peer sends to the
/// output, with a line of what was sent. The note says why that isn't done. Where documents aren't
/// read, no connection is asked for, and where those of the second file aren't, the input isn't
/// read. Answers the status with the output.
pub fn call_peer<R: Threads + Wait + Sync, F: Shelf, I: Source, O: Sink + Drop, N: Sink, W: Wire>(
    rt: &R,
    alloc: Global,
    place: &str,
    opening: Opening<'_>,
    named: Option<&str>,
    statics: &StaticTable,
    quotas: &Two,
    shelf: &mut F,
    input: &mut I,
    output: O,
    notes: &mut N,
    wire: &mut W,
) -> (u8, O)
    requires room { W.out wire.old < 2 ^ 63 }
    requires via { length opening.via.now ≤ 2048 }
    ensures calls { CalledFor (λ text. Notes (N.view notes.old) (N.view notes.new) text
        × (text ≡ [] → notes.new ≡ notes.old)) (F.files shelf.old) (text_behind named.entry)
        (two_of quotas.now) (input_at I.left I.taken I.faults I.empty_takes input.old)
        (input_at I.left I.taken I.faults I.empty_takes input.new) (O.view output) (O.view result.1)
        result.0 (input_at W.Reader.left W.Reader.taken W.Reader.faults W.Reader.empty_takes)
        W.Writer.view (opening_of opening.entry) statics.now
        (network_at W.waiting W.closed W.out W.faults W.end_faults wire.old)
        (network_at W.waiting W.closed W.out W.faults W.end_faults wire.new)
        ⊎ HasNoSecond (λ text. Notes (N.view notes.old) (N.view notes.new) text
        × (text ≡ [] → notes.new ≡ notes.old))
        ((input.new ≡ input.old) × (result.1 ≡ output) × (wire.new ≡ wire.old))
        (text_behind named.entry) (shelf_at F.files F.faults shelf.old)
        (shelf_at F.files F.faults shelf.new) result.0 }
    ensures kept { F.files shelf.new ≡ F.files shelf.old }
    ensures fetched { HasFetched (if_named (text_behind named.entry)) (F.fetches shelf.old)
        (F.fetches shelf.new) }
    ensures shelf_faults { F.faults shelf.old ≤ F.faults shelf.new }
    ensures shelf_well { (result.0 ≡ 3 → ⊥) → F.faults shelf.new ≡ F.faults shelf.old }
    ensures wire_fault { CountsWire (W.faults wire.old) (W.faults wire.new)
        (W.end_faults wire.old) (W.end_faults wire.new) result.0 }
    ensures out { W.out wire.new ≡ W.out wire.old }
    ensures notes_faults { (N.view notes.old).faults ≤ (N.view notes.new).faults }
{
    match second_in(alloc, named, shelf) {
        Ok(second) => call_with(
            rt, alloc, place, opening, &second, statics, quotas, input, output, notes, wire,
        ),
        Err(unread) => (note_documents(unread.name, unread.fault, notes), output),
    }
}
