//! The notes of a run, on standard error. If a note can't be written, nothing else changes.

ghost use Rattle.std.specs.Prelude.{◌≡◌, [], ◌∷◌, ◌++◌, All, Some, codes};
ghost use Rattle.std.specs.Fmt.{decimal};
ghost use Rattle.line_notation.specs.Puts.{IsPuttable, joined_words};
ghost use Rattle.session_report.specs.Report.{offence_line};
ghost use Rattle.dump_replay.specs.Answering.{note_of_inbound, note_of_replay};
ghost use Rattle.dump_replay.specs.Building.{input_note, joined, line_kind_name, line_note, note_of_building};
ghost use Rattle.dump_replay.specs.Calling.{note_of_called, note_of_documents, refused_note, status_of_documents};
ghost use Rattle.dump_replay.specs.Generating.{note_of_summary};
ghost use Rattle.dump_replay.specs.Noting.{Notes};
ghost use Rattle.dump_replay.specs.Rehearsing.{note_of_history, note_of_rehearsal};
ghost use Rattle.dump_replay.specs.Running.{note_of, note_of_file, status_of_file};
ghost use Rattle.io_edges.specs.Puts.{Puts};

use crate::files::RowKind;
use crate::replaying::write_fault_status;
use client::Called;
use document_lines::{DocumentsFault, InputFault};
use duplex_server::{Inbound, Outbound, Replayed};
use io_edges::{FileFault, Sink, SinkFault};
use line_notation::{LineKind, Word, put_joined};
use nbfx_encoder::EncodeFault;
use nbfx_values::Offence;
use rehearsal::HistoryFault;
use session_generator::Summary;
use session_report::put_offence;
use stream_loop::ReportEnding;

// The text of the note that goes with a status by itself.
fn note_text(status: u8) -> &'static str
    ensures { result.now ≡ note_of status }
{
    match status {
        2 => "words not understood\n",
        3 => "read fault\n",
        4 => "write fault\n",
        5 => "out of memory\n",
        8 => "wire fault\n",
        _ => "",
    }
}

// Puts pieces of a text, and writes them.
fn put_note<N: Sink>(pieces: &[Word], notes: &mut N) -> Result<(), SinkFault>
    requires { All IsPuttable pieces.now }
    ensures { Notes (N.view notes.old) (N.view notes.new) (joined_words pieces.now) }
{
    put_joined(pieces, notes)?;
    notes.flush()
}

/// Writes the note of a status that needs no other words.
pub fn note_status<N: Sink>(status: u8, notes: &mut N)
    ensures notes { Notes (N.view notes.old) (N.view notes.new) (note_of status) }
    ensures none { note_of status ≡ [] → notes.new ≡ notes.old }
{
    let text = note_text(status);
    if !text.is_empty() {
        let _ = put_note(&[Word::Plain(text)], notes);
    }
}

// Writes the note of a file that doesn't exist.
fn note_missing<N: Sink>(name: &str, notes: &mut N)
    ensures { Notes (N.view notes.old) (N.view notes.new) (name.now ++ codes ": not found\n") }
{
    let _ = put_note(&[Word::Plain(name), Word::Plain(": not found\n")], notes);
}

// Writes the note of a file whose first bad row is this.
fn note_row<K: RowKind, N: Sink>(name: &str, row: u64, kind: K, notes: &mut N)
    ensures { Notes (N.view notes.old) (N.view notes.new) (name.now
        ++ codes ": row " ++ decimal row ++ codes " " ++ K.name_of kind ++ codes "\n") }
{
    let pieces = [
        Word::Plain(name),
        Word::Plain(": row "),
        Word::Natural(u128::from(row)),
        Word::Plain(" "),
        Word::Plain(kind.name()),
        Word::Plain("\n"),
    ];
    let _ = put_note(&pieces, notes);
}

/// Writes the note of the file of that name, which isn't read, and answers the status.
pub fn note_file<K: RowKind, N: Sink>(name: &str, fault: FileFault<K>, notes: &mut N) -> u8
    ensures status { result ≡ status_of_file fault }
    ensures notes { Notes (N.view notes.old) (N.view notes.new)
        (note_of_file K.name_of name.now fault) }
    ensures none { note_of_file K.name_of name.now fault ≡ [] → notes.new ≡ notes.old }
{
    match fault {
        FileFault::Missing => {
            note_missing(name, notes);
            6
        }
        FileFault::Bad { row, kind } => {
            note_row(name, row, kind, notes);
            6
        }
        FileFault::Failed => {
            note_status(3, notes);
            3
        }
        FileFault::Memory => {
            note_status(5, notes);
            5
        }
    }
}

// What is wrong with a line, as a note says it.
fn line_kind_name(kind: LineKind) -> &'static str
    ensures { result.now ≡ line_kind_name kind }
{
    match kind {
        LineKind::NotALine => "NotALine",
        LineKind::BadText => "BadText",
        LineKind::OutOfRange => "OutOfRange",
        LineKind::OutOfPlace => "OutOfPlace",
        LineKind::Cut => "Cut",
        LineKind::WrongCount => "WrongCount",
    }
}

// Writes the note of a line that is refused, of the input or of the file with this name.
fn note_line<N: Sink>(name: &str, line: u64, kind: LineKind, notes: &mut N)
    ensures { Notes (N.view notes.old) (N.view notes.new) (line_note name.now line kind) }
{
    let pieces = [
        Word::Plain(name),
        Word::Plain(": line "),
        Word::Natural(u128::from(line)),
        Word::Plain(" "),
        Word::Plain(line_kind_name(kind)),
        Word::Plain("\n"),
    ];
    let _ = put_note(&pieces, notes);
}

// Writes the note of a document that doesn't fit, by what it has too much of.
fn note_measure<N: Sink>(number: u64, measure: &'static str, size: u64, notes: &mut N)
    ensures { Notes (N.view notes.old) (N.view notes.new)
        (joined (codes "document " ∷ decimal number ∷ codes " does not fit: " ∷ measure.now
        ∷ decimal size ∷ codes "\n" ∷ [])) }
{
    let pieces = [
        Word::Plain("document "),
        Word::Natural(u128::from(number)),
        Word::Plain(" does not fit: "),
        Word::Plain(measure),
        Word::Natural(u128::from(size)),
        Word::Plain("\n"),
    ];
    let _ = put_note(&pieces, notes);
}

// Writes the note of a document that doesn't fit.
fn note_unfit<N: Sink>(number: u64, why: EncodeFault, notes: &mut N)
    ensures { Notes (N.view notes.old) (N.view notes.new)
        (input_note (InputFault.Unfit number why)) }
{
    match why {
        EncodeFault::TooDeep { depth } => note_measure(number, "depth ", depth, notes),
        EncodeFault::TooMuchContent { size } => note_measure(number, "content ", size, notes),
        EncodeFault::NoIdForQName { item } => {
            note_measure(number, "qname at item ", item, notes);
        }
        EncodeFault::TooLarge { size } => note_measure(number, "payload ", size, notes),
        EncodeFault::Memory => note_status(5, notes),
    }
}

// Writes the note of documents that are refused.
fn note_input<N: Sink>(fault: InputFault, notes: &mut N)
    ensures { Notes (N.view notes.old) (N.view notes.new) (input_note fault) }
{
    match fault {
        InputFault::Line { line, kind } => note_line("input", line, kind, notes),
        InputFault::Unfit { number, why } => note_unfit(number, why, notes),
        InputFault::TooLong => {
            let _ = put_note(&[Word::Plain("input too long\n")], notes);
        }
    }
}

// Writes the note of a history that is refused.
fn note_history<N: Sink>(fault: HistoryFault, notes: &mut N)
    ensures { Notes (N.view notes.old) (N.view notes.new)
        (note_of_history (Some fault)) }
{
    match fault {
        HistoryFault::Line { line, kind } => note_line("input", line, kind, notes),
        HistoryFault::TooLong => {
            let _ = put_note(&[Word::Plain("input too long\n")], notes);
        }
    }
}

/// Writes the note of a history that `rehearse` played, by how that ended.
pub fn note_rehearsal<N: Sink>(ending: ReportEnding<HistoryFault>, notes: &mut N)
    ensures notes { Notes (N.view notes.old) (N.view notes.new)
        (note_of_rehearsal ending) }
    ensures none { note_of_rehearsal ending ≡ [] → notes.new ≡ notes.old }
{
    match ending {
        ReportEnding::Judged(None) => {}
        ReportEnding::Judged(Some(fault)) => note_history(fault, notes),
        ReportEnding::ReadFault => note_status(3, notes),
        ReportEnding::WriteFault => note_status(4, notes),
        ReportEnding::Memory => note_status(5, notes),
    }
}

/// Writes the note of a session that `build` wrote, by how that ended.
pub fn note_building<N: Sink>(ending: ReportEnding<InputFault>, notes: &mut N)
    ensures notes { Notes (N.view notes.old) (N.view notes.new) (note_of_building ending) }
    ensures none { note_of_building ending ≡ [] → notes.new ≡ notes.old }
{
    match ending {
        ReportEnding::Judged(None) => {}
        ReportEnding::Judged(Some(fault)) => note_input(fault, notes),
        ReportEnding::ReadFault => note_status(3, notes),
        ReportEnding::WriteFault => note_status(4, notes),
        ReportEnding::Memory => note_status(5, notes),
    }
}

// Puts the line of an offence, and writes it.
fn put_offence_note<N: Sink>(offence: Offence, notes: &mut N) -> Result<(), SinkFault>
    ensures { Notes (N.view notes.old) (N.view notes.new) (offence_line offence) }
{
    put_offence(offence, notes)?;
    notes.flush()
}

// Writes the note of an offence.
fn note_offence<N: Sink>(offence: Offence, notes: &mut N)
    ensures { Notes (N.view notes.old) (N.view notes.new) (offence_line offence) }
{
    let _ = put_offence_note(offence, notes);
}

// Writes the note of a stream that was answered, by how its reading ended.
fn note_inbound<N: Sink>(inbound: Inbound, notes: &mut N)
    ensures notes { Notes (N.view notes.old) (N.view notes.new) (note_of_inbound inbound) }
    ensures none { note_of_inbound inbound ≡ [] → notes.new ≡ notes.old }
{
    match inbound {
        Inbound::Ended => {}
        Inbound::Offended(offence) => note_offence(offence, notes),
        Inbound::ReadFault => note_status(3, notes),
        Inbound::Memory => note_status(5, notes),
    }
}

/// Writes the note of a stream that `replay` answered, by how that ended.
pub fn note_replay<N: Sink>(replayed: Replayed, notes: &mut N)
    ensures notes { Notes (N.view notes.old) (N.view notes.new)
        (note_of_replay replayed.inbound replayed.outbound) }
    ensures none { note_of_replay replayed.inbound replayed.outbound ≡ []
        → notes.new ≡ notes.old }
{
    match replayed.outbound {
        Outbound::Done => note_inbound(replayed.inbound, notes),
        Outbound::WriteFault => note_status(write_fault_status(replayed.inbound), notes),
        Outbound::Memory => note_status(5, notes),
    }
}

/// Writes the note of a session that `gen` made, by how that ended.
pub fn note_summary<N: Sink>(summary: Summary, notes: &mut N)
    ensures notes { Notes (N.view notes.old) (N.view notes.new) (note_of_summary summary) }
    ensures none { note_of_summary summary ≡ [] → notes.new ≡ notes.old }
{
    match summary {
        Summary::Written => {}
        Summary::TooLong(offence) => note_offence(offence, notes),
        Summary::WriteFault => note_status(4, notes),
        Summary::Memory => note_status(5, notes),
    }
}

// Writes the note of the file of documents of that name, which is refused.
fn note_refused<N: Sink>(name: &str, fault: InputFault, notes: &mut N)
    ensures { Notes (N.view notes.old) (N.view notes.new) (refused_note name.now fault) }
{
    match fault {
        InputFault::Line { line, kind } => note_line(name, line, kind, notes),
        InputFault::Unfit { .. } | InputFault::TooLong => note_input(fault, notes),
    }
}

/// Writes the note of the file of documents of that name, which isn't read, and answers the status.
pub fn note_documents<N: Sink>(name: &str, fault: DocumentsFault, notes: &mut N) -> u8
    ensures status { result ≡ status_of_documents fault }
    ensures notes { Notes (N.view notes.old) (N.view notes.new) (note_of_documents name.now fault) }
    ensures none { note_of_documents name.now fault ≡ [] → notes.new ≡ notes.old }
{
    match fault {
        DocumentsFault::Missing => {
            note_missing(name, notes);
            6
        }
        DocumentsFault::Refused(refused) => {
            note_refused(name, refused, notes);
            6
        }
        DocumentsFault::Failed => {
            note_status(3, notes);
            3
        }
        DocumentsFault::Memory => {
            note_status(5, notes);
            5
        }
    }
}

/// Writes the note of a place that was called, by what became of that.
pub fn note_called<N: Sink>(called: Called, notes: &mut N)
    ensures notes { Notes (N.view notes.old) (N.view notes.new) (note_of_called called) }
    ensures none { note_of_called called ≡ [] → notes.new ≡ notes.old }
{
    match called.fault() {
        Some(fault) => note_building(ReportEnding::Judged(Some(fault)), notes),
        None => note_status(called.status(), notes),
    }
}
