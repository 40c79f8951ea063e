//! Lines, one after the other, as the envelopes of the documents that they complete.

ghost use Rattle.std.specs.Prelude.{◌≡◌, ◌+◌, ◌-◌, ◌<◌, ◌≤◌, ◌^◌, ◌==◌, ◌&&◌, max, not, [], Err};
ghost use Rattle.line_notation.specs.Between.{next_line};
ghost use Rattle.nbfx_values.specs.QuotasOf.{limits_of};
ghost use Rattle.nbfx_encoder.specs.Sending.{KeepsSettings, kind_in, limits_in, mode_in, names_in, state_in};
ghost use Rattle.nbfx_encoder.specs.Spelling.{encoded};
ghost use Rattle.document_lines.specs.Input.{Settings, is_singleton, start_of};

use crate::InputFault;
use crate::envelope::Envelope;
use line_notation::{LineFault, LineKind, LineReader, LineStep};
use line_streams::LineEnd;
use nbfx_encoder::{EncodeFault, SendFault, SendState, Sender, Side};
use nbfx_values::{Doc, Kind, Mode, Quotas};
use static_dictionary::StaticTable;
use std::alloc::Global;
use std::mem;
use stream_loop::FeedFault;

// The refusal of the line with this number for the number of documents: it begins a second one in
// singleton mode, or none has come.
fn wrong_count(line: u64) -> InputFault
    ensures { result ≡ InputFault.Line line LineKind.WrongCount }
{
    InputFault::Line {
        line,
        kind: LineKind::WrongCount,
    }
}

// Refuses the input, apart from the code for lines that aren't refused.
#[inline(never)]
fn refused(fault: InputFault) -> Result<Option<Envelope>, FeedFault<InputFault>>
    ensures { result ≡ Err (FeedFault.Refused fault) }
{
    Err(FeedFault::Refused(fault))
}

/// Reads complete lines, and writes the envelope of a document at its last line.
#[derive(Drop)]
pub struct LineEncoder<'s> {
    /// Where memory is allocated.
    pub alloc: Global,
    /// The reader of lines.
    pub lines: LineReader,
    /// The sending half of the session.
    pub sender: Sender<'s>,
    /// The session's mode.
    pub mode: Mode,
    /// How many documents were completed.
    pub documents: u64,
    /// The buffer of the next envelope.
    pub room: Vec<u8>,
}

impl<'s> LineEncoder<'s> {
    ghost use Rattle.document_lines.specs.LineEncoderState.{IsAt, KeepsAll, SendAnswers};

    /// Before the first line.
    pub fn new(
        alloc: Global,
        statics: &'s StaticTable,
        quotas: Quotas,
        kind: Kind,
        mode: Mode,
    ) -> Self
        ensures { let x : Settings = record {
          limits = limits_of quotas;
          kind = kind;
          mode = mode;
          statics = statics.now;
        } in IsAt x (start_of x) result }
    {
        LineEncoder {
            alloc,
            lines: LineReader::new(alloc),
            sender: Sender::new(alloc, statics, quotas, kind, mode, Side::Initiator),
            mode,
            documents: 0,
            room: Vec::new(alloc),
        }
    }

    // Whether no other document may begin.
    fn is_full(&self) -> bool
        ensures { result ≡ (is_singleton self.now.mode && not (self.now.documents == 0)) }
    {
        match self.mode {
            Mode::Singleton => self.documents != 0,
            Mode::Duplex | Mode::Simplex => false,
        }
    }

    // Writes a document, which the line of this number completes.
    #[inline(never)]
    fn send(&mut self, line: u64, doc: Doc) -> Result<Option<Envelope>, FeedFault<InputFault>>
        requires { self.old.documents < 2 ^ 63 }
        ensures sent { state_in self.old.sender ≡ SendState.Ready → SendAnswers
            (encoded (limits_in self.old.sender) (kind_in self.old.sender)
            (names_in self.old.sender) doc)
            (mode_in self.old.sender) self.old.documents self.new result }
        ensures kept { KeepsSettings self.old.sender self.new.sender }
        ensures mode { self.new.mode ≡ self.old.mode }
        ensures lines { self.new.lines ≡ self.old.lines }
        ensures documents { self.new.documents ≡ self.old.documents + 1 }
    {
        let number = self.documents;
        self.documents += 1;
        let mut bytes = self.take_room();
        let sent = self.sender.message(&doc, &mut bytes);
        self.lines.reuse(doc);
        match sent {
            Ok(()) => Ok(Some(Envelope::of(bytes))),
            Err(SendFault::Refused(EncodeFault::Memory)) => Err(FeedFault::Memory),
            Err(SendFault::Refused(why)) => refused(InputFault::Unfit { number, why }),
            Err(SendFault::WrongMoment { .. }) => refused(wrong_count(line)),
        }
    }

    // The buffer of an envelope, which is empty.
    fn take_room(&mut self) -> Vec<u8>
        ensures nothing { result.items ≡ [] }
        ensures kept { KeepsAll self.old self.new }
    {
        let mut bytes = mem::replace(&mut self.room, Vec::new(self.alloc));
        bytes.clear();
        bytes
    }
}

impl<'s> LineEnd for LineEncoder<'s> {
    ghost use Rattle.std.specs.Prelude.{Bool};
    ghost use Rattle.document_lines.specs.LineEncoderState.{IsIn, settings_in};
    ghost use Rattle.document_lines.specs.Silence.{silent};
    ghost use Rattle.document_lines.specs.Input.{Settings as InputSettings, Situation as InputSituation, document_rules};

    type Event = Envelope;

    type Refusal = InputFault;

    ghost Situation = { InputSituation };

    ghost Settings = { InputSettings };

    ghost settings = { settings_in };

    ghost rules = { document_rules };

    ghost silent = { silent };

    ghost is_in = { IsIn };

    ghost count = { λ encoder. max (next_line encoder.lines - 1) encoder.documents };

    ghost most_lines = { 2 ^ 63 };

    // A line brings the envelope of the document that it completes, if any.
    #[inline(always)]
    fn line(&mut self, line: &[u8]) -> Result<Option<Envelope>, FeedFault<InputFault>> {
        let number = self.lines.next_line();
        match self.lines.line(line) {
            Ok(LineStep::Done(doc)) => self.send(number, doc),
            Ok(LineStep::More) if self.is_full() && !self.lines.is_between() => {
                refused(wrong_count(number))
            }
            Ok(LineStep::More) => Ok(None),
            Err(LineFault::Bad { line, kind }) => refused(InputFault::Line { line, kind }),
            Err(LineFault::Memory) => Err(FeedFault::Memory),
        }
    }

    // The input may not end within a line, or within a document, or in singleton mode without one.
    fn fault_at_end(&self, within_line: bool) -> Option<InputFault> {
        let line = self.lines.next_line();
        if within_line || !self.lines.is_between() {
            return Some(InputFault::Line {
                line,
                kind: LineKind::Cut,
            });
        }
        if self.mode == Mode::Singleton && self.documents == 0 {
            return Some(wrong_count(line));
        }
        None
    }

    fn too_long(&self) -> InputFault {
        InputFault::TooLong
    }

    fn reuse(&mut self, envelope: Envelope) {
        self.room = envelope.into_bytes();
    }
}
