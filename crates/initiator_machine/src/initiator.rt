//! A reader of a receiver's stream, in any pieces.
#![tactic(auto, unfolding(crate::specs::InitiatorState::reader_of))]

ghost use Rattle.std.specs.Prelude.{◌≡◌, ℕ, List, [], IfOk, Some, false};
ghost use Rattle.unit_streams.specs.Judging.{is_over_at};
ghost use Rattle.nbfx_values.specs.QuotasOf.{limits_of};
ghost use Rattle.nmf_records.specs.declared.script.Direction.TheVariants.{FromReceiver};
ghost use Rattle.stream_reader.specs.Stream.{direction_of, receivers, stream};
ghost use Rattle.stream_reader.specs.StreamReaderState.{settings_of};

use nbfx_values::{Doc, Kept, Kind, Mode, Offence, Quotas};
use session_dictionary::SessionTable;
use static_dictionary::StaticTable;
use std::alloc::Global;
use stream_reader::{ReadRefusal, Side, StreamReader, StreamStep};
use unit_streams::Memory;

/// Reads a receiver's stream (MC-NMF), in whatever pieces its bytes come.
#[derive(Drop)]
pub struct Initiator<'s> {
    reader: StreamReader<'s>,
    ghost side: { direction_of (settings_of reader).side ≡ FromReceiver },
}

impl<'s> Initiator<'s> {
    ghost use Rattle.stream_reader.specs.Calls.{Feeds, EndsInput, Reuses, HasText, HasTaken, HasStrings, Holds};
    ghost use Rattle.stream_reader.specs.StreamReaderState.{failure_of, StandsFor, WhereItStands};
    ghost use Rattle.initiator_machine.specs.InitiatorState.{reader_of};

    /// An initiator before the first byte, in a session of the mode and the encoding that its
    /// preamble named. It allocates all that it needs before the first envelope, and fails without
    /// that memory.
    pub fn new(
        alloc: Global,
        mode: Mode,
        kind: Kind,
        statics: &'s StaticTable,
        quotas: Quotas,
    ) -> Result<Initiator<'s>, Memory>
        ensures stands { IfOk result (λ initiator. StandsFor (reader_of initiator) []) }
        ensures settings { IfOk result (λ initiator. settings_of (reader_of initiator) ≡ record {
          side = receivers mode kind;
          statics = statics.now;
          limits = limits_of quotas;
        }) }
    {
        let reader = StreamReader::new(alloc, statics, quotas, Side::Receiver { mode, kind })?;
        Ok(Initiator { reader })
    }

    /// Uses the bytes of the piece up to and including the one that completes the next event, and
    /// answers how many they are, and the event: the Ack (`Accepted`), an envelope, the End, or a
    /// Fault in place of a record. It fails at the first byte that shows why the stream is refused,
    /// or without memory, and in the same way from then on. After End or Fault it uses nothing, and
    /// repeats that event.
    pub fn feed(&mut self, piece: &[u8]) -> Result<(usize, StreamStep), ReadRefusal>
        ensures { Feeds (reader_of self.old) piece.now (reader_of self.new) result }
    {
        self.reader.feed(piece)
    }

    /// Says that the input is over. It fails with `Truncated` unless End or Fault has come, or in
    /// simplex mode the Ack alone, and from then on. An initiator that has refused the stream fails
    /// in the same way.
    pub fn end_of_input(&mut self) -> Result<(), Offence>
        requires { failure_of (reader_of self.old) ≡ Some ReadRefusal.Memory → ⊥ }
        ensures { EndsInput (reader_of self.old) (reader_of self.new) result }
    {
        match self.reader.end_of_input() {
            Ok(()) => Ok(()),
            Err(ReadRefusal::Offence(offence)) => Err(offence),
            Err(ReadRefusal::Memory) => unreachable!(),
        }
    }

    /// Takes back a document that is no longer needed; the next one reuses its memory.
    pub fn reuse(&mut self, doc: Doc)
        ensures { Reuses (reader_of self.old) (reader_of self.new) }
    {
        self.reader.reuse(doc);
    }

    /// The text of the Fault Record that ended the session; empty before.
    pub fn fault_text(&self) -> &str
        ensures text { HasText (reader_of self.now) result.now }
        ensures before { WhereItStands (reader_of self.now) (λ p.
            is_over_at (stream (settings_of (reader_of self.now))) p ≡ false → result.now ≡ []) }
    {
        self.reader.text()
    }

    /// How many bytes were used; after a refusal by `feed`, how many show it; after memory ran out,
    /// how many the calls before used.
    pub fn taken(&self) -> u64
        ensures { HasTaken (reader_of self.now) result }
    {
        self.reader.taken()
    }

    /// The session strings of the direction so far; after a refusal in a payload, those read before
    /// it.
    pub fn table(&self) -> &SessionTable
        ensures { HasStrings (reader_of self.now) result.now.strings }
    {
        self.reader.table()
    }

    /// What it holds of the input: the bytes of the framing records' texts and of the payload's
    /// incomplete record, and the content of the document so far.
    pub fn kept(&self) -> Kept
        ensures { Holds (reader_of self.now) result }
    {
        self.reader.kept()
    }
}
