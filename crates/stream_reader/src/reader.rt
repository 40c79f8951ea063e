//! A reader of one side's stream, in any pieces.

ghost use Rattle.std.specs.Prelude.{◌≡◌, ℕ, ◌+◌, ◌≤◌, List, [], ◌++◌, length, take, IfOk, IfErr, OnOk, IsErrOf, Ok, Err, Some, None, false, true};
ghost use Rattle.unit_streams.specs.Grammar.{standing};
ghost use Rattle.unit_streams.specs.Judging.{answer, event_at, is_over_at, ending_at};
ghost use Rattle.nbfx_values.specs.Measures.{content_of};
ghost use Rattle.nbfx_values.specs.QuotasOf.{limits_of};
ghost use Rattle.nmf_records.specs.Reader.{limits_of as text_limits_of};
ghost use Rattle.nmf_records.specs.RecordFronts.{limits_within};
ghost use Rattle.nbfx_decoder.specs.DecoderState.{settings_of as decoder_settings};
ghost use Rattle.string_tables.specs.SessionStrings.{used_cost};
ghost use Rattle.stream_reader.specs.Sides.{side_of};
ghost use Rattle.stream_reader.specs.Stream.{stream, strings_in};

use crate::awaited::{Awaited, Closing};
use crate::side::Side;
use nbfx_decoder::Decoder;
use nbfx_values::{Doc, Kept, Kind, Mode, Offence, Quotas, Reason};
use nmf_records::{Due, FrameReader};
use session_dictionary::SessionTable;
use static_dictionary::StaticTable;
use std::alloc::Global;
use unit_streams::Memory;

/// The event that the bytes completed.
#[derive(Debug, Drop)]
pub enum StreamStep {
    /// None yet: more bytes are needed.
    More,
    /// An initiator's preamble, up to its Preamble End Record. Its Via is [`StreamReader::text`].
    Opened {
        /// Of the Mode Record.
        mode: Mode,
        /// Of the Known Encoding or Extensible Encoding Record.
        kind: Kind,
    },
    /// A receiver's Preamble Ack Record.
    Accepted,
    /// An envelope with its document.
    Message {
        /// The envelope's number, from 0.
        number: u64,
        /// How many bytes its payload has, of all chunks.
        size: u32,
        /// What the payload says.
        doc: Doc,
        /// How many session strings the direction has after it: those of [`StreamReader::table`].
        strings: u32,
        /// What these cost together: their bytes, and 1 for an empty one.
        used: u32,
    },
    /// An End Record, which ends the session.
    Ended {
        /// How many bytes the session has.
        bytes: u64,
    },
    /// A receiver's Fault Record, which ends the session. Its text is [`StreamReader::text`].
    PeerFault {
        /// How many bytes the session has.
        bytes: u64,
    },
}

/// Why a stream isn't read on. A reader that has failed answers the same from then on.
#[derive(Clone, Copy, Debug, PartialEq, Eq)]
pub enum ReadRefusal {
    /// The stream is refused: where, and why.
    Offence(Offence),
    /// Out of memory.
    Memory,
}

/// Reads the stream of one side (MC-NMF), in whatever pieces its bytes come. It holds of an
/// envelope's payload what a [`Decoder`] does: the items of the complete records, and the bytes of
/// the incomplete one.
#[derive(Drop)]
pub struct StreamReader<'s> {
    pub(crate) alloc: Global,
    pub(crate) side: Side,
    pub(crate) statics: &'s StaticTable,
    pub(crate) quotas: Quotas,
    pub(crate) frames: FrameReader,
    pub(crate) decoder: Decoder<'s>,
    pub(crate) awaited: Awaited,
    /// How the session ended, once it has.
    pub(crate) closing: Closing,
    pub(crate) mode: Mode,
    pub(crate) kind: Kind,
    /// How many documents were read.
    pub(crate) messages: u64,
    /// How many bytes were used.
    pub(crate) taken: u64,
    /// The offset at which the unit begins that is read.
    pub(crate) unit_from: u64,
    pub(crate) failure: Option<ReadRefusal>,
    ghost limits: { text_limits_of frames ≡ limits_within quotas.via },
    ghost decodes: { (decoder_settings decoder).limits ≡ limits_of quotas },
}

impl<'s> StreamReader<'s> {
    ghost use Rattle.stream_reader.specs.declared.reader.ReadRefusal.{ReadRefusal as Failure};
    ghost use Rattle.stream_reader.specs.Saying.{Says, Repeats, said_at_end};
    ghost use Rattle.stream_reader.specs.StreamReaderState.{settings_of, taken_of, held_of, content_held_of, messages_of, failure_of, StandsFor, FailedBehind, ShowsText, ShowsStrings, texts_within, WhereItStands, WhereItFailed, FailsBy, HasPayloads, begun_in, items_in};

    /// A reader before the first byte. It allocates all that it needs before the first envelope,
    /// and fails without that memory.
    pub fn new(
        alloc: Global,
        statics: &'s StaticTable,
        quotas: Quotas,
        side: Side,
    ) -> Result<StreamReader<'s>, Memory>
        ensures stands { IfOk result (λ reader. StandsFor reader []) }
        ensures settings { IfOk result (λ reader. settings_of reader ≡ record {
          side = side_of side;
          statics = statics.now;
          limits = limits_of quotas;
        }) }
    {
        let kind = side.kind();
        Ok(StreamReader {
            alloc,
            statics,
            quotas,
            frames: FrameReader::new(alloc, quotas.via)?,
            decoder: Decoder::new(alloc, statics, quotas, kind),
            awaited: Awaited::Record(Due::first(side.direction())),
            closing: Closing::End,
            mode: side.mode(),
            kind,
            side,
            messages: 0,
            taken: 0,
            unit_from: 0,
            failure: None,
        })
    }

    /// Uses the bytes of the piece up to and including the one that completes the next event, and
    /// answers how many they are, and the event. It fails at the first byte that shows why the
    /// stream is refused, or without memory, and in the same way from then on. After the session's
    /// end it uses nothing, and repeats the event that ended it.
    pub fn feed(&mut self, piece: &[u8]) -> Result<(usize, StreamStep), ReadRefusal>
        ensures within { IfOk result (λ answer. answer.0 ≤ length piece.now) }
        // The answer is decided at the first byte that completes an event or shows a refusal.
        ensures answers { WhereItStands self.old (λ p.
            is_over_at (stream (settings_of self.old)) p ≡ false
            → Says (length piece.now) (answer (stream (settings_of self.old)) p piece.now)
            result) }
        // It takes no memory where no payload may come before the next event.
        ensures wanted { WhereItStands self.old (λ p. IsErrOf result ReadRefusal.Memory
            → HasPayloads (standing (stream (settings_of self.old)) p).situation.stage) }
        ensures ended { WhereItStands self.old (λ p.
            is_over_at (stream (settings_of self.old)) p ≡ true
            → Repeats (event_at (stream (settings_of self.old)) p) result) }
        ensures repeated { (refusal : Failure) → failure_of self.old ≡ Some refusal
            → result ≡ Err refusal }
        ensures unchanged { (refusal : Failure) → failure_of self.old ≡ Some refusal
            → self.new ≡ self.old }

        // What it stands for then, or shows of what is refused.
        ensures stands { WhereItStands self.old (λ p.
            IfOk result (λ step. StandsFor self.new (p ++ take step.0 piece.now))) }
        ensures failed { WhereItStands self.old (λ p.
            is_over_at (stream (settings_of self.old)) p ≡ false
            → IfErr result (FailsBy self.new p piece.now
            (answer (stream (settings_of self.old)) p piece.now))) }
        ensures refused { IfErr result (λ refusal. failure_of self.new ≡ Some refusal) }
        ensures settings { settings_of self.new ≡ settings_of self.old }
    {
        if let Some(refusal) = self.failure {
            return Err(refusal);
        }
        if self.has_ended() {
            return Ok((0, self.closing_step()));
        }
        let room = self.room(piece.len());
        let mut used = 0;
        let before = self.taken;
        while used < room {
            let (n, step) = match self.unit(&piece[used..room]) {
                Ok(answer) => answer,
                Err(refusal) => return Err(self.refused_since(before, refusal)),
            };
            used += n;
            if n == 0 {
                return Ok((used, step));
            }
            match step {
                StreamStep::More => {}
                _ => return Ok((used, step)),
            }
        }
        if self.taken >= self.quotas.session {
            let from = self.open_from();
            return Err(self.refuse(from, Reason::SessionTooLong));
        }
        Ok((used, StreamStep::More))
    }

    /// Says that the input is over. It fails with `Truncated`, and from then on, unless the session
    /// has ended, or a receiver's Ack in simplex mode is all that has come. A reader that has
    /// failed before fails in the same way.
    pub fn end_of_input(&mut self) -> Result<(), ReadRefusal>
        ensures answers { WhereItStands self.old (λ p.
            result ≡ said_at_end (ending_at (stream (settings_of self.old)) p)) }
        ensures wanted { result ≡ Err ReadRefusal.Memory
            → failure_of self.old ≡ Some ReadRefusal.Memory }
        ensures repeated { (refusal : Failure) → failure_of self.old ≡ Some refusal
            → result ≡ Err refusal }
        ensures unchanged { (refusal : Failure) → failure_of self.old ≡ Some refusal
            → self.new ≡ self.old }
        ensures failed { WhereItStands self.old (λ p.
            IfErr result (λ refusal. FailedBehind self.new refusal (length p) p)) }
        ensures refused { IfErr result (λ refusal. failure_of self.new ≡ Some refusal) }
        ensures kept { OnOk result (self.new ≡ self.old) }
        ensures settings { settings_of self.new ≡ settings_of self.old }
    {
        if let Some(refusal) = self.failure {
            return Err(refusal);
        }
        if self.may_end() {
            return Ok(());
        }
        let from = self.open_from();
        Err(self.refuse(from, Reason::Truncated))
    }

    /// Takes back a document that is no longer needed; the next one reuses its memory.
    pub fn reuse(&mut self, doc: Doc)
        ensures stands { WhereItStands self.old (StandsFor self.new) }
        ensures failed { WhereItFailed self.old (FailedBehind self.new) }
        ensures settings { settings_of self.new ≡ settings_of self.old }
    {
        self.decoder.reuse(doc);
    }

    /// The text of the last complete Via or Fault Record; empty before the first one.
    pub fn text(&self) -> &str
        ensures shown { (text : List ℕ) → ShowsText self.now text → result.now ≡ text }
        ensures stands { WhereItStands self.now (λ p.
            result.now ≡ (standing (stream (settings_of self.now)) p).situation.text) }
        ensures failed { WhereItFailed self.now (λ refusal taken p.
            result.now ≡ (standing (stream (settings_of self.now)) p).situation.text) }
    {
        self.frames.text()
    }

    /// How many bytes were used; after a refusal by `feed`, how many show it; after memory ran out,
    /// how many the calls before used.
    pub fn taken(&self) -> u64
        ensures counted { result ≡ taken_of self.now }
        ensures stands { WhereItStands self.now (λ p. result ≡ length p) }
        ensures failed { WhereItFailed self.now (λ refusal taken p. result ≡ taken) }
        ensures within { WhereItStands self.now (λ p.
            length p ≤ (settings_of self.now).limits.session) }
    {
        self.taken
    }

    /// The refusal that it answers from now on, if it has failed.
    pub fn failure(&self) -> Option<ReadRefusal>
        ensures { result ≡ failure_of self.now }
    {
        self.failure
    }

    /// How many documents were read.
    pub fn messages(&self) -> u64
        ensures counted { result ≡ messages_of self.now }
        ensures stands { WhereItStands self.now (λ p.
            result ≡ (standing (stream (settings_of self.now)) p).situation.messages) }
        ensures failed { WhereItFailed self.now (λ refusal taken p.
            result ≡ (standing (stream (settings_of self.now)) p).situation.messages) }
    {
        self.messages
    }

    /// The session strings of the direction so far; after a refusal in a payload, those read before
    /// it.
    pub fn table(&self) -> &SessionTable
        ensures shown { (strings : List (List ℕ)) → ShowsStrings self.now strings
            → result.now.strings ≡ strings }
        ensures stands { WhereItStands self.now (λ p. result.now.strings
            ≡ strings_in (standing (stream (settings_of self.now)) p).situation) }
        ensures failed { WhereItFailed self.now (λ refusal taken p. result.now.strings
            ≡ strings_in (standing (stream (settings_of self.now)) p).situation) }
        ensures within { WhereItStands self.now (λ p. used_cost result.now.strings
            ≤ (settings_of self.now).limits.dictionary) }
        ensures failed_within { WhereItFailed self.now (λ refusal taken p.
            used_cost result.now.strings ≤ (settings_of self.now).limits.dictionary) }
    {
        self.decoder.table()
    }

    /// What it holds of the input: the bytes of the framing records' texts and of the payload's
    /// incomplete record, and the content of the document so far.
    #[tactic(auto, unfolding(crate::specs::StreamReaderState::held_of, crate::specs::StreamReaderState::content_held_of))]
    pub fn kept(&self) -> Kept
        ensures held { result.raw ≡ held_of self.now }
        ensures content_held { result.content ≡ content_held_of self.now }
        ensures raw { WhereItStands self.now (λ p. result.raw
            ≤ length (begun_in (standing (stream (settings_of self.now)) p).situation.stage)
            + texts_within (settings_of self.now).limits) }
        ensures content { WhereItStands self.now (λ p. result.content
            ≡ content_of (items_in (standing (stream (settings_of self.now)) p).situation.stage)) }
        ensures within { WhereItStands self.now (λ p. (result.raw
            ≤ (settings_of self.now).limits.payload + texts_within (settings_of self.now).limits)
            × (result.content ≤ (settings_of self.now).limits.content)) }
        ensures failed { WhereItFailed self.now (λ refusal taken p. (result.raw
            ≤ (settings_of self.now).limits.payload + texts_within (settings_of self.now).limits)
            × (result.content ≤ (settings_of self.now).limits.content)) }
    {
        let payload = self.decoder.kept();
        Kept {
            raw: payload.raw.saturating_add(self.frames.held() as u64),
            content: payload.content,
        }
    }
}
